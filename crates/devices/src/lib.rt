//! Devices: where bytes come from and where they go; all bytes read, and texts written whole.
#![tactic(auto)]

mod input;
mod marked;
mod output;
mod sink;
mod source;

pub use input::{Unread, read_input};
pub use marked::Marked;
pub use output::{write_text, write_texts};
pub use sink::Sink;
pub use source::{Failed, Source};
