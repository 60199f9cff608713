//! What a batch of nested transactions over typed objects means, and the laws of that meaning.
#![tactic(auto)]

mod end;
mod held;
pub mod laws;
pub mod limits;
mod template;
mod test;

pub use end::End;
pub use held::Held;
pub use template::{Argument, Refusal, Template};
pub use test::Test;
pub use vocabulary::Word;
