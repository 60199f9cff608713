//! The command line: what its words ask for, or why they are refused. `clap` matches the words.
#![tactic(auto)]

mod asked;
mod reading;

pub use asked::{Command, Line, Refused};
pub use plan::Plan;
pub use reading::line;
