//! Faults: why a document has no report, each with its number.
#![tactic(auto)]

mod fault;

pub use fault::{Code, Fault, Wrong};
