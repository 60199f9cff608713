//! What is wrong with a part of a document that doesn't keep a rule: in words, and where in it.
#![tactic(auto)]

mod conditions;
mod declarations;
mod hints;
mod mistake;
mod operations;
mod parts;
mod phrases;
mod place;
mod shown;
mod steps;

pub use mistake::words;
pub use place::{place_within, shown_token};
