//! Reads ranges of a document alone, and puts what was read after one another, by the numbers that
//! items and reasons have in the whole document.
#![tactic(auto)]

mod blocks;
pub mod laws;
mod parts;
pub mod ranges;
mod tables;

pub use blocks::{NewNumbers, renumber_block};
