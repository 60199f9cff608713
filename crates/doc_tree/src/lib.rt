//! What the text of a document spells, member by member: what is asked of its objects and steps,
//! in the order of the faults, and the batch's values that they spell. `doc_tokens` and `lang` rest on it.
#![tactic(auto)]

pub mod arguments;
mod conditions;
pub mod counts;
pub mod declared;
mod digests;
pub mod hashing;
pub mod heads;
mod hints;
pub mod labels;
pub mod look;
pub mod numbers;
pub mod operations;
mod outlines;
pub mod reasons;
pub mod starts;
pub mod state;
pub mod steps;
pub mod unmet;
