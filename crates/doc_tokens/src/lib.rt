//! The pull reader: what is valid is read once, with no tree of JSON values between the text and the
//! batch. Where it stops, `lang` reads the values again and finds the fault.
#![tactic(auto)]

mod digits;
mod head;
pub mod members;
pub mod notes;
pub mod pass;
pub mod pull;
pub mod pull_blocks;
pub mod pull_heads;
mod pull_objects;
pub mod ranges;
pub mod stop;
