//! Why a batch takes so many rounds: for each round but the last, the first conflict, which ends
//! it.
#![tactic(auto)]

pub mod laws;
mod lines;
mod places;
mod round;
mod search;

pub use lines::render_why;
