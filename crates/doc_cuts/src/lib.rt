//! Where a document may be cut into ranges that are read one after the other.
#![tactic(auto)]

mod cut;

pub use cut::next_cut;
