//! The laws on which speculative runs rest. A run moves past entries with which its own commute
//! forward. What it keeps leads to the state where it ended. Children may be run at once.
pub use meaning::laws::{children_fork, nets_lead, runs_move};
