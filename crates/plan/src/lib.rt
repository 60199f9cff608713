//! A plan: how many workers a run has, how many transactions a piece of their work has, how many of
//! the workers share so much work, and by which keys names are hashed.
#![tactic(auto)]

mod plan;

pub use plan::{MAX_CUT, MAX_WORKERS, Plan};
