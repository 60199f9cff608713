//! The one-thread executor. It runs the transactions by number, depth first, on objects that are
//! changed in place. Where a subaction or a transaction aborts, its changes are taken back.
#![tactic(auto)]

mod executor;
mod transactions;
mod workspace;

pub use batch::{Batch, Plain};
pub use serial::NoMemory;
pub use transactions::plain;
