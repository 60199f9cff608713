//! Speculative runs: what a transaction does on the objects of an opening, with all operations that
//! it performed.
#![tactic(auto)]

mod ahead;
mod executor;
mod gate;
pub mod laws;
mod reached;
mod spare;
mod speculated;
mod step;
mod transaction;
mod worth;

pub use batch::{Batch, Block, Outcome, Plain, Record, Step, Subaction, Taken};
pub use gate::{Gate, NoGate, Progress};
pub use intentions::View;
pub use meaning::{End, Held};
pub use objects::{Entry, Objects};
pub use one_thread::plain;
pub use serial::NoMemory;
pub use speculated::Run;
pub use transaction::{Maker, run, run_in};
