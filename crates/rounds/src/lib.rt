//! Running a batch in rounds. Transactions are run speculatively on the objects of an opening, and
//! those before the first conflict are committed in order of number.
#![tactic(auto)]

mod check;
mod committing;
mod job;
pub mod laws;
mod make;
mod openings;
mod pending_run;
mod repeating;
mod reused;
mod seek;
mod window;
mod workspace;

pub use batch::{Batch, Outcome, Record};
pub use check::first_conflict;
pub use objects::{Entry, Objects};
pub use openings::{execute, execute_ahead};
pub use plan::Plan;
pub use serial::NoMemory;
pub use speculate::{Gate, NoGate, Progress, Run};
