//! The laws on which rounds rest. What transactions leave leads from state to state. A run that
//! keeps is the one-thread run. Openings, rounds and run counts are determined.
pub use meaning::laws::{batches_lead, kept_runs_answer, rounds_are_determined};
