//! What running a batch returns.
use crate::record::Record;
use objects::Objects;

/// The result of running the transactions by number on one thread.
#[derive(Debug, Drop)]
pub struct Plain {
    /// One record for each transaction, by number.
    pub records: Vec<Record>,
    /// The objects after the last transaction.
    pub objects: Objects,
}

/// The result of running the transactions in rounds of speculative runs.
#[derive(Debug, Drop)]
pub struct Outcome {
    /// One record for each transaction, by number.
    pub records: Vec<Record>,
    /// The objects after the last transaction.
    pub objects: Objects,
    /// How many rounds it took.
    pub rounds: u32,
    /// How often each transaction was run, by number.
    pub runs: Vec<u32>,
}
