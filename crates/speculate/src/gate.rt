//! The hook through which a caller sees what the executor does.
use crate::speculated::Run;

/// How far a batch is as one of its rounds ends.
#[derive(Clone, Copy, Debug)]
pub struct Progress {
    /// The number of the round, from 1.
    pub round: u32,
    /// How many transactions were committed before it.
    pub before: usize,
    /// How many are committed now.
    pub committed: usize,
    /// How many the batch has.
    pub transactions: usize,
}

/// Sees runs and checks begin, and runs end, from the threads that they are made on. It sees rounds
/// end. It changes no result.
///
/// - `pass(t, 0)` is called as a run of transaction `t` starts.
/// - `pass(t, c)` is called as child `c` (from 1) of one of its parallel blocks starts, and once
///   more where the child is run again.
/// - `pass(0, i)` is called as the check of the `i`-th run of a round (from 1) starts.
/// - `pass(0, m + i)`, where `m` is the most transactions that a batch has, is called as a worker
///   begins to decide whether the `i`-th pending run of a later opening (from 1) is kept.
pub trait Gate: Sync {
    fn pass(&self, transaction: u32, child: u32);

    /// Called when a run of the transaction has been made. Where the gate looks at runs, this one
    /// has its record, its entries and its net. Where it doesn't, the list of the net is of no use.
    fn made(&self, transaction: u32, run: &Run);

    /// Whether it looks at the runs that were made. For a gate that doesn't, a net that is all of the
    /// entries isn't listed.
    fn looks(&self) -> bool {
        true
    }

    /// Called as a round ends, from the thread that runs the batch.
    fn ended(&self, progress: &Progress);
}

/// A gate that does nothing.
#[derive(Clone, Copy, Debug)]
pub struct NoGate;

impl Gate for NoGate {
    fn pass(&self, _transaction: u32, _child: u32) {}

    fn made(&self, _transaction: u32, _run: &Run) {}

    fn looks(&self) -> bool {
        false
    }

    fn ended(&self, _progress: &Progress) {}
}
