//! A gate that counts the runs of each transaction.
use speculate::{Gate, Progress, Run};
use std::alloc::{AllocError, Global};
use std::sync::atomic::{AtomicU32, Ordering};

/// Counts, for each transaction of a batch, the runs that began and those that were made.
#[derive(Drop)]
pub struct Tally {
    begun: Vec<AtomicU32>,
    made: Vec<AtomicU32>,
}

impl Tally {
    /// A gate for so many transactions that has seen no run.
    pub fn new(alloc: Global, transactions: usize) -> Result<Tally, AllocError> {
        Ok(Tally {
            begun: none_yet(alloc, transactions)?,
            made: none_yet(alloc, transactions)?,
        })
    }

    /// How many runs of each transaction began.
    pub fn begun(&self, alloc: Global) -> Result<Vec<u32>, AllocError> {
        counts(alloc, &self.begun)
    }

    /// How many runs of each transaction were made.
    pub fn made(&self, alloc: Global) -> Result<Vec<u32>, AllocError> {
        counts(alloc, &self.made)
    }
}

fn none_yet(alloc: Global, transactions: usize) -> Result<Vec<AtomicU32>, AllocError> {
    let mut all = Vec::new(alloc);
    for _ in 0..transactions {
        all.push(AtomicU32::new(0))?;
    }
    Ok(all)
}

fn counts(alloc: Global, all: &[AtomicU32]) -> Result<Vec<u32>, AllocError> {
    let mut counts = Vec::new(alloc);
    for count in all {
        counts.push(count.load(Ordering::SeqCst))?;
    }
    Ok(counts)
}

// Counts one more run of a transaction, where it is one of the batch.
fn add(all: &[AtomicU32], transaction: u32) {
    if let Some(count) = all.get((transaction as usize).wrapping_sub(1)) {
        count.fetch_add(1, Ordering::SeqCst);
    }
}

impl Gate for Tally {
    fn pass(&self, transaction: u32, child: u32) {
        if child == 0 {
            add(&self.begun, transaction);
        }
    }

    fn made(&self, transaction: u32, _run: &Run) {
        add(&self.made, transaction);
    }

    fn ended(&self, _progress: &Progress) {}
}
