//! A gate that counts how often a child starts.
use speculate::{Gate, Progress, Run};
use std::sync::atomic::{AtomicU32, Ordering};

/// Counts the calls of `Gate::pass` with this transaction and child.
#[derive(Drop)]
pub struct ChildCounting {
    counted: (u32, u32),
    count: AtomicU32,
}

impl ChildCounting {
    /// A gate that counts for this transaction and child, with no call yet.
    pub fn new(counted: (u32, u32)) -> ChildCounting {
        ChildCounting {
            counted,
            count: AtomicU32::new(0),
        }
    }

    /// How many calls there were.
    pub fn count(&self) -> u32 {
        self.count.load(Ordering::SeqCst)
    }
}

impl Gate for ChildCounting {
    fn pass(&self, transaction: u32, child: u32) {
        if (transaction, child) == self.counted {
            self.count.fetch_add(1, Ordering::SeqCst);
        }
    }

    fn made(&self, _transaction: u32, _run: &Run) {}

    fn ended(&self, _progress: &Progress) {}
}
