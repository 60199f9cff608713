//! A gate that holds one call until another comes.
use meaning::limits::MAX_TRANSACTIONS;
use speculate::{Gate, Progress, Run};
use std::hint;
use std::sync::atomic::{AtomicBool, Ordering};

// How many turns a held call waits at most.
const TURNS: u32 = 1 << 30;

/// The call of `pass` as a worker begins to decide whether the first pending run is kept.
pub const FIRST_DECISION: (u32, u32) = (0, MAX_TRANSACTIONS as u32 + 1);

/// That of the second pending run.
pub const SECOND_DECISION: (u32, u32) = (0, MAX_TRANSACTIONS as u32 + 2);

/// Holds the call `held` of `pass` until the call `other` came, and reports whether they met. Each
/// is a transaction and a child, as `pass` is given them.
#[derive(Drop)]
pub struct Meeting {
    held: (u32, u32),
    other: (u32, u32),
    came: AtomicBool,
    met: AtomicBool,
}

impl Meeting {
    /// A gate for these two calls, of which none came yet.
    pub fn new(held: (u32, u32), other: (u32, u32)) -> Meeting {
        Meeting {
            held,
            other,
            came: AtomicBool::new(false),
            met: AtomicBool::new(false),
        }
    }

    /// Whether the held call came, and the other one came before its turns ran out.
    pub fn has_met(&self) -> bool {
        self.met.load(Ordering::SeqCst)
    }

    fn hold(&self) {
        for _ in 0..TURNS {
            if self.came.load(Ordering::SeqCst) {
                self.met.store(true, Ordering::SeqCst);
                return;
            }
            hint::spin_loop();
        }
    }
}

impl Gate for Meeting {
    fn pass(&self, transaction: u32, child: u32) {
        if (transaction, child) == self.other {
            self.came.store(true, Ordering::SeqCst);
        }
        if (transaction, child) == self.held {
            self.hold();
        }
    }

    fn made(&self, _transaction: u32, _run: &Run) {}

    fn ended(&self, _progress: &Progress) {}
}
