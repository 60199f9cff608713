//! A gate that finds how many children are inside at once.
use speculate::{Gate, Progress, Run};
use std::hint;
use std::sync::atomic::{AtomicBool, AtomicU32, Ordering};

// How many turns a child waits for others at most.
const TURNS: u32 = 1 << 28;

// How many turns a child stays after that, so that one too many would come in.
const STAY: u32 = 1 << 18;

/// Holds each child that starts until as many as wanted have been inside at once, and a little
/// longer. It keeps the highest number that was inside at once. Where one child has waited in vain,
/// none waits after it.
#[derive(Drop)]
pub struct Crowd {
    wanted: u32,
    inside: AtomicU32,
    most: AtomicU32,
    in_vain: AtomicBool,
}

impl Crowd {
    /// A gate that no child has come to, and that waits for so many at once.
    pub fn new(wanted: u32) -> Crowd {
        Crowd {
            wanted,
            inside: AtomicU32::new(0),
            most: AtomicU32::new(0),
            in_vain: AtomicBool::new(false),
        }
    }

    /// The highest number of children that were inside at once.
    pub fn most(&self) -> u32 {
        self.most.load(Ordering::SeqCst)
    }

    fn wait(&self) {
        for _ in 0..TURNS {
            if self.most() >= self.wanted || self.in_vain.load(Ordering::SeqCst) {
                return;
            }
            hint::spin_loop();
        }
        self.in_vain.store(true, Ordering::SeqCst);
    }
}

impl Gate for Crowd {
    fn pass(&self, transaction: u32, child: u32) {
        if transaction == 0 || child == 0 {
            return;
        }
        let before = self.inside.fetch_add(1, Ordering::SeqCst);
        self.most
            .fetch_max(before.saturating_add(1), Ordering::SeqCst);
        self.wait();
        for _ in 0..STAY {
            hint::spin_loop();
        }
        self.inside.fetch_sub(1, Ordering::SeqCst);
    }

    fn made(&self, _transaction: u32, _run: &Run) {}

    fn ended(&self, _progress: &Progress) {}
}
