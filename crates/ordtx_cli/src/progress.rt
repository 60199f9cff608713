//! How far a run is, on one line of standard error that is written anew.
use ordtx::{Gate, Progress, Run};
use std::sync::atomic::{AtomicBool, Ordering};

/// Writes how far a run is, as a round ends. It does so where another hundredth of the transactions
/// is committed, so at most a hundred times. What becomes of the writing changes nothing.
#[derive(Drop)]
pub struct ProgressLine<'a> {
    rt: &'a HostRuntime,
    begun: AtomicBool,
}

impl<'a> ProgressLine<'a> {
    pub fn new(rt: &'a HostRuntime) -> ProgressLine<'a> {
        ProgressLine {
            rt,
            begun: AtomicBool::new(false),
        }
    }

    /// Ends the line, where one was begun and isn't ended yet.
    pub fn end(&self) {
        if self.begun.swap(false, Ordering::SeqCst) {
            let _ = self.rt.eprint("\n");
        }
    }
}

impl Gate for ProgressLine<'_> {
    fn pass(&self, _transaction: u32, _child: u32) {}

    fn made(&self, _transaction: u32, _run: &Run) {}

    fn looks(&self) -> bool {
        false
    }

    fn ended(&self, progress: &Progress) {
        let Progress {
            round,
            before,
            committed,
            transactions,
        } = *progress;
        if hundredths(committed, transactions) > hundredths(before, transactions) {
            let rt = self.rt;
            let _ = eprint!(rt; "\rround {round}, {committed} of {transactions} transactions");
            self.begun.store(true, Ordering::SeqCst);
        }
        if committed == transactions {
            self.end();
        }
    }
}

// How many hundredths of the whole a part is.
fn hundredths(part: usize, whole: usize) -> usize {
    part.saturating_mul(100) / whole.max(1)
}
