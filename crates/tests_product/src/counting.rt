//! A gate that counts runs.
ghost use Rattle.std.specs.Prelude.{◌<◌, IfSome};

use batch::Taken;
use objects::{AccountReply, Entry, Reply};
use speculate::{Gate, Progress, Run};
use std::sync::atomic::{AtomicU32, Ordering};

/// How many transactions are counted.
const COUNTED: usize = 3;

/// Counts, for each of the first three transactions, the runs that began and those that were made.
/// It keeps which was the last run of each whose first reply was `no`, and how long the lists of
/// the last run of each were. It also counts the runs that began of all transactions.
#[derive(Drop)]
pub struct Counting {
    all: AtomicU32,
    begun: [AtomicU32; COUNTED],
    made: [AtomicU32; COUNTED],
    refused: [AtomicU32; COUNTED],
    entries: [AtomicU32; COUNTED],
    net: [AtomicU32; COUNTED],
}

impl Counting {
    /// A gate that has seen no run.
    pub fn new() -> Counting {
        Counting {
            all: AtomicU32::new(0),
            begun: [AtomicU32::new(0), AtomicU32::new(0), AtomicU32::new(0)],
            made: [AtomicU32::new(0), AtomicU32::new(0), AtomicU32::new(0)],
            refused: [AtomicU32::new(0), AtomicU32::new(0), AtomicU32::new(0)],
            entries: [AtomicU32::new(0), AtomicU32::new(0), AtomicU32::new(0)],
            net: [AtomicU32::new(0), AtomicU32::new(0), AtomicU32::new(0)],
        }
    }

    /// How many runs began.
    pub fn all(&self) -> u32 {
        self.all.load(Ordering::SeqCst)
    }

    /// How many runs of each transaction began.
    pub fn begun(&self) -> [u32; COUNTED] {
        counts(&self.begun)
    }

    /// How many runs of each transaction were made.
    pub fn made(&self) -> [u32; COUNTED] {
        counts(&self.made)
    }

    /// Which run of each transaction, from 1, was the last whose first reply was `no`, or 0.
    pub fn refused(&self) -> [u32; COUNTED] {
        counts(&self.refused)
    }

    /// How many entries the last run of each transaction had.
    pub fn entries(&self) -> [u32; COUNTED] {
        counts(&self.entries)
    }

    /// How many entries there were in the net of the last run of each transaction.
    pub fn net(&self) -> [u32; COUNTED] {
        counts(&self.net)
    }
}

// How many entries there are, where a counter can say so.
fn length_of(entries: &[Entry]) -> u32 {
    u32::try_from(entries.len()).unwrap_or(u32::MAX)
}

fn counts(all: &[AtomicU32; COUNTED]) -> [u32; COUNTED] {
    [
        all[0].load(Ordering::SeqCst),
        all[1].load(Ordering::SeqCst),
        all[2].load(Ordering::SeqCst),
    ]
}

// The place of a transaction among those that are counted, if it is one.
fn place(transaction: u32) -> Option<usize>
    ensures { IfSome result (λ i. i < 3) }
{
    match transaction {
        1..=3 => Some(transaction as usize - 1),
        _ => None,
    }
}

impl Gate for Counting {
    fn pass(&self, transaction: u32, child: u32) {
        if child != 0 {
            return;
        }
        if transaction != 0 {
            self.all.fetch_add(1, Ordering::SeqCst);
        }
        if let Some(i) = place(transaction) {
            self.begun[i].fetch_add(1, Ordering::SeqCst);
        }
    }

    fn made(&self, transaction: u32, run: &Run) {
        let Some(i) = place(transaction) else { return };
        let before = self.made[i].fetch_add(1, Ordering::SeqCst);
        self.entries[i].store(length_of(&run.entries), Ordering::SeqCst);
        self.net[i].store(length_of(&run.net), Ordering::SeqCst);
        if let Some(Taken::Op(Reply::Account(AccountReply::No))) = run.tree.taken.first() {
            self.refused[i].store(before.saturating_add(1), Ordering::SeqCst);
        }
    }

    fn ended(&self, _progress: &Progress) {}
}
