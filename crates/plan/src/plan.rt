//! A plan, and what follows from it for a pass and for a run.
ghost use Rattle.std.specs.Prelude.{◌≡◌, ◌≤◌, ◌<◌, ◌-◌, ◌*◌, ◌/◌, ◌↔◌, min, max, IsSome, IfSome, None, Some, false, true};
ghost use Rattle.plan.specs.Plans.{IsPlan, width_of};

use std::hash::RandomState;

/// How many workers there are at most.
pub const MAX_WORKERS: u32 = 64;

/// How many transactions a piece of work has at most.
pub const MAX_CUT: u32 = 1_000;

// How many operations a worker performs at the least for each transaction of the cut after the
// first. Fewer are done sooner than a thread starts.
const OPERATIONS: usize = 256;

/// A plan of 1 to 64 workers, and pieces of 1 to 1,000 transactions.
#[derive(Clone, Copy, Debug)]
pub struct Plan {
    /// How many workers there are, 1 to 64.
    pub workers: u32,
    /// How many transactions a piece of work has at most, 1 to 1,000.
    pub cut: u32,
    /// Whether the program ends after the call with this plan.
    pub last: bool,
    /// The keys by which the names of a document are hashed. Without keys its bytes are the key.
    pub keys: Option<RandomState>,
    pub ghost is_plan: { IsPlan workers cut },
}

impl Plan {
    /// The plan of these numbers for a call after which the program goes on, without keys. It is none
    /// outside the limits.
    pub fn new(workers: u32, cut: u32) -> Option<Plan>
        ensures some { IsSome result ↔ IsPlan workers cut }
        ensures is { IfSome result (λ plan. (plan.workers ≡ workers) × (plan.cut ≡ cut)) }
        ensures not_last { IfSome result (λ plan. plan.last ≡ false) }
        ensures no_keys { IfSome result (λ plan. plan.keys ≡ None) }
    {
        if workers < 1 || workers > MAX_WORKERS || cut < 1 || cut > MAX_CUT {
            return None;
        }
        Some(Plan {
            workers,
            cut,
            last: false,
            keys: None,
        })
    }

    /// The same plan for a call after which the program ends. What the call read and recorded isn't
    /// freed then, piece by piece: all memory is freed at once as the program ends.
    pub fn of_last_call(self) -> Plan
        ensures same { (result.workers ≡ self.workers) × (result.cut ≡ self.cut) }
        ensures last { result.last ≡ true }
        ensures keys { result.keys ≡ self.keys }
    {
        Plan {
            workers: self.workers,
            cut: self.cut,
            last: true,
            keys: self.keys,
        }
    }

    /// The same plan with keys that no author of a document knows. The results are the same for any.
    pub fn with_keys(self, keys: RandomState) -> Plan
        ensures same { (result.workers ≡ self.workers) × (result.cut ≡ self.cut) }
        ensures last { result.last ≡ self.last }
        ensures keys { result.keys ≡ Some keys }
    {
        let Plan {
            workers,
            cut,
            last,
            ..
        } = self;
        Plan {
            workers,
            cut,
            last,
            keys: Some(keys),
        }
    }

    /// How many workers each run gets, where so many transactions need a run. So many children of a
    /// parallel block it may run at once. The runs share the workers of the plan evenly, rounded
    /// down. Where there are more runs than workers, each run gets 1.
    pub fn width(self, runs: u32) -> u32
        ensures within { (1 ≤ result) × (result ≤ self.workers) }
        ensures shared { result ≡ width_of self.workers runs }
    {
        self.workers / self.workers.min(runs).max(1)
    }

    /// How many workers share so many operations. The results are the same for any number of them.
    ///
    /// With a cut of 1 they are all workers of the plan, however few operations there are. With a
    /// larger cut there is one worker for each `256 * (cut - 1)` operations, at least 1 and at most
    /// all.
    pub fn workers_for(self, operations: usize) -> u32
        ensures within { (1 ≤ result) × (result ≤ self.workers) }
        ensures all { self.cut ≡ 1 → result ≡ self.workers }
        ensures paid { 1 < self.cut → result ≡ max 1
            (min self.workers (operations / (256 * (self.cut - 1)))) }
    {
        if self.cut == 1 {
            return self.workers;
        }
        let share = OPERATIONS * (self.cut as usize - 1);
        let workers = (operations / share).min(self.workers as usize);
        workers.max(1) as u32
    }
}
