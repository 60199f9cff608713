//! What the passes of a round are run with, and how many workers a pass gets.
ghost use Rattle.std.specs.Prelude.{◌≡◌, ◌≤◌};
ghost use Rattle.plan.specs.declared.plan.TheConstants.{MAX_WORKERS};

use batch::Batch;
use plan::Plan;
use std::alloc::Global;

/// The right to start threads, the allocator, the batch, how many workers there are, the gate that
/// sees them, and how many operations a run is taken to have.
#[derive(Drop)]
pub(crate) struct Job<'a, R, G> {
    pub(crate) threads: &'a R,
    pub(crate) alloc: Global,
    pub(crate) batch: &'a Batch,
    pub(crate) plan: Plan,
    pub(crate) gate: &'a G,
    pub(crate) operations_each: usize,
}

impl<'a, R, G> Job<'a, R, G> {
    /// A job for the runs of a batch.
    pub(crate) fn of(
        threads: &'a R,
        alloc: Global,
        batch: &'a Batch,
        plan: Plan,
        gate: &'a G,
    ) -> Job<'a, R, G>
        ensures plan { result.plan ≡ plan }
        ensures batch { result.batch.now ≡ batch.now }
    {
        Job {
            threads,
            alloc,
            batch,
            plan,
            gate,
            operations_each: operations_each(batch),
        }
    }

    /// All of its workers.
    pub(crate) fn workers(&self) -> Workers<'a, R, G>
        ensures within { (1 ≤ result.count) × (result.count ≤ MAX_WORKERS) }
        ensures all { result.count ≡ self.now.plan.workers }
    {
        Workers {
            threads: self.threads,
            alloc: self.alloc,
            count: self.plan.workers,
            gate: self.gate,
        }
    }
}

/// So many workers that check runs, with what they need for it.
#[derive(Drop)]
pub(crate) struct Workers<'a, R, G> {
    pub(crate) threads: &'a R,
    pub(crate) alloc: Global,
    pub(crate) count: u32,
    pub(crate) gate: &'a G,
}

/// About how many operations are checked in the time in which one is performed.
const CHECKS: usize = 8;

/// How many workers to make so many runs with: all of the plan with a cut of 1, and else as many as
/// pay for the operations that the runs are taken to have.
pub(crate) fn makers<R, G>(job: &Job<R, G>, runs: usize) -> u32
    ensures within { (1 ≤ result) × (result ≤ job.now.plan.workers) }
    ensures all { job.now.plan.cut ≡ 1 → result ≡ job.now.plan.workers }
{
    job.plan
        .workers_for(runs.saturating_mul(job.operations_each))
}

/// How many operations of committed runs are enough for a worker.
const COMMITTED: usize = 4096;

/// How many workers to commit so many runs with: one for each 4,096 of the operations that they are
/// taken to have, at least 1 and at most all of the plan.
pub(crate) fn committers<R, G>(job: &Job<R, G>, runs: usize) -> u32
    ensures within { (1 ≤ result) × (result ≤ job.now.plan.workers) }
{
    let operations = runs.saturating_mul(job.operations_each);
    let workers = (operations / COMMITTED).min(job.plan.workers as usize);
    workers.max(1) as u32
}

/// How many workers to check so many runs with: all of the plan with a cut of 1, and else as many as
/// pay for an eighth of the operations that the runs are taken to have.
pub(crate) fn checkers<R, G>(job: &Job<R, G>, runs: usize) -> u32
    ensures within { (1 ≤ result) × (result ≤ job.now.plan.workers) }
    ensures all { job.now.plan.cut ≡ 1 → result ≡ job.now.plan.workers }
{
    job.plan
        .workers_for(runs.saturating_mul(job.operations_each) / CHECKS)
}

// How many transactions of a batch are counted at most, and at least where there are so many.
const MOST_COUNTED: usize = 64;

const FEWEST_COUNTED: usize = 8;

// How many operations are enough to stop counting.
const ENOUGH: usize = 4096;

// How many are enough whatever few transactions have them.
const MANY: usize = 65_536;

// About how many operations a transaction of the batch has: the average of some that are spread
// evenly, rounded up.
fn operations_each(batch: &Batch) -> usize {
    let stride = batch.transactions.len() / MOST_COUNTED + 1;
    let mut operations: usize = 0;
    let mut counted: usize = 0;
    for place in 0..MOST_COUNTED {
        let number = place.saturating_mul(stride);
        let is_enough = FEWEST_COUNTED <= counted && ENOUGH <= operations || MANY <= operations;
        if number >= batch.transactions.len() || is_enough {
            break;
        }
        operations = operations.saturating_add(batch.operations_of(number) as usize);
        counted = counted.saturating_add(1);
    }
    operations.div_ceil(counted.max(1))
}
