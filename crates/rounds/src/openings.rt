//! The loop of openings. Each round makes runs as far as it comes, up to the first that conflicts. It
//! commits those before it, and keeps of the others those that are still valid.
ghost use Rattle.std.specs.Prelude.{◌≡◌, ◌+◌, ◌<◌, ◌≤◌, ℕ, [], false, length, IfOk, IsTrue, OnOk, slice_index_or};
ghost use Rattle.batch.specs.declared.batch.Batch.{Batch as OneBatch};
ghost use Rattle.claims.specs.Views.{times};
ghost use Rattle.rounds.specs.Openings.{AreCounts};
ghost use Rattle.rounds.specs.Outcomes.{IsOutcomeOf};
ghost use Rattle.rounds.specs.Repeated.{Repeats};
ghost use Rattle.rounds.specs.Windows.{run_at, IsValid, IsOpening, IsRound, AreCountsOn, AllPending};
ghost use Rattle.rounds.specs.declared.pending_run.PendingRun.{PendingRun as OnePending};
ghost use Rattle.meaning.specs.declared.limits.TheConstants.{MAX_TRANSACTIONS};

use crate::committing::commit;
use crate::job::Job;
use crate::reused::Reused;
use crate::seek::seek;
use crate::window::Window;
use batch::{Batch, Outcome, Record};
use objects::Objects;
use plan::Plan;
use serial::NoMemory;
use speculate::{Gate, Progress};
use std::alloc::Global;
use std::thread::Threads;

fn no_counts(alloc: Global, count: usize) -> Result<Vec<u32>, NoMemory>
    ensures { IfOk result (λ counts. (length counts.items ≡ count)
        × ((i : ℕ) → slice_index_or counts.items i 0 ≡ 0)) }
{
    let mut counts = Vec::with_capacity(alloc, count)?;
    for _ in 0..count {
        counts.push(0)?;
    }
    Ok(counts)
}

// An opening: the objects, the records of the transactions that are committed, and runs of the
// others.
#[derive(Drop)]
struct Opening {
    objects: Objects,
    records: Vec<Record>,
    // How many transactions are committed, from the first on.
    committed: usize,
    window: Window,
    reused: Reused,
    // How many runs the next round looks at first, and how many entries it is expected to list.
    ahead: usize,
    listed: usize,
    rounds: u32,
}

impl Opening {
    // Whether runs are tried, and that of this number is known to be one on the objects, too.
    fn repeats(&self, tries: bool, number: usize) -> bool
        requires flags { length self.now.window.valid.items ≡ length self.now.window.runs.items }
        requires number { self.now.window.first ≤ number }
        ensures tried { tries ≡ false → result ≡ false }
        ensures valid { IsTrue result → IsValid self.now.window number }
        ensures repeats { IsTrue result
            → (d : OnePending) → Repeats self.now.objects (run_at self.now.window number d) }
    {
        if tries {
            self.window.repeats(number, &self.objects)
        } else {
            false
        }
    }
}

// The first opening. The objects are as they start, and no run is made. The first round looks at two
// pieces for each worker first.
fn begin(alloc: Global, batch: &Batch, plan: Plan) -> Result<Opening, NoMemory>
    ensures opening { IfOk result (IsOpening batch.now) }
    ensures first { IfOk result (λ at. (at.committed ≡ 0) × (at.rounds ≡ 0)) }
    ensures none { IfOk result (λ at. at.window.valid.items ≡ []) }
{
    Ok(Opening {
        objects: batch.objects.copy()?,
        records: Vec::with_capacity(alloc, batch.transactions.len())?,
        committed: 0,
        window: Window::new(alloc),
        reused: Reused::new(alloc, batch),
        ahead: 2 * plan.workers as usize * plan.cut as usize,
        listed: 0,
        rounds: 0,
    })
}

// A round leads from one opening to the next. Where runs are tried, that of the first conflict stays
// valid if its calls get the same replies on the objects of the next opening.
fn round<R: Threads + Sync, G: Gate>(
    job: &Job<R, G>,
    at: &mut Opening,
    tries: bool,
) -> Result<(), NoMemory>
    requires at { IsOpening job.now.batch.now at.old }
    requires going { at.old.committed < length job.now.batch.now.transactions.items }
    ensures at { OnOk result (IsOpening job.now.batch.now at.new) }
    ensures on { OnOk result (at.old.committed < at.new.committed) }
    ensures round { OnOk result (tries ≡ false → IsRound job.now.batch.now at.old at.new) }
{
    let opened = at.committed;
    let ahead = at.ahead.max(1);
    at.reused.nets.expect(at.listed)?;
    let seen = seek(
        job,
        &at.objects,
        opened,
        ahead,
        &mut at.window,
        &mut at.reused,
    )?;
    let first = seen.first;
    let runs = at.window.between(opened, first);
    commit(job, opened, runs, &mut at.objects)?;
    let again = at.repeats(tries, first);
    at.window
        .keep_after(job, first, &mut at.reused.nets, seen.upto)?;
    at.window.renew(first, again);
    at.window.settle(job.alloc, opened, first, &mut at.records)?;
    at.committed = first;
    at.window.shorten(job.batch.transactions.len());
    at.reused.nets.clear();
    at.ahead = (first - opened).saturating_mul(2);
    at.listed = seen.upto;
    at.rounds += 1;
    job.gate.ended(&Progress {
        round: at.rounds,
        before: opened,
        committed: first,
        transactions: job.batch.transactions.len(),
    });
    Ok(())
}

// Drops the runs that the next round doesn't look at first, so that it hasn't to decide about them.
fn drop_later(at: &mut Opening)
    ensures at { (batch : OneBatch) → IsOpening batch at.old → IsOpening batch at.new }
    ensures same { at.new.committed ≡ at.old.committed }
{
    let end = at.committed.saturating_add(at.ahead);
    at.window.shorten(end);
}

// Adds 1 to the counts of these numbers, each of which comes once.
fn count(numbers: &[usize], counts: &mut Vec<u32>)
    requires within { (i : ℕ) → 0 < times i numbers.now → i < length counts.old.items }
    requires few { (i : ℕ) → slice_index_or counts.old.items i 0 + times i numbers.now
        ≤ MAX_TRANSACTIONS + 1 }
    ensures all { length counts.new.items ≡ length counts.old.items }
    ensures counted { (i : ℕ) → slice_index_or counts.new.items i 0
        ≡ slice_index_or counts.old.items i 0 + times i numbers.now }
{
    for number in numbers {
        counts[*number] += 1;
    }
}

// Makes the runs of all transactions that aren't committed and have no valid run, and counts them.
fn make_rest<R: Threads + Sync, G: Gate>(
    job: &Job<R, G>,
    at: &mut Opening,
    counts: &mut Vec<u32>,
) -> Result<(), NoMemory>
    requires at { IsOpening job.now.batch.now at.old }
    requires counts { AreCountsOn job.now.batch.now at.old at.old.rounds counts.old.items }
    ensures at { OnOk result (IsOpening job.now.batch.now at.new) }
    ensures same { OnOk result (at.new.committed ≡ at.old.committed) }
    ensures rounds { OnOk result (at.new.rounds ≡ at.old.rounds) }
    ensures valid { OnOk result (AllPending job.now.batch.now at.new) }
    ensures counts { OnOk result (
        AreCountsOn job.now.batch.now at.new (at.old.rounds + 1) counts.new.items) }
{
    let all = job.batch.transactions.len();
    let opened = at.committed;
    at.window
        .reach(job.alloc, job.batch, opened, &at.objects, all)?;
    let made = at
        .window
        .make_missing(job, &at.objects, opened, all, &at.reused.nets)?;
    count(&made.numbers, counts);
    Ok(())
}

// What there is at the last opening, with these run counts.
fn outcome_of(at: Opening, runs: Vec<u32>) -> Outcome
    ensures records { result.records ≡ at.records }
    ensures objects { result.objects ≡ at.objects }
    ensures rounds { result.rounds ≡ at.rounds }
    ensures runs { result.runs ≡ runs }
{
    let Opening {
        objects,
        records,
        rounds,
        ..
    } = at;
    Outcome {
        records,
        objects,
        rounds,
        runs,
    }
}

/// Runs a batch in rounds. It returns what one thread returns that runs the transactions by number,
/// depth first. At each opening it makes a run of each transaction that is left and has no valid one,
/// so that the run counts are those of the definition.
///
/// Returns `NoMemory` where a request for memory was refused, and nothing else then.
pub fn execute<R: Threads + Sync, G: Gate>(
    threads: &R,
    alloc: Global,
    batch: &Batch,
    plan: Plan,
    gate: &G,
) -> Result<Outcome, NoMemory>
    // It is what one thread does, in the defined number of rounds.
    ensures answer { IfOk result (IsOutcomeOf batch.now) }
    // How often each transaction was run is as defined.
    ensures runs { IfOk result (λ o. AreCounts batch.now o.runs.items) }
{
    let job = Job::of(threads, alloc, batch, plan, gate);
    let mut at = begin(alloc, batch, plan)?;
    let mut counts = no_counts(alloc, batch.transactions.len())?;
    'opening: while at.committed < batch.transactions.len() {
        make_rest(&job, &mut at, &mut counts)?;
        round(&job, &mut at, false)?;
    }
    Ok(outcome_of(at, counts))
}

/// Runs a batch in rounds as [`execute`] does, and makes only the runs that a round comes to. It
/// doesn't say how often each transaction is run: the outcome has no run counts.
///
/// Returns `NoMemory` where a request for memory was refused, and nothing else then.
pub fn execute_ahead<R: Threads + Sync, G: Gate>(
    threads: &R,
    alloc: Global,
    batch: &Batch,
    plan: Plan,
    gate: &G,
) -> Result<Outcome, NoMemory>
    ensures { IfOk result (IsOutcomeOf batch.now) }
{
    let job = Job::of(threads, alloc, batch, plan, gate);
    let mut at = begin(alloc, batch, plan)?;
    'opening: while at.committed < batch.transactions.len() {
        round(&job, &mut at, true)?;
        drop_later(&mut at);
    }
    Ok(outcome_of(at, Vec::new(alloc)))
}
