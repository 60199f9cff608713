//! The check of runs side by side: the first that doesn't stand past those before it.
ghost use Rattle.std.specs.Prelude.{◌≡◌, ◌↔◌, ◌+◌, ◌<◌, ◌≤◌, ◌++◌, ℕ, [], IfOk, OnOk, IsTrue, length, take, slice_index_or};
ghost use Rattle.rounds.specs.Passes.{IsFirstConflict};
ghost use Rattle.rounds.specs.PendingRuns.{all_left, HoldsPast, AreSummed, Passes};
ghost use Rattle.rounds.specs.Checks.{AreStarts, HoldsFrom, IsFirstFrom, IsSeenPast};
ghost use Rattle.rounds.specs.declared.pending_run.PendingRun.{PendingRun as OnePending};
ghost use Rattle.meaning.specs.declared.limits.TheConstants.{MAX_TRANSACTIONS};
ghost use Rattle.plan.specs.declared.plan.TheConstants.{MAX_WORKERS};

use crate::job::Workers;
use crate::pending_run::PendingRun;
use committed::Committed;
use objects::EntryHashing;
use serial::NoMemory;
use speculate::{Gate, Run};
use std::alloc::Global;
use std::thread::Threads;
use workers::first_failing;

/// What a check found: the first conflict, or the end, and how many entries of the list are from
/// before it.
#[derive(Drop)]
pub(crate) struct FirstConflict {
    pub(crate) first: usize,
    pub(crate) upto: usize,
}

/// Whether a run stands past the first `upto` entries of a list.
pub(crate) fn stands_past(runs: &[PendingRun], place: usize, nets: &Committed, upto: usize) -> bool
    requires place { place < length runs.now }
    requires upto { upto ≤ length nets.now }
    ensures { IsTrue result ↔ ((d : OnePending) → HoldsPast (take upto nets.now)
        (slice_index_or runs.now place d)) }
{
    upto == 0 || nets.stands(&runs[place].sums.entries, upto)
}

/// Whether a run stands past the first `upto` entries of a list, as [`stands_past`] finds. The list
/// gets its index once this pays.
///
/// Returns `NoMemory` where a request for memory was refused. The list is as before.
pub(crate) fn check_past(
    runs: &[PendingRun],
    place: usize,
    nets: &mut Committed,
    upto: usize,
) -> Result<bool, NoMemory>
    requires place { place < length runs.now }
    requires upto { upto ≤ length nets.old }
    ensures stands { IfOk result (λ stands. IsTrue stands ↔ ((d : OnePending)
        → HoldsPast (take upto nets.old) (slice_index_or runs.now place d))) }
    ensures same { nets.new ≡ nets.old }
{
    if upto == 0 {
        return Ok(true);
    }
    nets.check(&runs[place].sums.entries, upto)
}

/// Whether a run stands past all of a list, which has for each entry of its net one that is as strict.
/// Listing its net would change nothing then.
pub(crate) fn passes_list(run: &PendingRun, nets: &Committed) -> bool
    ensures { IsTrue result → Passes nets.now run.now }
{
    nets.covers_all(run.sums.net()) && nets.stands(&run.sums.entries, nets.len())
}

// Lists the nets of runs. Adds for each of them how many entries come before its net.
fn list_nets(
    runs: &[PendingRun],
    nets: &mut Committed,
    starts: &mut Vec<usize>,
) -> Result<(), NoMemory>
    requires starts { starts.old.items ≡ [] }
    ensures nets { OnOk result (nets.new ≡ nets.old ++ all_left runs.now) }
    ensures starts { OnOk result (AreStarts nets.old runs.now starts.new.items) }
{
    for run in runs {
        starts.push(nets.len())?;
        nets.append_marked(run.sums.net())?;
    }
    Ok(())
}

// The first of these runs that doesn't stand past the entries that come before its net. The workers
// check the runs side by side, a run as a piece. In the round there were some before them.
fn first_from<R: Threads + Sync, G: Gate>(
    workers: &Workers<R, G>,
    before: usize,
    runs: &[PendingRun],
    nets: &Committed,
    starts: &[usize],
) -> Result<usize, NoMemory>
    requires workers { (1 ≤ workers.now.count) × (workers.now.count ≤ MAX_WORKERS) }
    requires few { before + length runs.now ≤ MAX_TRANSACTIONS }
    requires all { length starts.now ≡ length runs.now }
    requires within { (i : ℕ) → i < length runs.now → slice_index_or starts.now i 0
        ≤ length nets.now }
    ensures { IfOk result (λ first. IsFirstFrom nets.now starts.now runs.now first) }
{
    let Workers {
        threads,
        alloc,
        count,
        gate,
    } = *workers;
    let passed = first_failing(
        threads,
        alloc,
        runs.len() as u32,
        count,
        &|piece: u32| -> bool
            requires { (piece < length runs.now) × (before + length runs.now ≤ MAX_TRANSACTIONS)
                × (length starts.now ≡ length runs.now)
                × ((i : ℕ) → i < length runs.now → slice_index_or starts.now i 0
                ≤ length nets.now) }
            ensures { IsTrue result ↔ HoldsFrom nets.entry.now starts.entry.now runs.entry.now
                piece }
        {
            let place = piece as usize;
            gate.pass(0, (before + place) as u32 + 1);
            stands_past(runs, place, nets, starts[place])
        },
    )?;
    Ok(passed as usize)
}

/// Lists the nets of these runs, and finds the first that doesn't stand past what was listed before
/// and the nets of the runs before it. The workers check the runs side by side. In the round there
/// were some before them.
///
/// Returns `NoMemory` where a request for memory was refused.
pub(crate) fn check_at_once<R: Threads + Sync, G: Gate>(
    workers: &Workers<R, G>,
    before: usize,
    runs: &[PendingRun],
    nets: &mut Committed,
) -> Result<FirstConflict, NoMemory>
    requires workers { (1 ≤ workers.now.count) × (workers.now.count ≤ MAX_WORKERS) }
    requires few { before + length runs.now ≤ MAX_TRANSACTIONS }
    ensures nets { OnOk result (nets.new ≡ nets.old ++ all_left runs.now) }
    ensures seen { IfOk result (IsSeenPast nets.old runs.now) }
{
    let mut starts = Vec::new(workers.alloc);
    list_nets(runs, nets, &mut starts)?;
    nets.list()?;
    let first = first_from(workers, before, runs, nets, &starts)?;
    if first < runs.len() {
        let upto = starts[first];
        return Ok(FirstConflict { first, upto });
    }
    let upto = nets.len();
    Ok(FirstConflict { first, upto })
}

// Pending runs that have only the summaries of these runs.
fn summed(alloc: Global, runs: &[Run]) -> Result<Vec<PendingRun>, NoMemory>
    ensures { IfOk result (λ pending. AreSummed runs.now pending.items) }
{
    let mut pending = Vec::with_capacity(alloc, runs.len())?;
    for run in runs {
        let mut next = PendingRun::empty(alloc);
        let whole = run.net == run.entries;
        next.sums
            .renew(alloc, EntryHashing::of(0), &run.entries, &run.net, whole)?;
        pending.push(next)?;
    }
    Ok(pending)
}

/// The least place (from 0) of a run of which some entry doesn't commute forward with some net
/// entry of a run before it, or the number of runs where there is none. The workers check the runs
/// side by side, a run as a piece. The result is the same for any number of them.
///
/// Returns `NoMemory` where a request for memory was refused.
pub fn first_conflict<R: Threads + Sync, G: Gate>(
    threads: &R,
    alloc: Global,
    runs: &[Run],
    workers: u32,
    gate: &G,
) -> Result<usize, NoMemory>
    requires few { length runs.now ≤ MAX_TRANSACTIONS }
    requires workers { (1 ≤ workers) × (workers ≤ MAX_WORKERS) }
    ensures { IfOk result (λ first. IsFirstConflict runs.now first) }
{
    let workers = Workers {
        threads,
        alloc,
        count: workers,
        gate,
    };
    let pending = summed(alloc, runs)?;
    let mut nets = Committed::new(alloc);
    let seen = check_at_once(&workers, 0, &pending, &mut nets)?;
    Ok(seen.first)
}
