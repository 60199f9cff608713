//! The check of a round. It makes the runs that it comes to, in blocks, up to the first conflict.
ghost use Rattle.std.specs.Prelude.{◌≡◌, ◌<◌, ◌≤◌, [], false, length, slice_index_or, IfOk, OnOk, IsTrue};
ghost use Rattle.rounds.specs.Workspaces.{IsReadyOn};
ghost use Rattle.rounds.specs.Views.{blocks_of, opening_state};
ghost use Rattle.rounds.specs.Windows.{run_at, end_of, AllValid, IsWindowAt, IsListedTo, IsBlockSeen, IsRoundSeen, HasGrown, ArePassing, IsChecked};
ghost use Rattle.rounds.specs.PendingRuns.{Passes};
ghost use Rattle.rounds.specs.declared.pending_run.PendingRun.{PendingRun as OnePending};

use crate::check::{FirstConflict, check_at_once, check_past};
use crate::job::{Job, makers};
use crate::reused::Reused;
use crate::window::Window;
use crate::workspace::Workspace;
use committed::Committed;
use objects::Objects;
use serial::NoMemory;
use speculate::Gate;
use std::alloc::Global;
use std::ops::Range;
use std::thread::Threads;

// Whether the run with this number stands past all that is listed. Its net is listed then, and its
// summaries are freed. One that is known to pass the list isn't looked at.
fn check_next(
    alloc: Global,
    number: usize,
    passes: bool,
    window: &mut Window,
    nets: &mut Committed,
) -> Result<bool, NoMemory>
    requires number { (window.old.first ≤ number) × (number < end_of window.old) }
    requires passes { IsTrue passes → (d : OnePending)
        → Passes nets.old (run_at window.old number d) }
    ensures { IfOk result (λ stands.
        IsChecked number nets.old nets.new window.old window.new stands) }
{
    if !passes {
        let upto = nets.len();
        let place = number - window.first;
        if !check_past(&window.runs, place, nets, upto)? {
            return Ok(false);
        }
        nets.append_new(window.runs[place].sums.net())?;
    }
    window.free_sums(alloc, number);
    Ok(true)
}

// Checks the runs of a block in order, and lists their nets, up to the first that conflicts. Those
// that aren't valid are made in the workspace first. Returns the first conflict, or the end of the
// block.
fn check_in_turn<R: Threads + Sync, G: Gate>(
    job: &Job<R, G>,
    opened: usize,
    block: Range<usize>,
    workspace: &mut Workspace<'_>,
    window: &mut Window,
    nets: &mut Committed,
) -> Result<FirstConflict, NoMemory>
    requires opening { workspace.old.view.snapshot ≡ opening_state job.now.batch.now opened }
    requires window { IsWindowAt job.now.batch.now block.start
        workspace.old.view.snapshot window.old }
    requires places { (block.start ≤ block.end) × (block.end ≤ end_of window.old) }
    requires listed { IsListedTo job.now.batch.now opened block.start window.old nets.old }
    requires ready { IsReadyOn workspace.old.view.snapshot workspace.old }
    ensures grown { OnOk result (HasGrown block.start window.old window.new) }
    ensures reached { OnOk result (length window.new.runs.items ≡ length window.old.runs.items) }
    ensures ready { OnOk result (IsReadyOn workspace.old.view.snapshot workspace.new) }
    ensures seen { IfOk result (
        IsBlockSeen job.now.batch.now opened block.end window.new nets.new) }
{
    let width = job.plan.width((block.end - block.start) as u32);
    for number in block.start..block.end {
        window.make_at(job, number, number, width, workspace)?;
        job.gate.pass(0, (number - opened) as u32 + 1);
        let upto = nets.len();
        let stands = check_next(job.alloc, number, false, window, nets)?;
        if !stands {
            let first = number;
            return Ok(FirstConflict { first, upto });
        }
    }
    let upto = nets.len();
    let first = block.end;
    Ok(FirstConflict { first, upto })
}

// Whether the flag at this place is set.
fn is_set(flags: &[bool], place: usize) -> bool
    ensures { result ≡ slice_index_or flags.now place false }
{
    place < flags.len() && flags[place]
}

// Checks the runs of a block in order, and lists their nets, up to the first that conflicts. All of
// them are made. Some were seen to pass the list as it is before the block. These are passed over
// as long as it gets no longer.
fn check_made<R, G: Gate>(
    job: &Job<R, G>,
    opened: usize,
    block: Range<usize>,
    passing: &[bool],
    window: &mut Window,
    nets: &mut Committed,
) -> Result<FirstConflict, NoMemory>
    requires window { IsWindowAt job.now.batch.now block.start
        (opening_state job.now.batch.now opened) window.old }
    requires places { (block.start ≤ block.end) × (block.end ≤ end_of window.old) }
    requires listed { IsListedTo job.now.batch.now opened block.start window.old nets.old }
    requires valid { AllValid window.old block.start block.end }
    requires passing { ArePassing nets.old block.start window.old passing.now }
    ensures grown { OnOk result (HasGrown block.start window.old window.new) }
    ensures reached { OnOk result (length window.new.runs.items ≡ length window.old.runs.items) }
    ensures seen { IfOk result (
        IsBlockSeen job.now.batch.now opened block.end window.new nets.new) }
{
    let before = nets.len();
    for number in block.start..block.end {
        job.gate.pass(0, (number - opened) as u32 + 1);
        let upto = nets.len();
        let passes = upto == before && is_set(passing, number - block.start);
        let stands = check_next(job.alloc, number, passes, window, nets)?;
        if !stands {
            let first = number;
            return Ok(FirstConflict { first, upto });
        }
    }
    let upto = nets.len();
    let first = block.end;
    Ok(FirstConflict { first, upto })
}

// Checks the runs of a block by all workers, and lists their nets. All of them are made.
fn check_block<R: Threads + Sync, G: Gate>(
    job: &Job<R, G>,
    opened: usize,
    block: Range<usize>,
    window: &Window,
    nets: &mut Committed,
) -> Result<FirstConflict, NoMemory>
    requires window { IsWindowAt job.now.batch.now block.start
        (opening_state job.now.batch.now opened) window.now }
    requires places { (block.start ≤ block.end) × (block.end ≤ end_of window.now) }
    requires listed { IsListedTo job.now.batch.now opened block.start window.now nets.old }
    requires valid { AllValid window.now block.start block.end }
    ensures seen { IfOk result (
        IsBlockSeen job.now.batch.now opened block.end window.now nets.new) }
{
    let runs = window.between(block.start, block.end);
    let before = block.start - opened;
    let FirstConflict { first, upto } = check_at_once(&job.workers(), before, runs, nets)?;
    Ok(FirstConflict {
        first: block.start + first,
        upto,
    })
}

// Makes and checks the runs of a block, up to the first that conflicts, and lists their nets. Where
// several workers pay for a block, they make its runs at once. With a cut of 1 they check them at
// once, too.
fn check<R: Threads + Sync, G: Gate>(
    job: &Job<R, G>,
    opened: usize,
    block: Range<usize>,
    workspace: &mut Workspace<'_>,
    window: &mut Window,
    nets: &mut Committed,
) -> Result<FirstConflict, NoMemory>
    requires opening { workspace.old.view.snapshot ≡ opening_state job.now.batch.now opened }
    requires window { IsWindowAt job.now.batch.now block.start
        workspace.old.view.snapshot window.old }
    requires places { (block.start ≤ block.end) × (block.end ≤ end_of window.old) }
    requires listed { IsListedTo job.now.batch.now opened block.start window.old nets.old }
    requires ready { IsReadyOn workspace.old.view.snapshot workspace.old }
    ensures grown { OnOk result (HasGrown block.start window.old window.new) }
    ensures reached { OnOk result (length window.new.runs.items ≡ length window.old.runs.items) }
    ensures ready { OnOk result (IsReadyOn workspace.old.view.snapshot workspace.new) }
    ensures seen { IfOk result (
        IsBlockSeen job.now.batch.now opened block.end window.new nets.new) }
{
    if makers(job, block.end - block.start) == 1 {
        return check_in_turn(job, opened, block, workspace, window, nets);
    }
    nets.list_rest()?;
    let made = window.make_missing(job, workspace.objects(), block.start, block.end, nets)?;
    if job.plan.cut == 1 {
        return check_block(job, opened, block, window, nets);
    }
    check_made(job, opened, block, &made.passing, window, nets)
}

// Seeks the first conflict of a round in blocks of runs, in this workspace, and lists the nets of the
// runs before it. The first block has so many runs, and each later one twice as many as the one
// before it.
fn seek_in<R: Threads + Sync, G: Gate>(
    job: &Job<R, G>,
    opened: usize,
    expected: usize,
    workspace: &mut Workspace<'_>,
    window: &mut Window,
    nets: &mut Committed,
) -> Result<FirstConflict, NoMemory>
    requires opening { workspace.old.view.snapshot ≡ opening_state job.now.batch.now opened }
    requires going { opened < length (blocks_of job.now.batch.now) }
    requires window { IsWindowAt job.now.batch.now opened workspace.old.view.snapshot window.old }
    requires some { 1 ≤ expected }
    requires none { nets.old ≡ [] }
    requires ready { IsReadyOn workspace.old.view.snapshot workspace.old }
    ensures grown { OnOk result (HasGrown opened window.old window.new) }
    ensures seen { IfOk result (IsRoundSeen job.now.batch.now opened window.new nets.new) }
{
    let count = job.batch.transactions.len();
    let mut from = opened;
    let mut block = expected;
    'looking: while from < count {
        let end = from.saturating_add(block).min(count);
        window.reach(job.alloc, job.batch, from, workspace.objects(), end)?;
        let seen = check(job, opened, from..end, workspace, window, nets)?;
        if seen.first < end {
            return Ok(seen);
        }
        from = end;
        block = block.saturating_mul(2);
    }
    let upto = nets.len();
    Ok(FirstConflict { first: from, upto })
}

/// Seeks the first conflict of a round in blocks of runs, and lists the nets of the runs before it.
/// The first block has so many runs, and each later one twice as many as the one before it. What the
/// calling thread makes by itself, it makes in memory that the next round uses again.
///
/// Returns `NoMemory` where a request for memory was refused.
pub(crate) fn seek<R: Threads + Sync, G: Gate>(
    job: &Job<R, G>,
    objects: &Objects,
    opened: usize,
    expected: usize,
    window: &mut Window,
    reused: &mut Reused,
) -> Result<FirstConflict, NoMemory>
    requires opening { objects.now ≡ opening_state job.now.batch.now opened }
    requires going { opened < length (blocks_of job.now.batch.now) }
    requires window { IsWindowAt job.now.batch.now opened objects.now window.old }
    requires some { 1 ≤ expected }
    requires none { reused.old.nets ≡ [] }
    ensures grown { OnOk result (HasGrown opened window.old window.new) }
    ensures seen { IfOk result (IsRoundSeen job.now.batch.now opened window.new reused.new.nets) }
{
    let memory = reused.give(job.alloc);
    let mut workspace = Workspace::open_in(job.alloc, objects, job.operations_each, memory);
    let nets = &mut reused.nets;
    let seen = seek_in(job, opened, expected, &mut workspace, window, nets)?;
    reused.take_back(workspace);
    Ok(seen)
}
