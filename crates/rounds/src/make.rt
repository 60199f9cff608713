//! Making the runs of the transactions that need one.
ghost use Rattle.std.specs.Prelude.{◌≡◌, ◌*◌, ◌<◌, ◌≤◌, IfOk, IfSome, OnOk, length};
ghost use Rattle.std.specs.Fork.{slice_chunk};
ghost use Rattle.std.specs.List.{All};
ghost use Rattle.objects.specs.Entries.{kinds};
ghost use Rattle.rounds.specs.Passes.{CanBeMade};
ghost use Rattle.rounds.specs.Workspaces.{IsReadyOn};
ghost use Rattle.rounds.specs.PendingRuns.{AreMadeRuns, AreAdded};
ghost use Rattle.meaning.specs.declared.limits.TheConstants.{MAX_TRANSACTIONS};
ghost use Rattle.plan.specs.declared.plan.TheConstants.{MAX_CUT, MAX_WORKERS};

use crate::check::passes_list;
use crate::job::{Job, makers};
use crate::pending_run::PendingRun;
use crate::workspace::Workspace;
use committed::Committed;
use objects::Objects;
use plan::Plan;
use serial::NoMemory;
use speculate::Gate;
use std::alloc::Global;
use std::thread::Threads;
use workers::{WorkerState, give_all};

/// A run of the transaction with this number, counted from 0. It is in a box, since a worker hands it
/// on twice.
#[derive(Drop)]
pub(crate) struct NumberedRun {
    pub(crate) number: usize,
    pub(crate) run: Box<PendingRun>,
    /// Whether the worker that made it saw that it passes the nets that are listed.
    pub(crate) passes: bool,
}

// Adds a run for each number of a group, one after the other, made in one workspace. It looks whether
// each passes these nets.
fn make_group<R: Threads + Sync, G: Gate>(
    job: &Job<R, G>,
    group: &[usize],
    nets: &Committed,
    width: u32,
    workspace: &mut Workspace<'_>,
    all: &mut Vec<NumberedRun>,
) -> Result<(), NoMemory>
    requires few { length job.now.batch.now.transactions.items ≤ MAX_TRANSACTIONS }
    requires within { All (λ n. CanBeMade job.now.batch.now
        workspace.old.view.snapshot n) group.now }
    requires same_kinds { kinds workspace.old.view.snapshot ≡ kinds job.now.batch.now.objects }
    requires narrow { (1 ≤ width) × (width ≤ MAX_WORKERS) }
    requires ready { IsReadyOn workspace.old.view.snapshot workspace.old }
    ensures ready { OnOk result (IsReadyOn workspace.old.view.snapshot workspace.new) }
    ensures added { OnOk result (
        AreAdded job.now.batch.now workspace.old.view.snapshot nets.now group.now all.old.items
        all.new.items) }
{
    for number in group {
        let number = *number;
        let mut run = PendingRun::empty(job.alloc);
        workspace.make(job, number, width, &mut run)?;
        let passes = passes_list(&run, nets);
        let run = Box::new(job.alloc, run)?;
        all.push(NumberedRun {
            number,
            run,
            passes,
        })?;
    }
    Ok(())
}

// The workspace of a worker, which is opened where there is none, with room for so many operations.
fn workspace_or_new<'s>(
    alloc: Global,
    objects: &'s Objects,
    room: usize,
    workspace: Option<Box<Workspace<'s>>>,
) -> Result<Box<Workspace<'s>>, NoMemory>
    requires { IfSome workspace (λ workspace. IsReadyOn objects.now workspace.value) }
    ensures { IfOk result (λ workspace. IsReadyOn objects.now workspace.value) }
{
    match workspace {
        Some(workspace) => Ok(workspace),
        None => Ok(Box::new(alloc, Workspace::open(alloc, objects, room)?)?),
    }
}

/// A worker's state: its workspace, and the runs that were made there.
type RunState<'s> = WorkerState<Box<Workspace<'s>>, NumberedRun>;

// Adds the runs of a group to those of a worker. Its workspace is opened where there is none.
fn make_piece<'s, R: Threads + Sync, G: Gate>(
    job: &Job<R, G>,
    objects: &'s Objects,
    group: &[usize],
    nets: &Committed,
    width: u32,
    state: RunState<'s>,
) -> Result<RunState<'s>, NoMemory>
    requires few { length job.now.batch.now.transactions.items ≤ MAX_TRANSACTIONS }
    requires within { All (λ n. CanBeMade job.now.batch.now objects.now n) group.now }
    requires same_kinds { kinds objects.now ≡ kinds job.now.batch.now.objects }
    requires narrow { (1 ≤ width) × (width ≤ MAX_WORKERS) }
    requires ready { IfSome state.workspace (λ workspace. IsReadyOn objects.now workspace.value) }
    ensures { IfOk result (λ after.
        IfSome after.workspace (λ workspace. IsReadyOn objects.now workspace.value)
        × AreAdded job.now.batch.now objects.now nets.now group.now state.entry.items.items
        after.items.items) }
{
    let WorkerState {
        workspace,
        mut items,
    } = state;
    let mut workspace = workspace_or_new(job.alloc, objects, job.operations_each, workspace)?;
    make_group(job, group, nets, width, workspace.as_mut(), &mut items)?;
    Ok(WorkerState {
        workspace: Some(workspace),
        items,
    })
}

// The group that is this piece: at most `cut` of the numbers.
fn group_at(numbers: &[usize], cut: usize, piece: u32) -> &[usize]
    requires cut { cut ≤ MAX_CUT }
    requires piece { piece * cut < length numbers.now }
    ensures { result.now ≡ slice_chunk numbers.now cut piece }
{
    let first = piece as usize * cut;
    let end = numbers.len().min(first + cut);
    &numbers[first..end]
}

// How many numbers a group has: at most the cut, and no more than an even share of so many numbers
// among so many workers.
fn group_size(plan: Plan, numbers: usize, workers: u32) -> usize
    ensures { (1 ≤ result) × (result ≤ plan.cut) }
{
    let share = numbers.div_ceil(workers.max(1) as usize);
    share.max(1).min(plan.cut as usize)
}

/// A run for each of the numbers, in any order, made on these objects. A piece of the workers is a
/// group of at most `cut` of the numbers, and no more than an even share of them. Where there are at
/// least twice as many workers as numbers, each run gets several workers for the children of parallel
/// blocks. The worker that made a run looks whether it passes these nets.
///
/// Returns `NoMemory` where a request for memory was refused.
pub(crate) fn make_all<R: Threads + Sync, G: Gate>(
    job: &Job<R, G>,
    objects: &Objects,
    numbers: &[usize],
    nets: &Committed,
) -> Result<Vec<NumberedRun>, NoMemory>
    requires few { length numbers.now ≤ MAX_TRANSACTIONS }
    requires few_blocks { length job.now.batch.now.transactions.items ≤ MAX_TRANSACTIONS }
    requires within { All (λ n. CanBeMade job.now.batch.now objects.now n) numbers.now }
    requires same_kinds { kinds objects.now ≡ kinds job.now.batch.now.objects }
    ensures { IfOk result (λ made.
        AreMadeRuns job.now.batch.now objects.now nets.now numbers.now made.items) }
{
    let Job {
        threads,
        alloc,
        batch,
        plan,
        gate,
        operations_each,
    } = *job;
    let workers = makers(job, numbers.len());
    let cut = group_size(plan, numbers.len(), workers);
    let width = plan.width(numbers.len() as u32);
    give_all(
        threads,
        alloc,
        numbers.len().div_ceil(cut) as u32,
        workers,
        &|piece: u32, state: RunState<'_>| -> Result<RunState<'_>, NoMemory>
            requires { (cut ≤ MAX_CUT) × (piece * cut < length numbers.now) × (1 ≤ width)
                × (width ≤ MAX_WORKERS) × (kinds objects.now ≡ kinds batch.now.objects)
                × (length batch.now.transactions.items ≤ MAX_TRANSACTIONS)
                × All (λ n. CanBeMade batch.now objects.now n) numbers.now
                × IfSome state.workspace (λ workspace. IsReadyOn objects.now workspace.value) }
            ensures { IfOk result (λ after.
                IfSome after.workspace (λ workspace. IsReadyOn objects.entry.now workspace.value)
                × AreAdded batch.entry.now objects.entry.now nets.entry.now
                (slice_chunk numbers.entry.now cut piece) state.entry.items.items
                after.items.items) }
        {
            let job = Job {
                threads,
                alloc,
                batch,
                plan,
                gate,
                operations_each,
            };
            let group = group_at(numbers, cut, piece);
            make_piece(&job, objects, group, nets, width, state)
        },
    )
}
