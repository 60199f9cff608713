//! Running one transaction on the objects of an opening.
ghost use Rattle.std.specs.Prelude.{◌≡◌, ◌-◌, ◌≤◌, [], map, length, IfOk, OnOk};
ghost use Rattle.intentions.specs.Levels.{opened};
ghost use Rattle.batch.specs.Views.{block_view};
ghost use Rattle.objects.specs.Entries.{kinds};
ghost use Rattle.meaning.specs.OneThread.{one};
ghost use Rattle.meaning.specs.Batch.{block_at};
ghost use Rattle.speculate.specs.Runs.{IsRunOf, IsListedRunOf, IsWithinOthers};
ghost use Rattle.plan.specs.declared.plan.TheConstants.{MAX_WORKERS};

use crate::ahead::Shared;
use crate::executor::{Making, run_block};
use crate::gate::Gate;
use crate::speculated::Run;
use batch::Batch;
use intentions::{NetList, View};
use meaning::{End, Held};
use objects::Objects;
use serial::NoMemory;
use std::alloc::Global;
use std::mem::replace;
use std::thread::Threads;

/// What a run is made with: the right to start threads, the allocator, the batch, the gate that sees
/// the run, and how many children of a parallel block are run at once.
#[derive(Drop)]
pub struct Maker<'a, T: Threads + Sync, G: Gate> {
    pub threads: &'a T,
    pub alloc: Global,
    pub batch: &'a Batch,
    pub gate: &'a G,
    pub width: u32,
}

/// Runs transaction `number` (from 1) of the batch on these objects, which stay as they are. At
/// most `width` children of a parallel block are run at once.
///
/// Returns `NoMemory` where a request for memory was refused. The batch and the objects are then as
/// before.
pub fn run<T: Threads + Sync, G: Gate>(
    threads: &T,
    alloc: Global,
    objects: &Objects,
    batch: &Batch,
    number: u32,
    width: u32,
    gate: &G,
) -> Result<Run, NoMemory>
    requires first { 1 ≤ number }
    requires last { number ≤ length batch.now.transactions.items }
    requires narrow { (1 ≤ width) × (width ≤ MAX_WORKERS) }
    requires same_kinds { kinds objects.now ≡ kinds batch.now.objects }
    requires room { IsWithinOthers (map block_view batch.now.transactions.items) (number - 1)
        objects.now }
    ensures { IfOk result (IsRunOf (one (block_at (map block_view batch.now.transactions.items)
        (number - 1)) [] objects.now)) }
{
    let mut view = View::open(alloc, objects)?;
    let mut labels = Vec::new(alloc);
    let mut run = Run::empty(alloc);
    run.make_room(batch.operations_of(number as usize - 1) as usize)?;
    let maker = Maker {
        threads,
        alloc,
        batch,
        gate,
        width,
    };
    let mut listed = run_in(&maker, number, &mut view, &mut labels, &mut run)?;
    run.list_net(&mut listed)?;
    Ok(run)
}

/// Runs transaction `number` (from 1) of the batch as [`run`] does, in a view that is as it was
/// opened on the objects, and with no labels. It leaves both so for the next run. The run takes the
/// place of an earlier one, and uses its memory again.
///
/// Returns where the net of the run is listed. It is in its own list where the gate looks at runs.
///
/// After it returns `NoMemory`, the view, the labels and the run are of no further use.
pub fn run_in<T: Threads + Sync, G: Gate>(
    maker: &Maker<'_, T, G>,
    number: u32,
    view: &mut View<'_>,
    labels: &mut Vec<Held>,
    run: &mut Run,
) -> Result<NetList, NoMemory>
    requires first { 1 ≤ number }
    requires last { number ≤ length maker.now.batch.now.transactions.items }
    requires narrow { (1 ≤ maker.now.width) × (maker.now.width ≤ MAX_WORKERS) }
    requires opened { view.old ≡ opened view.old.snapshot }
    requires unlabelled { labels.old.items ≡ [] }
    requires same_kinds { kinds view.old.snapshot ≡ kinds maker.now.batch.now.objects }
    requires room { IsWithinOthers (map block_view maker.now.batch.now.transactions.items)
        (number - 1) view.old.snapshot }
    ensures run { IfOk result (λ listed. IsListedRunOf listed
        (one (block_at (map block_view maker.now.batch.now.transactions.items) (number - 1)) []
        view.old.snapshot) run.new) }
    ensures again { OnOk result (view.new ≡ view.old) }
    ensures unlabelled { OnOk result (labels.new.items ≡ []) }
{
    maker.gate.pass(number, 0);
    let Run { entries, net, .. } = &mut *run;
    // The view gets the memory of the lists of the earlier run.
    view.take_run(entries, net);
    let block = &maker.batch.transactions[number as usize - 1];
    let making = Making {
        threads: maker.threads,
        gate: maker.gate,
        shared: Shared {
            number,
            alloc: maker.alloc,
            hashing: maker.batch.hashing,
        },
        width: maker.width,
    };
    let spare = replace(&mut run.tree.taken, Vec::new(maker.alloc));
    run.tree = run_block(&making, block, labels, view, spare)?;
    let mut listed = view.take_run(&mut run.entries, &mut run.net);
    // What an aborted transaction did is not in its net.
    if matches!(run.tree.outcome, End::Aborted(_)) {
        run.net.clear();
        listed = NetList::Own;
    }
    if maker.gate.looks() {
        run.list_net(&mut listed)?;
    }
    maker.gate.made(number, run);
    Ok(listed)
}
