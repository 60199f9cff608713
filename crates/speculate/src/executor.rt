//! Running a block depth first in a view of the objects. Where there is width for it, children of a
//! parallel step are run ahead, at once, and are then kept in order.
ghost use Rattle.std.specs.Prelude.{◌≡◌, ◌++◌, ◌+◌, ◌<◌, ◌^◌, IfOk, OnOk, length, take};
ghost use Rattle.std.specs.Option.{ForSome};
ghost use Rattle.std.specs.Thread.{IsSync};
ghost use Rattle.intentions.specs.Levels.{shown_values as state_of_view};
ghost use Rattle.meaning.specs.Records.{kept_of_child};
ghost use Rattle.meaning.specs.OneThread.{record_of, one, one_step, one_children};
ghost use Rattle.batch.specs.Views.{block_view, steps_view, step_view, subaction_view, children_view};
ghost use Rattle.batch.specs.Running.{CanRunHere, CanStepHere, CanTryHere, CanRunAllHere, StillSeen, acted};
ghost use Rattle.batch.specs.Shows.{ShowsRun, ShowsStep, ShowsTried, ShowsChildren};
ghost use Rattle.speculate.specs.Running.{in_view, IsNoOperation};
ghost use Rattle.speculate.specs.Ahead.{CanAllTry, IsRunAhead, AreRunAhead, IsRunBefore};

use crate::ahead::{Ahead, Fork, Shared, both_halves, list_since};
use crate::gate::Gate;
use crate::reached::Reached;
use crate::spare::{Spare, boxed, list_of, make_room, put_at, record_of, spare_at};
use crate::step::{branch_of, forget, perform_filled, undo};
use batch::{Block, Record, Step, Subaction, Taken, Tried, add_label, handled, test_holds};
use committed::Committed;
use intentions::View;
use meaning::{End, Held};
use serial::NoMemory;
use std::thread::{Threads, join};

/// What the runs of the parts of a transaction share. At most `width` children of a parallel step are
/// run at once.
#[derive(Drop)]
pub(crate) struct Making<'a, T: Threads + Sync, G: Gate> {
    pub(crate) threads: &'a T,
    pub(crate) gate: &'a G,
    pub(crate) shared: Shared,
    pub(crate) width: u32,
}

impl<T: Threads + Sync, G: Gate> Making<'_, T, G> {
    // Calls the gate as the child at this place (from 0) of its step starts.
    fn pass(&self, place: usize) {
        let child = u32::try_from(place).unwrap_or(u32::MAX);
        self.gate.pass(self.shared.number, child.saturating_add(1));
    }
}

/// A child of a parallel step, and its place (from 0) among its siblings.
#[derive(Clone, Copy, Drop)]
struct Sibling<'a> {
    place: usize,
    child: &'a Subaction,
}

/// Runs a block. Its labels are forgotten at its end. The record uses the memory of the spare list.
#[cycle(run)]
pub(crate) fn run_block<T: Threads + Sync, G: Gate>(
    making: &Making<'_, T, G>,
    block: &Block,
    labels: &mut Vec<Held>,
    view: &mut View<'_>,
    spare: Vec<Taken>,
) -> Result<Record, NoMemory>
    requires { CanRunHere (block_view block.now) labels.old.items (state_of_view view.old) }
    ensures shows { IfOk result (λ r. ShowsRun in_view (one (block_view block.now) labels.old.items
        (state_of_view view.old)) r view.old view.new) }
    ensures labels { OnOk result (labels.new.items ≡ labels.old.items) }
{
    let seen = labels.len();
    let record = run_steps(making, &block.steps, labels, view, spare)?;
    forget(labels, seen);
    Ok(record)
}

// Runs steps one after the other, up to the first that aborts. Operations are performed in the loop
// itself, as a call for each of them would take longer.
#[cycle(run)]
fn run_steps<T: Threads + Sync, G: Gate>(
    making: &Making<'_, T, G>,
    steps: &[Step],
    labels: &mut Vec<Held>,
    view: &mut View<'_>,
    spare: Vec<Taken>,
) -> Result<Record, NoMemory>
    requires { CanRunHere (steps_view steps.now) labels.old.items (state_of_view view.old) }
    ensures shows { IfOk result (λ r. ShowsRun in_view (one (steps_view steps.now) labels.old.items
        (state_of_view view.old)) r view.old view.new) }
    ensures labels { OnOk result (StillSeen labels.old.items labels.new.items) }
{
    let mut taken = spare;
    make_room(&mut taken, steps.len())?;
    for (place, step) in steps.iter().enumerate() {
        if let Step::Op {
            object,
            call,
            labelled,
        } = step
        {
            let reply = view.perform(*object, call)?;
            add_label(labels, *labelled, Held::Replied(reply))?;
            // Put here, the reply isn't copied once more, as it would be by `put_at`.
            if place < taken.len() {
                taken[place] = Taken::Op(reply);
            } else {
                taken.push(Taken::Op(reply))?;
            }
            continue;
        }
        let (done, end) = run_other_step(making, step, labels, view, &mut taken, place)?;
        put_at(&mut taken, place, done)?;
        match end {
            End::Ended => {}
            End::Aborted(_) => return Ok(record_of(taken, place + 1, end)),
        }
    }
    Ok(record_of(taken, steps.len(), End::Ended))
}

// Runs a step other than an operation whose call is given, and returns how the block goes on. Its
// labels are added to those that are seen. What is at its place of the list is spare: a step with
// blocks takes the boxes that are there.
#[cycle(run)]
fn run_other_step<T: Threads + Sync, G: Gate>(
    making: &Making<'_, T, G>,
    step: &Step,
    labels: &mut Vec<Held>,
    view: &mut View<'_>,
    taken: &mut Vec<Taken>,
    place: usize,
) -> Result<(Taken, End), NoMemory>
    requires other { IsNoOperation (step_view step.now) }
    requires can { CanStepHere (step_view step.now) labels.old.items (state_of_view view.old) }
    ensures shows { IfOk result (λ r. ShowsStep in_view (one_step (step_view step.now)
        labels.old.items (state_of_view view.old)) r.0 r.1 labels.old.items labels.new.items
        view.old view.new) }
    ensures labels { OnOk result (StillSeen labels.old.items labels.new.items) }
    ensures length { length taken.new.items ≡ length taken.old.items }
    ensures before { take place taken.new.items ≡ take place taken.old.items }
{
    match step {
        Step::Op { .. } => unreachable!(),
        Step::Fill(filling) => perform_filled(making.shared.alloc, filling, labels, view),
        Step::If {
            label,
            test,
            then,
            otherwise,
        } => {
            let holds = test_holds(test, &labels[*label as usize]);
            let branch = branch_of(holds, then, otherwise);
            let mut spare = spare_at(taken, place);
            let list = list_of(making.shared.alloc, &mut spare.body);
            let record = run_block(making, branch, labels, view, list)?;
            let end = record.outcome;
            Ok((
                Taken::If(holds, boxed(making.shared.alloc, &mut spare.body, record)?),
                end,
            ))
        }
        Step::Sub(child) => {
            let mut spare = spare_at(taken, place);
            let tried = run_subaction(making, child, labels, view, &mut spare)?;
            let (done, end) = spare.into_step(making.shared.alloc, labels, child.labelled, tried)?;
            Ok((done, end))
        }
        Step::Abort(reason) => Ok((Taken::Abort, End::Aborted(*reason))),
        Step::Parallel(children) => {
            let (reached, end) = run_children(making, children, labels, view)?;
            Ok((reached.into_taken(labels)?, end))
        }
    }
}

// Runs a body. Where the body aborts, undoes it and runs the handler that takes the abort.
#[cycle(run)]
fn run_subaction<T: Threads + Sync, G: Gate>(
    making: &Making<'_, T, G>,
    child: &Subaction,
    labels: &mut Vec<Held>,
    view: &mut View<'_>,
    spare: &mut Spare,
) -> Result<Tried, NoMemory>
    requires { CanTryHere (subaction_view child.now) labels.old.items (state_of_view view.old) }
    ensures shows { IfOk result (λ r. ShowsTried in_view (subaction_view child.now)
        (acted (subaction_view child.now) labels.old.items (state_of_view view.old))
        r view.old view.new) }
    ensures labels { OnOk result (labels.new.items ≡ labels.old.items) }
{
    view.begin()?;
    let list = list_of(making.shared.alloc, &mut spare.body);
    let body = run_block(making, &child.body, labels, view, list)?;
    match body.outcome {
        End::Ended => {
            view.commit()?;
            Ok(Tried {
                body,
                handler: None,
                end: End::Ended,
            })
        }
        End::Aborted(reason) => match undo(child, reason, view) {
            Ok(block) => {
                let list = list_of(making.shared.alloc, &mut spare.handler);
                let done = run_block(making, block, labels, view, list)?;
                let (handler, end) = handled(done);
                Ok(Tried { body, handler, end })
            }
            Err(end) => Ok(Tried {
                body,
                handler: None,
                end,
            }),
        },
    }
}

// Runs the children of a parallel step in order, up to the first that aborts.
#[cycle(run)]
#[tactic(auto, using(batch::proofs::PartTried::can_try_rules))]
fn run_children<T: Threads + Sync, G: Gate>(
    making: &Making<'_, T, G>,
    children: &[Subaction],
    labels: &mut Vec<Held>,
    view: &mut View<'_>,
) -> Result<(Reached, End), NoMemory>
    requires { CanRunAllHere (children_view children.now) labels.old.items
        (state_of_view view.old) }
    ensures shows { IfOk result (λ r. ShowsChildren in_view
        (one_children (children_view children.now) labels.old.items (state_of_view view.old))
        r.0.all.items r.1 r.0.outcomes.items view.old view.new) }
    ensures labels { OnOk result (labels.new.items ≡ labels.old.items) }
{
    let mut reached = Reached::new(making.shared.alloc, children.len())?;
    let mut ahead = run_if_wide(making, children, labels, view)?.into_iter();
    let mut kept = Committed::hashed_by(making.shared.alloc, making.shared.hashing);
    for (place, child) in children.iter().enumerate() {
        let sibling = Sibling { place, child };
        let run = ahead.next();
        let tried = run_child(making, sibling, run, &mut kept, labels, view)?;
        let end = reached.add(child.labelled, tried)?;
        match end {
            End::Ended => {}
            End::Aborted(_) => return Ok((reached, end)),
        }
    }
    Ok((reached, End::Ended))
}

// Takes in a child's run that was made ahead, where each of its entries commutes forward with all
// that its earlier siblings left. Otherwise the child is run again.
#[cycle(run)]
fn run_child<T: Threads + Sync, G: Gate>(
    making: &Making<'_, T, G>,
    sibling: Sibling<'_>,
    ahead: Option<Ahead>,
    kept: &mut Committed,
    labels: &mut Vec<Held>,
    view: &mut View<'_>,
) -> Result<Tried, NoMemory>
    requires can { CanTryHere (subaction_view sibling.child.now) labels.old.items
        (state_of_view view.old) }
    requires ahead { ForSome ahead (IsRunBefore (subaction_view sibling.child.now) labels.old.items
        kept.old (state_of_view view.old)) }
    ensures shows { IfOk result (λ r. ShowsTried in_view (subaction_view sibling.entry.child.now)
        (acted (subaction_view sibling.entry.child.now) labels.old.items (state_of_view view.old))
        r view.old view.new) }
    ensures kept { OnOk result (ForSome ahead (λ _. kept.new ≡ kept.old
        ++ kept_of_child (record_of (acted (subaction_view sibling.entry.child.now) labels.old.items
        (state_of_view view.old))))) }
    ensures labels { OnOk result (labels.new.items ≡ labels.old.items) }
{
    let Some(run) = ahead else {
        making.pass(sibling.place);
        return run_subaction(making, sibling.child, labels, view, &mut Spare::none());
    };
    if let Some(tried) = run.keep(kept, view)? {
        return Ok(tried);
    }
    Ok(run_anew(making, sibling, kept, labels, view)?)
}

// Runs a child in its parent's view, after its earlier siblings, and lists what it leaves. It has a
// width of 1: its own children were run ahead once, and would be again at each level.
#[cycle(run)]
fn run_anew<T: Threads + Sync, G: Gate>(
    making: &Making<'_, T, G>,
    sibling: Sibling<'_>,
    kept: &mut Committed,
    labels: &mut Vec<Held>,
    view: &mut View<'_>,
) -> Result<Tried, NoMemory>
    requires { CanTryHere (subaction_view sibling.child.now) labels.old.items
        (state_of_view view.old) }
    ensures shows { IfOk result (λ r. ShowsTried in_view (subaction_view sibling.entry.child.now)
        (acted (subaction_view sibling.entry.child.now) labels.old.items (state_of_view view.old))
        r view.old view.new) }
    ensures kept { OnOk result (kept.new ≡ kept.old
        ++ kept_of_child (record_of (acted (subaction_view sibling.entry.child.now) labels.old.items
        (state_of_view view.old)))) }
    ensures labels { OnOk result (labels.new.items ≡ labels.old.items) }
{
    let before = view.net().len();
    making.pass(sibling.place);
    let narrow = Making {
        threads: making.threads,
        gate: making.gate,
        shared: making.shared,
        width: 1,
    };
    let tried = run_subaction(&narrow, sibling.child, labels, view, &mut Spare::none())?;
    list_since(kept, view, before)?;
    Ok(tried)
}

// Runs children ahead, all on a copy of the state that their parent shows, where they are to be.
#[cycle(run)]
fn run_if_wide<T: Threads + Sync, G: Gate>(
    making: &Making<'_, T, G>,
    children: &[Subaction],
    labels: &[Held],
    view: &View<'_>,
) -> Result<Vec<Ahead>, NoMemory>
    requires { CanAllTry children.now labels.now (state_of_view view.now) }
    ensures { IfOk result
        (λ runs. AreRunAhead children.now labels.now (state_of_view view.now) runs.items) }
{
    let fork = Fork::if_wide(making.shared, children, labels, view, making.width)?;
    let Some(fork) = fork else {
        return Ok(Vec::new(making.shared.alloc));
    };
    run_ahead(
        making.threads,
        making.gate,
        &fork,
        0,
        children,
        making.width,
    )
}

// The runs of children that follow one another in their step. The first is at this place. While
// the width is for more than one, they are made in two halves at once. The first half gets half of
// the width, rounded up, and the other the rest. (The threads and the gate are passed by themselves:
// `join` says nothing of closures that capture a struct which borrows.)
#[cycle(run)]
#[tactic(auto, using(crate::proofs::Siblings::no_larger_rules))]
fn run_ahead<T: Threads + Sync, G: Gate>(
    threads: &T,
    gate: &G,
    fork: &Fork,
    first: usize,
    children: &[Subaction],
    width: u32,
) -> Result<Vec<Ahead>, NoMemory>
    requires can { CanAllTry children.now fork.now.labels.items fork.now.state }
    requires few { first + length children.now < 2 ^ 64 }
    ensures all { IfOk result (λ runs. length runs.items ≡ length children.now) }
    ensures runs { IfOk result
        (λ runs. AreRunAhead children.now fork.now.labels.items fork.now.state runs.items) }
{
    if width < 2 || children.len() < 2 {
        return run_part(threads, gate, fork, first, children, width);
    }
    let middle = children.len().div_ceil(2);
    let (older, younger) = children.split_at(middle);
    let beyond = first + middle;
    let front_width = width.div_ceil(2);
    let back_width = width - front_width;
    let (front, back) = join(
        threads,
        || -> Result<Vec<Ahead>, NoMemory>
            requires { IsSync T.row × IsSync G.row × (first + length older.now < 2 ^ 64)
                × CanAllTry older.now fork.now.labels.items fork.now.state }
            ensures { IfOk result (λ runs. (length runs.items ≡ length older.entry.now)
                × AreRunAhead older.entry.now fork.entry.now.labels.items
                fork.entry.now.state runs.items) }
        { run_ahead(threads, gate, fork, first, older, front_width) },
        || -> Result<Vec<Ahead>, NoMemory>
            requires { IsSync T.row × IsSync G.row × (beyond + length younger.now < 2 ^ 64)
                × CanAllTry younger.now fork.now.labels.items fork.now.state }
            ensures { IfOk result (λ runs. (length runs.items ≡ length younger.entry.now)
                × AreRunAhead younger.entry.now fork.entry.now.labels.items
                fork.entry.now.state runs.items) }
        { run_ahead(threads, gate, fork, beyond, younger, back_width) },
    );
    Ok(both_halves(front, back)?)
}

// Runs of such children, made one after the other.
#[cycle(run)]
fn run_part<T: Threads + Sync, G: Gate>(
    threads: &T,
    gate: &G,
    fork: &Fork,
    first: usize,
    children: &[Subaction],
    width: u32,
) -> Result<Vec<Ahead>, NoMemory>
    requires can { CanAllTry children.now fork.now.labels.items fork.now.state }
    requires few { first + length children.now < 2 ^ 64 }
    ensures all { IfOk result (λ runs. length runs.items ≡ length children.now) }
    ensures runs { IfOk result
        (λ runs. AreRunAhead children.now fork.now.labels.items fork.now.state runs.items) }
{
    let making = Making {
        threads,
        gate,
        shared: fork.shared,
        width,
    };
    let mut runs = Vec::with_capacity(fork.shared.alloc, children.len())?;
    for (place, child) in children.iter().enumerate() {
        let sibling = Sibling {
            place: first + place,
            child,
        };
        let run = run_alone(&making, fork, sibling)?;
        runs.push(run)?;
    }
    Ok(runs)
}

// The run of a child in a view of its own.
#[cycle(run)]
fn run_alone<T: Threads + Sync, G: Gate>(
    making: &Making<'_, T, G>,
    fork: &Fork,
    sibling: Sibling<'_>,
) -> Result<Ahead, NoMemory>
    requires { CanTryHere (subaction_view sibling.child.now) fork.now.labels.items fork.now.state }
    ensures { IfOk result (λ run. IsRunAhead (subaction_view sibling.entry.child.now)
        fork.now.labels.items fork.now.state run) }
{
    making.pass(sibling.place);
    let mut labels = Vec::from_slice(making.shared.alloc, &fork.labels)?;
    let mut view = View::open(making.shared.alloc, &fork.state)?;
    let tried = run_subaction(
        making,
        sibling.child,
        &mut labels,
        &mut view,
        &mut Spare::none(),
    )?;
    Ok(Ahead::of(making.shared, tried, view)?)
}
