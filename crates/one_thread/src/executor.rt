//! Running a block on one thread, depth first, on objects that are changed in place.
ghost use Rattle.std.specs.Prelude.{◌≡◌, [], IfOk, OnOk};
ghost use Rattle.meaning.specs.OneThread.{one, one_step, one_children, one_handler};
ghost use Rattle.batch.specs.Views.{block_view, filling_view, steps_view, step_view, subaction_view, children_view};
ghost use Rattle.batch.specs.Running.{CanRunHere, CanStepHere, CanTryHere, CanRunAllHere, CanHandleHere, StillSeen, acted};
ghost use Rattle.batch.specs.Shows.{ShowsRun, ShowsStep, ShowsTried, ShowsHandler, ShowsChildren};
ghost use Rattle.one_thread.specs.Running.{in_place};

use crate::workspace::JournaledObjects;
use batch::{
    Block, Filling, Made, Record, Step, Subaction, Taken, Tried, add_label, end_after, fill,
    handled, reason_for, taker, test_holds, untaken,
};
use meaning::{End, Held};
use serial::NoMemory;
use std::alloc::Global;

/// Runs a block. Its labels are forgotten at its end.
#[cycle(run)]
pub(crate) fn run_block(
    alloc: Global,
    block: &Block,
    labels: &mut Vec<Held>,
    workspace: &mut JournaledObjects,
) -> Result<Record, NoMemory>
    requires { CanRunHere (block_view block.now) labels.old.items workspace.old.state }
    ensures shows { IfOk result
        (λ r. ShowsRun in_place (one (block_view block.now) labels.old.items workspace.old.state) r
        workspace.old workspace.new) }
    ensures labels { OnOk result (labels.new.items ≡ labels.old.items) }
{
    let seen = labels.len();
    let record = run_steps(alloc, &block.steps, labels, workspace)?;
    labels.truncate(seen);
    Ok(record)
}

#[cycle(run)]
fn run_steps(
    alloc: Global,
    steps: &[Step],
    labels: &mut Vec<Held>,
    workspace: &mut JournaledObjects,
) -> Result<Record, NoMemory>
    requires { CanRunHere (steps_view steps.now) labels.old.items workspace.old.state }
    ensures shows { IfOk result
        (λ r. ShowsRun in_place (one (steps_view steps.now) labels.old.items workspace.old.state) r
        workspace.old workspace.new) }
    ensures labels { OnOk result (StillSeen labels.old.items labels.new.items) }
{
    let mut taken = Vec::with_capacity(alloc, steps.len())?;
    for step in steps {
        let (done, end) = run_step(alloc, step, labels, workspace)?;
        taken.push(done)?;
        match end {
            End::Ended => {}
            End::Aborted(_) => {
                return Ok(Record {
                    taken,
                    outcome: end,
                });
            }
        }
    }
    Ok(Record {
        taken,
        outcome: End::Ended,
    })
}

#[cycle(run)]
fn run_step(
    alloc: Global,
    step: &Step,
    labels: &mut Vec<Held>,
    workspace: &mut JournaledObjects,
) -> Result<(Taken, End), NoMemory>
    requires { CanStepHere (step_view step.now) labels.old.items workspace.old.state }
    ensures shows { IfOk result
        (λ r. ShowsStep in_place (one_step (step_view step.now) labels.old.items
        workspace.old.state) r.0 r.1 labels.old.items labels.new.items workspace.old
        workspace.new) }
    ensures labels { OnOk result (StillSeen labels.old.items labels.new.items) }
{
    match step {
        Step::Op {
            object,
            call,
            labelled,
        } => {
            let reply = workspace.perform(*object, call)?;
            add_label(labels, *labelled, Held::Replied(reply))?;
            Ok((Taken::Op(reply), End::Ended))
        }
        Step::Fill(filling) => run_filled(alloc, filling, labels, workspace),
        Step::If {
            label,
            test,
            then,
            otherwise,
        } => {
            let holds = test_holds(test, &labels[*label as usize]);
            let branch = if holds { then } else { otherwise };
            let record = run_block(alloc, branch, labels, workspace)?;
            let end = record.outcome;
            Ok((Taken::If(holds, Box::new(alloc, record)?), end))
        }
        Step::Sub(child) => {
            let tried = run_subaction(alloc, child, labels, workspace)?;
            add_label(labels, child.labelled, Held::Outcome(tried.body.outcome))?;
            let end = tried.end;
            Ok((tried.into_taken(alloc)?, end))
        }
        Step::Abort(reason) => Ok((Taken::Abort, End::Aborted(*reason))),
        Step::Parallel(children) => {
            let mut outcomes = Vec::new(alloc);
            let (tried, end) = run_children(alloc, children, labels, &mut outcomes, workspace)?;
            labels.append(&mut outcomes)?;
            Ok((Taken::Parallel(tried), end))
        }
    }
}

// Makes a call and performs it. Where none can be made, aborts; where it is refused, may.
fn run_filled(
    alloc: Global,
    filling: &Filling,
    labels: &mut Vec<Held>,
    workspace: &mut JournaledObjects,
) -> Result<(Taken, End), NoMemory>
    requires { CanStepHere (filling_view filling.now) labels.old.items workspace.old.state }
    ensures shows { IfOk result
        (λ r. ShowsStep in_place (one_step (filling_view filling.now) labels.old.items
        workspace.old.state) r.0 r.1 labels.old.items labels.new.items workspace.old
        workspace.new) }
    ensures labels { OnOk result (StillSeen labels.old.items labels.new.items) }
{
    match fill(&filling.template, labels) {
        Some(call) => {
            let reply = workspace.perform(filling.object, &call)?;
            add_label(labels, filling.labelled, Held::Replied(reply))?;
            let made = Box::new(alloc, Made { call, reply })?;
            Ok((Taken::Filled(made), end_after(filling.refusal, &reply)))
        }
        None => Ok((Taken::Abort, End::Aborted(reason_for(filling.refusal)))),
    }
}

// Runs a body. Where the body aborts, undoes it and runs the handler that takes the abort.
#[cycle(run)]
fn run_subaction(
    alloc: Global,
    child: &Subaction,
    labels: &mut Vec<Held>,
    workspace: &mut JournaledObjects,
) -> Result<Tried, NoMemory>
    requires { CanTryHere (subaction_view child.now) labels.old.items workspace.old.state }
    ensures shows { IfOk result
        (λ r. let child = subaction_view child.now in
        ShowsTried in_place child (acted child labels.old.items workspace.old.state) r workspace.old
        workspace.new) }
    ensures labels { OnOk result (labels.new.items ≡ labels.old.items) }
{
    let mark = workspace.mark();
    let body = run_block(alloc, &child.body, labels, workspace)?;
    match body.outcome {
        End::Ended => Ok(Tried {
            body,
            handler: None,
            end: End::Ended,
        }),
        End::Aborted(reason) => {
            workspace.rewind(mark)?;
            let (handler, end) = run_handler(alloc, child, reason, labels, workspace)?;
            Ok(Tried { body, handler, end })
        }
    }
}

// Runs the block that takes an abort for this reason, if one does, and returns how the block around
// goes on.
#[cycle(run)]
fn run_handler(
    alloc: Global,
    child: &Subaction,
    reason: Option<u32>,
    labels: &mut Vec<Held>,
    workspace: &mut JournaledObjects,
) -> Result<(Option<Record>, End), NoMemory>
    requires { CanHandleHere (subaction_view child.now).handlers labels.old.items
        workspace.old.state }
    ensures shows { IfOk result
        (λ r. ShowsHandler in_place (one_handler (subaction_view child.now).handlers
        labels.old.items reason workspace.old.state) r.0 r.1 workspace.old workspace.new) }
    ensures labels { OnOk result (labels.new.items ≡ labels.old.items) }
{
    match taker(child, reason) {
        Some(block) => Ok(handled(run_block(alloc, block, labels, workspace)?)),
        None => Ok((None, untaken(child, reason))),
    }
}

#[cycle(run)]
#[tactic(auto, using(batch::proofs::PartTried::can_try_rules))]
fn run_children(
    alloc: Global,
    children: &[Subaction],
    labels: &mut Vec<Held>,
    outcomes: &mut Vec<Held>,
    workspace: &mut JournaledObjects,
) -> Result<(Vec<(Record, Option<Record>)>, End), NoMemory>
    requires can { CanRunAllHere (children_view children.now) labels.old.items workspace.old.state }
    requires none_yet { outcomes.old.items ≡ [] }
    ensures shows { IfOk result
        (λ r. ShowsChildren in_place (one_children (children_view children.now) labels.old.items
        workspace.old.state) r.0.items r.1 outcomes.new.items workspace.old workspace.new) }
    ensures labels { OnOk result (labels.new.items ≡ labels.old.items) }
{
    let mut all = Vec::with_capacity(alloc, children.len())?;
    for child in children {
        let tried = run_subaction(alloc, child, labels, workspace)?;
        add_label(outcomes, child.labelled, Held::Outcome(tried.body.outcome))?;
        let end = tried.end;
        all.push((tried.body, tried.handler))?;
        match end {
            End::Ended => {}
            End::Aborted(_) => return Ok((all, end)),
        }
    }
    Ok((all, End::Ended))
}
