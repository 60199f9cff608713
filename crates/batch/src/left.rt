//! Performing what a run left on some of the objects, read off its block and its record.
ghost use Rattle.std.specs.Prelude.{◌≡◌, option_copied, OnOk};
ghost use Rattle.objects.specs.Parts.{ArePerformedOn, CanPerformOn};
ghost use Rattle.batch.specs.Views.{block_view, step_view, subaction_view, children_view, record_view, taken_view, tried_view, all_tried_view};
ghost use Rattle.batch.specs.Left.{left, left_by_step, left_by_child, left_by_children, left_by_transaction, taker_at};

use crate::handlers::taker;
use crate::record::{Record, Taken};
use crate::tree::{Block, Step, Subaction};
use meaning::End;
use objects::{Value, perform_on};
use serial::NoMemory;

/// Performs the calls that a run of a transaction left, in order, on these values: those of the
/// objects from the place `first` on. Calls on other objects are passed over. The calls are read
/// off the run's block and its record.
///
/// Returns `NoMemory` where a request for memory was refused: some of the calls may then have been
/// performed.
#[cycle(left)]
pub fn perform_left(
    block: &Block,
    done: &Record,
    first: usize,
    values: &mut [Value],
) -> Result<(), NoMemory>
    requires { CanPerformOn first values.old (left_by_transaction (block_view block.now)
        (record_view done.now)) }
    ensures { OnOk result (ArePerformedOn first values.old values.new
        (left_by_transaction (block_view block.now) (record_view done.now))) }
{
    match done.outcome {
        End::Ended => perform_block(block, done, first, values)?,
        End::Aborted(_) => {}
    }
    Ok(())
}

#[cycle(left)]
fn perform_block(
    block: &Block,
    done: &Record,
    first: usize,
    values: &mut [Value],
) -> Result<(), NoMemory>
    requires { CanPerformOn first values.old (left (block_view block.now) (record_view done.now)) }
    ensures { OnOk result (ArePerformedOn first values.old values.new
        (left (block_view block.now) (record_view done.now))) }
{
    for (place, step) in block.steps.iter().enumerate() {
        if place >= done.taken.len() {
            return Ok(());
        }
        perform_step(step, &done.taken[place], first, values)?;
    }
    Ok(())
}

#[cycle(left)]
fn perform_step(
    step: &Step,
    taken: &Taken,
    first: usize,
    values: &mut [Value],
) -> Result<(), NoMemory>
    requires { CanPerformOn first values.old (left_by_step (step_view step.now)
        (taken_view taken.now)) }
    ensures { OnOk result (ArePerformedOn first values.old values.new
        (left_by_step (step_view step.now) (taken_view taken.now))) }
{
    match (step, taken) {
        (Step::Op { object, call, .. }, Taken::Op(_)) => {
            perform_on(values, first, *object, call)?;
        }
        (Step::Fill(filling), Taken::Filled(made)) => {
            perform_on(values, first, filling.object, &made.call)?;
        }
        (
            Step::If {
                then,
                otherwise,
                ..
            },
            Taken::If(holds, branch),
        ) => {
            let chosen = if *holds { then } else { otherwise };
            perform_block(chosen, branch, first, values)?;
        }
        (Step::Sub(child), Taken::Sub(body, handler)) => {
            perform_child(child, body, handler.as_deref(), first, values)?;
        }
        (Step::Parallel(children), Taken::Parallel(tried)) => {
            perform_children(children, tried, first, values)?;
        }
        _ => {}
    }
    Ok(())
}

#[cycle(left)]
fn perform_child(
    child: &Subaction,
    body: &Record,
    handler: Option<&Record>,
    first: usize,
    values: &mut [Value],
) -> Result<(), NoMemory>
    requires { CanPerformOn first values.old (left_by_child (subaction_view child.now).body
        (subaction_view child.now).handlers
        (tried_view (body.now, option_copied handler))) }
    ensures { OnOk result (ArePerformedOn first values.old values.new
        (left_by_child (subaction_view child.now).body (subaction_view child.now).handlers
        (tried_view (body.now, option_copied handler.entry)))) }
{
    match handler {
        Some(handler) => perform_handler(child, body.outcome, handler, first, values),
        None => perform_left(&child.body, body, first, values),
    }
}

#[cycle(left)]
fn perform_handler(
    child: &Subaction,
    end: End,
    handler: &Record,
    first: usize,
    values: &mut [Value],
) -> Result<(), NoMemory>
    requires { CanPerformOn first values.old (left
        (taker_at (subaction_view child.now).handlers end) (record_view handler.now)) }
    ensures { OnOk result (ArePerformedOn first values.old values.new
        (left (taker_at (subaction_view child.now).handlers end) (record_view handler.now))) }
{
    if let End::Aborted(reason) = end {
        if let Some(block) = taker(child, reason) {
            perform_block(block, handler, first, values)?;
        }
    }
    Ok(())
}

#[cycle(left)]
fn perform_children(
    children: &[Subaction],
    tried: &[(Record, Option<Record>)],
    first: usize,
    values: &mut [Value],
) -> Result<(), NoMemory>
    requires { CanPerformOn first values.old (left_by_children (children_view children.now)
        (all_tried_view tried.now)) }
    ensures { OnOk result (ArePerformedOn first values.old values.new
        (left_by_children (children_view children.now) (all_tried_view tried.now))) }
{
    for (place, child) in children.iter().enumerate() {
        if place >= tried.len() {
            return Ok(());
        }
        let (body, handler) = &tried[place];
        perform_child(child, body, handler.as_ref(), first, values)?;
    }
    Ok(())
}
