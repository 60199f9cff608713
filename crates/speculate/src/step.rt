//! What a step does beside running blocks: its operation, the choice of a branch, the end of an aborted
//! body, and of a block's labels.
ghost use Rattle.std.specs.Prelude.{◌≡◌, ◌++◌, ◌<◌, true, false, length, take, IfOk, IfErr, OnOk, Some, None};
ghost use Rattle.objects.specs.Objects.{objects, Fits, ObjectHasRoom};
ghost use Rattle.meaning.specs.OneThread.{label_if, one_step};
ghost use Rattle.batch.specs.Running.{CanStepHere, StillSeen};
ghost use Rattle.batch.specs.Shows.{ShowsStep};
ghost use Rattle.speculate.specs.Running.{in_view};
ghost use Rattle.meaning.specs.declared.held.Held.TheVariants.{Replied};
ghost use Rattle.intentions.specs.Levels.{shown_values, with_entry, aborted};
ghost use Rattle.batch.specs.Views.{block_view, filling_view, subaction_view};
ghost use Rattle.batch.specs.Taking.{taker, untaken};
ghost use Rattle.batch.specs.declared.tree.Block.{size-Block};
ghost use Rattle.batch.specs.declared.tree.Subaction.{size-Subaction};

use batch::{
    Block, Filling, Made, Subaction, Taken, add_label, end_after, fill, reason_for, taker, untaken,
};
use intentions::View;
use meaning::{End, Held};
use objects::{Call, Reply};
use serial::NoMemory;
use std::alloc::Global;

/// Performs a call. Its label holds the reply.
pub(crate) fn perform(
    object: u32,
    call: &Call,
    labelled: bool,
    labels: &mut Vec<Held>,
    view: &mut View<'_>,
) -> Result<Reply, NoMemory>
    requires fits { Fits (shown_values view.old) object call.now }
    requires room { ObjectHasRoom (shown_values view.old) object call.now }
    ensures reply { IfOk result (λ reply. objects.reply (shown_values view.old) (object, call.now)
        ≡ Some reply) }
    ensures view { IfOk result (λ reply. view.new ≡ with_entry view.old
        (record { object = object; call = call.now; reply = reply })) }
    ensures labels { IfOk result (λ reply. labels.new.items ≡ labels.old.items
        ++ label_if labelled (Replied reply)) }
{
    let reply = view.perform(object, call)?;
    add_label(labels, labelled, Held::Replied(reply))?;
    Ok(reply)
}

/// Makes a call and performs it. Its label holds the reply. Where no call can be made, the step
/// aborts; where the call is refused, it may.
pub(crate) fn perform_filled(
    alloc: Global,
    filling: &Filling,
    labels: &mut Vec<Held>,
    view: &mut View<'_>,
) -> Result<(Taken, End), NoMemory>
    requires { CanStepHere (filling_view filling.now) labels.old.items (shown_values view.old) }
    ensures shows { IfOk result
        (λ r. ShowsStep in_view (one_step (filling_view filling.now) labels.old.items
        (shown_values view.old)) r.0 r.1 labels.old.items labels.new.items view.old view.new) }
    ensures labels { OnOk result (StillSeen labels.old.items labels.new.items) }
{
    match fill(&filling.template, labels) {
        Some(call) => {
            let reply = perform(filling.object, &call, filling.labelled, labels, view)?;
            let made = Box::new(alloc, Made { call, reply })?;
            Ok((Taken::Filled(made), end_after(filling.refusal, &reply)))
        }
        None => Ok((Taken::Abort, End::Aborted(reason_for(filling.refusal)))),
    }
}

/// Forgets the labels after the first `seen`.
pub(crate) fn forget(labels: &mut Vec<Held>, seen: usize)
    ensures { labels.new.items ≡ take seen labels.old.items }
{
    labels.truncate(seen);
}

/// The branch that is run, by whether the test holds.
pub(crate) fn branch_of<'a>(holds: bool, then: &'a Block, otherwise: &'a Block) -> &'a Block
    ensures first { holds ≡ true → result.now ≡ then.now }
    ensures other { holds ≡ false → result.now ≡ otherwise.now }
{
    if holds { then } else { otherwise }
}

/// Takes back what the body of a subaction did that aborted for this reason. Returns the block that
/// takes the abort, or as `Err` how the block around goes on.
pub(crate) fn undo<'a>(
    child: &'a Subaction,
    reason: Option<u32>,
    view: &mut View<'_>,
) -> Result<&'a Block, End>
    requires { 0 < length view.old.outer }
    ensures undone { view.new ≡ aborted view.old }
    ensures takes { IfOk result (λ block. Some (block_view block.now)
        ≡ taker (subaction_view child.now).handlers reason) }
    ensures inside { IfOk result (λ block. size-Block block.now < size-Subaction child.now) }
    ensures none { IfErr result (λ end. None ≡ taker (subaction_view child.now).handlers reason) }
    ensures end { IfErr result (λ end. end ≡ untaken (subaction_view child.now).handlers reason) }
{
    view.abort();
    match taker(child, reason) {
        Some(block) => Ok(block),
        None => Err(untaken(child, reason)),
    }
}
