//! Which block takes an abort.
ghost use Rattle.std.specs.Prelude.{◌≡◌, ◌<◌, option_map};
ghost use Rattle.std.specs.List.{find};
ghost use Rattle.std.specs.Option.{ForSome};
ghost use Rattle.meaning.specs.OneThread.{is_for};
ghost use Rattle.batch.specs.Views.{block_view, subaction_view};
ghost use Rattle.batch.specs.Taking.{taker, untaken};
ghost use Rattle.batch.specs.declared.tree.Block.{size-Block};
ghost use Rattle.batch.specs.declared.tree.Subaction.{out-Subaction, size-Subaction};

use crate::tree::{Block, Handler, Otherwise, Subaction};
use meaning::End;

/// The first of a subaction's handlers for the reason of an abort, if there is one.
pub fn handler_for(child: &Subaction, reason: Option<u32>) -> Option<&Handler>
    ensures first { option_map (λ handler. handler.now) result
        ≡ find (λ handler. is_for handler.reason reason) (out-Subaction child.now).handlers.items }
    ensures inside { ForSome result (λ handler. size-Block handler.now.block
        < size-Subaction child.now) }
{
    child
        .handlers
        .iter()
        .find(|handler| is_for(handler.reason, reason))
}

/// The block that takes the abort of a subaction's body for this reason, if one does: a handler, or
/// else what runs otherwise.
pub fn taker(child: &Subaction, reason: Option<u32>) -> Option<&Block>
    ensures takes { option_map (λ block. block_view block.now) result
        ≡ taker (subaction_view child.now).handlers reason }
    ensures inside { ForSome result (λ block. size-Block block.now < size-Subaction child.now) }
{
    match handler_for(child, reason) {
        Some(handler) => Some(&handler.block),
        None => match &child.otherwise {
            Otherwise::Run(block) => Some(block),
            Otherwise::GoOn => None,
            Otherwise::Pass => None,
        },
    }
}

/// How the block around goes on where no handler takes the abort.
pub fn untaken(child: &Subaction, reason: Option<u32>) -> End
    ensures { result ≡ untaken (subaction_view child.now).handlers reason }
{
    match &child.otherwise {
        Otherwise::Run(_) => End::Ended,
        Otherwise::GoOn => End::Ended,
        Otherwise::Pass => End::Aborted(reason),
    }
}

// Whether a handler for one reason takes an abort for this one.
fn is_for(handled: u32, reason: Option<u32>) -> bool
    ensures { result ≡ is_for handled reason }
{
    match reason {
        Some(reason) => handled == reason,
        None => false,
    }
}
