//! The paths of the parts of a step, by which a report names them.
ghost use Rattle.std.specs.Prelude.{◌≡◌, ◌++◌, ◌-◌, ◌<◌, ◌≤◌, ℕ, List, IfNone, IfOk, IfSome, OnOk, option_map, string_bytes, take};
ghost use Rattle.std.specs.Option.{ForSome};
ghost use Rattle.meaning.specs.Texts.{branch_path, handler_block, part, reason_of};
ghost use Rattle.meaning.specs.Trees.{NoStep};
ghost use Rattle.batch.specs.declared.tree.Block.{size-Block};
ghost use Rattle.batch.specs.declared.tree.Subaction.{size-Subaction};
ghost use Rattle.batch.specs.Names.{names_of};
ghost use Rattle.batch.specs.Taking.{taker};
ghost use Rattle.batch.specs.Views.{block_view, subaction_view};
ghost use Rattle.std.specs.String.Boundary.{IsSplitPoint};
ghost use Rattle.report.specs.Paths.{handler_place, tens};

use crate::calls::write_natural;
use crate::names::reason_name;
use batch::{Block, Names, Otherwise, Subaction, handler_for};
use meaning::End;
use serial::NoMemory;
use std::alloc::Global;

/// Room for the path of a step, which mostly has no more bytes.
const PATH: usize = 32;

/// Room for a dot and a number, which mostly have no more bytes.
const DOT_AND_NUMBER: usize = 8;

/// Room for the part of a handler, which mostly has no more bytes.
const HANDLER: usize = 24;

// A number without its last digit, with room for the paths that begin with it.
pub(crate) fn begin_path(alloc: Global, number: usize) -> Result<String, NoMemory>
    ensures { IfOk result (λ t. string_bytes t ≡ tens number) }
{
    let mut text = String::with_capacity(alloc, PATH)?;
    push_tens(&mut text, number)?;
    Ok(text)
}

/// The path of the step or the child of this number (from 1) below a path.
pub fn part_path(alloc: Global, path: &str, number: usize) -> Result<String, NoMemory>
    ensures { IfOk result (λ t. string_bytes t ≡ part path.now number) }
{
    let mut text = path_with_room(alloc, path, DOT_AND_NUMBER)?;
    push_part(&mut text, number)?;
    Ok(text)
}

// Puts a dot and the number of a step or a child (from 1) after a path.
pub(crate) fn push_part(path: &mut String, number: usize) -> Result<(), NoMemory>
    ensures { OnOk result (string_bytes path.new ≡ part (string_bytes path.old) number) }
{
    path.push('.')?;
    write_natural(path, number as u64)
}

// Puts a number without its last digit after a path.
pub(crate) fn push_tens(path: &mut String, number: usize) -> Result<(), NoMemory>
    ensures { OnOk result (string_bytes path.new ≡ string_bytes path.old ++ tens number) }
{
    if number >= 10 {
        write_natural(path, (number / 10) as u64)?;
    }
    Ok(())
}

// Makes a path that ends in the number before this one, without its last digit, end in this one. Most
// numbers differ from the one before by the last digit alone.
pub(crate) fn count_up(path: &mut String, start: usize, number: usize) -> Result<(), NoMemory>
    requires some { 1 ≤ number }
    requires cut { IsSplitPoint (string_bytes path.old) start }
    requires before { string_bytes path.old
        ≡ take start (string_bytes path.old) ++ tens (number - 1) }
    ensures { OnOk result (string_bytes path.new
        ≡ take start (string_bytes path.old) ++ tens number) }
{
    if number % 10 == 0 {
        path.truncate(start);
        push_tens(path, number)?;
    }
    Ok(())
}

// A path, with room for so many bytes after it.
fn path_with_room(alloc: Global, path: &str, room: usize) -> Result<String, NoMemory>
    ensures { IfOk result (λ t. string_bytes t ≡ path.now) }
{
    let mut text = String::with_capacity(alloc, path.len().saturating_add(room))?;
    text.push_str(path)?;
    Ok(text)
}

/// The path of the branch of an `if` that is taken where its test holds, or doesn't.
pub fn branch_path(alloc: Global, path: &str, holds: bool) -> Result<String, NoMemory>
    ensures { IfOk result (λ t. string_bytes t ≡ branch_path path.now holds) }
{
    let end = branch_end(holds);
    let mut text = path_with_room(alloc, path, end.len())?;
    text.push_str(end)?;
    Ok(text)
}

// What the path of a branch has after the path of its `if`.
pub(crate) fn branch_end(holds: bool) -> &'static str
    ensures { (path : List ℕ) → path ++ result.now ≡ branch_path path holds }
{
    if holds { ".t" } else { ".e" }
}

/// The path and the block of what takes an abort for this reason, if a handler does.
pub fn handler_place<'b>(
    alloc: Global,
    names: &Names,
    path: &str,
    child: &'b Subaction,
    reason: Option<u32>,
) -> Result<Option<(String, &'b Block)>, NoMemory>
    ensures place { IfOk result (λ found. IfSome found (λ p. (string_bytes p.0, block_view p.1.now)
        ≡ handler_place (names_of names.now) path.now reason (subaction_view child.now).handlers)) }
    ensures taken { IfOk result (λ found. option_map (λ p. block_view p.1.now) found
        ≡ taker (subaction_view child.now).handlers reason) }
    ensures none { IfOk result (λ found. IfNone found
        (handler_block (subaction_view child.now).handlers reason ≡ NoStep)) }
    ensures inside { IfOk result (λ found. ForSome found (λ p. size-Block p.1.now
        < size-Subaction child.now)) }
{
    let mut text = path_with_room(alloc, path, HANDLER)?;
    match push_handler(&mut text, names, child, reason)? {
        Some(block) => Ok(Some((text, block))),
        None => Ok(None),
    }
}

// Makes the path of a subaction that of what takes an abort for this reason, and returns its block.
// Where no handler takes it, the path is as before.
pub(crate) fn push_handler<'b>(
    path: &mut String,
    names: &Names,
    child: &'b Subaction,
    reason: Option<u32>,
) -> Result<Option<&'b Block>, NoMemory>
    ensures place { IfOk result (λ found. IfSome found (λ b.
        (string_bytes path.new, block_view b.now)
        ≡ handler_place (names_of names.now) (string_bytes path.old) reason
        (subaction_view child.now).handlers)) }
    ensures taken { IfOk result (λ found. option_map (λ b. block_view b.now) found
        ≡ taker (subaction_view child.now).handlers reason) }
    ensures none { IfOk result (λ found. IfNone found
        (handler_block (subaction_view child.now).handlers reason ≡ NoStep)) }
    ensures stays { IfOk result (λ found.
        IfNone found (string_bytes path.new ≡ string_bytes path.old)) }
    ensures inside { IfOk result (λ found.
        ForSome found (λ b. size-Block b.now < size-Subaction child.now)) }
{
    match handler_for(child, reason) {
        Some(handler) => {
            path.push_str(".h:")?;
            path.push_str(reason_name(names, handler.reason))?;
            Ok(Some(&handler.block))
        }
        None => match &child.otherwise {
            Otherwise::Run(block) => {
                path.push_str(".h")?;
                Ok(Some(block))
            }
            Otherwise::GoOn => Ok(None),
            Otherwise::Pass => Ok(None),
        },
    }
}

/// The reason of an abort, if there is one.
pub fn reason_of(outcome: End) -> Option<u32>
    ensures { result ≡ reason_of outcome }
{
    match outcome {
        End::Ended => None,
        End::Aborted(reason) => reason,
    }
}
