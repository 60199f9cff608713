//! Gives the items and the reasons of ranges their new numbers, each range in a thread.
ghost use Rattle.std.specs.Prelude.{◌≡◌, map, true, IfOk};
ghost use Rattle.batch.specs.Views.{block_view};
ghost use Rattle.doc_merge.specs.Parts.{blocks_in, renumbered_part, renumbered_parts};
ghost use Rattle.doc_merge.specs.Renumbered.{new_number, renumbered};

use crate::blocks::{NewNumbers, renumber_block};
use batch::Block;
use doc_tokens::stop::Stop;
use std::alloc::Global;
use std::thread::{Threads, for_each_mut};

/// The blocks of a range, and the new numbers of their items and reasons.
#[derive(Drop)]
pub(crate) struct Part {
    pub(crate) numbers: NewNumbers,
    pub(crate) blocks: Vec<Block>,
}

/// Gives each item and each reason in these blocks its new number.
fn renumber_blocks(numbers: &NewNumbers, blocks: &mut Vec<Block>)
    ensures { map block_view blocks.new.items ≡ map (renumbered (new_number numbers.now.items.items)
        (new_number numbers.now.reasons.items)) (map block_view blocks.old.items) }
{
    for place in 0..blocks.len() {
        renumber_block(numbers, &mut blocks[place]);
    }
}

/// Gives each item and each reason of a range its new number. Where all stay, no block is read.
fn renumber_part(part: &mut Part)
    ensures { map block_view part.new.blocks.items ≡ renumbered_part part.old }
{
    if !part.numbers.are_none() {
        renumber_blocks(&part.numbers, &mut part.blocks);
    }
}

/// Gives each item and each reason of ranges its new number, each range in a thread. Where no two
/// ranges change, no thread is started.
pub(crate) fn renumber_parts<T: Threads + Sync>(threads: &T, parts: &mut [Part])
    ensures { blocks_in parts.new ≡ renumbered_parts parts.old }
{
    let changing = parts.iter().filter(|part| !part.numbers.are_none()).count();
    let at_once = if changing < 2 { 1 } else { parts.len() };
    let renumber = |_place: usize, part: &mut Part|
        ensures { map block_view part.new.blocks.items ≡ renumbered_part part.old }
    { renumber_part(part) };
    for_each_mut(threads, parts, at_once.max(1), &renumber);
}

/// The blocks of ranges, one after the other.
pub(crate) fn append_parts(alloc: Global, parts: Vec<Part>) -> Result<Vec<Block>, Stop>
    ensures { IfOk result (λ blocks. map block_view blocks.items ≡ blocks_in parts.items) }
{
    let mut blocks = Vec::new(alloc);
    for part in parts {
        let Part {
            blocks: mut more,
            ..
        } = part;
        blocks.append(&mut more)?;
    }
    Ok(blocks)
}
