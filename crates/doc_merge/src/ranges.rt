//! Reads a range of a document alone, and puts what was read of ranges after one another.
ghost use Rattle.std.specs.Prelude.{◌≡◌, ◌≤◌, ◌+◌, [], ◌∷◌, drop, length, map, IfOk, OnOk};
ghost use Rattle.batch.specs.Names.{texts_of};
ghost use Rattle.doc_merge.specs.AfterRange.{counts_after};
ghost use Rattle.doc_merge.specs.Parts.{AreCounted, AreParts, items_of, reached_by, reasons_of};
ghost use Rattle.doc_merge.specs.RangeReads.{AreMerged, IsReadAlone};
ghost use Rattle.doc_tokens.specs.Ranges.{reached};
ghost use Rattle.doc_rules.specs.Limits.{limits_of};
ghost use Rattle.doc_tree.specs.Scope.{setting_of};

use crate::blocks::NewNumbers;
use crate::parts::{Part, append_parts, renumber_parts};
use crate::tables::{MOST_TEXTS, but_places, merge_tables};
use batch::Block;
use doc_rules::Limits;
use doc_tokens::ranges::{RangeEnd, pull_range};
use doc_tokens::stop::Stop;
use doc_tree::counts::Counts;
use doc_tree::declared::Declared;
use doc_tree::hashing::{NameHashing, TextSet};
use doc_tree::state::{Numbering, ReaderState};
use json::{Reader, Scratch};
use serial::NoMemory;
use std::alloc::Global;
use std::thread::Threads;

/// What was read of a range of a document, with counts and numbers of its own.
#[derive(Drop)]
pub struct RangeRead {
    /// Where in the text the range begins.
    pub begin: usize,
    /// Where it ends.
    pub end: usize,
    /// What it ends after.
    pub last: RangeEnd,
    pub(crate) transactions: Vec<Block>,
    pub(crate) counts: Counts,
    pub(crate) numbering: Numbering,
}

/// Reads the range of a text from one place to another, which begins with a transaction.
///
/// [`Stop::OtherForm`] where it doesn't, or doesn't end after a transaction or the document.
pub fn read_range(
    alloc: Global,
    text: &str,
    begin: usize,
    end: usize,
    declared: &Declared,
    hashing: NameHashing,
) -> Result<RangeRead, Stop>
    ensures read { IfOk result (IsReadAlone (setting_of declared.now) text.now) }
    ensures begin { IfOk result (λ read. read.begin ≡ begin) }
    ensures end { IfOk result (λ read. read.end ≡ end) }
{
    let range = text.get(begin..end).ok_or(Stop::OtherForm)?;
    let mut scratch = Scratch::new(alloc);
    let mut reader = Reader::new(range, &mut scratch)?;
    let mut state = ReaderState::new(alloc, hashing);
    let mut transactions = Vec::new(alloc);
    let last = pull_range(alloc, &mut reader, declared, &mut transactions, &mut state)?;
    Ok(RangeRead {
        begin,
        end,
        last,
        transactions,
        counts: state.counts,
        numbering: state.numbering,
    })
}

/// Adds the counts of a range that was read alone, before which so many transactions are.
fn add_counts(counts: &mut Counts, more: &Counts, version: u8, before: u32) -> Result<(), Stop>
    ensures counts { OnOk result (counts.new ≡ counts_after before counts.old more.now) }
    ensures operations { OnOk result (counts.old.operations + more.now.operations
        ≤ (limits_of version).operations) }
    ensures nodes { OnOk result (counts.old.nodes + more.now.nodes ≤ (limits_of version).nodes) }
{
    let operations = counts.operations as usize + more.operations as usize;
    let nodes = counts.nodes as usize + more.nodes as usize;
    let limits = Limits::of(version);
    if operations > limits.operations || nodes > limits.nodes {
        return Err(Stop::OtherForm);
    }
    if more.transaction > 0 {
        let last = before.checked_add(more.transaction);
        counts.transaction = last.ok_or(Stop::OtherForm)?;
    }
    counts.operations = operations as u32;
    counts.nodes = nodes as u32;
    Ok(())
}

/// What was read of ranges, in three lists: the tables of items and of reasons, after those of the
/// head, and the transactions.
#[derive(Drop)]
struct SplitReads {
    items: Vec<TextSet>,
    reasons: Vec<TextSet>,
    transactions: Vec<Vec<Block>>,
}

/// Splits what was read of ranges.
fn split_reads(
    alloc: Global,
    head: Numbering,
    reads: Vec<RangeRead>,
) -> Result<SplitReads, NoMemory>
    ensures items { IfOk result (λ split. map (λ table. texts_of table.keys) split.items.items
        ≡ texts_of head.items.keys ∷ map items_of reads.items) }
    ensures reasons { IfOk result (λ split. map (λ table. texts_of table.keys) split.reasons.items
        ≡ texts_of head.reasons.keys ∷ map reasons_of reads.items) }
    ensures transactions { IfOk result (λ split. map (λ one. one.items)
        split.transactions.items ≡ map (λ read. read.transactions.items) reads.items) }
{
    let mut items = Vec::with_capacity(alloc, reads.len())?;
    let mut reasons = Vec::with_capacity(alloc, reads.len())?;
    let mut transactions = Vec::with_capacity(alloc, reads.len())?;
    let Numbering {
        items: head_items,
        reasons: head_reasons,
        ..
    } = head;
    items.push(head_items)?;
    reasons.push(head_reasons)?;
    for read in reads {
        let RangeRead {
            transactions: blocks,
            numbering,
            ..
        } = read;
        let Numbering {
            items: own_items,
            reasons: own_reasons,
            ..
        } = numbering;
        items.push(own_items)?;
        reasons.push(own_reasons)?;
        transactions.push(blocks)?;
    }
    Ok(SplitReads {
        items,
        reasons,
        transactions,
    })
}

/// Counts what was read of ranges, one after the other.
///
/// [`Stop::OtherForm`] where a document may not have so much of something, or where a range has more
/// texts than there are numbers.
fn count_ranges(reads: &[RangeRead], version: u8, counts: &mut Counts) -> Result<(), Stop>
    ensures { OnOk result (AreCounted version 0 counts.old reads.now counts.new) }
{
    let limits = Limits::of(version);
    let mut before: usize = 0;
    for read in reads {
        let transactions = read.transactions.len();
        let texts = read.numbering.items.len().max(read.numbering.reasons.len());
        if before.saturating_add(transactions) > limits.transactions || texts > MOST_TEXTS {
            return Err(Stop::OtherForm);
        }
        add_counts(counts, &read.counts, version, before as u32)?;
        before += transactions;
    }
    Ok(())
}

/// The transactions of ranges, with the new numbers of their items and reasons. Those of the head
/// come first among the numbers.
fn parts_of(
    alloc: Global,
    transactions: Vec<Vec<Block>>,
    items: Vec<Vec<u32>>,
    reasons: Vec<Vec<u32>>,
) -> Result<Vec<Part>, NoMemory>
    requires items { length items.items ≡ length transactions.items + 1 }
    requires reasons { length reasons.items ≡ length transactions.items + 1 }
    ensures { IfOk result (λ parts. AreParts (map (λ one. one.items) transactions.items)
        (drop 1 (map (λ one. one.items) items.items))
        (drop 1 (map (λ one. one.items) reasons.items)) parts.items) }
{
    let mut parts = Vec::with_capacity(alloc, transactions.len())?;
    let mut items = items.into_iter();
    let mut reasons = reasons.into_iter();
    let _ = (items.next(), reasons.next());
    for blocks in transactions {
        let own_items = items.next().unwrap_or(Vec::new(alloc));
        let own_reasons = reasons.next().unwrap_or(Vec::new(alloc));
        let numbers = NewNumbers {
            items: but_places(alloc, own_items),
            reasons: but_places(alloc, own_reasons),
        };
        parts.push(Part { numbers, blocks })?;
    }
    Ok(parts)
}

/// What was read of ranges, put together: the transactions, what was counted, and the texts of the
/// items and of the reasons by their numbers.
#[derive(Drop)]
pub struct MergedRanges {
    pub transactions: Vec<Block>,
    pub counts: Counts,
    pub items: Vec<String>,
    pub reasons: Vec<String>,
}

/// Puts what was read of ranges alone after one another, and after the head, up to which the state
/// is. Threads look for the texts that earlier ranges have, too, and give the items and the reasons
/// of the ranges their new numbers.
///
/// [`Stop::OtherForm`] where a document may not have so much of something.
pub fn merge_ranges<T: Threads + Sync>(
    threads: &T,
    alloc: Global,
    reads: Vec<RangeRead>,
    declared: &Declared,
    state: ReaderState,
) -> Result<MergedRanges, Stop>
    ensures read { IfOk result (λ merged. AreMerged (setting_of declared.now) reads.items
        (reached state []) (reached_by merged)) }
    ensures few { IfOk result (λ merged. length merged.transactions.items
        ≤ (limits_of declared.now.version).transactions) }
{
    let texts = state
        .numbering
        .items
        .len()
        .max(state.numbering.reasons.len());
    if texts > MOST_TEXTS {
        return Err(Stop::OtherForm);
    }
    let mut counts = state.counts;
    count_ranges(&reads, declared.version, &mut counts)?;
    let split = split_reads(alloc, state.numbering, reads)?;
    let items = merge_tables(threads, alloc, split.items)?;
    let reasons = merge_tables(threads, alloc, split.reasons)?;
    let mut parts = parts_of(alloc, split.transactions, items.numbers, reasons.numbers)?;
    renumber_parts(threads, &mut parts);
    let transactions = append_parts(alloc, parts)?;
    Ok(MergedRanges {
        transactions,
        counts,
        items: items.texts,
        reasons: reasons.texts,
    })
}
