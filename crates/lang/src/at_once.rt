//! Reads a document in the common form in ranges of its text, which threads read side by side.
//!
//! The calling thread reads the head, up to the bracket that begins the transactions. Each thread
//! then reads a range of them alone, with counts and numbers of its own. What was read is put
//! together in the order of the text.
ghost use Rattle.std.specs.Prelude.{◌≡◌, ◌≤◌, ◌<◌, ◌+◌, ℕ, [], false, length, map, slice_index};
ghost use Rattle.std.specs.Prelude.{slice_index_or, true, IfOk, IfSome, Ok, OnOk};
ghost use Rattle.json.specs.Lex.{tokens};
ghost use Rattle.serde_json.specs.Data.{Data};
ghost use Rattle.doc_cuts.specs.Whole.{is_open};
ghost use Rattle.lang.specs.AtOnce.{Follow};
ghost use Rattle.doc_merge.specs.Parts.{reached_by};
ghost use Rattle.doc_merge.specs.RangeReads.{IsReadAlone};
ghost use Rattle.doc_tokens.specs.Pulled.{ReadsValue};
ghost use Rattle.doc_tokens.specs.Ranges.{IsHead};
ghost use Rattle.doc_tree.specs.Answer.{AreMet};
ghost use Rattle.doc_tree.specs.Asked.{setting_in};
ghost use Rattle.doc_tree.specs.Demand.{no_counts};
ghost use Rattle.doc_tree.specs.Places.{placed};
ghost use Rattle.doc_tree.specs.Scope.{no_numbers, numbers_of, scope_of, setting_of};
ghost use Rattle.doc_tree.specs.Spelled.{parts_in, spelled};

use crate::ranges::range_end;
use doc_merge::ranges::{MergedRanges, RangeRead, merge_ranges, read_range};
use doc_tokens::ranges::{RangeEnd, pull_head_alone};
use doc_tokens::stop::Stop;
use doc_tree::declared::Declared;
use doc_tree::hashing::NameHashing;
use doc_tree::state::ReaderState;
use json::{Reader, Scratch};
use memchr::memmem;
use std::alloc::Global;
use std::thread::{Threads, map_indices};

/// The name of the member that has the transactions.
const NAME: &[u8] = b"\"transactions\"";

/// The place of this byte, if it comes first from a place on but for white space.
fn byte_next(text: &[u8], from: usize, byte: u8) -> Option<usize>
    requires { from ≤ length text.now }
    ensures { IfSome result (λ at. (at < length text.now) × (slice_index text.now at ≡ byte)) }
{
    let mut at = from;
    while at < text.len() {
        if text[at] == byte {
            return Some(at);
        }
        if !text[at].is_ascii_whitespace() {
            return None;
        }
        at += 1;
    }
    None
}

/// The place of the bracket that begins the transactions: the first one that comes after the name of
/// this member and a colon. But for white space nothing is in between.
fn head_end(text: &[u8]) -> Option<usize>
    ensures { IfSome result (λ at. (at < length text.now) × (slice_index text.now at ≡ 91)) }
{
    let mut from = 0;
    while let Some(found) = memmem::find(&text[from..], NAME) {
        from += found + NAME.len();
        if let Some(colon) = byte_next(text, from, b':') {
            if let Some(bracket) = byte_next(text, colon + 1, b'[') {
                return Some(bracket);
            }
        }
    }
    None
}

/// How long a range is at the least, where so many are to come of a text of this length.
fn least_of(length: usize, parts: usize) -> usize
    ensures { result ≤ length }
{
    let share = length / parts.max(1);
    if parts < 2 {
        length
    } else {
        share - share / 32
    }
}

/// Where the ranges begin and end: so many at most, of about the same length.
fn ranges_from(
    alloc: Global,
    text: &[u8],
    begin: usize,
    parts: usize,
) -> Result<Vec<(usize, usize)>, Stop>
    requires { begin ≤ length text.now }
{
    let mut ranges = Vec::new(alloc);
    let mut left = parts;
    let mut end = range_end(text, begin, least_of(text.len() - begin, left));
    ranges.push((begin, end))?;
    while end < text.len() {
        left = left.saturating_sub(1);
        let next = end + 1;
        end = range_end(text, next, least_of(text.len() - next, left));
        ranges.push((next, end))?;
    }
    Ok(ranges)
}

/// What the text declares, which is the head of a document.
fn read_head(alloc: Global, head: &str, state: &mut ReaderState) -> Result<Declared, Stop>
    requires { scope_of state.old.labels.entries ≡ [] }
    ensures head { IfOk result (λ declared. IsHead (tokens head.now) [] declared
        state.old.counts (numbers_of state.old.numbering)
        state.new.counts (numbers_of state.new.numbering)) }
    ensures begun { OnOk result (is_open false (tokens head.now) ≡ true) }
    ensures scope { OnOk result (scope_of state.new.labels.entries ≡ []) }
{
    let mut scratch = Scratch::new(alloc);
    let mut reader = Reader::new(head, &mut scratch)?;
    pull_head_alone(alloc, head.as_bytes(), &mut reader, state)
}

/// What the threads read: each range alone.
fn read_each<T: Threads + Sync>(
    threads: &T,
    alloc: Global,
    text: &str,
    ranges: &[(usize, usize)],
    declared: &Declared,
    hashing: NameHashing,
) -> Result<Vec<Result<RangeRead, Stop>>, Stop>
    ensures { IfOk result (λ reads. (i : ℕ) (d : _) → i < length reads.items
        → IfOk (slice_index_or reads.items i d) (IsReadAlone (setting_of declared.now) text.now)) }
{
    let read = |part: usize| -> Result<RangeRead, Stop>
        requires { part < length ranges.now }
        ensures { IfOk result (IsReadAlone (setting_of declared.entry.now) text.entry.now) }
    {
        let (begin, end) = ranges[part];
        read_range(alloc, text, begin, end, declared, hashing)
    };
    let reads = map_indices(threads, alloc, ranges.len(), &read)?;
    Ok(reads)
}

/// The ranges, where each was read.
fn gathered(alloc: Global, found: Vec<Result<RangeRead, Stop>>) -> Result<Vec<RangeRead>, Stop>
    ensures { IfOk result (λ reads. map Ok reads.items ≡ found.items) }
{
    let mut reads = Vec::with_capacity(alloc, found.len())?;
    for read in found {
        reads.push(read?)?;
    }
    Ok(reads)
}

/// Whether the ranges follow one another from this place to the end of the text, which is that of
/// the document: each but the last ends after a transaction, at a comma.
fn follow(text: &[u8], begin: usize, reads: &[RangeRead]) -> bool
    ensures { result ≡ true → Follow text.now begin reads.now }
{
    let mut next = begin;
    let mut ended = false;
    for read in reads {
        if ended || read.begin != next || read.end > text.len() {
            return false;
        }
        match read.last {
            RangeEnd::Document => {
                ended = true;
                if read.end < text.len() {
                    return false;
                }
            }
            RangeEnd::Transaction => {
                if read.end == text.len() || text[read.end] != b',' {
                    return false;
                }
                next = read.end + 1;
            }
        }
    }
    ended
}

/// What the document declares and its transactions, if the text is in the common form, from so many
/// ranges at most, each of which a thread reads.
pub(crate) fn pull_at_once<T: Threads + Sync>(
    threads: &T,
    alloc: Global,
    text: &str,
    parts: usize,
    hashing: NameHashing,
) -> Result<(Declared, MergedRanges), Stop>
    ensures { IfOk result (λ read. (d : Data) × ReadsValue 127 (tokens text.now) d []
        × AreMet no_counts (placed d) read.1.counts
        × (setting_of read.0 ≡ setting_in d)
        × (spelled read.0.objects (reached_by read.1).blocks (reached_by read.1).numbers
        ≡ parts_in no_numbers d)) }
{
    let bytes = text.as_bytes();
    let bracket = head_end(bytes).ok_or(Stop::OtherForm)?;
    let head = text.get(0..bracket).ok_or(Stop::OtherForm)?;
    let mut state = ReaderState::new(alloc, hashing);
    let declared = read_head(alloc, head, &mut state)?;
    let ranges = ranges_from(alloc, bytes, bracket + 1, parts)?;
    let found = read_each(threads, alloc, text, &ranges, &declared, hashing)?;
    let reads = gathered(alloc, found)?;
    if !follow(bytes, bracket + 1, &reads) {
        return Err(Stop::OtherForm);
    }
    let merged = merge_ranges(threads, alloc, reads, &declared, state)?;
    Ok((declared, merged))
}
