//! Reads a document in the common form in ranges of its text, one after the other.
//!
//! A range ends where a transaction may end: at the comma between a bracket `]` and a bracket `[`.
//! No reader has more than one range, so its scratch memory is that of the longest range.
//! Where a cut is elsewhere, the tokens of its ranges are out of the common form.
ghost use Rattle.std.specs.Prelude.{◌≡◌, ◌≤◌, ◌<◌, List, [], ◌∷◌, length, map, slice_index, IfOk};
ghost use Rattle.json.specs.Lex.{tokens};
ghost use Rattle.json.specs.Token.{Token, begin_array};
ghost use Rattle.serde_json.specs.Data.{Data};
ghost use Rattle.batch.specs.Views.{block_view};
ghost use Rattle.doc_tokens.specs.Pulled.{ReadsValue};
ghost use Rattle.doc_tokens.specs.Ranges.{AreRead, IsBegun, left_by, reached};
ghost use Rattle.doc_tree.specs.Answer.{AreMet};
ghost use Rattle.doc_tree.specs.Asked.{setting_in};
ghost use Rattle.doc_rules.specs.Limits.{limits_of};
ghost use Rattle.doc_tree.specs.Places.{placed};
ghost use Rattle.doc_tree.specs.Scope.{numbers_of, scope_of, setting_of};
ghost use Rattle.doc_tree.specs.Spelled.{parts_in, spelled};

use batch::Block;
use doc_cuts::next_cut;
use doc_tokens::ranges::{RangeEnd, pull_first_range, pull_range};
use doc_tokens::stop::Stop;
use doc_tree::declared::{Declared, Parts};
use doc_tree::state::ReaderState;
use json::{Reader, Scratch};
use std::alloc::Global;

/// Where a range ends that begins here: at the first cut after so many bytes, or with the text.
pub(crate) fn range_end(text: &[u8], begin: usize, least: usize) -> usize
    requires { begin ≤ length text.now }
    ensures within { (begin ≤ result) × (result ≤ length text.now) }
    ensures comma { result < length text.now → slice_index text.now result ≡ 44 }
{
    if text.len() - begin <= least {
        return text.len();
    }
    match next_cut(text, begin + least) {
        Some(bracket) => bracket + 1,
        None => text.len(),
    }
}

/// The first range of a document.
fn first_range(
    alloc: Global,
    range: &str,
    scratch: &mut Scratch,
    state: &mut ReaderState,
) -> Result<(Parts, RangeEnd), Stop>
    requires labels { scope_of state.old.labels.entries ≡ [] }
    ensures begun { IfOk result (λ first. IsBegun (tokens range.now) (left_by first.1)
        first.0.declared state.old.counts (numbers_of state.old.numbering)
        (reached state.new (map block_view first.0.transactions.items))) }
    ensures few { IfOk result (λ first. length first.0.transactions.items
        ≤ (limits_of first.0.declared.version).transactions) }
    ensures scope { IfOk result (λ _. scope_of state.new.labels.entries ≡ []) }
{
    let mut reader = Reader::new(range, scratch)?;
    pull_first_range(alloc, range.as_bytes(), &mut reader, state)
}

/// A next range of a document, whose transactions come after those before.
fn next_range(
    alloc: Global,
    range: &str,
    scratch: &mut Scratch,
    declared: &Declared,
    transactions: &mut Vec<Block>,
    state: &mut ReaderState,
) -> Result<RangeEnd, Stop>
    requires labels { scope_of state.old.labels.entries ≡ [] }
    ensures begins { IfOk result (λ _. (rest : List Token)
        × (tokens range.now ≡ begin_array ∷ rest)) }
    ensures read { IfOk result (λ end. AreRead (setting_of declared.now) (tokens range.now)
        (left_by end)
        (reached state.old (map block_view transactions.old.items))
        (reached state.new (map block_view transactions.new.items))) }
    ensures few { IfOk result (λ _. length transactions.new.items
        ≤ (limits_of declared.now.version).transactions) }
    ensures scope { IfOk result (λ _. scope_of state.new.labels.entries ≡ []) }
{
    let mut reader = Reader::new(range, scratch)?;
    pull_range(alloc, &mut reader, declared, transactions, state)
}

/// The parts of the document that the text spells, if it is in the common form, from ranges of so
/// many bytes at the least.
pub(crate) fn pull_ranges(
    alloc: Global,
    text: &str,
    least: usize,
    state: &mut ReaderState,
) -> Result<Parts, Stop>
    requires { scope_of state.old.labels.entries ≡ [] }
    ensures { IfOk result (λ parts. (d : Data) × ReadsValue 127 (tokens text.now) d []
        × AreMet state.old.counts (placed d) state.new.counts
        × (setting_of parts.declared ≡ setting_in d)
        × (spelled parts.declared.objects (map block_view parts.transactions.items)
        (numbers_of state.new.numbering)
        ≡ parts_in (numbers_of state.old.numbering) d)) }
{
    let bytes = text.as_bytes();
    let mut scratch = Scratch::new(alloc);
    let mut end = range_end(bytes, 0, least);
    let range = text.get(0..end).ok_or(Stop::OtherForm)?;
    let (parts, mut last) = first_range(alloc, range, &mut scratch, state)?;
    let declared = parts.declared;
    let mut transactions = parts.transactions;
    while end < bytes.len() {
        let RangeEnd::Transaction = last else {
            return Err(Stop::OtherForm);
        };
        let begin = end + 1;
        end = range_end(bytes, begin, least);
        let range = text.get(begin..end).ok_or(Stop::OtherForm)?;
        last = next_range(
            alloc,
            range,
            &mut scratch,
            &declared,
            &mut transactions,
            state,
        )?;
    }
    match last {
        RangeEnd::Transaction => Err(Stop::OtherForm),
        RangeEnd::Document => Ok(Parts {
            declared,
            transactions,
        }),
    }
}
