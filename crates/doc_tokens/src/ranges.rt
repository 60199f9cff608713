//! Reads a document in ranges of its text, one after the other.
//!
//! The first range has the document up to its transactions, and whole transactions. Each other one
//! begins with a transaction. A range ends after a transaction or, where it is the last one, after
//! the document. All of them go on with the same counts, numbers and labels. A range that isn't so
//! is out of the common form.
ghost use Rattle.std.specs.Prelude.{◌≡◌, ◌≤◌, Bool, List, [], ◌∷◌, false, length, map, true, IfOk, OnOk};
ghost use Rattle.json.specs.Token as token;
ghost use Rattle.batch.specs.Views.{block_view};
ghost use Rattle.meaning.specs.declared.limits.TheConstants.{MAX_DEPTH};
ghost use Rattle.doc_rules.specs.Limits.{limits_of};
ghost use Rattle.doc_tokens.specs.PulledBlocks.{SpellsBlock};
ghost use Rattle.doc_cuts.specs.Whole.{is_left, is_open};
ghost use Rattle.doc_tokens.specs.Ranges.{AreRead, IsBegun, IsHead, at_transaction, left_by, reached};
ghost use Rattle.doc_tree.specs.Scope.{numbers_of, scope_of, setting_of};

use crate::head::pull_declared;
use crate::pull::{pull_begin_array, pull_end, pull_end_object};
use crate::pull_blocks::pull_block_begun;
use crate::stop::Stop;
use batch::Block;
use doc_rules::Limits;
use doc_tree::declared::{Declared, Parts};
use doc_tree::state::ReaderState;
use json::{Reader, Token};
use meaning::limits::MAX_DEPTH;
use std::alloc::Global;

/// What a range ends after.
#[derive(Clone, Copy, Debug, Drop, PartialEq)]
pub enum RangeEnd {
    /// A transaction.
    Transaction,
    /// The document.
    Document,
}

/// A transaction whose first bracket has been read, by its number.
fn pull_transaction(
    alloc: Global,
    reader: &mut Reader<'_>,
    number: u32,
    declared: &Declared,
    state: &mut ReaderState,
) -> Result<Block, Stop>
    ensures { IfOk result (SpellsBlock MAX_DEPTH declared.now (token.begin_array ∷ reader.old)
        reader.new (at_transaction number state.old) state.new) }
{
    state.counts.transaction = number;
    pull_block_begun(alloc, reader, MAX_DEPTH, declared, state)
}

/// A transaction whose first bracket has been read, onto those before it.
fn push_transaction(
    alloc: Global,
    reader: &mut Reader<'_>,
    declared: &Declared,
    transactions: &mut Vec<Block>,
    state: &mut ReaderState,
) -> Result<(), Stop>
    requires { scope_of state.old.labels.entries ≡ [] }
    ensures read { IfOk result (λ _. AreRead (setting_of declared.now)
        (token.begin_array ∷ reader.old) reader.new
        (reached state.old (map block_view transactions.old.items))
        (reached state.new (map block_view transactions.new.items))) }
    ensures few { IfOk result (λ _. length transactions.new.items
        ≤ (limits_of declared.now.version).transactions) }
    ensures labels { IfOk result (λ _. scope_of state.new.labels.entries ≡ []) }
    ensures less { IfOk result (λ _. length reader.new ≤ length reader.old) }
{
    if transactions.len() >= Limits::of(declared.version).transactions {
        return Err(Stop::OtherForm);
    }
    let number = transactions.len() as u32 + 1;
    let block = pull_transaction(alloc, reader, number, declared, state)?;
    transactions.push(block)?;
    Ok(())
}

/// The end of a document whose transactions and their array have been read.
fn pull_document_end(reader: &mut Reader<'_>) -> Result<RangeEnd, Stop>
    ensures { IfOk result (λ end. (reader.old ≡ token.end_object ∷ [])
        × (end ≡ RangeEnd.Document)) }
{
    pull_end_object(reader)?;
    pull_end(reader)?;
    Ok(RangeEnd::Document)
}

/// The transactions of a range that begins with one, onto those of the ranges before it.
///
/// [`Stop::OtherForm`] where the range doesn't end after a transaction or the document.
pub fn pull_range(
    alloc: Global,
    reader: &mut Reader<'_>,
    declared: &Declared,
    transactions: &mut Vec<Block>,
    state: &mut ReaderState,
) -> Result<RangeEnd, Stop>
    requires labels { scope_of state.old.labels.entries ≡ [] }
    ensures begins { IfOk result (λ _. (rest : List token.Token)
        × (reader.old ≡ token.begin_array ∷ rest)) }
    ensures read { IfOk result (λ end. AreRead (setting_of declared.now) reader.old (left_by end)
        (reached state.old (map block_view transactions.old.items))
        (reached state.new (map block_view transactions.new.items))) }
    ensures few { IfOk result (λ _. length transactions.new.items
        ≤ (limits_of declared.now.version).transactions) }
    ensures scope { IfOk result (λ _. scope_of state.new.labels.entries ≡ []) }
{
    pull_begin_array(reader)?;
    push_transaction(alloc, reader, declared, transactions, state)?;
    while !reader.take_end_array() {
        match reader.next() {
            Some(Token::BeginArray) => {
                push_transaction(alloc, reader, declared, transactions, state)?;
            }
            None => return Ok(RangeEnd::Transaction),
            _ => return Err(Stop::OtherForm),
        }
    }
    pull_document_end(reader)
}

/// The head of a document alone: its version and its objects, up to the bracket that begins its
/// transactions. The reader begins with this text.
///
/// [`Stop::OtherForm`] where anything else comes first, or the bracket or more after it.
pub fn pull_head_alone(
    alloc: Global,
    text: &[u8],
    reader: &mut Reader<'_>,
    state: &mut ReaderState,
) -> Result<Declared, Stop>
    requires labels { scope_of state.old.labels.entries ≡ [] }
    ensures head { IfOk result (λ declared. IsHead reader.old [] declared state.old.counts
        (numbers_of state.old.numbering) state.new.counts (numbers_of state.new.numbering)) }
    ensures begun { OnOk result (is_open false reader.old ≡ true) }
    ensures scope { OnOk result (scope_of state.new.labels.entries ≡ []) }
{
    let declared = pull_declared(alloc, text, reader, state)?;
    pull_end(reader)?;
    Ok(declared)
}

/// The first range of a document: its version, its objects, and the transactions of the range. The
/// reader begins with this text.
///
/// [`Stop::OtherForm`] where the range doesn't end after a transaction or the document.
pub fn pull_first_range(
    alloc: Global,
    text: &[u8],
    reader: &mut Reader<'_>,
    state: &mut ReaderState,
) -> Result<(Parts, RangeEnd), Stop>
    requires labels { scope_of state.old.labels.entries ≡ [] }
    ensures begun { IfOk result (λ first. IsBegun reader.old (left_by first.1) first.0.declared
        state.old.counts (numbers_of state.old.numbering)
        (reached state.new (map block_view first.0.transactions.items))) }
    ensures few { IfOk result (λ first. length first.0.transactions.items
        ≤ (limits_of first.0.declared.version).transactions) }
    ensures scope { IfOk result (λ _. scope_of state.new.labels.entries ≡ []) }
{
    let declared = pull_declared(alloc, text, reader, state)?;
    pull_begin_array(reader)?;
    if reader.take_end_array() {
        let end = pull_document_end(reader)?;
        let transactions = Vec::new(alloc);
        return Ok((
            Parts {
                declared,
                transactions,
            },
            end,
        ));
    }
    let mut transactions = Vec::new(alloc);
    let end = pull_range(alloc, reader, &declared, &mut transactions, state)?;
    Ok((
        Parts {
            declared,
            transactions,
        },
        end,
    ))
}
