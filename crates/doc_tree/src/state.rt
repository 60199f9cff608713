//! What has been seen of a document at a place.
ghost use Rattle.std.specs.Prelude.{◌≡◌, [], not, Some, IfOk, IfSome, OnOk};
ghost use Rattle.batch.specs.Names.{texts_of};
ghost use Rattle.doc_tree.specs.Demand.{no_counts};
ghost use Rattle.doc_tree.specs.Scope.{fit, is_listed, no_numbers, number_of, numbers_of, place_of, scope_of, with_item, with_text};

use crate::counts::Counts;
use crate::digests::Digest;
use crate::hashing::{Labels, NameHashing, TextSet};
use crate::hints::{Hints, place_in};
use batch::Step;
use indexmap::{IndexMap, IndexSet};
use serial::NoMemory;
use std::alloc::Global;

/// The texts that are numbered so far, with hints at the places of the items.
#[derive(Drop)]
pub struct Numbering {
    pub items: TextSet,
    pub reasons: TextSet,
    pub(crate) hints: Hints,
}

/// In which order the reasons of a step's handlers may come, where no tree is made of the document.
#[derive(Clone, Copy, Debug, Drop)]
pub enum ReasonOrder {
    /// In that of their bytes.
    Ascending,
    Any,
}

/// What has been counted, what is numbered, and the labels that are seen here.
#[derive(Drop)]
pub struct ReaderState {
    pub counts: Counts,
    pub numbering: Numbering,
    pub labels: Labels,
    pub order: ReasonOrder,
    /// Empty lists, in whose memory the steps of the next blocks are read.
    pub spares: Vec<Vec<Step>>,
}

impl ReaderState {
    /// Before anything is read of the document whose names are hashed so.
    pub fn new(alloc: Global, hashing: NameHashing) -> ReaderState
        ensures counts { result.counts ≡ no_counts }
        ensures numbers { numbers_of result.numbering ≡ no_numbers }
        ensures labels { scope_of result.labels.entries ≡ [] }
    {
        ReaderState {
            counts: Counts {
                transaction: 0,
                operations: 0,
                nodes: 0,
                starts: 0,
            },
            numbering: Numbering {
                items: IndexSet::with_hasher(alloc, hashing),
                reasons: IndexSet::with_hasher(alloc, hashing),
                hints: Hints::new(alloc),
            },
            labels: IndexMap::with_hasher(alloc, hashing),
            order: ReasonOrder::Ascending,
            spares: Vec::new(alloc),
        }
    }
}

/// A number, or the greatest of its type.
pub fn fit(number: usize) -> u32
    ensures { result ≡ fit number }
{
    if number < 4_294_967_295 {
        number as u32
    } else {
        4_294_967_295
    }
}

/// Adds a text to the others if it is new, and returns whether it is.
pub(crate) fn add_text(alloc: Global, table: &mut TextSet, text: &str) -> Result<bool, NoMemory>
    ensures new { IfOk result (λ new. new ≡ not (is_listed text.now (texts_of table.old.keys))) }
    ensures table { OnOk result (texts_of table.new.keys
        ≡ with_text text.now (texts_of table.old.keys)) }
{
    let new = table.insert(String::from_str(alloc, text)?)?;
    Ok(new)
}

/// The number of a text, which joins the others if it is new.
pub fn number_of(alloc: Global, table: &mut TextSet, text: &str) -> Result<u32, NoMemory>
    ensures number { IfOk result (λ number. number ≡ number_of text.now (texts_of table.old.keys)) }
    ensures table { OnOk result (texts_of table.new.keys
        ≡ with_text text.now (texts_of table.old.keys)) }
{
    if let Some(number) = table.get_index_of(text) {
        return Ok(fit(number));
    }
    let number = table.len();
    table.insert(String::from_str(alloc, text)?)?;
    Ok(fit(number))
}

/// The place of an item's name, if it has one. Where no name fell on its slot, it is taken to be new.
fn known_item(numbering: &Numbering, name: &str) -> Option<usize>
    ensures { IfSome result (λ place. place_of name.now (texts_of numbering.now.items.keys)
        ≡ Some place) }
{
    let guess = numbering.hints.place(Digest::of(name))?;
    place_in(&numbering.items, name, guess)
}

/// Adds an item's name to the others if it is new, and returns its place.
fn add_item(alloc: Global, numbering: &mut Numbering, name: &str) -> Result<usize, NoMemory>
    ensures place { IfOk result (λ place. fit place
        ≡ number_of name.now (texts_of numbering.old.items.keys)) }
    ensures numbers { OnOk result (numbers_of numbering.new
        ≡ with_item name.now (numbers_of numbering.old)) }
{
    let (place, _) = numbering.items.insert_full(String::from_str(alloc, name)?)?;
    numbering
        .hints
        .note_new(alloc, name, place, &numbering.items)?;
    Ok(place)
}

/// The number of an item's name, which joins the others if it is new.
pub(crate) fn number_of_item(
    alloc: Global,
    numbering: &mut Numbering,
    name: &str,
) -> Result<u32, NoMemory>
    ensures number { IfOk result (λ number. number
        ≡ number_of name.now (texts_of numbering.old.items.keys)) }
    ensures numbers { OnOk result (numbers_of numbering.new
        ≡ with_item name.now (numbers_of numbering.old)) }
{
    if let Some(place) = known_item(numbering, name) {
        return Ok(fit(place));
    }
    let place = add_item(alloc, numbering, name)?;
    Ok(fit(place))
}
