//! The objects of a next document, with those of a first one carried into it.
ghost use Rattle.std.specs.Prelude.{◌≡◌, ◌<◌, ◌^◌, ◌++◌, IfOk, OnOk, codes, length, map, option_map, string_bytes};
ghost use Rattle.std.specs.List.{IsDistinct};
ghost use Rattle.std.specs.Str.{bytes_eq};
ghost use Rattle.batch.specs.Names.{texts_of};
ghost use Rattle.meaning.specs.Words.{joined_by};
ghost use Rattle.carry.specs.Carried.{first_unfit};
ghost use Rattle.doc_tree.specs.Scope.{is_listed};
ghost use Rattle.carry.specs.Joined.{added, are_of_one_kind, ended, first_clash, joined, named_view, object_text_of, own, start_at, start_view, value_of};

use crate::document::{Misfit, unfit_after, write_object};
use batch::Names;
use doc_tree::hashing::{NameHashing, TextSet};
use indexmap::IndexSet;
use objects::{Objects, Value};
use report::object_name;
use serial::NoMemory;
use std::alloc::Global;
use vocabulary::kind_text;

/// Objects, with the names of their batch.
#[derive(Clone, Copy, Debug, Drop)]
pub struct NamedObjects<'a> {
    pub names: &'a Names,
    pub objects: &'a Objects,
}

/// An object that a document starts with: its place and its value in the objects that it is taken from, and their names.
#[derive(Clone, Copy, Debug, Drop)]
pub struct Start<'a> {
    pub(crate) names: &'a Names,
    pub(crate) place: u32,
    pub(crate) value: &'a Value,
}

/// The table of the names of these objects, each at its place. It hashes them so.
///
/// Returns `NoMemory` where a request for memory was refused.
pub fn name_table(
    alloc: Global,
    names: &Names,
    count: u32,
    hashing: NameHashing,
) -> Result<TextSet, NoMemory>
    requires all { count ≡ length names.now.objects }
    requires apart { IsDistinct bytes_eq names.now.objects }
    ensures { IfOk result (λ table. texts_of table.keys ≡ names.now.objects) }
{
    let mut table = IndexSet::with_hasher(alloc, hashing);
    for place in 0..count {
        let name = object_name(names, place);
        table.insert(String::from_str(alloc, name)?)?;
    }
    Ok(table)
}

/// The objects of the next document as they start where the first's are carried into it: those of its
/// own, in their order, and then those of the first that it lacks. An object that both have starts
/// as the first has it.
///
/// The tables have the names of both. Returns `NoMemory` where a request for memory was refused.
pub fn join<'a>(
    alloc: Global,
    first: NamedObjects<'a>,
    next: NamedObjects<'a>,
    first_names: &TextSet,
    next_names: &TextSet,
) -> Result<Vec<Start<'a>>, NoMemory>
    requires few_first { length first.objects.now < 2 ^ 32 }
    requires few_next { length next.objects.now < 2 ^ 32 }
    requires first_named { texts_of first_names.now.keys ≡ first.names.now.objects }
    requires next_named { texts_of next_names.now.keys ≡ next.names.now.objects }
    ensures { IfOk result (λ starts. map start_view starts.items
        ≡ joined (named_view first.entry) (named_view next.entry)) }
{
    let mut starts = Vec::new(alloc);
    add_own(&mut starts, first, next, first_names)?;
    add_others(&mut starts, first, next_names)?;
    Ok(starts)
}

// Adds the objects of the next document.
fn add_own<'a>(
    starts: &mut Vec<Start<'a>>,
    first: NamedObjects<'a>,
    next: NamedObjects<'a>,
    first_names: &TextSet,
) -> Result<(), NoMemory>
    requires few_first { length first.objects.now < 2 ^ 32 }
    requires few_next { length next.objects.now < 2 ^ 32 }
    requires named { texts_of first_names.now.keys ≡ first.names.now.objects }
    ensures { OnOk result (map start_view starts.new.items
        ≡ map start_view starts.old.items ++ own (named_view first.entry) (named_view next.entry) 0
        next.entry.objects.now) }
{
    for place in 0..next.objects.len() as u32 {
        let Some(value) = next.objects.value(place) else {
            return Ok(());
        };
        let start = match ended(first, first_names, object_name(next.names, place)) {
            Some(start) => start,
            None => Start {
                names: next.names,
                place,
                value,
            },
        };
        starts.push(start)?;
    }
    Ok(())
}

// The object of that name, as the first has it.
fn ended<'a>(first: NamedObjects<'a>, first_names: &TextSet, name: &str) -> Option<Start<'a>>
    requires few { length first.objects.now < 2 ^ 32 }
    requires named { texts_of first_names.now.keys ≡ first.names.now.objects }
    ensures { option_map start_view result ≡ ended (named_view first.entry) name.now }
{
    match first_names.get_index_of(name) {
        Some(place) => start_at(first, place),
        None => None,
    }
}

// The object at a place.
fn start_at<'a>(named: NamedObjects<'a>, place: usize) -> Option<Start<'a>>
    requires { length named.objects.now < 2 ^ 32 }
    ensures { option_map start_view result ≡ start_at (named_view named.entry) place }
{
    if place >= named.objects.len() {
        return None;
    }
    match named.objects.value(place as u32) {
        Some(value) => Some(Start {
            names: named.names,
            place: place as u32,
            value,
        }),
        None => None,
    }
}

// Adds the objects of the first that the next document lacks.
fn add_others<'a>(
    starts: &mut Vec<Start<'a>>,
    first: NamedObjects<'a>,
    next_names: &TextSet,
) -> Result<(), NoMemory>
    requires few { length first.objects.now < 2 ^ 32 }
    ensures { OnOk result (map start_view starts.new.items
        ≡ map start_view starts.old.items ++ added (named_view first.entry) (texts_of
        next_names.now.keys) 0 first.entry.objects.now) }
{
    for place in 0..first.objects.len() as u32 {
        let Some(value) = first.objects.value(place) else {
            return Ok(());
        };
        if !is_listed(object_name(first.names, place), next_names) {
            starts.push(Start {
                names: first.names,
                place,
                value,
            })?;
        }
    }
    Ok(())
}

// Whether a name is in the table.
fn is_listed(name: &str, names: &TextSet) -> bool
    ensures { result ≡ is_listed name.now (texts_of names.now.keys) }
{
    match names.get_index_of(name) {
        Some(_) => true,
        None => false,
    }
}

/// The first place at which the objects of a document and the starts have two kinds.
pub fn first_clash(objects: &Objects, starts: &[Start<'_>]) -> Option<u32>
    requires { length objects.now < 2 ^ 32 }
    ensures { result ≡ first_clash 0 objects.now (map start_view starts.now) }
{
    for place in 0..objects.len() as u32 {
        let Some(value) = objects.value(place) else {
            return None;
        };
        let Some(start) = starts.get(place as usize) else {
            return None;
        };
        if !are_of_one_kind(value, start.value) {
            return Some(place);
        }
    }
    None
}

fn are_of_one_kind(value: &Value, other: &Value) -> bool
    ensures { result ≡ are_of_one_kind value.now other.now }
{
    kind_text(value.kind()) == kind_text(other.kind())
}

/// The first of these starts that no document of this version may have after those before it.
pub fn first_misfit(version: u8, starts: &[Start<'_>]) -> Option<Misfit>
    requires { length starts.now < 2 ^ 32 }
    ensures { result ≡ first_unfit version 0 0 (map value_of (map start_view starts.now)) }
{
    let mut entries = 0;
    for place in 0..starts.len() as u32 {
        let Some(start) = starts.get(place as usize) else {
            return None;
        };
        if let Some(unfit) = unfit_after(version, entries, start.value) {
            return Some(Misfit { place, unfit });
        }
        entries += start.value.content().len();
    }
    None
}

/// The name of a start.
pub fn start_name<'a>(start: &Start<'a>) -> &'a str
    ensures { result.now ≡ (start_view start.now).names.object (start_view start.now).place }
{
    object_name(start.names, start.place)
}

// Writes the starts, one a line.
pub(crate) fn write_starts(out: &mut String, starts: &[Start<'_>]) -> Result<(), NoMemory>
    ensures { OnOk result (string_bytes out.new ≡ string_bytes out.old
        ++ joined_by (codes ",\n") (map object_text_of (map start_view starts.now))) }
{
    let mut between = "";
    for start in starts.iter() {
        write!(out, "{between}")?;
        write_object(out, start.names, start.place, start.value)?;
        between = ",\n";
    }
    Ok(())
}
