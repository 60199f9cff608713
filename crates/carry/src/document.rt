//! The document of objects as they are.
ghost use Rattle.std.specs.Prelude.{◌≡◌, ◌<◌, ◌≤◌, ◌+◌, ◌^◌, ◌++◌, IfOk, None, OnOk, codes, length, map, string_bytes};
ghost use Rattle.std.specs.FinMap as finite_map;
ghost use Rattle.meaning.specs.WellFormed.{size_of};
ghost use Rattle.meaning.specs.Words.{joined_by, members};
ghost use Rattle.batch.specs.Limits.{entries_in};
ghost use Rattle.batch.specs.Names.{names_of};
ghost use Rattle.doc_rules.specs.Limits.{limits_of};
ghost use Rattle.carry.specs.Carried.{carried_text, carried_version, document_head, first_unfit, item_text, object_text, object_texts, pair_text, start_text, unfit_after};

use atoms::{Directory, ItemSet, Queue};
use batch::Names;
use doc_rules::Limits;
use meaning::limits::MAX_START;
use objects::{Content, Objects, Value};
use report::{item_name, object_name};
use serial::NoMemory;
use std::alloc::Global;
use vocabulary::kind_text;

/// No carried document is of an earlier version, whatever the one is that it is carried from.
pub const FIRST_CARRIED: u8 = 4;

/// The version of a document into which objects of a document of this version are carried.
pub fn carried_version(version: u8) -> u8
    ensures { result ≡ carried_version version }
{
    version.max(FIRST_CARRIED)
}

/// Why objects can't all be the starts of a document.
#[derive(Clone, Copy, Debug, Drop, PartialEq, Eq)]
pub enum Unfit {
    /// A number is too large for a start.
    Start,
    /// There are more entries than a document may start with.
    TooMany,
}

/// An object that can't start as it is.
#[derive(Clone, Copy, Debug, Drop, PartialEq, Eq)]
pub struct Misfit {
    /// Its place, from 0.
    pub place: u32,
    /// Why it can't.
    pub unfit: Unfit,
}

/// The first of the objects that can't start a document of this version as it is after those before
/// it.
pub fn first_unfit(version: u8, objects: &Objects) -> Option<Misfit>
    requires { length objects.now < 2 ^ 32 }
    ensures { result ≡ first_unfit version 0 0 objects.now }
{
    let mut entries = 0;
    for place in 0..objects.len() as u32 {
        let Some(value) = objects.value(place) else {
            return None;
        };
        if let Some(unfit) = unfit_after(version, entries, value) {
            return Some(Misfit { place, unfit });
        }
        entries += value.content().len();
    }
    None
}

/// Why an object can't start a document of this version as it is, where so many entries start
/// before it.
pub(crate) fn unfit_after(version: u8, entries: usize, value: &Value) -> Option<Unfit>
    requires { entries ≤ (limits_of version).entries }
    ensures unfit { result ≡ unfit_after version entries value.now }
    ensures few { result ≡ None → entries + entries_in value.now ≤ (limits_of version).entries }
{
    if magnitude(value) > MAX_START {
        return Some(Unfit::Start);
    }
    if value.content().len() > Limits::of(version).entries - entries {
        return Some(Unfit::TooMany);
    }
    None
}

// How large the number of a value is.
fn magnitude(value: &Value) -> u64
    ensures { result ≡ size_of value.now }
{
    match value.content() {
        Content::Number(number) => number,
        Content::Signed(number) => number.unsigned_abs(),
        Content::Set(_) | Content::Queue(_) | Content::Directory(_) => 0,
    }
}

/// The document of the objects as they are, of this version and without a transaction. It has a line
/// for each object.
///
/// A number that has no name has the empty name. Where [`first_unfit`] is none, and each name is one,
/// the document can be read. Returns `NoMemory` where a request for memory was refused.
pub fn carried(
    alloc: Global,
    version: u8,
    names: &Names,
    objects: &Objects,
) -> Result<String, NoMemory>
    requires { length objects.now < 2 ^ 32 }
    ensures { IfOk result (λ t. string_bytes t ≡ carried_text version (names_of names.now)
        objects.now) }
{
    let mut out = String::new(alloc);
    write_head(&mut out, version)?;
    write_objects(&mut out, names, objects)?;
    write!(&mut out, "\n],\n\"transactions\": [\n]}}\n")?;
    Ok(out)
}

// Writes what a carried document of this version begins with.
pub(crate) fn write_head(out: &mut String, version: u8) -> Result<(), NoMemory>
    ensures { OnOk result (string_bytes out.new ≡ string_bytes out.old ++ document_head version) }
{
    write!(out, "{{\"ordtx\": {version},\n\"objects\": [\n")?;
    Ok(())
}

fn write_objects(out: &mut String, names: &Names, objects: &Objects) -> Result<(), NoMemory>
    requires { length objects.now < 2 ^ 32 }
    ensures { OnOk result (string_bytes out.new ≡ string_bytes out.old
        ++ joined_by (codes ",\n") (object_texts (names_of names.now) 0 objects.now)) }
{
    let mut between = "";
    for object in 0..objects.len() as u32 {
        let Some(value) = objects.value(object) else {
            return Ok(());
        };
        write!(out, "{between}")?;
        write_object(out, names, object, value)?;
        between = ",\n";
    }
    Ok(())
}

pub(crate) fn write_object(
    out: &mut String,
    names: &Names,
    object: u32,
    value: &Value,
) -> Result<(), NoMemory>
    ensures { OnOk result (string_bytes out.new ≡ string_bytes out.old
        ++ object_text (names_of names.now) object value.now) }
{
    let name = object_name(names, object);
    let kind = kind_text(value.kind());
    write!(
        out,
        "{{\"name\": \"{name}\", \"kind\": \"{kind}\", \"start\": "
    )?;
    write_start(out, names, value)?;
    write!(out, "}}")?;
    Ok(())
}

fn write_start(out: &mut String, names: &Names, value: &Value) -> Result<(), NoMemory>
    ensures { OnOk result (string_bytes out.new ≡ string_bytes out.old
        ++ start_text (names_of names.now) value.now) }
{
    match value.content() {
        Content::Number(number) => write!(out, "{number}")?,
        Content::Signed(number) => write!(out, "{number}")?,
        Content::Set(set) => {
            write!(out, "[")?;
            write_members(out, names, set)?;
            write!(out, "]")?;
        }
        Content::Queue(queue) => {
            write!(out, "[")?;
            write_queue(out, names, queue)?;
            write!(out, "]")?;
        }
        Content::Directory(directory) => {
            write!(out, "[")?;
            write_pairs(out, names, directory)?;
            write!(out, "]")?;
        }
    }
    Ok(())
}

fn write_members(out: &mut String, names: &Names, set: &ItemSet) -> Result<(), NoMemory>
    ensures { OnOk result (string_bytes out.new ≡ string_bytes out.old
        ++ joined_by (codes ", ") (map (item_text (names_of names.now)) (members set.now))) }
{
    let mut between = "";
    for member in set.items().iter() {
        let name = item_name(names, *member);
        write!(out, "{between}\"{name}\"")?;
        between = ", ";
    }
    Ok(())
}

fn write_queue(out: &mut String, names: &Names, queue: &Queue) -> Result<(), NoMemory>
    ensures { OnOk result (string_bytes out.new ≡ string_bytes out.old
        ++ joined_by (codes ", ") (map (item_text (names_of names.now)) queue.now)) }
{
    let mut between = "";
    for item in queue.items().iter() {
        let name = item_name(names, *item);
        write!(out, "{between}\"{name}\"")?;
        between = ", ";
    }
    Ok(())
}

fn write_pairs(out: &mut String, names: &Names, directory: &Directory) -> Result<(), NoMemory>
    ensures { OnOk result (string_bytes out.new ≡ string_bytes out.old
        ++ joined_by (codes ", ") (map (pair_text (names_of names.now)) (finite_map.entries
        directory.now))) }
{
    let mut between = "";
    for (key, item) in directory.entries().iter() {
        let key_name = item_name(names, *key);
        let name = item_name(names, *item);
        write!(out, "{between}[\"{key_name}\", \"{name}\"]")?;
        between = ", ";
    }
    Ok(())
}
