//! Reads the objects of a document straight from their tokens.
//!
//! The common form of an object: `name`, `kind` and `start`, or `kind`, `name` and `start`, in this
//! order and each once. Of one with another member before its start a small tree is made, and read
//! as in any other document. One with a member after its start is out of form.
//!
//! Whether an item of a set is new, or a key of a directory, is asked of the set or the directory
//! itself: one name has one number.
ghost use Rattle.std.specs.Prelude.{◌≡◌, ◌≤◌, ◌++◌, List, ℕ, [], ◌∷◌, codes, true, Some, IfOk};
ghost use Rattle.json.specs.Token as token;
ghost use Rattle.serde_json.specs.Data.{Data, Items, put, string};
ghost use Rattle.serde_json.specs.Events.{items_len};
ghost use Rattle.serde_json.specs.View.{members_view, view};
ghost use Rattle.batch.specs.Names.{is_name, texts_of};
ghost use Rattle.doc_tokens.specs.Pulled.{ReadsItems, ReadsValue, first_key};
ghost use Rattle.doc_tokens.specs.PulledObjects.{IsOpened, IsOpenedAs};
ghost use Rattle.doc_tree.specs.Answer.{AreMet, IsMet};
ghost use Rattle.doc_tree.specs.Asked.{declared_by, kind_in, names_of, number_start, object_name, part, signed_start};
ghost use Rattle.doc_tree.specs.Demand.{one_more_start};
ghost use Rattle.doc_rules.specs.Limits.{limits_of};
ghost use Rattle.doc_tree.specs.Places.{elements_placed, entries_placed, object_placed, objects_placed, pairs_placed, start_placed};
ghost use Rattle.doc_tree.specs.Scope.{numbers_of, setting_of, with_item};
ghost use Rattle.doc_tree.specs.Spelled.{bind_all, entries_of, item_of, pairs_of, put_all, spelled_map, start_of, starts_of};
ghost use Rattle.std.specs.FinMap as finite_map;
ghost use Rattle.std.specs.FinSet as finite_set;

use crate::pull::{
    PART_DEPTH, number_value, pull_begin_array, pull_begin_object, pull_end_array, pull_end_object,
    pull_more_members, pull_name, pull_object, pull_some_key, pull_text,
};
use crate::stop::Stop;
use atoms::{Directory, Item, ItemSet, Queue};
use doc_rules::Limits;
use doc_tree::arguments::item_of;
use doc_tree::counts::Counts;
use doc_tree::declared::Declared;
use doc_tree::hashing::TextSet;
use doc_tree::starts::{add_name, number_start, read_object, signed_start};
use doc_tree::state::Numbering;
use indexmap::IndexSet;
use json::{Reader, Token};
use objects::{Kind, Objects, Value as ObjectValue, ValueForm};
use serde_json::{Map, Value};
use std::alloc::Global;
use vocabulary::kind_of_text;

// ---- starts

/// A number as a tree.
fn pull_number_value(reader: &mut Reader<'_>) -> Result<Value, Stop>
    ensures { IfOk result (λ value. ReadsValue 0 reader.old (view value) reader.new) }
{
    match reader.next() {
        Some(Token::Number(text)) => number_value(text),
        _ => Err(Stop::OtherForm),
    }
}

/// A number that an account or a maximum register may start with.
fn pull_number(reader: &mut Reader<'_>) -> Result<u64, Stop>
    ensures { IfOk result (λ n. (d : Data) × ReadsValue 0 reader.old d reader.new
        × (number_start d ≡ Some n)) }
{
    let value = pull_number_value(reader)?;
    number_start(&value).ok_or(Stop::OtherForm)
}

/// A number that a counter may start with.
fn pull_signed(reader: &mut Reader<'_>) -> Result<i64, Stop>
    ensures { IfOk result (λ n. (d : Data) × ReadsValue 0 reader.old d reader.new
        × (signed_start d ≡ Some n)) }
{
    let value = pull_number_value(reader)?;
    signed_start(&value).ok_or(Stop::OtherForm)
}

/// The name of an item that an object starts with, which is counted.
fn pull_entry(
    alloc: Global,
    reader: &mut Reader<'_>,
    version: u8,
    counts: &mut Counts,
    numbering: &mut Numbering,
) -> Result<Item, Stop>
    ensures { IfOk result (λ item. (name : List ℕ) × (reader.old ≡ token.string name ∷ reader.new)
        × (is_name version name ≡ true)
        × IsMet counts.old (one_more_start version ∷ []) counts.new
        × (item ≡ item_of name (numbers_of numbering.old))
        × (numbers_of numbering.new ≡ with_item name (numbers_of numbering.old))) }
{
    let name = pull_name(reader, version)?;
    counts.one_more_start(version)?;
    let item = item_of(alloc, name, numbering)?;
    Ok(item)
}

/// The items of a queue, up to the end of their array.
fn pull_queue(
    alloc: Global,
    reader: &mut Reader<'_>,
    version: u8,
    counts: &mut Counts,
    numbering: &mut Numbering,
) -> Result<Queue, Stop>
    ensures { IfOk result (λ queue. (ds : Items) × ReadsItems 0 reader.old ds reader.new
        × AreMet counts.old (entries_placed version 0 ds) counts.new
        × ((queue, numbers_of numbering.new) ≡ entries_of (numbers_of numbering.old) ds)) }
{
    let mut queue = Queue::new(alloc);
    while !reader.take_end_array() {
        let item = pull_entry(alloc, reader, version, counts, numbering)?;
        queue.push_back(item)?;
    }
    Ok(queue)
}

/// The items of a set, which differ, up to the end of their array.
fn pull_set(
    alloc: Global,
    reader: &mut Reader<'_>,
    version: u8,
    counts: &mut Counts,
    numbering: &mut Numbering,
) -> Result<ItemSet, Stop>
    ensures { IfOk result (λ set. (ds : Items) × ReadsItems 0 reader.old ds reader.new
        × AreMet counts.old (elements_placed version [] 0 ds) counts.new
        × ((set, numbers_of numbering.new)
        ≡ spelled_map (put_all finite_set.empty) (entries_of (numbers_of numbering.old) ds))) }
{
    let mut set = ItemSet::new(alloc);
    while !reader.take_end_array() {
        let item = pull_entry(alloc, reader, version, counts, numbering)?;
        let new = set.insert(item)?;
        if !new {
            return Err(Stop::OtherForm);
        }
    }
    Ok(set)
}

/// The names of a key and its item, with the end of their array.
fn pull_pair_names<'a>(reader: &mut Reader<'a>, version: u8) -> Result<(&'a str, &'a str), Stop>
    ensures { IfOk result (λ pair. (reader.old ≡ token.begin_array
        ∷ token.string pair.0.now ∷ token.string pair.1.now ∷ token.end_array ∷ reader.new)
        × (is_name version pair.0.now ≡ true) × (is_name version pair.1.now ≡ true)) }
{
    pull_begin_array(reader)?;
    let key = pull_name(reader, version)?;
    let item = pull_name(reader, version)?;
    pull_end_array(reader)?;
    Ok((key, item))
}

/// A key and its item, which are counted as one entry.
fn pull_pair(
    alloc: Global,
    reader: &mut Reader<'_>,
    version: u8,
    counts: &mut Counts,
    numbering: &mut Numbering,
) -> Result<(Item, Item), Stop>
    ensures { IfOk result (λ pair. (k : List ℕ) × (s : List ℕ) × (reader.old
        ≡ token.begin_array ∷ token.string k ∷ token.string s ∷ token.end_array ∷ reader.new)
        × (is_name version k ≡ true) × (is_name version s ≡ true)
        × IsMet counts.old (one_more_start version ∷ []) counts.new
        × (pair.0 ≡ item_of k (numbers_of numbering.old))
        × (pair.1 ≡ item_of s (with_item k (numbers_of numbering.old)))
        × (numbers_of numbering.new ≡ with_item s (with_item k (numbers_of numbering.old)))) }
{
    let (key_name, bound_name) = pull_pair_names(reader, version)?;
    counts.one_more_start(version)?;
    let key = item_of(alloc, key_name, numbering)?;
    let bound = item_of(alloc, bound_name, numbering)?;
    Ok((key, bound))
}

/// The entries of a directory, whose keys differ, up to the end of their array.
fn pull_directory(
    alloc: Global,
    reader: &mut Reader<'_>,
    version: u8,
    counts: &mut Counts,
    numbering: &mut Numbering,
) -> Result<Directory, Stop>
    ensures { IfOk result (λ directory. (ds : Items) × ReadsItems 1 reader.old ds reader.new
        × AreMet counts.old (pairs_placed version [] 0 ds) counts.new
        × ((directory, numbers_of numbering.new)
        ≡ spelled_map (bind_all finite_map.empty) (pairs_of (numbers_of numbering.old) ds))) }
{
    let mut directory = Directory::new(alloc);
    while !reader.take_end_array() {
        let (key, item) = pull_pair(alloc, reader, version, counts, numbering)?;
        if directory.get(key).is_some() {
            return Err(Stop::OtherForm);
        }
        directory.put(key, item)?;
    }
    Ok(directory)
}

/// What an object of this kind starts with.
fn pull_start(
    alloc: Global,
    reader: &mut Reader<'_>,
    kind: Kind,
    version: u8,
    counts: &mut Counts,
    numbering: &mut Numbering,
) -> Result<ObjectValue, Stop>
    ensures { IfOk result (λ start. (d : Data) × ReadsValue 2 reader.old d reader.new
        × AreMet counts.old (start_placed version kind d) counts.new
        × ((start, numbers_of numbering.new) ≡ start_of kind (numbers_of numbering.old) d)) }
{
    match kind.form() {
        ValueForm::Number(number_kind) => Ok(number_kind.value(pull_number(reader)?)),
        ValueForm::Signed => Ok(ObjectValue::Counter(pull_signed(reader)?)),
        ValueForm::Set => {
            pull_begin_array(reader)?;
            let set = pull_set(alloc, reader, version, counts, numbering)?;
            Ok(ObjectValue::Set(set))
        }
        ValueForm::Queue => {
            pull_begin_array(reader)?;
            let queue = pull_queue(alloc, reader, version, counts, numbering)?;
            Ok(ObjectValue::Queue(queue))
        }
        ValueForm::Directory => {
            pull_begin_array(reader)?;
            let directory = pull_directory(alloc, reader, version, counts, numbering)?;
            Ok(ObjectValue::Directory(directory))
        }
    }
}

// ---- an object

/// What is read of an object before its start.
#[derive(Drop)]
pub(crate) enum Opened<'a> {
    /// The texts of its name and its kind, where it is in the common form so far. Its start is
    /// next.
    Common(&'a str, &'a str),
    /// A tree of all of it.
    Other(Value),
}

/// The members with a text.
fn with_text_member(
    alloc: Global,
    found: Map<String, Value>,
    key: &str,
    text: &str,
) -> Result<Map<String, Value>, Stop>
    ensures { IfOk result (λ more. members_view more.entries
        ≡ put key.now (string text.now) (members_view found.entries)) }
{
    let key = String::from_str(alloc, key)?;
    let text = String::from_str(alloc, text)?;
    let mut more = found;
    drop(more.insert(key, Value::String(text))?);
    Ok(more)
}

/// An object whose first key has been read: up to its start, where only texts with these two keys
/// come before it, or a tree of it. The texts are in the order of the keys.
fn open_texts<'a>(
    alloc: Global,
    first: &str,
    second: &str,
    reader: &mut Reader<'a>,
) -> Result<Opened<'a>, Stop>
    ensures { IfOk result (IsOpenedAs first.now second.now (first_key first.now reader.old)
        reader.new) }
{
    let text = pull_text(reader)?;
    let key = pull_some_key(reader)?;
    if key != second {
        let one = with_text_member(alloc, Map::new(alloc), first, text)?;
        let value = pull_more_members(alloc, key, reader, PART_DEPTH - 1, one)?;
        return Ok(Opened::Other(value));
    }
    let other = pull_text(reader)?;
    let key = pull_some_key(reader)?;
    if key != "start" {
        let one = with_text_member(alloc, Map::new(alloc), first, text)?;
        let both = with_text_member(alloc, one, second, other)?;
        let value = pull_more_members(alloc, key, reader, PART_DEPTH - 1, both)?;
        return Ok(Opened::Other(value));
    }
    Ok(Opened::Common(text, other))
}

/// An object up to its start, or a tree of it.
fn open_object<'a>(alloc: Global, reader: &mut Reader<'a>) -> Result<Opened<'a>, Stop>
    ensures { IfOk result (IsOpened reader.old reader.new) }
{
    pull_begin_object(reader)?;
    let key = pull_some_key(reader)?;
    match key {
        "name" => open_texts(alloc, "name", "kind", reader),
        "kind" => match open_texts(alloc, "kind", "name", reader)? {
            Opened::Common(kind, name) => Ok(Opened::Common(name, kind)),
            Opened::Other(value) => Ok(Opened::Other(value)),
        },
        _ => {
            let value = pull_object(alloc, key, reader, PART_DEPTH - 1)?;
            Ok(Opened::Other(value))
        }
    }
}

/// The value that an object starts with. Its name joins these.
fn pull_declaration(
    alloc: Global,
    reader: &mut Reader<'_>,
    version: u8,
    names: &mut TextSet,
    counts: &mut Counts,
    numbering: &mut Numbering,
) -> Result<ObjectValue, Stop>
    ensures { IfOk result (λ start. (d : Data) × ReadsValue 125 reader.old d reader.new
        × AreMet counts.old (object_placed version (texts_of names.old.keys) d) counts.new
        × ((start, numbers_of numbering.new)
        ≡ start_of (kind_in version d) (numbers_of numbering.old) (part (codes "start") d))
        × (texts_of names.new.keys ≡ texts_of names.old.keys ++ object_name d ∷ [])) }
{
    match open_object(alloc, reader)? {
        Opened::Common(name, kind) => {
            let kind = kind_of_text(version, kind).ok_or(Stop::OtherForm)?;
            add_name(alloc, name, version, names, counts)?;
            let start = pull_start(alloc, reader, kind, version, counts, numbering)?;
            pull_end_object(reader)?;
            Ok(start)
        }
        Opened::Other(value) => {
            let start = read_object(alloc, &value, version, names, counts, numbering)?;
            Ok(start)
        }
    }
}

/// The objects up to the end of their array, if they are no more than a document may have.
pub(crate) fn pull_objects(
    alloc: Global,
    reader: &mut Reader<'_>,
    version: u8,
    counts: &mut Counts,
    numbering: &mut Numbering,
) -> Result<Declared, Stop>
    ensures { IfOk result (λ declared. (os : Items) × ReadsItems 125 reader.old os reader.new
        × (items_len os ≤ (limits_of version).objects)
        × AreMet counts.old (objects_placed version [] 0 os) counts.new
        × (texts_of declared.names.keys ≡ names_of os)
        × (setting_of declared ≡ declared_by version os)
        × ((declared.objects, numbers_of numbering.new)
        ≡ starts_of version (numbers_of numbering.old) os)) }
{
    let mut names = IndexSet::with_hasher(alloc, *numbering.items.hasher());
    let mut objects = Objects::new(alloc);
    while !reader.take_end_array() {
        if objects.len() >= Limits::of(version).objects {
            return Err(Stop::OtherForm);
        }
        let value = pull_declaration(alloc, reader, version, &mut names, counts, numbering)?;
        objects.push(value)?;
    }
    let declared = Declared::new(alloc, version, names, objects)?;
    Ok(declared)
}
