//! Reads the objects.
ghost use Rattle.std.specs.FinMap as finite_map;
ghost use Rattle.std.specs.FinSet as finite_set;
ghost use Rattle.std.specs.Prelude.{◌≡◌, ◌++◌, ◌∷◌, [], codes, Some, IfErr, IfOk, OnOk};
ghost use Rattle.serde_json.specs.View.{items_view, view};
ghost use Rattle.batch.specs.Names.{texts_of};
ghost use Rattle.doc_tree.specs.Answer.{AreMet, IsFirst, IsFound, IsMet};
ghost use Rattle.doc_tree.specs.Asked.{element_asked, entry_asked, key_of, kind_in, number_start, object_kind, object_name, object_name_asked, object_shape_asked, pair_asked, part, signed_start, text_of, value_of};
ghost use Rattle.doc_tree.specs.Heads.{new_start_asked, pair_names_asked};
ghost use Rattle.doc_tree.specs.Places.{elements_placed, entries_placed, object_placed, pairs_placed, form_placed, start_placed};
ghost use Rattle.doc_tree.specs.Scope.{numbers_of, with_item, with_text};
ghost use Rattle.doc_tree.specs.Spelled.{bind_all, entries_of, item_of, pair_of, pairs_of, put_all, spelled_map, form_start, start_of};

use crate::arguments::{item_of, items_of};
use crate::counts::Counts;
use crate::hashing::TextSet;
use crate::look::{count, has_only, text_item, text_member};
use crate::state::{Numbering, add_text};
use crate::unmet::Unmet;
use atoms::{Directory, Item, ItemSet, Queue};
use batch::is_name;
use doc_rules::{Failure, Form, NameRule, Rule, ShapeRule, StartRule};
use indexmap::IndexSet;
use meaning::limits::MAX_START;
use objects::{Kind, Value as ObjectValue, ValueForm};
use serde_json::Value;
use std::alloc::Global;
use vocabulary::kind_of_text;

/// The limit of starting numbers, below 0 too.
const MAX_NUMBER: i64 = MAX_START as i64;

// ---- starts

/// A number that an account or a maximum register may start with.
pub fn number_start(value: &Value) -> Option<u64>
    ensures { result ≡ number_start (view value.now) }
{
    match value.as_i64() {
        Some(number) if 0 <= number && number <= MAX_NUMBER => Some(number as u64),
        _ => None,
    }
}

/// A number that a counter may start with.
pub fn signed_start(value: &Value) -> Option<i64>
    ensures { result ≡ signed_start (view value.now) }
{
    match value.as_i64() {
        Some(number) if -MAX_NUMBER <= number && number <= MAX_NUMBER => Some(number),
        _ => None,
    }
}

/// An item of a queue.
#[tactic(auto, unfolding(crate::specs::Asked::entry_asked))]
fn read_entry(
    alloc: Global,
    value: &Value,
    version: u8,
    counts: &mut Counts,
    numbering: &mut Numbering,
) -> Result<Item, Failure>
    ensures met { OnOk result (IsMet counts.old (entry_asked version (view value.now)) counts.new) }
    ensures first { IfErr result (IsFirst counts.old (entry_asked version (view value.now))) }
    ensures item { IfOk result (λ item. item ≡ item_of (text_of (view value.now))
        (numbers_of numbering.old)) }
    ensures numbers { OnOk result (numbers_of numbering.new
        ≡ with_item (text_of (view value.now)) (numbers_of numbering.old)) }
{
    let Some(name) = value.as_str() else {
        return Err(counts.broken(Rule::Start(StartRule::Entry)));
    };
    counts.demand(is_name(version, name), Rule::Name(version, NameRule::Entry))?;
    counts.one_more_start(version)?;
    let item = item_of(alloc, name, numbering)?;
    Ok(item)
}

fn read_queue(
    alloc: Global,
    list: &Vec<Value>,
    version: u8,
    counts: &mut Counts,
    numbering: &mut Numbering,
) -> Result<Queue, Unmet>
    ensures met { OnOk result (AreMet counts.old (entries_placed version 0
        (items_view list.now.items)) counts.new) }
    ensures unmet { IfErr result (IsFound counts.old (entries_placed version 0
        (items_view list.now.items))) }
    ensures value { IfOk result (λ queue. (queue, numbers_of numbering.new)
        ≡ entries_of (numbers_of numbering.old) (items_view list.now.items)) }
{
    let mut queue = Queue::new(alloc);
    for (index, entry) in list.iter().enumerate() {
        match read_entry(alloc, entry, version, counts, numbering) {
            Ok(item) => queue.push_back(item)?,
            Err(failure) => return Err(Unmet::from(failure).in_item(alloc, index)),
        }
    }
    Ok(queue)
}

/// Adds an item of a set or a key, which by a rule differs from the earlier ones, and counts it.
#[tactic(auto, unfolding(crate::specs::Heads::new_start_asked))]
fn add_start(
    alloc: Global,
    name: &str,
    version: u8,
    rule: Rule,
    earlier: &mut TextSet,
    counts: &mut Counts,
) -> Result<(), Failure>
    ensures met { OnOk result (IsMet counts.old (new_start_asked version rule
        (texts_of earlier.old.keys) name.now) counts.new) }
    ensures first { IfErr result (IsFirst counts.old (new_start_asked version rule
        (texts_of earlier.old.keys) name.now)) }
    ensures earlier { OnOk result (texts_of earlier.new.keys
        ≡ with_text name.now (texts_of earlier.old.keys)) }
{
    let new = add_text(alloc, earlier, name)?;
    counts.demand(new, rule)?;
    counts.one_more_start(version)?;
    Ok(())
}

/// An item of a set, which differs from the earlier ones and joins them.
#[tactic(auto, unfolding(crate::specs::Asked::element_asked, crate::specs::Heads::new_start_asked))]
fn read_element(
    alloc: Global,
    value: &Value,
    version: u8,
    earlier: &mut TextSet,
    counts: &mut Counts,
    numbering: &mut Numbering,
) -> Result<Item, Failure>
    ensures met { OnOk result (IsMet counts.old (element_asked version (texts_of earlier.old.keys)
        (view value.now)) counts.new) }
    ensures first { IfErr result (IsFirst counts.old (element_asked version
        (texts_of earlier.old.keys) (view value.now))) }
    ensures item { IfOk result (λ item. item ≡ item_of (text_of (view value.now))
        (numbers_of numbering.old)) }
    ensures numbers { OnOk result (numbers_of numbering.new
        ≡ with_item (text_of (view value.now)) (numbers_of numbering.old)) }
    ensures earlier { OnOk result (texts_of earlier.new.keys
        ≡ with_text (text_of (view value.now)) (texts_of earlier.old.keys)) }
{
    let Some(name) = value.as_str() else {
        return Err(counts.broken(Rule::Start(StartRule::Entry)));
    };
    counts.demand(is_name(version, name), Rule::Name(version, NameRule::Entry))?;
    add_start(
        alloc,
        name,
        version,
        Rule::Start(StartRule::NewEntry),
        earlier,
        counts,
    )?;
    let item = item_of(alloc, name, numbering)?;
    Ok(item)
}

/// The items of a set, which differ from these earlier ones.
fn read_elements(
    alloc: Global,
    list: &Vec<Value>,
    version: u8,
    earlier: &mut TextSet,
    counts: &mut Counts,
    numbering: &mut Numbering,
) -> Result<ItemSet, Unmet>
    ensures met { OnOk result (AreMet counts.old (elements_placed version
        (texts_of earlier.old.keys) 0 (items_view list.now.items)) counts.new) }
    ensures unmet { IfErr result (IsFound counts.old (elements_placed version
        (texts_of earlier.old.keys) 0 (items_view list.now.items))) }
    ensures value { IfOk result (λ set. (set, numbers_of numbering.new)
        ≡ spelled_map (put_all finite_set.empty) (entries_of (numbers_of numbering.old)
        (items_view list.now.items))) }
{
    let mut set = ItemSet::new(alloc);
    for (index, element) in list.iter().enumerate() {
        match read_element(alloc, element, version, earlier, counts, numbering) {
            Ok(item) => set.insert(item)?,
            Err(failure) => return Err(Unmet::from(failure).in_item(alloc, index)),
        };
    }
    Ok(set)
}

fn read_set(
    alloc: Global,
    list: &Vec<Value>,
    version: u8,
    counts: &mut Counts,
    numbering: &mut Numbering,
) -> Result<ItemSet, Unmet>
    ensures met { OnOk result (AreMet counts.old (elements_placed version [] 0
        (items_view list.now.items)) counts.new) }
    ensures unmet { IfErr result (IsFound counts.old (elements_placed version [] 0 (items_view
        list.now.items))) }
    ensures value { IfOk result (λ set. (set, numbers_of numbering.new)
        ≡ spelled_map (put_all finite_set.empty) (entries_of (numbers_of numbering.old)
        (items_view list.now.items))) }
{
    let mut earlier = IndexSet::with_capacity_and_hasher(
        alloc,
        list.len(),
        *numbering.items.hasher(),
    )?;
    read_elements(alloc, list, version, &mut earlier, counts, numbering)
}

/// The names of a key and its item.
#[tactic(auto, unfolding(crate::specs::Heads::pair_names_asked))]
fn pair_names<'v>(
    value: &'v Value,
    version: u8,
    counts: &Counts,
) -> Result<(&'v str, &'v str), Failure>
    ensures met { OnOk result (IsMet counts.now (pair_names_asked version (view value.now))
        counts.now) }
    ensures first { IfErr result (IsFirst counts.now (pair_names_asked version (view value.now))) }
    ensures key { IfOk result (λ pair. pair.0.now ≡ key_of (view value.now)) }
    ensures value { IfOk result (λ pair. pair.1.now ≡ value_of (view value.now)) }
{
    counts.demand(count(value) == Some(2), Rule::Start(StartRule::Pair))?;
    let Some(key) = text_item(value, 0) else {
        return Err(counts.broken(Rule::Start(StartRule::PairKey)));
    };
    let Some(bound) = text_item(value, 1) else {
        return Err(counts.broken(Rule::Start(StartRule::PairItem)));
    };
    counts.demand(
        is_name(version, key),
        Rule::Name(version, NameRule::PairKey),
    )?;
    counts.demand(
        is_name(version, bound),
        Rule::Name(version, NameRule::PairItem),
    )?;
    Ok((key, bound))
}

/// The names of a key and its item, whose key differs from the earlier ones and joins them.
#[tactic(auto, using(crate::proofs::Checks::parts), unfolding(crate::specs::Asked::pair_asked, crate::specs::Heads::pair_names_asked, crate::specs::Heads::new_start_asked))]
fn check_pair<'v>(
    alloc: Global,
    value: &'v Value,
    version: u8,
    earlier: &mut TextSet,
    counts: &mut Counts,
) -> Result<(&'v str, &'v str), Failure>
    ensures met { OnOk result (IsMet counts.old (pair_asked version (texts_of earlier.old.keys)
        (view value.now)) counts.new) }
    ensures first { IfErr result (IsFirst counts.old (pair_asked version
        (texts_of earlier.old.keys) (view value.now))) }
    ensures key { IfOk result (λ pair. pair.0.now ≡ key_of (view value.now)) }
    ensures value { IfOk result (λ pair. pair.1.now ≡ value_of (view value.now)) }
    ensures earlier { OnOk result (texts_of earlier.new.keys
        ≡ with_text (key_of (view value.now)) (texts_of earlier.old.keys)) }
{
    let (key, bound) = pair_names(value, version, counts)?;
    add_start(
        alloc,
        key,
        version,
        Rule::Start(StartRule::NewKey),
        earlier,
        counts,
    )?;
    Ok((key, bound))
}

/// A key and its item.
fn read_pair(
    alloc: Global,
    value: &Value,
    version: u8,
    earlier: &mut TextSet,
    counts: &mut Counts,
    numbering: &mut Numbering,
) -> Result<(Item, Item), Failure>
    ensures met { OnOk result (IsMet counts.old (pair_asked version (texts_of earlier.old.keys)
        (view value.now)) counts.new) }
    ensures first { IfErr result (IsFirst counts.old (pair_asked version
        (texts_of earlier.old.keys) (view value.now))) }
    ensures pair { IfOk result (λ pair. (pair, numbers_of numbering.new)
        ≡ pair_of (numbers_of numbering.old) (view value.now)) }
    ensures earlier { OnOk result (texts_of earlier.new.keys
        ≡ with_text (key_of (view value.now)) (texts_of earlier.old.keys)) }
{
    let (key_name, name) = check_pair(alloc, value, version, earlier, counts)?;
    let pair = items_of(alloc, key_name, name, numbering)?;
    Ok(pair)
}

/// The entries of a directory, whose keys differ from these earlier ones.
fn read_pairs(
    alloc: Global,
    list: &Vec<Value>,
    version: u8,
    earlier: &mut TextSet,
    counts: &mut Counts,
    numbering: &mut Numbering,
) -> Result<Directory, Unmet>
    ensures met { OnOk result (AreMet counts.old (pairs_placed version (texts_of earlier.old.keys) 0
        (items_view list.now.items)) counts.new) }
    ensures unmet { IfErr result (IsFound counts.old (pairs_placed version
        (texts_of earlier.old.keys) 0 (items_view list.now.items))) }
    ensures value { IfOk result (λ directory. (directory, numbers_of numbering.new)
        ≡ spelled_map (bind_all finite_map.empty) (pairs_of (numbers_of numbering.old)
        (items_view list.now.items))) }
{
    let mut directory = Directory::new(alloc);
    for (index, pair) in list.iter().enumerate() {
        match read_pair(alloc, pair, version, earlier, counts, numbering) {
            Ok((key, item)) => directory.put(key, item)?,
            Err(failure) => return Err(Unmet::from(failure).in_item(alloc, index)),
        }
    }
    Ok(directory)
}

fn read_directory(
    alloc: Global,
    list: &Vec<Value>,
    version: u8,
    counts: &mut Counts,
    numbering: &mut Numbering,
) -> Result<Directory, Unmet>
    ensures met { OnOk result (AreMet counts.old (pairs_placed version [] 0
        (items_view list.now.items)) counts.new) }
    ensures unmet { IfErr result (IsFound counts.old (pairs_placed version [] 0 (items_view
        list.now.items))) }
    ensures value { IfOk result (λ directory. (directory, numbers_of numbering.new)
        ≡ spelled_map (bind_all finite_map.empty) (pairs_of (numbers_of numbering.old)
        (items_view list.now.items))) }
{
    let mut earlier = IndexSet::with_capacity_and_hasher(
        alloc,
        list.len(),
        *numbering.items.hasher(),
    )?;
    read_pairs(alloc, list, version, &mut earlier, counts, numbering)
}

/// What a set starts with.
fn read_set_start(
    alloc: Global,
    kind: Kind,
    value: &Value,
    version: u8,
    counts: &mut Counts,
    numbering: &mut Numbering,
) -> Result<ObjectValue, Unmet>
    ensures met { OnOk result (AreMet counts.old (form_placed version kind ValueForm.Set
        (view value.now))
        counts.new) }
    ensures unmet { IfErr result (IsFound counts.old (form_placed version kind ValueForm.Set
        (view value.now))) }
    ensures value { IfOk result (λ start. (start, numbers_of numbering.new)
        ≡ form_start ValueForm.Set (numbers_of numbering.old) (view value.now)) }
{
    let Some(list) = value.as_array() else {
        return Err(Unmet::from(counts.broken(Rule::Start(StartRule::Of(kind)))));
    };
    let start = read_set(alloc, list, version, counts, numbering)?;
    Ok(ObjectValue::Set(start))
}

/// What a queue starts with.
fn read_queue_start(
    alloc: Global,
    kind: Kind,
    value: &Value,
    version: u8,
    counts: &mut Counts,
    numbering: &mut Numbering,
) -> Result<ObjectValue, Unmet>
    ensures met { OnOk result (AreMet counts.old (form_placed version kind ValueForm.Queue
        (view value.now))
        counts.new) }
    ensures unmet { IfErr result (IsFound counts.old (form_placed version kind ValueForm.Queue
        (view value.now))) }
    ensures value { IfOk result (λ start. (start, numbers_of numbering.new)
        ≡ form_start ValueForm.Queue (numbers_of numbering.old) (view value.now)) }
{
    let Some(list) = value.as_array() else {
        return Err(Unmet::from(counts.broken(Rule::Start(StartRule::Of(kind)))));
    };
    let start = read_queue(alloc, list, version, counts, numbering)?;
    Ok(ObjectValue::Queue(start))
}

/// What a directory starts with.
fn read_directory_start(
    alloc: Global,
    kind: Kind,
    value: &Value,
    version: u8,
    counts: &mut Counts,
    numbering: &mut Numbering,
) -> Result<ObjectValue, Unmet>
    ensures met { OnOk result (AreMet counts.old (form_placed version kind ValueForm.Directory
        (view value.now)) counts.new) }
    ensures unmet { IfErr result (IsFound counts.old (form_placed version kind ValueForm.Directory
        (view value.now))) }
    ensures value { IfOk result (λ start. (start, numbers_of numbering.new)
        ≡ form_start ValueForm.Directory (numbers_of numbering.old) (view value.now)) }
{
    let Some(list) = value.as_array() else {
        return Err(Unmet::from(counts.broken(Rule::Start(StartRule::Of(kind)))));
    };
    let start = read_directory(alloc, list, version, counts, numbering)?;
    Ok(ObjectValue::Directory(start))
}

/// What an object of this kind starts with.
///
/// Returns the first demand that isn't met, with its place in the start, or that memory was refused.
#[tactic(auto, unfolding(crate::specs::Places::start_placed, crate::specs::Spelled::start_of))]
fn read_start(
    alloc: Global,
    kind: Kind,
    value: &Value,
    version: u8,
    counts: &mut Counts,
    numbering: &mut Numbering,
) -> Result<ObjectValue, Unmet>
    ensures met { OnOk result (AreMet counts.old (start_placed version kind
        (view value.now)) counts.new) }
    ensures unmet { IfErr result (IsFound counts.old (start_placed version kind (view value.now))) }
    ensures value { IfOk result (λ start. (start, numbers_of numbering.new)
        ≡ start_of kind (numbers_of numbering.old) (view value.now)) }
{
    match kind.form() {
        ValueForm::Number(number_kind) => match number_start(value) {
            Some(number) => Ok(number_kind.value(number)),
            None => Err(Unmet::from(counts.broken(Rule::Start(StartRule::Of(kind))))),
        },
        ValueForm::Signed => match signed_start(value) {
            Some(number) => Ok(ObjectValue::Counter(number)),
            None => Err(Unmet::from(counts.broken(Rule::Start(StartRule::Of(kind))))),
        },
        ValueForm::Set => read_set_start(alloc, kind, value, version, counts, numbering),
        ValueForm::Queue => read_queue_start(alloc, kind, value, version, counts, numbering),
        ValueForm::Directory => {
            read_directory_start(alloc, kind, value, version, counts, numbering)
        }
    }
}

// ---- an object

/// The parts of an object.
#[derive(Clone, Copy, Drop)]
struct ObjectParts<'v> {
    name: &'v str,
    kind: Kind,
    start: &'v Value,
}

/// The parts of an object. Returns the first rule that isn't kept where it isn't an object of just
/// these parts.
#[tactic(auto, unfolding(crate::specs::Asked::object_shape_asked))]
fn shape_of<'v>(value: &'v Value, version: u8, counts: &Counts) -> Result<ObjectParts<'v>, Failure>
    ensures met { OnOk result (IsMet counts.now (object_shape_asked version (view value.now))
        counts.now) }
    ensures first { IfErr result (IsFirst counts.now (object_shape_asked version
        (view value.now))) }
    ensures name { IfOk result (λ shape. shape.name.now ≡ object_name (view value.now)) }
    ensures kind { IfOk result (λ shape. shape.kind ≡ kind_in version (view value.now)) }
    ensures start { IfOk result (λ shape. view shape.start.now
        ≡ part (codes "start") (view value.now)) }
{
    let form = Form::Object;
    counts.demand(
        has_only(value, form.members()),
        Rule::Shape(ShapeRule::Members(form)),
    )?;
    let Some(name) = text_member(value, "name") else {
        return Err(counts.broken(Rule::Shape(ShapeRule::ObjectName)));
    };
    let Some(kind) = kind_member(value, version) else {
        return Err(counts.broken(Rule::Shape(ShapeRule::ObjectKind(version))));
    };
    let Some(start) = value.get("start") else {
        return Err(counts.broken(Rule::Shape(ShapeRule::ObjectStart)));
    };
    Ok(ObjectParts { name, kind, start })
}

fn kind_member(value: &Value, version: u8) -> Option<Kind>
    ensures { result ≡ object_kind version (view value.now) }
{
    kind_of_text(version, text_member(value, "kind")?)
}

/// Adds an object's name to the others. Returns the failure of a text that is no name or is there
/// already, or that memory was refused.
#[tactic(auto, unfolding(crate::specs::Asked::object_name_asked))]
pub fn add_name(
    alloc: Global,
    name: &str,
    version: u8,
    names: &mut TextSet,
    counts: &Counts,
) -> Result<(), Failure>
    ensures met { OnOk result (IsMet counts.now
        (object_name_asked version (texts_of names.old.keys) name.now) counts.now) }
    ensures first { IfErr result (IsFirst counts.now
        (object_name_asked version (texts_of names.old.keys) name.now)) }
    ensures names { OnOk result (texts_of names.new.keys
        ≡ texts_of names.old.keys ++ name.now ∷ []) }
{
    counts.demand(
        is_name(version, name),
        Rule::Name(version, NameRule::Object),
    )?;
    let new = add_text(alloc, names, name)?;
    counts.demand(new, Rule::NewObject)?;
    Ok(())
}

/// The value that an object starts with. Its name joins these.
///
/// Returns the first demand that isn't met, with its place in the object, or that memory was refused.
#[tactic(auto, unfolding(crate::specs::Places::object_placed))]
pub fn read_object(
    alloc: Global,
    value: &Value,
    version: u8,
    names: &mut TextSet,
    counts: &mut Counts,
    numbering: &mut Numbering,
) -> Result<ObjectValue, Unmet>
    ensures met { OnOk result (AreMet counts.old (object_placed version (texts_of names.old.keys)
        (view value.now)) counts.new) }
    ensures unmet { IfErr result (IsFound counts.old (object_placed version (texts_of
        names.old.keys) (view value.now))) }
    ensures value { IfOk result (λ start. (start, numbers_of numbering.new)
        ≡ start_of (kind_in version (view value.now)) (numbers_of numbering.old) (part
        (codes "start") (view value.now))) }
    ensures names { OnOk result (texts_of names.new.keys
        ≡ texts_of names.old.keys ++ object_name (view value.now) ∷ []) }
{
    let shape = shape_of(value, version, counts)?;
    add_name(alloc, shape.name, version, names, counts)?;
    match read_start(alloc, shape.kind, shape.start, version, counts, numbering) {
        Ok(start) => Ok(start),
        Err(unmet) => Err(unmet.in_member(alloc, "start")),
    }
}
