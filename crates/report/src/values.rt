//! The words of the values of objects.
ghost use Rattle.std.specs.Prelude.{◌≡◌, ◌++◌, OnOk, map, string_bytes};
ghost use Rattle.std.specs.FinMap as finite_map;
ghost use Rattle.meaning.specs.Words.{spaced, binding_text, has_colon, members, separator, value_text};
ghost use Rattle.batch.specs.Names.{names_of};

use crate::names::item_name;
use atoms::{Directory, Item, ItemSet, Queue};
use batch::Names;
use objects::{Content, Value};
use serial::NoMemory;

/// Writes the value of an object: members and keys in order.
pub(crate) fn write_value(out: &mut String, names: &Names, value: &Value) -> Result<(), NoMemory>
    ensures { OnOk result (string_bytes out.new ≡ string_bytes out.old
        ++ value_text (names_of names.now) value.now) }
{
    match value.content() {
        Content::Number(number) => write!(out, "{number}")?,
        Content::Signed(number) => write!(out, "{number}")?,
        Content::Set(set) => {
            write!(out, "{{")?;
            write_members(out, names, set)?;
            write!(out, "}}")?;
        }
        Content::Queue(queue) => {
            write!(out, "[")?;
            write_queue(out, names, queue)?;
            write!(out, "]")?;
        }
        Content::Directory(directory) => {
            write!(out, "{{")?;
            write_bindings(out, names, directory)?;
            write!(out, "}}")?;
        }
    }
    Ok(())
}

fn write_members(out: &mut String, names: &Names, set: &ItemSet) -> Result<(), NoMemory>
    ensures { OnOk result (string_bytes out.new ≡ string_bytes out.old
        ++ spaced (map (names_of names.now).item (members set.now))) }
{
    let mut space = "";
    for member in set.items().iter() {
        let name = item_name(names, *member);
        write!(out, "{space}{name}")?;
        space = " ";
    }
    Ok(())
}

fn write_queue(out: &mut String, names: &Names, queue: &Queue) -> Result<(), NoMemory>
    ensures { OnOk result (string_bytes out.new ≡ string_bytes out.old
        ++ spaced (map (names_of names.now).item queue.now)) }
{
    let mut space = "";
    for item in queue.items().iter() {
        let name = item_name(names, *item);
        write!(out, "{space}{name}")?;
        space = " ";
    }
    Ok(())
}

fn write_bindings(out: &mut String, names: &Names, directory: &Directory) -> Result<(), NoMemory>
    ensures { OnOk result (string_bytes out.new ≡ string_bytes out.old
        ++ spaced (map (binding_text (names_of names.now)) (finite_map.entries directory.now))) }
{
    let mut space = "";
    for (key, item) in directory.entries().iter() {
        out.push_str(space)?;
        write_binding(out, names, *key, *item)?;
        space = " ";
    }
    Ok(())
}

fn write_binding(out: &mut String, names: &Names, key: Item, item: Item) -> Result<(), NoMemory>
    ensures { OnOk result (string_bytes out.new
        ≡ string_bytes out.old ++ binding_text (names_of names.now) (key, item)) }
{
    let key = item_name(names, key);
    let item = item_name(names, item);
    out.push_str(key)?;
    out.push_str(separator(key, item))?;
    out.push_str(item)?;
    Ok(())
}

/// The sign between a key and its item, by which a script can cut them.
fn separator(key: &str, item: &str) -> &'static str
    ensures { result.now ≡ separator key.now item.now }
{
    if has_colon(key) || has_colon(item) {
        "="
    } else {
        ":"
    }
}

fn has_colon(text: &str) -> bool
    ensures { result ≡ has_colon text.now }
{
    text.as_bytes().iter().any(|byte| *byte == b':')
}
