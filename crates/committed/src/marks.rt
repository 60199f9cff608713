//! Marks: what the filter and the index need to know of an entry.
ghost use Rattle.std.specs.Prelude.{◌≡◌};
ghost use Rattle.committed.specs.Marks.{hash_of, mark_of};

use atoms::Item;
use conflicts::{Class, operation_item};
use objects::Entry;

/// A digest of an entry. It is made once, however often the entry is compared.
#[derive(Clone, Copy, Debug, PartialEq, Eq)]
pub struct Mark {
    /// A hash of its object.
    pub of_object: u32,
    /// A hash of its object and item, or of its object again where the entry is about no item.
    pub of_item: u32,
    /// The set of its class.
    pub class: u16,
    /// The set of the classes with which it doesn't always commute.
    pub conflicts: u16,
}

impl Mark {
    /// The mark of an entry.
    pub fn of(entry: &Entry) -> Mark
        ensures { result ≡ mark_of entry.now }
    {
        let class = Class::of(entry);
        Mark {
            of_object: hash(entry.object, None),
            of_item: hash(entry.object, operation_item(&entry.call, &entry.reply)),
            class: class.bit(),
            conflicts: class.conflicts(),
        }
    }
}

/// An entry with its mark.
#[derive(Clone, Copy, Debug, PartialEq, Eq)]
pub struct MarkedEntry {
    /// The entry.
    pub entry: Entry,
    /// Its mark.
    pub mark: Mark,
    pub ghost is_marked: { mark ≡ mark_of entry },
}

impl MarkedEntry {
    /// The entry with its mark.
    pub fn of(entry: &Entry) -> MarkedEntry
        ensures { result.entry ≡ entry.now }
    {
        MarkedEntry {
            entry: *entry,
            mark: Mark::of(entry),
        }
    }
}

/// A hash of an object and an item. Its low bits depend on all bits of both.
fn hash(object: u32, item: Option<Item>) -> u32
    ensures { result ≡ hash_of object item }
{
    let number = match item {
        Some(item) => item.0 as u64 + 1,
        None => 0,
    };
    let mixed = (object as u64)
        .wrapping_mul(0x9E3779B97F4A7C15)
        .wrapping_add(number)
        .wrapping_mul(0xD6E8FEB86659FD93);
    (mixed >> 32) as u32
}
