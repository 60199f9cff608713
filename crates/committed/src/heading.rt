//! Headings: what entries are listed under.
ghost use Rattle.std.specs.Prelude.{◌≡◌, is_some};
ghost use Rattle.committed.specs.Headings.{heading_of, of_object, heading_against};

use atoms::Item;
use conflicts::{Class, operation_item};
use objects::Entry;

/// An object, an item or none, and a class.
#[derive(Clone, Copy, Debug, PartialEq, Eq, Hash)]
pub struct Heading {
    object: u32,
    item: Option<Item>,
    class: Class,
}

impl Heading {
    /// What an entry is listed under.
    pub fn of(entry: &Entry) -> Heading
        ensures { result ≡ heading_of entry.now }
    {
        Heading {
            object: entry.object,
            item: operation_item(&entry.call, &entry.reply),
            class: Class::of(entry),
        }
    }

    /// This heading without its item.
    pub fn of_object(self) -> Heading
        ensures { result ≡ of_object self }
    {
        Heading { item: None, ..self }
    }

    /// Whether it has an item.
    pub fn is_of_item(self) -> bool
        ensures { result ≡ is_some self.item }
    {
        self.item.is_some()
    }

    /// What those entries of a class are listed under with which an entry is compared.
    pub fn against(entry: &Entry, class: Class) -> Heading
        ensures { result ≡ heading_against entry.now class }
    {
        Heading {
            object: entry.object,
            item: if class.is_by_item() {
                operation_item(&entry.call, &entry.reply)
            } else {
                None
            },
            class,
        }
    }
}
