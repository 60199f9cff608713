//! What was seen, and how values are looked at.
use objects::{Item, Objects, Value};

/// What was seen of a call.
#[derive(Clone, Copy, PartialEq, Eq)]
pub(crate) enum Seen {
    /// It succeeded.
    Whole,
    /// It was refused memory, and all is as before.
    Unchanged,
    /// It was refused memory, and something is not as before.
    Changed,
}

/// A refusal, by whether all is as before.
pub(crate) fn refused(same: bool) -> Seen {
    if same { Seen::Unchanged } else { Seen::Changed }
}

/// How much is in the four objects of the loops: a balance, members, items, bindings.
#[derive(Clone, Copy, PartialEq, Eq)]
pub(crate) struct Sizes {
    pub(crate) balance: u64,
    pub(crate) members: usize,
    pub(crate) items: usize,
    pub(crate) bindings: usize,
}

impl Sizes {
    pub(crate) const NONE: Sizes = Sizes {
        balance: 0,
        members: 0,
        items: 0,
        bindings: 0,
    };

    /// The sizes of objects.
    pub(crate) fn of(objects: &Objects) -> Sizes {
        let mut sizes = Sizes::NONE;
        for object in 0..4 {
            if let Some(value) = objects.value(object) {
                sizes.look_at(value);
            }
        }
        sizes
    }

    fn look_at(&mut self, value: &Value) {
        match value {
            Value::Account(balance) => self.balance = *balance,
            Value::Set(set) => self.members = set.len(),
            Value::Queue(queue) => self.items = queue.items().len(),
            Value::Directory(directory) => self.bindings = directory.entries().len(),
            _ => {}
        }
    }
}

/// The item of this number.
pub(crate) fn item(number: u32) -> Item {
    Item(number)
}
