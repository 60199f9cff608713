//! Classes of operations that always commute forward, whatever their arguments and replies are.
ghost use Rattle.std.specs.Prelude.{◌≡◌, ◌<◌, ◌^◌, ◌⊎◌, IfSome, IsNone};
ghost use Rattle.std.specs.Int.{bit_at};
ghost use Rattle.conflicts.specs.declared.classes.Class.{Class as OneClass};
ghost use Rattle.conflicts.specs.Classes.{class_of, class_number, conflicts_of, is_by_item, by_item};

use crate::effect::class_of;
use objects::Entry;

/// What an operation did, as far as it decides with which others it always commutes forward. It
/// depends on the operation's effect.
#[derive(Clone, Copy, Debug, PartialEq, Eq, Hash)]
pub enum Class {
    Deposit,
    Withdrawal,
    /// A withdrawal that was refused.
    Refusal,
    /// It read the balance of an account.
    Balance,
    /// It changed a counter.
    Count,
    /// It raised a register, or found it higher already.
    Raise,
    /// It changed a set, or bound or freed a key.
    Change,
    /// It put an item under a key, whatever the key was bound to.
    Put,
    Enqueue,
    /// It took an item out of a queue.
    Dequeue,
    /// It counted the items of a set or a queue, or found a queue empty.
    Size,
    /// It left the value as it was, and is of no other class.
    Look,
    /// It was to bind a key, and found it bound.
    Taken,
}

impl Class {
    /// Every class, in the order of the numbers.
    pub const ALL: [Class; 13] = [
        Class::Deposit,
        Class::Withdrawal,
        Class::Refusal,
        Class::Balance,
        Class::Count,
        Class::Raise,
        Class::Change,
        Class::Put,
        Class::Enqueue,
        Class::Dequeue,
        Class::Size,
        Class::Look,
        Class::Taken,
    ];

    /// The class of an entry's operation.
    pub fn of(entry: &Entry) -> Class
        ensures { result ≡ class_of entry.now.call entry.now.reply }
    {
        class_of(&entry.call, &entry.reply)
    }

    /// The place of the class among all.
    pub fn number(self) -> usize
        ensures { result ≡ class_number self }
    {
        match self {
            Class::Deposit => 0,
            Class::Withdrawal => 1,
            Class::Refusal => 2,
            Class::Balance => 3,
            Class::Count => 4,
            Class::Raise => 5,
            Class::Change => 6,
            Class::Put => 7,
            Class::Enqueue => 8,
            Class::Dequeue => 9,
            Class::Size => 10,
            Class::Look => 11,
            Class::Taken => 12,
        }
    }

    /// The set of this class alone. A set of classes is a number: each bit is for the class of its
    /// place.
    pub fn bit(self) -> u16
        ensures { result ≡ 2 ^ class_number self }
    {
        1u16 << self.number()
    }

    /// The first class of a set, in the order of the numbers. A bit that is for no class is passed
    /// over.
    pub fn first_of(set: u16) -> Option<Class>
        ensures some { IfSome result (λ class. bit_at set (class_number class) ≡ 1) }
        ensures none { IsNone result → (class : OneClass) → bit_at set (class_number class) ≡ 0 }
    {
        let number = set.trailing_zeros() as usize;
        if number < Class::ALL.len() {
            return Some(Class::ALL[number]);
        }
        None
    }

    /// The set without this class, which it has.
    pub fn taken_from(self, set: u16) -> u16
        requires { bit_at set (class_number self) ≡ 1 }
        ensures less { result < set }
        ensures others { (class : OneClass) → bit_at result (class_number class) ≡ 0
            → (class ≡ self) ⊎ (bit_at set (class_number class) ≡ 0) }
    {
        set & !self.bit()
    }

    /// The set of the classes with which it doesn't always commute.
    pub fn conflicts(self) -> u16
        ensures { result ≡ conflicts_of self }
    {
        match self {
            Class::Deposit => Class::Refusal.bit() | Class::Balance.bit(),
            Class::Withdrawal => Class::Withdrawal.bit() | Class::Balance.bit(),
            Class::Refusal => Class::Deposit.bit(),
            Class::Balance => Class::Deposit.bit() | Class::Withdrawal.bit(),
            Class::Count => Class::Look.bit(),
            Class::Raise => Class::Look.bit(),
            Class::Change => {
                Class::Change.bit()
                    | Class::Put.bit()
                    | Class::Size.bit()
                    | Class::Look.bit()
                    | Class::Taken.bit()
            }
            Class::Put => Class::Change.bit() | Class::Put.bit() | Class::Look.bit(),
            Class::Enqueue => Class::Enqueue.bit() | Class::Size.bit(),
            Class::Dequeue => Class::Dequeue.bit() | Class::Size.bit(),
            Class::Size => Class::Change.bit() | Class::Enqueue.bit() | Class::Dequeue.bit(),
            Class::Look => {
                Class::Count.bit() | Class::Raise.bit() | Class::Change.bit() | Class::Put.bit()
            }
            Class::Taken => Class::Change.bit(),
        }
    }

    /// The set of the classes for which `is_by_item` holds.
    pub fn by_item() -> u16
        ensures { result ≡ by_item }
    {
        Class::Change.bit()
            | Class::Put.bit()
            | Class::Dequeue.bit()
            | Class::Look.bit()
            | Class::Taken.bit()
    }

    /// Whether entries of the class that are about items are compared only with those of their own
    /// item.
    pub fn is_by_item(self) -> bool
        ensures { result ≡ is_by_item self }
    {
        matches!(
            self,
            Class::Change | Class::Put | Class::Dequeue | Class::Look | Class::Taken
        )
    }
}
