//! Strengths: digests of entries. By them one entry is found to be as strict as another.
//!
//! Each has a range of numbers, and a wider range is stricter. Of two withdrawals the smaller is
//! stricter, and its range goes from its amount up. Of two balances the larger is stricter, and its
//! range goes up to it. An item or a size is a range of one number, so that only the same one is as
//! strict. Where numbers make no difference, the range is that of 0.
ghost use Rattle.std.specs.Prelude.{◌≡◌};
ghost use Rattle.conflicts.specs.Effects.{digest};
ghost use Rattle.conflicts.specs.Strictness.{strength_of, covers, topic_of};

use crate::effect::{EffectKind, strength_of};
use objects::Entry;

/// A digest of an entry, by which it is compared with others for strictness.
#[derive(Clone, Copy, Debug)]
pub struct Strength {
    object: u32,
    /// The kind of the object.
    kind: EffectKind,
    /// Which effect of the kind it is, in their order. To add to a counter and to subtract are one.
    variant: u8,
    /// A number of the item that the operation is about, or 0.
    item: u64,
    /// The first and the last number of a range. Of two effects that are otherwise the same, one is
    /// as strict as the other where its range has all of the other's.
    least: u64,
    most: u64,
}

impl Strength {
    /// The strength of an entry.
    pub fn of(entry: &Entry) -> Strength
        ensures { result ≡ strength_of entry.now }
    {
        strength_of(entry)
    }

    /// Whether an entry of this strength is known to be as strict as one of the other: the object,
    /// the effect and the item are the same, and its range has all of the other's.
    pub fn covers(&self, other: &Strength) -> bool
        ensures { result ≡ covers self.now other.now }
    {
        self.object == other.object
            && self.kind == other.kind
            && self.variant == other.variant
            && self.item == other.item
            && self.least <= other.least
            && other.most <= self.most
    }

    /// Whether two of its kind may be as strict as a third, though neither is.
    pub fn is_paired(&self) -> bool {
        self.kind.is_paired()
    }

    /// What it is about: its object and its item, or its object and effect where it is about no
    /// item.
    pub fn topic(&self) -> Topic
        ensures { result ≡ topic_of self.now }
    {
        Topic {
            object: self.object,
            item: self.item,
            variant: if self.item == 0 { self.variant } else { 0 },
        }
    }
}

/// What an entry is about.
#[derive(Clone, Copy, Debug, PartialEq, Eq, Hash)]
pub struct Topic {
    object: u32,
    /// A number of the item, or 0.
    item: u64,
    /// Which effect of the object it is, or 0 where there is an item.
    variant: u8,
}

impl Topic {
    /// A slot for it, where there are so many, which is a power of two. Consecutive objects have
    /// consecutive slots.
    pub fn slot(&self, slots: usize) -> usize {
        let number = (self.object as u64)
            .wrapping_add((self.variant as u64).wrapping_mul(0x5851_F42D))
            .wrapping_add(self.item.wrapping_mul(0x9E37_79B9_7F4A_7C15));
        number as usize & slots.saturating_sub(1)
    }
}

/// A strength of its parts, in the order of the fields.
pub fn digest(
    object: u32,
    kind: EffectKind,
    variant: u8,
    item: u64,
    least: u64,
    most: u64,
) -> Strength
    ensures { result ≡ digest object kind variant item least most }
{
    Strength {
        object,
        kind,
        variant,
        item,
        least,
        most,
    }
}
