//! Strictness: which of two entries commutes forward with less.
ghost use Rattle.std.specs.Prelude.{◌≡◌, IsTrue};
ghost use Rattle.atoms.specs.ItemSet.{set_effects_commute};
ghost use Rattle.atoms.specs.Queue.{queue_effects_commute};
ghost use Rattle.atoms.specs.Directory.{key_effects_commute, directory_effects_commute};
ghost use Rattle.conflicts.specs.Strictness.{IsAsStrict, AreAsStrict, EffectsAreAsStrict, strength_of, covers};

use crate::effect::set_item;
use crate::strength::Strength;
use atoms::{Directory, DirectoryEffect, ItemSet, KeyEffect, Queue, QueueEffect, SetEffect};
use objects::{Call, Entry, Reply};

/// Whether the first entry is known to commute forward with no more than the second does. It is
/// where the two are equal, and by their numbers. Of two withdrawals the smaller commutes with
/// fewer balances, of two balances the larger with fewer withdrawals. Of two raises the larger
/// commutes with fewer tops, of two tops the smaller with fewer raises. Deposits, refused
/// withdrawals, changes of a counter and reads of a counter don't depend on their numbers: of two
/// on one object, each is as strict as the other.
pub fn is_as_strict(first: &Entry, second: &Entry) -> bool
    ensures strict { IsTrue result → IsAsStrict first.now second.now }
    ensures exact { result ≡ covers (strength_of first.now) (strength_of second.now) }
{
    Strength::of(first).covers(&Strength::of(second))
}

/// An entry with its strength.
#[derive(Clone, Copy)]
pub struct Measured<'e> {
    /// The entry.
    pub entry: &'e Entry,
    /// Its strength.
    pub strength: &'e Strength,
    pub ghost is_own: { strength.now ≡ strength_of entry.now },
}

/// Whether the first two entries are known to be as strict as the third: whatever commutes forward
/// with both commutes with it. It is where one of them is alone, or where the two together are.
pub fn are_as_strict(first: Measured<'_>, second: Measured<'_>, third: Measured<'_>) -> bool
    ensures { IsTrue result
        → AreAsStrict first.entry.entry.now second.entry.entry.now third.entry.entry.now }
{
    first.strength.covers(third.strength)
        || second.strength.covers(third.strength)
        || third.strength.is_paired()
            && first.entry.object == third.entry.object
            && second.entry.object == third.entry.object
            && together_as_strict(first.entry, second.entry, third.entry)
}

/// Whether two operations on one object are together as strict as a third on it.
fn together_as_strict(first: &Entry, second: &Entry, third: &Entry) -> bool
    ensures { first.now.object ≡ third.now.object → second.now.object ≡ third.now.object
        → IsTrue result → AreAsStrict first.now second.now third.now }
{
    match (
        &first.call,
        &first.reply,
        &second.call,
        &second.reply,
        &third.call,
        &third.reply,
    ) {
        (Call::Set(p), Reply::Set(r), Call::Set(q), Reply::Set(s), Call::Set(c), Reply::Set(t)) =>
            sets_as_strict(
                ItemSet::effect(p, r),
                ItemSet::effect(q, s),
                ItemSet::effect(c, t),
            ),
        (
            Call::Queue(p),
            Reply::Queue(r),
            Call::Queue(q),
            Reply::Queue(s),
            Call::Queue(c),
            Reply::Queue(t),
        ) => queues_as_strict(
            Queue::effect(p, r),
            Queue::effect(q, s),
            Queue::effect(c, t),
        ),
        (
            Call::Directory(p),
            Reply::Directory(r),
            Call::Directory(q),
            Reply::Directory(s),
            Call::Directory(c),
            Reply::Directory(t),
        ) => directories_as_strict(
            Directory::effect(p, r),
            Directory::effect(q, s),
            Directory::effect(c, t),
        ),
        _ => false,
    }
}

/// Of a set: an addition and a removal of one item are as strict as each change and look of it, and
/// two different sizes as each size.
fn sets_as_strict(first: SetEffect, second: SetEffect, third: SetEffect) -> bool
    ensures { IsTrue result → EffectsAreAsStrict set_effects_commute first second third }
{
    match (first, second) {
        (SetEffect::WasAdded(item), SetEffect::WasRemoved(other))
        | (SetEffect::WasRemoved(item), SetEffect::WasAdded(other)) => {
            item == other && set_item(third) == Some(item)
        }
        (SetEffect::WasCounted(size), SetEffect::WasCounted(other)) => {
            size != other && matches!(third, SetEffect::WasCounted(_))
        }
        _ => false,
    }
}

/// Of a queue: two enqueues of different items are as strict as each enqueue, and two different
/// lengths as each length.
fn queues_as_strict(first: QueueEffect, second: QueueEffect, third: QueueEffect) -> bool
    ensures { IsTrue result → EffectsAreAsStrict queue_effects_commute first second third }
{
    match (first, second, third) {
        (QueueEffect::Enqueued(item), QueueEffect::Enqueued(other), QueueEffect::Enqueued(_)) => {
            item != other
        }
        (QueueEffect::Counted(length), QueueEffect::Counted(other), QueueEffect::Counted(_)) => {
            length != other
        }
        _ => false,
    }
}

/// Of a directory: only operations on one key are.
fn directories_as_strict(
    first: DirectoryEffect,
    second: DirectoryEffect,
    third: DirectoryEffect,
) -> bool
    ensures { IsTrue result → EffectsAreAsStrict directory_effects_commute first second third }
{
    first.key == third.key
        && second.key == third.key
        && keys_as_strict(first.change, second.change, third.change)
}

/// Of one key: an unbinding and a put or binding are as strict as each operation. Two puts of
/// different items are as strict as each but an unbinding.
fn keys_as_strict(first: KeyEffect, second: KeyEffect, third: KeyEffect) -> bool
    ensures { IsTrue result → EffectsAreAsStrict key_effects_commute first second third }
{
    match (first, second) {
        (KeyEffect::WasUnbound, KeyEffect::WasPut(_) | KeyEffect::WasBound(_))
        | (KeyEffect::WasPut(_) | KeyEffect::WasBound(_), KeyEffect::WasUnbound) => true,
        (KeyEffect::WasPut(item), KeyEffect::WasPut(other)) => {
            item != other && !matches!(third, KeyEffect::WasUnbound)
        }
        _ => false,
    }
}
