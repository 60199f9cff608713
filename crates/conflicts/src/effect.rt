//! What operations did: all that is said of conflicts kind by kind.
//!
//! The class of an operation, the item that it is about and its strength depend on its effect
//! alone.
ghost use Rattle.std.specs.Prelude.{◌≡◌, ◌+◌};
ghost use Rattle.conflicts.specs.Effects.{account_class, counter_class, set_class, queue_class, key_class, max_class, set_item, taken_item, account_strength, counter_strength, set_strength, queue_strength, directory_strength, max_strength, account_parts, counter_parts, set_parts, queue_parts, key_parts, max_parts};
ghost use Rattle.conflicts.specs.Classes.{class_of};
ghost use Rattle.conflicts.specs.Items.{operation_item};
ghost use Rattle.conflicts.specs.Strictness.{strength_of};

use crate::classes::Class;
use crate::strength::{Strength, digest};
use atoms::{
    Account, AccountEffect, Counter, CounterEffect, Directory, DirectoryEffect, Item, ItemSet,
    KeyEffect, MaxEffect, MaxRegister, Queue, QueueEffect, SetEffect,
};
use objects::{Call, Entry, Reply};

/// The kind of the object of an effect.
#[derive(Clone, Copy, Debug, PartialEq, Eq)]
pub enum EffectKind {
    Account,
    Counter,
    Set,
    Queue,
    Directory,
    Max,
    /// The call is of one kind, and the reply of another.
    Mixed,
}

impl EffectKind {
    /// Whether two effects of the kind may be as strict as a third, though neither is.
    pub fn is_paired(self) -> bool {
        matches!(
            self,
            EffectKind::Set | EffectKind::Queue | EffectKind::Directory
        )
    }
}

/// The class of an operation.
pub fn class_of(call: &Call, reply: &Reply) -> Class
    ensures { result ≡ class_of call.now reply.now }
{
    match (call, reply) {
        (Call::Account(call), Reply::Account(reply)) => account_class(Account::effect(call, reply)),
        (Call::Counter(call), Reply::Counter(reply)) => counter_class(Counter::effect(call, reply)),
        (Call::Set(call), Reply::Set(reply)) => set_class(ItemSet::effect(call, reply)),
        (Call::Queue(call), Reply::Queue(reply)) => queue_class(Queue::effect(call, reply)),
        (Call::Directory(call), Reply::Directory(reply)) => {
            key_class(Directory::effect(call, reply).change)
        }
        (Call::Max(call), Reply::Max(reply)) => max_class(MaxRegister::effect(call, reply)),
        _ => Class::Look,
    }
}

/// The item that an operation is about, where it is about no other part of its object. A dequeue is
/// about the item that it took.
pub fn operation_item(call: &Call, reply: &Reply) -> Option<Item>
    ensures { result ≡ operation_item call.now reply.now }
{
    match (call, reply) {
        (Call::Set(call), Reply::Set(reply)) => set_item(ItemSet::effect(call, reply)),
        (Call::Directory(call), Reply::Directory(reply)) => Some(
            Directory::effect(call, reply).key,
        ),
        (Call::Queue(call), Reply::Queue(reply)) => taken_item(Queue::effect(call, reply)),
        _ => None,
    }
}

/// The strength of an entry.
pub fn strength_of(entry: &Entry) -> Strength
    ensures { result ≡ strength_of entry.now }
{
    let object = entry.object;
    match (&entry.call, &entry.reply) {
        (Call::Account(call), Reply::Account(reply)) => {
            account_strength(object, Account::effect(call, reply))
        }
        (Call::Counter(call), Reply::Counter(reply)) => {
            counter_strength(object, Counter::effect(call, reply))
        }
        (Call::Set(call), Reply::Set(reply)) => set_strength(object, ItemSet::effect(call, reply)),
        (Call::Queue(call), Reply::Queue(reply)) => {
            queue_strength(object, Queue::effect(call, reply))
        }
        (Call::Directory(call), Reply::Directory(reply)) => {
            directory_strength(object, Directory::effect(call, reply))
        }
        (Call::Max(call), Reply::Max(reply)) => {
            max_strength(object, MaxRegister::effect(call, reply))
        }
        _ => digest(object, EffectKind::Mixed, 0, 0, 0, 0),
    }
}

fn account_class(effect: AccountEffect) -> Class
    ensures { result ≡ account_class effect }
{
    match effect {
        AccountEffect::Deposited(_) => Class::Deposit,
        AccountEffect::Withdrew(_) => Class::Withdrawal,
        AccountEffect::Refused(_) => Class::Refusal,
        AccountEffect::Counted(_) => Class::Balance,
        AccountEffect::Impossible => Class::Look,
    }
}

fn counter_class(effect: CounterEffect) -> Class
    ensures { result ≡ counter_class effect }
{
    match effect {
        CounterEffect::Added(_) | CounterEffect::Subtracted(_) => Class::Count,
        CounterEffect::Counted(_) | CounterEffect::Impossible => Class::Look,
    }
}

fn set_class(effect: SetEffect) -> Class
    ensures { result ≡ set_class effect }
{
    match effect {
        SetEffect::WasAdded(_) | SetEffect::WasRemoved(_) => Class::Change,
        SetEffect::WasCounted(_) => Class::Size,
        SetEffect::WasInside(_) | SetEffect::WasOutside(_) | SetEffect::Impossible => Class::Look,
    }
}

fn queue_class(effect: QueueEffect) -> Class
    ensures { result ≡ queue_class effect }
{
    match effect {
        QueueEffect::Enqueued(_) => Class::Enqueue,
        QueueEffect::Dequeued(_) => Class::Dequeue,
        QueueEffect::FoundEmpty | QueueEffect::Counted(_) => Class::Size,
        QueueEffect::Impossible => Class::Look,
    }
}

fn key_class(effect: KeyEffect) -> Class
    ensures { result ≡ key_class effect }
{
    match effect {
        KeyEffect::WasBound(_) | KeyEffect::WasUnbound => Class::Change,
        KeyEffect::WasPut(_) => Class::Put,
        KeyEffect::WasTaken => Class::Taken,
        KeyEffect::WasMissing | KeyEffect::WasFound(_) | KeyEffect::Impossible => Class::Look,
    }
}

fn max_class(effect: MaxEffect) -> Class
    ensures { result ≡ max_class effect }
{
    match effect {
        MaxEffect::Raised(_) => Class::Raise,
        MaxEffect::Counted(_) | MaxEffect::Impossible => Class::Look,
    }
}

fn taken_item(effect: QueueEffect) -> Option<Item>
    ensures { result ≡ taken_item effect }
{
    match effect {
        QueueEffect::Dequeued(item) => Some(item),
        _ => None,
    }
}

/// The item of a set that an operation is about.
pub fn set_item(effect: SetEffect) -> Option<Item>
    ensures { result ≡ set_item effect }
{
    match effect {
        SetEffect::WasAdded(item)
        | SetEffect::WasRemoved(item)
        | SetEffect::WasInside(item)
        | SetEffect::WasOutside(item) => Some(item),
        SetEffect::WasCounted(_) | SetEffect::Impossible => None,
    }
}

fn account_strength(object: u32, effect: AccountEffect) -> Strength
    ensures { result ≡ account_strength object effect }
{
    let (variant, least, most) = account_parts(effect);
    digest(object, EffectKind::Account, variant, 0, least, most)
}

fn counter_strength(object: u32, effect: CounterEffect) -> Strength
    ensures { result ≡ counter_strength object effect }
{
    digest(object, EffectKind::Counter, counter_parts(effect), 0, 0, 0)
}

fn set_strength(object: u32, effect: SetEffect) -> Strength
    ensures { result ≡ set_strength object effect }
{
    let (variant, item, size) = set_parts(effect);
    digest(object, EffectKind::Set, variant, item, size, size)
}

fn queue_strength(object: u32, effect: QueueEffect) -> Strength
    ensures { result ≡ queue_strength object effect }
{
    let (variant, item, length) = queue_parts(effect);
    digest(object, EffectKind::Queue, variant, item, length, length)
}

fn directory_strength(object: u32, effect: DirectoryEffect) -> Strength
    ensures { result ≡ directory_strength object effect }
{
    let (variant, bound) = key_parts(effect.change);
    let key = number(effect.key);
    digest(object, EffectKind::Directory, variant, key, bound, bound)
}

fn max_strength(object: u32, effect: MaxEffect) -> Strength
    ensures { result ≡ max_strength object effect }
{
    let (variant, least, most) = max_parts(effect);
    digest(object, EffectKind::Max, variant, 0, least, most)
}

/// A number of an item, which isn't 0.
fn number(item: Item) -> u64
    ensures { result ≡ item.0 + 1 }
{
    item.0 as u64 + 1
}

/// Which effect of an account it is, and its range. Of two withdrawals the smaller commutes with
/// fewer balances, of two balances the larger with fewer withdrawals.
fn account_parts(effect: AccountEffect) -> (u8, u64, u64)
    ensures { result ≡ account_parts effect }
{
    match effect {
        AccountEffect::Deposited(_) => (0, 0, 0),
        AccountEffect::Withdrew(amount) => (1, amount.get(), u64::MAX),
        AccountEffect::Refused(_) => (2, 0, 0),
        AccountEffect::Counted(balance) => (3, 0, balance),
        AccountEffect::Impossible => (4, 0, 0),
    }
}

/// Which effect of a counter it is. To add and to subtract are one.
fn counter_parts(effect: CounterEffect) -> u8
    ensures { result ≡ counter_parts effect }
{
    match effect {
        CounterEffect::Added(_) | CounterEffect::Subtracted(_) => 0,
        CounterEffect::Counted(_) => 1,
        CounterEffect::Impossible => 2,
    }
}

/// Which effect of a set it is, a number of its item or 0, and its one number or 0.
fn set_parts(effect: SetEffect) -> (u8, u64, u64)
    ensures { result ≡ set_parts effect }
{
    match effect {
        SetEffect::WasAdded(item) => (0, number(item), 0),
        SetEffect::WasRemoved(item) => (1, number(item), 0),
        SetEffect::WasInside(item) => (2, number(item), 0),
        SetEffect::WasOutside(item) => (3, number(item), 0),
        SetEffect::WasCounted(size) => (4, 0, size),
        SetEffect::Impossible => (5, 0, 0),
    }
}

/// The same of a queue.
fn queue_parts(effect: QueueEffect) -> (u8, u64, u64)
    ensures { result ≡ queue_parts effect }
{
    match effect {
        QueueEffect::Enqueued(item) => (0, 0, number(item)),
        QueueEffect::Dequeued(item) => (1, number(item), 0),
        QueueEffect::FoundEmpty => (2, 0, 0),
        QueueEffect::Counted(length) => (3, 0, length),
        QueueEffect::Impossible => (4, 0, 0),
    }
}

/// Which effect of a key it is, and a number of the item that it bound or found.
fn key_parts(effect: KeyEffect) -> (u8, u64)
    ensures { result ≡ key_parts effect }
{
    match effect {
        KeyEffect::WasBound(item) => (0, number(item)),
        KeyEffect::WasTaken => (1, 0),
        KeyEffect::WasPut(item) => (2, number(item)),
        KeyEffect::WasUnbound => (3, 0),
        KeyEffect::WasMissing => (4, 0),
        KeyEffect::WasFound(item) => (5, number(item)),
        KeyEffect::Impossible => (6, 0),
    }
}

/// Which effect of a register it is, and its range. Of two raises the larger commutes with fewer
/// tops, of two tops the smaller with fewer raises.
fn max_parts(effect: MaxEffect) -> (u8, u64, u64)
    ensures { result ≡ max_parts effect }
{
    match effect {
        MaxEffect::Raised(amount) => (0, 0, amount.get()),
        MaxEffect::Counted(top) => (1, top, u64::MAX),
        MaxEffect::Impossible => (2, 0, 0),
    }
}
