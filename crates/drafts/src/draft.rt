//! Drafts of values of any kind.
ghost use Rattle.std.specs.Prelude.{◌≡◌, ◌↔◌, IsTrue, Some, IfOk, IfSome, IsSome, IsNone, OnOk, OnErr};
ghost use Rattle.objects.specs.Objects.{kind_of_value, kind_of_call, one_value, HasRoom, KeepsItems, value_change};
ghost use Rattle.drafts.specs.History.{unchanged, changed, undone};

use crate::directory_draft::DirectoryDraft;
use crate::number_draft::NumberDraft;
use crate::queue_draft::QueueDraft;
use crate::set_draft::SetDraft;
use atoms::{Account, Counter, MaxRegister};
use objects::{Call, Kind, Reply, Value};
use serial::{Atom, NoMemory};
use std::alloc::Global;
use std::marker::Model;

/// What is kept of a value, by its kind.
#[derive(Drop)]
enum KindDraft<'s> {
    Account(NumberDraft<u64>),
    Counter(NumberDraft<i64>),
    Set(SetDraft<'s>),
    Queue(QueueDraft<'s>),
    Directory(DirectoryDraft<'s>),
    Max(NumberDraft<u64>),
}

/// What a borrowed value became, and what it was before each of its changes. Only what differs from
/// the borrowed value is kept, and the rest is read from it.
#[derive(Drop)]
pub struct Draft<'s> {
    kept: KindDraft<'s>,
}

impl<'s> Model for Draft<'s> {
    ghost use Rattle.objects.specs.declared.kind.Value.{Value as OneValue};
    ghost use Rattle.objects.specs.contracts.kind.Value as one_value_type;
    ghost use Rattle.std.specs.Coded.{codes};
    ghost use Rattle.drafts.specs.History.{History};
    ghost use Rattle.drafts.specs.Drafts.{drafted};

    ghost Value = { History OneValue };

    ghost coded = { Prim.hlevel (codes, one_value_type.the_row.coded) };

    ghost view = { λ draft. drafted draft.kept };
}

impl<'s> Draft<'s> {
    /// A draft of this value, with no change. It takes no memory, and no time that grows with the
    /// value.
    pub fn of(alloc: Global, lent: &'s Value) -> Draft<'s>
        ensures { result ≡ unchanged lent.now }
    {
        let kept = match lent {
            Value::Account(number) => KindDraft::Account(NumberDraft::of(alloc, *number)),
            Value::Counter(number) => KindDraft::Counter(NumberDraft::of(alloc, *number)),
            Value::Set(value) => KindDraft::Set(SetDraft::of(alloc, value)),
            Value::Queue(value) => KindDraft::Queue(QueueDraft::of(alloc, value)),
            Value::Directory(value) => KindDraft::Directory(DirectoryDraft::of(alloc, value)),
            Value::Max(number) => KindDraft::Max(NumberDraft::of(alloc, *number)),
        };
        Draft { kept }
    }

    /// The kind of the value.
    fn kind(&self) -> Kind
        ensures { result ≡ kind_of_value self.now.value }
    {
        match &self.kept {
            KindDraft::Account(_) => Kind::Account,
            KindDraft::Counter(_) => Kind::Counter,
            KindDraft::Set(_) => Kind::Set,
            KindDraft::Queue(_) => Kind::Queue,
            KindDraft::Directory(_) => Kind::Directory,
            KindDraft::Max(_) => Kind::Max,
        }
    }

    /// Whether the call is of the value's kind.
    pub fn fits(&self, call: &Call) -> bool
        ensures { IsTrue result ↔ (kind_of_value self.now.value ≡ kind_of_call call.now) }
    {
        self.kind() == call.kind()
    }

    /// Whether the value has room for the call: whether its numbers stay in range.
    pub fn has_room(&self, call: &Call) -> bool
        ensures { IsTrue result ↔ HasRoom self.now.value call.now }
    {
        match (&self.kept, call) {
            (KindDraft::Account(draft), Call::Account(call)) => Account::has_room(
                &draft.number,
                call,
            ),
            (KindDraft::Counter(draft), Call::Counter(call)) => Counter::has_room(
                &draft.number,
                call,
            ),
            _ => true,
        }
    }

    /// The reply of a call that leaves the value as it is, and none for a call that changes it. A
    /// put into a directory counts as one that changes it, whatever the key is bound to.
    pub fn look(&self, call: &Call) -> Option<Reply>
        ensures reply { IfSome result (λ reply. one_value.reply self.now.value call.now
            ≡ Some reply) }
        ensures same { IsSome result → one_value.after self.now.value call.now ≡ self.now.value }
        ensures answers { kind_of_value self.now.value ≡ kind_of_call call.now
            → IsNone result → IsSome (value_change self.now.value call.now) }
    {
        match (&self.kept, call) {
            (KindDraft::Account(draft), Call::Account(call)) => {
                Account::look(draft.number, call).map(Reply::Account)
            }
            (KindDraft::Counter(draft), Call::Counter(call)) => {
                Counter::look(draft.number, call).map(Reply::Counter)
            }
            (KindDraft::Set(draft), Call::Set(call)) => draft.look(call).map(Reply::Set),
            (KindDraft::Queue(draft), Call::Queue(call)) => draft.look(call).map(Reply::Queue),
            (KindDraft::Directory(draft), Call::Directory(call)) => {
                draft.look(call).map(Reply::Directory)
            }
            (KindDraft::Max(draft), Call::Max(call)) => {
                MaxRegister::look(draft.number, call).map(Reply::Max)
            }
            _ => None,
        }
    }

    /// Performs a call that changes the value, and returns its reply. On `NoMemory` the value is as
    /// before.
    pub fn perform(&mut self, call: &Call) -> Result<Reply, NoMemory>
        requires fits { kind_of_value self.old.value ≡ kind_of_call call.now }
        requires room { HasRoom self.old.value call.now }
        requires changes { IsSome (value_change self.old.value call.now) }
        ensures reply { IfOk result (λ reply. one_value.reply self.old.value call.now
            ≡ Some reply) }
        ensures ok { OnOk result (self.new ≡ changed self.old
            (one_value.after self.old.value call.now)) }
        ensures err { OnErr result (self.new ≡ self.old) }
    {
        match (&mut self.kept, call) {
            (KindDraft::Account(draft), Call::Account(call)) => {
                Ok(Reply::Account(draft.perform::<Account>(call)?))
            }
            (KindDraft::Counter(draft), Call::Counter(call)) => {
                Ok(Reply::Counter(draft.perform::<Counter>(call)?))
            }
            (KindDraft::Set(draft), Call::Set(call)) => Ok(Reply::Set(draft.perform(call)?)),
            (KindDraft::Queue(draft), Call::Queue(call)) => Ok(Reply::Queue(draft.perform(call)?)),
            (KindDraft::Directory(draft), Call::Directory(call)) => {
                Ok(Reply::Directory(draft.perform(call)?))
            }
            (KindDraft::Max(draft), Call::Max(call)) => {
                Ok(Reply::Max(draft.perform::<MaxRegister>(call)?))
            }
            _ => unreachable!(),
        }
    }

    /// Performs a call that changes the value for good, and returns its reply: no change before it
    /// can be taken back. It is never refused memory for a number. On `NoMemory` the value is as
    /// before.
    pub fn settle(&mut self, call: &Call) -> Result<Reply, NoMemory>
        requires fits { kind_of_value self.old.value ≡ kind_of_call call.now }
        requires room { HasRoom self.old.value call.now }
        requires changes { IsSome (value_change self.old.value call.now) }
        ensures reply { IfOk result (λ reply. one_value.reply self.old.value call.now
            ≡ Some reply) }
        ensures ok { OnOk result (self.new ≡ unchanged (one_value.after self.old.value call.now)) }
        ensures err { OnErr result (self.new ≡ self.old) }
        ensures refused { OnErr result (KeepsItems self.old.value) }
    {
        match (&mut self.kept, call) {
            (KindDraft::Account(draft), Call::Account(call)) => {
                Ok(Reply::Account(draft.settle::<Account>(call)?))
            }
            (KindDraft::Counter(draft), Call::Counter(call)) => {
                Ok(Reply::Counter(draft.settle::<Counter>(call)?))
            }
            (KindDraft::Max(draft), Call::Max(call)) => {
                Ok(Reply::Max(draft.settle::<MaxRegister>(call)?))
            }
            _ => {
                let reply = self.perform(call)?;
                self.forget();
                Ok(reply)
            }
        }
    }

    /// Forgets what the value was, so that no change can be taken back. It takes no memory.
    fn forget(&mut self)
        ensures { self.new ≡ unchanged self.old.value }
    {
        match &mut self.kept {
            KindDraft::Account(draft) => draft.forget(),
            KindDraft::Counter(draft) => draft.forget(),
            KindDraft::Set(draft) => draft.forget(),
            KindDraft::Queue(draft) => draft.forget(),
            KindDraft::Directory(draft) => draft.forget(),
            KindDraft::Max(draft) => draft.forget(),
        }
    }

    /// Takes the last change back, if there is one. It takes no memory.
    pub fn undo(&mut self)
        ensures { self.new ≡ undone self.old }
    {
        match &mut self.kept {
            KindDraft::Account(draft) => draft.undo(),
            KindDraft::Counter(draft) => draft.undo(),
            KindDraft::Set(draft) => draft.undo(),
            KindDraft::Queue(draft) => draft.undo(),
            KindDraft::Directory(draft) => draft.undo(),
            KindDraft::Max(draft) => draft.undo(),
        }
    }

    /// The value in memory of its own, or `NoMemory`. A number is never refused memory.
    pub fn whole(&self, alloc: Global) -> Result<Value, NoMemory>
        ensures value { IfOk result (λ whole. whole ≡ self.now.value) }
        ensures refused { OnErr result (KeepsItems self.now.value) }
    {
        match &self.kept {
            KindDraft::Account(draft) => Ok(Value::Account(draft.number)),
            KindDraft::Counter(draft) => Ok(Value::Counter(draft.number)),
            KindDraft::Set(draft) => Ok(Value::Set(draft.whole()?)),
            KindDraft::Queue(draft) => Ok(Value::Queue(draft.whole(alloc)?)),
            KindDraft::Directory(draft) => Ok(Value::Directory(draft.whole()?)),
            KindDraft::Max(draft) => Ok(Value::Max(draft.number)),
        }
    }
}
