//! Values as a reader sees them: borrowed as they were, or as drafts.
ghost use Rattle.std.specs.Prelude.{◌≡◌, ◌↔◌, IsTrue, Some, IfOk, IfSome, IsSome, IsNone, OnErr};
ghost use Rattle.objects.specs.Objects.{kind_of_value, kind_of_call, one_value, HasRoom, KeepsItems, value_change};
ghost use Rattle.drafts.specs.Shown.{shown_value};

use crate::Draft;
use objects::{Call, Reply, Value};
use serial::NoMemory;
use std::alloc::Global;

/// A borrowed value with no change, or a draft of one.
#[derive(Clone, Copy)]
pub enum ShownValue<'a, 's> {
    Lent(&'s Value),
    Changed(&'a Draft<'s>),
}

impl<'a, 's> ShownValue<'a, 's> {
    /// Whether the call is of the value's kind.
    pub fn fits(&self, call: &Call) -> bool
        ensures { IsTrue result ↔ (kind_of_value (shown_value self.now) ≡ kind_of_call call.now) }
    {
        match self {
            ShownValue::Lent(value) => value.fits(call),
            ShownValue::Changed(draft) => draft.fits(call),
        }
    }

    /// Whether the value has room for the call: whether its numbers stay in range.
    pub fn has_room(&self, call: &Call) -> bool
        requires { kind_of_value (shown_value self.now) ≡ kind_of_call call.now }
        ensures { IsTrue result ↔ HasRoom (shown_value self.now) call.now }
    {
        match self {
            ShownValue::Lent(value) => value.has_room(call),
            ShownValue::Changed(draft) => draft.has_room(call),
        }
    }

    /// The reply of a call that leaves the value as it is, and none for a call that changes it. A
    /// put into a directory counts as one that changes it, whatever the key is bound to. It takes
    /// no memory.
    pub fn look(&self, alloc: Global, call: &Call) -> Option<Reply>
        ensures reply { IfSome result (λ reply. one_value.reply (shown_value self.now) call.now
            ≡ Some reply) }
        ensures same { IsSome result → one_value.after (shown_value self.now) call.now
            ≡ shown_value self.now }
        ensures answers { kind_of_value (shown_value self.now) ≡ kind_of_call call.now
            → IsNone result → IsSome (value_change (shown_value self.now) call.now) }
    {
        match self {
            ShownValue::Lent(value) => Draft::of(alloc, *value).look(call),
            ShownValue::Changed(draft) => draft.look(call),
        }
    }

    /// The value in memory of its own, or `NoMemory`. A number is never refused memory.
    pub fn whole(&self, alloc: Global) -> Result<Value, NoMemory>
        ensures value { IfOk result (λ whole. whole ≡ shown_value self.now) }
        ensures refused { OnErr result (KeepsItems (shown_value self.now)) }
    {
        match self {
            ShownValue::Lent(value) => value.copy(),
            ShownValue::Changed(draft) => draft.whole(alloc),
        }
    }
}
