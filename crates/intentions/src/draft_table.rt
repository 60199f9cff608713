//! The table of drafts: by object, the draft of each object that was changed.
ghost use Rattle.std.specs.Prelude.{◌≡◌, ◌<◌, ℕ, List, length, None, Some, IsSomeAnd, IfSome, IfOk, IsSome, OnOk, OnErr, unwrap_or, option_and_then};
ghost use Rattle.objects.specs.Objects.{kind_of_value, kind_of_call, one_value, HasRoom, value_change};
ghost use Rattle.objects.specs.declared.kind.Value.{Value};
ghost use Rattle.drafts.specs.Shown.{shown_value};
ghost use Rattle.drafts.specs.History.{unchanged, changed};
ghost use Rattle.intentions.specs.DraftTables.{drafts_of, draft_at, IsPut, IsPlaceOf};
ghost use Rattle.intentions.specs.Layers.{histories, undo_at};

use crate::places::PagedPlaces;
use drafts::{Draft, ShownValue};
use objects::{Call, Reply, Value};
use serial::NoMemory;
use std::alloc::Global;

/// A draft, with the object that it is of.
#[derive(Drop)]
struct Drafted<'s> {
    object: u32,
    draft: Draft<'s>,
}

/// The drafts of objects, as a sparse set (P. Briggs and L. Torczon, "An efficient representation
/// for sparse sets", 1993). It is emptied at once, and keeps its memory.
#[derive(Drop)]
pub struct DraftTable<'s> {
    /// The place of each object's draft. Where that place is past the end, or has another object's
    /// draft, the object has none.
    places: PagedPlaces,
    drafts: Vec<Drafted<'s>>,
}

impl<'s> DraftTable<'s> {
    /// A table with no draft, in the memory of these places. It takes no other memory.
    pub fn new(alloc: Global, places: PagedPlaces) -> DraftTable<'s>
        ensures { (object : ℕ) → drafts_of result object ≡ None }
    {
        // Without drafts, all places are stale.
        DraftTable {
            places,
            drafts: Vec::new(alloc),
        }
    }

    /// The memory of its places.
    pub fn into_places(self) -> PagedPlaces {
        self.places
    }

    /// Frees all drafts. This takes no time that grows with the number of objects.
    pub fn clear(&mut self)
        ensures { (object : ℕ) → drafts_of self.new object ≡ None }
    {
        // The places are stale from now on.
        self.drafts.clear();
    }

    /// The place of the draft of the object, if it has one.
    pub fn place(&self, object: u32) -> Option<usize>
        ensures found { IfSome result (λ place. IsPlaceOf self.now object place) }
        ensures draft { option_and_then (draft_at self.now) result ≡ drafts_of self.now object }
    {
        let place = self.places.get(object)?;
        let drafted = self.drafts.get(place)?;
        if drafted.object == object {
            Some(place)
        } else {
            None
        }
    }

    /// The draft that was found, or else the borrowed value.
    pub fn shown(&self, found: Option<usize>, lent: &'s Value) -> ShownValue<'_, 's>
        requires { IfSome found (λ place. IsSome (draft_at self.now place)) }
        ensures { shown_value result ≡ (unwrap_or (option_and_then (draft_at self.now) found)
            (unchanged lent.now)).value }
    {
        match found {
            Some(place) => ShownValue::Changed(&self.drafts[place].draft),
            None => ShownValue::Lent(lent),
        }
    }

    /// The place that was found, or else that of a new draft of the borrowed value. On `NoMemory`
    /// the table is unchanged.
    pub fn found_or_new(
        &mut self,
        alloc: Global,
        found: Option<usize>,
        object: u32,
        lent: &'s Value,
    ) -> Result<usize, NoMemory>
        requires found { IfSome found (λ place. IsPlaceOf self.old object place) }
        requires draft { option_and_then (draft_at self.old) found ≡ drafts_of self.old object }
        ensures place { IfOk result (λ place. IsPlaceOf self.new object place) }
        ensures ok { OnOk result (IsPut (drafts_of self.old) (drafts_of self.new) object
            (unwrap_or (drafts_of self.old object) (unchanged lent.now))) }
        ensures err { OnErr result ((q : ℕ) → drafts_of self.new q ≡ drafts_of self.old q) }
    {
        match found {
            Some(place) => Ok(place),
            None => self.add(alloc, object, lent),
        }
    }

    /// Makes a draft of the borrowed value, for an object without one, and returns its place. On
    /// `NoMemory` the table is unchanged.
    fn add(&mut self, alloc: Global, object: u32, lent: &'s Value) -> Result<usize, NoMemory>
        ensures place { IfOk result (λ place. IsPlaceOf self.new object place) }
        ensures ok { OnOk result (IsPut (drafts_of self.old) (drafts_of self.new) object
            (unchanged lent.now)) }
        ensures err { OnErr result ((q : ℕ) → drafts_of self.new q ≡ drafts_of self.old q) }
    {
        let place = self.drafts.len();
        // The place past the end has no draft.
        self.places.reach(alloc, object, place)?;
        let draft = Draft::of(alloc, lent);
        self.drafts.push(Drafted { object, draft })?;
        self.places.set(object, place);
        Ok(place)
    }

    /// Performs a call that changes the draft at this place, and returns its reply. On `NoMemory`
    /// the draft is as before.
    pub fn perform_at(&mut self, place: usize, call: &Call) -> Result<Reply, NoMemory>
        requires fits { IsSomeAnd (draft_at self.old place) (λ h. kind_of_value h.value
            ≡ kind_of_call call.now) }
        requires room { IfSome (draft_at self.old place) (λ h. HasRoom h.value call.now) }
        requires changes { IfSome (draft_at self.old place) (λ h.
            IsSome (value_change h.value call.now)) }
        ensures reply { IfOk result (λ reply. IfSome (draft_at self.old place) (λ h.
            one_value.reply h.value call.now ≡ Some reply)) }
        ensures ok { OnOk result ((object : ℕ) → IsPlaceOf self.old object place
            → IfSome (draft_at self.old place) (λ h.
            IsPut (drafts_of self.old) (drafts_of self.new) object (changed h
            (one_value.after h.value call.now)))) }
        ensures err { OnErr result ((q : ℕ) → drafts_of self.new q ≡ drafts_of self.old q) }
    {
        self.drafts[place].draft.perform(call)
    }

    /// Performs a call as `perform_at` does, for good: no change of the draft before it can be
    /// taken back. This takes no memory for a number.
    pub fn settle_at(&mut self, place: usize, call: &Call) -> Result<Reply, NoMemory>
        requires fits { IsSomeAnd (draft_at self.old place) (λ h. kind_of_value h.value
            ≡ kind_of_call call.now) }
        requires room { IfSome (draft_at self.old place) (λ h. HasRoom h.value call.now) }
        requires changes { IfSome (draft_at self.old place) (λ h.
            IsSome (value_change h.value call.now)) }
        ensures reply { IfOk result (λ reply. IfSome (draft_at self.old place) (λ h.
            one_value.reply h.value call.now ≡ Some reply)) }
        ensures ok { OnOk result ((object : ℕ) → IsPlaceOf self.old object place
            → IfSome (draft_at self.old place) (λ h.
            IsPut (drafts_of self.old) (drafts_of self.new) object (unchanged
            (one_value.after h.value call.now)))) }
        ensures err { OnErr result ((q : ℕ) → drafts_of self.new q ≡ drafts_of self.old q) }
    {
        self.drafts[place].draft.settle(call)
    }

    /// Takes the last change of the object back. It takes no memory.
    pub fn undo(&mut self, object: u32)
        ensures { (snapshot : List Value) → histories snapshot (drafts_of self.new)
            ≡ undo_at (histories snapshot (drafts_of self.old)) object }
    {
        if let Some(place) = self.place(object) {
            self.drafts[place].draft.undo();
        }
    }
}
