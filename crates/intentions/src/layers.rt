//! Drafts of changed values over a snapshot, in levels.
ghost use Rattle.std.specs.Prelude.{◌≡◌, ◌<◌, ◌≤◌, List, [], ◌∷◌, length, reverse, slice_get, Some, IfOk, OnOk, OnErr, take, drop, option_map};
ghost use Rattle.drafts.specs.Shown.{shown_value};
ghost use Rattle.objects.specs.Objects.{objects, Fits, ObjectHasRoom};
ghost use Rattle.intentions.specs.Levels.{AllHaveRoom};
ghost use Rattle.objects.specs.Entries.{after, AreLegal};
ghost use Rattle.objects.specs.declared.kind.Value.{Value};
ghost use Rattle.intentions.specs.DraftTables.{drafts_of};
ghost use Rattle.intentions.specs.Layers.{States, histories, drafts_rewound};

use crate::draft_table::DraftTable;
use crate::places::PagedPlaces;
use drafts::ShownValue;
use objects::{Call, Entry, Objects, Reply};
use serial::NoMemory;
use std::alloc::Global;
use std::marker::Model;

/// The values of a snapshot, and what was changed since, by levels.
#[derive(Drop)]
pub struct Layers<'s> {
    snapshot: &'s Objects,
    /// A draft of each object that was changed. It stays after its changes are taken back.
    drafts: DraftTable<'s>,
    /// The object of each change that was made in a level, the earliest first. The first change
    /// after the last level was closed empties it.
    journal: Vec<u32>,
    /// For each open level, how long the journal was when it was opened.
    starts: Vec<usize>,
}

impl<'s> Model for Layers<'s> {
    ghost use Rattle.std.specs.Prelude.{List, length, reverse};
    ghost use Rattle.objects.specs.declared.kind.Value.{Value as OneValue};
    ghost use Rattle.std.specs.Coded.{coded_list, coded×, code_by};
    ghost use Rattle.std.proofs.Common.{refl};
    ghost use Rattle.objects.specs.contracts.kind.Value as one_value_type;
    ghost use Rattle.intentions.specs.Layers.{States};

    ghost Value = { States };

    ghost coded = { code_by (List OneValue × List (List OneValue)) (coded× (coded_list one_value_type.the_row.coded) (coded_list (coded_list one_value_type.the_row.coded))) (λ s. (s.shown, s.begun)) (λ p. record { shown = p.0; begun = p.1 }) (λ _. refl) };

    ghost use Rattle.intentions.specs.Starts.{IsNested};
    ghost use Rattle.intentions.specs.DraftTables.{drafts_of};
    ghost use Rattle.intentions.specs.Layers.{layered, histories};

    ghost view = { λ layers. layered (histories layers.snapshot.now (drafts_of layers.drafts)) (reverse layers.starts.items) layers.journal.items };

    ghost invariant = { λ layers. IsNested (reverse layers.starts.items) (length layers.journal.items) };
}

impl<'s> Layers<'s> {
    /// Layers that show the snapshot, with no level, in the memory of these places.
    pub fn open(alloc: Global, snapshot: &'s Objects, places: PagedPlaces) -> Layers<'s>
        ensures { result ≡ record { shown = snapshot.now; begun = [] } }
    {
        Layers {
            snapshot,
            drafts: DraftTable::new(alloc, places),
            journal: Vec::new(alloc),
            starts: Vec::new(alloc),
        }
    }

    /// The memory of its places.
    pub fn into_places(self) -> PagedPlaces {
        self.drafts.into_places()
    }

    /// Shows this snapshot, with no level, as if it had just been opened. The lists keep their
    /// memory.
    pub fn restart(&mut self, snapshot: &'s Objects)
        ensures { self.new ≡ record { shown = snapshot.now; begun = [] } }
    {
        self.snapshot = snapshot;
        self.drafts.clear();
        self.journal.clear();
        self.starts.clear();
    }

    /// What is shown of the object, if it is there.
    pub fn value(&self, object: u32) -> Option<ShownValue<'_, 's>>
        ensures { option_map shown_value result ≡ slice_get self.now.shown object }
    {
        match self.snapshot.value(object) {
            Some(lent) => Some(self.drafts.shown(self.drafts.place(object), lent)),
            None => None,
        }
    }

    /// Performs a call on the object, and returns its reply. The first change of an object makes a
    /// draft of it, which copies nothing. With no level open, what the object was before is not
    /// kept.
    pub fn perform(&mut self, object: u32, call: &Call) -> Result<Reply, NoMemory>
        requires fits { Fits self.old.shown object call.now }
        requires room { ObjectHasRoom self.old.shown object call.now }
        ensures reply { IfOk result (λ reply. objects.reply self.old.shown (object, call.now)
            ≡ Some reply) }
        ensures ok { OnOk result (self.new ≡ record self.old {
          shown = objects.after self.old.shown
              (object, call.now);
        }) }
        ensures err { OnErr result (self.new ≡ self.old) }
    {
        let Some(lent) = self.snapshot.value(object) else {
            unreachable!()
        };
        let alloc = *self.starts.allocator();
        let found = self.drafts.place(object);
        if let Some(reply) = self.drafts.shown(found, lent).look(alloc, call) {
            return Ok(reply);
        }
        let place = self.drafts.found_or_new(alloc, found, object, lent)?;
        if self.starts.is_empty() {
            // No open level could take a change back.
            self.journal.clear();
            return self.drafts.settle_at(place, call);
        }
        self.journal.reserve(1)?;
        let reply = self.drafts.perform_at(place, call)?;
        self.journal.push_reserved(object);
        Ok(reply)
    }

    /// Performs the calls of entries, one after the other. On `NoMemory` some may have been
    /// performed.
    fn perform_all(&mut self, entries: &[Entry]) -> Result<(), NoMemory>
        requires legal { AreLegal self.old.shown entries.now }
        requires room { AllHaveRoom self.old.shown entries.now }
        ensures ok { OnOk result (self.new.shown ≡ after self.old.shown entries.now) }
        ensures levels { self.new.begun ≡ self.old.begun }
    {
        for entry in entries {
            let _reply = self.perform(entry.object, &entry.call)?;
        }
        Ok(())
    }

    /// Performs the calls of all the entries or, on `NoMemory`, of none.
    pub fn perform_whole(&mut self, entries: &[Entry]) -> Result<(), NoMemory>
        requires legal { AreLegal self.old.shown entries.now }
        requires room { AllHaveRoom self.old.shown entries.now }
        ensures ok { OnOk result (self.new ≡ record self.old {
          shown = after self.old.shown
              entries.now;
        }) }
        ensures err { OnErr result (self.new ≡ self.old) }
    {
        self.begin()?;
        match self.perform_all(entries) {
            Ok(()) => {
                self.commit();
                Ok(())
            }
            Err(error) => {
                self.abort();
                Err(error)
            }
        }
    }

    /// A copy of what is shown, where these are all the objects.
    pub fn state(&self, alloc: Global, count: u32) -> Result<Objects, NoMemory>
        requires { count ≡ length self.now.shown }
        ensures { IfOk result (λ state. state ≡ self.now.shown) }
    {
        let mut state = Objects::new(alloc);
        for object in 0..count {
            match self.value(object) {
                Some(value) => state.push(value.whole(alloc)?)?,
                None => unreachable!(),
            }
        }
        Ok(state)
    }

    /// Opens a level.
    pub fn begin(&mut self) -> Result<(), NoMemory>
        ensures ok { OnOk result (self.new ≡ record self.old {
          begun = self.old.shown
              ∷ self.old.begun;
        }) }
        ensures err { OnErr result (self.new ≡ self.old) }
    {
        self.starts.push(self.journal.len())?;
        Ok(())
    }

    /// Makes the innermost level part of the one around it.
    pub fn commit(&mut self)
        requires { 0 < length self.old.begun }
        ensures { self.new ≡ record self.old { begun = drop 1 self.old.begun } }
    {
        // In the journal, the level's changes come after those of the level around it.
        let Some(_start) = self.starts.pop() else {
            unreachable!()
        };
    }

    /// Takes back all that was done since the innermost level was opened, and closes it.
    pub fn abort(&mut self)
        requires { 0 < length self.old.begun }
        ensures { self.old.begun ≡ self.new.shown ∷ self.new.begun }
    {
        let Some(start) = self.starts.pop() else {
            unreachable!()
        };
        undo_from(&mut self.drafts, &mut self.journal, start);
    }
}

/// Takes back the changes from this place of the journal on, the last first. It takes no memory.
fn undo_from(drafts: &mut DraftTable<'_>, journal: &mut Vec<u32>, start: usize)
    requires { start ≤ length journal.old.items }
    ensures drafts { (snapshot : List Value) → histories snapshot (drafts_of drafts.new)
        ≡ drafts_rewound (histories snapshot (drafts_of drafts.old)) (reverse
        (drop start journal.old.items)) }
    ensures journal { journal.new.items ≡ take start journal.old.items }
{
    while journal.len() > start {
        if let Some(object) = journal.pop() {
            drafts.undo(object);
        }
    }
}
