//! Entries with their marks: all of them, or a summary.
ghost use Rattle.std.specs.Prelude.{◌≡◌, ◌<◌, ◌≤◌, ◌++◌, ◌∷◌, [], List, length, get_or, IfOk, IfSome, IsTrue, OnOk};
ghost use Rattle.objects.specs.declared.entry.Entry.{Entry as OneEntry};
ghost use Rattle.committed.specs.Spans.{AreIn};
ghost use Rattle.conflicts.specs.Strictness.{strength_of};
ghost use Rattle.committed.specs.Summaries.{entries_of, strengths_of, HasMore, AreCovered, IsSummary};

use crate::marks::MarkedEntry;
use crate::span::Span;
use conflicts::{Measured, Strength, Topic, are_as_strict};
use indexmap::IndexMap;
use objects::{Entry, EntryHashing};
use serial::NoMemory;
use std::alloc::Global;
use std::mem::replace;

/// For how many entries a summary has room at first.
const ROOM: usize = 32;

/// Up to how many entries a summary keeps all of them. For so few a table costs more than it saves.
pub const FEW_ENTRIES: usize = 32;

/// How many slots a table has for so many entries or more.
const MANY_SLOTS: usize = 1024;

/// How many it has for fewer.
const FEW_SLOTS: usize = 32;

/// The entries with their marks, in order. Returns `NoMemory` where a request for memory was
/// refused.
pub fn mark_all(alloc: Global, entries: &[Entry]) -> Result<Vec<MarkedEntry>, NoMemory>
    ensures { IfOk result (λ marked. entries_of marked.items ≡ entries.now) }
{
    let mut marked = Vec::new(alloc);
    mark_into(entries, &mut marked)?;
    Ok(marked)
}

// Puts the entries with their marks, in order, into the list, in place of what it had. Returns
// between which objects they are.
fn mark_into(entries: &[Entry], marked: &mut Vec<MarkedEntry>) -> Result<Span, NoMemory>
    ensures marked { OnOk result (entries_of marked.new.items ≡ entries.now) }
    ensures span { IfOk result (λ span. AreIn span entries.now) }
{
    marked.clear();
    marked.reserve_exact(entries.len())?;
    let mut span = Span::none();
    for entry in entries {
        marked.push_reserved(MarkedEntry::of(entry));
        span.add(entry.object);
    }
    Ok(span)
}

/// Puts a summary of the entries into the list, in place of what it had: what commutes forward with
/// all of the summary commutes forward with all of these, and the other way round.
///
/// An entry is left out where two that are kept with its topic (object and item, or object and
/// effect where there is no item) are as strict. So it mostly has an entry or two for each topic,
/// and a run of many operations on one object is checked and listed by a few entries. A few entries
/// are all kept, in their order.
///
/// Returns between which objects all of the entries are, or `NoMemory` where a request for memory
/// was refused. The list is of no further use then.
pub fn summarize(
    alloc: Global,
    hashing: EntryHashing,
    entries: &[Entry],
    summary: &mut Vec<MarkedEntry>,
) -> Result<Span, NoMemory>
    ensures summary { OnOk result (IsSummary (entries_of summary.new.items) entries.now) }
    ensures few { OnOk result (length entries.now ≤ FEW_ENTRIES
        → entries_of summary.new.items ≡ entries.now) }
    ensures span { IfOk result (λ span. AreIn span entries.now) }
{
    if entries.len() <= FEW_ENTRIES {
        return mark_into(entries, summary);
    }
    let spare = replace(summary, Vec::new(alloc));
    let mut table = Table::new(alloc, hashing, entries.len(), spare)?;
    let mut span = Span::none();
    for entry in entries {
        table.add(entry)?;
        span.add(entry.object);
    }
    *summary = table.summary;
    Ok(span)
}

/// Where a summary has the two entries that were last put in it with one topic.
#[derive(Clone, Copy)]
struct Places {
    last: usize,
    before: usize,
}

/// A summary, and where it has entries of each topic. The places only save looks: an entry is
/// left out or replaced after it is compared with those at the places.
#[derive(Drop)]
struct Table {
    places: IndexMap<Topic, Places, EntryHashing>,
    /// In the slot of a topic the place of the entry that was last found or put there, mostly one
    /// of that topic. It is a guess: nothing is left out by it without a comparison.
    slots: Vec<usize>,
    summary: Vec<MarkedEntry>,
    /// The strengths of the entries of the summary.
    strengths: Vec<Strength>,
    ghost told: { strengths.items ≡ strengths_of summary.items },
}

impl Table {
    /// A table for so many entries, and an empty summary in the memory of the spare list.
    fn new(
        alloc: Global,
        hashing: EntryHashing,
        count: usize,
        spare: Vec<MarkedEntry>,
    ) -> Result<Table, NoMemory>
        ensures { IfOk result (λ table. table.summary.items ≡ []) }
    {
        let mut summary = spare;
        summary.clear();
        let room = count.min(ROOM);
        summary.reserve_exact(room)?;
        let strengths = Vec::with_capacity(alloc, room)?;
        let slots = if count < MANY_SLOTS {
            FEW_SLOTS
        } else {
            MANY_SLOTS
        };
        Ok(Table {
            places: IndexMap::with_capacity_and_hasher(alloc, room, hashing)?,
            slots: vec![in alloc; 0; slots]?,
            summary,
            strengths,
        })
    }

    /// Adds an entry, unless the one at the place in the slot of its topic is as strict, or the two
    /// at the places of its topic are. Where the earlier of these is as strict with it as with the
    /// later, it takes the place of the later.
    fn add(&mut self, entry: &Entry) -> Result<(), NoMemory>
        ensures { OnOk result ((entries : List OneEntry)
            → IsSummary (entries_of self.old.summary.items) entries
            → IsSummary (entries_of self.new.summary.items) (entries ++ entry.now ∷ [])) }
    {
        let strength = Strength::of(entry);
        if self.covers(&strength) {
            return Ok(());
        }
        let topic = strength.topic();
        let places = self.places(&topic);
        if let Some(found) = places {
            self.note(&topic, found.last);
            let later = self.measured(found.last);
            let earlier = self.measured(found.before);
            let own = Measured {
                entry,
                strength: &strength,
            };
            if are_as_strict(earlier, later, own) {
                return Ok(());
            }
            if found.before < found.last && are_as_strict(earlier, own, later) {
                self.summary[found.last] = MarkedEntry::of(entry);
                self.strengths[found.last] = strength;
                return Ok(());
            }
        }
        self.put(entry, strength, places)?;
        Ok(())
    }

    /// Puts an entry at the end. The two that were last put there with its topic are at these
    /// places.
    fn put(
        &mut self,
        entry: &Entry,
        strength: Strength,
        places: Option<Places>,
    ) -> Result<(), NoMemory>
        requires { strength ≡ strength_of entry.now }
        ensures { OnOk result (HasMore self.old.summary.items entry.now self.new.summary.items) }
    {
        self.summary.reserve(1)?;
        self.strengths.reserve(1)?;
        let last = self.summary.len();
        let before = places.map_or(last, |places| places.last);
        let topic = strength.topic();
        self.places.insert(topic, Places { last, before })?;
        self.note(&topic, last);
        self.summary.push_reserved(MarkedEntry::of(entry));
        self.strengths.push_reserved(strength);
        Ok(())
    }

    /// Whether the entry at the place in the slot of a strength's topic is known to be as strict as
    /// each entry of this strength.
    fn covers(&self, strength: &Strength) -> bool
        ensures { IsTrue result → AreCovered (entries_of self.now.summary.items) strength.now }
    {
        let slot = strength.topic().slot(self.slots.len());
        let Some(&place) = self.slots.get(slot) else {
            return false;
        };
        match self.strengths.get(place) {
            Some(found) => found.covers(strength),
            None => false,
        }
    }

    /// Puts the place of an entry into the slot of its topic.
    fn note(&mut self, topic: &Topic, place: usize)
        ensures entries { self.new.summary ≡ self.old.summary }
        ensures strengths { self.new.strengths ≡ self.old.strengths }
    {
        let slot = topic.slot(self.slots.len());
        if let Some(slot) = self.slots.get_mut(slot) {
            *slot = place;
        }
    }

    /// The places of a topic, which the summary has.
    fn places(&self, topic: &Topic) -> Option<Places>
        ensures ordered { IfSome result (λ found. found.before ≤ found.last) }
        ensures within { IfSome result (λ found. found.last < length self.now.summary.items) }
    {
        let places = *self.places.get(topic)?;
        if places.before <= places.last && places.last < self.summary.len() {
            Some(places)
        } else {
            None
        }
    }

    /// The entry at this place of the summary.
    fn measured(&self, place: usize) -> Measured<'_>
        requires { place < length self.now.summary.items }
        ensures { (other : OneEntry)
            → get_or (entries_of self.now.summary.items) place other ≡ result.entry.now }
    {
        Measured {
            entry: &self.summary[place].entry,
            strength: &self.strengths[place],
        }
    }
}
