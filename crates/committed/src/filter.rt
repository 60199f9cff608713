//! A filter of listed entries. It says of most other entries at once that they commute with all
//! listed ones (after B. H. Bloom, "Space/time trade-offs in hash coding with allowable errors",
//! 1970).
ghost use Rattle.std.specs.Prelude.{◌≡◌, ◌-◌, ℕ, [], length, IfOk, OnErr};
ghost use Rattle.objects.specs.declared.entry.Entry.{Entry as OneEntry};
ghost use Rattle.committed.specs.Marks.{mark_of};
ghost use Rattle.committed.specs.Filter.{slot_of, set_at, HasAll, IsMarked, IsFilterOf, Meets};

use crate::marks::Mark;
use conflicts::Class;
use objects::Entry;
use serial::NoMemory;
use std::alloc::Global;

/// How many sets a filter has at first.
const FEWEST: usize = 1024;

/// How many sets it grows to.
const MOST: usize = 1048576;

/// How many sets are emptied in the time in which the sets of an entry are found.
const SETS_FOR_AN_ENTRY: usize = 128;

/// For each object, and for each item of an object, the classes of the entries about it. A set may
/// have more classes, since others share it.
#[derive(Drop)]
pub struct Filter {
    /// Sets of classes, as bits, at hashes of object and item. Their number is a power of two.
    sets: Vec<u16>,
}

impl Filter {
    /// A filter that has no entry, and clears none. It takes no memory.
    pub fn new(alloc: Global) -> Filter
        ensures { IsFilterOf [] result }
    {
        Filter {
            sets: Vec::new(alloc),
        }
    }

    /// Makes room, so that it still clears most entries after so many more are marked. On
    /// `NoMemory` the filter is as before.
    pub fn reserve(&mut self, entries: &[Entry], more: usize) -> Result<(), NoMemory>
        requires { IsFilterOf entries.now self.old }
        ensures filter { IsFilterOf entries.now self.new }
        ensures err { OnErr result (self.new ≡ self.old) }
    {
        let wanted = entries.len().saturating_add(more);
        let mut size = FEWEST.max(self.sets.len());
        while size < MOST && size / 32 <= wanted {
            size *= 4;
        }
        if size > self.sets.len() {
            *self = Filter::of(*self.sets.allocator(), entries, size)?;
        }
        Ok(())
    }

    /// A filter of entries, with this many sets.
    fn of(alloc: Global, entries: &[Entry], size: usize) -> Result<Filter, NoMemory>
        ensures { IfOk result (IsFilterOf entries.now) }
    {
        let mut filter = Filter {
            sets: vec![in alloc; 0u16; size]?,
        };
        for entry in entries {
            filter.mark(&Mark::of(entry));
        }
        Ok(filter)
    }

    /// Puts the class of the entries with this mark into their sets.
    pub fn mark(&mut self, mark: &Mark)
        ensures own { (entry : OneEntry) → mark.now ≡ mark_of entry → IsMarked self.new entry }
        ensures kept { (entry : OneEntry) → IsMarked self.old entry → IsMarked self.new entry }
    {
        self.insert(mark.of_object, mark.class);
        self.insert(mark.of_item, mark.class);
    }

    /// Puts classes into the set of a hash.
    fn insert(&mut self, hash: u32, classes: u16)
        ensures own { HasAll self.new hash classes }
        ensures kept { (other more : ℕ) → HasAll self.old other more → HasAll self.new other more }
    {
        let slot = self.slot(hash);
        if let Some(set) = self.sets.get_mut(slot) {
            *set |= classes;
        }
    }

    /// Takes all classes out of the sets of these entries. Where they are all that it has, each set
    /// is empty then. It costs no more than marking them did, however many sets there are. Where the
    /// entries are many, all sets are emptied.
    pub fn clear(&mut self, entries: &[Entry])
        ensures { IsFilterOf [] self.new }
    {
        if self.sets.len() / SETS_FOR_AN_ENTRY <= entries.len() {
            self.sets.fill(0);
            return;
        }
        for entry in entries {
            let mark = Mark::of(entry);
            self.empty(mark.of_object);
            self.empty(mark.of_item);
        }
    }

    /// Takes all classes out of the set of a hash.
    fn empty(&mut self, hash: u32) {
        let slot = self.slot(hash);
        if let Some(set) = self.sets.get_mut(slot) {
            *set = 0;
        }
    }

    /// The set of the classes of marked entries with which an entry with this mark may conflict.
    /// The set of its object has the classes of all entries about the object, so it is looked at
    /// first.
    pub fn met(&self, mark: &Mark) -> u16
        ensures { (entry other : OneEntry) → mark.now ≡ mark_of entry → IsMarked self.now other
            → Meets result entry other }
    {
        let met = self.set(mark.of_object) & mark.conflicts;
        let by_item = Class::by_item();
        if met & by_item == 0 {
            return met;
        }
        met & (self.set(mark.of_item) | !by_item)
    }

    /// Whether an entry of the same class and with the same hashes may be marked.
    pub fn may_have(&self, mark: &Mark) -> bool {
        let met = self.set(mark.of_object) & self.set(mark.of_item);
        met & mark.class == mark.class
    }

    /// The classes that entries with this hash may have.
    fn set(&self, hash: u32) -> u16
        ensures { result ≡ set_at self.now hash }
    {
        match self.sets.get(self.slot(hash)) {
            Some(set) => *set,
            None => u16::MAX,
        }
    }

    /// The place of the set of a hash.
    fn slot(&self, hash: u32) -> usize
        ensures { result ≡ slot_of (length self.now.sets.items) hash }
    {
        hash as usize & self.sets.len().saturating_sub(1)
    }
}
