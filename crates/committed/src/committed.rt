//! The list of committed entries, against which other entries are checked.
ghost use Rattle.std.specs.Prelude.{◌≡◌, ◌↔◌, ◌+◌, ◌<◌, ◌≤◌, ℕ, [], ◌++◌, ◌∷◌, length, take, slice_index_or, vec_len, vec_capacity, IsTrue, IfOk, OnOk, OnErr};
ghost use Rattle.objects.specs.declared.entry.Entry.{Entry as OneEntry};
ghost use Rattle.objects.specs.Entries.{CommutesWith, AllCommute, CommuteForward};
ghost use Rattle.committed.specs.Marks.{mark_of};
ghost use Rattle.committed.specs.Summaries.{entries_of, IsCovered, IsSummary};
ghost use Rattle.committed.specs.Filter.{IsFilterOf, Meets};

use crate::filter::Filter;
use crate::heading::Heading;
use crate::index::Index;
use crate::marks::{Mark, MarkedEntry};
use crate::summary::mark_all;
use conflicts::Class;
use objects::{Entry, EntryHashing, commute};
use serial::NoMemory;
use std::alloc::Global;
use std::marker::Model;

/// Listing an entry in the index takes about as long as so many comparisons.
const LISTING: usize = 16;

/// How many comparisons are too few for an index, however few entries there are.
const FEW_COMPARISONS: usize = 1024;

/// For how many comparisons an entry counts that may be in the list already. An index would leave it
/// out. So the list gets its index where more than half of its entries may have been there before.
const REPEATED: usize = 32;

/// For how many links of its index a list may have memory that is kept when it is cleared.
const MOST_LINKS: usize = 1024;

/// For how many it may where it has many entries, for each of them.
const LINKS_FOR_AN_ENTRY: usize = 8;

/// The entries that committed runs leave, in the order in which they are committed, with an index
/// by object, item and class. Entries that commute forward with all that was committed since their
/// snapshot have the same replies after it (Weihl 1988).
///
/// An entry is compared with entries of its own object, and of its own item where the class asks
/// for it. It is compared with none of a class that it always commutes with, and in a span of a
/// chain only with the strictest. A filter clears most entries, with nothing to compare. Entries are
/// listed in the index once this pays. Until then an entry is compared with each of them.
#[derive(Drop)]
pub struct Committed {
    entries: Vec<Entry>,
    /// Finds the entries that an entry may not commute with.
    index: Index,
    /// Clears most of the entries that commute forward with all listed ones.
    filter: Filter,
    /// About how many comparisons an index of all entries would have saved since entries were last
    /// listed there.
    spent: usize,
}

impl Model for Committed {
    ghost use Rattle.std.specs.Prelude.{List};
    ghost use Rattle.objects.specs.declared.entry.Entry.{Entry as OneEntry};
    ghost use Rattle.std.specs.Coded.{coded_list};
    ghost use Rattle.objects.specs.contracts.entry.Entry as one_entry_type;

    ghost Value = { List OneEntry };

    ghost coded = { coded_list one_entry_type.the_row.coded };

    ghost view = { λ committed. committed.entries.items };

    ghost use Rattle.committed.specs.Index.{IsIndexOf};
    ghost use Rattle.committed.specs.Filter.{IsFilterOf};

    ghost invariant = { λ committed. record {
      index : IsIndexOf committed.entries.items committed.index;
      filter : IsFilterOf committed.entries.items committed.filter;
    } };
}

impl Committed {
    /// An empty list. It takes no memory.
    pub fn new(alloc: Global) -> Self
        ensures { result ≡ [] }
    {
        Committed::hashed_by(alloc, EntryHashing::of(0))
    }

    /// An empty list, whose tables are hashed so. It takes no memory.
    pub fn hashed_by(alloc: Global, hashing: EntryHashing) -> Self
        ensures { result ≡ [] }
    {
        Committed {
            entries: Vec::new(alloc),
            index: Index::new(alloc, hashing),
            filter: Filter::new(alloc),
            spent: 0,
        }
    }

    /// Takes all entries out of the list. It keeps its memory for the next ones, unless that is
    /// much. It is hashed as before.
    pub fn clear(&mut self)
        ensures { self.new ≡ [] }
    {
        // The filter is cleared in a time that grows with what was listed, but the index in one that
        // grows with its memory. So where there is much more memory than was used, a new list is
        // made, which takes none.
        let used = self.entries.len().saturating_mul(LINKS_FOR_AN_ENTRY);
        if self.index.capacity() > used.max(MOST_LINKS) {
            let alloc = *self.entries.allocator();
            *self = Committed::hashed_by(alloc, self.index.hashing());
            return;
        }
        self.filter.clear(&self.entries);
        if self.index.listed() > 0 {
            self.index.clear();
        }
        self.entries.clear();
        self.spent = 0;
    }

    /// Makes room for about so many more entries, so that the filter need not grow with each of them.
    pub fn expect(&mut self, more: usize) -> Result<(), NoMemory>
        ensures { self.new ≡ self.old }
    {
        self.filter.reserve(&self.entries, more)?;
        Ok(())
    }

    /// The number of entries.
    pub fn len(&self) -> usize
        ensures { result ≡ length self.now }
    {
        self.entries.len()
    }

    /// The entries, in the order in which they were appended.
    pub fn entries(&self) -> &[Entry]
        ensures { result.now ≡ self.now }
    {
        &self.entries
    }

    /// Appends entries. On `NoMemory` none is appended.
    pub fn append(&mut self, entries: &[Entry]) -> Result<(), NoMemory>
        ensures ok { OnOk result (self.new ≡ self.old ++ entries.now) }
        ensures err { OnErr result (self.new ≡ self.old) }
    {
        let marked = mark_all(*self.entries.allocator(), entries)?;
        self.append_marked(&marked)
    }

    /// Appends entries that have their marks. On `NoMemory` none is appended.
    pub fn append_marked(&mut self, entries: &[MarkedEntry]) -> Result<(), NoMemory>
        ensures ok { OnOk result (self.new ≡ self.old ++ entries_of entries.now) }
        ensures err { OnErr result (self.new ≡ self.old) }
    {
        self.entries.reserve(entries.len())?;
        self.filter.reserve(&self.entries, entries.len())?;
        put_all(&mut self.entries, &mut self.filter, entries);
        Ok(())
    }

    /// Appends those of these entries that no listed one is known to be as strict as. What commutes
    /// forward with all of the list then commutes forward with all of these, too. On `NoMemory` some
    /// of them may have been appended.
    pub fn append_new(&mut self, entries: &[MarkedEntry]) -> Result<(), NoMemory>
        ensures summary { OnOk result (IsSummary self.new (self.old ++ entries_of entries.now)) }
        ensures kept { take (length self.old) self.new ≡ self.old }
    {
        self.expect(entries.len())?;
        for marked in entries {
            if !self.covers(marked) {
                self.put(marked)?;
            }
        }
        Ok(())
    }

    /// Appends an entry. Where one as strict may be there already, this counts towards making the
    /// index, which would find it.
    fn put(&mut self, marked: &MarkedEntry) -> Result<(), NoMemory>
        ensures ok { OnOk result (self.new ≡ self.old ++ marked.now.entry ∷ []) }
        ensures err { OnErr result (self.new ≡ self.old) }
    {
        if self.filter.may_have(&marked.mark) {
            self.spend(REPEATED)?;
        }
        self.entries.push(marked.entry)?;
        self.filter.mark(&marked.mark);
        Ok(())
    }

    /// Lists all entries in the index. Those who share the list then find what they ask for there.
    ///
    /// Returns `NoMemory` where a request for memory was refused. The list is as before.
    pub fn list(&mut self) -> Result<(), NoMemory>
        ensures { self.new ≡ self.old }
    {
        self.index.reserve(self.entries.len())?;
        self.index.list(&self.entries);
        self.spent = 0;
        Ok(())
    }

    /// Lists the entries that aren't in the index, where others are.
    ///
    /// Returns `NoMemory` where a request for memory was refused. The list is as before.
    pub fn list_rest(&mut self) -> Result<(), NoMemory>
        ensures { self.new ≡ self.old }
    {
        match self.index.listed() {
            0 => Ok(()),
            _ => self.list(),
        }
    }

    /// Notes that an index of all entries would have saved so many comparisons. It is made once these
    /// took longer than to make it.
    fn spend(&mut self, comparisons: usize) -> Result<(), NoMemory>
        ensures { self.new ≡ self.old }
    {
        self.spent = self.spent.saturating_add(comparisons);
        let listing = self.unlisted().saturating_mul(LISTING);
        if self.spent > listing.max(FEW_COMPARISONS) {
            self.list()?;
        }
        Ok(())
    }

    /// How many entries aren't listed in the index.
    fn unlisted(&self) -> usize {
        self.len().saturating_sub(self.index.listed())
    }

    /// Whether of each of these entries a listed one is known to be as strict, so that `append_new`
    /// appends none of them. Where some of the list isn't in its index, none is known to be. It takes
    /// no memory.
    pub fn covers_all(&self, entries: &[MarkedEntry]) -> bool
        ensures { IsTrue result → IsSummary self.now (self.now ++ entries_of entries.now) }
    {
        if self.unlisted() > 0 {
            return false;
        }
        for marked in entries {
            if !self.covers(marked) {
                return false;
            }
        }
        true
    }

    /// Whether a listed entry is known to be as strict as this one. Where none is, the filter mostly
    /// says so without a look at the index.
    fn covers(&self, marked: &MarkedEntry) -> bool
        ensures { IsTrue result → IsCovered self.now marked.now.entry }
    {
        self.filter.may_have(&marked.mark) && self.index.covers(&marked.entry, &self.entries)
    }

    /// Whether each of these entries commutes forward, over all states, with each of the first
    /// `upto` entries of the list. It takes no memory.
    pub fn stands(&self, entries: &[MarkedEntry], upto: usize) -> bool
        requires within { upto ≤ length self.now }
        ensures { IsTrue result ↔ AllCommute (entries_of entries.now) (take upto self.now) }
    {
        for marked in entries {
            if !self.commutes_with(&marked.entry, &marked.mark, upto) {
                return false;
            }
        }
        true
    }

    /// Whether each of these entries commutes forward, over all states, with each of the first
    /// `upto` entries of the list, as [`Committed::stands`] finds. It lists the entries in the index
    /// once this pays.
    ///
    /// Returns `NoMemory` where a request for memory was refused. The list is as before.
    pub fn check(&mut self, entries: &[MarkedEntry], upto: usize) -> Result<bool, NoMemory>
        requires within { upto ≤ length self.old }
        ensures stands { IfOk result (λ stands.
            IsTrue stands ↔ AllCommute (entries_of entries.now) (take upto self.old)) }
        ensures same { self.new ≡ self.old }
    {
        for marked in entries {
            let met = self.met(&marked.mark);
            if met != 0 {
                self.spend(self.unlisted())?;
            }
            if !self.commutes_with_met(&marked.entry, met, upto) {
                return Ok(false);
            }
        }
        Ok(true)
    }

    /// The set of the classes of listed entries with which an entry with this mark may conflict.
    fn met(&self, mark: &Mark) -> u16
        ensures { (entry : OneEntry) → mark.now ≡ mark_of entry → (k : ℕ) → k < length self.now
            → Meets result entry (slice_index_or self.now k entry) }
    {
        self.filter.met(mark)
    }

    /// Whether the entry, which has this mark, commutes forward with each of the first `upto`
    /// entries.
    fn commutes_with(&self, entry: &Entry, mark: &Mark, upto: usize) -> bool
        requires mark { mark.now ≡ mark_of entry.now }
        requires within { upto ≤ length self.now }
        ensures { IsTrue result ↔ CommutesWith entry.now (take upto self.now) }
    {
        let met = self.met(mark);
        self.commutes_with_met(entry, met, upto)
    }

    /// Whether an entry commutes forward with the first `upto` entries, where those with which it
    /// may not are of the classes `met`. It looks at the entries of its own object, class by class,
    /// and at those of its own item where the class asks for one.
    fn commutes_with_met(&self, entry: &Entry, met: u16, upto: usize) -> bool
        requires within { upto ≤ length self.now }
        requires met { (k : ℕ) → k < upto
            → Meets met entry.now (slice_index_or self.now k entry.now) }
        ensures { IsTrue result ↔ CommutesWith entry.now (take upto self.now) }
    {
        if met == 0 {
            return true;
        }
        if self.index.listed() == 0 {
            return commutes_past(entry, &self.entries, 0, upto);
        }
        let mut rest = met;
        while let Some(class) = Class::first_of(rest) {
            let heading = Heading::against(entry, class);
            if !self.index.commutes(entry, &self.entries, heading, upto) {
                return false;
            }
            rest = class.taken_from(rest);
        }
        commutes_past(entry, &self.entries, self.index.listed(), upto)
    }
}

/// Appends entries to a list, which has room for them, and to its filter.
fn put_all(entries: &mut Vec<Entry>, filter: &mut Filter, more: &[MarkedEntry])
    requires room { vec_len entries.old + length more.now ≤ vec_capacity entries.old }
    requires filter { IsFilterOf entries.old.items filter.old }
    ensures entries { entries.new.items ≡ entries.old.items ++ entries_of more.now }
    ensures filter { IsFilterOf entries.new.items filter.new }
{
    for marked in more {
        filter.mark(&marked.mark);
        entries.push_reserved(marked.entry);
    }
}

/// Whether the entry commutes forward with each entry from the place `since` on and before `upto`.
fn commutes_past(entry: &Entry, entries: &[Entry], since: usize, upto: usize) -> bool
    requires { upto ≤ length entries.now }
    ensures { IsTrue result ↔ ((k : ℕ) → since ≤ k → k < upto
        → CommuteForward entry.now (slice_index_or entries.now k entry.now)) }
{
    let mut place = since;
    while place < upto {
        if !commute(entry, &entries[place]) {
            return false;
        }
        place += 1;
    }
    true
}
