//! An index of entries: chains by headings, which are an object and a class, or an object, an item
//! and a class. No two headings share a chain.
//!
//! Each link of a chain ends a span, of which one entry is as strict as all. Each link also knows a
//! link further back to skip to. The skips are those of E. W. Myers's random-access stacks ("An
//! applicative random-access stack", 1983), so the last link below a place is found in logarithmic
//! time.
ghost use Rattle.std.specs.Prelude.{◌≡◌, ◌<◌, ◌≤◌, ◌+◌, ◌-◌, ◌^◌, ℕ, [], min, length, vec_len, vec_capacity, IsTrue, OnOk};
ghost use Rattle.indexmap.specs.IndexMap.{hasher_of, spare};
ghost use Rattle.committed.specs.declared.index.TheConstants.{MOST_LISTED};
ghost use Rattle.committed.specs.Summaries.{IsCovered};
ghost use Rattle.committed.specs.Index.{number_of, link_at, IsBehind, IsLastOf, AreUpTo, IsNextLink, IsNextSpan, AreLinks, AreSpans, HasLasts, IsLinked, KeepsLinked, IsListedAt, IsIndexOf, StaysIndex, IndexHasRoom, AreListed, IsLastBelow, CommutesUnder};

use crate::heading::Heading;
use conflicts::is_as_strict;
use indexmap::IndexMap;
use objects::{Entry, EntryHashing, commute};
use serial::NoMemory;
use std::alloc::Global;

/// How many entries are listed at most. Each has at most two links, which are counted in 32 bits.
const MOST_LISTED: u32 = 2_147_483_647;

/// An entry in the chain of a heading. A link's number is how many links there are up to it, so 0
/// is no link.
#[derive(Clone, Copy)]
pub struct Link {
    /// The number of its heading.
    heading: u32,
    /// Its place among all entries.
    place: u32,
    /// The link before it in its chain.
    before: u32,
    /// The link before the span that it ends.
    span: u32,
    /// The place of an entry that commutes forward with no more than each of the span does.
    strictest: u32,
    /// A link further back in its chain, or none.
    skip: u32,
    /// How far it skips: over `2 ^ (rank + 1) - 1` links of its chain.
    rank: u32,
}

/// A chain for each heading.
#[derive(Drop)]
pub struct Index {
    /// For each heading the last link of its chain. Headings are numbered as they come.
    last: IndexMap<Heading, u32, EntryHashing>,
    links: Vec<Link>,
    /// How many entries are listed, from the first on.
    listed: u32,
}

impl Index {
    /// An index of no entries. It takes no memory.
    pub fn new(alloc: Global, hashing: EntryHashing) -> Index
        ensures index { IsIndexOf [] result }
        ensures hashing { hasher_of result.last ≡ hashing }
    {
        Index {
            last: IndexMap::with_hasher(alloc, hashing),
            links: Vec::new(alloc),
            listed: 0,
        }
    }

    /// For how many links it has memory. For headings it has memory for about as many at most.
    pub fn capacity(&self) -> usize
        ensures { result ≡ vec_capacity self.now.links }
    {
        self.links.capacity()
    }

    /// How its headings are hashed.
    pub fn hashing(&self) -> EntryHashing
        ensures { result ≡ hasher_of self.now.last }
    {
        *self.last.hasher()
    }

    /// Takes all entries out of the index, and keeps its memory. It takes a time that grows with
    /// that memory.
    pub fn clear(&mut self)
        ensures index { IsIndexOf [] self.new }
        ensures listed { self.new.listed ≡ 0 }
        ensures hashing { hasher_of self.new.last ≡ hasher_of self.old.last }
    {
        self.last.clear();
        self.links.clear();
        self.listed = 0;
    }

    /// How many entries are listed, from the first on.
    pub fn listed(&self) -> usize
        ensures { result ≡ self.now.listed }
    {
        self.listed as usize
    }

    /// Makes room to list so many entries in all. On `NoMemory` some of it may have been made.
    pub fn reserve(&mut self, count: usize) -> Result<(), NoMemory>
        ensures index { StaysIndex self.old self.new }
        ensures room { OnOk result (IndexHasRoom self.new (count - self.old.listed)) }
        ensures listed { self.new.listed ≡ self.old.listed }
    {
        let more = count.saturating_sub(self.listed as usize);
        let links = more.saturating_mul(2);
        self.last.reserve(links)?;
        self.links.reserve(links)?;
        Ok(())
    }

    /// Lists the entries that aren't listed, each under its object and its item.
    pub fn list(&mut self, entries: &[Entry])
        requires index { IsIndexOf entries.now self.old }
        requires room { IndexHasRoom self.old (length entries.now - self.old.listed) }
        ensures index { IsIndexOf entries.now self.new }
        ensures all { AreListed entries.now self.new }
    {
        let end = entries.len().min(MOST_LISTED as usize) as u32;
        for place in self.listed..end {
            self.put(entries, place);
            self.listed = place + 1;
        }
    }

    /// Puts an entry at the end of the chains of its object and its item.
    fn put(&mut self, entries: &[Entry], place: u32)
        requires links { AreLinks self.old.links.items }
        requires lasts { HasLasts self.old }
        requires spans { AreSpans entries.now self.old.links.items }
        requires within { place < length entries.now }
        requires last { AreUpTo self.old.links.items place }
        requires room { IndexHasRoom self.old 1 }
        requires few { length self.old.links.items + 2 < 2 ^ 32 }
        ensures links { AreLinks self.new.links.items }
        ensures lasts { HasLasts self.new }
        ensures spans { AreSpans entries.now self.new.links.items }
        ensures own { IsListedAt self.new entries.now place }
        ensures kept { KeepsLinked self.old self.new }
        ensures last { AreUpTo self.new.links.items place }
        ensures few { length self.new.links.items ≤ length self.old.links.items + 2 }
        ensures listed { self.new.listed ≡ self.old.listed }
        ensures room { (more : ℕ) → IndexHasRoom self.old (more + 1) → IndexHasRoom self.new more }
    {
        let entry = &entries[place as usize];
        let heading = Heading::of(entry);
        self.link(entries, heading.of_object(), place);
        if heading.is_of_item() {
            self.link(entries, heading, place);
        }
    }

    /// Puts an entry at the end of the chain of a heading.
    fn link(&mut self, entries: &[Entry], heading: Heading, place: u32)
        requires links { AreLinks self.old.links.items }
        requires lasts { HasLasts self.old }
        requires spans { AreSpans entries.now self.old.links.items }
        requires within { place < length entries.now }
        requires last { AreUpTo self.old.links.items place }
        requires room { vec_len self.old.links < vec_capacity self.old.links }
        requires spare { 0 < spare self.old.last }
        requires few { length self.old.links.items + 1 < 2 ^ 32 }
        ensures links { AreLinks self.new.links.items }
        ensures lasts { HasLasts self.new }
        ensures spans { AreSpans entries.now self.new.links.items }
        ensures own { IsLinked self.new place heading }
        ensures kept { KeepsLinked self.old self.new }
        ensures last { AreUpTo self.new.links.items place }
        ensures one { length self.new.links.items ≡ length self.old.links.items + 1 }
        ensures room { vec_capacity self.new.links ≡ vec_capacity self.old.links }
        ensures spare { spare self.old.last ≤ spare self.new.last + 1 }
        ensures listed { self.new.listed ≡ self.old.listed }
    {
        let number = self.links.len() as u32 + 1;
        let Ok((heading, last)) = self.last.insert_full(heading, number) else {
            unreachable!()
        };
        let link = self.next(entries, heading as u32, place, last.unwrap_or(0));
        self.links.push_reserved(link);
    }

    /// The link of an entry to put after the last one of its chain. It lengthens the span of the
    /// last, where one entry is as strict as the other.
    fn next(&self, entries: &[Entry], heading: u32, place: u32, last: u32) -> Link
        requires links { AreLinks self.now.links.items }
        requires spans { AreSpans entries.now self.now.links.items }
        requires within { place < length entries.now }
        requires last { AreUpTo self.now.links.items place }
        requires end { IsLastOf self.now.links.items heading last }
        ensures link { IsNextLink self.now.links.items result }
        ensures span { IsNextSpan entries.now self.now.links.items result }
        ensures heading { result.heading ≡ heading }
        ensures place { result.place ≡ place }
    {
        let alone = Link {
            heading,
            place,
            before: last,
            span: last,
            strictest: place,
            skip: last,
            rank: 0,
        };
        if last == 0 {
            return alone;
        }
        let found = self.get(last);
        let (skip, rank) = self.skip_behind(last);
        let linked = Link {
            skip,
            rank,
            ..alone
        };
        let entry = &entries[place as usize];
        let strictest = &entries[found.strictest as usize];
        if is_as_strict(entry, strictest) {
            Link {
                span: found.span,
                ..linked
            }
        } else if is_as_strict(strictest, entry) {
            Link {
                span: found.span,
                strictest: found.strictest,
                ..linked
            }
        } else {
            linked
        }
    }

    /// Where the link after this one skips to, and its rank.
    fn skip_behind(&self, last: u32) -> (u32, u32)
        requires some { 0 < last }
        requires within { last ≤ length self.now.links.items }
        requires links { AreLinks self.now.links.items }
        ensures { IsBehind self.now.links.items last result.0 }
    {
        let found = self.get(last);
        if found.skip == 0 {
            return (last, 0);
        }
        let second = self.get(found.skip);
        if second.rank == found.rank {
            (second.skip, found.rank.saturating_add(1))
        } else {
            (last, 0)
        }
    }

    /// Whether a listed entry is known to be as strict as this one. It looks at the strictest of the
    /// last span of the entry's heading only.
    pub fn covers(&self, entry: &Entry, entries: &[Entry]) -> bool
        requires lasts { HasLasts self.now }
        requires spans { AreSpans entries.now self.now.links.items }
        ensures { IsTrue result → IsCovered entries.now entry.now }
    {
        if self.listed == 0 {
            return false;
        }
        let at = self.last.get(&Heading::of(entry)).copied().unwrap_or(0);
        at != 0 && is_as_strict(&entries[self.get(at).strictest as usize], entry)
    }

    /// Whether the entry commutes forward with each of the first `upto` entries that is listed
    /// under the heading. Of each span it looks at the strictest entry only, and it looks at none
    /// under another heading.
    pub fn commutes(&self, entry: &Entry, entries: &[Entry], heading: Heading, upto: usize) -> bool
        requires links { AreLinks self.now.links.items }
        requires lasts { HasLasts self.now }
        requires spans { AreSpans entries.now self.now.links.items }
        ensures found { IsTrue result → CommutesUnder self.now heading entry.now entries.now upto }
        ensures all { CommutesUnder self.now heading entry.now entries.now upto → IsTrue result }
    {
        let mut at = self.last_below(heading, upto);
        while at != 0 {
            let found = self.get(at);
            if !commute(entry, &entries[found.strictest as usize]) {
                return false;
            }
            at = found.span;
        }
        true
    }

    /// The last link of a heading's chain whose place is below `upto`.
    fn last_below(&self, heading: Heading, upto: usize) -> u32
        requires links { AreLinks self.now.links.items }
        requires lasts { HasLasts self.now }
        ensures { IsLastBelow self.now.links.items (number_of self.now heading) upto result }
    {
        let mut at = self.last.get(&heading).copied().unwrap_or(0);
        while at != 0 && self.get(at).place as usize >= upto {
            let found = self.get(at);
            if found.skip != 0 && self.get(found.skip).place as usize >= upto {
                at = found.skip;
            } else {
                at = found.before;
            }
        }
        at
    }

    /// The link of a number.
    fn get(&self, number: u32) -> &Link
        requires some { 0 < number }
        requires within { number ≤ length self.now.links.items }
        ensures { result.now ≡ link_at self.now.links.items (number - 1) }
    {
        &self.links[number as usize - 1]
    }
}
