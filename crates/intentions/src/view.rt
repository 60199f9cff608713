//! Views: what a transaction sees while its intentions are recorded.
ghost use Rattle.std.specs.Prelude.{◌≡◌, ◌↔◌, ◌+◌, ◌^◌, ◌<◌, ◌≤◌, ◌++◌, [], ◌∷◌, length, vec_len, vec_capacity, IsTrue, Some, IsOk, IfOk, OnOk, OnErr};
ghost use Rattle.objects.specs.Objects.{objects, Fits, ObjectHasRoom};
ghost use Rattle.intentions.specs.Levels.{shown_values, opened, with_entry, begun, committed, aborted, absorbed, listed_by, AllHaveRoom};
ghost use Rattle.intentions.specs.Layers.{CanList};
ghost use Rattle.intentions.specs.declared.view.NetList.TheVariants.{Own};
ghost use Rattle.objects.specs.Entries.{after, AreLegal};

use crate::layers::Layers;
use crate::places::PagedPlaces;
use objects::{Call, Entry, Objects, Reply};
use serial::NoMemory;
use std::alloc::Global;
use std::marker::Model;
use std::mem::{replace, swap};

/// What a view recorded: the entries of all calls in their order, and the net, which is those that
/// no aborted level took back.
#[derive(Debug, Drop)]
pub struct Lists {
    /// The entries of all calls, in order.
    pub entries: Vec<Entry>,
    /// The entries that no aborted level took back, in order.
    pub net: Vec<Entry>,
}

impl Lists {
    /// No entries. This takes no memory.
    pub fn empty(alloc: Global) -> Lists
        ensures entries { result.entries.items ≡ [] }
        ensures net { result.net.items ≡ [] }
    {
        Lists {
            entries: Vec::new(alloc),
            net: Vec::new(alloc),
        }
    }
}

/// Where the net of a run is listed.
#[derive(Clone, Copy, Debug, Drop, PartialEq, Eq)]
pub enum NetList {
    /// Nothing was taken back: the net is all of the entries, and has no list of its own.
    Entries,
    /// In a list of its own.
    Own,
}

impl NetList {
    /// The net of these entries, or of this list of its own.
    pub fn of<'a>(self, entries: &'a [Entry], own: &'a [Entry]) -> &'a [Entry]
        ensures { result.now ≡ listed_by self entries.now own.now }
    {
        match self {
            NetList::Entries => entries,
            NetList::Own => own,
        }
    }

    // Reserves room for a list of the net, and for so many more.
    fn reserve(self, entries: &[Entry], own: &mut Vec<Entry>, more: usize) -> Result<(), NoMemory>
        requires { length entries.now + more < 2 ^ 64 }
        ensures items { own.new.items ≡ own.old.items }
        ensures capacity { vec_capacity own.old ≤ vec_capacity own.new }
        ensures ok { OnOk result
            (length (listed_by self entries.now own.old.items) + more ≤ vec_capacity own.new) }
        ensures spare { OnOk result (vec_len own.new + more ≤ vec_capacity own.new) }
    {
        match self {
            NetList::Entries => own.reserve(entries.len() + more)?,
            NetList::Own => own.reserve(more)?,
        }
        Ok(())
    }

    // Adds an entry, for which room was reserved, to the list of the net, if it has one.
    fn push_reserved(self, own: &mut Vec<Entry>, entry: Entry)
        requires { vec_len own.old < vec_capacity own.old }
        ensures items { own.new.items ≡ listed_by self own.old.items (own.old.items ++ entry ∷ []) }
        ensures capacity { vec_capacity own.new ≡ vec_capacity own.old }
    {
        match self {
            NetList::Entries => {}
            NetList::Own => own.push_reserved(entry),
        }
    }

    // Lists the net on its own, which takes no memory.
    fn make_own(&mut self, entries: &[Entry], own: &mut Vec<Entry>)
        requires { CanList self.old entries.now own.old }
        ensures listed { self.new ≡ Own }
        ensures net { own.new.items ≡ listed_by self.old entries.now own.old.items }
        ensures capacity { vec_capacity own.old ≤ vec_capacity own.new }
    {
        match *self {
            NetList::Entries => {
                extend_reserved(own, entries);
                *self = NetList::Own;
            }
            NetList::Own => {}
        }
    }
}

/// A borrowed state, and the intentions of a transaction on it. It shows what the state would be
/// after them, and leaves the state as it is (Weihl 1988, intentions lists).
///
/// Subactions are levels, and the base is the outermost level. An open level commits into the level
/// around it, or is aborted (Moss 1981). After a call that returns `NoMemory` the view is
/// unchanged.
#[derive(Drop)]
pub struct View<'s> {
    snapshot: &'s Objects,
    layers: Layers<'s>,
    entries: Vec<Entry>,
    /// The nets of all levels, the outermost first, once they have a list of their own. Until then
    /// it is empty, and has room for them.
    net: Vec<Entry>,
    listed: NetList,
    /// For each open level but the base, how long the net was when it was opened.
    marks: Vec<usize>,
}

impl<'s> Model for View<'s> {
    ghost use Rattle.std.specs.Prelude.{List, reverse};
    ghost use Rattle.objects.specs.declared.kind.Value.{Value as OneValue};
    ghost use Rattle.objects.specs.declared.entry.Entry.{Entry as OneEntry};
    ghost use Rattle.std.specs.Coded.{coded_list, coded×, code_by};
    ghost use Rattle.std.proofs.Common.{refl};
    ghost use Rattle.objects.specs.contracts.kind.Value as one_value_type;
    ghost use Rattle.objects.specs.contracts.entry.Entry as one_entry_type;
    ghost use Rattle.intentions.specs.Levels.{Intentions, listed_by};
    ghost use Rattle.intentions.specs.Starts.{innermost, around};
    ghost use Rattle.intentions.specs.Layers.{AreLayersOf, CanList};

    ghost Value = { Intentions };

    ghost coded = { code_by
        (List OneValue × (List OneEntry × (List OneEntry × List (List OneEntry))))
        (coded× (coded_list one_value_type.the_row.coded)
        (coded× (coded_list one_entry_type.the_row.coded)
        (coded× (coded_list one_entry_type.the_row.coded)
        (coded_list (coded_list one_entry_type.the_row.coded)))))
        (λ v. (v.snapshot, (v.entries, (v.net, v.outer))))
        (λ p. record { snapshot = p.0; entries = p.1.0; net = p.1.1.0; outer = p.1.1.1 })
        (λ _. refl) };

    ghost view = { λ v. record {
      snapshot = v.snapshot.now;
      entries = v.entries.items;
      net = innermost (reverse v.marks.items) (listed_by v.listed v.entries.items v.net.items);
      outer = around (reverse v.marks.items) (listed_by v.listed v.entries.items v.net.items);
    } };

    ghost invariant = { λ v.
        AreLayersOf v.snapshot.now (listed_by v.listed v.entries.items v.net.items)
        (reverse v.marks.items) v.layers
        × CanList v.listed v.entries.items v.net };
}

impl<'s> View<'s> {
    /// A view that shows the snapshot, with no entries and no level but the base. It takes no time
    /// or memory that grows with the snapshot, and never returns `NoMemory`.
    pub fn open(alloc: Global, snapshot: &'s Objects) -> Result<View<'s>, NoMemory>
        ensures succeeds { IsOk result }
        ensures opened { IfOk result (λ view. view ≡ opened snapshot.now) }
    {
        Ok(View::open_in(alloc, snapshot, PagedPlaces::new(alloc)))
    }

    /// The same view, in memory that another one left.
    pub fn open_in(alloc: Global, snapshot: &'s Objects, places: PagedPlaces) -> View<'s>
        ensures { result ≡ opened snapshot.now }
    {
        View {
            snapshot,
            layers: Layers::open(alloc, snapshot, places),
            entries: Vec::new(alloc),
            net: Vec::new(alloc),
            listed: NetList::Entries,
            marks: Vec::new(alloc),
        }
    }

    /// Memory for the next view, of these objects or of others.
    pub fn into_places(self) -> PagedPlaces {
        self.layers.into_places()
    }

    /// The number of open levels, without the base.
    pub fn depth(&self) -> usize
        ensures { result ≡ length self.now.outer }
    {
        self.marks.len()
    }

    /// The state that the view was opened on.
    pub fn snapshot(&self) -> &Objects
        ensures { result.now ≡ self.now.snapshot }
    {
        self.snapshot
    }

    /// All entries in the order of the calls, with those of aborted levels.
    pub fn entries(&self) -> &[Entry]
        ensures { result.now ≡ self.now.entries }
    {
        &self.entries
    }

    /// The net of the innermost level.
    pub fn net(&self) -> &[Entry]
        ensures { result.now ≡ self.now.net }
    {
        let nets = self.listed.of(&self.entries, &self.net);
        match self.marks.last() {
            Some(mark) => &nets[*mark..],
            None => nets,
        }
    }

    /// Whether the object is there and the call is of its kind.
    pub fn fits(&self, object: u32, call: &Call) -> bool
        ensures { IsTrue result ↔ Fits (shown_values self.now) object call.now }
    {
        match self.layers.value(object) {
            Some(value) => value.fits(call),
            None => false,
        }
    }

    /// Whether the object, as it is shown, has room for the call. It never returns `NoMemory`.
    pub fn has_room(&self, object: u32, call: &Call) -> Result<bool, NoMemory>
        requires { Fits (shown_values self.now) object call.now }
        ensures succeeds { IsOk result }
        ensures room { IfOk result (λ room. IsTrue room
            ↔ ObjectHasRoom (shown_values self.now) object call.now) }
    {
        match self.layers.value(object) {
            Some(value) => Ok(value.has_room(call)),
            None => unreachable!(),
        }
    }

    /// Performs a call on what is shown, and returns its reply. The call is recorded in the entries
    /// and in the net of the innermost level. On `NoMemory` the view is unchanged.
    #[tactic(auto, using(crate::proofs::ViewLemmas::can_list_grown))]
    pub fn perform(&mut self, object: u32, call: &Call) -> Result<Reply, NoMemory>
        requires fits { Fits (shown_values self.old) object call.now }
        requires room { ObjectHasRoom (shown_values self.old) object call.now }
        ensures reply { IfOk result (λ reply. objects.reply (shown_values self.old)
            (object, call.now) ≡ Some reply) }
        ensures ok { IfOk result (λ reply. self.new
            ≡ with_entry self.old (record { object = object; call = call.now; reply = reply })) }
        ensures err { OnErr result (self.new ≡ self.old) }
    {
        self.entries.reserve(1)?;
        self.listed.reserve(&self.entries, &mut self.net, 1)?;
        let reply = self.layers.perform(object, call)?;
        let entry = Entry {
            object,
            call: *call,
            reply,
        };
        self.entries.push_reserved(entry);
        self.listed.push_reserved(&mut self.net, entry);
        Ok(reply)
    }

    /// Opens a level, with an empty net. On `NoMemory` the view is unchanged.
    pub fn begin(&mut self) -> Result<(), NoMemory>
        ensures ok { OnOk result (self.new ≡ begun self.old) }
        ensures err { OnErr result (self.new ≡ self.old) }
    {
        self.marks.reserve(1)?;
        self.layers.begin()?;
        let start = self.listed.of(&self.entries, &self.net).len();
        self.marks.push_reserved(start);
        Ok(())
    }

    /// Ends the innermost level as part of the level around it: its net is appended to that
    /// level's. It never returns `NoMemory`.
    pub fn commit(&mut self) -> Result<(), NoMemory>
        requires { 0 < length self.old.outer }
        ensures succeeds { IsOk result }
        ensures committed { self.new ≡ committed self.old }
    {
        let Some(_mark) = self.marks.pop() else {
            unreachable!()
        };
        self.layers.commit();
        Ok(())
    }

    /// Ends the innermost level and takes back what it did. Its net is dropped, and the view shows
    /// the state at its begin. The entries stay.
    pub fn abort(&mut self)
        requires { 0 < length self.old.outer }
        ensures { self.new ≡ aborted self.old }
    {
        let Some(mark) = self.marks.pop() else {
            unreachable!()
        };
        self.listed.make_own(&self.entries, &mut self.net);
        self.net.truncate(mark);
        self.layers.abort();
    }

    /// Takes in what a child recorded on a copy of what is shown: its entries, and its net, which
    /// joins the net of the innermost level. On `NoMemory` the view is unchanged.
    #[tactic(auto, using(crate::proofs::ViewLemmas::can_list_grown))]
    pub fn absorb(&mut self, entries: &[Entry], net: &[Entry]) -> Result<(), NoMemory>
        requires legal { AreLegal (shown_values self.old) net.now }
        requires room { AllHaveRoom (shown_values self.old) net.now }
        ensures ok { OnOk result (self.new ≡ absorbed self.old entries.now net.now) }
        ensures err { OnErr result (self.new ≡ self.old) }
    {
        self.entries.reserve(entries.len())?;
        self.listed
            .reserve(&self.entries, &mut self.net, net.len())?;
        self.layers.perform_whole(net)?;
        self.listed.make_own(&self.entries, &mut self.net);
        extend_reserved(&mut self.entries, entries);
        extend_reserved(&mut self.net, net);
        Ok(())
    }

    /// A copy of what is shown, or `NoMemory`.
    pub fn state(&self) -> Result<Objects, NoMemory>
        ensures { IfOk result (λ state. state ≡ shown_values self.now) }
    {
        match u32::try_from(self.snapshot.len()) {
            Ok(count) => self.layers.state(*self.entries.allocator(), count),
            // There are so many objects that a `u32` can't number them all.
            Err(_) => {
                let mut state = self.snapshot.copy()?;
                perform_each(&mut state, self.listed.of(&self.entries, &self.net))?;
                Ok(state)
            }
        }
    }

    /// Exchanges the entries and the net of the base for the memory of two lists, whose items are
    /// dropped, and returns where the net is listed. The view is then as if it had just been opened
    /// on the same snapshot. This takes no memory.
    pub fn take_run(&mut self, entries: &mut Vec<Entry>, net: &mut Vec<Entry>) -> NetList
        requires { length self.old.outer ≡ 0 }
        ensures entries { entries.new.items ≡ self.old.entries }
        ensures net { listed_by result entries.new.items net.new.items ≡ self.old.net }
        ensures opened { self.new ≡ opened self.old.snapshot }
    {
        entries.clear();
        net.clear();
        swap(&mut self.entries, entries);
        swap(&mut self.net, net);
        self.layers.restart(self.snapshot);
        replace(&mut self.listed, NetList::Entries)
    }

    /// The entries, and the net of the base.
    pub fn into_run(self) -> Lists
        requires { length self.outer ≡ 0 }
        ensures entries { result.entries.items ≡ self.entry.entries }
        ensures net { result.net.items ≡ self.entry.net }
    {
        let View {
            entries,
            mut net,
            mut listed,
            ..
        } = self;
        listed.make_own(&entries, &mut net);
        Lists { entries, net }
    }
}

/// Performs the calls of entries, one after the other. On `NoMemory` some may have been performed.
pub fn perform_each(state: &mut Objects, entries: &[Entry]) -> Result<(), NoMemory>
    requires legal { AreLegal state.old entries.now }
    requires room { AllHaveRoom state.old entries.now }
    ensures { OnOk result (state.new ≡ after state.old entries.now) }
{
    for entry in entries {
        let _reply = state.perform(entry.object, &entry.call)?;
    }
    Ok(())
}

// Appends entries, for which room was reserved.
fn extend_reserved(list: &mut Vec<Entry>, entries: &[Entry])
    requires { vec_len list.old + length entries.now ≤ vec_capacity list.old }
    ensures items { list.new.items ≡ list.old.items ++ entries.now }
    ensures capacity { vec_capacity list.old ≤ vec_capacity list.new }
{
    match list.extend_from_slice(entries) {
        Ok(()) => {}
        Err(_) => unreachable!(),
    }
}
