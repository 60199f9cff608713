//! Drafts of sets: what differs from a borrowed one.
ghost use Rattle.std.specs.Prelude.{◌≡◌, true, false, IfOk, IfSome, IsSome, IsNone, OnOk, OnErr};
ghost use Rattle.std.specs.FinSet as set;
ghost use Rattle.atoms.specs.ItemSet.{item_set, set_undoing};
ghost use Rattle.drafts.specs.History.{unchanged, changed, undone};

use crate::slots::write_slot;
use atoms::{Item, ItemSet, SetCall, SetChange, SetReply};
use serial::{Atom, NoMemory};
use std::alloc::Global;
use std::collections::BTreeMap;
use std::marker::Model;

/// A borrowed set, with whether each touched item is a member now, the size now, and the changes
/// that led to it. An item stays touched after its change is taken back.
#[derive(Drop)]
pub struct SetDraft<'s> {
    lent: &'s ItemSet,
    touched: BTreeMap<Item, bool>,
    size: usize,
    journal: Vec<SetChange>,
}

impl<'s> Model for SetDraft<'s> {
    ghost use Rattle.std.specs.Prelude.{reverse};
    ghost use Rattle.std.specs.FinSet as set;
    ghost use Rattle.std.specs.Coded.{codes};
    ghost use Rattle.atoms.specs.Item.{item_cmp, coded_item};
    ghost use Rattle.atoms.specs.ItemSet.{set_undone};
    ghost use Rattle.drafts.specs.History.{History, journaled};
    ghost use Rattle.drafts.specs.Overlays.{over_set, IsSetKept};

    ghost Value = { History (set.FinSet item_cmp) };

    ghost coded = { Prim.hlevel (codes, set.code {R = item_cmp} coded_item) };

    ghost view = { λ draft. journaled set_undone (over_set draft.lent.now draft.touched.entries) (reverse draft.journal.items) };

    ghost invariant = { λ draft. IsSetKept draft.lent.now draft.touched.entries draft.size (reverse draft.journal.items) };
}

impl<'s> SetDraft<'s> {
    /// A draft in which nothing is touched. It takes no memory.
    pub fn of(alloc: Global, lent: &'s ItemSet) -> SetDraft<'s>
        ensures { result ≡ unchanged lent.now }
    {
        SetDraft {
            lent,
            touched: BTreeMap::new(alloc),
            size: lent.items().len(),
            journal: Vec::new(alloc),
        }
    }

    /// Whether the item is a member.
    pub fn contains(&self, item: Item) -> bool
        ensures { result ≡ set.contains self.now.value item }
    {
        match self.touched.get(&item) {
            Some(inside) => *inside,
            None => self.lent.contains(item),
        }
    }

    /// The reply of a call that leaves the set as it is, and none for a call that changes it.
    pub fn look(&self, call: &SetCall) -> Option<SetReply>
        ensures reply { IfSome result (λ reply. item_set.reply self.now.value call.now ≡ reply) }
        ensures same { IsSome result → item_set.after self.now.value call.now ≡ self.now.value }
        ensures answers { IsNone result → IsSome (set_undoing.change self.now.value call.now) }
    {
        match call {
            SetCall::Insert(item) => {
                if self.contains(*item) {
                    Some(SetReply::Present)
                } else {
                    None
                }
            }
            SetCall::Remove(item) => {
                if self.contains(*item) {
                    None
                } else {
                    Some(SetReply::Absent)
                }
            }
            SetCall::Has(item) => {
                if self.contains(*item) {
                    Some(SetReply::Yes)
                } else {
                    Some(SetReply::No)
                }
            }
            SetCall::Size => Some(SetReply::Number(self.size as u64)),
        }
    }

    /// Performs a call that changes the set, and returns its reply. On `NoMemory` the set is as
    /// before.
    pub fn perform(&mut self, call: &SetCall) -> Result<SetReply, NoMemory>
        requires { IsSome (set_undoing.change self.old.value call.now) }
        ensures reply { IfOk result (λ reply. reply ≡ item_set.reply self.old.value call.now) }
        ensures ok { OnOk result (self.new ≡ changed self.old
            (item_set.after self.old.value call.now)) }
        ensures err { OnErr result (self.new ≡ self.old) }
    {
        match call {
            SetCall::Insert(item) => {
                self.insert(*item)?;
                Ok(SetReply::Added)
            }
            SetCall::Remove(item) => {
                self.remove(*item)?;
                Ok(SetReply::Removed)
            }
            SetCall::Has(_) | SetCall::Size => unreachable!(),
        }
    }

    /// Adds an item that isn't a member. On `NoMemory` the set is as before.
    fn insert(&mut self, item: Item) -> Result<(), NoMemory>
        requires { set.contains self.old.value item ≡ false }
        ensures ok { OnOk result (self.new ≡ changed self.old (set.insert self.old.value item)) }
        ensures err { OnErr result (self.new ≡ self.old) }
    {
        self.journal.reserve(1)?;
        self.touched.insert(item, true)?;
        // The size fits: the borrowed items and the touched ones are fewer than 2^63 each.
        let _touched = self.touched.len();
        self.size += 1;
        self.journal.push_reserved(SetChange::Added(item));
        Ok(())
    }

    /// Removes an item that is a member. On `NoMemory` the set is as before.
    fn remove(&mut self, item: Item) -> Result<(), NoMemory>
        requires { set.contains self.old.value item ≡ true }
        ensures ok { OnOk result (self.new ≡ changed self.old (set.remove self.old.value item)) }
        ensures err { OnErr result (self.new ≡ self.old) }
    {
        self.journal.reserve(1)?;
        self.touched.insert(item, false)?;
        self.size -= 1;
        self.journal.push_reserved(SetChange::Removed(item));
        Ok(())
    }

    /// Forgets what the set was, so that no change can be taken back. It takes no memory.
    pub fn forget(&mut self)
        ensures { self.new ≡ unchanged self.old.value }
    {
        self.journal.truncate(0);
    }

    /// Takes the last change back, if there is one. It takes no memory.
    pub fn undo(&mut self)
        ensures { self.new ≡ undone self.old }
    {
        match self.journal.pop() {
            Some(SetChange::Added(item)) => {
                write_slot(&mut self.touched, item, false);
                self.size -= 1;
            }
            Some(SetChange::Removed(item)) => {
                write_slot(&mut self.touched, item, true);
                let _touched = self.touched.len();
                self.size += 1;
            }
            None => {}
        }
    }

    /// The set in memory of its own, or `NoMemory`.
    pub fn whole(&self) -> Result<ItemSet, NoMemory>
        ensures { IfOk result (λ whole. whole ≡ self.now.value) }
    {
        let mut whole = ItemSet::copy(self.lent)?;
        for (item, inside) in self.touched.iter().rev() {
            if *inside {
                whole.insert(*item)?;
            } else {
                whole.remove(*item);
            }
        }
        Ok(whole)
    }
}
