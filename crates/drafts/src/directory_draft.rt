//! Drafts of directories: what differs from a borrowed one.
ghost use Rattle.std.specs.Prelude.{◌≡◌, IfOk, IfSome, IsSome, IsNone, OnOk, OnErr};
ghost use Rattle.std.specs.FinMap as map;
ghost use Rattle.atoms.specs.Directory.{directory, directory_undoing, put_at};
ghost use Rattle.drafts.specs.History.{unchanged, changed, undone};

use crate::slots::write_slot;
use atoms::{Directory, DirectoryCall, DirectoryChange, DirectoryReply, Item};
use serial::{Atom, NoMemory};
use std::alloc::Global;
use std::collections::BTreeMap;
use std::marker::Model;

/// A borrowed directory, with what each touched key is bound to now, and the changes that led to
/// it. A key stays touched after its change is taken back.
#[derive(Drop)]
pub struct DirectoryDraft<'s> {
    lent: &'s Directory,
    touched: BTreeMap<Item, Option<Item>>,
    journal: Vec<DirectoryChange>,
}

impl<'s> Model for DirectoryDraft<'s> {
    ghost use Rattle.std.specs.Prelude.{reverse};
    ghost use Rattle.std.specs.FinMap as map;
    ghost use Rattle.std.specs.Coded.{codes};
    ghost use Rattle.atoms.specs.Item.{item_cmp, coded_item};
    ghost use Rattle.atoms.specs.Directory.{directory_undoing};
    ghost use Rattle.atoms.specs.declared.item.Item.{Item};
    ghost use Rattle.drafts.specs.History.{History, journaled};
    ghost use Rattle.drafts.specs.Overlays.{over_directory, AreTouched};

    ghost Value = { History (map.FinMap item_cmp Item) };

    ghost coded = { Prim.hlevel (codes, map.code {R = item_cmp} coded_item coded_item) };

    ghost view = { λ draft. journaled directory_undoing.undone (over_directory draft.lent.now draft.touched.entries) (reverse draft.journal.items) };

    ghost invariant = { λ draft. AreTouched (λ change. change.key) draft.touched.entries (reverse draft.journal.items) };
}

impl<'s> DirectoryDraft<'s> {
    /// A draft in which nothing is touched. It takes no memory.
    pub fn of(alloc: Global, lent: &'s Directory) -> DirectoryDraft<'s>
        ensures { result ≡ unchanged lent.now }
    {
        DirectoryDraft {
            lent,
            touched: BTreeMap::new(alloc),
            journal: Vec::new(alloc),
        }
    }

    /// The item that the key is bound to, if it is.
    pub fn get(&self, key: Item) -> Option<Item>
        ensures { result ≡ map.get self.now.value key }
    {
        match self.touched.get(&key) {
            Some(bound) => *bound,
            None => self.lent.get(key),
        }
    }

    /// Binds a key, or frees it. On `NoMemory` the directory is as before.
    fn put(&mut self, key: Item, bound: Option<Item>) -> Result<(), NoMemory>
        ensures ok { OnOk result (self.new ≡ changed self.old (put_at self.old.value key bound)) }
        ensures err { OnErr result (self.new ≡ self.old) }
    {
        let before = self.get(key);
        self.journal.reserve(1)?;
        self.touched.insert(key, bound)?;
        self.journal.push_reserved(DirectoryChange { key, before });
        Ok(())
    }

    /// The reply of a call that leaves the directory as it is, and none for a call that changes it.
    /// A put counts as one that changes it, whatever the key is bound to.
    pub fn look(&self, call: &DirectoryCall) -> Option<DirectoryReply>
        ensures reply { IfSome result (λ reply. directory.reply self.now.value call.now ≡ reply) }
        ensures same { IsSome result → directory.after self.now.value call.now ≡ self.now.value }
        ensures answers { IsNone result → IsSome (directory_undoing.change self.now.value
            call.now) }
    {
        match call {
            DirectoryCall::Bind(key, _) => match self.get(*key) {
                Some(_) => Some(DirectoryReply::Taken),
                None => None,
            },
            DirectoryCall::Put(_, _) => None,
            DirectoryCall::Unbind(key) => match self.get(*key) {
                Some(_) => None,
                None => Some(DirectoryReply::Missing),
            },
            DirectoryCall::Lookup(key) => match self.get(*key) {
                Some(bound) => Some(DirectoryReply::Found(bound)),
                None => Some(DirectoryReply::Missing),
            },
        }
    }

    /// Performs a call that changes the directory, and returns its reply. On `NoMemory` the
    /// directory is as before.
    pub fn perform(&mut self, call: &DirectoryCall) -> Result<DirectoryReply, NoMemory>
        requires { IsSome (directory_undoing.change self.old.value call.now) }
        ensures reply { IfOk result (λ reply. reply ≡ directory.reply self.old.value call.now) }
        ensures ok { OnOk result (self.new ≡ changed self.old
            (directory.after self.old.value call.now)) }
        ensures err { OnErr result (self.new ≡ self.old) }
    {
        match call {
            DirectoryCall::Bind(key, bound) => {
                self.put(*key, Some(*bound))?;
                Ok(DirectoryReply::Bound)
            }
            DirectoryCall::Put(key, bound) => {
                self.put(*key, Some(*bound))?;
                Ok(DirectoryReply::Ok)
            }
            DirectoryCall::Unbind(key) => {
                self.put(*key, None)?;
                Ok(DirectoryReply::Gone)
            }
            DirectoryCall::Lookup(_) => unreachable!(),
        }
    }

    /// Forgets what the directory was, so that no change can be taken back. It takes no memory.
    pub fn forget(&mut self)
        ensures { self.new ≡ unchanged self.old.value }
    {
        self.journal.truncate(0);
    }

    /// Takes the last change back, if there is one. It takes no memory.
    pub fn undo(&mut self)
        ensures { self.new ≡ undone self.old }
    {
        if let Some(change) = self.journal.pop() {
            write_slot(&mut self.touched, change.key, change.before);
        }
    }

    /// The directory in memory of its own, or `NoMemory`.
    pub fn whole(&self) -> Result<Directory, NoMemory>
        ensures { IfOk result (λ whole. whole ≡ self.now.value) }
    {
        let mut whole = Directory::copy(self.lent)?;
        for (key, bound) in self.touched.iter().rev() {
            match *bound {
                Some(item) => whole.put(*key, item)?,
                None => {
                    whole.unbind(*key);
                }
            }
        }
        Ok(whole)
    }
}
