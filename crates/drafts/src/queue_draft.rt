//! Drafts of queues: what differs from a borrowed one.
ghost use Rattle.std.specs.Prelude.{◌≡◌, ◌∷◌, ◌++◌, [], length, drop, slice_get, IfOk, IfSome, IsSome, IsNone, OnOk, OnErr};
ghost use Rattle.atoms.specs.Queue.{queue, queue_undoing};
ghost use Rattle.drafts.specs.History.{unchanged, changed, undone};

use atoms::{Item, Queue, QueueCall, QueueReply};
use serial::NoMemory;
use std::alloc::Global;
use std::marker::Model;

/// A change: an item was added at the end, or one was taken from the front after so many were
/// taken.
#[derive(Clone, Copy)]
enum QueueDraftChange {
    Enqueued,
    Dequeued(usize),
}

/// A borrowed queue, with how many items were taken from its front, those that were added at its
/// end, and the changes that led to it. An item that was added and taken is kept.
#[derive(Drop)]
pub struct QueueDraft<'s> {
    lent: &'s Queue,
    taken: usize,
    added: Vec<Item>,
    journal: Vec<QueueDraftChange>,
}

impl<'s> Model for QueueDraft<'s> {
    ghost use Rattle.std.specs.Prelude.{List, reverse};
    ghost use Rattle.std.specs.Coded.{codes};
    ghost use Rattle.atoms.specs.Item.{coded_item};
    ghost use Rattle.atoms.specs.declared.item.Item.{Item};
    ghost use Rattle.drafts.specs.History.{History, journaled, seen_as};
    ghost use Rattle.drafts.specs.Queues.{queue_back, between, AreWithin};

    ghost Value = { History (List Item) };

    ghost coded = { Prim.hlevel (codes, coded_item) };

    ghost view = { λ draft. seen_as (between draft.lent.now) (journaled queue_back (record { taken = draft.taken; added = draft.added.items }) (reverse draft.journal.items)) };

    ghost invariant = { λ draft. AreWithin draft.lent.now (record { taken = draft.taken; added = draft.added.items }) (reverse draft.journal.items) };
}

impl<'s> QueueDraft<'s> {
    /// A draft to which nothing was added and from which nothing was taken. It takes no memory.
    pub fn of(alloc: Global, lent: &'s Queue) -> QueueDraft<'s>
        ensures { result ≡ unchanged lent.now }
    {
        QueueDraft {
            lent,
            taken: 0,
            added: Vec::new(alloc),
            journal: Vec::new(alloc),
        }
    }

    /// The number of items.
    pub fn len(&self) -> usize
        ensures { result ≡ length self.now.value }
    {
        self.lent.items().len() + self.added.len() - self.taken
    }

    /// The item at the front, if there is one.
    fn front(&self) -> Option<Item>
        ensures { result ≡ slice_get self.now.value 0 }
    {
        let lent = self.lent.items();
        if self.taken < lent.len() {
            Some(lent[self.taken])
        } else {
            self.added.get(self.taken - lent.len()).copied()
        }
    }

    /// The reply of a call that leaves the queue as it is, and none for a call that changes it.
    pub fn look(&self, call: &QueueCall) -> Option<QueueReply>
        ensures reply { IfSome result (λ reply. queue.reply self.now.value call.now ≡ reply) }
        ensures same { IsSome result → queue.after self.now.value call.now ≡ self.now.value }
        ensures answers { IsNone result → IsSome (queue_undoing.change self.now.value call.now) }
    {
        match call {
            QueueCall::Enq(_) => None,
            QueueCall::Deq => match self.front() {
                Some(_) => None,
                None => Some(QueueReply::Empty),
            },
            QueueCall::Length => Some(QueueReply::Number(self.len() as u64)),
        }
    }

    /// Performs a call that changes the queue, and returns its reply. On `NoMemory` the queue is as
    /// before.
    pub fn perform(&mut self, call: &QueueCall) -> Result<QueueReply, NoMemory>
        requires { IsSome (queue_undoing.change self.old.value call.now) }
        ensures reply { IfOk result (λ reply. reply ≡ queue.reply self.old.value call.now) }
        ensures ok { OnOk result (self.new ≡ changed self.old
            (queue.after self.old.value call.now)) }
        ensures err { OnErr result (self.new ≡ self.old) }
    {
        match call {
            QueueCall::Enq(item) => {
                self.enqueue(*item)?;
                Ok(QueueReply::Ok)
            }
            QueueCall::Deq => match self.front() {
                Some(item) => {
                    self.dequeue()?;
                    Ok(QueueReply::Got(item))
                }
                None => unreachable!(),
            },
            QueueCall::Length => unreachable!(),
        }
    }

    /// Adds an item at the end. On `NoMemory` the queue is as before.
    fn enqueue(&mut self, item: Item) -> Result<(), NoMemory>
        ensures ok { OnOk result (self.new ≡ changed self.old (self.old.value ++ item ∷ [])) }
        ensures err { OnErr result (self.new ≡ self.old) }
    {
        self.journal.reserve(1)?;
        self.added.push(item)?;
        self.journal.push_reserved(QueueDraftChange::Enqueued);
        Ok(())
    }

    /// Drops the item at the front. On `NoMemory` the queue is as before.
    fn dequeue(&mut self) -> Result<(), NoMemory>
        requires { IsSome (slice_get self.old.value 0) }
        ensures ok { OnOk result (self.new ≡ changed self.old (drop 1 self.old.value)) }
        ensures err { OnErr result (self.new ≡ self.old) }
    {
        self.journal.push(QueueDraftChange::Dequeued(self.taken))?;
        // The count fits: the borrowed items and the added ones are fewer than 2^63 each.
        let _lent = self.lent.items().len();
        let _added = self.added.len();
        self.taken += 1;
        Ok(())
    }

    /// Forgets what the queue was, so that no change can be taken back. It takes no memory.
    pub fn forget(&mut self)
        ensures { self.new ≡ unchanged self.old.value }
    {
        self.journal.truncate(0);
    }

    /// Takes the last change back, if there is one. It takes no memory.
    pub fn undo(&mut self)
        ensures { self.new ≡ undone self.old }
    {
        match self.journal.pop() {
            Some(QueueDraftChange::Enqueued) => {
                self.added.pop();
            }
            Some(QueueDraftChange::Dequeued(taken)) => self.taken = taken,
            None => {}
        }
    }

    /// The queue in memory of its own, or `NoMemory`.
    pub fn whole(&self, alloc: Global) -> Result<Queue, NoMemory>
        ensures { IfOk result (λ whole. whole ≡ self.now.value) }
    {
        let mut whole = Queue::new(alloc);
        let lent = self.lent.items();
        for place in self.taken..lent.len() {
            whole.push_back(lent[place])?;
        }
        for place_added in self.taken.saturating_sub(lent.len())..self.added.len() {
            whole.push_back(self.added[place_added])?;
        }
        Ok(whole)
    }
}
