//! Runs of a parallel step's children that are made ahead: what they share, and how each is kept.
ghost use Rattle.std.specs.Prelude.{◌≡◌, ◌++◌, ◌≤◌, drop, length, IfOk, OnOk, IfNone, IsOkAnd};
ghost use Rattle.std.specs.Option.{ForSome};
ghost use Rattle.objects.specs.Entries.{AreLegal, AllCommute};
ghost use Rattle.committed.specs.Summaries.{entries_of, IsSummary};
ghost use Rattle.intentions.specs.Levels.{shown_values, AllHaveRoom};
ghost use Rattle.speculate.specs.Ahead.{IsKept};

use crate::worth::is_worth;
use batch::{Subaction, Tried};
use committed::{Committed, MarkedEntry, summarize};
use intentions::{Lists, View};
use meaning::Held;
use objects::{Entry, EntryHashing, Objects};
use serial::NoMemory;
use std::alloc::Global;

/// What all parts of a transaction's run share: its number, the allocator, and how tables of its
/// entries are hashed.
#[derive(Clone, Copy, Drop)]
pub(crate) struct Shared {
    pub(crate) number: u32,
    pub(crate) alloc: Global,
    pub(crate) hashing: EntryHashing,
}

/// What those children of a parallel step share that are run ahead: also the labels and the state
/// that their parent sees at the step.
#[derive(Drop)]
pub(crate) struct Fork {
    pub(crate) shared: Shared,
    pub(crate) labels: Vec<Held>,
    pub(crate) state: Objects,
}

impl Fork {
    /// A copy of the labels and of the state that the parent shows, where its children are to be run
    /// ahead: there are several, the width is for more than one, and they are worth the copies.
    pub(crate) fn if_wide(
        shared: Shared,
        children: &[Subaction],
        labels: &[Held],
        view: &View<'_>,
        width: u32,
    ) -> Result<Option<Fork>, NoMemory>
        ensures labels { IfOk result (λ fork. ForSome fork (λ f. f.labels.items ≡ labels.now)) }
        ensures state { IfOk result (λ fork. ForSome fork (λ f. f.state ≡ shown_values view.now)) }
    {
        if width < 2 || children.len() < 2 || !is_worth(children, labels.len(), view.snapshot()) {
            return Ok(None);
        }
        Ok(Some(Fork {
            shared,
            labels: Vec::from_slice(shared.alloc, labels)?,
            state: view.state()?,
        }))
    }
}

/// The run of a child in a view of its own: all its entries, a summary of them, and its net (Weihl
/// 1988: an intentions list).
#[derive(Drop)]
pub(crate) struct Ahead {
    pub(crate) tried: Tried,
    pub(crate) entries: Vec<Entry>,
    pub(crate) summary: Vec<MarkedEntry>,
    pub(crate) net: Vec<Entry>,
}

impl Ahead {
    /// What a child did that was run in this view, with all that the view recorded.
    pub(crate) fn of(shared: Shared, tried: Tried, view: View<'_>) -> Result<Ahead, NoMemory>
        requires { length view.outer ≡ 0 }
        ensures tried { IfOk result (λ run. run.tried ≡ tried) }
        ensures entries { IfOk result (λ run. run.entries.items ≡ view.entry.entries) }
        ensures net { IfOk result (λ run. run.net.items ≡ view.entry.net) }
        ensures summary { IfOk result (λ run. IsSummary (entries_of run.summary.items)
            run.entries.items) }
    {
        let Lists { entries, net } = view.into_run();
        let mut summary = Vec::new(shared.alloc);
        summarize(shared.alloc, shared.hashing, &entries, &mut summary)?;
        Ok(Ahead {
            tried,
            entries,
            summary,
            net,
        })
    }

    /// Takes the run in, where each of its entries commutes forward with all that earlier siblings
    /// left. Otherwise nothing changes.
    pub(crate) fn keep(
        self,
        kept: &mut Committed,
        view: &mut View<'_>,
    ) -> Result<Option<Tried>, NoMemory>
        requires summary { IsSummary (entries_of self.summary.items) self.entries.items }
        requires legal { AllCommute self.entries.items kept.old
            → AreLegal (shown_values view.old) self.net.items }
        requires room { AllCommute self.entries.items kept.old
            → AllHaveRoom (shown_values view.old) self.net.items }
        ensures taken_in { IfOk result (λ tried. ForSome tried
            (λ t. IsKept self kept.old view.old t kept.new view.new)) }
        ensures kept { IfOk result (λ tried. IfNone tried (kept.new ≡ kept.old)) }
        ensures view { IfOk result (λ tried. IfNone tried (view.new ≡ view.old)) }
    {
        let listed = kept.len();
        if !kept.check(&self.summary, listed)? {
            return Ok(None);
        }
        view.absorb(&self.entries, &self.net)?;
        kept.append(&self.net)?;
        Ok(Some(self.tried))
    }
}

/// The runs of the first half of some children, and after them those of the other half.
pub(crate) fn both_halves(
    front: Result<Vec<Ahead>, NoMemory>,
    back: Result<Vec<Ahead>, NoMemory>,
) -> Result<Vec<Ahead>, NoMemory>
    ensures { IfOk result (λ runs. IsOkAnd front (λ first. IsOkAnd back
        (λ second. runs.items ≡ first.items ++ second.items))) }
{
    let mut runs = front?;
    let mut others = back?;
    runs.append(&mut others)?;
    Ok(runs)
}

/// Lists what came to the net of the view's level since the net had this length.
pub(crate) fn list_since(
    kept: &mut Committed,
    view: &View<'_>,
    before: usize,
) -> Result<(), NoMemory>
    requires { before ≤ length view.now.net }
    ensures { OnOk result (kept.new ≡ kept.old ++ drop before view.now.net) }
{
    kept.append(&view.net()[before..])?;
    Ok(())
}
