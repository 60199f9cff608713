//! Pending runs: those that wait to be committed.
ghost use Rattle.std.specs.Prelude.{◌≡◌, ◌≤◌, [], length, IsTrue, None, IfOk, OnOk};
ghost use Rattle.committed.specs.Spans.{AreIn};
ghost use Rattle.committed.specs.Summaries.{entries_of};
ghost use Rattle.committed.specs.declared.summary.TheConstants.{FEW_ENTRIES};
ghost use Rattle.meaning.specs.Records.{Taken};
ghost use Rattle.meaning.specs.OneThread.{Execution};
ghost use Rattle.rounds.specs.PendingRuns.{left_by, listed_net, net_of_run, IsListedNet, AreSumsOf, IsCommittable};
ghost use Rattle.rounds.specs.Repeated.{Repeats};

use crate::repeating::are_repeated;
use batch::Record;
use committed::{FEW_ENTRIES, MarkedEntry, Span, summarize};
use intentions::NetList;
use meaning::End;
use objects::{Entry, EntryHashing, Objects};
use serial::NoMemory;
use speculate::Run;
use std::alloc::Global;
use std::mem::{replace, swap};

/// Summaries of a run's entries and of its net, by which runs are compared.
#[derive(Drop)]
pub(crate) struct Sums {
    pub(crate) entries: Vec<MarkedEntry>,
    /// None where the net is all of the entries.
    pub(crate) of_net: Option<Vec<MarkedEntry>>,
}

impl Sums {
    /// No summaries. This takes no memory.
    pub(crate) fn empty(alloc: Global) -> Sums
        ensures { result.entries.items ≡ [] }
    {
        Sums {
            entries: Vec::new(alloc),
            of_net: None,
        }
    }

    /// Makes these the summaries of other entries and of their net, which may be known to be all of
    /// the entries.
    ///
    /// Returns between which objects the net is, or `NoMemory` where a request for memory was
    /// refused. They are of no further use then.
    pub(crate) fn renew(
        &mut self,
        alloc: Global,
        hashing: EntryHashing,
        entries: &[Entry],
        net: &[Entry],
        whole: bool,
    ) -> Result<Span, NoMemory>
        requires whole { IsTrue whole → net.now ≡ entries.now }
        ensures sums { OnOk result (AreSumsOf self.new entries.now net.now) }
        ensures few { OnOk result (length net.now ≤ FEW_ENTRIES → left_by self.new ≡ net.now) }
        ensures span { IfOk result (λ span. AreIn span net.now) }
    {
        let span = summarize(alloc, hashing, entries, &mut self.entries)?;
        if whole {
            self.of_net = None;
            return Ok(span);
        }
        let mut summary = self.of_net.take().unwrap_or(Vec::new(alloc));
        let span = summarize(alloc, hashing, net, &mut summary)?;
        self.of_net = Some(summary);
        Ok(span)
    }

    /// The summary of the net.
    pub(crate) fn net(&self) -> &[MarkedEntry]
        ensures { entries_of result.now ≡ left_by self.now }
    {
        match &self.of_net {
            Some(net) => net,
            None => &self.entries,
        }
    }
}

/// Up to how many entries of a net are listed. A longer list would take more memory than all else
/// that is kept of a run.
const MOST_LISTED: usize = 256;

/// Where a run has its net.
#[derive(Drop)]
pub(crate) enum Net {
    /// In its summary, which has all of a few entries.
    Summed,
    /// In a list.
    Listed(Vec<Entry>),
    /// In its record: the calls are those of the block that was run.
    Recorded,
}

impl Net {
    // The list, or an empty one, which takes no memory.
    fn into_list(self, alloc: Global) -> Vec<Entry> {
        match self {
            Net::Listed(list) => list,
            Net::Summed | Net::Recorded => Vec::new(alloc),
        }
    }
}

/// A run that waits to be committed: its record, summaries in place of its entries, and its net.
/// Once it is listed it has summaries only where they have its net.
#[derive(Drop)]
pub(crate) struct PendingRun {
    pub(crate) tree: Record,
    pub(crate) sums: Sums,
    pub(crate) net: Net,
    /// Between which objects its net is.
    pub(crate) span: Span,
}

// The entries, in a list that has no more memory than they need, unless the spare one has.
fn copied(spare: Vec<Entry>, entries: &[Entry]) -> Result<Vec<Entry>, NoMemory>
    ensures { IfOk result (λ list. list.items ≡ entries.now) }
{
    let mut list = spare;
    list.clear();
    list.reserve_exact(entries.len())?;
    list.extend_from_slice(entries)?;
    Ok(list)
}

impl PendingRun {
    /// A run of no steps. This takes no memory.
    pub(crate) fn empty(alloc: Global) -> PendingRun
        ensures { result.sums.entries.items ≡ [] }
    {
        PendingRun {
            tree: Record {
                taken: Vec::new(alloc),
                outcome: End::Ended,
            },
            sums: Sums::empty(alloc),
            net: Net::Summed,
            span: Span::none(),
        }
    }

    /// Puts this run, whose net is listed there, in the place of the one before it, whose memory it
    /// leaves in its own.
    ///
    /// Returns `NoMemory` where a request for memory was refused. Both are of no further use then.
    pub(crate) fn put(
        &mut self,
        alloc: Global,
        hashing: EntryHashing,
        run: &mut Run,
        listed: NetList,
    ) -> Result<(), NoMemory>
        requires whole { length (net_of_run listed run.old) ≡ length run.old.entries.items
            → net_of_run listed run.old ≡ run.old.entries.items }
        ensures tree { OnOk result (self.new.tree ≡ run.old.tree) }
        ensures sums { OnOk result
            (AreSumsOf self.new.sums run.old.entries.items (net_of_run listed run.old)) }
        ensures net { OnOk result
            (IsListedNet self.new.net → listed_net self.new ≡ net_of_run listed run.old) }
        ensures span { OnOk result (AreIn self.new.span (net_of_run listed run.old)) }
    {
        let net = listed.of(&run.entries, &run.net);
        let whole = net.len() == run.entries.len();
        self.span = self.sums.renew(alloc, hashing, &run.entries, net, whole)?;
        let spare = replace(&mut self.net, Net::Recorded).into_list(alloc);
        self.net = if net.len() <= FEW_ENTRIES {
            Net::Summed
        } else if net.len() <= MOST_LISTED {
            Net::Listed(copied(spare, net)?)
        } else {
            Net::Recorded
        };
        swap(&mut self.tree, &mut run.tree);
        Ok(())
    }

    /// Whether the run left all of a few entries, and their calls get the same replies on these
    /// objects. It is the run of its transaction there then.
    pub(crate) fn repeats(&self, objects: &Objects) -> bool
        ensures { IsTrue result → Repeats objects.now self.now }
    {
        if self.sums.of_net.is_some() {
            return false;
        }
        match &self.net {
            Net::Summed => are_repeated(objects, &self.sums.entries),
            Net::Listed(_) | Net::Recorded => false,
        }
    }

    /// Frees the summaries, unless the net is in them. The rest can still be committed.
    pub(crate) fn free_sums(&mut self, alloc: Global)
        ensures { (meant : Execution Taken) → IsCommittable meant self.old
            → IsCommittable meant self.new }
    {
        if !matches!(self.net, Net::Summed) {
            self.sums = Sums::empty(alloc);
        }
    }

    /// Takes the record away, and leaves an empty one. The memory of the rest stays.
    pub(crate) fn take_record(&mut self, alloc: Global) -> Record
        ensures { result ≡ self.old.tree }
    {
        let none = Record {
            taken: Vec::new(alloc),
            outcome: End::Ended,
        };
        replace(&mut self.tree, none)
    }
}
