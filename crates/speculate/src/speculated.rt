//! Speculative runs of transactions, as they are kept.
ghost use Rattle.std.specs.Prelude.{◌≡◌, [], OnOk};
ghost use Rattle.intentions.specs.Levels.{listed_by};
ghost use Rattle.intentions.specs.declared.view.NetList.TheVariants.{Own};

use batch::Record;
use intentions::{Lists, NetList};
use meaning::End;
use objects::Entry;
use serial::NoMemory;
use std::alloc::Global;

/// What a transaction did on the objects that it was run on (Weihl 1988: an intentions list).
#[derive(Debug, Drop)]
pub struct Run {
    /// The steps that were taken, and how the transaction ended.
    pub tree: Record,
    /// All operations that it performed, with their replies, in order. Those of aborted parts are
    /// among them.
    pub entries: Vec<Entry>,
    /// The operations that no aborted subaction has. There are none where the transaction aborted.
    /// After `run_in` they are listed here only where it returns `NetList::Own`.
    pub net: Vec<Entry>,
}

impl Run {
    /// A run of no steps. This takes no memory.
    pub fn empty(alloc: Global) -> Run
        ensures steps { result.tree.taken.items ≡ [] }
        ensures entries { result.entries.items ≡ [] }
        ensures net { result.net.items ≡ [] }
    {
        let Lists { entries, net } = Lists::empty(alloc);
        Run {
            tree: Record {
                taken: Vec::new(alloc),
                outcome: End::Ended,
            },
            entries,
            net,
        }
    }

    /// Drops what is listed, and makes room for so many operations in both lists.
    ///
    /// Returns `NoMemory` where a request for memory was refused.
    pub fn make_room(&mut self, operations: usize) -> Result<(), NoMemory>
        ensures tree { self.new.tree ≡ self.old.tree }
        ensures entries { self.new.entries.items ≡ [] }
        ensures net { self.new.net.items ≡ [] }
    {
        self.entries.clear();
        self.net.clear();
        self.entries.reserve(operations)?;
        self.net.reserve(operations)?;
        Ok(())
    }

    /// Lists the net on its own, where it is all of the entries.
    ///
    /// Returns `NoMemory` where a request for memory was refused. The run is of no further use
    /// then.
    pub(crate) fn list_net(&mut self, listed: &mut NetList) -> Result<(), NoMemory>
        ensures listed { OnOk result (listed.new ≡ Own) }
        ensures tree { self.new.tree ≡ self.old.tree }
        ensures entries { self.new.entries.items ≡ self.old.entries.items }
        ensures net { OnOk result
            (self.new.net.items ≡ listed_by listed.old self.old.entries.items self.old.net.items) }
    {
        match *listed {
            NetList::Entries => {
                self.net.clear();
                self.net.extend_from_slice(&self.entries)?;
                *listed = NetList::Own;
            }
            NetList::Own => {}
        }
        Ok(())
    }
}
