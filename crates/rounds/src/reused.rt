//! What the rounds use again, one after the other.
ghost use Rattle.std.specs.Prelude.{◌≡◌, []};

use crate::workspace::{Workspace, WorkspaceMemory};
use batch::Batch;
use committed::Committed;
use std::alloc::Global;
use std::mem::replace;

/// Up to how many entries a list of a run has room for where its memory is kept. A longer one would
/// take memory from all that comes after it.
const MOST_KEPT: usize = 1024;

/// Lists whose memory each round uses again.
#[derive(Drop)]
pub(crate) struct Reused {
    /// The nets of the runs before the round's first conflict.
    pub(crate) nets: Committed,
    /// In it the calling thread's workspace makes its runs.
    workspace: WorkspaceMemory,
}

impl Reused {
    /// Lists for the rounds of a batch. They take no memory yet.
    pub(crate) fn new(alloc: Global, batch: &Batch) -> Reused
        ensures { result.nets ≡ [] }
    {
        Reused {
            nets: Committed::hashed_by(alloc, batch.hashing),
            workspace: WorkspaceMemory::none(alloc),
        }
    }

    /// The memory for a workspace.
    pub(crate) fn give(&mut self, alloc: Global) -> WorkspaceMemory
        ensures { self.new.nets ≡ self.old.nets }
    {
        replace(&mut self.workspace, WorkspaceMemory::none(alloc))
    }

    /// Takes the memory of a workspace back, but for the lists of its run where they are long.
    pub(crate) fn take_back(&mut self, workspace: Workspace<'_>)
        ensures { self.new.nets ≡ self.old.nets }
    {
        let memory = workspace.into_memory();
        let run = &memory.run;
        if run.entries.capacity().max(run.net.capacity()) <= MOST_KEPT {
            self.workspace = memory;
        } else {
            self.workspace.places = memory.places;
        }
    }
}
