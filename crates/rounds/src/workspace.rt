//! What one worker uses again from run to run.
ghost use Rattle.std.specs.Prelude.{◌≡◌, ◌≤◌, [], IfOk, OnOk};
ghost use Rattle.objects.specs.Entries.{kinds};
ghost use Rattle.intentions.specs.Levels.{opened};
ghost use Rattle.rounds.specs.Views.{meaning};
ghost use Rattle.rounds.specs.Passes.{CanBeMade};
ghost use Rattle.rounds.specs.PendingRuns.{IsPendingOf};
ghost use Rattle.meaning.specs.declared.limits.TheConstants.{MAX_TRANSACTIONS};
ghost use Rattle.plan.specs.declared.plan.TheConstants.{MAX_WORKERS};

use crate::job::Job;
use crate::pending_run::PendingRun;
use intentions::{PagedPlaces, View};
use meaning::Held;
use objects::Objects;
use serial::NoMemory;
use speculate::{Gate, Maker, Run, run_in};
use std::alloc::Global;
use std::mem::swap;
use std::thread::Threads;

/// The memory of a workspace, without the objects that it was on.
#[derive(Drop)]
pub(crate) struct WorkspaceMemory {
    pub(crate) places: PagedPlaces,
    pub(crate) run: Run,
}

impl WorkspaceMemory {
    /// No memory.
    pub(crate) fn none(alloc: Global) -> WorkspaceMemory {
        WorkspaceMemory {
            places: PagedPlaces::new(alloc),
            run: Run::empty(alloc),
        }
    }
}

/// A view of the objects, labels and a run, in which one worker makes its runs, one after the other.
#[derive(Drop)]
pub(crate) struct Workspace<'s> {
    view: View<'s>,
    labels: Vec<Held>,
    pub(crate) run: Run,
    /// For how many operations the lists of a run have room from the first.
    room: usize,
}

impl<'s> Workspace<'s> {
    /// A workspace on these objects, for runs of about so many operations each.
    pub(crate) fn open(
        alloc: Global,
        objects: &'s Objects,
        room: usize,
    ) -> Result<Workspace<'s>, NoMemory>
        ensures opened { IfOk result (λ workspace. workspace.view ≡ opened objects.now) }
        ensures unlabelled { IfOk result (λ workspace. workspace.labels.items ≡ []) }
    {
        Ok(Workspace {
            view: View::open(alloc, objects)?,
            labels: Vec::new(alloc),
            run: Run::empty(alloc),
            room,
        })
    }

    /// A workspace on these objects, in the memory that the workspace of an earlier round left.
    pub(crate) fn open_in(
        alloc: Global,
        objects: &'s Objects,
        room: usize,
        memory: WorkspaceMemory,
    ) -> Workspace<'s>
        ensures opened { result.view ≡ opened objects.now }
        ensures unlabelled { result.labels.items ≡ [] }
    {
        Workspace {
            view: View::open_in(alloc, objects, memory.places),
            labels: Vec::new(alloc),
            run: memory.run,
            room,
        }
    }

    /// The objects that it is on.
    pub(crate) fn objects(&self) -> &Objects
        ensures { result.now ≡ self.now.view.snapshot }
    {
        self.view.snapshot()
    }

    /// Its memory, for the next round.
    pub(crate) fn into_memory(self) -> WorkspaceMemory {
        WorkspaceMemory {
            places: self.view.into_places(),
            run: self.run,
        }
    }

    /// Makes a run of the transaction with this number, counted from 0, in the memory of the one
    /// before it. Leaves the workspace ready for the next.
    ///
    /// After it returns `NoMemory`, the workspace and the run are of no further use.
    pub(crate) fn make<R: Threads + Sync, G: Gate>(
        &mut self,
        job: &Job<R, G>,
        number: usize,
        width: u32,
        pending: &mut PendingRun,
    ) -> Result<(), NoMemory>
        requires few { number ≤ MAX_TRANSACTIONS }
        requires can { CanBeMade job.now.batch.now self.old.view.snapshot number }
        requires same_kinds { kinds self.old.view.snapshot ≡ kinds job.now.batch.now.objects }
        requires narrow { (1 ≤ width) × (width ≤ MAX_WORKERS) }
        requires opened { self.old.view ≡ opened self.old.view.snapshot }
        requires unlabelled { self.old.labels.items ≡ [] }
        ensures made { OnOk result (
            IsPendingOf (meaning job.now.batch.now number self.old.view.snapshot) pending.new) }
        ensures again { OnOk result (self.new.view ≡ self.old.view) }
        ensures unlabelled { OnOk result (self.new.labels.items ≡ []) }
    {
        swap(&mut pending.tree, &mut self.run.tree);
        self.run.make_room(self.room)?;
        let maker = Maker {
            threads: job.threads,
            alloc: job.alloc,
            batch: job.batch,
            gate: job.gate,
            width,
        };
        let listed = run_in(
            &maker,
            number as u32 + 1,
            &mut self.view,
            &mut self.labels,
            &mut self.run,
        )?;
        pending.put(job.alloc, job.batch.hashing, &mut self.run, listed)?;
        Ok(())
    }
}
