//! The window: runs of the transactions that the rounds have come to.
ghost use Rattle.std.specs.Prelude.{◌≡◌, ◌+◌, ◌<◌, ◌≤◌, ℕ, [], false, length, take, slice_index_or, IfOk, OnOk, IsTrue};
ghost use Rattle.std.specs.List.{All};
ghost use Rattle.objects.specs.Entries.{kinds};
ghost use Rattle.claims.specs.Views.{bit};
ghost use Rattle.rounds.specs.Workspaces.{IsReadyOn};
ghost use Rattle.rounds.specs.Passes.{CanBeMade};
ghost use Rattle.rounds.specs.PendingRuns.{IsPendingOf, HoldsPast};
ghost use Rattle.rounds.specs.Repeated.{Repeats};
ghost use Rattle.rounds.specs.Views.{blocks_of, meaning};
ghost use Rattle.rounds.specs.Windows.{run_at, flag_at, end_of, runs_between, IsValid, AllValid, IsWindowAt, IsOpenedBy, HasGrown, IsPutInWindow, AreFallen, AreStale, AreKept, IsFreedAt, AreMovedUp, AreSettled, IsShortened, IsRenewed, AreMissing, IsDecided, Told, ArePassing};
ghost use Rattle.rounds.specs.declared.pending_run.PendingRun.{PendingRun as OnePending};
ghost use Rattle.meaning.specs.declared.limits.TheConstants.{MAX_TRANSACTIONS};
ghost use Rattle.plan.specs.declared.plan.TheConstants.{MAX_WORKERS};

use crate::check::{check_past, stands_past};
use crate::job::{Job, checkers, makers};
use crate::make::{NumberedRun, make_all};
use crate::pending_run::PendingRun;
use crate::workspace::Workspace;
use batch::{Batch, Record};
use committed::Committed;
use meaning::limits::MAX_TRANSACTIONS;
use objects::Objects;
use serial::NoMemory;
use speculate::Gate;
use std::alloc::Global;
use std::thread::Threads;
use workers::{WorkerState, give_all};

/// The runs of the transactions that are pending and that a round came to.
#[derive(Drop)]
pub(crate) struct Window {
    /// The number of the first, counted from 0. The transactions before it are committed, and some
    /// from it on may be.
    pub(crate) first: usize,
    /// The runs by number, from that of the first on.
    pub(crate) runs: Vec<PendingRun>,
    /// Which of the runs are those of their transactions on the objects of the opening, where these
    /// aren't committed. The others are still to be made.
    pub(crate) valid: Vec<bool>,
}

/// What was made of a block of runs.
#[derive(Drop)]
pub(crate) struct MadeRuns {
    /// The numbers of the runs that weren't valid.
    pub(crate) numbers: Vec<usize>,
    /// Which of the block's runs were seen to pass the nets that are listed. There may be fewer flags
    /// than runs: the others weren't looked at.
    pub(crate) passing: Vec<bool>,
}

// So many flags, none of which is set.
fn no_flags(alloc: Global, count: usize) -> Result<Vec<bool>, NoMemory>
    ensures all { IfOk result (λ flags. length flags.items ≡ count) }
    ensures none { IfOk result (λ flags. (i : ℕ) → slice_index_or flags.items i false ≡ false) }
{
    let mut flags = Vec::with_capacity(alloc, count)?;
    for _ in 0..count {
        flags.push(false)?;
    }
    Ok(flags)
}

impl Window {
    /// A window without runs. Nothing is committed.
    pub(crate) fn new(alloc: Global) -> Window
        ensures first { result.first ≡ 0 }
        ensures runs { result.runs.items ≡ [] }
        ensures valid { result.valid.items ≡ [] }
    {
        Window {
            first: 0,
            runs: Vec::new(alloc),
            valid: Vec::new(alloc),
        }
    }

    /// The number after that of the last run.
    pub(crate) fn end(&self) -> usize
        requires few { end_of self.now ≤ MAX_TRANSACTIONS }
        ensures { result ≡ end_of self.now }
    {
        self.first + self.runs.len()
    }

    /// The runs from one number on and before another.
    pub(crate) fn between(&self, from: usize, end: usize) -> &[PendingRun]
        requires { (self.now.first ≤ from) × (from ≤ end) × (end ≤ end_of self.now) }
        ensures { result.now ≡ runs_between self.now from end }
    {
        &self.runs[from - self.first..end - self.first]
    }

    /// Adds runs that are still to be made, up to those before a number.
    ///
    /// Returns `NoMemory` where a request for memory was refused.
    pub(crate) fn reach(
        &mut self,
        alloc: Global,
        batch: &Batch,
        from: usize,
        objects: &Objects,
        end: usize,
    ) -> Result<(), NoMemory>
        requires window { IsWindowAt batch.now from objects.now self.old }
        requires end { end ≤ length (blocks_of batch.now) }
        ensures window { OnOk result (IsWindowAt batch.now from objects.now self.new) }
        ensures grown { OnOk result (HasGrown from self.old self.new) }
        ensures reached { OnOk result (end ≤ end_of self.new) }
        ensures flags { OnOk result ((i : ℕ) → flag_at self.new i ≡ flag_at self.old i) }
    {
        'reaching: while self.end() < end {
            self.runs.push(PendingRun::empty(alloc))?;
            self.valid.push(false)?;
        }
        Ok(())
    }

    /// Makes the run with this number in the workspace, unless it is valid.
    ///
    /// Returns `NoMemory` where a request for memory was refused. The workspace is of no further use
    /// then.
    pub(crate) fn make_at<R: Threads + Sync, G: Gate>(
        &mut self,
        job: &Job<R, G>,
        from: usize,
        number: usize,
        width: u32,
        workspace: &mut Workspace<'_>,
    ) -> Result<(), NoMemory>
        requires window { IsWindowAt job.now.batch.now from workspace.old.view.snapshot self.old }
        requires number { (from ≤ number) × (number < end_of self.old) }
        requires few { number ≤ MAX_TRANSACTIONS }
        requires can { CanBeMade job.now.batch.now workspace.old.view.snapshot number }
        requires same_kinds { kinds workspace.old.view.snapshot ≡ kinds job.now.batch.now.objects }
        requires narrow { (1 ≤ width) × (width ≤ MAX_WORKERS) }
        requires ready { IsReadyOn workspace.old.view.snapshot workspace.old }
        ensures window { OnOk result (
            IsWindowAt job.now.batch.now from workspace.old.view.snapshot self.new) }
        ensures grown { OnOk result (HasGrown from self.old self.new) }
        ensures valid { OnOk result (IsValid self.new number) }
        ensures reached { OnOk result (length self.new.runs.items ≡ length self.old.runs.items) }
        ensures ready { OnOk result (IsReadyOn workspace.old.view.snapshot workspace.new) }
    {
        let place = number - self.first;
        if !self.valid[place] {
            let run = &mut self.runs[place];
            workspace.make(job, number, width, run)?;
            self.valid[place] = true;
        }
        Ok(())
    }

    // Makes the runs of these numbers in one workspace, those that aren't valid.
    fn make_in_turn<R: Threads + Sync, G: Gate>(
        &mut self,
        job: &Job<R, G>,
        from: usize,
        objects: &Objects,
        numbers: &[usize],
    ) -> Result<(), NoMemory>
        requires opening { IsOpenedBy job.now.batch.now from objects.now }
        requires window { IsWindowAt job.now.batch.now from objects.now self.old }
        requires places { All (λ n. (from ≤ n) × (n < end_of self.old)) numbers.now }
        requires few { length numbers.now ≤ MAX_TRANSACTIONS }
        ensures window { OnOk result (IsWindowAt job.now.batch.now from objects.now self.new) }
        ensures grown { OnOk result (HasGrown from self.old self.new) }
        ensures reached { OnOk result (length self.new.runs.items ≡ length self.old.runs.items) }
        ensures valid { OnOk result (All (λ n. IsValid self.new n) numbers.now) }
    {
        let width = job.plan.width(numbers.len() as u32);
        let mut workspace = Workspace::open(job.alloc, objects, job.operations_each)?;
        for number in numbers {
            self.make_at(job, from, *number, width, &mut workspace)?;
        }
        Ok(())
    }

    // Puts a run into the place of its number.
    fn put(&mut self, made: NumberedRun)
        requires flags { length self.old.valid.items ≡ length self.old.runs.items }
        requires number { (self.old.first ≤ made.number) × (made.number < end_of self.old) }
        ensures { IsPutInWindow made self.old self.new }
    {
        let NumberedRun { number, run, .. } = made;
        let place = number - self.first;
        self.runs[place] = Box::into_inner(run);
        self.valid[place] = true;
    }

    // Makes the runs of these numbers by several workers. Returns which of the runs, from that of the
    // number `from` on, were seen to pass these nets.
    fn make_at_once<R: Threads + Sync, G: Gate>(
        &mut self,
        job: &Job<R, G>,
        from: usize,
        objects: &Objects,
        numbers: &[usize],
        nets: &Committed,
    ) -> Result<Vec<bool>, NoMemory>
        requires opening { IsOpenedBy job.now.batch.now from objects.now }
        requires window { IsWindowAt job.now.batch.now from objects.now self.old }
        requires places { All (λ n. (from ≤ n) × (n < end_of self.old)) numbers.now }
        requires few { length numbers.now ≤ MAX_TRANSACTIONS }
        ensures window { OnOk result (IsWindowAt job.now.batch.now from objects.now self.new) }
        ensures grown { OnOk result (HasGrown from self.old self.new) }
        ensures reached { OnOk result (length self.new.runs.items ≡ length self.old.runs.items) }
        ensures valid { OnOk result (All (λ n. IsValid self.new n) numbers.now) }
        ensures passing { IfOk result (λ flags. ArePassing nets.now from self.new flags.items) }
    {
        let mut made = make_all(job, objects, numbers, nets)?;
        let mut passing = no_flags(job.alloc, self.end().saturating_sub(from))?;
        'putting: while let Some(next) = made.pop() {
            passing[next.number - from] = next.passes;
            self.put(next);
        }
        Ok(passing)
    }

    // Makes the runs of these numbers by as many workers as pay. Returns which of them were seen to
    // pass these nets. One worker alone looks at none of its runs.
    fn make<R: Threads + Sync, G: Gate>(
        &mut self,
        job: &Job<R, G>,
        from: usize,
        objects: &Objects,
        numbers: &[usize],
        nets: &Committed,
    ) -> Result<Vec<bool>, NoMemory>
        requires opening { IsOpenedBy job.now.batch.now from objects.now }
        requires window { IsWindowAt job.now.batch.now from objects.now self.old }
        requires places { All (λ n. (from ≤ n) × (n < end_of self.old)) numbers.now }
        requires few { length numbers.now ≤ MAX_TRANSACTIONS }
        ensures window { OnOk result (IsWindowAt job.now.batch.now from objects.now self.new) }
        ensures grown { OnOk result (HasGrown from self.old self.new) }
        ensures reached { OnOk result (length self.new.runs.items ≡ length self.old.runs.items) }
        ensures valid { OnOk result (All (λ n. IsValid self.new n) numbers.now) }
        ensures passing { IfOk result (λ flags. ArePassing nets.now from self.new flags.items) }
    {
        if makers(job, numbers.len()) == 1 {
            self.make_in_turn(job, from, objects, numbers)?;
            return Ok(Vec::new(job.alloc));
        }
        self.make_at_once(job, from, objects, numbers, nets)
    }

    // The numbers from one on and before another whose runs aren't valid.
    fn missing(&self, alloc: Global, from: usize, end: usize) -> Result<Vec<usize>, NoMemory>
        requires flags { length self.now.valid.items ≡ length self.now.runs.items }
        requires from { (self.now.first ≤ from) × (from ≤ end) }
        requires end { end ≤ end_of self.now }
        ensures missing { IfOk result (λ numbers. AreMissing self.now from end numbers.items) }
    {
        let mut numbers = Vec::new(alloc);
        for number in from..end {
            if !self.valid[number - self.first] {
                numbers.push(number)?;
            }
        }
        Ok(numbers)
    }

    /// Makes those of the runs from one number on and before another that aren't valid. Several
    /// workers look at each of them with the nets that are listed.
    ///
    /// Returns `NoMemory` where a request for memory was refused.
    pub(crate) fn make_missing<R: Threads + Sync, G: Gate>(
        &mut self,
        job: &Job<R, G>,
        objects: &Objects,
        from: usize,
        end: usize,
        nets: &Committed,
    ) -> Result<MadeRuns, NoMemory>
        requires opening { IsOpenedBy job.now.batch.now from objects.now }
        requires window { IsWindowAt job.now.batch.now from objects.now self.old }
        requires places { (from ≤ end) × (end ≤ end_of self.old) }
        ensures window { OnOk result (IsWindowAt job.now.batch.now from objects.now self.new) }
        ensures grown { OnOk result (HasGrown from self.old self.new) }
        ensures reached { OnOk result (length self.new.runs.items ≡ length self.old.runs.items) }
        ensures valid { OnOk result (AllValid self.new from end) }
        ensures missing { IfOk result (λ made. AreMissing self.old from end made.numbers.items) }
        ensures passing { IfOk result (λ made.
            ArePassing nets.now from self.new made.passing.items) }
    {
        let numbers = self.missing(job.alloc, from, end)?;
        let passing = self.make(job, from, objects, &numbers, nets)?;
        Ok(MadeRuns { numbers, passing })
    }

    // Whether the run with this number is valid and doesn't stand past what was committed, which is
    // the first `upto` entries of the nets. It is so many places after the first that is left.
    fn falls<G: Gate>(
        &self,
        gate: &G,
        piece: u32,
        number: usize,
        nets: &Committed,
        upto: usize,
    ) -> bool
        requires flags { length self.now.valid.items ≡ length self.now.runs.items }
        requires number { (self.now.first ≤ number) × (number < end_of self.now) }
        requires piece { piece ≤ MAX_TRANSACTIONS }
        requires upto { upto ≤ length nets.now }
        ensures { (d : OnePending) → Told self.now (take upto nets.now) number (bit result) d }
    {
        let place = number - self.first;
        if !self.valid[place] {
            return false;
        }
        gate.pass(0, MAX_TRANSACTIONS as u32 + piece + 1);
        !stands_past(&self.runs, place, nets, upto)
    }

    // The numbers, from one on, of the valid runs that don't stand past what was committed, which
    // is the first `upto` entries of the nets. So many workers decide the runs side by side, a run
    // as a piece.
    fn fallen<R: Threads + Sync, G: Gate>(
        &self,
        job: &Job<R, G>,
        workers: u32,
        from: usize,
        nets: &Committed,
        upto: usize,
    ) -> Result<Vec<usize>, NoMemory>
        requires flags { length self.now.valid.items ≡ length self.now.runs.items }
        requires few { end_of self.now ≤ MAX_TRANSACTIONS }
        requires workers { (1 ≤ workers) × (workers ≤ MAX_WORKERS) }
        requires upto { upto ≤ length nets.now }
        requires from { (self.now.first ≤ from) × (from ≤ end_of self.now) }
        ensures { IfOk result (λ numbers. AreFallen self.now (take upto nets.now) from
            (end_of self.now) numbers.items) }
    {
        let Job {
            threads,
            alloc,
            gate,
            ..
        } = *job;
        let count = self.end() - from;
        give_all(
            threads,
            alloc,
            count as u32,
            workers,
            &|piece: u32, state: WorkerState<(), usize>| -> Result<WorkerState<(), usize>, NoMemory>
                requires { (self.now.first ≤ from) × (from + piece < end_of self.now)
                    × (length self.now.valid.items ≡ length self.now.runs.items)
                    × (end_of self.now ≤ MAX_TRANSACTIONS) × (upto ≤ length nets.now) }
                ensures { IfOk result (λ after. IsDecided self.entry.now (take upto nets.entry.now)
                    (from + piece) state.items.items after.items.items) }
            {
                let WorkerState {
                    workspace,
                    mut items,
                } = state;
                let number = from + piece as usize;
                if self.falls(gate, piece, number, nets, upto) {
                    items.push(number)?;
                }
                Ok(WorkerState { workspace, items })
            },
        )
    }

    // The runs of these numbers aren't valid any more.
    fn forget(&mut self, numbers: &[usize])
        requires flags { length self.old.valid.items ≡ length self.old.runs.items }
        requires within { All (λ n. (self.old.first ≤ n) × (n < end_of self.old)) numbers.now }
        ensures { AreStale numbers.now self.old self.new }
    {
        for number in numbers {
            self.valid[*number - self.first] = false;
        }
    }

    // Keeps of the runs from one number on those that stand past what was committed. One worker
    // decides them in turn.
    fn keep_in_turn<G: Gate>(
        &mut self,
        gate: &G,
        from: usize,
        nets: &mut Committed,
        upto: usize,
    ) -> Result<(), NoMemory>
        requires flags { length self.old.valid.items ≡ length self.old.runs.items }
        requires few { end_of self.old ≤ MAX_TRANSACTIONS }
        requires upto { upto ≤ length nets.old }
        requires from { (self.old.first ≤ from) × (from ≤ end_of self.old) }
        ensures { OnOk result (AreKept from (take upto nets.old) self.old self.new) }
    {
        for number in from..self.end() {
            let place = number - self.first;
            if self.valid[place] {
                let piece = (number - from) as u32;
                gate.pass(0, MAX_TRANSACTIONS as u32 + piece + 1);
                self.valid[place] = check_past(&self.runs, place, nets, upto)?;
            }
        }
        Ok(())
    }

    // Keeps of the runs from one number on those that stand past what was committed, which is the
    // first `upto` entries of the nets. The others aren't valid then.
    fn keep<R: Threads + Sync, G: Gate>(
        &mut self,
        job: &Job<R, G>,
        from: usize,
        nets: &mut Committed,
        upto: usize,
    ) -> Result<(), NoMemory>
        requires flags { length self.old.valid.items ≡ length self.old.runs.items }
        requires few { end_of self.old ≤ MAX_TRANSACTIONS }
        requires upto { upto ≤ length nets.old }
        requires from { (self.old.first ≤ from) × (from ≤ end_of self.old) }
        ensures { OnOk result (AreKept from (take upto nets.old) self.old self.new) }
    {
        let workers = checkers(job, self.end() - from);
        if workers == 1 {
            return self.keep_in_turn(job.gate, from, nets, upto);
        }
        nets.list()?;
        let fallen = self.fallen(job, workers, from, nets, upto)?;
        self.forget(&fallen);
        Ok(())
    }

    /// Keeps of the runs from the first conflict on those that stand past what was committed, which
    /// is the first `upto` entries of the nets. The run of the conflict doesn't, and isn't compared
    /// again.
    ///
    /// Returns `NoMemory` where a request for memory was refused.
    pub(crate) fn keep_after<R: Threads + Sync, G: Gate>(
        &mut self,
        job: &Job<R, G>,
        conflict: usize,
        nets: &mut Committed,
        upto: usize,
    ) -> Result<(), NoMemory>
        requires flags { length self.old.valid.items ≡ length self.old.runs.items }
        requires few { end_of self.old ≤ MAX_TRANSACTIONS }
        requires upto { upto ≤ length nets.old }
        requires from { (self.old.first ≤ conflict) × (conflict ≤ end_of self.old) }
        requires falls { (d : OnePending) → IsValid self.old conflict
            → ¬ HoldsPast (take upto nets.old) (run_at self.old conflict d) }
        ensures { OnOk result (AreKept conflict (take upto nets.old) self.old self.new) }
    {
        if conflict == self.end() {
            return Ok(());
        }
        self.keep(job, conflict + 1, nets, upto)?;
        self.valid[conflict - self.first] = false;
        Ok(())
    }

    /// Whether the run with this number is valid, and its calls are known to get the same replies on
    /// other objects. It is a run on these, too, then.
    pub(crate) fn repeats(&self, number: usize, objects: &Objects) -> bool
        requires flags { length self.now.valid.items ≡ length self.now.runs.items }
        requires number { self.now.first ≤ number }
        ensures valid { IsTrue result → IsValid self.now number }
        ensures repeats { IsTrue result
            → (d : OnePending) → Repeats objects.now (run_at self.now number d) }
    {
        let place = number - self.first;
        if place >= self.valid.len() {
            return false;
        }
        if !self.valid[place] {
            return false;
        }
        self.runs[place].repeats(objects)
    }

    /// Makes the run with this number valid, where it is one on the objects of the next opening.
    pub(crate) fn renew(&mut self, number: usize, again: bool)
        requires flags { length self.old.valid.items ≡ length self.old.runs.items }
        requires number { IsTrue again → (self.old.first ≤ number) × (number < end_of self.old) }
        ensures { IsRenewed number again self.old self.new }
    {
        if again {
            self.valid[number - self.first] = true;
        }
    }

    /// Drops the runs from one number on.
    pub(crate) fn shorten(&mut self, end: usize)
        ensures { IsShortened end self.old self.new }
    {
        let count = end.saturating_sub(self.first);
        self.runs.truncate(count);
        self.valid.truncate(count);
    }

    /// Frees the summaries of the run with this number, unless its net is in them.
    pub(crate) fn free_sums(&mut self, alloc: Global, number: usize)
        requires { (self.old.first ≤ number) × (number < end_of self.old) }
        ensures { IsFreedAt number self.old self.new }
    {
        let place = number - self.first;
        self.runs[place].free_sums(alloc);
    }

    // Brings the runs past the first places to the front, in their order. Those that were there come
    // to the end, and aren't valid any more. They are no fewer.
    fn move_up(&mut self, count: usize)
        requires flags { length self.old.valid.items ≡ length self.old.runs.items }
        requires inside { count ≤ length self.old.runs.items }
        requires half { length self.old.runs.items ≤ count + count }
        ensures { AreMovedUp count self.old self.new }
    {
        let left = self.runs.len() - count;
        for place in 0..left {
            self.runs.swap(place, count + place);
            self.valid[place] = self.valid[count + place];
        }
        for place in left..self.valid.len() {
            self.valid[place] = false;
        }
    }

    /// Moves the records of the runs from one number on and before another to the end of a list.
    /// Those of the runs before them were moved earlier. The memory of all these runs is kept for
    /// runs of later transactions: where they have at least half of the places, these are exchanged
    /// with the later ones, with which the window begins. So a transaction costs one exchange of two
    /// places at most.
    ///
    /// Returns `NoMemory` where a request for memory was refused.
    pub(crate) fn settle(
        &mut self,
        alloc: Global,
        from: usize,
        end: usize,
        records: &mut Vec<Record>,
    ) -> Result<(), NoMemory>
        requires flags { length self.old.valid.items ≡ length self.old.runs.items }
        requires from { (self.old.first ≤ from) × (from ≤ end) }
        requires end { end ≤ end_of self.old }
        ensures { OnOk result (AreSettled from end self.old self.new records.old records.new) }
    {
        let count = end - self.first;
        for place in from - self.first..count {
            records.push(self.runs[place].take_record(alloc))?;
        }
        if count >= self.runs.len() - count {
            self.move_up(count);
            self.first = end;
        }
        Ok(())
    }
}
