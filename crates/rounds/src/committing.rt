//! Commits runs: performs what they leave on the objects.
ghost use Rattle.std.specs.Prelude.{◌≡◌, ◌+◌, ◌<◌, ◌≤◌, ◌^◌, length, drop, OnOk};
ghost use Rattle.std.specs.Thread.{IsSync, IsSend};
ghost use Rattle.batch.specs.Views.{block_view};
ghost use Rattle.rounds.specs.Views.{blocks_of, views_of};
ghost use Rattle.objects.specs.Entries.{after, AreLegal, AllHaveRoom};
ghost use Rattle.objects.specs.Parts.{CanPerformOn, ArePerformedOn};
ghost use Rattle.committed.specs.Summaries.{entries_of};
ghost use Rattle.rounds.specs.PendingRuns.{own_net, own_nets, AreSpanned};

use crate::job::{Job, committers};
use crate::pending_run::{Net, PendingRun};
use batch::{Batch, Block, perform_left};
use committed::MarkedEntry;
use objects::{Entry, Objects, Value, perform_on};
use serial::NoMemory;
use std::thread::{Threads, join_mut};

// Performs those calls of entries that are on these values, one after the other.
fn perform_each(values: &mut [Value], first: usize, entries: &[Entry]) -> Result<(), NoMemory>
    requires { CanPerformOn first values.old entries.now }
    ensures { OnOk result (ArePerformedOn first values.old values.new entries.now) }
{
    for entry in entries {
        perform_on(values, first, entry.object, &entry.call)?;
    }
    Ok(())
}

// Performs those calls of marked entries that are on these values, one after the other.
fn perform_marked(
    values: &mut [Value],
    first: usize,
    entries: &[MarkedEntry],
) -> Result<(), NoMemory>
    requires { CanPerformOn first values.old (entries_of entries.now) }
    ensures { OnOk result (ArePerformedOn first values.old values.new (entries_of entries.now)) }
{
    for marked in entries {
        perform_on(values, first, marked.entry.object, &marked.entry.call)?;
    }
    Ok(())
}

// Performs what a run of this block leaves on these values.
fn commit_one(
    block: &Block,
    run: &PendingRun,
    first: usize,
    values: &mut [Value],
) -> Result<(), NoMemory>
    requires { CanPerformOn first values.old (own_net (block_view block.now) run.now) }
    ensures { OnOk result (ArePerformedOn first values.old values.new
        (own_net (block_view block.now) run.now)) }
{
    match &run.net {
        Net::Listed(net) => perform_each(values, first, net),
        Net::Summed => perform_marked(values, first, run.sums.net()),
        Net::Recorded => perform_left(block, &run.tree, first, values),
    }
}

// Performs what runs of these blocks, from the first on, leave on these values. Runs that leave
// nothing there are passed over.
fn commit_on(
    blocks: &[Block],
    runs: &[PendingRun],
    first: usize,
    values: &mut [Value],
) -> Result<(), NoMemory>
    requires within { length runs.now ≤ length blocks.now }
    requires spans { AreSpanned (views_of blocks.now) 0 runs.now }
    requires can { CanPerformOn first values.old (own_nets (views_of blocks.now) 0 runs.now) }
    ensures { OnOk result (
        ArePerformedOn first values.old values.new (own_nets (views_of blocks.now) 0 runs.now)) }
{
    for place in 0..runs.len() {
        let run = &runs[place];
        if run.span.meets(first, values.len()) {
            commit_one(&blocks[place], run, first, values)?;
        }
    }
    Ok(())
}

// Commits runs by so many workers, each on a part of the values. The first part is done in a new
// thread, where one can be made.
#[cycle(parts)]
fn commit_by<R: Threads + Sync>(
    threads: &R,
    workers: u32,
    blocks: &[Block],
    runs: &[PendingRun],
    first: usize,
    values: &mut [Value],
) -> Result<(), NoMemory>
    requires within { length runs.now ≤ length blocks.now }
    requires spans { AreSpanned (views_of blocks.now) 0 runs.now }
    requires few { first + length values.old < 2 ^ 64 }
    requires can { CanPerformOn first values.old (own_nets (views_of blocks.now) 0 runs.now) }
    ensures { OnOk result (
        ArePerformedOn first values.old values.new (own_nets (views_of blocks.now) 0 runs.now)) }
{
    let share = values.len() / workers.max(1) as usize;
    if workers <= 1 || share == 0 {
        return commit_on(blocks, runs, first, values);
    }
    let (low, high) = values.split_at_mut(share);
    let others = workers - 1;
    let beyond = first + low.len();
    let mut on_low = || -> Result<(), NoMemory>
        requires { (length runs.now ≤ length blocks.now)
            × AreSpanned (views_of blocks.now) 0 runs.now
            × CanPerformOn first low.now (own_nets (views_of blocks.now) 0 runs.now) }
        ensures { OnOk result (ArePerformedOn first low.entry.now low.exit.now
            (own_nets (views_of blocks.entry.now) 0 runs.entry.now)) }
    { commit_on(blocks, runs, first, low) };
    let mut on_high = || -> Result<(), NoMemory>
        requires { IsSync R.row × (length runs.now ≤ length blocks.now)
            × AreSpanned (views_of blocks.now) 0 runs.now × (beyond + length high.now < 2 ^ 64)
            × CanPerformOn beyond high.now (own_nets (views_of blocks.now) 0 runs.now) }
        ensures { OnOk result (ArePerformedOn beyond high.entry.now high.exit.now
            (own_nets (views_of blocks.entry.now) 0 runs.entry.now)) }
    { commit_by(threads, others, blocks, runs, beyond, high) };
    let (low_done, high_done) = join_mut(threads, &mut on_low, &mut on_high);
    low_done?;
    high_done
}

// The blocks of the transactions from this number on.
fn blocks_from(batch: &Batch, from: usize) -> &[Block]
    requires { from ≤ length batch.now.transactions.items }
    ensures { result.now ≡ drop from batch.now.transactions.items }
{
    &batch.transactions[from..]
}

/// Commits runs of the transactions from this number on, counted from 0, in order. Where they have
/// many operations, several workers do it, each on a part of the objects. On `NoMemory` some of their
/// calls may have been performed.
pub(crate) fn commit<R: Threads + Sync, G>(
    job: &Job<R, G>,
    from: usize,
    runs: &[PendingRun],
    objects: &mut Objects,
) -> Result<(), NoMemory>
    requires within { from + length runs.now ≤ length job.now.batch.now.transactions.items }
    requires spans { AreSpanned (blocks_of job.now.batch.now) from runs.now }
    requires legal { AreLegal objects.old (own_nets (blocks_of job.now.batch.now) from runs.now) }
    requires room { AllHaveRoom objects.old
        (own_nets (blocks_of job.now.batch.now) from runs.now) }
    ensures { OnOk result (objects.new
        ≡ after objects.old (own_nets (blocks_of job.now.batch.now) from runs.now)) }
{
    let workers = committers(job, runs.len());
    let blocks = blocks_from(job.batch, from);
    commit_by(job.threads, workers, blocks, runs, 0, objects.values_mut())
}
