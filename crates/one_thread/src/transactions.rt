//! Running the transactions of a batch one after the other.
ghost use Rattle.std.specs.Prelude.{◌≡◌, ◌≤◌, [], map, length, IfOk, OnOk};
ghost use Rattle.meaning.specs.OneThread.{one};
ghost use Rattle.meaning.specs.Batch.{settled, shown_of, all_shown, final_state};
ghost use Rattle.batch.specs.Parts.{start_of, blocks_of};
ghost use Rattle.batch.specs.Views.{block_view, record_view};
ghost use Rattle.batch.specs.Running.{CanRunHere};
ghost use Rattle.meaning.specs.declared.limits.TheConstants.{MAX_OBJECTS};

use crate::executor::run_block;
use crate::workspace::JournaledObjects;
use batch::{Batch, Block, Plain, Record};
use meaning::End;
use serial::NoMemory;
use std::alloc::Global;

/// Runs the transactions of a batch by number on one thread, depth first (Moss 1981). Returns their
/// records and the objects after the last. The batch stays as it is.
///
/// Returns `NoMemory` where a request for memory was refused, and nothing else then.
pub fn plain(alloc: Global, batch: &Batch) -> Result<Plain, NoMemory>
    // Each transaction's replies, branches and outcomes are those of one thread.
    ensures records { IfOk result (λ p. map record_view p.records.items
        ≡ all_shown (start_of batch.now) (blocks_of batch.now)) }
    // So are the objects at the end.
    ensures objects { IfOk result (λ p. p.objects ≡ final_state (start_of batch.now)
        (blocks_of batch.now)) }
    // They are no more than a document may have.
    ensures few_objects { IfOk result (λ p. length p.objects ≤ MAX_OBJECTS) }
{
    let mut workspace = JournaledObjects::new(alloc, batch.objects.copy()?);
    let mut records = Vec::with_capacity(alloc, batch.transactions.len())?;
    for block in &batch.transactions {
        records.push(run_transaction(alloc, block, &mut workspace)?)?;
    }
    Ok(Plain {
        records,
        objects: workspace.into_objects(),
    })
}

// Runs a transaction; one that aborts leaves the objects as they were.
fn run_transaction(
    alloc: Global,
    block: &Block,
    workspace: &mut JournaledObjects,
) -> Result<Record, NoMemory>
    requires can { CanRunHere (block_view block.now) [] workspace.old.state }
    requires settled { workspace.old.journal ≡ [] }
    ensures shows { IfOk result (λ made. record_view made
        ≡ shown_of (one (block_view block.now) [] workspace.old.state)) }
    ensures settles { OnOk result (workspace.new ≡ record {
      state = settled workspace.old.state (one (block_view block.now) [] workspace.old.state);
      journal = [];
    }) }
{
    let mut labels = Vec::new(alloc);
    let record = run_block(alloc, block, &mut labels, workspace)?;
    match record.outcome {
        End::Ended => workspace.settle(),
        End::Aborted(_) => workspace.rewind(0)?,
    }
    Ok(record)
}
