//! The runs of a round, up to the first conflict.
ghost use Rattle.std.specs.Prelude.{◌≡◌, ◌<◌, IfOk, length};
ghost use Rattle.meaning.specs.Batch.{state_at};
ghost use Rattle.batch.specs.Parts.{start_of, blocks_of};
ghost use Rattle.explain.specs.Rounds.{IsRoundAt};

use batch::Batch;
use committed::{Committed, mark_all};
use objects::Objects;
use serial::NoMemory;
use speculate::{NoGate, Run, run};
use std::alloc::Global;
use std::thread::Threads;

/// The runs of a round, made one after the other on the objects of its opening.
#[derive(Drop)]
pub(crate) struct Round {
    /// The runs before the first conflict, by number.
    pub(crate) passed: Vec<Run>,
    /// What these leave.
    pub(crate) nets: Committed,
    /// The run with the first conflict, if there is one.
    pub(crate) conflict: Option<Run>,
}

/// The round that begins on these objects, when so many transactions are committed.
pub(crate) fn round_from<T: Threads + Sync>(
    threads: &T,
    alloc: Global,
    batch: &Batch,
    objects: &Objects,
    opened: usize,
) -> Result<Round, NoMemory>
    requires within { opened < length (blocks_of batch.now) }
    requires reached { objects.now ≡ state_at (start_of batch.now) (blocks_of batch.now) opened }
    ensures { IfOk result (IsRoundAt batch.now opened) }
{
    let mut passed = Vec::new(alloc);
    let mut nets = Committed::hashed_by(alloc, batch.hashing);
    for place in opened..batch.transactions.len() {
        let run = run(threads, alloc, objects, batch, place as u32 + 1, 1, &NoGate)?;
        let marked = mark_all(alloc, &run.entries)?;
        let listed = nets.len();
        if !nets.check(&marked, listed)? {
            nets.list()?;
            return Ok(Round {
                passed,
                nets,
                conflict: Some(run),
            });
        }
        nets.append(&run.net)?;
        passed.push(run)?;
    }
    Ok(Round {
        passed,
        nets,
        conflict: None,
    })
}
