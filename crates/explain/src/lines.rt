//! The lines that say why each round but the last ended.
ghost use Rattle.std.specs.Prelude.{◌≡◌, ◌++◌, ◌+◌, ◌<◌, [], IfOk, OnOk, length, string_bytes};
ghost use Rattle.meaning.specs.Batch.{alone, run_nets};
ghost use Rattle.objects.specs.Entries.{CommutesWith};
ghost use Rattle.batch.specs.Names.{names_of};
ghost use Rattle.batch.specs.Parts.{start_of, blocks_of};
ghost use Rattle.speculate.specs.Runs.{IsRunOf};
ghost use Rattle.explain.specs.Why.{IsWhyText, place_text};
ghost use Rattle.explain.specs.Places.{place_view};
ghost use Rattle.explain.specs.Rounds.{AreRuns, HasReached, HasPassed, IsRoundAt, IsStopped, HasEarly, IsEarliest, IsWritten};

use crate::places::{PlacedOperation, places_of};
use crate::round::{Round, round_from};
use crate::search::{first_early, first_late};
use batch::{Batch, Names};
use intentions::perform_each;
use objects::{Entry, Objects};
use report::{object_name, write_call, write_reply};
use serial::NoMemory;
use speculate::Run;
use std::alloc::Global;
use std::thread::Threads;

/// The lines `why ROUND LATER after EARLIER` of a batch: one for each round but the last.
///
/// LATER is an operation of the run that ends the round. It is the first of them that doesn't
/// commute forward with all that the earlier runs of the round leave. EARLIER is the earliest of
/// these that it doesn't commute forward with. Each has the form `PATH OBJECT CALL = REPLY` of its
/// line in the report, with the reply that it has on the objects of the round's opening.
///
/// Each transaction is run on this thread. Returns `NoMemory` where a request for memory was
/// refused.
pub fn render_why<T: Threads + Sync>(
    threads: &T,
    alloc: Global,
    batch: &Batch,
) -> Result<String, NoMemory>
    ensures { IfOk result (λ t. IsWhyText (names_of batch.now.names) (start_of batch.now)
        (blocks_of batch.now) (string_bytes t)) }
{
    let mut out = String::new(alloc);
    let mut objects = batch.objects.copy()?;
    write_rounds(threads, alloc, &mut out, batch, &mut objects)?;
    Ok(out)
}

// A batch, when so many of its transactions are committed.
#[derive(Clone, Copy, Drop)]
struct OpenedBatch<'a> {
    batch: &'a Batch,
    opened: usize,
}

// Writes the line of each round but the last. The objects are those of the start, and become those
// of the last opening.
fn write_rounds<T: Threads + Sync>(
    threads: &T,
    alloc: Global,
    out: &mut String,
    batch: &Batch,
    objects: &mut Objects,
) -> Result<(), NoMemory>
    requires start { objects.old ≡ start_of batch.now }
    requires empty { string_bytes out.old ≡ [] }
    ensures { OnOk result (IsWhyText (names_of batch.now.names) (start_of batch.now)
        (blocks_of batch.now) (string_bytes out.new)) }
{
    let mut opened: usize = 0;
    let mut number: usize = 1;
    'opening: while opened < batch.transactions.len() {
        let at = OpenedBatch { batch, opened };
        let round = round_from(threads, alloc, batch, objects, opened)?;
        if !pass_round(alloc, out, at, number, &round, objects)? {
            return Ok(());
        }
        opened += round.passed.len();
        number += 1;
    }
    Ok(())
}

// Writes the line of the round from an opening on, and performs what its runs leave. Returns whether
// it did: for each round but the last.
fn pass_round(
    alloc: Global,
    out: &mut String,
    at: OpenedBatch<'_>,
    number: usize,
    round: &Round,
    objects: &mut Objects,
) -> Result<bool, NoMemory>
    requires reached { HasReached at.batch.now at.opened number objects.old (string_bytes out.old) }
    requires round { IsRoundAt at.batch.now at.opened round.now }
    ensures { IfOk result (HasPassed at.entry.batch.now at.entry.opened number round.now
        objects.new (string_bytes out.new)) }
{
    let Some(stopped) = &round.conflict else {
        return Ok(false);
    };
    write_round(alloc, out, at, number, round, stopped)?;
    perform_each(objects, round.nets.entries())?;
    Ok(true)
}

// Writes the line of the round from an opening on, which this run ends.
fn write_round(
    alloc: Global,
    out: &mut String,
    at: OpenedBatch<'_>,
    number: usize,
    round: &Round,
    stopped: &Run,
) -> Result<(), NoMemory>
    requires round { IsRoundAt at.batch.now at.opened round.now }
    requires stopped { IsStopped at.batch.now at.opened
        (at.opened + length round.now.passed.items) round.now stopped.now }
    ensures { OnOk result (IsWritten at.entry.batch.now at.entry.opened
        (at.entry.opened + length round.now.passed.items) number
        (string_bytes out.old) (string_bytes out.new)) }
{
    let batch = at.batch;
    let place = at.opened + round.passed.len();
    let block = &batch.transactions[place];
    let places = places_of(alloc, &batch.names, place + 1, block, &stopped.tree)?;
    let Some(late) = first_late(&places, &round.nets) else {
        unreachable!()
    };
    write!(out, "why {number} ")?;
    write_place(out, &batch.names, late)?;
    write!(out, " after ")?;
    write_earliest(alloc, out, at, &round.passed, &late.entry)?;
    write!(out, "\n")?;
    Ok(())
}

// Writes the earliest operation that these runs leave with which the entry doesn't commute forward.
fn write_earliest(
    alloc: Global,
    out: &mut String,
    at: OpenedBatch<'_>,
    passed: &[Run],
    late: &Entry,
) -> Result<(), NoMemory>
    requires runs { AreRuns at.batch.now at.opened passed.now }
    requires within { at.opened + length passed.now < length (blocks_of at.batch.now) }
    requires conflicts { ¬ CommutesWith late.now
        (run_nets (start_of at.batch.now) (blocks_of at.batch.now) at.opened at.opened
        (length passed.now)) }
    ensures { OnOk result (IsEarliest at.entry.batch.now at.entry.opened (length passed.now)
        late.now (string_bytes out.old) (string_bytes out.new)) }
{
    for (index, run) in passed.iter().enumerate() {
        if write_early(alloc, out, at, at.opened + index, run, late)? {
            return Ok(());
        }
    }
    unreachable!()
}

// Writes the first operation that this run leaves with which the entry doesn't commute forward, and
// returns whether there is one.
fn write_early(
    alloc: Global,
    out: &mut String,
    at: OpenedBatch<'_>,
    place: usize,
    run: &Run,
    late: &Entry,
) -> Result<bool, NoMemory>
    requires run { IsRunOf
        (alone (start_of at.batch.now) (blocks_of at.batch.now) place at.opened) run.now }
    requires within { place < length (blocks_of at.batch.now) }
    ensures { IfOk result (HasEarly at.entry.batch.now at.entry.opened place late.now
        (string_bytes out.old) (string_bytes out.new)) }
{
    let batch = at.batch;
    let block = &batch.transactions[place];
    let places = places_of(alloc, &batch.names, place + 1, block, &run.tree)?;
    let Some(early) = first_early(&places, late) else {
        return Ok(false);
    };
    write_place(out, &batch.names, early)?;
    Ok(true)
}

fn write_place(out: &mut String, names: &Names, place: &PlacedOperation) -> Result<(), NoMemory>
    ensures { OnOk result (string_bytes out.new ≡ string_bytes out.old
        ++ place_text (names_of names.now) (place_view place.now)) }
{
    let path = place.path.as_str();
    let name = object_name(names, place.entry.object);
    write!(out, "{path} {name} ")?;
    write_call(out, names, &place.entry.call)?;
    write!(out, " = ")?;
    write_reply(out, names, &place.entry.reply)?;
    Ok(())
}
