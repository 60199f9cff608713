//! The report in parts, which threads render side by side.
ghost use Rattle.std.specs.Prelude.{◌≡◌, ℕ, ◌+◌, ◌++◌, ◌^◌, ◌<◌, ◌≤◌, IfOk, Ok, length, map, string_bytes, slice_index_or, vec_len};
ghost use Rattle.std.specs.List.{flat_map};
ghost use Rattle.meaning.specs.Texts.{plain_text, text, audit_text};
ghost use Rattle.batch.specs.Names.{names_of};
ghost use Rattle.batch.specs.Views.{block_view, record_view};
ghost use Rattle.report.specs.Parts.{AreCuts, IsPartBetween, last_cut, lines_from};

use crate::answer::{last_cut, render_between, render_entries, write_counts};
use crate::cuts::{Cut, cuts_of};
use batch::{Batch, Outcome, Plain, Record};
use objects::Objects;
use serial::NoMemory;
use std::alloc::Global;
use std::thread::{Threads, map_indices};

/// The report of [`render`](crate::render) in parts, which follow one another. As many threads as there
/// are workers render a part each, and a short report is one part. That of one worker has the memory of
/// the spare text.
///
/// Returns `NoMemory` where a request for memory was refused.
pub fn render_parts<R: Threads + Sync>(
    threads: &R,
    spare: String,
    workers: u32,
    batch: &Batch,
    outcome: &Outcome,
) -> Result<Vec<String>, NoMemory>
    requires { length outcome.now.objects < 2 ^ 32 }
    ensures { IfOk result (λ parts. flat_map string_bytes parts.items
        ≡ text (names_of batch.now.names) (map block_view batch.now.transactions.items) (map
        record_view outcome.now.records.items) outcome.now.objects outcome.now.rounds) }
{
    let (records, objects) = (&outcome.records, &outcome.objects);
    let mut parts = render_entry_parts(threads, spare, workers, batch, records, objects)?;
    let mut last = take_last(&mut parts);
    let rounds = outcome.rounds;
    write!(&mut last, "rounds {rounds}\n")?;
    parts.push(last)?;
    Ok(parts)
}

/// The report of [`render_audit`](crate::render_audit) in parts, as [`render_parts`] makes them.
///
/// Returns `NoMemory` where a request for memory was refused.
pub fn render_audit_parts<R: Threads + Sync>(
    threads: &R,
    spare: String,
    workers: u32,
    batch: &Batch,
    outcome: &Outcome,
) -> Result<Vec<String>, NoMemory>
    requires { length outcome.now.objects < 2 ^ 32 }
    ensures { IfOk result (λ parts. flat_map string_bytes parts.items
        ≡ audit_text (names_of batch.now.names) (map block_view batch.now.transactions.items) (map
        record_view outcome.now.records.items) outcome.now.objects outcome.now.rounds
        outcome.now.runs.items) }
{
    let mut parts = render_parts(threads, spare, workers, batch, outcome)?;
    let mut last = take_last(&mut parts);
    write_counts(&mut last, &outcome.runs)?;
    parts.push(last)?;
    Ok(parts)
}

/// The report of [`render_plain`](crate::render_plain) in parts, as [`render_parts`] makes them.
///
/// Returns `NoMemory` where a request for memory was refused.
pub fn render_plain_parts<R: Threads + Sync>(
    threads: &R,
    spare: String,
    workers: u32,
    batch: &Batch,
    plain: &Plain,
) -> Result<Vec<String>, NoMemory>
    requires { length plain.now.objects < 2 ^ 32 }
    ensures { IfOk result (λ parts. flat_map string_bytes parts.items
        ≡ plain_text (names_of batch.now.names) (map block_view batch.now.transactions.items)
        (map record_view plain.now.records.items) plain.now.objects) }
{
    render_entry_parts(
        threads,
        spare,
        workers,
        batch,
        &plain.records,
        &plain.objects,
    )
}

// Takes the last part away, to be written on.
fn take_last(parts: &mut Vec<String>) -> String
    ensures { flat_map string_bytes parts.new.items ++ string_bytes result
        ≡ flat_map string_bytes parts.old.items }
{
    match parts.pop() {
        Some(text) => text,
        None => String::new(*parts.allocator()),
    }
}

// The lines of all entries, in parts. That of one worker has the memory of the spare text.
fn render_entry_parts<R: Threads + Sync>(
    threads: &R,
    spare: String,
    workers: u32,
    batch: &Batch,
    records: &[Record],
    objects: &Objects,
) -> Result<Vec<String>, NoMemory>
    requires { length objects.now < 2 ^ 32 }
    ensures { IfOk result (λ parts. flat_map string_bytes parts.items
        ≡ plain_text (names_of batch.now.names) (map block_view batch.now.transactions.items)
        (map record_view records.now) objects.now) }
{
    let alloc = *spare.allocator();
    if workers == 1 {
        let mut parts = Vec::with_capacity(alloc, 1)?;
        parts.push(render_entries(spare, batch, records, objects)?)?;
        return Ok(parts);
    }
    drop(spare);
    let last = last_cut(batch, records, objects);
    let cuts = cuts_of(alloc, records, objects, last, workers)?;
    let made = render_each(threads, alloc, batch, records, objects, &cuts)?;
    gathered(alloc, made)
}

// What the threads make: a part from each cut on, and before the next one.
fn render_each<R: Threads + Sync>(
    threads: &R,
    alloc: Global,
    batch: &Batch,
    records: &[Record],
    objects: &Objects,
    cuts: &[Cut],
) -> Result<Vec<Result<String, NoMemory>>, NoMemory>
    requires few { length objects.now < 2 ^ 32 }
    requires cuts { AreCuts (last_cut batch.now.transactions.items records.now objects.now)
        cuts.now }
    ensures count { IfOk result (λ made. length made.items + 1 ≡ length cuts.now) }
    ensures each { IfOk result (λ made. (i : ℕ) (d : _) → i < length made.items
        → IfOk (slice_index_or made.items i d) (λ t. IsPartBetween (lines_from
        (names_of batch.now.names) batch.now.transactions.items records.now objects.now)
        cuts.now i (string_bytes t))) }
{
    let render = |part: usize| -> Result<String, NoMemory>
        requires { (length objects.now < 2 ^ 32) × (part + 1 < length cuts.now)
            × AreCuts (last_cut batch.now.transactions.items records.now objects.now) cuts.now }
        ensures { IfOk result (λ t. IsPartBetween (lines_from (names_of batch.entry.now.names)
            batch.entry.now.transactions.items records.entry.now objects.entry.now)
            cuts.entry.now part (string_bytes t)) }
    {
        let none = String::new(alloc);
        render_between(none, batch, records, objects, cuts[part], cuts[part + 1])
    };
    let made = map_indices(threads, alloc, cuts.len() - 1, &render)?;
    Ok(made)
}

// The parts, where all were made.
fn gathered(alloc: Global, made: Vec<Result<String, NoMemory>>) -> Result<Vec<String>, NoMemory>
    ensures { IfOk result (λ parts. map Ok parts.items ≡ made.items) }
{
    let mut parts = Vec::with_capacity(alloc, made.len())?;
    for part in made {
        parts.push(part?)?;
    }
    Ok(parts)
}
