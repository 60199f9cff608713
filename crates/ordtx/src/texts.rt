//! The texts that a document gives.
ghost use Rattle.std.specs.Prelude.{◌≡◌, ◌≢◌, true, ℕ, List, IfErr, IfOk, Ok, string_bytes};
ghost use Rattle.std.specs.List.{flat_map};
ghost use Rattle.faults.specs.Faults.{is_of_reading, memory_fault};
ghost use Rattle.lang.specs.Reading.{document_of, reading};
ghost use Rattle.ordtx.specs.Texts.{are_shown, GivesParts, GivesText};
ghost use Rattle.ordtx.specs.Answers.{IsAuditOf, IsCheckOf, IsExplainedOf, IsFaultOf, IsPlainReportOf, IsReportOf, IsShownOf};

use batch::Batch;
use explain::render_why;
use faults::Fault;
use lang::{read, read_at_once};
use one_thread::plain;
use plan::Plan;
use report::{render_audit_parts, render_check, render_parts, render_plain, render_plain_parts};
use rounds::{execute, execute_ahead};
use serial::NoMemory;
use speculate::Gate;
use std::alloc::Global;
use std::mem::forget;
use std::thread::Threads;

/// Whether a report has its run counts.
#[derive(Clone, Copy, Drop)]
pub(crate) enum RunCounts {
    /// They come after the report.
    Shown,
    /// They are left out.
    Omitted,
}

// The batch of a document, whose bytes are freed: what comes next takes memory.
pub(crate) fn batch_of(alloc: Global, document: Vec<u8>) -> Result<Batch, Fault>
    ensures batch { IfOk result (λ batch. reading document.items ≡ Ok (document_of batch)) }
    ensures fault { IfErr result (λ fault. fault ≢ memory_fault → IsFaultOf document.items fault) }
    ensures code { IfErr result (λ fault. is_of_reading fault.code ≡ true) }
{
    read(alloc, document.as_slice())
}

// The batch of a document, whose bytes are freed. Threads read the ranges of a long one.
pub(crate) fn batch_at_once<T: Threads + Sync>(
    threads: &T,
    alloc: Global,
    plan: Plan,
    document: Vec<u8>,
) -> Result<Batch, Fault>
    ensures batch { IfOk result (λ batch. reading document.items ≡ Ok (document_of batch)) }
    ensures fault { IfErr result (λ fault. fault ≢ memory_fault → IsFaultOf document.items fault) }
    ensures code { IfErr result (λ fault. is_of_reading fault.code ≡ true) }
{
    let Plan { workers, keys, .. } = plan;
    read_at_once(threads, alloc, workers, keys, document.as_slice())
}

// The batch of a document, and a text of no use but for its memory: with one worker that of the
// document, which its report then has. With several, each makes a part of the report, and the
// document's memory is freed.
fn batch_and_spare<T: Threads + Sync>(
    threads: &T,
    alloc: Global,
    plan: Plan,
    document: Vec<u8>,
) -> Result<(Batch, String), Fault>
    ensures batch { IfOk result (λ found. reading document.items ≡ Ok (document_of found.0)) }
    ensures fault { IfErr result (λ fault. fault ≢ memory_fault → IsFaultOf document.items fault) }
    ensures code { IfErr result (λ fault. is_of_reading fault.code ≡ true) }
{
    if plan.workers > 1 {
        let batch = batch_at_once(threads, alloc, plan, document)?;
        return Ok((batch, String::new(alloc)));
    }
    let Plan { workers, keys, .. } = plan;
    let batch = read_at_once(threads, alloc, workers, keys, document.as_slice())?;
    let mut bytes = document;
    bytes.clear();
    let spare = String::from_utf8(bytes).unwrap_or(String::new(alloc));
    Ok((batch, spare))
}

// Frees a value, or leaves its memory to the end of the program, which comes after a last call.
pub(crate) fn free<T: Drop>(value: T, plan: Plan) {
    if plan.last {
        forget(value);
    }
}

// The report of a batch that was read, with or without the run counts. It is in parts, which follow
// one another. That of one worker has the memory of the spare text.
fn report_of_batch<T: Threads + Sync, G: Gate>(
    threads: &T,
    spare: String,
    batch: &Batch,
    plan: Plan,
    counts: RunCounts,
    gate: &G,
) -> Result<Vec<String>, NoMemory>
    ensures { IfOk result (λ parts. (bytes : List ℕ) → reading bytes ≡ Ok (document_of batch.now)
        → IsShownOf (are_shown counts) bytes (flat_map string_bytes parts.items)) }
{
    let alloc = *spare.allocator();
    match counts {
        RunCounts::Shown => {
            let outcome = execute(threads, alloc, batch, plan, gate)?;
            let parts = render_audit_parts(threads, spare, plan.workers, batch, &outcome)?;
            free(outcome, plan);
            Ok(parts)
        }
        RunCounts::Omitted => {
            let outcome = execute_ahead(threads, alloc, batch, plan, gate)?;
            let parts = render_parts(threads, spare, plan.workers, batch, &outcome)?;
            free(outcome, plan);
            Ok(parts)
        }
    }
}

// The report of a document.
pub(crate) fn report_of<T: Threads + Sync, G: Gate>(
    threads: &T,
    alloc: Global,
    document: Vec<u8>,
    plan: Plan,
    gate: &G,
) -> Result<Vec<String>, Fault>
    ensures { GivesParts IsReportOf document.items result }
{
    let (batch, spare) = batch_and_spare(threads, alloc, plan, document)?;
    let parts = report_of_batch(threads, spare, &batch, plan, RunCounts::Omitted, gate)?;
    free(batch, plan);
    Ok(parts)
}

// The report, and how often each transaction was run.
pub(crate) fn audit_of<T: Threads + Sync, G: Gate>(
    threads: &T,
    alloc: Global,
    document: Vec<u8>,
    plan: Plan,
    gate: &G,
) -> Result<Vec<String>, Fault>
    ensures { GivesParts IsAuditOf document.items result }
{
    let (batch, spare) = batch_and_spare(threads, alloc, plan, document)?;
    let parts = report_of_batch(threads, spare, &batch, plan, RunCounts::Shown, gate)?;
    free(batch, plan);
    Ok(parts)
}

// The report, with or without the run counts, and which operations ended the rounds.
pub(crate) fn explanation_of<T: Threads + Sync, G: Gate>(
    threads: &T,
    alloc: Global,
    document: Vec<u8>,
    plan: Plan,
    counts: RunCounts,
    gate: &G,
) -> Result<Vec<String>, Fault>
    ensures { GivesParts (IsExplainedOf (are_shown counts)) document.items result }
{
    let (batch, spare) = batch_and_spare(threads, alloc, plan, document)?;
    let parts = explanation_of_batch(threads, spare, &batch, plan, counts, gate)?;
    free(batch, plan);
    Ok(parts)
}

// The explanation of a batch that was read. That of one worker has the memory of the spare text.
fn explanation_of_batch<T: Threads + Sync, G: Gate>(
    threads: &T,
    spare: String,
    batch: &Batch,
    plan: Plan,
    counts: RunCounts,
    gate: &G,
) -> Result<Vec<String>, NoMemory>
    ensures { IfOk result (λ parts. (bytes : List ℕ) → reading bytes ≡ Ok (document_of batch.now)
        → IsExplainedOf (are_shown counts) bytes (flat_map string_bytes parts.items)) }
{
    let alloc = *spare.allocator();
    let mut parts = report_of_batch(threads, spare, batch, plan, counts, gate)?;
    let why = render_why(threads, alloc, batch)?;
    parts.push(why)?;
    Ok(parts)
}

// The report of one thread.
pub(crate) fn plain_report_of(alloc: Global, document: Vec<u8>) -> Result<String, Fault>
    ensures { GivesText IsPlainReportOf document.items result }
{
    let batch = batch_of(alloc, document)?;
    let text = plain_report_of_batch(alloc, &batch)?;
    Ok(text)
}

// The report of one thread, of a batch that was read.
fn plain_report_of_batch(alloc: Global, batch: &Batch) -> Result<String, NoMemory>
    ensures { IfOk result (λ text. (bytes : List ℕ) → reading bytes ≡ Ok (document_of batch.now)
        → IsPlainReportOf bytes (string_bytes text)) }
{
    let answer = plain(alloc, batch)?;
    render_plain(alloc, batch, &answer)
}

// The report of one thread in parts, where threads read a long document and render a long report.
pub(crate) fn plain_parts_of<T: Threads + Sync>(
    threads: &T,
    alloc: Global,
    document: Vec<u8>,
    plan: Plan,
) -> Result<Vec<String>, Fault>
    ensures { GivesParts IsPlainReportOf document.items result }
{
    let (batch, spare) = batch_and_spare(threads, alloc, plan, document)?;
    let parts = plain_parts_of_batch(threads, spare, &batch, plan)?;
    free(batch, plan);
    Ok(parts)
}

// The parts of that report, of a batch that was read. That of one worker has the memory of the spare
// text.
fn plain_parts_of_batch<T: Threads + Sync>(
    threads: &T,
    spare: String,
    batch: &Batch,
    plan: Plan,
) -> Result<Vec<String>, NoMemory>
    ensures { IfOk result (λ parts. (bytes : List ℕ) → reading bytes ≡ Ok (document_of batch.now)
        → IsPlainReportOf bytes (flat_map string_bytes parts.items)) }
{
    let answer = plain(*spare.allocator(), batch)?;
    let parts = render_plain_parts(threads, spare, plan.workers, batch, &answer)?;
    free(answer, plan);
    Ok(parts)
}

// How much a document holds.
pub(crate) fn check_of(alloc: Global, document: &[u8]) -> Result<String, Fault>
    ensures { GivesText IsCheckOf document.now result }
{
    let batch = read(alloc, document)?;
    let text = render_check(alloc, &batch)?;
    Ok(text)
}

// How much a document holds, where threads read a long one.
pub(crate) fn check_at_once_of<T: Threads + Sync>(
    threads: &T,
    alloc: Global,
    document: Vec<u8>,
    plan: Plan,
) -> Result<String, Fault>
    ensures { GivesText IsCheckOf document.items result }
{
    let batch = batch_at_once(threads, alloc, plan, document)?;
    let counts = render_check(alloc, &batch)?;
    free(batch, plan);
    Ok(counts)
}
