//! Whole calls, from a source to a sink.
ghost use Rattle.std.specs.Prelude.{◌≡◌, ◌≢◌, ◌↔◌, ◌⊎◌, true, false, Err, IfErr, IfOk};
ghost use Rattle.lang.specs.Reading.{reading};
ghost use Rattle.faults.specs.Faults.{input_fault, memory_fault, output_fault};
ghost use Rattle.ordtx.specs.Answers.{IsAuditOf, IsCarriedIntoOf, IsCarriedOf, IsCarryFaultOf, IsCarryIntoFaultOf, IsCheckOf, IsExplainedOf, IsFaultOf, IsLocationOf, IsPlainReportOf, IsReportOf, located_by};
ghost use Rattle.ordtx.specs.Streams.{AnswersStream, IsRead, IsRefusal, OfRead};
ghost use Rattle.ordtx.specs.declared.carrying.Uncarried.TheVariants as uncarried;

use crate::carrying::{Uncarried, carried_into_of, carried_of};
use crate::io::{read_document, write_text, write_texts};
use crate::location::{Located, location_of};
use crate::texts::{
    RunCounts, audit_of, check_at_once_of, check_of, explanation_of, plain_parts_of,
    plain_report_of, report_of,
};
use devices::{Sink, Source};
use faults::Fault;
use plan::Plan;
use speculate::Gate;
use std::alloc::Global;
use std::thread::Threads;

/// Reads a document from the source, runs its transactions, and writes the report to the sink.
///
/// The source is read to its end, but at most 536,870,913 bytes of it.
///
/// The errors, and what each leaves:
///
/// - `Memory`: a growth of memory was refused. The source was read in part or whole, and nothing was
///   written.
/// - `Input`: a fetch failed, and was the last one. Nothing was written.
/// - `Output`: a put failed, and was the last one. The source was read, and a beginning of the report
///   was written.
/// - Any other fault is the first of the document. The source was read, and nothing was written.
pub fn run_stream<T: Threads + Sync, R: Source, W: Sink, G: Gate>(
    threads: &T,
    alloc: Global,
    source: &mut R,
    sink: &mut W,
    plan: Plan,
    gate: &G,
) -> Result<(), Fault>
    requires unended { R.has_ended source.old ≡ false }
    requires unread { R.has_failed source.old ≡ false }
    requires unwritten { W.has_failed sink.old ≡ false }
    // The report of what was read is written.
    ensures { AnswersStream IsReportOf IsFaultOf (λ fault. fault)
        R.Source source.old source.new W.Sink sink.old sink.new result }
{
    let document = read_document(alloc, source)?;
    let parts = report_of(threads, alloc, document, plan, gate)?;
    write_texts(sink, &parts)
}

/// Does as [`run_stream`], and writes after the report how often each transaction was run.
///
/// The errors are those of [`run_stream`], and leave what is said there.
pub fn audit_stream<T: Threads + Sync, R: Source, W: Sink, G: Gate>(
    threads: &T,
    alloc: Global,
    source: &mut R,
    sink: &mut W,
    plan: Plan,
    gate: &G,
) -> Result<(), Fault>
    requires unended { R.has_ended source.old ≡ false }
    requires unread { R.has_failed source.old ≡ false }
    requires unwritten { W.has_failed sink.old ≡ false }
    // The report with the run counts of what was read is written.
    ensures { AnswersStream IsAuditOf IsFaultOf (λ fault. fault)
        R.Source source.old source.new W.Sink sink.old sink.new result }
{
    let document = read_document(alloc, source)?;
    let parts = audit_of(threads, alloc, document, plan, gate)?;
    write_texts(sink, &parts)
}

/// Does as [`run_stream`], and writes after the report which operations ended each round but the last.
///
/// The errors are those of [`run_stream`], and leave what is said there.
pub fn explain_stream<T: Threads + Sync, R: Source, W: Sink, G: Gate>(
    threads: &T,
    alloc: Global,
    source: &mut R,
    sink: &mut W,
    plan: Plan,
    gate: &G,
) -> Result<(), Fault>
    requires unended { R.has_ended source.old ≡ false }
    requires unread { R.has_failed source.old ≡ false }
    requires unwritten { W.has_failed sink.old ≡ false }
    // The report of what was read is written, with what ended its rounds.
    ensures { AnswersStream (IsExplainedOf false) IsFaultOf (λ fault. fault)
        R.Source source.old source.new W.Sink sink.old sink.new result }
{
    let document = read_document(alloc, source)?;
    let parts = explanation_of(threads, alloc, document, plan, RunCounts::Omitted, gate)?;
    write_texts(sink, &parts)
}

/// Does as [`audit_stream`], and writes after the report which operations ended each round but the last.
///
/// The errors are those of [`run_stream`], and leave what is said there.
pub fn explain_audit_stream<T: Threads + Sync, R: Source, W: Sink, G: Gate>(
    threads: &T,
    alloc: Global,
    source: &mut R,
    sink: &mut W,
    plan: Plan,
    gate: &G,
) -> Result<(), Fault>
    requires unended { R.has_ended source.old ≡ false }
    requires unread { R.has_failed source.old ≡ false }
    requires unwritten { W.has_failed sink.old ≡ false }
    // The report with the run counts of what was read is written, with what ended its rounds.
    ensures { AnswersStream (IsExplainedOf true) IsFaultOf (λ fault. fault)
        R.Source source.old source.new W.Sink sink.old sink.new result }
{
    let document = read_document(alloc, source)?;
    let parts = explanation_of(threads, alloc, document, plan, RunCounts::Shown, gate)?;
    write_texts(sink, &parts)
}

/// Reads a document from the source, runs its transactions by number on one thread, and writes the
/// report without the number of rounds to the sink.
///
/// The errors are those of [`run_stream`], and leave what is said there.
pub fn serial_stream<R: Source, W: Sink>(
    alloc: Global,
    source: &mut R,
    sink: &mut W,
) -> Result<(), Fault>
    requires unended { R.has_ended source.old ≡ false }
    requires unread { R.has_failed source.old ≡ false }
    requires unwritten { W.has_failed sink.old ≡ false }
    // The report of one thread of what was read is written.
    ensures { AnswersStream IsPlainReportOf IsFaultOf (λ fault. fault)
        R.Source source.old source.new W.Sink sink.old sink.new result }
{
    let document = read_document(alloc, source)?;
    let text = plain_report_of(alloc, document)?;
    write_text(sink, text.as_bytes())
}

/// Does as [`serial_stream`]. As many threads as the plan has workers read a long document, and render
/// a long report. The transactions are run on one of them.
///
/// The errors are those of [`run_stream`], and leave what is said there.
pub fn serial_at_once_stream<T: Threads + Sync, R: Source, W: Sink>(
    threads: &T,
    alloc: Global,
    source: &mut R,
    sink: &mut W,
    plan: Plan,
) -> Result<(), Fault>
    requires unended { R.has_ended source.old ≡ false }
    requires unread { R.has_failed source.old ≡ false }
    requires unwritten { W.has_failed sink.old ≡ false }
    // The report of one thread of what was read is written.
    ensures { AnswersStream IsPlainReportOf IsFaultOf (λ fault. fault)
        R.Source source.old source.new W.Sink sink.old sink.new result }
{
    let document = read_document(alloc, source)?;
    let parts = plain_parts_of(threads, alloc, document, plan)?;
    write_texts(sink, &parts)
}

/// Does as [`serial_at_once_stream`], and writes a document of the objects at the end, without a transaction,
/// in place of the report. A next batch can start with it.
///
/// The error [`Uncarried::Object`] is of the first object at the end that no document may start with:
/// `Start` where its number is too large for a start, and `TooMany` where there are more entries with
/// it than a document may start with. The source was read, and nothing was written. The other errors
/// are [`Uncarried::First`] of those of [`run_stream`], and leave what is said there.
pub fn carry_stream<T: Threads + Sync, R: Source, W: Sink>(
    threads: &T,
    alloc: Global,
    source: &mut R,
    sink: &mut W,
    plan: Plan,
) -> Result<(), Uncarried>
    requires unended { R.has_ended source.old ≡ false }
    requires unread { R.has_failed source.old ≡ false }
    requires unwritten { W.has_failed sink.old ≡ false }
    // The document of the objects at the end of what was read is written.
    ensures { AnswersStream IsCarriedOf (λ bytes. IsRefusal (IsCarryFaultOf bytes)) uncarried.First
        R.Source source.old source.new W.Sink sink.old sink.new result }
{
    let document = read_document(alloc, source)?;
    let text = carried_of(threads, alloc, document, plan)?;
    write_text(sink, text.as_bytes())?;
    Ok(())
}

/// Does as [`carry_stream`], and reads a next document, too. It writes the next document with each
/// object of the first as it starts, and with its own transactions.
///
/// An object that both have, by name, starts as the first's ends. One that the next document lacks is
/// added after its own. The first source is read before the next one, and both before anything else.
///
/// The errors, and what each leaves:
///
/// - `First`: `Memory` where a growth of memory was refused, `Input` where the first source failed, `Output` where the
///   sink failed, or the first fault of the first document.
/// - `Next`: `Memory`, `Input` where the next source failed, or the first fault of the next
///   document. `TooMany` is also that what would be written is longer than a document may be.
/// - `Object`: an object that can't start so, with its name. `DuplicateObject`: the documents have it with
///   two kinds. `TooMany`: there are too many objects or entries with it. `Start`: its number is too large.
///
/// After `Output` a beginning was written, after any other error nothing.
pub fn carry_into_stream<T: Threads + Sync, R: Source, S: Source, W: Sink>(
    threads: &T,
    alloc: Global,
    source: &mut R,
    next: &mut S,
    sink: &mut W,
    plan: Plan,
) -> Result<(), Uncarried>
    requires unended { R.has_ended source.old ≡ false }
    requires unread { R.has_failed source.old ≡ false }
    requires next_unended { S.has_ended next.old ≡ false }
    requires next_unread { S.has_failed next.old ≡ false }
    requires unwritten { W.has_failed sink.old ≡ false }
    // The next document of what was read is written, with the objects at the end of the first.
    ensures answer { AnswersStream
        (λ first text. OfRead (λ next. IsCarriedIntoOf first next text) (S.remaining next.old))
        (λ first refused. OfRead (λ next. IsRefusal (IsCarryIntoFaultOf first next) refused)
        (S.remaining next.old))
        uncarried.First R.Source source.old source.new W.Sink sink.old sink.new result }
    // All bytes of the next were read, too. After a fault of memory or of an input there may be more.
    ensures next_read { result ≢ Err (uncarried.First memory_fault)
        → result ≢ Err (uncarried.First input_fault)
        → result ≢ Err (uncarried.Next memory_fault) → result ≢ Err (uncarried.Next input_fault)
        → IsRead (S.remaining next.old) (S.remaining next.new) }
    ensures next_input { S.has_failed next.new ≡ true ↔ result ≡ Err (uncarried.Next input_fault) }
{
    let first = read_document(alloc, source)?;
    let next = match read_document(alloc, next) {
        Ok(document) => document,
        Err(fault) => return Err(Uncarried::Next(fault)),
    };
    let text = carried_into_of(threads, alloc, first, next, plan)?;
    write_text(sink, text.as_bytes())?;
    Ok(())
}

/// Reads a document from the source, and writes how many objects, transactions and operations it has
/// to the sink. Nothing is run.
///
/// The errors are those of [`run_stream`], and leave what is said there.
pub fn check_stream<R: Source, W: Sink>(
    alloc: Global,
    source: &mut R,
    sink: &mut W,
) -> Result<(), Fault>
    requires unended { R.has_ended source.old ≡ false }
    requires unread { R.has_failed source.old ≡ false }
    requires unwritten { W.has_failed sink.old ≡ false }
    // The line of counts of what was read is written.
    ensures { AnswersStream IsCheckOf IsFaultOf (λ fault. fault)
        R.Source source.old source.new W.Sink sink.old sink.new result }
{
    let document = read_document(alloc, source)?;
    let text = check_of(alloc, document.as_slice())?;
    write_text(sink, text.as_bytes())
}

/// Does as [`check_stream`]. As many threads as the plan has workers read a long document.
///
/// The errors are those of [`run_stream`], and leave what is said there.
pub fn check_at_once_stream<T: Threads + Sync, R: Source, W: Sink>(
    threads: &T,
    alloc: Global,
    source: &mut R,
    sink: &mut W,
    plan: Plan,
) -> Result<(), Fault>
    requires unended { R.has_ended source.old ≡ false }
    requires unread { R.has_failed source.old ≡ false }
    requires unwritten { W.has_failed sink.old ≡ false }
    // The line of counts of what was read is written.
    ensures { AnswersStream IsCheckOf IsFaultOf (λ fault. fault)
        R.Source source.old source.new W.Sink sink.old sink.new result }
{
    let document = read_document(alloc, source)?;
    let text = check_at_once_of(threads, alloc, document, plan)?;
    write_text(sink, text.as_bytes())
}

/// Reads a document from the source, and writes to the sink where its first fault is, and in words
/// what is wrong there. For a document without a fault it writes the line of [`check_stream`].
/// Nothing is run. Returns whether there is a fault.
///
/// The first line is `fault NUMBER transaction NUMBER at PLACE`. The place is a JSON Pointer (RFC
/// 6901) to the member or item that the fault is of, and the line and the column at which it
/// begins. Where the bytes are no JSON it is a line and a column alone. It is left out where the
/// fault is of the whole document. The second line has the words, as `no label "w" is seen here`.
///
/// The errors are `Memory`, `Input` and `Output` of [`run_stream`], and leave what is said there. A fault of the
/// document is no error here.
pub fn locate_stream<R: Source, W: Sink>(
    alloc: Global,
    source: &mut R,
    sink: &mut W,
) -> Result<Located, Fault>
    requires unended { R.has_ended source.old ≡ false }
    requires unread { R.has_failed source.old ≡ false }
    requires unwritten { W.has_failed sink.old ≡ false }
    // The lines of the fault of what was read are written.
    ensures answer { AnswersStream IsLocationOf (λ _ _. ⊥) (λ fault. fault)
        R.Source source.old source.new W.Sink sink.old sink.new result }
    ensures located { IfOk result (λ located. OfRead (λ bytes. located ≡ located_by (reading bytes))
        (R.remaining source.old)) }
    // A fault of the document is no error here.
    ensures fault { IfErr result (λ fault.
        (fault ≡ memory_fault) ⊎ (fault ≡ input_fault) ⊎ (fault ≡ output_fault)) }
{
    let document = read_document(alloc, source)?;
    let (text, located) = location_of(alloc, document.as_slice())?;
    write_text(sink, text.as_bytes())?;
    Ok(located)
}
