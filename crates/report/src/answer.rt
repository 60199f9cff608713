//! The texts of results: the whole reports that the program prints.
ghost use Rattle.std.specs.Prelude.{◌≡◌, ◌+◌, ◌++◌, ◌^◌, ◌<◌, ◌≤◌, ℕ, [], OnOk, IfOk, codes, length, map, string_bytes};
ghost use Rattle.objects.specs.Objects.{kind_of_value};
ghost use Rattle.meaning.specs.Running.{all_operations};
ghost use Rattle.meaning.specs.Words.{value_text};
ghost use Rattle.vocabulary.specs.Words.{kind_text};
ghost use Rattle.meaning.specs.Texts.{line, outcome_text, counts_text, plain_text, text, audit_text, check_text};
ghost use Rattle.batch.specs.Names.{names_of};
ghost use Rattle.batch.specs.Views.{block_view, record_view};
ghost use Rattle.report.specs.Parts.{IsBefore, last_cut, lines_from, objects_from, steps_from, transaction_from, transactions};
ghost use Rattle.report.specs.Paths.{tens};

use crate::calls::write_natural;
use crate::cuts::{Cut, lines_between};
use crate::lines::{write_end, write_step};
use crate::names::object_name;
use crate::paths::{begin_path, count_up, push_tens};
use crate::values::write_value;
use batch::{Batch, Block, Names, Outcome, Plain, Record};
use meaning::End;
use objects::{Objects, Value};
use serial::NoMemory;
use std::alloc::Global;
use std::ops::Range;
use vocabulary::kind_text;

/// The report of rounds of speculative runs.
///
/// It has a line `T NUMBER OUTCOME` for each transaction, in order, and below it a line for each
/// step that was taken, under the path of its place. Then come a line `= NAME KIND VALUE` for each
/// object, and a line `rounds COUNT`. A step that its record doesn't fit has no line. A number that
/// has no name has the empty name.
///
/// Returns `NoMemory` where a request for memory was refused.
pub fn render(alloc: Global, batch: &Batch, outcome: &Outcome) -> Result<String, NoMemory>
    requires { length outcome.now.objects < 2 ^ 32 }
    ensures { IfOk result (λ t. string_bytes t ≡ text (names_of batch.now.names)
        (map block_view batch.now.transactions.items) (map record_view outcome.now.records.items)
        outcome.now.objects outcome.now.rounds) }
{
    let none = String::new(alloc);
    let mut out = render_entries(none, batch, &outcome.records, &outcome.objects)?;
    let rounds = outcome.rounds;
    write!(&mut out, "rounds {rounds}\n")?;
    Ok(out)
}

/// The report of one thread: that of `render` without its last line.
///
/// Returns `NoMemory` where a request for memory was refused.
pub fn render_plain(alloc: Global, batch: &Batch, plain: &Plain) -> Result<String, NoMemory>
    requires { length plain.now.objects < 2 ^ 32 }
    ensures { IfOk result (λ t. string_bytes t ≡ plain_text (names_of batch.now.names)
        (map block_view batch.now.transactions.items) (map record_view plain.now.records.items)
        plain.now.objects) }
{
    render_entries(String::new(alloc), batch, &plain.records, &plain.objects)
}

/// The report of `render`, and below it a line `runs NUMBER COUNT` for each transaction: how often
/// it was run.
///
/// Returns `NoMemory` where a request for memory was refused.
pub fn render_audit(alloc: Global, batch: &Batch, outcome: &Outcome) -> Result<String, NoMemory>
    requires { length outcome.now.objects < 2 ^ 32 }
    ensures { IfOk result (λ t. string_bytes t ≡ audit_text (names_of batch.now.names)
        (map block_view batch.now.transactions.items) (map record_view outcome.now.records.items)
        outcome.now.objects outcome.now.rounds outcome.now.runs.items) }
{
    let mut out = render(alloc, batch, outcome)?;
    write_counts(&mut out, &outcome.runs)?;
    Ok(out)
}

/// The line `ok objects COUNT transactions COUNT operations COUNT` of a batch, which says how much
/// it holds. The operations of branches and handlers count too.
///
/// Returns `NoMemory` where a request for memory was refused.
pub fn render_check(alloc: Global, batch: &Batch) -> Result<String, NoMemory>
    ensures { IfOk result (λ t. string_bytes t ≡ check_text (length batch.now.objects)
        (length batch.now.transactions.items)
        (all_operations (map block_view batch.now.transactions.items))) }
{
    let objects = batch.objects.len();
    let transactions = batch.transactions.len();
    let operations = batch.operations();
    let text = format!(in alloc;
        "ok objects {objects} transactions {transactions} operations {operations}\n"
    )?;
    Ok(text)
}

/// About how many bytes a line has.
const LINE: usize = 32;

/// For how many lines a text has room from the first, at most. Some transactions are looked at to
/// estimate them, and the others may have far fewer.
const MOST_LINES: usize = 2_097_152;

// An empty text in the memory of the spare one, with room for about the lines between two cuts where
// that is to be had. A text without room is copied as it grows.
fn text_between(spare: String, records: &[Record], from: Cut, to: Cut) -> String
    requires rise { from.entry ≤ to.entry }
    requires within { to.entry ≤ length records.now }
    ensures { string_bytes result ≡ [] }
{
    let lines = lines_between(records, from, to).min(MOST_LINES);
    let mut text = spare;
    text.clear();
    // Where this is refused, the text grows as it is written.
    let _ = text.reserve(lines.saturating_mul(LINE));
    text
}

// How many transactions have a record.
fn count_shown(batch: &Batch, records: &[Record]) -> usize
    ensures { result ≡ transactions batch.now.transactions.items records.now }
{
    batch.transactions.len().min(records.len())
}

/// Where a report ends.
pub(crate) fn last_cut(batch: &Batch, records: &[Record], objects: &Objects) -> Cut
    ensures { result ≡ last_cut batch.now.transactions.items records.now objects.now }
{
    Cut {
        entry: count_shown(batch, records),
        line: objects.len(),
    }
}

// The lines of all entries, in the memory of the spare text.
pub(crate) fn render_entries(
    spare: String,
    batch: &Batch,
    records: &[Record],
    objects: &Objects,
) -> Result<String, NoMemory>
    requires { length objects.now < 2 ^ 32 }
    ensures { IfOk result (λ t. string_bytes t ≡ plain_text (names_of batch.now.names)
        (map block_view batch.now.transactions.items) (map record_view records.now)
        objects.now) }
{
    let first = Cut { entry: 0, line: 0 };
    let last = last_cut(batch, records, objects);
    render_between(spare, batch, records, objects, first, last)
}

// The lines from one cut on, and before another, in the memory of the spare text.
pub(crate) fn render_between(
    spare: String,
    batch: &Batch,
    records: &[Record],
    objects: &Objects,
    from: Cut,
    to: Cut,
) -> Result<String, NoMemory>
    requires few { length objects.now < 2 ^ 32 }
    requires rise { IsBefore from to }
    requires within { IsBefore to (last_cut batch.now.transactions.items records.now objects.now) }
    ensures { IfOk result (λ t.
        let lines = lines_from (names_of batch.now.names) batch.now.transactions.items records.now
        objects.now in
        string_bytes t ++ lines to ≡ lines from) }
{
    let mut path = begin_path(*spare.allocator(), from.entry + 1)?;
    let mut out = text_between(spare, records, from, to);
    let mut line = from.line;
    for entry in from.entry..to.entry {
        let all = (records[entry].taken.len() + 1).max(line);
        let begun = Cut { entry, line };
        write_transaction(&mut out, &mut path, batch, records, begun, all)?;
        // The number of the next transaction.
        count_up(&mut path, 0, entry + 2)?;
        line = 0;
    }
    if to.entry < count_shown(batch, records) {
        let begun = Cut {
            entry: to.entry,
            line,
        };
        write_transaction(&mut out, &mut path, batch, records, begun, to.line)?;
    } else {
        write_objects(&mut out, &batch.names, objects, line as u32, to.line as u32)?;
    }
    Ok(out)
}

// Writes the lines of a transaction from a cut in it on, and before the line of this number. `path` is
// the number of the transaction without its last digit. It is as before after `Ok`.
fn write_transaction(
    out: &mut String,
    path: &mut String,
    batch: &Batch,
    records: &[Record],
    from: Cut,
    to: usize,
) -> Result<(), NoMemory>
    requires rise { from.line ≤ to }
    requires blocks { from.entry < length batch.now.transactions.items }
    requires records { from.entry < length records.now }
    requires path { string_bytes path.old ≡ tens (from.entry + 1) }
    ensures lines { OnOk result (
        let lines = transaction_from (names_of batch.now.names) batch.now.transactions.items
        records.now from.entry in
        string_bytes out.new ++ lines to ≡ string_bytes out.old ++ lines from.line) }
    ensures path { OnOk result (string_bytes path.new ≡ string_bytes path.old) }
{
    let (block, done) = (&batch.transactions[from.entry], &records[from.entry]);
    let length = path.len();
    write_natural(path, ((from.entry + 1) % 10) as u64)?;
    if from.line == 0 && 0 < to {
        write_heading(out, &batch.names, path, done.outcome)?;
    }
    let steps = from.line.saturating_sub(1)..to.saturating_sub(1);
    write_steps(out, &batch.names, path, block, done, steps)?;
    path.truncate(length);
    Ok(())
}

// Writes a transaction's own line.
fn write_heading(
    out: &mut String,
    names: &Names,
    number: &str,
    outcome: End,
) -> Result<(), NoMemory>
    ensures { OnOk result (string_bytes out.new ≡ string_bytes out.old
        ++ line (codes "T " ++ number.now ++ outcome_text (names_of names.now) outcome)) }
{
    out.push_str("T ")?;
    out.push_str(number)?;
    write_end(out, names, outcome)
}

// Writes the lines of those of these steps, counted from 0, that were taken. `path` is the path of their
// block. It is as before after `Ok`.
fn write_steps(
    out: &mut String,
    names: &Names,
    path: &mut String,
    block: &Block,
    done: &Record,
    steps: Range<usize>,
) -> Result<(), NoMemory>
    requires { steps.start ≤ steps.end }
    ensures lines { OnOk result (
        let lines = λ (i : ℕ). steps_from (names_of names.now) (string_bytes path.old) i
        block.now.steps.items done.now.taken.items done.now.outcome in
        string_bytes out.new ++ lines steps.end ≡ string_bytes out.old ++ lines steps.start) }
    ensures path { OnOk result (string_bytes path.new ≡ string_bytes path.old) }
{
    let length = path.len();
    path.push('.')?;
    let start = path.len();
    push_tens(path, steps.start)?;
    let shown = block.steps.len().min(done.taken.len());
    for index in steps.start..steps.end.min(shown) {
        let (step, taken) = (&block.steps[index], &done.taken[index]);
        count_up(path, start, index + 1)?;
        write_step(out, names, path, index + 1, step, taken)?;
    }
    path.truncate(length);
    Ok(())
}

// Writes the lines of the objects from one place on, and before another.
fn write_objects(
    out: &mut String,
    names: &Names,
    objects: &Objects,
    from: u32,
    to: u32,
) -> Result<(), NoMemory>
    requires rise { from ≤ to }
    requires within { to ≤ length objects.now }
    ensures { OnOk result (string_bytes out.new ++ objects_from (names_of names.now) objects.now to
        ≡ string_bytes out.old ++ objects_from (names_of names.now) objects.now from) }
{
    for object in from..to {
        match objects.value(object) {
            Some(value) => write_object(out, names, object, value)?,
            None => return Ok(()),
        }
    }
    Ok(())
}

fn write_object(out: &mut String, names: &Names, object: u32, value: &Value) -> Result<(), NoMemory>
    ensures { OnOk result (string_bytes out.new ≡ string_bytes out.old
        ++ line (codes "= " ++ (names_of names.now).object object ++ codes " "
        ++ kind_text (kind_of_value value.now) ++ codes " "
        ++ value_text (names_of names.now) value.now)) }
{
    let name = object_name(names, object);
    let kind = kind_text(value.kind());
    write!(out, "= {name} {kind} ")?;
    write_value(out, names, value)?;
    write!(out, "\n")?;
    Ok(())
}

pub(crate) fn write_counts(out: &mut String, counts: &[u32]) -> Result<(), NoMemory>
    ensures { OnOk result (string_bytes out.new ≡ string_bytes out.old
        ++ counts_text 1 counts.now) }
{
    for (index, count) in counts.iter().enumerate() {
        let number = index + 1;
        write!(out, "runs {number} {count}\n")?;
    }
    Ok(())
}
