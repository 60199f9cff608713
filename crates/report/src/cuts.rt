//! Where a long report is cut into parts.
ghost use Rattle.std.specs.Prelude.{◌<◌, ◌≤◌, ◌^◌, IfOk, length};
ghost use Rattle.report.specs.Parts.{AreCuts, IsBefore};

use batch::{Record, Taken};
use objects::Objects;
use serial::NoMemory;
use std::alloc::Global;

/// How many lines are enough for a thread. Fewer are rendered sooner than it starts.
const ENOUGH: usize = 4_096;

/// How many transactions are looked at to estimate how many lines a report has, at most, and about
/// how many of their outermost steps. They are evenly spread. Of each transaction that is looked at,
/// at least one step is.
const LOOKS: usize = 4_096;

/// How many steps of a block further inside are looked at, and how many children of a parallel
/// step.
const INSIDE: usize = 16;

/// How many levels of a step are looked at.
const LEVELS: usize = 16;

/// How many entries of an object take as long as a line.
const ENTRIES: usize = 4;

/// A place between two lines of a report. Its entries are the transactions that have a record, in
/// order, and then all objects together. A transaction has a line of its own, and one for each
/// outermost step that was taken, with those below it. So many lines of the entry are before the
/// place.
#[derive(Clone, Copy)]
pub(crate) struct Cut {
    pub(crate) entry: usize,
    pub(crate) line: usize,
}

/// Where the parts of a report begin and end, with about as many lines in each.
pub(crate) fn cuts_of(
    alloc: Global,
    records: &[Record],
    objects: &Objects,
    end: Cut,
    workers: u32,
) -> Result<Vec<Cut>, NoMemory>
    requires records { end.entry ≤ length records.now }
    requires few { end.line < 2 ^ 32 }
    ensures { IfOk result (λ cuts. AreCuts end cuts.items) }
{
    let shown = &records[..end.entry];
    let sample = Sample::of(shown);
    // One worker renders all in one part, so nothing is counted for it.
    let mut lines = 0;
    if workers > 1 {
        lines = lines_by(shown, sample);
        let first = Cut {
            entry: end.entry,
            line: 0,
        };
        lines = pass_objects(objects, end, first, lines, usize::MAX).1;
    }
    let parts = (lines / ENOUGH).min(workers as usize).max(1);
    let mut cuts = Vec::new(alloc);
    let mut cut = Cut { entry: 0, line: 0 };
    cuts.push(cut)?;
    let mut passed = 0;
    for part in 1..parts {
        let wanted = (lines / parts).saturating_mul(part);
        let (near, before) = pass_lines(records, end, sample, cut, passed, wanted);
        (cut, passed) = pass_objects(objects, end, near, before, wanted);
        cuts.push(cut)?;
    }
    cuts.push(end)?;
    Ok(cuts)
}

// Goes on from a cut, which so many lines are before, to the nearest place that as many as are
// wanted are before, or to where the objects begin. Only places in transactions that are looked at
// count, and each of these has one before its own line. What a transaction adds, those up to the
// next one that is looked at add too.
fn pass_lines(
    records: &[Record],
    end: Cut,
    sample: Sample,
    from: Cut,
    mut passed: usize,
    wanted: usize,
) -> (Cut, usize)
    requires records { end.entry ≤ length records.now }
    requires within { IsBefore from end }
    ensures on { IsBefore from result.0 }
    ensures within { IsBefore result.0 end }
{
    let (mut entry, mut line) = (from.entry, from.line);
    while entry < end.entry {
        let before = passed;
        (line, passed) = pass_steps(&records[entry], sample.steps, line, passed, wanted);
        if line <= records[entry].taken.len() {
            return (Cut { entry, line }, passed);
        }
        let next = sample.next(entry, end.entry);
        let lines = passed.saturating_sub(before);
        passed = lines.saturating_mul(next - entry).saturating_add(before);
        (entry, line) = (next, 0);
    }
    (Cut { entry, line }, passed)
}

// Goes on among the lines of a transaction as `pass_lines` does. The transaction's own line is passed
// with its first step. A step is looked at and stands for all up to the next one that is: they are
// passed where at least half of their lines are wanted.
fn pass_steps(
    record: &Record,
    stride: usize,
    from: usize,
    mut passed: usize,
    wanted: usize,
) -> (usize, usize)
    ensures { from ≤ result.0 }
{
    let end = record.taken.len() + 1;
    let mut line = from;
    while line < end {
        let step = line.max(1);
        let next = step.saturating_add(stride.max(1)).min(end);
        let one = match record.taken.get(step - 1) {
            Some(taken) => lines_of(taken, LEVELS),
            None => 0,
        };
        let lines = one.saturating_mul(next - step).saturating_add(step - line);
        if wanted.saturating_sub(passed).saturating_mul(2) < lines {
            return (line, passed);
        }
        passed = passed.saturating_add(lines);
        line = next;
    }
    (line, passed)
}

// Goes on among the lines of objects as `pass_lines` does. A line with many entries counts as several.
fn pass_objects(
    objects: &Objects,
    end: Cut,
    from: Cut,
    mut passed: usize,
    wanted: usize,
) -> (Cut, usize)
    requires few { end.line < 2 ^ 32 }
    requires within { IsBefore from end }
    ensures on { IsBefore from result.0 }
    ensures within { IsBefore result.0 end }
{
    if from.entry < end.entry {
        return (from, passed);
    }
    for line in from.line..end.line {
        let lines = match objects.value(line as u32) {
            Some(value) => (value.content().len() / ENTRIES).saturating_add(1),
            None => 1,
        };
        if wanted.saturating_sub(passed).saturating_mul(2) < lines {
            let entry = end.entry;
            return (Cut { entry, line }, passed);
        }
        passed = passed.saturating_add(lines);
    }
    (end, passed)
}

/// About how many lines are between two cuts.
pub(crate) fn lines_between(records: &[Record], from: Cut, to: Cut) -> usize
    requires rise { from.entry ≤ to.entry }
    requires within { to.entry ≤ length records.now }
{
    let whole = &records[from.entry..to.entry];
    lines_by(whole, Sample::of(whole))
        .saturating_add(lines_before(records, to))
        .saturating_sub(lines_before(records, from))
}

// About how many lines of its entry are before a cut.
fn lines_before(records: &[Record], cut: Cut) -> usize {
    match records.get(cut.entry) {
        Some(record) => {
            let stride = stride_of(record.taken.len());
            let all = pass_steps(record, stride, 0, 0, usize::MAX).1;
            let left = pass_steps(record, stride, cut.line, 0, usize::MAX).1;
            all.saturating_sub(left)
        }
        None => cut.line,
    }
}

// About how many lines transactions have.
fn lines_by(records: &[Record], sample: Sample) -> usize {
    let mut count: usize = 0;
    let mut entry = 0;
    while entry < records.len() {
        let lines = pass_steps(&records[entry], sample.steps, 0, 0, usize::MAX).1;
        let next = sample.next(entry, records.len());
        count = lines.saturating_mul(next - entry).saturating_add(count);
        entry = next;
    }
    count
}

/// What is looked at to estimate how many lines a report has: one of so many transactions, and one
/// of so many of its outermost steps. Each stands for those up to the next.
#[derive(Clone, Copy)]
struct Sample {
    transactions: usize,
    steps: usize,
}

impl Sample {
    // What is looked at of these transactions.
    fn of(records: &[Record]) -> Sample {
        let mut sample = Sample {
            transactions: stride_of(records.len()),
            steps: 1,
        };
        let mut steps: usize = 0;
        let mut entry = 0;
        while entry < records.len() {
            steps = steps.saturating_add(records[entry].taken.len());
            entry = sample.next(entry, records.len());
        }
        sample.steps = stride_of(steps);
        sample
    }

    // The transaction that is looked at after this one, or where the transactions end.
    fn next(self, entry: usize, end: usize) -> usize
        requires { entry < end }
        ensures rise { entry < result }
        ensures within { result ≤ end }
    {
        entry.saturating_add(self.transactions.max(1)).min(end)
    }
}

// Of how many one is looked at, where there are so many.
fn stride_of(count: usize) -> usize
    ensures { 0 < result }
{
    count / LOOKS + 1
}

// About how many lines the steps of a record have. The first ones stand for all, and of those below
// so many levels each counts as one line.
#[cycle(lines)]
fn lines_in(record: &Record, levels: usize) -> usize {
    if levels == 0 {
        return record.taken.len();
    }
    let mut count: usize = 0;
    let mut looked = 0;
    for taken in &record.taken {
        if looked >= INSIDE {
            return count.saturating_mul(record.taken.len()) / INSIDE;
        }
        count = count.saturating_add(lines_of(taken, levels - 1));
        looked += 1;
    }
    count
}

#[cycle(lines)]
fn lines_of(taken: &Taken, levels: usize) -> usize {
    match taken {
        Taken::Op(_) | Taken::Filled(_) => 1,
        Taken::If(_, branch) => lines_in(branch, levels).saturating_add(1),
        Taken::Sub(body, handler) => {
            let handled = match handler {
                Some(record) => lines_in(record, levels),
                None => 0,
            };
            lines_in(body, levels)
                .saturating_add(handled)
                .saturating_add(1)
        }
        Taken::Abort => 1,
        Taken::Parallel(children) => lines_of_children(children, levels),
    }
}

#[cycle(lines)]
fn lines_of_children(children: &[(Record, Option<Record>)], levels: usize) -> usize {
    let mut count: usize = 0;
    let mut looked = 0;
    for (body, handler) in children {
        if looked >= INSIDE {
            return count.saturating_mul(children.len()) / INSIDE;
        }
        let handled = match handler {
            Some(record) => lines_in(record, levels),
            None => 0,
        };
        count = count
            .saturating_add(lines_in(body, levels))
            .saturating_add(handled)
            .saturating_add(1);
        looked += 1;
    }
    count
}
