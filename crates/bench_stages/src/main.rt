//! Measures how long each stage of `ordtx serial` takes, in milliseconds.
//!
//! `bench_stages read FILE` prints the times of reading a batch from the file's bytes, of running
//! it on one thread, and of writing its report into a text. `bench_stages value FILE` prints those
//! of making the JSON value alone (`serde_json`) and of freeing it. That is a process of its own,
//! since a second value would be made on the heap that the first one left. `bench_stages run FILE`
//! prints the times of running the batch on one thread, and in rounds with 1, 2 and 4 workers. With
//! no argument it prints nothing.
#![tactic(auto)]

ghost use Rattle.std.specs.Prelude.{◌≤◌, IfSome, length};
ghost use Rattle.meaning.specs.declared.limits.TheConstants.{MAX_OBJECTS};

use batch::Plain;
use lang::read;
use one_thread::plain;
use report::render_plain;
use rounds::{Batch, NoGate, Plan, execute};
use serde_json::Value;
use std::alloc::Global;
use std::process::ExitCode;
use std::thread::Threads;
use std::time::{Clock, Instant};
use std::{env, fs};

// The milliseconds since then, or 0 where the clock can't be read.
fn since<R: Clock>(rt: &R, start: Instant) -> u64 {
    match start.elapsed(rt) {
        Ok(taken) => u64::try_from(taken.as_millis()).unwrap_or(u64::MAX),
        Err(_) => 0,
    }
}

fn time_value(rt: &HostRuntime, alloc: Global, bytes: &[u8]) -> Option<()> {
    let start = Instant::now(rt).ok()?;
    let value = Value::from_slice(alloc, bytes).ok()?;
    let parsed = since(rt, start);
    let start = Instant::now(rt).ok()?;
    drop(value);
    let freed = since(rt, start);
    let _ = println!(rt; "value {parsed} ms (freed in {freed} ms)");
    Some(())
}

// Reads a batch, and returns the milliseconds of that.
fn time_read<R: Clock>(rt: &R, alloc: Global, bytes: &[u8]) -> Option<(Batch, u64)> {
    let start = Instant::now(rt).ok()?;
    let batch = read(alloc, bytes).ok()?;
    let taken = since(rt, start);
    Some((batch, taken))
}

// Runs a batch on one thread, and returns the milliseconds of that.
fn time_plain<R: Clock>(rt: &R, alloc: Global, batch: &Batch) -> Option<(Plain, u64)>
    ensures { IfSome result (λ timed. length timed.0.objects ≤ MAX_OBJECTS) }
{
    let start = Instant::now(rt).ok()?;
    let answer = plain(alloc, batch).ok()?;
    let taken = since(rt, start);
    Some((answer, taken))
}

// Writes the report into a text, and returns its bytes and the milliseconds of that.
fn time_report<R: Clock>(
    rt: &R,
    alloc: Global,
    batch: &Batch,
    answer: &Plain,
) -> Option<(usize, u64)>
    requires { length answer.now.objects ≤ MAX_OBJECTS }
{
    let start = Instant::now(rt).ok()?;
    let text = render_plain(alloc, batch, answer).ok()?;
    let taken = since(rt, start);
    Some((text.len(), taken))
}

fn time_stages(rt: &HostRuntime, alloc: Global, bytes: &[u8]) -> Option<()> {
    let (batch, read) = time_read(rt, alloc, bytes)?;
    let (answer, run) = time_plain(rt, alloc, &batch)?;
    let (size, written) = time_report(rt, alloc, &batch, &answer)?;
    let _ = println!(rt; "read {read} ms, run {run} ms, text {written} ms ({size} bytes)");
    Some(())
}

/// How many transactions a worker takes at once, as in the program by default.
const CUT: u32 = 16;

// The milliseconds of running the batch in rounds.
fn time_rounds<R: Clock + Threads + Sync>(
    rt: &R,
    alloc: Global,
    batch: &Batch,
    workers: u32,
) -> Option<u64> {
    let plan = Plan::new(workers, CUT)?;
    let start = Instant::now(rt).ok()?;
    let outcome = execute(rt, alloc, batch, plan, &NoGate).ok()?;
    let taken = since(rt, start);
    drop(outcome);
    Some(taken)
}

/// The milliseconds of running a batch: on one thread, and in rounds with so many workers.
#[derive(Clone, Copy)]
struct Runs {
    serial: u64,
    with_one: u64,
    with_two: u64,
    with_four: u64,
}

fn time_runs<R: Clock + Threads + Sync>(rt: &R, alloc: Global, bytes: &[u8]) -> Option<Runs> {
    let batch = read(alloc, bytes).ok()?;
    let (answer, serial) = time_plain(rt, alloc, &batch)?;
    drop(answer);
    Some(Runs {
        serial,
        with_one: time_rounds(rt, alloc, &batch, 1)?,
        with_two: time_rounds(rt, alloc, &batch, 2)?,
        with_four: time_rounds(rt, alloc, &batch, 4)?,
    })
}

fn print_runs(rt: &HostRuntime, runs: &Runs) {
    let Runs {
        serial,
        with_one,
        with_two,
        with_four,
    } = runs;
    let _ = println!(rt;
        "run {serial} ms, in rounds with 1 worker {with_one} ms, 2 {with_two} ms, 4 {with_four} ms"
    );
}

fn main(rt: HostRuntime) -> ExitCode {
    let Ok(mut words) = env::args(&rt) else {
        return ExitCode::FAILURE;
    };
    let Some(stage) = words.nth(1) else {
        return ExitCode::SUCCESS;
    };
    let Some(path) = words.next() else {
        return ExitCode::FAILURE;
    };
    let Ok(bytes) = fs::read(&rt, path.as_str()) else {
        return ExitCode::FAILURE;
    };
    let timed = match stage.as_str() {
        "value" => time_value(&rt, rt.alloc(), bytes.as_slice()),
        "run" => time_runs(&rt, rt.alloc(), bytes.as_slice()).map(|runs| print_runs(&rt, &runs)),
        "read" => time_stages(&rt, rt.alloc(), bytes.as_slice()),
        _ => None,
    };
    match timed {
        Some(()) => ExitCode::SUCCESS,
        None => ExitCode::FAILURE,
    }
}
