//! What the program does with its words, and how it ends.
ghost use Rattle.std.specs.Prelude.{◌≡◌, false};

use crate::arguments::{shown, text_of};
use crate::carrying::{carry_alone, carry_into};
use crate::input::{is_standard, open, tell_refused};
use crate::progress::ProgressLine;
use ordtx::{
    Code, Command, Fault, Gate, Line, Located, Marked, NoGate, Refused, Sink, Source, audit_stream,
    check_at_once_stream, explain_audit_stream, explain_stream, line, locate_stream, run_stream,
    serial_at_once_stream,
};
use std::alloc::{AllocError, Global};
use std::hash::RandomState;
use std::process::ExitCode;
use std::rt::Env;
use std::thread::Threads;

// The status where the command line is refused.
const REFUSED: u8 = 2;

// The most bytes of one argument that Linux passes to a program.
const LONGEST: usize = 131_072;

/// Does what the program's words ask for, and returns the exit status. A fault or a refusal is
/// written to standard error.
pub fn answer_words<T: Threads + Sync>(rt: &HostRuntime, threads: &T) -> ExitCode {
    match asked(rt) {
        Ok(line) => status_of(rt, answer_line(rt, threads, &line)),
        Err(Refused::Memory) => status_of(rt, Err(Code::Memory.outside())),
        Err(Refused::Help(text)) => status_of(rt, print_help(rt, text.as_str())),
        Err(Refused::Words(text)) => {
            let _ = match shown(rt.alloc(), text.as_str()) {
                Ok(text) => rt.eprint(text.as_str()),
                Err(_) => rt.eprint(text.as_str()),
            };
            ExitCode::from(REFUSED)
        }
    }
}

fn asked(rt: &HostRuntime) -> Result<Line, Refused> {
    let alloc = rt.alloc();
    let texts = word_texts(rt, alloc)?;
    let words: Vec<&str> = texts.iter().map(|word| word.as_str()).collect(alloc)?;
    let mut asked = line(alloc, words.as_slice())?;
    // The program ends after the call.
    asked.plan = asked.plan.of_last_call();
    // Where the system has no random bytes, names are hashed by the document's.
    if let Ok(keys) = RandomState::new(rt) {
        asked.plan = asked.plan.with_keys(keys);
    }
    if asked.into.is_some()
        && is_standard(text_in(&asked.file))
        && is_standard(text_in(&asked.into))
    {
        let message = "error: FILE and NEXT are both standard input\n";
        return Err(Refused::Words(String::from_str(alloc, message)?));
    }
    Ok(asked)
}

// The texts that stand for the words.
fn word_texts(rt: &HostRuntime, alloc: Global) -> Result<Vec<String>, AllocError> {
    let mut texts = Vec::new(alloc);
    let mut word = vec![in alloc; 0u8; LONGEST]?;
    for number in 0..usize::MAX {
        match rt.arg(number, word.as_mut_slice()) {
            Ok(count) => texts.push(text_of(alloc, &word[..count])?)?,
            Err(_) => break,
        }
    }
    Ok(texts)
}

// The status of the answer to a line.
fn answer_line<T: Threads + Sync>(
    rt: &HostRuntime,
    threads: &T,
    line: &Line,
) -> Result<ExitCode, Fault> {
    let name = text_in(&line.file);
    let input = open(rt, name)?;
    let size = input.size();
    let mut source = Marked::expecting(input, size);
    let answer = match text_in(&line.into) {
        Some(next) => {
            carry_into(rt, threads, name, &mut source, next, line.plan).map(|()| ExitCode::SUCCESS)
        }
        None => answer_source(rt, threads, line, &mut source),
    };
    tell_refused(rt, name, &source.into_inner());
    answer
}

fn text_in(text: &Option<String>) -> Option<&str> {
    text.as_ref().map(|text| text.as_str())
}

fn answer_source<T: Threads + Sync, R: Source>(
    rt: &HostRuntime,
    threads: &T,
    line: &Line,
    source: &mut R,
) -> Result<ExitCode, Fault>
    requires unended { R.has_ended source.old ≡ false }
    requires unread { R.has_failed source.old ≡ false }
{
    let alloc = rt.alloc();
    let mut sink = Marked::new(rt.stdout());
    let plan = line.plan;
    match line.command {
        Command::Run if line.progress => {
            let shown = ProgressLine::new(rt);
            let answer = run_seen(threads, alloc, line, source, &mut sink, &shown);
            shown.end();
            answer?;
        }
        Command::Run => run_seen(threads, alloc, line, source, &mut sink, &NoGate)?,
        Command::Serial => serial_at_once_stream(threads, alloc, source, &mut sink, plan)?,
        Command::Carry => carry_alone(rt, threads, source, plan)?,
        Command::Check => check_at_once_stream(threads, alloc, source, &mut sink, plan)?,
        Command::Locate => {
            if locate_stream(alloc, source, &mut sink)? == Located::Faulty {
                return Ok(ExitCode::FAILURE);
            }
        }
    }
    Ok(ExitCode::SUCCESS)
}

// Runs a document, with the gate that sees its rounds.
fn run_seen<T: Threads + Sync, R: Source, W: Sink, G: Gate>(
    threads: &T,
    alloc: Global,
    line: &Line,
    source: &mut R,
    sink: &mut W,
    gate: &G,
) -> Result<(), Fault>
    requires unended { R.has_ended source.old ≡ false }
    requires unread { R.has_failed source.old ≡ false }
    requires unwritten { W.has_failed sink.old ≡ false }
{
    let plan = line.plan;
    match (line.why, line.audit) {
        (false, false) => run_stream(threads, alloc, source, sink, plan, gate),
        (false, true) => audit_stream(threads, alloc, source, sink, plan, gate),
        (true, false) => explain_stream(threads, alloc, source, sink, plan, gate),
        (true, true) => explain_audit_stream(threads, alloc, source, sink, plan, gate),
    }
}

fn print_help(rt: &HostRuntime, text: &str) -> Result<ExitCode, Fault> {
    match rt.print(text) {
        Ok(()) => Ok(ExitCode::SUCCESS),
        Err(_) => Err(Code::Output.outside()),
    }
}

fn status_of(rt: &HostRuntime, answer: Result<ExitCode, Fault>) -> ExitCode {
    match answer {
        Ok(status) => status,
        Err(fault) => {
            let _ = eprintln!(rt; "{fault}");
            ExitCode::FAILURE
        }
    }
}
