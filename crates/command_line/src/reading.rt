//! Reading the command line.
ghost use Rattle.std.specs.Prelude.{◌≡◌, ◌≤◌, ◌↔◌, [], Some, codes, map, option_map, pos, IfErr, IfOk, IsTrue, OnOk, OnSome, false, string_bytes};
ghost use Rattle.clap.specs.Words.{IsAmong, app_of, first_of, found_of, kind_of, new_app, one_of, rows_of, rule_of, with_rule, with_subcommand};
ghost use Rattle.clap.specs.declared.builder.command.Command.TheViews.{out-Command};
ghost use Rattle.command_line.specs.CommandLine.{CanBeMatched, HoldsFrom1, HoldsLine, HoldsNumber, IsAboutHelp, IsLineOf, IsRefusalBy, IsRefusalOf, IsTaken, NamesCommand, carry_app, command_name, default_workers, faults_of, file_app, flag_rule, number_rule, ordtx_app, run_app, shared_app, text_rule, titled};
ghost use Rattle.plan.specs.declared.plan.TheConstants.{MAX_CUT, MAX_WORKERS};

use crate::asked::{Command, Line, Refused};
use clap::builder::ValueParser;
use clap::error::ErrorKind;
use clap::{Arg, ArgAction, ArgMatches};
use plan::{MAX_CUT, MAX_WORKERS, Plan};
use std::alloc::{AllocError, Global};

/// The help on the number of workers of a command that runs nothing on them.
const ONE_WORKER: &str = "How many workers read and render a long document, 1 to 64 [default: 1]";

/// How many transactions a piece of their work has where the command line doesn't say.
const DEFAULT_CUT: u32 = 16;

/// The largest number of workers, as a number of the command line.
const MOST_WORKERS: i64 = MAX_WORKERS as i64;

/// The largest cut, as a number of the command line.
const MOST_CUT: i64 = MAX_CUT as i64;

/// The program's version.
const VERSION: &str = "1.0.0";

const ABOUT: &str = "Runs a batch of numbered transactions over typed objects on several threads, \
with the result of running them by number on one thread.";

const HELP: &str =
    "The document is JSON: objects (account, counter, set, queue, directory, max), and
transactions, which are lists of steps. Two deposits on an account of 100:

  {\"ordtx\": 4,
   \"objects\": [{\"name\": \"a\", \"kind\": \"account\", \"start\": 100}],
   \"transactions\": [[{\"op\": [\"a\", \"deposit\", 10]}], [{\"op\": [\"a\", \"deposit\", 20]}]]}

Their report, by `ordtx run FILE`:

  T 1 committed
  O 1.1 a deposit 10 = ok
  T 2 committed
  O 2.1 a deposit 20 = ok
  = a account 130
  rounds 1

Exit status: 0 where all was written; 1 for a fault, with the line `fault NUMBER
transaction NUMBER` on standard error; 2 where the command line is refused.
`ordtx locate FILE` prints where a document's fault is, and what is wrong there.";

/// Reads the words of a command line, of which the first is the program's name, as `clap` reads
/// them.
///
/// Words that `clap` takes are refused with `Memory` alone, where a request for memory was refused.
/// `Help` is returned only where the words ask for help or the version. `Words` is returned only
/// where they have a mistake: no command, an unknown one, or a number of workers or a cut that is
/// out of range. Its text names the option, the value and the range.
pub fn line<'a>(alloc: Global, words: &'a [&'a str]) -> Result<Line, Refused>
    ensures line { IfOk result (IsLineOf (map (λ word. word.now) words.entry.now)) }
    ensures faultless { OnOk result (faults_of (map (λ word. word.now) words.entry.now) ≡ []) }
    // Words that `clap` takes are refused for want of memory alone.
    ensures taken { IsTaken (map (λ word. word.now) words.entry.now)
        → IfErr result (λ refused. refused ≡ Refused.Memory) }
    // Help is for words that ask for it, and a message for words with a mistake.
    ensures refused { IfErr result (IsRefusalOf (map (λ word. word.now) words.entry.now)) }
{
    match ordtx_command(alloc)?.try_get_matches_from(words) {
        Ok(matches) => match matches.subcommand() {
            Some((name, held)) => Ok(line_of(alloc, name, held)?),
            // `clap` has refused words without a command.
            None => unreachable!(),
        },
        Err(error) => Err(refusal(alloc, words, &error)),
    }
}

// The line of a command with these matches.
fn line_of(alloc: Global, name: &str, held: &ArgMatches<'_>) -> Result<Line, AllocError>
    requires { CanBeMatched name.now (rows_of (found_of held.now)) }
    ensures { IfOk result (HoldsLine name.now (rows_of (found_of held.now))) }
{
    let command = command_named(name);
    let file = held_text(alloc, held, "file")?;
    let into = held_text(alloc, held, "into")?;
    let plan = held_plan(held, default_workers(command));
    let audit = is_held(held, "audit");
    let why = is_held(held, "why");
    let progress = is_held(held, "progress");
    Ok(Line {
        command,
        file,
        into,
        plan,
        audit,
        why,
        progress,
    })
}

fn command_named(name: &str) -> Command
    requires { NamesCommand name.now }
    ensures { name.now ≡ command_name result }
{
    match name {
        "run" => Command::Run,
        "serial" => Command::Serial,
        "carry" => Command::Carry,
        "check" => Command::Check,
        "locate" => Command::Locate,
        _ => unreachable!(),
    }
}

fn held_text(alloc: Global, held: &ArgMatches<'_>, id: &str) -> Result<Option<String>, AllocError>
    ensures { IfOk result (λ text. option_map (λ file. string_bytes file) text
        ≡ first_of id.now (rows_of (found_of held.now))) }
{
    match held.get_str(id) {
        Some(text) => Ok(Some(String::from_str(alloc, text)?)),
        None => Ok(None),
    }
}

// How many workers a command has where the command line doesn't say.
fn default_workers(command: Command) -> u32
    ensures is { result ≡ default_workers command }
    ensures within { (1 ≤ result) × (result ≤ MAX_WORKERS) }
{
    match command {
        Command::Run => 4,
        Command::Serial | Command::Carry | Command::Check | Command::Locate => 1,
    }
}

// The plan of the numbers that are held, with so many workers where none is.
fn held_plan(held: &ArgMatches<'_>, workers: u32) -> Plan
    requires default { (1 ≤ workers) × (workers ≤ MAX_WORKERS) }
    requires workers { HoldsFrom1 (codes "workers") MAX_WORKERS (rows_of (found_of held.now)) }
    requires cut { HoldsFrom1 (codes "cut") MAX_CUT (rows_of (found_of held.now)) }
    ensures workers { HoldsNumber (one_of (codes "workers") (rows_of (found_of held.now))) workers
        result.workers }
    ensures cut { HoldsNumber (one_of (codes "cut") (rows_of (found_of held.now))) 16 result.cut }
{
    let workers = held_number(held, "workers", workers);
    let cut = held_number(held, "cut", DEFAULT_CUT);
    match Plan::new(workers, cut) {
        Some(plan) => plan,
        // `clap` has refused numbers out of range.
        None => unreachable!(),
    }
}

// The number that is held, or the default where there is none.
fn held_number(held: &ArgMatches<'_>, id: &str, default: u32) -> u32
    requires { HoldsFrom1 id.now MAX_CUT (rows_of (found_of held.now)) }
    ensures { HoldsNumber (one_of id.now (rows_of (found_of held.now))) default result }
{
    match held.try_get_one::<u32>(id) {
        Ok(Some(number)) => number,
        Ok(None) => default,
        // `clap` has refused what is no number.
        Err(_) => unreachable!(),
    }
}

// Whether a flag is held as given.
fn is_held(held: &ArgMatches<'_>, id: &str) -> bool
    ensures { IsTrue result ↔ first_of id.now (rows_of (found_of held.now)) ≡ Some (codes "true") }
{
    match held.get_str(id) {
        Some(text) => text == "true",
        None => false,
    }
}

// What `clap`'s error for these words is. It takes a flag after `help` for a command. It is help on
// help here.
fn refusal(alloc: Global, words: &[&str], error: &clap::Error) -> Refused
    ensures memory { kind_of error.now ≡ ErrorKind.OutOfMemory → result ≡ Refused.Memory }
    ensures refused { IsAmong (kind_of error.now) (faults_of (map (λ word. word.now) words.now))
        → IsRefusalOf (map (λ word. word.now) words.now) result }
{
    match asking_about_help(words) {
        Some(program) if error.kind() != ErrorKind::OutOfMemory => help_on_help(alloc, program),
        _ => refusal_of(alloc, error),
    }
}

// The program's name, where the words are `help` with a flag that asks for help.
fn asking_about_help<'a>(words: &[&'a str]) -> Option<&'a str>
    ensures { OnSome result (IsAboutHelp (map (λ word. word.now) words.now)) }
{
    match words {
        [program, "help", "-h" | "--help", ..] => Some(program),
        _ => None,
    }
}

// The help on the command `help`.
fn help_on_help(alloc: Global, program: &str) -> Refused {
    match ordtx_command(alloc) {
        Ok(command) => match command.try_get_matches_from(&[program, "help", "help"]) {
            Ok(_) => unreachable!(),
            Err(error) => refusal_of(alloc, &error),
        }
        Err(_) => Refused::Memory,
    }
}

// The refusal for an error of `clap`.
fn refusal_of(alloc: Global, error: &clap::Error) -> Refused
    ensures memory { kind_of error.now ≡ ErrorKind.OutOfMemory → result ≡ Refused.Memory }
    ensures kind { IsRefusalBy (kind_of error.now) result }
{
    let kind = error.kind();
    if kind == ErrorKind::OutOfMemory {
        return Refused::Memory;
    }
    match error.to_string(alloc) {
        Ok(text) if kind == ErrorKind::DisplayHelp || kind == ErrorKind::DisplayVersion => {
            Refused::Help(text)
        }
        Ok(text) => match without_tips(alloc, text.as_str()) {
            Ok(text) => Refused::Words(text),
            Err(_) => Refused::Memory,
        }
        Err(_) => Refused::Memory,
    }
}

// The message without `clap`'s tip to pass a mistaken option as a value, and without the blank line
// before the tip.
fn without_tips(alloc: Global, message: &str) -> Result<String, AllocError> {
    let mut kept = String::new(alloc);
    let mut after_blank = false;
    for line in message.lines() {
        let blank = line.is_empty();
        if !line.starts_with("  tip: to pass ") && !(blank && after_blank) {
            writeln!(&mut kept, "{line}")?;
            after_blank = blank;
        }
    }
    Ok(kept)
}

fn ordtx_command<'a>(alloc: Global) -> Result<clap::Command<'a>, AllocError>
    ensures { IfOk result (λ command. app_of command ≡ ordtx_app) }
{
    let carry = command_to_carry(alloc)?;
    let check = carry.subcommand(shared_command(
        alloc,
        "check",
        "Reads a document, and prints how many objects, transactions and operations it has",
        ONE_WORKER,
    )?)?;
    check.subcommand(file_command(
        alloc,
        "locate",
        "Reads a document, and prints where its first fault is; without a fault, what check prints",
    )?)
}

// The program's command with those that run a document.
fn command_to_carry<'a>(alloc: Global) -> Result<clap::Command<'a>, AllocError>
    ensures { IfOk result (λ command. app_of command
        ≡ with_subcommand (with_subcommand (with_subcommand (titled (new_app (codes "ordtx")))
        run_app.top) (shared_app (codes "serial")).top) carry_app.top) }
{
    let run = command_to_run(alloc)?;
    let serial = run.subcommand(shared_command(
        alloc,
        "serial",
        "Runs the transactions by number on one thread, and prints the report without the rounds",
        ONE_WORKER,
    )?)?;
    serial.subcommand(carry_command(alloc)?)
}

fn carry_command<'a>(alloc: Global) -> Result<clap::Command<'a>, AllocError>
    ensures app { IfOk result (λ command. app_of command ≡ carry_app) }
    ensures local { IfOk result (λ command. (out-Command command).has_globals ≡ false) }
{
    shared_command(
        alloc,
        "carry",
        "Runs the transactions by number on one thread, and prints a document of the objects as they end",
        ONE_WORKER,
    )?
    .arg(text_argument(
        alloc,
        "into",
        "NEXT",
        "Print the document NEXT in its place, with each of these objects as it ends",
    ))
}

// The program's command with `run` alone.
fn command_to_run<'a>(alloc: Global) -> Result<clap::Command<'a>, AllocError>
    ensures { IfOk result (λ command. app_of command
        ≡ with_subcommand (titled (new_app (codes "ordtx"))) run_app.top) }
{
    let run = run_command(alloc)?;
    clap::Command::new(alloc, "ordtx")
        .about(ABOUT)
        .after_help(HELP)
        .version(VERSION)
        .propagate_version(true)
        .subcommand_required(true)
        .subcommand(run)
}

fn run_command<'a>(alloc: Global) -> Result<clap::Command<'a>, AllocError>
    ensures app { IfOk result (λ command. app_of command ≡ run_app) }
    ensures local { IfOk result (λ command. (out-Command command).has_globals ≡ false) }
{
    planned_command(alloc)?
        .arg(flag_argument(
            alloc,
            "audit",
            "Print also how often each transaction was run",
        ))?
        .arg(flag_argument(alloc, "why", "Print also which operations ended each round"))?
        .arg(flag_argument(
            alloc,
            "progress",
            "Show on standard error how far the run is",
        ))
}

// The command `run` with the options of its plan.
fn planned_command<'a>(alloc: Global) -> Result<clap::Command<'a>, AllocError>
    ensures app { IfOk result (λ command. app_of command
        ≡ with_rule (shared_app (codes "run")) (number_rule (codes "cut") (pos MAX_CUT))) }
    ensures local { IfOk result (λ command. (out-Command command).has_globals ≡ false) }
{
    shared_command(
        alloc,
        "run",
        "Runs the transactions of a document on workers, and prints the report",
        "How many workers there are, 1 to 64 [default: 4]",
    )?
    .arg(number_argument(
        alloc,
        "cut",
        "K",
        MOST_CUT,
        "How many transactions a worker takes at a time at most, 1 to 1000 [default: 16]",
    ))
}

// A command that takes a file and the number of workers, of which the help says this.
fn shared_command<'a>(
    alloc: Global,
    name: &'a str,
    about: &'a str,
    help: &'a str,
) -> Result<clap::Command<'a>, AllocError>
    ensures app { IfOk result (λ command. app_of command ≡ shared_app name.entry.now) }
    ensures local { IfOk result (λ command. (out-Command command).has_globals ≡ false) }
{
    file_command(alloc, name, about)?.arg(number_argument(
        alloc,
        "workers",
        "N",
        MOST_WORKERS,
        help,
    ))
}

// A command that takes a file.
fn file_command<'a>(
    alloc: Global,
    name: &'a str,
    about: &'a str,
) -> Result<clap::Command<'a>, AllocError>
    ensures app { IfOk result (λ command. app_of command ≡ file_app name.entry.now) }
    ensures local { IfOk result (λ command. (out-Command command).has_globals ≡ false) }
{
    let file = Arg::new(alloc, "file").value_name("FILE").help(
        "The document; standard input where no file is given, or -",
    );
    clap::Command::new(alloc, name).about(about).arg(file)
}

// An option that takes no value.
fn flag_argument<'a>(alloc: Global, name: &'a str, help: &'a str) -> Arg<'a>
    ensures rule { rule_of result ≡ flag_rule name.entry.now }
    ensures local { result.global ≡ false }
{
    Arg::new(alloc, name)
        .long(name)
        .action(ArgAction::SetTrue)
        .help(help)
}

// An option that takes a text.
fn text_argument<'a>(alloc: Global, name: &'a str, value: &'a str, help: &'a str) -> Arg<'a>
    ensures rule { rule_of result ≡ text_rule name.entry.now }
    ensures local { result.global ≡ false }
{
    Arg::new(alloc, name)
        .long(name)
        .value_name(value)
        .help(help)
}

// An option that takes a number from 1 to the most.
fn number_argument<'a>(
    alloc: Global,
    name: &'a str,
    value: &'a str,
    most: i64,
    help: &'a str,
) -> Arg<'a>
    ensures rule { rule_of result ≡ number_rule name.entry.now most }
    ensures local { result.global ≡ false }
{
    Arg::new(alloc, name)
        .long(name)
        .value_name(value)
        .value_parser(ValueParser::signed(1, most))
        .help(help)
}
