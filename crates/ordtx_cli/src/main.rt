//! The program: `ordtx run`, `ordtx serial`, `ordtx carry`, `ordtx check` and `ordtx locate`. It reads a document
//! from a file or standard input, and writes the report to standard output.
#![tactic(auto)]

mod arguments;
mod carrying;
mod input;
mod program;
mod progress;

use program::answer_words;
use std::process::ExitCode;

fn main(rt: HostRuntime) -> ExitCode {
    answer_words(&rt, &rt)
}
