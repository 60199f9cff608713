//! A program for tests: it looks at what is left unchanged where memory is refused. It fills
//! objects, performs calls on them and on a view, and appends to a committed list. After a call
//! that returns `NoMemory` it looks whether all is as before.
//!
//! It prints what it saw: `whole` where no request was refused, or else `unchanged` or `changed`.
//! `make try` runs it with each request for memory refused in turn.
#![tactic(auto)]

mod loops;
mod seen;

use loops::try_all;
use seen::Seen;
use std::process::ExitCode;

fn main(rt: HostRuntime) -> ExitCode {
    let seen = try_all(rt.alloc());
    let word = match seen {
        Seen::Whole => "whole",
        Seen::Unchanged => "unchanged",
        Seen::Changed => "changed",
    };
    if rt.print(word).is_err() {
        return ExitCode::FAILURE;
    }
    match seen {
        Seen::Changed => ExitCode::FAILURE,
        _ => ExitCode::SUCCESS,
    }
}
