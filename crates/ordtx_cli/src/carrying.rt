//! Carrying objects over, alone or into a next document, and what is said where none are carried.
ghost use Rattle.std.specs.Prelude.{◌≡◌, false};

use crate::arguments::shown;
use crate::input::{is_standard, open, tell_refused};
use ordtx::{Code, Fault, Marked, Plan, Source, Uncarried, Wrong, carry_into_stream, carry_stream};
use std::thread::Threads;

/// Carries the objects at the end of a document.
pub fn carry_alone<T: Threads + Sync, R: Source>(
    rt: &HostRuntime,
    threads: &T,
    source: &mut R,
    plan: Plan,
) -> Result<(), Fault>
    requires unended { R.has_ended source.old ≡ false }
    requires unread { R.has_failed source.old ≡ false }
{
    let mut sink = Marked::new(rt.stdout());
    match carry_stream(threads, rt.alloc(), source, &mut sink, plan) {
        Ok(()) => Ok(()),
        Err(refused) => {
            if let Uncarried::Object(fault, name) = &refused {
                tell_object(rt, *fault, name.as_str());
            }
            Err(refused.fault())
        }
    }
}

/// Carries the objects at the end of a document, whose input has this name, into the document of
/// another input.
pub fn carry_into<T: Threads + Sync, R: Source>(
    rt: &HostRuntime,
    threads: &T,
    first: Option<&str>,
    source: &mut R,
    next: &str,
    plan: Plan,
) -> Result<(), Fault>
    requires unended { R.has_ended source.old ≡ false }
    requires unread { R.has_failed source.old ≡ false }
{
    let input = open(rt, Some(next))?;
    let size = input.size();
    let mut next_source = Marked::expecting(input, size);
    let mut sink = Marked::new(rt.stdout());
    let answer = carry_into_stream(
        threads,
        rt.alloc(),
        source,
        &mut next_source,
        &mut sink,
        plan,
    );
    tell_refused(rt, Some(next), &next_source.into_inner());
    match answer {
        Ok(()) => Ok(()),
        Err(refused) => {
            match &refused {
                Uncarried::First(fault) => tell_document(rt, *fault, first),
                Uncarried::Next(fault) => tell_document(rt, *fault, Some(next)),
                Uncarried::Object(fault, name) => tell_object(rt, *fault, name.as_str()),
            }
            Err(refused.fault())
        }
    }
}

// Writes to standard error which document a fault is of.
fn tell_document(rt: &HostRuntime, fault: Fault, name: Option<&str>) {
    if let Code::Wrong(_) = fault.code {
        let _ = match name {
            Some(file) if !is_standard(name) => match shown(rt.alloc(), file) {
                Ok(file) => eprintln!(rt; "ordtx: this fault is of '{file}'"),
                Err(_) => Ok(()),
            },
            _ => eprintln!(rt; "ordtx: this fault is of standard input"),
        };
    }
}

// Writes to standard error which object can't start as it ends, and why.
fn tell_object(rt: &HostRuntime, fault: Fault, name: &str) {
    let why = match fault.code {
        Code::Wrong(Wrong::DuplicateObject) => "has two kinds in the two documents",
        Code::Wrong(Wrong::Start) => "ends with a number that is too large for a start",
        _ => "is one too many, or its entries are",
    };
    let _ = eprintln!(rt; "ordtx: object '{name}' {why}");
}
