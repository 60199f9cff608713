//! Where a document's first fault is and what is wrong, in two lines.
ghost use Rattle.std.specs.Prelude.{◌≡◌, IfErr, IfOk, string_bytes};
ghost use Rattle.lang.specs.Reading.{reading};
ghost use Rattle.faults.specs.Faults.{memory_fault};
ghost use Rattle.ordtx.specs.Answers.{IsFaultOf, IsLocationOf, IsPlacedFaultOf, located_by, place_line, place_text, position_text};

use faults::{Code, Fault};
use lang::{Place, Position, locate, read};
use report::render_check;
use std::alloc::{AllocError, Global};

/// Whether a document has a fault.
#[derive(Clone, Copy, Debug, Drop, PartialEq, Eq)]
pub enum Located {
    /// It has none.
    Faultless,
    /// It has one.
    Faulty,
}

/// The lines of a document's first fault, or that of `check` where it has no fault.
pub(crate) fn location_of(alloc: Global, document: &[u8]) -> Result<(String, Located), Fault>
    ensures text { IfOk result (λ located. IsLocationOf document.now (string_bytes located.0)) }
    ensures located { IfOk result (λ located. located.1 ≡ located_by (reading document.now)) }
    ensures fault { IfErr result (λ fault. fault ≡ memory_fault) }
{
    let fault = match read(alloc, document) {
        Ok(batch) => return Ok((render_check(alloc, &batch)?, Located::Faultless)),
        Err(fault) => fault,
    };
    if fault.code == Code::Memory {
        return Err(Code::Memory.outside());
    }
    let text = fault_lines(alloc, document, fault)?;
    Ok((text, Located::Faulty))
}

// The line of a document's first fault and its place, and the line of what is wrong.
fn fault_lines(alloc: Global, document: &[u8], fault: Fault) -> Result<String, Fault>
    requires { IsFaultOf document.now fault }
    ensures text { IfOk result (λ text. IsPlacedFaultOf document.now (string_bytes text)) }
    ensures fault { IfErr result (λ refused. refused ≡ memory_fault) }
{
    let mistake = locate(alloc, document, fault)?;
    let place = place_line(alloc, fault, &mistake.place)?;
    let words = mistake.words;
    let text = format!(in alloc; "{place}{words}\n")?;
    Ok(text)
}

// The line of a fault and its place.
fn place_line(alloc: Global, fault: Fault, place: &Place) -> Result<String, AllocError>
    ensures { IfOk result (λ text. string_bytes text ≡ place_line fault place.now) }
{
    let number = fault.number();
    let transaction = fault.transaction;
    let place = place_text(alloc, place)?;
    format!(in alloc; "fault {number} transaction {transaction} at{place}\n")
}

// A line and a column.
fn position_text(alloc: Global, position: &Position) -> Result<String, AllocError>
    ensures { IfOk result (λ text. string_bytes text ≡ position_text position.now) }
{
    let Position { line, column } = *position;
    format!(in alloc; " line {line} column {column}")
}

// The place of a fault, as it is written after `at`.
fn place_text(alloc: Global, place: &Place) -> Result<String, AllocError>
    ensures { IfOk result (λ text. string_bytes text ≡ place_text place.now) }
{
    match place {
        Place::Whole => Ok(String::new(alloc)),
        Place::Pointer(pointer, position) => {
            let position = position_text(alloc, position)?;
            format!(in alloc; " {pointer}{position}")
        }
        Place::LineColumn(position) => position_text(alloc, position),
    }
}
