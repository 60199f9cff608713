//! What is said of operations.
#![tactic(auto, using(crate::proofs::Joins::joins))]

ghost use Rattle.std.specs.Prelude.{◌≡◌, ◌++◌, OnOk, codes, option_map, string_bytes};
ghost use Rattle.serde_json.specs.View.{view};
ghost use Rattle.vocabulary.specs.Words.{verb_text};
ghost use Rattle.doc_mistakes.specs.Words.{amount_said, is_last_operation, named_said, operand_said, operation_of_said, operation_said, taken};

use crate::parts::{is_list, is_text, operand};
use crate::phrases::{write_around, write_too_new, write_wanting};
use crate::shown::{shown, write_grouped};
use atoms::Amount;
use doc_rules::LAST_VERSION;
use objects::Kind;
use serde_json::Value;
use std::alloc::{AllocError, Global};
use vocabulary::{Verb, a_kind};

/// Writes why an operation has no object, or no operation, at its place.
#[tactic(auto, unfolding(crate::specs::Words::operand_said))]
pub(crate) fn write_operand(
    alloc: Global,
    out: &mut String,
    what: &str,
    index: usize,
    part: &Value,
) -> Result<(), AllocError>
    ensures { OnOk result (string_bytes out.new ≡ string_bytes out.old
        ++ operand_said what.now index (view part.now)) }
{
    if is_list(part.get("op")) {
        write_named(alloc, out, what, operand(part, index))
    } else {
        write_wanting(alloc, out, "op", "a list", part)
    }
}

#[tactic(auto, unfolding(crate::specs::Words::named_said))]
fn write_named(
    alloc: Global,
    out: &mut String,
    what: &str,
    found: Option<&Value>,
) -> Result<(), AllocError>
    ensures { OnOk result (string_bytes out.new ≡ string_bytes out.old
        ++ named_said what.now (option_map (λ value. view value.now) found.entry)) }
{
    match found {
        None => write!(out, "\"op\" has no {what}")?,
        Some(value) => {
            let value = shown(alloc, value)?;
            write!(out, "the {what} is {value}, and has to be a text")?;
        }
    }
    Ok(())
}

fn is_last_operation(kind: Kind, found: Option<&Value>) -> bool
    ensures { result ≡ is_last_operation kind (option_map (λ value. view value.now) found.entry) }
{
    match found.and_then(Value::as_str) {
        Some(text) => Verb::of_text(LAST_VERSION, kind, text).is_some(),
        None => false,
    }
}

/// Writes why a value is no operation, where its object is of that kind.
#[tactic(auto, unfolding(crate::specs::Words::operation_said))]
pub(crate) fn write_operation(
    alloc: Global,
    out: &mut String,
    version: u8,
    kind: Option<Kind>,
    found: Option<&Value>,
) -> Result<(), AllocError>
    ensures { OnOk result (string_bytes out.new ≡ string_bytes out.old
        ++ operation_said version kind (option_map (λ value. view value.now) found.entry)) }
{
    match kind {
        None => write_around(alloc, out, "", found, " is no operation")?,
        Some(kind) => write_operation_of(alloc, out, version, kind, found)?,
    }
    Ok(())
}

#[tactic(auto, unfolding(crate::specs::Words::operation_of_said))]
fn write_operation_of(
    alloc: Global,
    out: &mut String,
    version: u8,
    kind: Kind,
    found: Option<&Value>,
) -> Result<(), AllocError>
    ensures { OnOk result (string_bytes out.new ≡ string_bytes out.old
        ++ operation_of_said version kind (option_map (λ value. view value.now) found.entry)) }
{
    if is_last_operation(kind, found) {
        write_too_new(alloc, out, "the operation ", found, version)?;
    } else {
        write_around(alloc, out, "", found, " is no operation of ")?;
        out.push_str(a_kind(kind))?;
    }
    Ok(())
}

/// Writes what an operation takes.
pub(crate) fn write_arguments(out: &mut String, verb: Verb) -> Result<(), AllocError>
    ensures { OnOk result (string_bytes out.new ≡ string_bytes out.old
        ++ (codes "\"" ++ verb_text verb ++ codes "\" takes " ++ taken verb)) }
{
    let word = verb.text();
    let taken = taken(verb);
    write!(out, "\"{word}\" takes {taken}")?;
    Ok(())
}

fn taken(verb: Verb) -> &'static str
    ensures { result.now ≡ taken verb }
{
    match verb {
        Verb::OfAmount(_) => "one amount",
        Verb::OfItem(_) => "one item",
        Verb::OfPair(_) => "a key and an item",
        Verb::Alone(_) => "no argument",
    }
}

/// Writes why a value is no amount.
#[tactic(auto, unfolding(crate::specs::Words::amount_said))]
pub(crate) fn write_amount(
    alloc: Global,
    out: &mut String,
    found: Option<&Value>,
) -> Result<(), AllocError>
    ensures { OnOk result (string_bytes out.new ≡ string_bytes out.old
        ++ amount_said (option_map (λ value. view value.now) found.entry)) }
{
    if is_text(found) {
        out.push_str("the amount is a text; write it without quotes")?;
        return Ok(());
    }
    let after = ", and has to be a whole number from 1 to ";
    write_around(alloc, out, "the amount is ", found, after)?;
    write_grouped(out, Amount::MAX)?;
    Ok(())
}
