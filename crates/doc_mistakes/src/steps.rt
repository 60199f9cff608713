//! What is said of steps that are no operations.
#![tactic(auto, using(crate::proofs::Joins::joins))]

ghost use Rattle.std.specs.Prelude.{◌≡◌, ◌++◌, OnOk, string_bytes};
ghost use Rattle.serde_json.specs.View.{view};
ghost use Rattle.doc_mistakes.specs.Words.{abort_said, else_said, handlers_said, sort_said, too_early};

use crate::parts::{has_sort, is_text};
use crate::phrases::{write_around, write_wanting};
use serde_json::Value;
use std::alloc::{AllocError, Global};

/// The first version of documents in which an abort has a reason, and handlers are by reason.
const REASONS_SINCE: u8 = 3;

/// The first version of documents in which an operation says what its refusal does.
const ELSE_SINCE: u8 = 5;

/// Writes why it can't be said what a step is.
#[tactic(auto, unfolding(crate::specs::Words::sort_said))]
pub(crate) fn write_sort(alloc: Global, out: &mut String, part: &Value) -> Result<(), AllocError>
    ensures { OnOk result (string_bytes out.new ≡ string_bytes out.old
        ++ sort_said (view part.now)) }
{
    if !part.is_object() {
        write_around(
            alloc,
            out,
            "",
            Some(part),
            " is no step: a step is an object of JSON",
        )?;
    } else if has_sort(part) {
        out.push_str("a step has only one of \"op\", \"if\", \"sub\", \"abort\" and \"parallel\"")?;
    } else {
        out.push_str("a step has one of \"op\", \"if\", \"sub\", \"abort\" and \"parallel\"")?;
    }
    Ok(())
}

/// Writes why a document of the version has no handlers by reason as these.
#[tactic(auto, unfolding(crate::specs::Words::handlers_said))]
pub(crate) fn write_handlers(
    alloc: Global,
    out: &mut String,
    version: u8,
    part: &Value,
) -> Result<(), AllocError>
    ensures { OnOk result (string_bytes out.new ≡ string_bytes out.old
        ++ handlers_said version (view part.now)) }
{
    if version >= REASONS_SINCE {
        write_wanting(alloc, out, "handlers", "an object of JSON", part)
    } else {
        write_too_early(out, "\"handlers\"", REASONS_SINCE, version)
    }
}

/// Writes why a document of the version has no abort as this.
#[tactic(auto, unfolding(crate::specs::Words::abort_said))]
pub(crate) fn write_abort(
    alloc: Global,
    out: &mut String,
    version: u8,
    part: &Value,
) -> Result<(), AllocError>
    ensures { OnOk result (string_bytes out.new ≡ string_bytes out.old
        ++ abort_said version (view part.now)) }
{
    if version >= REASONS_SINCE {
        write_wanting(alloc, out, "abort", "true or a reason", part)
    } else if is_text(part.get("abort")) {
        write_too_early(out, "a reason", REASONS_SINCE, version)
    } else {
        write_wanting(alloc, out, "abort", "true", part)
    }
}

/// Writes why a document of the version has no `else` as this.
#[tactic(auto, unfolding(crate::specs::Words::else_said))]
pub(crate) fn write_else(
    alloc: Global,
    out: &mut String,
    version: u8,
    part: &Value,
) -> Result<(), AllocError>
    ensures { OnOk result (string_bytes out.new ≡ string_bytes out.old
        ++ else_said version (view part.now)) }
{
    if version >= ELSE_SINCE {
        write_wanting(alloc, out, "else", "true or a reason", part)
    } else {
        write_too_early(out, "\"else\"", ELSE_SINCE, version)
    }
}

// Writes that the document is too early for this.
fn write_too_early(out: &mut String, what: &str, since: u8, version: u8) -> Result<(), AllocError>
    ensures { OnOk result (string_bytes out.new ≡ string_bytes out.old
        ++ too_early what.now since version) }
{
    write!(
        out,
        "{what} is of version {since} on, and this document is of version {version}"
    )?;
    Ok(())
}
