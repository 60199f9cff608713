//! What is said of the document itself, and of its objects.
#![tactic(auto, using(crate::proofs::Joins::joins))]

ghost use Rattle.std.specs.Prelude.{◌≡◌, ◌++◌, OnOk, option_map, string_bytes};
ghost use Rattle.serde_json.specs.View.{view};
ghost use Rattle.doc_mistakes.specs.Parts.{unknown_member, unnamed_reason};
ghost use Rattle.doc_mistakes.specs.Phrases.{no_name};
ghost use Rattle.meaning.specs.declared.limits.TheConstants.{MAX_START};
ghost use Rattle.doc_mistakes.specs.Shown.{grouped, shown_in};
ghost use Rattle.doc_mistakes.specs.Words.{is_last_kind, kind_said, members_said, start_said, starts_with, version_said};
ghost use Rattle.serde_json.specs.Data.{string};

use crate::parts::{is_text, unknown_member, unnamed_reason};
use crate::phrases::{
    form_text, write_around, write_missing, write_no_name, write_too_new, write_wanting_at,
};
use crate::shown::{quoted, shown, write_grouped};
use doc_rules::{Form, LAST_VERSION};
use meaning::limits::MAX_START;
use objects::{Kind, ValueForm};
use serde_json::Value;
use std::alloc::{AllocError, Global};
use vocabulary::{a_kind, kind_of_text};

/// Writes which member an object of the form doesn't have.
#[tactic(auto, unfolding(crate::specs::Words::members_said))]
pub(crate) fn write_members(
    alloc: Global,
    out: &mut String,
    form: Form,
    part: &Value,
) -> Result<(), AllocError>
    ensures { OnOk result (string_bytes out.new ≡ string_bytes out.old
        ++ members_said form (view part.now) (unknown_member form (view part.now))) }
{
    match unknown_member(form, part) {
        Some(name) => {
            let name = quoted(alloc, name)?;
            let form = form_text(form);
            write!(out, "{name} is no member of {form}")?;
        }
        None => write_around(alloc, out, "", Some(part), " is no object of JSON")?,
    }
    Ok(())
}

/// Writes what is wrong with the version that the document gives.
#[tactic(auto, unfolding(crate::specs::Words::version_said))]
pub(crate) fn write_version(
    alloc: Global,
    out: &mut String,
    found: Option<&Value>,
) -> Result<(), AllocError>
    ensures { OnOk result (string_bytes out.new ≡ string_bytes out.old
        ++ version_said (option_map (λ value. view value.now) found.entry)) }
{
    let Some(value) = found else {
        write_missing(out, "ordtx")?;
        write!(out, ": this program reads the versions 1 to {LAST_VERSION}")?;
        return Ok(());
    };
    if value.is_string() {
        write!(out, "the version is a text; write it without quotes")?;
    } else {
        let value = shown(alloc, value)?;
        write!(
            out,
            "the version is {value}; this program reads 1 to {LAST_VERSION}"
        )?;
    }
    Ok(())
}

fn is_last_kind(found: Option<&Value>) -> bool
    ensures { result ≡ is_last_kind (option_map (λ value. view value.now) found.entry) }
{
    match found.and_then(Value::as_str) {
        Some(text) => kind_of_text(LAST_VERSION, text).is_some(),
        None => false,
    }
}

/// Writes why a value is no kind of the version.
#[tactic(auto, unfolding(crate::specs::Words::kind_said))]
pub(crate) fn write_kind(
    alloc: Global,
    out: &mut String,
    version: u8,
    found: Option<&Value>,
) -> Result<(), AllocError>
    ensures { OnOk result (string_bytes out.new ≡ string_bytes out.old
        ++ kind_said version (option_map (λ value. view value.now) found.entry)) }
{
    if is_last_kind(found) {
        write_too_new(alloc, out, "the kind ", found, version)
    } else if is_text(found) {
        write_around(alloc, out, "", found, " is no kind of object")
    } else {
        write_wanting_at(alloc, out, "kind", "a text", found)
    }
}

/// Writes what an object of the kind can't start with, and what it starts with.
#[tactic(auto, unfolding(crate::specs::Words::start_said))]
pub(crate) fn write_start(
    alloc: Global,
    out: &mut String,
    kind: Kind,
    part: &Value,
) -> Result<(), AllocError>
    ensures { OnOk result (string_bytes out.new ≡ string_bytes out.old
        ++ start_said kind (view part.now)) }
{
    let object = a_kind(kind);
    let value = shown(alloc, part)?;
    write!(out, "{object} can't start with {value}: it starts with ")?;
    write_starts_with(out, kind.form())?;
    Ok(())
}

#[tactic(auto, unfolding(crate::specs::Words::starts_with))]
fn write_starts_with(out: &mut String, form: ValueForm) -> Result<(), AllocError>
    ensures { OnOk result (string_bytes out.new ≡ string_bytes out.old ++ starts_with form) }
{
    match form {
        ValueForm::Number(_) => write_up_to_most(out, "a whole number from 0 to ")?,
        ValueForm::Signed => {
            write_up_to_most(out, "a whole number from -")?;
            write_up_to_most(out, " to ")?;
        }
        ValueForm::Set | ValueForm::Queue => write!(out, "a list of items")?,
        ValueForm::Directory => write!(out, "a list of pairs")?,
    }
    Ok(())
}

// Writes the largest number of a start after a text.
fn write_up_to_most(out: &mut String, before: &str) -> Result<(), AllocError>
    ensures { OnOk result (string_bytes out.new ≡ string_bytes out.old
        ++ (before.now ++ grouped MAX_START)) }
{
    out.push_str(before)?;
    write_grouped(out, MAX_START)?;
    Ok(())
}

/// Writes which reason of handlers is no name of a version.
pub(crate) fn write_handlers_named(
    alloc: Global,
    out: &mut String,
    version: u8,
    part: &Value,
) -> Result<(), AllocError>
    ensures { OnOk result (string_bytes out.new ≡ string_bytes out.old
        ++ no_name version
        (shown_in (option_map string (unnamed_reason version (view part.now))))) }
{
    match unnamed_reason(version, part) {
        Some(reason) => {
            let reason = quoted(alloc, reason)?;
            write_no_name(out, version, reason.as_str())?;
        }
        None => write_no_name(out, version, "null")?,
    }
    Ok(())
}
