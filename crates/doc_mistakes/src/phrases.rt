//! The phrases of several rules.
#![tactic(auto, using(crate::proofs::Joins::joins))]

ghost use Rattle.std.specs.Prelude.{◌≡◌, ◌++◌, OnOk, option_map, string_bytes};
ghost use Rattle.serde_json.specs.View.{view};
ghost use Rattle.doc_mistakes.specs.Phrases.{form_text, missing, more_than, no_item, no_label, no_name, no_number, signs_text, subject_text, too_new, wanting, wanting_at};
ghost use Rattle.doc_mistakes.specs.Shown.{shown, shown_in};

use crate::shown::{shown, shown_in, write_grouped};
use batch::{has_long_names, most_name_bytes};
use doc_rules::{Form, Subject};
use serde_json::Value;
use std::alloc::{AllocError, Global};

/// Writes that a member is missing.
pub(crate) fn write_missing(out: &mut String, name: &str) -> Result<(), AllocError>
    ensures { OnOk result (string_bytes out.new ≡ string_bytes out.old ++ missing name.now) }
{
    write!(out, "\"{name}\" is missing")?;
    Ok(())
}

/// Writes that a member is missing, or isn't what it has to be.
#[tactic(auto, unfolding(crate::specs::Phrases::wanting_at))]
pub(crate) fn write_wanting_at(
    alloc: Global,
    out: &mut String,
    name: &str,
    wanted: &str,
    found: Option<&Value>,
) -> Result<(), AllocError>
    ensures { OnOk result (string_bytes out.new ≡ string_bytes out.old
        ++ wanting_at name.now wanted.now (option_map (λ value. view value.now) found.entry)) }
{
    match found {
        None => write_missing(out, name)?,
        Some(value) => {
            let value = shown(alloc, value)?;
            write!(out, "\"{name}\" is {value}, and has to be {wanted}")?;
        }
    }
    Ok(())
}

/// What the member of a part with this name is, and what it has to be.
pub(crate) fn write_wanting(
    alloc: Global,
    out: &mut String,
    name: &str,
    wanted: &str,
    part: &Value,
) -> Result<(), AllocError>
    ensures { OnOk result (string_bytes out.new ≡ string_bytes out.old
        ++ wanting name.now wanted.now (view part.now)) }
{
    write_wanting_at(alloc, out, name, wanted, part.get(name))
}

/// Writes what is shown of a value between two texts.
pub(crate) fn write_around(
    alloc: Global,
    out: &mut String,
    before: &str,
    found: Option<&Value>,
    after: &str,
) -> Result<(), AllocError>
    ensures { OnOk result (string_bytes out.new ≡ string_bytes out.old
        ++ (before.now ++ shown_in (option_map (λ value. view value.now) found.entry)
        ++ after.now)) }
{
    let value = shown_in(alloc, found)?;
    write!(out, "{before}{value}{after}")?;
    Ok(())
}

// What names of a version have beside letters and digits.
fn signs_text(version: u8) -> &'static str
    ensures { result.now ≡ signs_text version }
{
    if has_long_names(version) {
        " and signs of \"_-.:/@+#%\""
    } else {
        ", \"_\" and \"-\""
    }
}

/// Writes that what is shown is no name of a version.
pub(crate) fn write_no_name(out: &mut String, version: u8, text: &str) -> Result<(), AllocError>
    ensures { OnOk result (string_bytes out.new
        ≡ string_bytes out.old ++ no_name version text.now) }
{
    let most = most_name_bytes(version);
    let signs = signs_text(version);
    write!(
        out,
        "{text} is no name: a name has 1 to {most} ASCII letters, digits{signs}"
    )?;
    Ok(())
}

/// Writes that a value is no name of a version.
pub(crate) fn write_unnamed(
    alloc: Global,
    out: &mut String,
    version: u8,
    found: Option<&Value>,
) -> Result<(), AllocError>
    ensures { OnOk result (string_bytes out.new ≡ string_bytes out.old
        ++ no_name version (shown_in (option_map (λ value. view value.now) found.entry))) }
{
    let value = shown_in(alloc, found)?;
    write_no_name(out, version, value.as_str())
}

/// Writes that there are more than so many things.
pub(crate) fn write_more_than(out: &mut String, most: usize, things: &str) -> Result<(), AllocError>
    ensures { OnOk result (string_bytes out.new ≡ string_bytes out.old
        ++ more_than most things.now) }
{
    write!(out, "more than ")?;
    write_grouped(out, most as u64)?;
    write!(out, " {things}")?;
    Ok(())
}

/// Writes that what is shown is of a later version than the document.
pub(crate) fn write_too_new(
    alloc: Global,
    out: &mut String,
    what: &str,
    found: Option<&Value>,
    version: u8,
) -> Result<(), AllocError>
    ensures { OnOk result (string_bytes out.new ≡ string_bytes out.old
        ++ too_new (what.now ++ shown_in (option_map (λ value. view value.now) found.entry))
        version) }
{
    let value = shown_in(alloc, found)?;
    write!(out, "{what}{value} is of a later version than {version}")?;
    Ok(())
}

/// An object of JSON of a form.
pub(crate) fn form_text(form: Form) -> &'static str
    ensures { result.now ≡ form_text form }
{
    match form {
        Form::Document => "a document",
        Form::Object => "an object",
        Form::Operation => "an operation",
        Form::Source => "an argument from a label",
        Form::If => "an if",
        Form::Subaction => "a subaction",
        Form::Abort => "an abort",
        Form::Parallel => "a parallel step",
    }
}

/// Writes that no label of the text that a value is can be seen.
pub(crate) fn write_no_label(
    alloc: Global,
    out: &mut String,
    found: Option<&Value>,
) -> Result<(), AllocError>
    ensures { OnOk result (string_bytes out.new ≡ string_bytes out.old
        ++ no_label (shown_in (option_map (λ value. view value.now) found.entry))) }
{
    write_around(alloc, out, "no label ", found, " is seen here")
}

/// Writes that what a label is of is no number.
pub(crate) fn write_no_number(out: &mut String, subject: Subject) -> Result<(), AllocError>
    ensures { OnOk result (string_bytes out.new ≡ string_bytes out.old ++ no_number subject) }
{
    write_subject(out, subject, " is no number")
}

/// Writes that what a label is of has no item.
pub(crate) fn write_no_item(out: &mut String, subject: Subject) -> Result<(), AllocError>
    ensures { OnOk result (string_bytes out.new ≡ string_bytes out.old ++ no_item subject) }
{
    write_subject(out, subject, " has no item")
}

// Writes what a label is of, and what follows.
fn write_subject(out: &mut String, subject: Subject, after: &str) -> Result<(), AllocError>
    ensures { OnOk result (string_bytes out.new ≡ string_bytes out.old
        ++ (subject_text subject ++ after.now)) }
{
    match subject {
        Subject::Reply(verb) => {
            let verb = verb.text();
            write!(out, "the reply of \"{verb}\"{after}")?;
        }
        Subject::Outcome => write!(out, "the outcome of a subaction{after}")?,
    }
    Ok(())
}
