//! Hints at the name that is meant where one is misspelt.
ghost use Rattle.std.specs.Prelude.{◌≡◌, ◌++◌, ℕ, List, OnOk, string_bytes};
ghost use Rattle.doc_mistakes.specs.Words.{IsHint};

use crate::parts::{has_sort, index_of, operand, unknown_member};
use doc_rules::{Form, Rule, ShapeRule, SourceRule};
use objects::Kind;
use serde_json::Value;
use std::alloc::{AllocError, Global};
use strsim::levenshtein;
use vocabulary::{KINDS, Verb, kind_of_text, kind_text, verbs_of};

/// A text of more bytes gets no hint.
const LONGEST: usize = 64;

/// How many letters of a misspelt name are wrong at most.
const MOST_WRONG: usize = 2;

const SORTS: [&str; 5] = ["op", "if", "sub", "abort", "parallel"];

/// Writes which name may be meant, where there is one.
pub(crate) fn write_hint(
    alloc: Global,
    out: &mut String,
    rule: Rule,
    part: &Value,
) -> Result<(), AllocError>
    ensures { OnOk result ((more : List ℕ)
        × (string_bytes out.new ≡ string_bytes out.old ++ more) × IsHint more) }
{
    if let Some(name) = meant(alloc, rule, part)? {
        write!(out, "; did you mean \"{name}\"?")?;
    }
    Ok(())
}

fn meant(alloc: Global, rule: Rule, part: &Value) -> Result<Option<&'static str>, AllocError> {
    match rule {
        Rule::Shape(ShapeRule::Members(form)) => nearest_member(alloc, form, Some(part)),
        Rule::Source(place, SourceRule::Label) => {
            nearest_member(alloc, Form::Source, operand(part, index_of(place)))
        }
        Rule::Shape(ShapeRule::Sort) if !has_sort(part) => match first_member(part) {
            Some(text) => nearest(alloc, text, &SORTS),
            None => Ok(None),
        },
        Rule::Shape(ShapeRule::ObjectKind(version)) => match part
            .get("kind")
            .and_then(Value::as_str)
        {
            Some(text) => nearest_kind(alloc, text, version),
            None => Ok(None),
        },
        Rule::KnownOperation(version, Some(kind)) => {
            match operand(part, 1).and_then(Value::as_str) {
                Some(text) => nearest_operation(alloc, text, version, kind),
                None => Ok(None),
            }
        }
        _ => Ok(None),
    }
}

// The member of the form that the first other one of an object may mean.
fn nearest_member(
    alloc: Global,
    form: Form,
    found: Option<&Value>,
) -> Result<Option<&'static str>, AllocError> {
    match found.and_then(|value| unknown_member(form, value)) {
        Some(text) => nearest(alloc, text, form.members()),
        None => Ok(None),
    }
}

fn first_member(part: &Value) -> Option<&str> {
    let key = part.as_object()?.keys().next()?;
    Some(key.as_str())
}

/// A name, and how many letters of another differ from it.
#[derive(Clone, Copy, Drop)]
struct Near {
    name: &'static str,
    distance: usize,
}

fn nearest(
    alloc: Global,
    text: &str,
    names: &[&'static str],
) -> Result<Option<&'static str>, AllocError> {
    let mut best = None;
    for name in names {
        best = nearer(alloc, text, *name, best)?;
    }
    Ok(name_of(best))
}

fn nearest_kind(
    alloc: Global,
    text: &str,
    version: u8,
) -> Result<Option<&'static str>, AllocError> {
    let mut best = None;
    for kind in KINDS.iter() {
        let name = kind_text(*kind);
        if kind_of_text(version, name).is_some() {
            best = nearer(alloc, text, name, best)?;
        }
    }
    Ok(name_of(best))
}

fn nearest_operation(
    alloc: Global,
    text: &str,
    version: u8,
    kind: Kind,
) -> Result<Option<&'static str>, AllocError> {
    let mut best = None;
    for verb in verbs_of(kind) {
        let name = verb.text();
        if Verb::of_text(version, kind, name).is_some() {
            best = nearer(alloc, text, name, best)?;
        }
    }
    Ok(name_of(best))
}

/// The nearer of the best name so far and another one, where that is near enough.
fn nearer(
    alloc: Global,
    text: &str,
    name: &'static str,
    best: Option<Near>,
) -> Result<Option<Near>, AllocError> {
    if text.len() > LONGEST {
        return Ok(None);
    }
    let distance = levenshtein(alloc, text, name)?;
    let is_nearer = match best {
        Some(near) => distance < near.distance,
        None => { 1 <= distance && distance <= MOST_WRONG && distance < name.len().min(text.len()) }
    };
    if is_nearer {
        Ok(Some(Near { name, distance }))
    } else {
        Ok(best)
    }
}

fn name_of(best: Option<Near>) -> Option<&'static str> {
    match best {
        Some(near) => Some(near.name),
        None => None,
    }
}
