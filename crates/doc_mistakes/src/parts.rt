//! What rules are asked of, in the part that they are asked of.
ghost use Rattle.std.specs.Prelude.{◌≡◌, map, option_map};
ghost use Rattle.serde_json.specs.View.{view};
ghost use Rattle.doc_mistakes.specs.Parts.{has_sort, index_of, is_among, is_list, is_text, operand, source, unknown_member, unnamed_reason};

use batch::is_name;
use doc_rules::{Form, OperandPlace};
use serde_json::Value;

/// An item of the list of an operation, where there is one.
pub(crate) fn operand(part: &Value, index: usize) -> Option<&Value>
    ensures { option_map (λ value. view value.now) result ≡ operand index (view part.now) }
{
    part.get("op")?.get(index)
}

/// Where the list of an operation has an item.
pub(crate) fn index_of(place: OperandPlace) -> usize
    ensures { result ≡ index_of place }
{
    match place {
        OperandPlace::Third => 2,
        OperandPlace::Fourth => 3,
    }
}

/// The member `from` of an item of the list.
pub(crate) fn source(part: &Value, place: OperandPlace) -> Option<&Value>
    ensures { option_map (λ value. view value.now) result ≡ source place (view part.now) }
{
    operand(part, index_of(place))?.get("from")
}

fn is_among(text: &str, names: &[&str]) -> bool
    ensures { result ≡ is_among text.now (map (λ name. name.now) names.now) }
{
    for name in names {
        if text == *name {
            return true;
        }
    }
    false
}

/// The name of the first member that an object of the form doesn't have.
pub(crate) fn unknown_member(form: Form, part: &Value) -> Option<&str>
    ensures { option_map (λ name. name.now) result ≡ unknown_member form (view part.now) }
{
    let members = part.as_object()?;
    for key in members.keys() {
        if !is_among(key.as_str(), form.members()) {
            return Some(key.as_str());
        }
    }
    None
}

/// The first reason of handlers that is no name of a version.
pub(crate) fn unnamed_reason(version: u8, part: &Value) -> Option<&str>
    ensures { option_map (λ name. name.now) result ≡ unnamed_reason version (view part.now) }
{
    let members = part.as_object()?;
    for key in members.keys() {
        if !is_name(version, key.as_str()) {
            return Some(key.as_str());
        }
    }
    None
}

/// Whether a member says what the step is.
pub(crate) fn has_sort(part: &Value) -> bool
    ensures { result ≡ has_sort (view part.now) }
{
    part.get("op").is_some()
        || part.get("if").is_some()
        || part.get("sub").is_some()
        || part.get("abort").is_some()
        || part.get("parallel").is_some()
}

pub(crate) fn is_text(found: Option<&Value>) -> bool
    ensures { result ≡ is_text (option_map (λ value. view value.now) found.entry) }
{
    found.and_then(Value::as_str).is_some()
}

pub(crate) fn is_list(found: Option<&Value>) -> bool
    ensures { result ≡ is_list (option_map (λ value. view value.now) found.entry) }
{
    found.and_then(Value::as_array).is_some()
}
