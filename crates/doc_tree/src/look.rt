//! Looks into the values of a document: its members and items of one kind.
ghost use Rattle.std.specs.Prelude.{◌≡◌, map, option_map};
ghost use Rattle.serde_json.specs.View.{view, items_view};
ghost use Rattle.doc_tree.specs.Look.{count, has, has_only, is_among, list_member, text_item, text_member, whole_item, whole_member};

use serde_json::Value;

pub(crate) fn is_among(text: &str, names: &[&str]) -> bool
    ensures { result ≡ is_among text.now (map (λ name. name.now) names.now) }
{
    for name in names {
        if text == *name {
            return true;
        }
    }
    false
}

/// Whether the value is an object with no member but these.
pub fn has_only(value: &Value, names: &[&str]) -> bool
    ensures { result ≡ has_only (map (λ name. name.now) names.now) (view value.now) }
{
    let Some(members) = value.as_object() else {
        return false;
    };
    for key in members.keys() {
        if !is_among(key.as_str(), names) {
            return false;
        }
    }
    true
}

pub(crate) fn has(value: &Value, name: &str) -> bool
    ensures { result ≡ has name.now (view value.now) }
{
    value.get(name).is_some()
}

/// The text of a member. None where the value is no object, lacks the member, or has no text there.
pub(crate) fn text_member<'v>(value: &'v Value, name: &str) -> Option<&'v str>
    ensures { option_map (λ text. text.now) result ≡ text_member name.now (view value.now) }
{
    value.get(name).and_then(Value::as_str)
}

/// The array of a member. None where the value is no object, lacks the member, or has no array there.
pub fn list_member<'v>(value: &'v Value, name: &str) -> Option<&'v Vec<Value>>
    ensures { option_map (λ list. items_view list.now.items) result
        ≡ list_member name.now (view value.now) }
{
    value.get(name).and_then(Value::as_array)
}

/// The whole number of a member. None where the value is no object, lacks the member, or has no whole
/// number of 64 bits there.
pub fn whole_member(value: &Value, name: &str) -> Option<i64>
    ensures { result ≡ whole_member name.now (view value.now) }
{
    value.get(name).and_then(Value::as_i64)
}

pub(crate) fn text_item(list: &Value, index: usize) -> Option<&str>
    ensures { option_map (λ text. text.now) result ≡ text_item index (view list.now) }
{
    list.get(index).and_then(Value::as_str)
}

pub(crate) fn whole_item(list: &Value, index: usize) -> Option<i64>
    ensures { result ≡ whole_item index (view list.now) }
{
    list.get(index).and_then(Value::as_i64)
}

/// How many items an array has. None for what is no array.
#[tactic(auto, using(crate::proofs::Members::array_sizes))]
pub(crate) fn count(value: &Value) -> Option<usize>
    ensures { result ≡ count (view value.now) }
{
    match value.as_array() {
        Some(list) => Some(list.len()),
        None => None,
    }
}
