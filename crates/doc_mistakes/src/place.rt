//! Where in a part the value is that is wrong.
ghost use Rattle.std.specs.Prelude.{◌≡◌, ◌++◌, IfOk, OnOk, option_map, string_bytes};
ghost use Rattle.json.specs.Print.{escape};
ghost use Rattle.serde_json.specs.View.{view};
ghost use Rattle.doc_mistakes.specs.Within.{place_within, pointer_if, pointer_operand, pointer_to, shown_token};

use crate::parts::{index_of, operand, unknown_member, unnamed_reason};
use crate::shown::quoted;
use doc_rules::{CountRule, NameRule, OperandPlace, Rule, ShapeRule, pointer_token};
use serde_json::Value;
use std::alloc::{AllocError, Global};

/// Where in the part the value is that is wrong: the rest of a JSON Pointer (RFC 6901). It is empty
/// where it is the part itself.
///
/// What JSON escapes in a text is escaped in a member's name, too, so that it is one line. Err where
/// memory was refused.
pub fn place_within(alloc: Global, rule: Rule, part: &Value) -> Result<String, AllocError>
    ensures { IfOk result (λ text. string_bytes text ≡ place_within rule (view part.now)) }
{
    match rule {
        Rule::Shape(ShapeRule::Members(form)) => pointer_to(alloc, unknown_member(form, part)),
        Rule::Name(version, NameRule::Handlers) => pointer_to(alloc, unnamed_reason(version, part)),
        Rule::Shape(ShapeRule::Version) => pointer_if(alloc, "ordtx", part),
        Rule::Shape(ShapeRule::Objects) | Rule::Few(CountRule::Objects(_)) => pointer_if(
            alloc, "objects", part,
        ),
        Rule::Shape(ShapeRule::Transactions) | Rule::Few(CountRule::Transactions(_)) => pointer_if(
            alloc,
            "transactions",
            part,
        ),
        Rule::Shape(ShapeRule::Else(_)) | Rule::Name(_, NameRule::Else) => pointer_if(
            alloc, "else", part,
        ),
        Rule::Source(place, _) => pointer_operand(alloc, place, part),
        Rule::SeenLabel => pointer_if(alloc, "if", part),
        _ => Ok(String::new(alloc)),
    }
}

// The pointer to the member of that name, where it is there.
fn pointer_if(alloc: Global, name: &str, part: &Value) -> Result<String, AllocError>
    ensures { IfOk result (λ text. string_bytes text ≡ pointer_if name.now (view part.now)) }
{
    let mut out = String::new(alloc);
    if part.get(name).is_some() {
        write!(&mut out, "/{name}")?;
    }
    Ok(out)
}

// The pointer to the item of the list of an operation, where it is there.
fn pointer_operand(alloc: Global, place: OperandPlace, part: &Value) -> Result<String, AllocError>
    ensures { IfOk result (λ text. string_bytes text ≡ pointer_operand place (view part.now)) }
{
    let mut out = String::new(alloc);
    let index = index_of(place);
    if operand(part, index).is_some() {
        write!(&mut out, "/op/{index}")?;
    }
    Ok(out)
}

// The pointer to the member of any name.
fn pointer_to(alloc: Global, member: Option<&str>) -> Result<String, AllocError>
    ensures { IfOk result (λ text. string_bytes text
        ≡ pointer_to (option_map (λ name. name.now) member.entry)) }
{
    let mut out = String::new(alloc);
    if let Some(name) = member {
        let token = shown_token(alloc, name)?;
        write!(&mut out, "/{token}")?;
    }
    Ok(out)
}

/// The token of a JSON Pointer that stands for a member's name. What JSON escapes in a text is
/// escaped in it, too.
///
/// Err where memory was refused.
pub fn shown_token(alloc: Global, name: &str) -> Result<String, AllocError>
    ensures { IfOk result (λ token. string_bytes token ≡ shown_token name.now) }
{
    let token = pointer_token(alloc, name)?;
    escaped(alloc, token.as_str())
}

// As in a text of JSON, without the quotes.
fn escaped(alloc: Global, text: &str) -> Result<String, AllocError>
    ensures { IfOk result (λ made. string_bytes made ≡ escape text.now) }
{
    let quoted = quoted(alloc, text)?;
    let Some(begun) = quoted.as_str().strip_prefix('"') else {
        unreachable!();
    };
    match begun.strip_suffix('"') {
        Some(inside) => String::from_str(alloc, inside),
        None => unreachable!(),
    }
}
