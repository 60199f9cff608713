//! The table of rules: what is said where each isn't kept.
ghost use Rattle.std.specs.Prelude.{◌≡◌, ◌++◌, IfOk, OnOk, string_bytes};
ghost use Rattle.serde_json.specs.View.{view};
ghost use Rattle.doc_mistakes.specs.Words.{IsSaid, argument_words, condition_words, count_words, name_words, said, shape_words, source_words, start_words};

use crate::conditions::write_word;
use crate::declarations::{
    write_handlers_named, write_kind, write_members, write_start, write_version,
};
use crate::hints::write_hint;
use crate::operations::{write_amount, write_arguments, write_operand, write_operation};
use crate::parts::{index_of, operand, source};
use crate::phrases::{
    write_around, write_missing, write_more_than, write_no_item, write_no_label, write_no_number,
    write_unnamed, write_wanting,
};
use crate::steps::{write_abort, write_else, write_handlers, write_sort};
use doc_rules::{
    ArgumentRule, ConditionRule, CountRule, Limits, NameRule, OperandPlace, Rule, ShapeRule,
    SourceRule, StartRule,
};
use meaning::limits::MAX_DEPTH;
use serde_json::Value;
use std::alloc::{AllocError, Global};

const NO_ITEM: &str = " is no text: items are written in quotes";

/// What is wrong with a part that doesn't keep a rule, in words, on one line.
///
/// After it comes a hint, where a name may be misspelt. Err where memory was refused.
pub fn words(alloc: Global, rule: Rule, part: &Value) -> Result<String, AllocError>
    ensures { IfOk result (λ text. IsSaid rule (view part.now) (string_bytes text)) }
{
    let mut text = String::new(alloc);
    write_said(alloc, &mut text, rule, part)?;
    write_hint(alloc, &mut text, rule, part)?;
    Ok(text)
}

fn write_shape_rule(
    alloc: Global,
    out: &mut String,
    rule: ShapeRule,
    part: &Value,
) -> Result<(), AllocError>
    ensures { OnOk result (string_bytes out.new ≡ string_bytes out.old
        ++ shape_words rule (view part.now)) }
{
    match rule {
        ShapeRule::Members(form) => write_members(alloc, out, form, part)?,
        ShapeRule::Version => write_version(alloc, out, part.get("ordtx"))?,
        ShapeRule::Objects => write_wanting(alloc, out, "objects", "a list", part)?,
        ShapeRule::Transactions => write_wanting(alloc, out, "transactions", "a list", part)?,
        ShapeRule::ObjectName => write_wanting(alloc, out, "name", "a text", part)?,
        ShapeRule::ObjectKind(version) => write_kind(alloc, out, version, part.get("kind"))?,
        ShapeRule::ObjectStart => write_missing(out, "start")?,
        ShapeRule::Block => write_around(alloc, out, "", Some(part), " is no list of steps")?,
        ShapeRule::Sort => write_sort(alloc, out, part)?,
        ShapeRule::Label => write_wanting(alloc, out, "as", "a text", part)?,
        ShapeRule::OperationObject => write_operand(alloc, out, "object", 0, part)?,
        ShapeRule::OperationWord => write_operand(alloc, out, "operation", 1, part)?,
        ShapeRule::Else(version) => write_else(alloc, out, version, part)?,
        ShapeRule::Test => {
            out.push_str("an \"if\" has just one of \"is\", \"atleast\" and \"item\"")?;
        }
        ShapeRule::TestedLabel => write_wanting(alloc, out, "if", "a text", part)?,
        ShapeRule::Then => write_missing(out, "then")?,
        ShapeRule::Body => write_missing(out, "sub")?,
        ShapeRule::Handlers(version) => write_handlers(alloc, out, version, part)?,
        ShapeRule::Abort(version) => write_abort(alloc, out, version, part)?,
        ShapeRule::Children => write_wanting(alloc, out, "parallel", "a list", part)?,
    }
    Ok(())
}

fn write_name_rule(
    alloc: Global,
    out: &mut String,
    version: u8,
    rule: NameRule,
    part: &Value,
) -> Result<(), AllocError>
    ensures { OnOk result (string_bytes out.new ≡ string_bytes out.old
        ++ name_words version rule (view part.now)) }
{
    match rule {
        NameRule::Object => write_unnamed(alloc, out, version, part.get("name"))?,
        NameRule::Entry => write_unnamed(alloc, out, version, Some(part))?,
        NameRule::PairKey => write_unnamed(alloc, out, version, part.get(0))?,
        NameRule::PairItem => write_unnamed(alloc, out, version, part.get(1))?,
        NameRule::Label => write_unnamed(alloc, out, version, part.get("as"))?,
        NameRule::Argument(place) => write_unnamed(
            alloc,
            out,
            version,
            operand(part, index_of(place)),
        )?,
        NameRule::TestedItem => write_unnamed(alloc, out, version, part.get("item"))?,
        NameRule::Handlers => write_handlers_named(alloc, out, version, part)?,
        NameRule::Reason => write_unnamed(alloc, out, version, part.get("abort"))?,
        NameRule::Else => write_unnamed(alloc, out, version, part.get("else"))?,
    }
    Ok(())
}

fn write_argument_rule(
    alloc: Global,
    out: &mut String,
    rule: ArgumentRule,
    part: &Value,
) -> Result<(), AllocError>
    ensures { OnOk result (string_bytes out.new ≡ string_bytes out.old
        ++ argument_words rule (view part.now)) }
{
    match rule {
        ArgumentRule::Count(verb) => write_arguments(out, verb)?,
        ArgumentRule::Amount => write_amount(alloc, out, operand(part, 2))?,
        ArgumentRule::Item(place) => {
            write_around(alloc, out, "", operand(part, index_of(place)), NO_ITEM)?;
        }
    }
    Ok(())
}

fn write_source_rule(
    alloc: Global,
    out: &mut String,
    place: OperandPlace,
    rule: SourceRule,
    part: &Value,
) -> Result<(), AllocError>
    ensures { OnOk result (string_bytes out.new ≡ string_bytes out.old
        ++ source_words place rule (view part.now)) }
{
    match rule {
        SourceRule::Label => {
            out.push_str("an argument that a label gives is written {\"from\": \"LABEL\"}")?;
        }
        SourceRule::Seen => write_no_label(alloc, out, source(part, place))?,
        SourceRule::Number(subject) => write_no_number(out, subject)?,
        SourceRule::Item(subject) => write_no_item(out, subject)?,
    }
    Ok(())
}

fn write_condition_rule(
    alloc: Global,
    out: &mut String,
    rule: ConditionRule,
    part: &Value,
) -> Result<(), AllocError>
    ensures { OnOk result (string_bytes out.new ≡ string_bytes out.old
        ++ condition_words rule (view part.now)) }
{
    match rule {
        ConditionRule::Word(subject) => write_word(alloc, out, subject, part)?,
        ConditionRule::Number(subject) => write_no_number(out, subject)?,
        ConditionRule::AtLeast => write_wanting(
            alloc,
            out,
            "atleast",
            "a whole number from -2^63 to 2^63 - 1",
            part,
        )?,
        ConditionRule::HasItem(subject) => write_no_item(out, subject)?,
        ConditionRule::TestedItem => write_wanting(alloc, out, "item", "a text", part)?,
    }
    Ok(())
}

fn write_count_rule(
    alloc: Global,
    out: &mut String,
    rule: CountRule,
    part: &Value,
) -> Result<(), AllocError>
    ensures { OnOk result (string_bytes out.new ≡ string_bytes out.old
        ++ count_words rule (view part.now)) }
{
    match rule {
        CountRule::Bytes(version) => {
            out.push_str("the document has ")?;
            write_more_than(out, Limits::of(version).bytes, "bytes")?;
        }
        CountRule::Objects(version) => write_more_than(
            out,
            Limits::of(version).objects,
            "objects",
        )?,
        CountRule::Transactions(version) => {
            write_more_than(out, Limits::of(version).transactions, "transactions")?;
        }
        CountRule::Entries(version) => {
            let things = "entries that objects start with";
            write_more_than(out, Limits::of(version).entries, things)?;
        }
        CountRule::Operations(version) => {
            write_more_than(out, Limits::of(version).operations, "operations")?;
        }
        CountRule::Nodes(version) => {
            let things = "ifs, subactions, aborts, parallel steps and children";
            write_more_than(out, Limits::of(version).nodes, things)?;
        }
    }
    Ok(())
}

fn write_start_rule(
    alloc: Global,
    out: &mut String,
    rule: StartRule,
    part: &Value,
) -> Result<(), AllocError>
    ensures { OnOk result (string_bytes out.new ≡ string_bytes out.old
        ++ start_words rule (view part.now)) }
{
    match rule {
        StartRule::Of(kind) => write_start(alloc, out, kind, part)?,
        StartRule::Entry => write_around(alloc, out, "", Some(part), NO_ITEM)?,
        StartRule::NewEntry => write_around(alloc, out, "", Some(part), " is there twice")?,
        StartRule::Pair => {
            let after = " is no pair of a key and an item";
            write_around(alloc, out, "", Some(part), after)?;
        }
        StartRule::PairKey => {
            let found = part.get(0);
            write_around(alloc, out, "the key is ", found, ", and has to be a text")?;
        }
        StartRule::PairItem => {
            let found = part.get(1);
            write_around(alloc, out, "the item is ", found, ", and has to be a text")?;
        }
        StartRule::NewKey => write_around(alloc, out, "the key ", part.get(0), " is there twice")?,
    }
    Ok(())
}

// Writes what the table has for the rule.
fn write_said(alloc: Global, out: &mut String, rule: Rule, part: &Value) -> Result<(), AllocError>
    ensures { OnOk result (string_bytes out.new ≡ string_bytes out.old
        ++ said rule (view part.now)) }
{
    match rule {
        Rule::Json => out.push_str("this cannot be read as JSON")?,
        Rule::Few(rule) => write_count_rule(alloc, out, rule, part)?,
        Rule::Shape(rule) => write_shape_rule(alloc, out, rule, part)?,
        Rule::Name(version, rule) => write_name_rule(alloc, out, version, rule, part)?,
        Rule::NewObject => {
            let found = part.get("name");
            write_around(alloc, out, "an earlier object has the name ", found, "")?;
        }
        Rule::Start(rule) => write_start_rule(alloc, out, rule, part)?,
        Rule::Depth => write!(out, "blocks are more than {MAX_DEPTH} deep in one another")?,
        Rule::NewLabel => {
            let found = part.get("as");
            write_around(alloc, out, "the label ", found, " is taken already")?;
        }
        Rule::KnownObject => {
            write_around(alloc, out, "no object has the name ", operand(part, 0), "")?;
        }
        Rule::KnownOperation(version, kind) => {
            write_operation(alloc, out, version, kind, operand(part, 1))?;
        }
        Rule::Argument(rule) => write_argument_rule(alloc, out, rule, part)?,
        Rule::Source(place, rule) => write_source_rule(alloc, out, place, rule, part)?,
        Rule::SeenLabel => write_no_label(alloc, out, part.get("if"))?,
        Rule::Condition(rule) => write_condition_rule(alloc, out, rule, part)?,
    }
    Ok(())
}
