//! Reads the arguments of an operation, and what its refusal does.
ghost use Rattle.std.specs.Prelude.{◌≡◌, Bool, is_some, true, option_map, IfErr, IfOk, OnOk};
ghost use Rattle.serde_json.specs.View.{view};
ghost use Rattle.meaning.specs.Amounts.{amount_of};
ghost use Rattle.doc_tree.specs.Answer.{IsFirst, IsMet};
ghost use Rattle.doc_tree.specs.Asked.{amount_asked, amount_item, argument_asked, arguments_asked, else_reason, has_fills, index_of, is_else, is_source, item_asked, name_item, reason_asked, source_asked, source_label, subject_of};
ghost use Rattle.doc_tree.specs.Look.{or_empty};
ghost use Rattle.doc_rules.specs.Subjects.{fits_item, fits_number};
ghost use Rattle.doc_tree.specs.Scope.{Numbers, is_named, label_number, numbers_of, scope_of, with_item};
ghost use Rattle.doc_tree.specs.Spelled.{argument_of, item_of, item_template, items_of, or_zero, pair_template, reason_of, refusal_of, source_of, template_of};

use crate::counts::Counts;
use crate::hashing::Labels;
use crate::labels::found_label;
use crate::look::{count, has, has_only, text_item, text_member, whole_item};
use crate::reasons::read_reason;
use crate::state::{Numbering, ReaderState, number_of_item};
use atoms::{Amount, Item};
use batch::is_name;
use doc_rules::{
    ArgumentRule, Failure, Form, NameRule, OperandPlace, Rule, SourceRule, Subject, fits_item,
    fits_number,
};
use meaning::{Argument, Refusal, Template};
use serde_json::Value;
use serial::NoMemory;
use std::alloc::Global;
use vocabulary::{AmountVerb, ItemVerb, PairVerb, Verb};

/// What is seen where the arguments of an operation are read.
#[derive(Clone, Copy, Drop)]
pub(crate) struct ArgumentScope<'s> {
    pub(crate) version: u8,
    pub(crate) labels: &'s Labels,
    pub(crate) counts: &'s Counts,
}

/// Whether the operations of a version may have arguments that labels give, and `else`.
pub fn has_fills(version: u8) -> bool
    ensures { result ≡ has_fills version }
{
    version >= 5
}

/// The amount at a place of an operation's array.
fn amount_item(op: &Value, index: usize) -> Option<Amount>
    ensures { option_map (λ amount. amount.value) result ≡ amount_item index (view op.now) }
{
    match whole_item(op, index) {
        Some(number) if number >= 1 => Amount::new(number as u64),
        _ => None,
    }
}

/// The index of a place in an operation's array.
fn index_of(place: OperandPlace) -> usize
    ensures { result ≡ index_of place }
{
    match place {
        OperandPlace::Third => 2,
        OperandPlace::Fourth => 3,
    }
}

/// The name of the item at a place of an operation's array.
#[tactic(auto, unfolding(crate::specs::Asked::item_asked))]
fn name_at<'v>(
    version: u8,
    op: &'v Value,
    place: OperandPlace,
    counts: &Counts,
) -> Result<&'v str, Failure>
    ensures met { OnOk result (IsMet counts.now (item_asked version place (view op.now))
        counts.now) }
    ensures first { IfErr result (IsFirst counts.now (item_asked version place (view op.now))) }
    ensures value { IfOk result (λ name. name.now ≡ name_item (index_of place) (view op.now)) }
{
    let Some(name) = text_item(op, index_of(place)) else {
        return Err(counts.broken(Rule::Argument(ArgumentRule::Item(place))));
    };
    counts.demand(
        is_name(version, name),
        Rule::Name(version, NameRule::Argument(place)),
    )?;
    Ok(name)
}

/// The item of a name, which joins the others if it is new.
pub fn item_of(alloc: Global, name: &str, numbering: &mut Numbering) -> Result<Item, NoMemory>
    ensures value { IfOk result (λ item. item ≡ item_of name.now (numbers_of numbering.old)) }
    ensures numbers { OnOk result (numbers_of numbering.new
        ≡ with_item name.now (numbers_of numbering.old)) }
{
    Ok(Item(number_of_item(alloc, numbering, name)?))
}

/// The items of two names, the first of which joins the others first.
pub(crate) fn items_of(
    alloc: Global,
    first: &str,
    second: &str,
    numbering: &mut Numbering,
) -> Result<(Item, Item), NoMemory>
    ensures value { IfOk result (λ items. (items, numbers_of numbering.new)
        ≡ items_of first.now second.now (numbers_of numbering.old)) }
{
    let first = item_of(alloc, first, numbering)?;
    let second = item_of(alloc, second, numbering)?;
    Ok((first, second))
}

// ---- arguments that labels give

/// Whether a label gives the argument at an index.
fn is_source(version: u8, op: &Value, index: usize) -> bool
    ensures { result ≡ is_source version index (view op.now) }
{
    match op.get(index) {
        Some(argument) => argument.is_object() && has_fills(version),
        None => false,
    }
}

/// The label that gives the argument at an index.
fn source_label(op: &Value, index: usize) -> Option<&str>
    ensures { option_map (λ text. text.now) result ≡ source_label index (view op.now) }
{
    let argument = op.get(index)?;
    if has_only(argument, Form::Source.members()) {
        text_member(argument, "from")
    } else {
        None
    }
}

/// The number of the label that gives a number.
#[tactic(auto, unfolding(crate::specs::Asked::source_asked))]
fn number_source(op: &Value, seen: &ArgumentScope<'_>) -> Result<u32, Failure>
    ensures met { OnOk result (IsMet seen.now.counts.now
        (source_asked (scope_of seen.now.labels.now.entries) fits_number SourceRule.Number
        OperandPlace.Third (view op.now)) seen.now.counts.now) }
    ensures first { IfErr result (IsFirst seen.now.counts.now
        (source_asked (scope_of seen.now.labels.now.entries) fits_number SourceRule.Number
        OperandPlace.Third (view op.now))) }
    ensures number { IfOk result (λ number. number
        ≡ source_of (scope_of seen.now.labels.now.entries) 2 (view op.now)) }
{
    let place = OperandPlace::Third;
    let (number, subject) = source_at(op, place, seen)?;
    let rule = Rule::Source(place, SourceRule::Number(subject));
    seen.counts.demand(fits_number(subject), rule)?;
    Ok(number)
}

/// The number of the label that gives an item.
#[tactic(auto, unfolding(crate::specs::Asked::source_asked))]
fn item_source(op: &Value, place: OperandPlace, seen: &ArgumentScope<'_>) -> Result<u32, Failure>
    ensures met { OnOk result (IsMet seen.now.counts.now
        (source_asked (scope_of seen.now.labels.now.entries) fits_item SourceRule.Item place
        (view op.now)) seen.now.counts.now) }
    ensures first { IfErr result (IsFirst seen.now.counts.now
        (source_asked (scope_of seen.now.labels.now.entries) fits_item SourceRule.Item place
        (view op.now))) }
    ensures number { IfOk result (λ number. number
        ≡ source_of (scope_of seen.now.labels.now.entries) (index_of place) (view op.now)) }
{
    let (number, subject) = source_at(op, place, seen)?;
    let rule = Rule::Source(place, SourceRule::Item(subject));
    seen.counts.demand(fits_item(subject), rule)?;
    Ok(number)
}

/// The label that gives the argument at a place: its number, and what it is of.
#[tactic(auto, unfolding(crate::specs::Asked::source_asked))]
fn source_at(
    op: &Value,
    place: OperandPlace,
    seen: &ArgumentScope<'_>,
) -> Result<(u32, Subject), Failure>
    ensures met { IfOk result (λ label.
        let name = or_empty (source_label (index_of place) (view op.now)) in
        let scope = scope_of seen.now.labels.now.entries in
        (is_some (source_label (index_of place) (view op.now)) ≡ true)
        × (is_named name scope ≡ true) × (label.0 ≡ label_number name scope)
        × (label.1 ≡ subject_of name scope)) }
    ensures first { IfErr result (λ failure. (fits : Subject → Bool) (fit : Subject → SourceRule)
        → IsFirst seen.now.counts.now
        (source_asked (scope_of seen.now.labels.now.entries) fits fit place
        (view op.now)) failure) }
{
    let Some(name) = source_label(op, index_of(place)) else {
        let rule = Rule::Source(place, SourceRule::Label);
        return Err(seen.counts.broken(rule));
    };
    match found_label(name, seen.labels) {
        Some(found) => Ok(found),
        None => Err(seen.counts.broken(Rule::Source(place, SourceRule::Seen))),
    }
}

// ---- arguments

/// A call with an amount, or with a label that gives one.
#[tactic(auto, unfolding(crate::specs::Asked::arguments_asked, crate::specs::Asked::amount_asked, crate::specs::Spelled::template_of))]
fn read_amount_call(
    verb: AmountVerb,
    op: &Value,
    seen: &ArgumentScope<'_>,
) -> Result<Template, Failure>
    ensures met { OnOk result (IsMet seen.now.counts.now
        (arguments_asked seen.now.version (scope_of seen.now.labels.now.entries)
        (Verb.OfAmount verb) (view op.now)) seen.now.counts.now) }
    ensures first { IfErr result (IsFirst seen.now.counts.now
        (arguments_asked seen.now.version (scope_of seen.now.labels.now.entries)
        (Verb.OfAmount verb) (view op.now))) }
    ensures value { IfOk result (λ read. (numbers : Numbers)
        → (read, numbers) ≡ template_of seen.now.version (scope_of seen.now.labels.now.entries)
        (Verb.OfAmount verb) numbers (view op.now)) }
{
    let arguments = Rule::Argument(ArgumentRule::Count(Verb::OfAmount(verb)));
    seen.counts.demand(count(op) == Some(3), arguments)?;
    if is_source(seen.version, op, 2) {
        return Ok(Template::OfAmount(verb, number_source(op, seen)?));
    }
    match amount_item(op, 2) {
        Some(amount) => Ok(Template::Given(verb.call(amount))),
        None => Err(seen.counts.broken(Rule::Argument(ArgumentRule::Amount))),
    }
}

/// The item at a place of an operation's array, or the label that gives one.
#[tactic(auto, unfolding(crate::specs::Asked::argument_asked))]
fn read_argument(
    alloc: Global,
    op: &Value,
    place: OperandPlace,
    seen: &ArgumentScope<'_>,
    numbering: &mut Numbering,
) -> Result<Argument, Failure>
    ensures met { OnOk result (IsMet seen.now.counts.now
        (argument_asked seen.now.version (scope_of seen.now.labels.now.entries) place (view op.now))
        seen.now.counts.now) }
    ensures first { IfErr result (IsFirst seen.now.counts.now
        (argument_asked seen.now.version (scope_of seen.now.labels.now.entries) place
        (view op.now))) }
    ensures value { IfOk result (λ read. (read, numbers_of numbering.new)
        ≡ argument_of seen.now.version (scope_of seen.now.labels.now.entries) (index_of place)
        (numbers_of numbering.old) (view op.now)) }
{
    if is_source(seen.version, op, index_of(place)) {
        return Ok(Argument::From(item_source(op, place, seen)?));
    }
    let name = name_at(seen.version, op, place, seen.counts)?;
    Ok(Argument::Is(item_of(alloc, name, numbering)?))
}

/// The call of an item, or of one that a label gives.
pub fn item_template(verb: ItemVerb, item: Argument) -> Template
    ensures { result ≡ item_template verb item }
{
    match item {
        Argument::Is(item) => Template::Given(verb.call(item)),
        Argument::From(label) => Template::OfItem(verb, label),
    }
}

/// The call of a key and an item, each of which a label may give.
pub fn pair_template(verb: PairVerb, key: Argument, item: Argument) -> Template
    ensures { result ≡ pair_template verb key item }
{
    match (key, item) {
        (Argument::Is(key), Argument::Is(item)) => Template::Given(verb.call(key, item)),
        _ => Template::OfPair(verb, key, item),
    }
}

/// A call of a verb, with the arguments in an operation's array.
#[tactic(auto, using(crate::proofs::Checks::parts), unfolding(crate::specs::Asked::arguments_asked, crate::specs::Spelled::template_of))]
pub(crate) fn read_arguments(
    alloc: Global,
    verb: Verb,
    op: &Value,
    seen: &ArgumentScope<'_>,
    numbering: &mut Numbering,
) -> Result<Template, Failure>
    ensures met { OnOk result (IsMet seen.now.counts.now
        (arguments_asked seen.now.version (scope_of seen.now.labels.now.entries) verb (view op.now))
        seen.now.counts.now) }
    ensures first { IfErr result (IsFirst seen.now.counts.now
        (arguments_asked seen.now.version (scope_of seen.now.labels.now.entries) verb
        (view op.now))) }
    ensures value { IfOk result (λ read. (read, numbers_of numbering.new)
        ≡ template_of seen.now.version (scope_of seen.now.labels.now.entries) verb
        (numbers_of numbering.old) (view op.now)) }
{
    match verb {
        Verb::OfAmount(verb) => read_amount_call(verb, op, seen),
        Verb::OfItem(one) => {
            let arguments = Rule::Argument(ArgumentRule::Count(verb));
            seen.counts.demand(count(op) == Some(3), arguments)?;
            let item = read_argument(alloc, op, OperandPlace::Third, seen, numbering)?;
            Ok(item_template(one, item))
        }
        Verb::OfPair(pair) => {
            let arguments = Rule::Argument(ArgumentRule::Count(verb));
            seen.counts.demand(count(op) == Some(4), arguments)?;
            let key = read_argument(alloc, op, OperandPlace::Third, seen, numbering)?;
            let item = read_argument(alloc, op, OperandPlace::Fourth, seen, numbering)?;
            Ok(pair_template(pair, key, item))
        }
        Verb::Alone(one) => {
            let arguments = Rule::Argument(ArgumentRule::Count(verb));
            seen.counts.demand(count(op) == Some(2), arguments)?;
            Ok(Template::Given(one.call()))
        }
    }
}

// ---- refusals

/// Whether `else` of an operation, if it has one, is `true` or a text, where the version has it.
pub(crate) fn is_else(version: u8, step: &Value) -> bool
    ensures { result ≡ is_else version (view step.now) }
{
    match step.get("else") {
        Some(value) => has_fills(version) && (value.as_bool() == Some(true) || value.is_string()),
        None => true,
    }
}

/// What the refusal of an operation does.
#[tactic(auto, unfolding(crate::specs::Asked::reason_asked, crate::specs::Spelled::refusal_of))]
pub(crate) fn read_refusal(
    alloc: Global,
    step: &Value,
    version: u8,
    state: &mut ReaderState,
) -> Result<Refusal, Failure>
    ensures met { OnOk result (IsMet state.old.counts
        (reason_asked version NameRule.Else (else_reason (view step.now))) state.new.counts) }
    ensures first { IfErr result (IsFirst state.old.counts
        (reason_asked version NameRule.Else (else_reason (view step.now)))) }
    ensures value { IfOk result (λ read. (read, numbers_of state.new.numbering)
        ≡ refusal_of (numbers_of state.old.numbering) (view step.now)) }
    ensures labels { OnOk result
        (scope_of state.new.labels.entries ≡ scope_of state.old.labels.entries) }
{
    if !has(step, "else") {
        return Ok(Refusal::GoesOn);
    }
    let reason = text_member(step, "else");
    Ok(Refusal::Aborts(read_reason(alloc, reason, version, NameRule::Else, state)?))
}
