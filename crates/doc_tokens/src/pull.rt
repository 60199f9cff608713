//! Reads a document straight from its tokens into the batch, where it is in the common form.
//!
//! A function `pull_..` takes the next tokens of the reader, each once, or returns why it stops there:
//! memory was refused, or the tokens are out of the common form. The document is then read otherwise
//! (`document` of `lang`), which finds faults.
//!
//! The common form: a document's members as `head` says, an object's as `pull_objects` says, and a
//! step's as `pull_blocks` says; in steps, numbers without a point or an exponent.
ghost use Rattle.std.specs.Prelude.{◌≡◌, ℕ, Bool, List, ◌∷◌, [], codes, length, option_map, false, true, Some, None, IfErr, IfOk, IfSome, OnOk, ◌<◌, ◌+◌, ◌≤◌};
ghost use Rattle.json.specs.Json.{items, members, value};
ghost use Rattle.json.specs.Reads.{token_of};
ghost use Rattle.json.specs.Token as token;
ghost use Rattle.fast_float.specs.Text.{with_sign};
ghost use Rattle.serde_json.specs.Data.{Data, Items, Members, Num, member, negative, number, object, unsigned};
ghost use Rattle.serde_json.specs.Find.{as_i64, at, of_integer};
ghost use Rattle.serde_json.specs.Read.{converted, number_of, of_items, of_json, of_members};
ghost use Rattle.serde_json.specs.View.{items_view, members_view, view};
ghost use Rattle.doc_tree.specs.Asked.{amount_asked, argument_asked, arguments_asked, has_fills, index_of, reason_asked, subject_of};
ghost use Rattle.doc_tree.specs.Answer.{IsMet};
ghost use Rattle.doc_tokens.specs.Pulled.{ReadsItems, ReadsMembers, ReadsValue, StopsFor, first_key, labelled, may_abort, op_array, reason_in, refusal_told, with_abort};
ghost use Rattle.doc_tokens.specs.PulledBlocks.{SpellsPlainStep};
ghost use Rattle.doc_tree.specs.Scope.{Numbers, is_named, label_number, numbers_of, scope_of};
ghost use Rattle.doc_tree.specs.Spelled.{argument_of, template_of};
ghost use Rattle.doc_rules.specs.declared.rule.OperandPlace.{OperandPlace};
ghost use Rattle.batch.specs.Names.{is_name};
ghost use Rattle.doc_rules.specs.declared.limits.TheConstants.{LAST_VERSION};
ghost use Rattle.doc_cuts.specs.Whole.{is_left};

use crate::digits::{FEW_DIGITS, few_digits};
use crate::stop::Stop;
use atoms::Amount;
use batch::{Step, is_name};
use doc_rules::{LAST_VERSION, NameRule, Subject, fits_item, fits_number};
use doc_tree::arguments::{has_fills, item_of, item_template, pair_template};
use doc_tree::counts::Counts;
use doc_tree::declared::Declared;
use doc_tree::hashing::Labels;
use doc_tree::labels::{add_new_label, found_label};
use doc_tree::numbers::number_of;
use doc_tree::operations::{operation_step, target_of};
use doc_tree::reasons::read_reason;
use doc_tree::state::{Numbering, ReaderState};
use fast_float::Numeral;
use json::{Reader, Token};
use meaning::{Argument, Refusal, Template};
use serde_json::{Map, Value};
use std::alloc::Global;
use vocabulary::{AmountVerb, Verb};

/// How deep an object or a transaction may nest.
pub const PART_DEPTH: usize = 125;

/// The greatest whole number.
const MOST_WHOLE: u64 = 9_223_372_036_854_775_807;

// ---- tokens

pub(crate) fn pull_text<'a>(reader: &mut Reader<'a>) -> Result<&'a str, Stop>
    ensures { IfOk result (λ text. reader.old ≡ token.string text.now ∷ reader.new) }
{
    match reader.next() {
        Some(Token::String(text)) => Ok(text),
        _ => Err(Stop::OtherForm),
    }
}

/// The next text, which is a name of the version.
pub(crate) fn pull_name<'a>(reader: &mut Reader<'a>, version: u8) -> Result<&'a str, Stop>
    ensures { IfOk result (λ text. (reader.old ≡ token.string text.now ∷ reader.new)
        × (is_name version text.now ≡ true)) }
{
    let text = pull_text(reader)?;
    if is_name(version, text) {
        Ok(text)
    } else {
        Err(Stop::OtherForm)
    }
}

/// The number that a text writes, if it has no sign, point or exponent and fits.
fn unsigned_of(text: &str) -> Option<u64>
    ensures { IfSome result (λ n. number_of text.now ≡ Some (unsigned n)) }
{
    let bytes = text.as_bytes();
    if bytes.is_empty() || bytes[0] == b'-' {
        return None;
    }
    if bytes.len() <= FEW_DIGITS {
        return few_digits(bytes);
    }
    Numeral::scan(bytes).to_u64()
}

/// The amount that a text writes, if it has no sign, point or exponent and fits.
fn amount_of(text: &str) -> Option<Amount>
    ensures { IfSome result (λ amount. number_of text.now ≡ Some (unsigned amount.value)) }
{
    Amount::new(unsigned_of(text)?)
}

/// The size of the number below 0 that a text writes, if it has no point or exponent and fits.
fn size_below_0(text: &str) -> Option<u64>
    ensures { IfSome result (λ n. (0 < n) × (n ≤ 9223372036854775807)
        × (number_of text.now ≡ Some (negative (with_sign true n)))) }
{
    let bytes = text.as_bytes();
    if bytes.is_empty() || bytes[0] != b'-' {
        return None;
    }
    let size = Numeral::scan(&bytes[1..]).to_u64()?;
    if 0 < size && size <= MOST_WHOLE {
        Some(size)
    } else {
        None
    }
}

/// The whole number that a text writes, if it has no point or exponent and fits.
fn whole_of(text: &str) -> Option<i64>
    ensures { IfSome result (λ n. (x : Num) × (number_of text.now ≡ Some x) × (as_i64 x ≡ Some n)
        × (of_integer n ≡ x)) }
{
    if let Some(number) = unsigned_of(text) {
        return if number <= MOST_WHOLE {
            Some(number as i64)
        } else {
            None
        };
    }
    let size = size_below_0(text)?;
    Some(-(size as i64))
}

pub(crate) fn pull_whole(reader: &mut Reader<'_>) -> Result<i64, Stop>
    ensures { IfOk result (λ n. (s : List ℕ) × (x : Num)
        × (reader.old ≡ token.number s ∷ reader.new) × (number_of s ≡ Some x)
        × (as_i64 x ≡ Some n)) }
{
    match reader.next() {
        Some(Token::Number(text)) => whole_of(text).ok_or(Stop::OtherForm),
        _ => Err(Stop::OtherForm),
    }
}

pub(crate) fn pull_begin_object(reader: &mut Reader<'_>) -> Result<(), Stop>
    ensures { IfOk result (λ _. reader.old ≡ token.begin_object ∷ reader.new) }
{
    match reader.next() {
        Some(Token::BeginObject) => Ok(()),
        _ => Err(Stop::OtherForm),
    }
}

pub(crate) fn pull_begin_array(reader: &mut Reader<'_>) -> Result<(), Stop>
    ensures { IfOk result (λ _. reader.old ≡ token.begin_array ∷ reader.new) }
{
    match reader.next() {
        Some(Token::BeginArray) => Ok(()),
        _ => Err(Stop::OtherForm),
    }
}

pub(crate) fn pull_end_array(reader: &mut Reader<'_>) -> Result<(), Stop>
    ensures { IfOk result (λ _. reader.old ≡ token.end_array ∷ reader.new) }
{
    if reader.take_end_array() {
        Ok(())
    } else {
        Err(Stop::OtherForm)
    }
}

/// The end of an object, as the next token. [`Stop::OtherForm`] where the next token is another.
pub(crate) fn pull_end_object(reader: &mut Reader<'_>) -> Result<(), Stop>
    ensures { IfOk result (λ _. reader.old ≡ token.end_object ∷ reader.new) }
{
    match reader.next() {
        Some(Token::EndObject) => Ok(()),
        _ => Err(Stop::OtherForm),
    }
}

/// That no token is left. [`Stop::OtherForm`] where one is.
pub(crate) fn pull_end(reader: &mut Reader<'_>) -> Result<(), Stop>
    ensures { IfOk result (λ _. reader.old ≡ []) }
{
    match reader.next() {
        Some(_) => Err(Stop::OtherForm),
        None => Ok(()),
    }
}

pub(crate) fn pull_key(reader: &mut Reader<'_>, name: &str) -> Result<(), Stop>
    ensures { IfOk result (λ _. reader.old ≡ token.key name.now ∷ reader.new) }
{
    match reader.next() {
        Some(Token::Key(key)) if key == name => Ok(()),
        _ => Err(Stop::OtherForm),
    }
}

/// The next key, whatever it is.
pub(crate) fn pull_some_key<'a>(reader: &mut Reader<'a>) -> Result<&'a str, Stop>
    ensures { IfOk result (λ name. reader.old ≡ token.key name.now ∷ reader.new) }
{
    match reader.next() {
        Some(Token::Key(name)) => Ok(name),
        _ => Err(Stop::OtherForm),
    }
}

// ---- operations

/// The number of the label that gives an argument, and what it is of, if the version has such
/// arguments and the label is seen. The bracket that begins the argument has been read.
fn pull_source(
    version: u8,
    labels: &Labels,
    reader: &mut Reader<'_>,
) -> Result<(u32, Subject), Stop>
    ensures { IfOk result (λ label. (name : List ℕ)
        × (reader.old
        ≡ token.key (codes "from") ∷ token.string name ∷ token.end_object ∷ reader.new)
        × (has_fills version ≡ true) × (is_named name (scope_of labels.now.entries) ≡ true)
        × (label.0 ≡ label_number name (scope_of labels.now.entries))
        × (label.1 ≡ subject_of name (scope_of labels.now.entries))) }
{
    if !has_fills(version) {
        return Err(Stop::OtherForm);
    }
    pull_key(reader, "from")?;
    let name = pull_text(reader)?;
    pull_end_object(reader)?;
    found_label(name, labels).ok_or(Stop::OtherForm)
}

/// A call with the next amount, or with a label that gives one.
fn pull_amount_call(
    version: u8,
    verb: AmountVerb,
    labels: &Labels,
    reader: &mut Reader<'_>,
) -> Result<Template, Stop>
    ensures { IfOk result (λ template. (d : Data) × ReadsValue 1 reader.old d reader.new
        × ((op : Data) (counts : Counts) → at 2 op ≡ Some d
        → IsMet counts (amount_asked version (scope_of labels.now.entries) op) counts)
        × ((op : Data) (numbers : Numbers) → at 2 op ≡ Some d → (template, numbers)
        ≡ template_of version (scope_of labels.now.entries) (Verb.OfAmount verb) numbers op)) }
{
    match reader.next() {
        Some(Token::Number(text)) => {
            let amount = amount_of(text).ok_or(Stop::OtherForm)?;
            Ok(Template::Given(verb.call(amount)))
        }
        Some(Token::BeginObject) => {
            let (label, subject) = pull_source(version, labels, reader)?;
            if fits_number(subject) {
                Ok(Template::OfAmount(verb, label))
            } else {
                Err(Stop::OtherForm)
            }
        }
        _ => Err(Stop::OtherForm),
    }
}

/// The next item, or the label that gives one.
fn pull_argument(
    alloc: Global,
    version: u8,
    labels: &Labels,
    reader: &mut Reader<'_>,
    numbering: &mut Numbering,
) -> Result<Argument, Stop>
    ensures { IfOk result (λ argument. (d : Data) × ReadsValue 1 reader.old d reader.new
        × ((place : OperandPlace) (op : Data) (counts : Counts) → at (index_of place) op ≡ Some d
        → IsMet counts (argument_asked version (scope_of labels.now.entries) place op) counts)
        × ((place : OperandPlace) (op : Data) → at (index_of place) op ≡ Some d
        → (argument, numbers_of numbering.new)
        ≡ argument_of version (scope_of labels.now.entries) (index_of place)
        (numbers_of numbering.old) op)) }
{
    match reader.next() {
        Some(Token::String(name)) => {
            if !is_name(version, name) {
                return Err(Stop::OtherForm);
            }
            Ok(Argument::Is(item_of(alloc, name, numbering)?))
        }
        Some(Token::BeginObject) => {
            let (label, subject) = pull_source(version, labels, reader)?;
            if fits_item(subject) {
                Ok(Argument::From(label))
            } else {
                Err(Stop::OtherForm)
            }
        }
        _ => Err(Stop::OtherForm),
    }
}

/// The arguments of a call, up to the end of the operation's array.
fn pull_arguments(
    alloc: Global,
    version: u8,
    verb: Verb,
    labels: &Labels,
    reader: &mut Reader<'_>,
    numbering: &mut Numbering,
) -> Result<Template, Stop>
    ensures { IfOk result (λ template. (rest : Items) × ReadsItems 1 reader.old rest reader.new
        × ((o c : List ℕ) (counts : Counts) → IsMet counts
        (arguments_asked version (scope_of labels.now.entries) verb (op_array o c rest)) counts)
        × ((o c : List ℕ) → (template, numbers_of numbering.new)
        ≡ template_of version (scope_of labels.now.entries) verb (numbers_of numbering.old)
        (op_array o c rest))) }
{
    match verb {
        Verb::OfAmount(verb) => {
            let template = pull_amount_call(version, verb, labels, reader)?;
            pull_end_array(reader)?;
            Ok(template)
        }
        Verb::OfItem(verb) => {
            let item = pull_argument(alloc, version, labels, reader, numbering)?;
            pull_end_array(reader)?;
            Ok(item_template(verb, item))
        }
        Verb::OfPair(verb) => {
            let key = pull_argument(alloc, version, labels, reader, numbering)?;
            let item = pull_argument(alloc, version, labels, reader, numbering)?;
            pull_end_array(reader)?;
            Ok(pair_template(verb, key, item))
        }
        Verb::Alone(verb) => {
            pull_end_array(reader)?;
            Ok(Template::Given(verb.call()))
        }
    }
}

/// The reason of an `else` whose key has been read, where it has one and the version has `else`,
/// and the operation's end.
fn pull_else_reason<'a>(reader: &mut Reader<'a>, version: u8) -> Result<Option<&'a str>, Stop>
    ensures { IfOk result (λ reason. (has_fills version ≡ true) × ((found : Members)
        → ReadsMembers 0 found (token.key (codes "else") ∷ reader.old)
        (with_abort (Some (option_map (λ text. text.now) reason)) found) reader.new)) }
{
    if !has_fills(version) {
        return Err(Stop::OtherForm);
    }
    match reader.next() {
        Some(Token::Bool(true)) => {
            pull_end_object(reader)?;
            Ok(None)
        }
        Some(Token::String(reason)) => {
            pull_end_object(reader)?;
            Ok(Some(reason))
        }
        _ => Err(Stop::OtherForm),
    }
}

/// Whether a refusal aborts, with its reason where it has one, and the operation's end.
fn pull_else<'a>(reader: &mut Reader<'a>, version: u8) -> Result<Option<Option<&'a str>>, Stop>
    ensures { IfOk result (λ abort.
        let told = option_map (λ reason. option_map (λ text. text.now) reason) abort in
        (may_abort version told ≡ true) × ((found : Members)
        → ReadsMembers 0 found reader.old (with_abort told found) reader.new)) }
{
    match reader.next() {
        Some(Token::EndObject) => Ok(None),
        Some(Token::Key("else")) => Ok(Some(pull_else_reason(reader, version)?)),
        _ => Err(Stop::OtherForm),
    }
}

/// What comes after an operation's array.
#[derive(Clone, Copy, Drop)]
struct OperationRest<'a> {
    label: Option<&'a str>,
    /// Whether its refusal aborts, with the reason where it has one.
    abort: Option<Option<&'a str>>,
}

/// The label of an operation, if it has one, its `else`, if it has one, and its end. The first
/// token of these has been read.
fn pull_operation_rest<'a>(
    first: Token<'a>,
    reader: &mut Reader<'a>,
    version: u8,
) -> Result<OperationRest<'a>, Stop>
    ensures { IfOk result (λ rest.
        let label = option_map (λ text. text.now) rest.label in
        let told = option_map (λ reason. option_map (λ text. text.now) reason) rest.abort in
        (may_abort version told ≡ true) × ((found : Members)
        → ReadsMembers 0 found (token_of first.entry ∷ reader.old)
        (with_abort told (labelled label found)) reader.new)) }
{
    match first {
        Token::EndObject => Ok(OperationRest {
            label: None,
            abort: None,
        }),
        Token::Key("as") => {
            let label = pull_text(reader)?;
            let abort = pull_else(reader, version)?;
            Ok(OperationRest {
                label: Some(label),
                abort,
            })
        }
        Token::Key("else") => {
            let reason = pull_else_reason(reader, version)?;
            Ok(OperationRest {
                label: None,
                abort: Some(reason),
            })
        }
        _ => Err(Stop::OtherForm),
    }
}

/// What a refusal does: whether it aborts, and the number of its reason, where it has one.
fn refusal_of(
    alloc: Global,
    abort: Option<Option<&str>>,
    version: u8,
    state: &mut ReaderState,
) -> Result<Refusal, Stop>
    ensures { IfOk result (λ refusal.
        let told = option_map (λ reason. option_map (λ text. text.now) reason) abort.entry in
        IsMet state.old.counts (reason_asked version NameRule.Else (reason_in told))
        state.new.counts
        × ((refusal, numbers_of state.new.numbering)
        ≡ refusal_told (numbers_of state.old.numbering) told)
        × (scope_of state.new.labels.entries ≡ scope_of state.old.labels.entries)) }
{
    match abort {
        Some(reason) => {
            let number = read_reason(alloc, reason, version, NameRule::Else, state)?;
            Ok(Refusal::Aborts(number))
        }
        None => Ok(Refusal::GoesOn),
    }
}

/// An operation whose key `op` has been read.
pub(crate) fn pull_operation(
    alloc: Global,
    reader: &mut Reader<'_>,
    declared: &Declared,
    state: &mut ReaderState,
) -> Result<Step, Stop>
    ensures { IfOk result (SpellsPlainStep 3 declared.now
        (first_key (codes "op") reader.old) reader.new state.old state.new) }
{
    pull_begin_array(reader)?;
    let object = pull_text(reader)?;
    let call = pull_text(reader)?;
    state.counts.one_more_operation(declared.version)?;
    let (object, verb) = target_of(object, call, declared, &state.counts)?;
    let template = pull_arguments(
        alloc,
        declared.version,
        verb,
        &state.labels,
        reader,
        &mut state.numbering,
    )?;
    let Some(first) = reader.next() else {
        return Err(Stop::OtherForm);
    };
    if let (Token::EndObject, Template::Given(call)) = (first, template) {
        return Ok(Step::Op {
            object,
            call,
            labelled: false,
        });
    }
    let rest = pull_operation_rest(first, reader, declared.version)?;
    let refusal = refusal_of(alloc, rest.abort, declared.version, state)?;
    add_new_label(
        alloc,
        declared.version,
        rest.label,
        Subject::Reply(verb),
        &mut state.labels,
        &state.counts,
    )?;
    Ok(operation_step(alloc, object, template, rest.label.is_some(), refusal)?)
}

// ---- values

/// The value of a number's text.
pub(crate) fn number_value(text: &str) -> Result<Value, Stop>
    ensures ok { IfOk result (λ v. (x : Num) × (number_of text.now ≡ Some x) × (view v
        ≡ number x)) }
    ensures err { IfErr result (λ _. number_of text.now ≡ None) }
{
    let number = number_of(text).ok_or(Stop::OtherForm)?;
    Ok(Value::Number(number))
}

/// A value that nests no deeper.
#[cycle(values)]
pub fn pull_value(alloc: Global, reader: &mut Reader<'_>, depth: usize) -> Result<Value, Stop>
    ensures ok { IfOk result (λ v. ReadsValue depth reader.old (view v) reader.new) }
    ensures err { IfErr result (λ stop. StopsFor stop (converted of_json (value depth
        reader.old))) }
{
    let token = reader.next().ok_or(Stop::OtherForm)?;
    value_from(alloc, token, reader, depth)
}

/// A value whose first token has been read.
#[cycle(values)]
pub fn value_from(
    alloc: Global,
    token: Token<'_>,
    reader: &mut Reader<'_>,
    depth: usize,
) -> Result<Value, Stop>
    ensures ok { IfOk result (λ v. ReadsValue depth (token_of token.entry ∷ reader.old) (view v)
        reader.new) }
    ensures err { IfErr result (λ stop. StopsFor stop (converted of_json (value depth
        (token_of token.entry ∷ reader.old)))) }
{
    match token {
        Token::String(text) => Ok(Value::String(String::from_str(alloc, text)?)),
        Token::Number(text) => number_value(text),
        Token::Bool(holds) => Ok(Value::Bool(holds)),
        Token::Null => Ok(Value::Null),
        Token::EndObject | Token::EndArray | Token::Key(_) | Token::Bad => Err(Stop::OtherForm),
        Token::BeginArray => {
            if depth == 0 {
                return Err(Stop::OtherForm);
            }
            Ok(Value::Array(pull_items(alloc, reader, depth - 1)?))
        }
        Token::BeginObject => {
            if depth == 0 {
                return Err(Stop::OtherForm);
            }
            Ok(Value::Object(pull_members(alloc, reader, depth - 1, Map::new(alloc))?))
        }
    }
}

/// The items of an array whose beginning has been read, with its end.
#[cycle(values)]
fn pull_items(alloc: Global, reader: &mut Reader<'_>, depth: usize) -> Result<Vec<Value>, Stop>
    ensures ok { IfOk result (λ list. ReadsItems depth reader.old (items_view list.items)
        reader.new) }
    ensures err { IfErr result (λ stop. StopsFor stop (converted of_items (items (value depth)
        (length reader.old) reader.old))) }
{
    let mut found = Vec::new(alloc);
    while !reader.take_end_array() {
        found.push(pull_value(alloc, reader, depth)?)?;
    }
    Ok(found)
}

/// The members of an object up to its end, with those that were found before.
#[cycle(values)]
pub(crate) fn pull_members(
    alloc: Global,
    reader: &mut Reader<'_>,
    depth: usize,
    before: Map<String, Value>,
) -> Result<Map<String, Value>, Stop>
    ensures ok { IfOk result (λ map. ReadsMembers depth (members_view before.entries) reader.old
        (members_view map.entries) reader.new) }
    ensures err { IfErr result (λ stop. StopsFor stop (converted
        (λ js. of_members js (members_view before.entries))
        (members (value depth) (length reader.old) reader.old))) }
{
    let mut found = before;
    while let Some(name) = reader.next_key()? {
        let key = String::from_str(alloc, name)?;
        let member = pull_value(alloc, reader, depth)?;
        drop(found.insert(key, member)?);
    }
    Ok(found)
}

/// The value of an object of which these members have been read, and then a key.
pub(crate) fn pull_more_members(
    alloc: Global,
    name: &str,
    reader: &mut Reader<'_>,
    depth: usize,
    before: Map<String, Value>,
) -> Result<Value, Stop>
    ensures { IfOk result (λ v. (ms : Members) × (view v ≡ object ms)
        × ReadsMembers depth (members_view before.entries) (token.key name.now ∷ reader.old) ms
        reader.new) }
{
    let key = String::from_str(alloc, name)?;
    let member = pull_value(alloc, reader, depth)?;
    let mut found = before;
    drop(found.insert(key, member)?);
    Ok(Value::Object(pull_members(alloc, reader, depth, found)?))
}

/// The value of an object whose first key has been read.
pub(crate) fn pull_object(
    alloc: Global,
    name: &str,
    reader: &mut Reader<'_>,
    depth: usize,
) -> Result<Value, Stop>
    ensures { IfOk result (λ v. ReadsValue (depth + 1) (first_key name.now reader.old) (view v)
        reader.new) }
{
    pull_more_members(alloc, name, reader, depth, Map::new(alloc))
}

// ---- the document

/// The next number, which is a version.
pub(crate) fn pull_version(reader: &mut Reader<'_>) -> Result<u8, Stop>
    ensures { IfOk result (λ version. (s : List ℕ) × (reader.old ≡ token.number s ∷ reader.new)
        × (number_of s ≡ Some (unsigned version))
        × (1 ≤ version) × (version ≤ LAST_VERSION)) }
{
    match reader.next() {
        Some(Token::Number(text)) => {
            let number = unsigned_of(text).ok_or(Stop::OtherForm)?;
            if 1 <= number && number <= LAST_VERSION as u64 {
                Ok(number as u8)
            } else {
                Err(Stop::OtherForm)
            }
        }
        _ => Err(Stop::OtherForm),
    }
}
