//! Reads the steps of a block straight from their tokens, where they are in the common form.
//!
//! The common form, member by member: an operation's `op`, then its `as`, and its `else`; a
//! subaction's or a child's `sub`, and then its `as` at any place, its `handlers` and, after them,
//! its `handler`; `parallel` alone; `if`, one of `is`, `atleast` and `item`, then `then`, and `else`;
//! `abort` alone. What may be left out may be left out, and no member comes twice.
//!
//! Of a step whose first member is another, a small tree is made and read as in any other document. So
//! texts are numbered in the same order. Handlers by reason are read in the order of the reasons' bytes:
//! straight, where they come in this order, and where some don't, by a small tree of each step's.
ghost use Rattle.std.specs.Prelude.{◌≡◌, ℕ, List, [], ◌∷◌, codes, map, Option, option_map, true, Some, None, IfOk, ◌<◌, ◌+◌, ◌*◌, ◌≤◌};
ghost use Rattle.json.specs.Json.{read_key};
ghost use Rattle.json.specs.Token as token;
ghost use Rattle.serde_json.specs.Data.{Data, Members, put};
ghost use Rattle.batch.specs.Views.{block_view, handler_view};
ghost use Rattle.doc_tree.specs.Asked.{is_abort, part, test_asked};
ghost use Rattle.doc_tree.specs.Places.{block_placed, block_placed_if, member_placed, nothing};
ghost use Rattle.doc_tree.specs.Answer.{AreMet, IsMet};
ghost use Rattle.doc_tree.specs.declared.counts.Counts.{Counts};
ghost use Rattle.doc_tokens.specs.Pulled.{IsAfter, ReadsMembers, ReadsValue, TestKey, abort_step, first_key, if_step, test_key, with_else};
ghost use Rattle.doc_tokens.specs.PulledBlocks.{SpellsBlock, SpellsChildren, SpellsHandlers, SpellsPlainStep, SpellsStep, SpellsSteps, SpellsSub, SubTail};
ghost use Rattle.doc_tree.specs.Scope.{numbers_of, scope_of, setting_of};
ghost use Rattle.doc_tree.specs.Spelled.{block_of, block_of_if, member_of, or_no_step, spelled_map, test_of};
ghost use Rattle.meaning.specs.declared.limits.TheConstants.{MAX_DEPTH};

use crate::pull::{
    pull_begin_array, pull_begin_object, pull_end_object, pull_key, pull_members, pull_name,
    pull_object, pull_operation, pull_some_key, pull_text, pull_whole,
};
use crate::pull_heads::{begin_parallel, end_parallel, new_sub_step, pull_if_head};
use crate::stop::Stop;
use batch::{Block, Handler, Step, Subaction};
use doc_rules::{NameRule, Subject, fits_item, fits_number, fits_word};
use doc_tree::arguments::item_of;
use doc_tree::declared::Declared;
use doc_tree::hashing::Labels;
use doc_tree::heads::{if_step, no_labels, subaction_of};
use doc_tree::labels::{add_new_label, leave_block};
use doc_tree::reasons::{read_reason, reason_number};
use doc_tree::state::{Numbering, ReaderState, ReasonOrder};
use doc_tree::steps::{read_members, read_step};
use json::{Reader, Token};
use meaning::Test;
use serde_json::Map;
use serial::NoMemory;
use std::alloc::Global;
use vocabulary::Word;

// ---- subactions

/// Whether a reason is greater than the one before it, by their bytes.
fn is_after(reason: &str, before: Option<&str>) -> bool
    ensures { result ≡ true → IsAfter reason.now (option_map (λ text. text.now) before.entry) }
{
    match before {
        Some(before) => before < reason,
        None => true,
    }
}

/// A handler whose reason has been read.
#[cycle(blocks)]
fn pull_handler(
    alloc: Global,
    reason: &str,
    reader: &mut Reader<'_>,
    levels: usize,
    declared: &Declared,
    state: &mut ReaderState,
) -> Result<Handler, Stop>
    requires few { levels ≤ MAX_DEPTH }
    ensures { IfOk result (λ handler. (d : Data) × ReadsValue (5 * levels) reader.old d reader.new
        × AreMet state.old.counts (member_placed declared.now.version
        (block_placed (setting_of declared.now) levels)
        (scope_of state.old.labels.entries) reason.now d nothing) state.new.counts
        × ((handler_view handler, numbers_of state.new.numbering)
        ≡ member_of (block_of (setting_of declared.now) levels) (scope_of state.old.labels.entries)
        (numbers_of state.old.numbering) reason.now d)
        × (scope_of state.new.labels.entries ≡ scope_of state.old.labels.entries)) }
{
    let reasons = &mut state.numbering.reasons;
    let number = reason_number(
        alloc,
        reason,
        declared.version,
        NameRule::Handlers,
        &state.counts,
        reasons,
    )?;
    let block = pull_block(alloc, reader, levels, declared, state)?;
    Ok(Handler {
        reason: number,
        block,
    })
}

/// The handlers by reason up to their end, if their reasons ascend.
#[cycle(blocks)]
fn pull_ascending(
    alloc: Global,
    reader: &mut Reader<'_>,
    levels: usize,
    declared: &Declared,
    state: &mut ReaderState,
) -> Result<Vec<Handler>, Stop>
    requires few { levels ≤ MAX_DEPTH }
    ensures { IfOk result (λ handlers. SpellsHandlers levels declared.now
        reader.old reader.new state.old state.new handlers.items) }
{
    let mut handlers = Vec::new(alloc);
    let mut before = None;
    while let Some(reason) = reader.next_key()? {
        if !is_after(reason, before) {
            return Err(Stop::UnsortedReasons);
        }
        handlers.push(pull_handler(alloc, reason, reader, levels, declared, state)?)?;
        before = Some(reason);
    }
    handlers.shrink_to_fit();
    Ok(handlers)
}

/// The handlers by reason up to their end, in the order of the reasons' bytes. A small tree is made of them.
fn pull_sorted(
    alloc: Global,
    reader: &mut Reader<'_>,
    levels: usize,
    declared: &Declared,
    state: &mut ReaderState,
) -> Result<Vec<Handler>, Stop>
    requires few { levels ≤ MAX_DEPTH }
    ensures { IfOk result (λ handlers. SpellsHandlers levels declared.now
        reader.old reader.new state.old state.new handlers.items) }
{
    let members = pull_members(alloc, reader, 5 * levels, Map::new(alloc))?;
    let handlers = read_members(alloc, &members, levels, declared, state)?;
    Ok(handlers)
}

/// The handlers by reason.
#[cycle(blocks)]
fn pull_handlers(
    alloc: Global,
    reader: &mut Reader<'_>,
    levels: usize,
    declared: &Declared,
    state: &mut ReaderState,
) -> Result<Vec<Handler>, Stop>
    requires few { levels ≤ MAX_DEPTH }
    ensures { IfOk result (λ handlers. (inside : List token.Token)
        × (reader.old ≡ token.begin_object ∷ inside) × (3 ≤ declared.now.version)
        × SpellsHandlers levels declared.now inside reader.new state.old state.new
        handlers.items) }
{
    if declared.version < 3 {
        return Err(Stop::OtherForm);
    }
    pull_begin_object(reader)?;
    match state.order {
        ReasonOrder::Any => pull_sorted(alloc, reader, levels, declared, state),
        ReasonOrder::Ascending => pull_ascending(alloc, reader, levels, declared, state),
    }
}

/// What comes after the body of a subaction.
#[derive(Drop)]
struct SubRest<'a> {
    handlers: Option<Vec<Handler>>,
    handler: Option<Block>,
    label: Option<&'a str>,
}

/// What comes after the body of a subaction, up to its end.
#[cycle(blocks)]
fn pull_sub_rest<'a>(
    alloc: Global,
    reader: &mut Reader<'a>,
    levels: usize,
    declared: &Declared,
    state: &mut ReaderState,
) -> Result<SubRest<'a>, Stop>
    requires few { levels ≤ MAX_DEPTH }
    ensures { IfOk result (λ rest. (inside : List token.Token) × SubTail levels declared.now
        (scope_of state.old.labels.entries) reader.old state.old
        (option_map (λ list. map handler_view list.items) rest.handlers)
        (option_map block_view rest.handler) (option_map (λ text. text.now) rest.label)
        inside state.new × (read_key inside ≡ Some (None, reader.new))) }
{
    let mut handlers = None;
    let mut handler = None;
    let mut label = None;
    while let Some(name) = reader.next_key()? {
        if name == "as" && label.is_none() {
            label = Some(pull_text(reader)?);
        } else if name == "handler" && handler.is_none() {
            handler = Some(pull_block(alloc, reader, levels, declared, state)?);
        } else if name == "handlers" && handlers.is_none() && handler.is_none() {
            handlers = Some(pull_handlers(alloc, reader, levels, declared, state)?);
        } else {
            return Err(Stop::OtherForm);
        }
    }
    Ok(SubRest {
        handlers,
        handler,
        label,
    })
}

/// A subaction or a child whose key `sub` has been read, with its label, which is not yet looked at.
#[cycle(blocks)]
fn pull_sub<'a>(
    alloc: Global,
    reader: &mut Reader<'a>,
    levels: usize,
    declared: &Declared,
    state: &mut ReaderState,
) -> Result<(Subaction, Option<&'a str>), Stop>
    requires few { levels ≤ MAX_DEPTH }
    ensures { IfOk result (λ read. SpellsSub levels declared.now
        (first_key (codes "sub") reader.old) reader.new state.old state.new read.0
        (option_map (λ text. text.now) read.1)) }
{
    state.counts.one_more_node(declared.version)?;
    let body = pull_block(alloc, reader, levels, declared, state)?;
    let rest = pull_sub_rest(alloc, reader, levels, declared, state)?;
    let label = rest.label;
    let read = subaction_of(alloc, body, rest.handlers, rest.handler, label.is_some());
    Ok((read, label))
}

/// A subaction whose key `sub` has been read.
#[cycle(blocks)]
fn pull_sub_step(
    alloc: Global,
    reader: &mut Reader<'_>,
    levels: usize,
    declared: &Declared,
    state: &mut ReaderState,
) -> Result<Step, Stop>
    requires few { levels ≤ MAX_DEPTH }
    ensures { IfOk result (SpellsStep (5 * levels + 2) levels declared.now
        (first_key (codes "sub") reader.old) reader.new state.old state.new) }
{
    let (read, label) = pull_sub(alloc, reader, levels, declared, state)?;
    let step = new_sub_step(
        alloc,
        declared.version,
        read,
        label,
        &mut state.labels,
        &state.counts,
    )?;
    Ok(step)
}

// ---- children

/// The children up to the end of their array, with their labels, which none of them sees. That none of
/// these labels is seen before the children is not yet looked at.
#[cycle(blocks)]
fn pull_children(
    alloc: Global,
    reader: &mut Reader<'_>,
    levels: usize,
    declared: &Declared,
    earlier: &mut Labels,
    state: &mut ReaderState,
) -> Result<Vec<Subaction>, Stop>
    requires few { levels ≤ MAX_DEPTH }
    ensures { IfOk result (λ children. SpellsChildren 0 levels declared.now
        reader.old reader.new (scope_of earlier.old.entries) (scope_of earlier.new.entries)
        state.old state.new children.items) }
{
    let mut children = Vec::new(alloc);
    while !reader.take_end_array() {
        pull_begin_object(reader)?;
        pull_key(reader, "sub")?;
        let (child, label) = pull_sub(alloc, reader, levels, declared, state)?;
        add_new_label(
            alloc,
            declared.version,
            label,
            Subject::Outcome,
            earlier,
            &state.counts,
        )?;
        children.push(child)?;
    }
    children.shrink_to_fit();
    Ok(children)
}

/// A parallel step whose key `parallel` has been read.
#[cycle(blocks)]
fn pull_parallel(
    alloc: Global,
    reader: &mut Reader<'_>,
    levels: usize,
    declared: &Declared,
    state: &mut ReaderState,
) -> Result<Step, Stop>
    requires few { levels ≤ MAX_DEPTH }
    ensures { IfOk result (SpellsStep (5 * levels + 4) levels declared.now
        (first_key (codes "parallel") reader.old) reader.new state.old state.new) }
{
    begin_parallel(reader, declared.version, &mut state.counts)?;
    let mut earlier = no_labels(alloc, &state.labels);
    let children = pull_children(alloc, reader, levels, declared, &mut earlier, state)?;
    let step = end_parallel(alloc, reader, children, earlier, &mut state.labels)?;
    Ok(step)
}

// ---- conditions and aborts

/// The test of an `if` against what its label is of, where the test comes next.
pub(crate) fn pull_test(
    alloc: Global,
    version: u8,
    subject: Subject,
    reader: &mut Reader<'_>,
    numbering: &mut Numbering,
) -> Result<Test, Stop>
    ensures { IfOk result (λ test. (key : TestKey) × (v : Data)
        × ((k : ℕ) (found ms : Members) (new : List token.Token)
        → ReadsMembers k (put (test_key key) v found) reader.new ms new
        → ReadsMembers k found reader.old ms new) × ((label : List ℕ) (first : Data) (second :
        Option Data) (counts : Counts) → IsMet counts (test_asked version subject (if_step label key
        v first second)) counts) × ((label : List ℕ) (first : Data) (second : Option Data)
        → (test, numbers_of numbering.new) ≡ test_of subject (numbers_of numbering.old) (if_step
        label key v first second))) }
{
    match reader.next() {
        Some(Token::Key("is")) => {
            let word = Word::of_text(pull_text(reader)?).ok_or(Stop::OtherForm)?;
            if fits_word(subject, word) {
                Ok(Test::Is(word))
            } else {
                Err(Stop::OtherForm)
            }
        }
        Some(Token::Key("atleast")) => {
            let least = pull_whole(reader)?;
            if fits_number(subject) {
                Ok(Test::AtLeast(least))
            } else {
                Err(Stop::OtherForm)
            }
        }
        Some(Token::Key("item")) => {
            if !fits_item(subject) {
                return Err(Stop::OtherForm);
            }
            let name = pull_name(reader, version)?;
            let item = item_of(alloc, name, numbering)?;
            Ok(Test::IsItem(item))
        }
        _ => Err(Stop::OtherForm),
    }
}

/// The second branch of an `if`, which is empty where it is absent, and the step's end.
#[cycle(blocks)]
fn pull_else(
    alloc: Global,
    reader: &mut Reader<'_>,
    levels: usize,
    declared: &Declared,
    state: &mut ReaderState,
) -> Result<Block, Stop>
    requires few { levels ≤ MAX_DEPTH }
    ensures { IfOk result (λ block. (second : Option Data) × ((found : Members)
        → ReadsMembers (5 * levels) found reader.old (with_else second found) reader.new)
        × AreMet state.old.counts (block_placed_if (block_placed (setting_of declared.now) levels)
        (scope_of state.old.labels.entries) second) state.new.counts
        × ((block_view block, numbers_of state.new.numbering)
        ≡ spelled_map or_no_step (block_of_if (block_of (setting_of declared.now) levels)
        (scope_of state.old.labels.entries) (numbers_of state.old.numbering) second))
        × (scope_of state.new.labels.entries ≡ scope_of state.old.labels.entries)) }
{
    match reader.next() {
        Some(Token::EndObject) => Ok(Block {
            steps: Vec::new(alloc),
        }),
        Some(Token::Key("else")) => {
            let otherwise = pull_block(alloc, reader, levels, declared, state)?;
            pull_end_object(reader)?;
            Ok(otherwise)
        }
        _ => Err(Stop::OtherForm),
    }
}

/// An `if` whose key has been read.
#[cycle(blocks)]
fn pull_if(
    alloc: Global,
    reader: &mut Reader<'_>,
    levels: usize,
    declared: &Declared,
    state: &mut ReaderState,
) -> Result<Step, Stop>
    requires few { levels ≤ MAX_DEPTH }
    ensures { IfOk result (SpellsStep (5 * levels + 1) levels declared.now
        (first_key (codes "if") reader.old) reader.new state.old state.new) }
{
    let head = pull_if_head(alloc, reader, declared.version, state)?;
    let then = pull_block(alloc, reader, levels, declared, state)?;
    let otherwise = pull_else(alloc, reader, levels, declared, state)?;
    let step = if_step(alloc, head.label, head.test, then, Some(otherwise))?;
    Ok(step)
}

/// The reason of an abort, where it has one and the version has reasons, and the step's end.
fn pull_reason<'a>(reader: &mut Reader<'a>, version: u8) -> Result<Option<&'a str>, Stop>
    ensures { IfOk result (λ reason.
        let step = abort_step (option_map (λ text. text.now) reason) in
        ReadsValue 1 (first_key (codes "abort") reader.old) step reader.new
        × (is_abort version (part (codes "abort") step) ≡ true)) }
{
    match reader.next() {
        Some(Token::Bool(true)) => {
            pull_end_object(reader)?;
            Ok(None)
        }
        Some(Token::String(reason)) => {
            if version < 3 {
                return Err(Stop::OtherForm);
            }
            pull_end_object(reader)?;
            Ok(Some(reason))
        }
        _ => Err(Stop::OtherForm),
    }
}

/// An abort whose key has been read.
fn pull_abort(
    alloc: Global,
    reader: &mut Reader<'_>,
    declared: &Declared,
    state: &mut ReaderState,
) -> Result<Step, Stop>
    ensures { IfOk result (SpellsPlainStep 1 declared.now
        (first_key (codes "abort") reader.old) reader.new state.old state.new) }
{
    let reason = pull_reason(reader, declared.version)?;
    state.counts.one_more_node(declared.version)?;
    let number = read_reason(alloc, reason, declared.version, NameRule::Reason, state)?;
    Ok(Step::Abort(number))
}

// ---- steps

/// The beginning of a step, with its first key.
fn pull_first_key<'a>(reader: &mut Reader<'a>) -> Result<&'a str, Stop>
    ensures { IfOk result (λ name. reader.old ≡ first_key name.now reader.new) }
{
    pull_begin_object(reader)?;
    pull_some_key(reader)
}

/// A step of any other first key, which has been read, by a small tree.
fn pull_other_step(
    alloc: Global,
    name: &str,
    reader: &mut Reader<'_>,
    levels: usize,
    declared: &Declared,
    state: &mut ReaderState,
) -> Result<Step, Stop>
    requires few { levels ≤ MAX_DEPTH }
    ensures { IfOk result (SpellsStep (5 * levels + 4) levels declared.now
        (first_key name.now reader.old) reader.new state.old state.new) }
{
    // From a block to the next below it are at most five levels: the array of its steps, a step, the
    // array of its children, a child, and its handlers.
    let step = pull_object(alloc, name, reader, 5 * levels + 3)?;
    let read = read_step(alloc, &step, levels, declared, state)?;
    Ok(read)
}

/// A step, within so many more levels.
#[cycle(blocks)]
fn pull_step(
    alloc: Global,
    reader: &mut Reader<'_>,
    levels: usize,
    declared: &Declared,
    state: &mut ReaderState,
) -> Result<Step, Stop>
    requires few { levels ≤ MAX_DEPTH }
    ensures { IfOk result (SpellsStep (5 * levels + 4) levels declared.now
        reader.old reader.new state.old state.new) }
{
    let name = pull_first_key(reader)?;
    match name {
        "op" => pull_operation(alloc, reader, declared, state),
        "sub" => pull_sub_step(alloc, reader, levels, declared, state),
        "parallel" => pull_parallel(alloc, reader, levels, declared, state),
        "if" => pull_if(alloc, reader, levels, declared, state),
        "abort" => pull_abort(alloc, reader, declared, state),
        _ => pull_other_step(alloc, name, reader, levels, declared, state),
    }
}

/// Up to how many steps of a block are moved into memory that has room for no more. A longer list
/// gives back what it doesn't need.
const MOST_MOVED: usize = 32;

/// An empty list, in the memory of a spare one where there is one.
fn spare_list(alloc: Global, spares: &mut Vec<Vec<Step>>) -> Vec<Step>
    ensures { result.items ≡ [] }
{
    match spares.pop() {
        Some(mut spare) => {
            spare.clear();
            spare
        }
        None => Vec::new(alloc),
    }
}

/// The steps in a list with room for no more. Where they are few, the list that they were read into
/// becomes a spare one. So the blocks lie one after the other, with no gaps that growing lists leave.
fn exact_list(
    alloc: Global,
    steps: Vec<Step>,
    spares: &mut Vec<Vec<Step>>,
) -> Result<Vec<Step>, NoMemory>
    ensures { IfOk result (λ list. list.items ≡ steps.items) }
{
    let mut steps = steps;
    if MOST_MOVED < steps.len() {
        steps.shrink_to_fit();
        return Ok(steps);
    }
    let mut exact = Vec::with_capacity(alloc, steps.len())?;
    exact.append(&mut steps)?;
    spares.push(steps)?;
    Ok(exact)
}

/// The steps of a block up to its end, each of which sees the labels of those before it.
#[cycle(blocks)]
fn pull_steps(
    alloc: Global,
    reader: &mut Reader<'_>,
    levels: usize,
    declared: &Declared,
    state: &mut ReaderState,
) -> Result<Vec<Step>, Stop>
    requires few { levels ≤ MAX_DEPTH }
    ensures { IfOk result (λ steps. SpellsSteps 0 levels declared.now reader.old reader.new
        state.old state.new steps.items) }
{
    let mut steps = spare_list(alloc, &mut state.spares);
    while !reader.take_end_array() {
        steps.push(pull_step(alloc, reader, levels, declared, state)?)?;
    }
    Ok(exact_list(alloc, steps, &mut state.spares)?)
}

/// A block within so many more levels. Its labels are no longer seen after it.
#[cycle(blocks)]
pub(crate) fn pull_block(
    alloc: Global,
    reader: &mut Reader<'_>,
    levels: usize,
    declared: &Declared,
    state: &mut ReaderState,
) -> Result<Block, Stop>
    requires few { levels ≤ MAX_DEPTH }
    ensures { IfOk result (SpellsBlock levels declared.now reader.old reader.new
        state.old state.new) }
{
    pull_begin_array(reader)?;
    pull_block_begun(alloc, reader, levels, declared, state)
}

/// A block whose first bracket has been read.
#[cycle(blocks)]
pub(crate) fn pull_block_begun(
    alloc: Global,
    reader: &mut Reader<'_>,
    levels: usize,
    declared: &Declared,
    state: &mut ReaderState,
) -> Result<Block, Stop>
    requires few { levels ≤ MAX_DEPTH }
    ensures { IfOk result (SpellsBlock levels declared.now (token.begin_array ∷ reader.old)
        reader.new state.old state.new) }
{
    if levels == 0 {
        return Err(Stop::OtherForm);
    }
    let seen = state.labels.len();
    let steps = pull_steps(alloc, reader, levels - 1, declared, state)?;
    leave_block(&mut state.labels, seen);
    Ok(Block { steps })
}
