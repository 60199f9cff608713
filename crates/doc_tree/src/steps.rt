//! Reads the steps of a transaction.
ghost use Rattle.std.specs.Prelude.{◌≡◌, [], map, codes, option_map, true, false, nat_le, None, Some, unwrap_or, IfErr, IfOk, MatchResult, OnOk};
ghost use Rattle.serde_json.specs.Find.{as_str};
ghost use Rattle.serde_json.specs.View.{items_view, members_view, view};
ghost use Rattle.meaning.specs.Trees.{for_reasons, handlers_of};
ghost use Rattle.batch.specs.Views.{block_view, handler_view, otherwise_view, step_view, subaction_view};
ghost use Rattle.doc_tree.specs.Answer.{AreMet, IsFirst, IsFound, IsMet};
ghost use Rattle.doc_tree.specs.Asked.{abort_asked, abort_shape_asked, children_in, handlers_are_members, handlers_in, is_abort, label_in, labels_of, parallel_shape_asked, part, scope_after, sort_of, sub_shape_asked};
ghost use Rattle.doc_tree.specs.Demand.{broken_at};
ghost use Rattle.doc_tree.specs.Places.{block_placed, block_placed_if, children_placed, handlers_placed, if_placed, inside, member_named, member_placed, members_placed, nothing, parallel_placed, step_placed, steps_placed, sub_placed};
ghost use Rattle.doc_tree.specs.Scope.{Extends, numbers_of, scope_of, setting_of, with_label, with_labels};
ghost use Rattle.doc_tree.specs.Spelled.{abort_of, block_of, block_of_if, children_spelled, handlers_spelled, if_of, member_of, members_of, parallel_of, spelled_map, step_of, steps_spelled, sub_of, sub_step};

use crate::counts::Counts;
use crate::declared::Declared;
use crate::hashing::Labels;
use crate::heads::{
    if_head, if_step, no_labels, parallel_head, parallel_step, sub_head, sub_step, subaction_of,
};
use crate::labels::{add_label, label_of, leave_block};
use crate::look::{has, has_only, list_member, text_member};
use crate::operations::read_operation;
use crate::reasons::{read_reason, reason_number};
use crate::state::ReaderState;
use crate::unmet::Unmet;
use batch::{Block, Handler, Otherwise, Step, Subaction};
use doc_rules::{Failure, Form, NameRule, Rule, ShapeRule, Subject};
use serde_json::{Map, Value};
use std::alloc::Global;

/// What a step is, by the one member that says so.
#[derive(Clone, Copy, Debug, Drop)]
pub enum Sort {
    Operation,
    If,
    Sub,
    Abort,
    Parallel,
}

/// What a step is. None where no member says so, or more than one.
#[tactic(auto, using(crate::proofs::Members::operations), unfolding(crate::specs::Asked::sort_of))]
fn sort_of(step: &Value) -> Option<Sort>
    ensures { result ≡ sort_of (view step.now) }
{
    let op = has(step, "op");
    // Most steps are operations: one look at the names of their members shows that they have no other.
    if op && has_only(step, Form::Operation.members()) {
        return Some(Sort::Operation);
    }
    let condition = has(step, "if");
    let sub = has(step, "sub");
    let abort = has(step, "abort");
    let parallel = has(step, "parallel");
    match (op, condition, sub, abort, parallel) {
        (true, false, false, false, false) => Some(Sort::Operation),
        (false, true, false, false, false) => Some(Sort::If),
        (false, false, true, false, false) => Some(Sort::Sub),
        (false, false, false, true, false) => Some(Sort::Abort),
        (false, false, false, false, true) => Some(Sort::Parallel),
        _ => None,
    }
}

// ---- abort

/// Whether a version has reasons of aborts.
fn has_reasons(version: u8) -> bool
    ensures { result ≡ nat_le 3 version }
{
    version >= 3
}

/// Whether the value is `true`, or a reason where the version has them.
fn is_abort(version: u8, value: &Value) -> bool
    ensures { result ≡ is_abort version (view value.now) }
{
    value.as_bool() == Some(true) || has_reasons(version) && value.is_string()
}

#[tactic(auto, using(crate::proofs::Checks::parts), unfolding(crate::specs::Asked::abort_shape_asked))]
fn abort_of<'v>(
    step: &'v Value,
    version: u8,
    counts: &mut Counts,
) -> Result<Option<&'v str>, Failure>
    ensures met { OnOk result (IsMet counts.old (abort_shape_asked version (view step.now))
        counts.new) }
    ensures first { IfErr result (IsFirst counts.old (abort_shape_asked version (view step.now))) }
    ensures reason { IfOk result (λ reason. option_map (λ text. text.now) reason
        ≡ as_str (part (codes "abort") (view step.now))) }
{
    let form = Form::Abort;
    counts.demand(
        has_only(step, form.members()),
        Rule::Shape(ShapeRule::Members(form)),
    )?;
    let Some(value) = step.get("abort") else {
        return Err(counts.broken(Rule::Shape(ShapeRule::Abort(version))));
    };
    counts.demand(
        is_abort(version, value),
        Rule::Shape(ShapeRule::Abort(version)),
    )?;
    counts.one_more_node(version)?;
    Ok(value.as_str())
}

/// The abort that a step spells, with its reason where it has one.
///
/// Returns the first demand that isn't met, or that memory was refused.
#[tactic(auto, using(crate::proofs::Checks::parts), unfolding(crate::specs::Asked::abort_asked, crate::specs::Spelled::abort_of))]
fn read_abort(
    alloc: Global,
    step: &Value,
    version: u8,
    state: &mut ReaderState,
) -> Result<Step, Failure>
    ensures met { OnOk result (IsMet state.old.counts (abort_asked version (view step.now))
        state.new.counts) }
    ensures first { IfErr result (IsFirst state.old.counts (abort_asked version (view step.now))) }
    ensures value { IfOk result (λ read. (step_view read, numbers_of state.new.numbering)
        ≡ abort_of (numbers_of state.old.numbering) (view step.now)) }
    ensures labels { OnOk result (scope_of state.new.labels.entries
        ≡ scope_of state.old.labels.entries) }
{
    let reason = abort_of(step, version, &mut state.counts)?;
    let number = read_reason(alloc, reason, version, NameRule::Reason, state)?;
    Ok(Step::Abort(number))
}

// ---- the steps that hold blocks

/// The block that is the member of that name.
#[cycle(steps)]
fn read_part(
    alloc: Global,
    name: &str,
    value: &Value,
    levels: usize,
    declared: &Declared,
    state: &mut ReaderState,
) -> Result<Block, Unmet>
    ensures met { OnOk result (AreMet state.old.counts (inside (member_named name.now)
        (block_placed (setting_of declared.now) levels (scope_of state.old.labels.entries) (view
        value.now)) nothing) state.new.counts) }
    ensures unmet { IfErr result (IsFound state.old.counts (inside (member_named name.now)
        (block_placed (setting_of declared.now) levels (scope_of state.old.labels.entries) (view
        value.now)) nothing)) }
    ensures value { IfOk result (λ block. (block_view block, numbers_of state.new.numbering)
        ≡ block_of (setting_of declared.now) levels (scope_of state.old.labels.entries)
        (numbers_of state.old.numbering) (view value.now)) }
    ensures labels { OnOk result (scope_of state.new.labels.entries
        ≡ scope_of state.old.labels.entries) }
{
    match read_block(alloc, value, levels, declared, state) {
        Ok(block) => Ok(block),
        Err(unmet) => Err(unmet.in_member(alloc, name)),
    }
}

#[cycle(steps)]
#[tactic(auto, unfolding(crate::specs::Spelled::if_of))]
fn read_if(
    alloc: Global,
    step: &Value,
    levels: usize,
    declared: &Declared,
    state: &mut ReaderState,
) -> Result<Step, Unmet>
    ensures met { OnOk result (AreMet state.old.counts (if_placed declared.now.version
        (block_placed (setting_of declared.now) levels) (scope_of state.old.labels.entries)
        (view step.now)) state.new.counts) }
    ensures unmet { IfErr result (IsFound state.old.counts (if_placed declared.now.version
        (block_placed (setting_of declared.now) levels) (scope_of state.old.labels.entries)
        (view step.now))) }
    ensures value { IfOk result (λ read. (step_view read, numbers_of state.new.numbering)
        ≡ if_of (block_of (setting_of declared.now) levels) (scope_of state.old.labels.entries)
        (numbers_of state.old.numbering) (view step.now)) }
    ensures labels { OnOk result (scope_of state.new.labels.entries
        ≡ scope_of state.old.labels.entries) }
{
    let head = if_head(alloc, step, declared.version, state)?;
    let then = read_part(alloc, "then", head.then, levels, declared, state)?;
    let otherwise = read_part_if(alloc, "else", step.get("else"), levels, declared, state)?;
    let step = if_step(alloc, head.label, head.test, then, otherwise)?;
    Ok(step)
}

/// The parts of a subaction.
#[derive(Clone, Copy, Drop)]
pub(crate) struct SubShape<'v> {
    pub(crate) body: &'v Value,
    pub(crate) label: Option<&'v str>,
    pub(crate) handlers: Option<&'v Map<String, Value>>,
}

/// Handlers by reason, which a version may have.
fn handlers_of<'v>(
    step: &'v Value,
    version: u8,
    counts: &Counts,
) -> Result<Option<&'v Map<String, Value>>, Failure>
    ensures { MatchResult result (λ handlers. (handlers_are_members version (view step.now) ≡ true)
        × (option_map (λ members. members_view members.now.entries) handlers
        ≡ handlers_in (view step.now))) (λ failure. (handlers_are_members version (view step.now)
        ≡ false) × (failure ≡ broken_at (Rule.Shape (ShapeRule.Handlers version)) counts.now)) }
{
    let Some(handlers) = step.get("handlers") else {
        return Ok(None);
    };
    if !has_reasons(version) {
        return Err(counts.broken(Rule::Shape(ShapeRule::Handlers(version))));
    }
    match handlers.as_object() {
        Some(members) => Ok(Some(members)),
        None => Err(counts.broken(Rule::Shape(ShapeRule::Handlers(version)))),
    }
}

#[tactic(auto, unfolding(crate::specs::Asked::sub_shape_asked))]
pub(crate) fn sub_shape_of<'v>(
    step: &'v Value,
    version: u8,
    counts: &Counts,
) -> Result<SubShape<'v>, Failure>
    ensures met { OnOk result (IsMet counts.now (sub_shape_asked version (view step.now))
        counts.now) }
    ensures first { IfErr result (IsFirst counts.now (sub_shape_asked version (view step.now))) }
    ensures body { IfOk result (λ shape. view shape.body.now ≡ part (codes "sub") (view step.now)) }
    ensures label { IfOk result (λ shape. option_map (λ text. text.now) shape.label
        ≡ label_in (view step.now)) }
    ensures handlers { IfOk result (λ shape. option_map (λ members.
        members_view members.now.entries) shape.handlers ≡ handlers_in (view step.now)) }
{
    let form = Form::Subaction;
    counts.demand(
        has_only(step, form.members()),
        Rule::Shape(ShapeRule::Members(form)),
    )?;
    let Some(body) = step.get("sub") else {
        return Err(counts.broken(Rule::Shape(ShapeRule::Body)));
    };
    let label = label_of(step, counts)?;
    let handlers = handlers_of(step, version, counts)?;
    Ok(SubShape {
        body,
        label,
        handlers,
    })
}

/// A handler by reason. A reason that is no name breaks a rule of the handlers.
#[cycle(steps)]
fn read_handler(
    alloc: Global,
    reason: &str,
    value: &Value,
    levels: usize,
    declared: &Declared,
    state: &mut ReaderState,
) -> Result<Handler, Unmet>
    ensures met { OnOk result (AreMet state.old.counts (member_placed declared.now.version
        (block_placed (setting_of declared.now) levels)
        (scope_of state.old.labels.entries) reason.now (view value.now) nothing) state.new.counts) }
    ensures unmet { IfErr result (IsFound state.old.counts (member_placed declared.now.version
        (block_placed (setting_of declared.now) levels)
        (scope_of state.old.labels.entries) reason.now (view value.now) nothing)) }
    ensures value { IfOk result (λ read. (handler_view read, numbers_of state.new.numbering)
        ≡ member_of (block_of (setting_of declared.now) levels) (scope_of state.old.labels.entries)
        (numbers_of state.old.numbering) reason.now (view value.now)) }
    ensures labels { OnOk result (scope_of state.new.labels.entries
        ≡ scope_of state.old.labels.entries) }
{
    let reasons = &mut state.numbering.reasons;
    let number = reason_number(
        alloc,
        reason,
        declared.version,
        NameRule::Handlers,
        &state.counts,
        reasons,
    )?;
    let block = read_part(alloc, reason, value, levels, declared, state)?;
    Ok(Handler {
        reason: number,
        block,
    })
}

/// The handlers by reason, in the order of the reasons' bytes.
///
/// Returns the first demand that isn't met, with its place in them, or that memory was refused.
#[cycle(steps)]
pub fn read_members(
    alloc: Global,
    members: &Map<String, Value>,
    levels: usize,
    declared: &Declared,
    state: &mut ReaderState,
) -> Result<Vec<Handler>, Unmet>
    ensures met { OnOk result (AreMet state.old.counts (members_placed declared.now.version
        (block_placed (setting_of declared.now) levels)
        (scope_of state.old.labels.entries) (members_view members.now.entries)) state.new.counts) }
    ensures unmet { IfErr result (IsFound state.old.counts (members_placed declared.now.version
        (block_placed (setting_of declared.now) levels)
        (scope_of state.old.labels.entries) (members_view members.now.entries))) }
    ensures value { IfOk result (λ read. (
      map handler_view read.items,
      numbers_of
          state.new.numbering,
    ) ≡ members_of (block_of (setting_of declared.now) levels) (scope_of
        state.old.labels.entries) (numbers_of state.old.numbering) (members_view
        members.now.entries)) }
    ensures labels { OnOk result (scope_of state.new.labels.entries
        ≡ scope_of state.old.labels.entries) }
{
    let mut handlers = Vec::with_capacity(alloc, members.len())?;
    for (reason, value) in members {
        handlers.push(read_handler(alloc, reason.as_str(), value, levels, declared, state)?)?;
    }
    Ok(handlers)
}

#[cycle(steps)]
#[tactic(auto, unfolding(crate::specs::Places::handlers_placed, crate::specs::Spelled::handlers_spelled))]
fn read_handlers(
    alloc: Global,
    handlers: Option<&Map<String, Value>>,
    levels: usize,
    declared: &Declared,
    state: &mut ReaderState,
) -> Result<Option<Vec<Handler>>, Unmet>
    ensures met { OnOk result (AreMet state.old.counts (inside (member_named (codes "handlers"))
        (handlers_placed declared.now.version
        (block_placed (setting_of declared.now) levels) (scope_of
        state.old.labels.entries) (option_map (λ members. members_view members.now.entries)
        handlers.entry)) nothing) state.new.counts) }
    ensures unmet { IfErr result (IsFound state.old.counts (inside (member_named (codes "handlers"))
        (handlers_placed declared.now.version
        (block_placed (setting_of declared.now) levels) (scope_of
        state.old.labels.entries) (option_map (λ members. members_view members.now.entries)
        handlers.entry)) nothing)) }
    ensures value { IfOk result (λ read. (
      option_map (λ list.
          map handler_view list.items) read,
      numbers_of state.new.numbering,
    )
        ≡ handlers_spelled (block_of (setting_of declared.now) levels) (scope_of
        state.old.labels.entries) (numbers_of state.old.numbering) (option_map (λ members.
        members_view members.now.entries) handlers.entry)) }
    ensures labels { OnOk result (scope_of state.new.labels.entries
        ≡ scope_of state.old.labels.entries) }
{
    let Some(members) = handlers else {
        return Ok(None);
    };
    match read_members(alloc, members, levels, declared, state) {
        Ok(read) => Ok(Some(read)),
        Err(unmet) => Err(unmet.in_member(alloc, "handlers")),
    }
}

/// What takes an abort, of the handlers by reason and the handler for every abort: where there is
/// neither, the parent goes on.
pub(crate) fn taking(
    alloc: Global,
    handlers: Option<Vec<Handler>>,
    handler: Option<Block>,
) -> (Vec<Handler>, Otherwise)
    ensures { for_reasons (map handler_view result.0.items) (otherwise_view result.1)
        ≡ handlers_of (option_map (λ list. map handler_view list.items) handlers) (option_map
        block_view handler) }
{
    match (handlers, handler) {
        (None, None) => (Vec::new(alloc), Otherwise::GoOn),
        (None, Some(block)) => (Vec::new(alloc), Otherwise::Run(block)),
        (Some(handlers), None) => (handlers, Otherwise::Pass),
        (Some(handlers), Some(block)) => (handlers, Otherwise::Run(block)),
    }
}

/// A subaction, or a child whose earlier siblings have these labels. Its own label is not yet seen.
#[cycle(steps)]
#[tactic(auto, unfolding(crate::specs::Spelled::sub_of))]
fn read_sub(
    alloc: Global,
    step: &Value,
    levels: usize,
    declared: &Declared,
    earlier: Option<&Labels>,
    state: &mut ReaderState,
) -> Result<Subaction, Unmet>
    ensures met { OnOk result (AreMet state.old.counts (sub_placed declared.now.version
        (block_placed (setting_of declared.now) levels) (scope_of state.old.labels.entries)
        (unwrap_or (option_map (λ labels. scope_of labels.now.entries) earlier.entry) []) (view
        step.now)) state.new.counts) }
    ensures unmet { IfErr result (IsFound state.old.counts (sub_placed declared.now.version
        (block_placed (setting_of declared.now) levels) (scope_of state.old.labels.entries)
        (unwrap_or (option_map (λ labels. scope_of labels.now.entries) earlier.entry) []) (view
        step.now))) }
    ensures value { IfOk result (λ read. (subaction_view read, numbers_of state.new.numbering)
        ≡ sub_of (block_of (setting_of declared.now) levels) (scope_of state.old.labels.entries)
        (numbers_of state.old.numbering) (view step.now)) }
    ensures labels { OnOk result (scope_of state.new.labels.entries
        ≡ scope_of state.old.labels.entries) }
{
    let head = sub_head(
        step,
        declared.version,
        &state.labels,
        earlier,
        &mut state.counts,
    )?;
    let body = read_part(alloc, "sub", head.body, levels, declared, state)?;
    let handlers = read_handlers(alloc, head.handlers, levels, declared, state)?;
    let handler = read_part_if(
        alloc,
        "handler",
        step.get("handler"),
        levels,
        declared,
        state,
    )?;
    let labelled = head.label.is_some();
    Ok(subaction_of(alloc, body, handlers, handler, labelled))
}

#[cycle(steps)]
fn read_sub_step(
    alloc: Global,
    step: &Value,
    levels: usize,
    declared: &Declared,
    state: &mut ReaderState,
) -> Result<Step, Unmet>
    ensures met { OnOk result (AreMet state.old.counts (sub_placed declared.now.version
        (block_placed (setting_of declared.now) levels)
        (scope_of state.old.labels.entries) [] (view step.now)) state.new.counts) }
    ensures unmet { IfErr result (IsFound state.old.counts (sub_placed declared.now.version
        (block_placed (setting_of declared.now) levels)
        (scope_of state.old.labels.entries) [] (view step.now))) }
    ensures value { IfOk result (λ read. (step_view read, numbers_of state.new.numbering)
        ≡ spelled_map sub_step (sub_of (block_of (setting_of declared.now) levels)
        (scope_of state.old.labels.entries) (numbers_of state.old.numbering) (view step.now))) }
    ensures labels { OnOk result (scope_of state.new.labels.entries
        ≡ with_label (label_in (view step.now)) Subject.Outcome (scope_of
        state.old.labels.entries)) }
{
    let child = read_sub(alloc, step, levels, declared, None, state)?;
    let step = sub_step(alloc, child, text_member(step, "as"), &mut state.labels)?;
    Ok(step)
}

/// The children, with their labels, which none of them sees.
#[cycle(steps)]
fn read_children(
    alloc: Global,
    list: &Vec<Value>,
    levels: usize,
    declared: &Declared,
    earlier: &mut Labels,
    state: &mut ReaderState,
) -> Result<Vec<Subaction>, Unmet>
    ensures met { OnOk result (AreMet state.old.counts (children_placed declared.now.version
        (block_placed (setting_of declared.now) levels)
        (scope_of state.old.labels.entries) (scope_of earlier.old.entries) 0 (items_view
        list.now.items)) state.new.counts) }
    ensures unmet { IfErr result (IsFound state.old.counts (children_placed declared.now.version
        (block_placed (setting_of declared.now) levels)
        (scope_of state.old.labels.entries) (scope_of earlier.old.entries) 0 (items_view
        list.now.items))) }
    ensures value { IfOk result (λ read. (
      map subaction_view read.items,
      numbers_of
          state.new.numbering,
    ) ≡ children_spelled (block_of (setting_of declared.now) levels)
        (scope_of state.old.labels.entries) (numbers_of state.old.numbering) (items_view
        list.now.items)) }
    ensures earlier { OnOk result (scope_of earlier.new.entries
        ≡ labels_of (scope_of earlier.old.entries) (items_view list.now.items)) }
    ensures labels { OnOk result (scope_of state.new.labels.entries
        ≡ scope_of state.old.labels.entries) }
{
    let mut children = Vec::with_capacity(alloc, list.len())?;
    for (index, child) in list.iter().enumerate() {
        match read_sub(alloc, child, levels, declared, Some(earlier), state) {
            Ok(read) => children.push(read)?,
            Err(unmet) => return Err(unmet.in_item(alloc, index)),
        }
        add_label(alloc, text_member(child, "as"), Subject::Outcome, earlier)?;
    }
    Ok(children)
}

/// The children of a parallel step. Returns the first rule that isn't kept where it has no such
/// list, or another member.
#[tactic(auto, unfolding(crate::specs::Asked::parallel_shape_asked))]
pub(crate) fn children_of<'v>(step: &'v Value, counts: &Counts) -> Result<&'v Vec<Value>, Failure>
    ensures met { OnOk result (IsMet counts.now (parallel_shape_asked (view step.now)) counts.now) }
    ensures first { IfErr result (IsFirst counts.now (parallel_shape_asked (view step.now))) }
    ensures children { IfOk result (λ list. items_view list.now.items
        ≡ children_in (view step.now)) }
{
    let form = Form::Parallel;
    counts.demand(
        has_only(step, form.members()),
        Rule::Shape(ShapeRule::Members(form)),
    )?;
    let Some(list) = list_member(step, "parallel") else {
        return Err(counts.broken(Rule::Shape(ShapeRule::Children)));
    };
    Ok(list)
}

#[cycle(steps)]
fn read_parallel(
    alloc: Global,
    step: &Value,
    levels: usize,
    declared: &Declared,
    state: &mut ReaderState,
) -> Result<Step, Unmet>
    ensures met { OnOk result (AreMet state.old.counts (parallel_placed declared.now.version
        (block_placed (setting_of declared.now) levels)
        (scope_of state.old.labels.entries) (view step.now)) state.new.counts) }
    ensures unmet { IfErr result (IsFound state.old.counts (parallel_placed declared.now.version
        (block_placed (setting_of declared.now) levels)
        (scope_of state.old.labels.entries) (view step.now))) }
    ensures value { IfOk result (λ read. (step_view read, numbers_of state.new.numbering)
        ≡ parallel_of (block_of (setting_of declared.now) levels) (scope_of
        state.old.labels.entries) (numbers_of state.old.numbering) (view step.now)) }
    ensures labels { OnOk result (scope_of state.new.labels.entries
        ≡ with_labels (labels_of [] (children_in (view step.now))) (scope_of
        state.old.labels.entries)) }
{
    let list = parallel_head(step, declared.version, &mut state.counts)?;
    let mut earlier = no_labels(alloc, &state.labels);
    let children = match read_children(alloc, list, levels, declared, &mut earlier, state) {
        Ok(children) => children,
        Err(unmet) => return Err(unmet.in_member(alloc, "parallel")),
    };
    let step = parallel_step(alloc, children, earlier, &mut state.labels)?;
    Ok(step)
}

// ---- blocks

/// The block that is the member of that name, where the step has it.
#[cycle(steps)]
#[tactic(auto, unfolding(crate::specs::Places::block_placed_if, crate::specs::Spelled::block_of_if))]
fn read_part_if(
    alloc: Global,
    name: &str,
    value: Option<&Value>,
    levels: usize,
    declared: &Declared,
    state: &mut ReaderState,
) -> Result<Option<Block>, Unmet>
    ensures met { OnOk result (AreMet state.old.counts (inside (member_named name.now)
        (block_placed_if (block_placed (setting_of declared.now) levels) (scope_of
        state.old.labels.entries) (option_map (λ v. view v.now) value.entry)) nothing)
        state.new.counts) }
    ensures unmet { IfErr result (IsFound state.old.counts (inside (member_named name.now)
        (block_placed_if (block_placed (setting_of declared.now) levels) (scope_of
        state.old.labels.entries) (option_map (λ v. view v.now) value.entry)) nothing)) }
    ensures value { IfOk result (λ block. (
      option_map block_view block,
      numbers_of
          state.new.numbering,
    ) ≡ block_of_if (block_of (setting_of declared.now) levels) (scope_of
        state.old.labels.entries) (numbers_of state.old.numbering) (option_map (λ v.
        view v.now) value.entry)) }
    ensures labels { OnOk result (scope_of state.new.labels.entries
        ≡ scope_of state.old.labels.entries) }
{
    match value {
        Some(value) => {
            let block = read_part(alloc, name, value, levels, declared, state)?;
            Ok(Some(block))
        }
        None => Ok(None),
    }
}

/// The step that a value spells, within so many more levels. Its labels are seen from then on.
///
/// Returns the first demand that isn't met, with its place in the step, or that memory was refused.
#[cycle(steps)]
#[tactic(auto, unfolding(crate::specs::Places::step_placed, crate::specs::Asked::scope_after, crate::specs::Spelled::step_of))]
pub fn read_step(
    alloc: Global,
    step: &Value,
    levels: usize,
    declared: &Declared,
    state: &mut ReaderState,
) -> Result<Step, Unmet>
    ensures met { OnOk result (AreMet state.old.counts
        (step_placed (block_placed (setting_of declared.now) levels) (setting_of declared.now)
        (scope_of state.old.labels.entries) (view step.now)) state.new.counts) }
    ensures unmet { IfErr result (IsFound state.old.counts (step_placed (block_placed (setting_of
        declared.now) levels)
        (setting_of declared.now) (scope_of state.old.labels.entries) (view step.now))) }
    ensures value { IfOk result (λ read. (step_view read, numbers_of state.new.numbering)
        ≡ step_of (block_of (setting_of declared.now) levels) (setting_of declared.now)
        (scope_of state.old.labels.entries) (numbers_of state.old.numbering) (view step.now)) }
    ensures labels { OnOk result (scope_of state.new.labels.entries
        ≡ scope_after (setting_of declared.now) (scope_of state.old.labels.entries) (view
        step.now)) }
{
    match sort_of(step) {
        Some(Sort::Operation) => {
            let operation = read_operation(alloc, step, declared, state)?;
            Ok(operation)
        }
        Some(Sort::If) => read_if(alloc, step, levels, declared, state),
        Some(Sort::Sub) => read_sub_step(alloc, step, levels, declared, state),
        Some(Sort::Abort) => {
            let abort = read_abort(alloc, step, declared.version, state)?;
            Ok(abort)
        }
        Some(Sort::Parallel) => read_parallel(alloc, step, levels, declared, state),
        None => Err(Unmet::from(state.counts.broken(Rule::Shape(ShapeRule::Sort)))),
    }
}

/// The steps of a block, each of which sees the labels of those before it.
#[cycle(steps)]
fn read_steps(
    alloc: Global,
    list: &Vec<Value>,
    levels: usize,
    declared: &Declared,
    state: &mut ReaderState,
) -> Result<Vec<Step>, Unmet>
    ensures met { OnOk result (AreMet state.old.counts (steps_placed (block_placed (setting_of
        declared.now) levels)
        (setting_of declared.now) (scope_of state.old.labels.entries) 0 (items_view list.now.items))
        state.new.counts) }
    ensures unmet { IfErr result (IsFound state.old.counts (steps_placed (block_placed (setting_of
        declared.now) levels)
        (setting_of declared.now) (scope_of state.old.labels.entries) 0 (items_view
        list.now.items))) }
    ensures value { IfOk result (λ read. (map step_view read.items, numbers_of state.new.numbering)
        ≡ steps_spelled (block_of (setting_of declared.now) levels) (setting_of declared.now)
        (scope_of state.old.labels.entries) (numbers_of state.old.numbering) (items_view
        list.now.items)) }
    ensures labels { OnOk result (Extends (scope_of state.old.labels.entries)
        (scope_of state.new.labels.entries)) }
{
    let mut steps = Vec::with_capacity(alloc, list.len())?;
    for (index, step) in list.iter().enumerate() {
        match read_step(alloc, step, levels, declared, state) {
            Ok(read) => steps.push(read)?,
            Err(unmet) => return Err(unmet.in_item(alloc, index)),
        }
    }
    Ok(steps)
}

/// A block within so many more levels. Its labels are no longer seen after it.
#[cycle(steps)]
fn read_block(
    alloc: Global,
    value: &Value,
    levels: usize,
    declared: &Declared,
    state: &mut ReaderState,
) -> Result<Block, Unmet>
    ensures met { OnOk result (AreMet state.old.counts (block_placed (setting_of declared.now)
        levels
        (scope_of state.old.labels.entries) (view value.now)) state.new.counts) }
    ensures unmet { IfErr result (IsFound state.old.counts (block_placed (setting_of declared.now)
        levels
        (scope_of state.old.labels.entries) (view value.now))) }
    ensures value { IfOk result (λ block. (block_view block, numbers_of state.new.numbering)
        ≡ block_of (setting_of declared.now) levels (scope_of state.old.labels.entries)
        (numbers_of state.old.numbering) (view value.now)) }
    ensures labels { OnOk result (scope_of state.new.labels.entries
        ≡ scope_of state.old.labels.entries) }
{
    let Some(list) = value.as_array() else {
        return Err(Unmet::from(state.counts.broken(Rule::Shape(ShapeRule::Block))));
    };
    if levels == 0 {
        return Err(Unmet::from(state.counts.broken(Rule::Depth)));
    }
    let seen = state.labels.len();
    let steps = read_steps(alloc, list, levels - 1, declared, state)?;
    leave_block(&mut state.labels, seen);
    Ok(Block { steps })
}
