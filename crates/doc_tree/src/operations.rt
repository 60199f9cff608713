//! Reads an operation.
ghost use Rattle.std.specs.Prelude.{◌≡◌, ◌<◌, codes, is_some, length, option_map, None, Some, IfErr, IfOk, IfSome, OnOk};
ghost use Rattle.serde_json.specs.View.{view};
ghost use Rattle.batch.specs.Names.{texts_of};
ghost use Rattle.batch.specs.Views.{step_view};
ghost use Rattle.doc_tree.specs.Answer.{IsFirst, IsMet};
ghost use Rattle.doc_tree.specs.Asked.{call_named, label_in, object_of, operation_asked, operation_shape_asked, operation_verb, part, target_asked, verb_in};
ghost use Rattle.doc_tree.specs.Heads.{operation_head_asked};
ghost use Rattle.doc_tree.specs.Look.{text_item};
ghost use Rattle.doc_tree.specs.Scope.{is_listed, kind_named, numbers_of, place_of, scope_of, setting_of, with_label};
ghost use Rattle.doc_tree.specs.Spelled.{operation_of, operation_step, target_of};

use crate::arguments::{ArgumentScope, is_else, read_arguments, read_refusal};
use crate::counts::Counts;
use crate::declared::Declared;
use crate::hints::place_of;
use crate::labels::{add_new_label, label_of};
use crate::look::{has_only, text_item};
use crate::state::ReaderState;
use batch::{Filling, Step};
use doc_rules::{Failure, Form, Rule, ShapeRule, Subject};
use meaning::{Refusal, Template};
use objects::Kind;
use serde_json::Value;
use serial::NoMemory;
use std::alloc::Global;
use vocabulary::Verb;

/// The parts of an operation.
#[derive(Clone, Copy, Drop)]
pub struct OperationParts<'v> {
    op: &'v Value,
    object: &'v str,
    call: &'v str,
    label: Option<&'v str>,
}

#[tactic(auto, unfolding(crate::specs::Asked::operation_shape_asked))]
fn shape_of<'v>(
    step: &'v Value,
    version: u8,
    counts: &Counts,
) -> Result<OperationParts<'v>, Failure>
    ensures met { OnOk result (IsMet counts.now (operation_shape_asked version (view step.now))
        counts.now) }
    ensures first { IfErr result (IsFirst counts.now (operation_shape_asked version
        (view step.now))) }
    ensures op { IfOk result (λ shape. view shape.op.now ≡ part (codes "op") (view step.now)) }
    ensures object { IfOk result (λ shape. shape.object.now
        ≡ object_of (part (codes "op") (view step.now))) }
    ensures call { IfOk result (λ shape. shape.call.now
        ≡ call_named (part (codes "op") (view step.now))) }
    ensures label { IfOk result (λ shape. option_map (λ text. text.now) shape.label
        ≡ label_in (view step.now)) }
{
    let form = Form::Operation;
    counts.demand(
        has_only(step, form.members()),
        Rule::Shape(ShapeRule::Members(form)),
    )?;
    let Some(op) = step.get("op") else {
        return Err(counts.broken(Rule::Shape(ShapeRule::OperationObject)));
    };
    let Some(object) = text_item(op, 0) else {
        return Err(counts.broken(Rule::Shape(ShapeRule::OperationObject)));
    };
    let Some(call) = text_item(op, 1) else {
        return Err(counts.broken(Rule::Shape(ShapeRule::OperationWord)));
    };
    let label = label_of(step, counts)?;
    counts.demand(
        is_else(version, step),
        Rule::Shape(ShapeRule::Else(version)),
    )?;
    Ok(OperationParts {
        op,
        object,
        call,
        label,
    })
}

// ---- the operation

/// The place and the kind of the object of that name. Where its outline is found, the name isn't
/// hashed.
fn find(name: &str, declared: &Declared) -> Option<(u32, Kind)>
    ensures place { option_map (λ found. found.0) result
        ≡ place_of name.now (texts_of declared.now.names.keys) }
    ensures kind { option_map (λ found. found.1) result
        ≡ kind_named name.now (setting_of declared.now) }
    ensures listed { is_some result ≡ is_listed name.now (texts_of declared.now.names.keys) }
{
    if let Some(found) = declared.outlined(name) {
        return Some(found);
    }
    let place = place_of(&declared.names, name)? as u32;
    let kind = declared.kind(place)?;
    Some((place, kind))
}

/// The object's place and the call that an operation names.
#[tactic(auto, unfolding(crate::specs::Asked::target_asked))]
pub fn target_of(
    object: &str,
    call: &str,
    declared: &Declared,
    counts: &Counts,
) -> Result<(u32, Verb), Failure>
    ensures met { OnOk result (IsMet counts.now (target_asked (setting_of declared.now) object.now
        call.now) counts.now) }
    ensures first { IfErr result (IsFirst counts.now (target_asked (setting_of declared.now)
        object.now call.now)) }
    ensures object { IfOk result (λ target. target.0
        ≡ target_of (setting_of declared.now) object.now) }
    ensures verb { IfOk result (λ target. target.1
        ≡ operation_verb (setting_of declared.now) object.now call.now) }
{
    let Some((place, kind)) = find(object, declared) else {
        return Err(counts.broken(Rule::KnownObject));
    };
    let Some(verb) = Verb::of_text(declared.version, kind, call) else {
        let rule = Rule::KnownOperation(declared.version, Some(kind));
        return Err(counts.broken(rule));
    };
    Ok((place, verb))
}

/// What an operation has before its arguments are read.
#[derive(Clone, Copy, Drop)]
struct Head<'v> {
    op: &'v Value,
    label: Option<&'v str>,
    object: u32,
    verb: Verb,
}

/// Reads an operation up to its arguments.
#[tactic(auto, using(crate::proofs::Checks::parts), unfolding(crate::specs::Heads::operation_head_asked))]
fn head_of<'v>(
    step: &'v Value,
    declared: &Declared,
    counts: &mut Counts,
) -> Result<Head<'v>, Failure>
    ensures met { OnOk result (IsMet counts.old (operation_head_asked (setting_of declared.now)
        (view step.now)) counts.new) }
    ensures first { IfErr result (IsFirst counts.old (operation_head_asked (setting_of declared.now)
        (view step.now))) }
    ensures op { IfOk result (λ head. view head.op.now ≡ part (codes "op") (view step.now)) }
    ensures label { IfOk result (λ head. option_map (λ text. text.now) head.label
        ≡ label_in (view step.now)) }
    ensures object { IfOk result (λ head. head.object
        ≡ target_of (setting_of declared.now) (object_of (part (codes "op") (view step.now)))) }
    ensures verb { IfOk result (λ head. head.verb
        ≡ verb_in (setting_of declared.now) (part (codes "op") (view step.now))) }
{
    let shape = shape_of(step, declared.version, counts)?;
    counts.one_more_operation(declared.version)?;
    let (object, verb) = target_of(shape.object, shape.call, declared, counts)?;
    Ok(Head {
        op: shape.op,
        label: shape.label,
        object,
        verb,
    })
}

/// The operation that a step spells. Its label, where it has one, is seen from then on.
///
/// Returns the first demand that isn't met, or that memory was refused.
#[tactic(auto, using(crate::proofs::HeadLemmas::operations), unfolding(crate::specs::Spelled::operation_of))]
pub fn read_operation(
    alloc: Global,
    step: &Value,
    declared: &Declared,
    state: &mut ReaderState,
) -> Result<Step, Failure>
    ensures met { OnOk result (IsMet state.old.counts (operation_asked (setting_of declared.now)
        (scope_of state.old.labels.entries) (view step.now)) state.new.counts) }
    ensures first { IfErr result (IsFirst state.old.counts
        (operation_asked (setting_of declared.now) (scope_of state.old.labels.entries)
        (view step.now))) }
    ensures value { IfOk result (λ read. (step_view read, numbers_of state.new.numbering)
        ≡ operation_of (setting_of declared.now) (scope_of state.old.labels.entries) (numbers_of
        state.old.numbering) (view step.now)) }
    ensures labels { OnOk result (scope_of state.new.labels.entries
        ≡ with_label (label_in (view step.now)) (Subject.Reply (verb_in (setting_of declared.now)
        (part (codes "op") (view step.now)))) (scope_of state.old.labels.entries)) }
{
    let head = head_of(step, declared, &mut state.counts)?;
    let seen = ArgumentScope {
        version: declared.version,
        labels: &state.labels,
        counts: &state.counts,
    };
    let template = read_arguments(alloc, head.verb, head.op, &seen, &mut state.numbering)?;
    let refusal = read_refusal(alloc, step, declared.version, state)?;
    let subject = Subject::Reply(head.verb);
    add_new_label(
        alloc,
        declared.version,
        head.label,
        subject,
        &mut state.labels,
        &state.counts,
    )?;
    Ok(operation_step(alloc, head.object, template, head.label.is_some(), refusal)?)
}

/// The step of an operation: a plain one, where its call is given and its refusal does nothing.
pub fn operation_step(
    alloc: Global,
    object: u32,
    template: Template,
    labelled: bool,
    refusal: Refusal,
) -> Result<Step, NoMemory>
    ensures { IfOk result (λ step. step_view step
        ≡ operation_step object template labelled refusal) }
{
    match (template, refusal) {
        (Template::Given(call), Refusal::GoesOn) => Ok(Step::Op {
            object,
            call,
            labelled,
        }),
        _ => {
            let filling = Filling {
                object,
                template,
                labelled,
                refusal,
            };
            Ok(Step::Fill(Box::new(alloc, filling)?))
        }
    }
}
