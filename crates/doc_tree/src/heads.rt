//! What of a step is read before its blocks, and the step once they are read.
ghost use Rattle.std.specs.Prelude.{◌≡◌, [], codes, map, option_map, true, unwrap_or, IfErr, IfOk, OnOk};
ghost use Rattle.serde_json.specs.View.{items_view, view};
ghost use Rattle.meaning.specs.Trees as tree;
ghost use Rattle.batch.specs.Views.{block_view, children_of, handler_view, step_view, subaction_view};
ghost use Rattle.doc_tree.specs.Answer.{IsFirst, IsMet};
ghost use Rattle.doc_tree.specs.Asked.{children_in, handlers_in, if_label, label_in, part, subject_of};
ghost use Rattle.doc_tree.specs.Heads.{if_head_asked, parallel_head_asked, sub_head_asked};
ghost use Rattle.doc_tree.specs.Scope.{AreUnseen, label_number, numbers_of, scope_of, with_label, with_labels};
ghost use Rattle.doc_tree.specs.Spelled.{or_no_step, sub_step, test_of, tried};
ghost use Rattle.serde_json.specs.View.{members_view};

use crate::conditions::{if_shape_of, read_test};
use crate::counts::Counts;
use crate::hashing::Labels;
use crate::labels::{add_label, add_labels, check_label, seen_label};
use crate::state::ReaderState;
use crate::steps::{SubShape, children_of, sub_shape_of, taking};
use batch::{Block, Handler, Step, Subaction};
use doc_rules::{Failure, Subject};
use indexmap::IndexMap;
use meaning::Test;
use serde_json::Value;
use serial::NoMemory;
use std::alloc::Global;

// ---- an `if`

/// What an `if` has before its branches are read: the number of its label, its test, and the first
/// branch.
#[derive(Clone, Copy, Drop)]
pub(crate) struct IfHead<'v> {
    pub(crate) label: u32,
    pub(crate) test: Test,
    pub(crate) then: &'v Value,
}

/// Reads an `if` up to its branches.
#[tactic(auto, using(crate::proofs::Checks::parts), unfolding(crate::specs::Heads::if_head_asked))]
pub(crate) fn if_head<'v>(
    alloc: Global,
    step: &'v Value,
    version: u8,
    state: &mut ReaderState,
) -> Result<IfHead<'v>, Failure>
    ensures met { OnOk result (IsMet state.old.counts (if_head_asked version
        (scope_of state.old.labels.entries) (view step.now)) state.new.counts) }
    ensures first { IfErr result (IsFirst state.old.counts (if_head_asked version
        (scope_of state.old.labels.entries) (view step.now))) }
    ensures label { IfOk result (λ head. head.label
        ≡ label_number (if_label (view step.now)) (scope_of state.old.labels.entries)) }
    ensures test { IfOk result (λ head. (head.test, numbers_of state.new.numbering)
        ≡ test_of (subject_of (if_label (view step.now)) (scope_of state.old.labels.entries))
        (numbers_of state.old.numbering) (view step.now)) }
    ensures then { IfOk result (λ head. view head.then.now ≡ part (codes "then") (view step.now)) }
    ensures labels { OnOk result (scope_of state.new.labels.entries
        ≡ scope_of state.old.labels.entries) }
{
    let shape = if_shape_of(step, &state.counts)?;
    state.counts.one_more_node(version)?;
    let (label, subject) = seen_label(shape.label, &state.labels, &state.counts)?;
    let test = read_test(
        alloc,
        version,
        subject,
        step,
        &state.counts,
        &mut state.numbering,
    )?;
    Ok(IfHead {
        label,
        test,
        then: shape.then,
    })
}

/// An `if` whose branches are read. The second is empty where it is absent.
pub fn if_step(
    alloc: Global,
    label: u32,
    test: Test,
    then: Block,
    otherwise: Option<Block>,
) -> Result<Step, NoMemory>
    ensures value { IfOk result (λ step. step_view step
        ≡ tree.If label test (block_view then) (or_no_step (option_map block_view otherwise))) }
{
    let otherwise = otherwise.unwrap_or(Block {
        steps: Vec::new(alloc),
    });
    Ok(Step::If {
        label,
        test,
        then: Box::new(alloc, then)?,
        otherwise: Box::new(alloc, otherwise)?,
    })
}

// ---- a subaction

/// Reads a subaction up to its blocks, or a child whose earlier siblings have these labels.
#[tactic(auto, using(crate::proofs::Checks::parts), unfolding(crate::specs::Heads::sub_head_asked))]
pub(crate) fn sub_head<'v>(
    step: &'v Value,
    version: u8,
    labels: &Labels,
    earlier: Option<&Labels>,
    counts: &mut Counts,
) -> Result<SubShape<'v>, Failure>
    ensures met { OnOk result (IsMet counts.old (sub_head_asked version
        (scope_of labels.now.entries) (unwrap_or (option_map (λ labels.
        scope_of labels.now.entries) earlier.entry) []) (view step.now)) counts.new) }
    ensures first { IfErr result (IsFirst counts.old (sub_head_asked version
        (scope_of labels.now.entries) (unwrap_or (option_map (λ labels.
        scope_of labels.now.entries) earlier.entry) []) (view step.now))) }
    ensures body { IfOk result (λ shape. view shape.body.now ≡ part (codes "sub") (view step.now)) }
    ensures label { IfOk result (λ shape. option_map (λ text. text.now) shape.label
        ≡ label_in (view step.now)) }
    ensures handlers { IfOk result (λ shape. option_map (λ members.
        members_view members.now.entries) shape.handlers ≡ handlers_in (view step.now)) }
{
    let shape = sub_shape_of(step, version, counts)?;
    counts.one_more_node(version)?;
    check_label(version, shape.label, labels, earlier, counts)?;
    Ok(shape)
}

/// A subaction or a child whose blocks are read.
pub fn subaction_of(
    alloc: Global,
    body: Block,
    handlers: Option<Vec<Handler>>,
    handler: Option<Block>,
    labelled: bool,
) -> Subaction
    ensures { subaction_view result ≡ tried (block_view body) (option_map (λ list.
        map handler_view list.items) handlers) (option_map block_view handler) labelled }
{
    let (handlers, otherwise) = taking(alloc, handlers, handler);
    Subaction {
        body,
        handlers,
        otherwise,
        labelled,
    }
}

/// A subaction as a step, whose label is then seen.
pub fn sub_step(
    alloc: Global,
    child: Subaction,
    label: Option<&str>,
    labels: &mut Labels,
) -> Result<Step, NoMemory>
    ensures value { IfOk result (λ step. step_view step ≡ sub_step (subaction_view child)) }
    ensures labels { OnOk result (scope_of labels.new.entries
        ≡ with_label (option_map (λ text. text.now) label.entry) Subject.Outcome (scope_of
        labels.old.entries)) }
{
    add_label(alloc, label, Subject::Outcome, labels)?;
    Ok(Step::Sub(Box::new(alloc, child)?))
}

// ---- a parallel step

/// No labels, which are hashed as these are.
pub fn no_labels(alloc: Global, labels: &Labels) -> Labels
    ensures { scope_of result.entries ≡ [] }
{
    IndexMap::with_hasher(alloc, *labels.hasher())
}

/// The children of a parallel step, which are not yet read.
#[tactic(auto, using(crate::proofs::Checks::parts), unfolding(crate::specs::Heads::parallel_head_asked))]
pub(crate) fn parallel_head<'v>(
    step: &'v Value,
    version: u8,
    counts: &mut Counts,
) -> Result<&'v Vec<Value>, Failure>
    ensures met { OnOk result (IsMet counts.old (parallel_head_asked version
        (view step.now)) counts.new) }
    ensures first { IfErr result (IsFirst counts.old (parallel_head_asked version
        (view step.now))) }
    ensures children { IfOk result (λ list. items_view list.now.items
        ≡ children_in (view step.now)) }
{
    let list = children_of(step, counts)?;
    counts.one_more_node(version)?;
    Ok(list)
}

/// Makes the labels of children seen after the others, and returns whether none of them was seen before.
pub fn take_labels(alloc: Global, earlier: Labels, labels: &mut Labels) -> Result<bool, NoMemory>
    ensures new { IfOk result (λ new. new ≡ true
        → AreUnseen (scope_of earlier.entries) (scope_of labels.old.entries)) }
    ensures labels { OnOk result (scope_of labels.new.entries
        ≡ with_labels (scope_of earlier.entries) (scope_of labels.old.entries)) }
{
    add_labels(alloc, &earlier, labels)
}

/// A parallel step of these children, whose labels are then seen.
pub(crate) fn parallel_step(
    alloc: Global,
    children: Vec<Subaction>,
    earlier: Labels,
    labels: &mut Labels,
) -> Result<Step, NoMemory>
    ensures value { IfOk result (λ step. step_view step
        ≡ tree.Parallel (children_of (map subaction_view children.items))) }
    ensures labels { OnOk result (scope_of labels.new.entries
        ≡ with_labels (scope_of earlier.entries) (scope_of labels.old.entries)) }
{
    take_labels(alloc, earlier, labels)?;
    Ok(Step::Parallel(children))
}
