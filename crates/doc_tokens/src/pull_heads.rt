//! What of a step is read from its tokens before its blocks, and the step once they are read.
ghost use Rattle.std.specs.Prelude.{◌≡◌, ℕ, List, Option, [], ◌∷◌, codes, map, option_map, IfOk};
ghost use Rattle.json.specs.Token as token;
ghost use Rattle.serde_json.specs.Data.{Data, Members, no_members, member, put, string};
ghost use Rattle.meaning.specs.Trees as tree;
ghost use Rattle.batch.specs.Views.{children_of, step_view, subaction_view};
ghost use Rattle.doc_tree.specs.Answer.{IsMet};
ghost use Rattle.doc_tree.specs.Asked.{label_asked, seen_asked, subject_of, test_asked};
ghost use Rattle.doc_tree.specs.Demand.{one_more_node};
ghost use Rattle.doc_tokens.specs.Pulled.{ReadsMembers, TestKey, if_step, test_key};
ghost use Rattle.doc_tree.specs.Scope.{AreUnseen, label_number, numbers_of, scope_of, with_label, with_labels};
ghost use Rattle.doc_tree.specs.Spelled.{sub_step, test_of};

use crate::pull::{pull_begin_array, pull_end_object, pull_key, pull_text};
use crate::pull_blocks::pull_test;
use crate::stop::Stop;
use batch::{Step, Subaction};
use doc_rules::Subject;
use doc_tree::counts::Counts;
use doc_tree::hashing::Labels;
use doc_tree::heads::take_labels;
use doc_tree::labels::{add_new_label, seen_label};
use doc_tree::state::ReaderState;
use json::Reader;
use meaning::Test;
use std::alloc::Global;

/// What an `if` has before its branches: the number of its label, and its test.
#[derive(Clone, Copy, Drop)]
pub(crate) struct PulledIf {
    pub label: u32,
    pub test: Test,
}

/// Reads an `if` whose key has been read, up to its first branch.
pub(crate) fn pull_if_head(
    alloc: Global,
    reader: &mut Reader<'_>,
    version: u8,
    state: &mut ReaderState,
) -> Result<PulledIf, Stop>
    ensures { IfOk result (λ head. (name : List ℕ) × (key : TestKey) × (v : Data)
        × ((k : ℕ) (ms : Members) (new : List token.Token)
        → ReadsMembers k (put (test_key key) v (member (codes "if") (string name) no_members))
        (token.key (codes "then") ∷ reader.new) ms new
        → ReadsMembers k no_members (token.key (codes "if") ∷ reader.old) ms new)
        × IsMet state.old.counts (one_more_node version ∷ []) state.new.counts
        × IsMet state.new.counts (seen_asked (scope_of state.old.labels.entries) name)
        state.new.counts × ((first : Data) (second : Option Data)
        → IsMet state.new.counts (test_asked version
        (subject_of name (scope_of state.old.labels.entries)) (if_step name key v first second))
        state.new.counts) × ((first : Data) (second : Option Data)
        → (head.test, numbers_of state.new.numbering)
        ≡ test_of (subject_of name (scope_of state.old.labels.entries)) (numbers_of
        state.old.numbering) (if_step name key v first second)) × (head.label
        ≡ label_number name (scope_of state.old.labels.entries))
        × (scope_of state.new.labels.entries ≡ scope_of state.old.labels.entries)) }
{
    let name = pull_text(reader)?;
    state.counts.one_more_node(version)?;
    let (label, subject) = seen_label(name, &state.labels, &state.counts)?;
    let test = pull_test(alloc, version, subject, reader, &mut state.numbering)?;
    pull_key(reader, "then")?;
    Ok(PulledIf { label, test })
}

/// A subaction as a step, if its label is a new one. The label is then seen.
pub(crate) fn new_sub_step(
    alloc: Global,
    version: u8,
    child: Subaction,
    label: Option<&str>,
    labels: &mut Labels,
    counts: &Counts,
) -> Result<Step, Stop>
    ensures met { IfOk result (λ _. IsMet counts.now
        (label_asked version (scope_of labels.old.entries) []
        (option_map (λ text. text.now) label.entry)) counts.now) }
    ensures value { IfOk result (λ step. step_view step ≡ sub_step (subaction_view child)) }
    ensures labels { IfOk result (λ _. scope_of labels.new.entries
        ≡ with_label (option_map (λ text. text.now) label.entry) Subject.Outcome (scope_of
        labels.old.entries)) }
{
    add_new_label(alloc, version, label, Subject::Outcome, labels, counts)?;
    Ok(Step::Sub(Box::new(alloc, child)?))
}

/// Reads a parallel step whose key has been read, up to its first child.
pub(crate) fn begin_parallel(
    reader: &mut Reader<'_>,
    version: u8,
    counts: &mut Counts,
) -> Result<(), Stop>
    ensures met { IfOk result (λ _. IsMet counts.old (one_more_node version ∷ []) counts.new) }
    ensures tokens { IfOk result (λ _. reader.old ≡ token.begin_array ∷ reader.new) }
{
    counts.one_more_node(version)?;
    pull_begin_array(reader)?;
    Ok(())
}

/// A parallel step of these children, up to its end, if none of their labels was seen. They are then
/// seen.
pub(crate) fn end_parallel(
    alloc: Global,
    reader: &mut Reader<'_>,
    children: Vec<Subaction>,
    earlier: Labels,
    labels: &mut Labels,
) -> Result<Step, Stop>
    ensures tokens { IfOk result (λ _. reader.old ≡ token.end_object ∷ reader.new) }
    ensures unseen { IfOk result (λ _. AreUnseen (scope_of earlier.entries)
        (scope_of labels.old.entries)) }
    ensures value { IfOk result (λ step. step_view step
        ≡ tree.Parallel (children_of (map subaction_view children.items))) }
    ensures labels { IfOk result (λ _. scope_of labels.new.entries
        ≡ with_labels (scope_of earlier.entries) (scope_of labels.old.entries)) }
{
    let all_new = take_labels(alloc, earlier, labels)?;
    if !all_new {
        return Err(Stop::OtherForm);
    }
    pull_end_object(reader)?;
    Ok(Step::Parallel(children))
}
