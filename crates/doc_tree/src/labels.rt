//! Labels, and the demands on them.
ghost use Rattle.std.specs.Prelude.{◌≡◌, [], is_some, length, option_map, true, false, not, Some, unwrap_or, IfErr, IfOk, IfSome, MatchResult, OnOk};
ghost use Rattle.serde_json.specs.View.{view};
ghost use Rattle.doc_tree.specs.Answer.{IsFirst, IsMet};
ghost use Rattle.doc_tree.specs.Asked.{label_asked, label_in, label_is_text, seen_asked, subject_of};
ghost use Rattle.doc_tree.specs.Demand.{broken_at};
ghost use Rattle.doc_tree.specs.Scope.{AreUnseen, Extends, Scope, is_named, label_number, scope_of, with_label, with_labels};

use crate::counts::Counts;
use crate::hashing::Labels;
use crate::state::fit;
use batch::is_name;
use doc_rules::{Failure, NameRule, Rule, ShapeRule, Subject};
use indexmap::map::Entry;
use serde_json::Value;
use serial::NoMemory;
use std::alloc::Global;

/// A step's label, where it has one.
pub(crate) fn label_of<'v>(step: &'v Value, counts: &Counts) -> Result<Option<&'v str>, Failure>
    ensures { MatchResult result
        (λ label. (label_is_text (view step.now) ≡ true)
        × (option_map (λ text. text.now) label ≡ label_in (view step.now)))
        (λ failure. (label_is_text (view step.now) ≡ false)
        × (failure ≡ broken_at (Rule.Shape ShapeRule.Label) counts.now)) }
{
    let Some(label) = step.get("as") else {
        return Ok(None);
    };
    match label.as_str() {
        Some(text) => Ok(Some(text)),
        None => Err(counts.broken(Rule::Shape(ShapeRule::Label))),
    }
}

/// Whether the label is seen. Where none is, nothing is hashed.
#[tactic(auto, using(crate::proofs::LabelLemmas::named_labels))]
pub(crate) fn is_seen(labels: &Labels, name: &str) -> bool
    ensures { result ≡ is_named name.now (scope_of labels.now.entries) }
{
    !labels.is_empty() && labels.contains_key(name)
}

/// That a label is a name, and is neither seen yet nor an earlier sibling's, where there are any.
#[tactic(auto, unfolding(crate::specs::Asked::label_asked))]
pub(crate) fn check_label(
    version: u8,
    label: Option<&str>,
    labels: &Labels,
    earlier: Option<&Labels>,
    counts: &Counts,
) -> Result<(), Failure>
    ensures { MatchResult result
        (λ _. IsMet counts.now (label_asked version (scope_of labels.now.entries)
        (unwrap_or (option_map (λ labels. scope_of labels.now.entries) earlier.entry) [])
        (option_map (λ text. text.now) label.entry)) counts.now)
        (IsFirst counts.now (label_asked version (scope_of labels.now.entries)
        (unwrap_or (option_map (λ labels. scope_of labels.now.entries) earlier.entry) [])
        (option_map (λ text. text.now) label.entry))) }
{
    let Some(name) = label else {
        return Ok(());
    };
    counts.demand(is_name(version, name), Rule::Name(version, NameRule::Label))?;
    let earlier_has_it = match earlier {
        Some(earlier) => is_seen(earlier, name),
        None => false,
    };
    let seen = is_seen(labels, name) || earlier_has_it;
    counts.demand(!seen, Rule::NewLabel)?;
    Ok(())
}

/// Makes a label seen if it is not seen yet, and returns whether it is new.
fn insert_label(
    alloc: Global,
    name: &str,
    subject: Subject,
    labels: &mut Labels,
) -> Result<bool, NoMemory>
    ensures new { IfOk result (λ new. new ≡ not (is_named name.now (scope_of labels.old.entries))) }
    ensures labels { OnOk result (scope_of labels.new.entries
        ≡ with_label (Some name.now) subject (scope_of labels.old.entries)) }
{
    match labels.entry(String::from_str(alloc, name)?)? {
        Entry::Occupied(_) => Ok(false),
        Entry::Vacant(entry) => {
            entry.insert(subject);
            Ok(true)
        }
    }
}

/// Makes the label of an operation seen, if it has one: a name that is not seen yet.
#[tactic(auto, unfolding(crate::specs::Asked::label_asked))]
pub fn add_new_label(
    alloc: Global,
    version: u8,
    label: Option<&str>,
    subject: Subject,
    labels: &mut Labels,
    counts: &Counts,
) -> Result<(), Failure>
    ensures met { OnOk result (IsMet counts.now
        (label_asked version (scope_of labels.old.entries) []
        (option_map (λ text. text.now) label.entry)) counts.now) }
    ensures first { IfErr result (IsFirst counts.now
        (label_asked version (scope_of labels.old.entries) []
        (option_map (λ text. text.now) label.entry))) }
    ensures labels { OnOk result (scope_of labels.new.entries
        ≡ with_label (option_map (λ text. text.now) label.entry) subject (scope_of
        labels.old.entries)) }
{
    let Some(name) = label else {
        return Ok(());
    };
    counts.demand(is_name(version, name), Rule::Name(version, NameRule::Label))?;
    let new = insert_label(alloc, name, subject, labels)?;
    counts.demand(new, Rule::NewLabel)?;
    Ok(())
}

/// Makes a label seen, if there is one and it is not seen yet.
pub(crate) fn add_label(
    alloc: Global,
    label: Option<&str>,
    subject: Subject,
    labels: &mut Labels,
) -> Result<(), NoMemory>
    ensures ok { OnOk result (scope_of labels.new.entries
        ≡ with_label (option_map (λ text. text.now) label.entry) subject (scope_of
        labels.old.entries)) }
{
    let Some(name) = label else {
        return Ok(());
    };
    insert_label(alloc, name, subject, labels)?;
    Ok(())
}

/// Makes labels seen after the others, and returns whether none of them was seen before.
pub(crate) fn add_labels(
    alloc: Global,
    added: &Labels,
    labels: &mut Labels,
) -> Result<bool, NoMemory>
    ensures new { IfOk result (λ new. new ≡ true
        → AreUnseen (scope_of added.now.entries) (scope_of labels.old.entries)) }
    ensures ok { OnOk result (scope_of labels.new.entries
        ≡ with_labels (scope_of added.now.entries) (scope_of labels.old.entries)) }
{
    let mut all_new = true;
    for index in 0..added.len() {
        if let Some((name, subject)) = added.get_index(index) {
            all_new &= insert_label(alloc, name.as_str(), *subject, labels)?;
        }
    }
    Ok(all_new)
}

/// Ends a block before which so many labels were seen: those of the block are no longer seen.
pub fn leave_block(labels: &mut Labels, seen: usize)
    ensures { (before : Scope) → Extends before (scope_of labels.old.entries) → length before ≡ seen
        → scope_of labels.new.entries ≡ before }
{
    labels.truncate(seen);
}

/// The number of a label that is seen, and what it is of.
#[tactic(auto, using(crate::proofs::LabelLemmas::all_labels), unfolding(crate::specs::Asked::seen_asked))]
pub fn seen_label(name: &str, labels: &Labels, counts: &Counts) -> Result<(u32, Subject), Failure>
    ensures met { OnOk result (IsMet counts.now (seen_asked (scope_of labels.now.entries) name.now)
        counts.now) }
    ensures first { IfErr result (IsFirst counts.now (seen_asked (scope_of labels.now.entries)
        name.now)) }
    ensures number { IfOk result (λ label. label.0
        ≡ label_number name.now (scope_of labels.now.entries)) }
    ensures subject { IfOk result (λ label. label.1
        ≡ subject_of name.now (scope_of labels.now.entries)) }
{
    match found_label(name, labels) {
        Some(found) => Ok(found),
        None => Err(counts.broken(Rule::SeenLabel)),
    }
}

/// The number of a label and what it is of, if it is seen.
#[tactic(auto, using(crate::proofs::LabelLemmas::all_labels))]
pub fn found_label(name: &str, labels: &Labels) -> Option<(u32, Subject)>
    ensures seen { is_some result ≡ is_named name.now (scope_of labels.now.entries) }
    ensures number { IfSome result (λ label. label.0
        ≡ label_number name.now (scope_of labels.now.entries)) }
    ensures subject { IfSome result (λ label. label.1
        ≡ subject_of name.now (scope_of labels.now.entries)) }
{
    let (number, _, subject) = labels.get_full(name)?;
    Some((fit(number), *subject))
}
