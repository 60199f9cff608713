//! Reads reasons, which have numbers in the order in which they appear.
ghost use Rattle.std.specs.Prelude.{◌≡◌, ◌≢◌, option_map, true, false, IfErr, IfOk, OnOk};
ghost use Rattle.batch.specs.Names.{is_name, texts_of};
ghost use Rattle.doc_tree.specs.Answer.{IsFirst, IsMet};
ghost use Rattle.doc_tree.specs.Asked.{reason_asked};
ghost use Rattle.doc_tree.specs.Demand.{broken_at};
ghost use Rattle.doc_tree.specs.Scope.{number_of, numbers_of, scope_of, with_text};
ghost use Rattle.doc_tree.specs.Spelled.{reason_of};

use crate::counts::Counts;
use crate::hashing::TextSet;
use crate::state::{ReaderState, number_of};
use batch::is_name;
use doc_rules::{Failure, NameRule, Rule};
use std::alloc::Global;

/// The number of a reason, which by a rule is a name, and joins the others if it is new.
pub fn reason_number(
    alloc: Global,
    reason: &str,
    version: u8,
    rule: NameRule,
    counts: &Counts,
    reasons: &mut TextSet,
) -> Result<u32, Failure>
    ensures met { OnOk result (is_name version reason.now ≡ true) }
    ensures first { IfErr result (λ failure. failure ≢ Failure.NoMemory
        → (is_name version reason.now ≡ false)
        × (failure ≡ broken_at (Rule.Name version rule) counts.now)) }
    ensures number { IfOk result (λ number. number
        ≡ number_of reason.now (texts_of reasons.old.keys)) }
    ensures table { OnOk result (texts_of reasons.new.keys
        ≡ with_text reason.now (texts_of reasons.old.keys)) }
{
    counts.demand(is_name(version, reason), Rule::Name(version, rule))?;
    let number = number_of(alloc, reasons, reason)?;
    Ok(number)
}

/// The reason's number, where there is a reason: it has to be a name, by this rule.
#[tactic(auto, unfolding(crate::specs::Asked::reason_asked, crate::specs::Spelled::reason_of))]
pub fn read_reason(
    alloc: Global,
    reason: Option<&str>,
    version: u8,
    rule: NameRule,
    state: &mut ReaderState,
) -> Result<Option<u32>, Failure>
    ensures met { OnOk result (IsMet state.old.counts
        (reason_asked version rule (option_map (λ text. text.now) reason.entry))
        state.new.counts) }
    ensures first { IfErr result (IsFirst state.old.counts
        (reason_asked version rule (option_map (λ text. text.now) reason.entry))) }
    ensures value { IfOk result (λ number. (number, numbers_of state.new.numbering)
        ≡ reason_of (numbers_of state.old.numbering) (option_map (λ text. text.now) reason.entry)) }
    ensures labels { OnOk result (scope_of state.new.labels.entries
        ≡ scope_of state.old.labels.entries) }
{
    let Some(name) = reason else {
        return Ok(None);
    };
    let reasons = &mut state.numbering.reasons;
    let number = reason_number(alloc, name, version, rule, &state.counts, reasons)?;
    Ok(Some(number))
}
