//! Reads the test of an `if`.
ghost use Rattle.std.specs.Prelude.{◌≡◌, codes, None, Some, IfErr, IfOk, OnOk};
ghost use Rattle.serde_json.specs.View.{view};
ghost use Rattle.doc_tree.specs.Answer.{IsFirst, IsMet};
ghost use Rattle.doc_tree.specs.Asked.{has_one_test, if_label, if_shape_asked, part, test_asked, tested_word};
ghost use Rattle.doc_tree.specs.Look.{text_member};
ghost use Rattle.doc_tree.specs.Scope.{numbers_of};
ghost use Rattle.doc_tree.specs.Spelled.{item_of, test_of};

use crate::arguments::item_of;
use crate::counts::Counts;
use crate::look::{has, has_only, text_member, whole_member};
use crate::state::Numbering;
use batch::is_name;
use doc_rules::{
    ConditionRule, Failure, Form, NameRule, Rule, ShapeRule, Subject, fits_item, fits_number,
    fits_word,
};
use meaning::Test;
use serde_json::Value;
use std::alloc::Global;
use vocabulary::Word;

/// The parts of an `if`.
#[derive(Clone, Copy, Drop)]
pub(crate) struct IfShape<'v> {
    pub label: &'v str,
    pub then: &'v Value,
}

fn has_one_test(step: &Value) -> bool
    ensures { result ≡ has_one_test (view step.now) }
{
    let is = has(step, "is");
    let at_least = has(step, "atleast");
    let item = has(step, "item");
    matches!(
        (is, at_least, item),
        (true, false, false) | (false, true, false) | (false, false, true)
    )
}

#[tactic(auto, unfolding(crate::specs::Asked::if_shape_asked))]
pub(crate) fn if_shape_of<'v>(step: &'v Value, counts: &Counts) -> Result<IfShape<'v>, Failure>
    ensures met { OnOk result (IsMet counts.now (if_shape_asked (view step.now)) counts.now) }
    ensures first { IfErr result (IsFirst counts.now (if_shape_asked (view step.now))) }
    ensures label { IfOk result (λ shape. shape.label.now ≡ if_label (view step.now)) }
    ensures then { IfOk result (λ shape. view shape.then.now
        ≡ part (codes "then") (view step.now)) }
{
    let form = Form::If;
    counts.demand(
        has_only(step, form.members()),
        Rule::Shape(ShapeRule::Members(form)),
    )?;
    counts.demand(has_one_test(step), Rule::Shape(ShapeRule::Test))?;
    let Some(label) = text_member(step, "if") else {
        return Err(counts.broken(Rule::Shape(ShapeRule::TestedLabel)));
    };
    let Some(then) = step.get("then") else {
        return Err(counts.broken(Rule::Shape(ShapeRule::Then)));
    };
    Ok(IfShape { label, then })
}

/// The word that a test asks for, where its label can have it.
fn tested_word(subject: Subject, step: &Value) -> Option<Word>
    ensures { result ≡ tested_word subject (view step.now) }
{
    let word = Word::of_text(text_member(step, "is")?)?;
    if fits_word(subject, word) {
        Some(word)
    } else {
        None
    }
}

/// The test of an `if`, against what its label is of.
#[tactic(auto, unfolding(crate::specs::Asked::test_asked, crate::specs::Spelled::test_of))]
pub(crate) fn read_test(
    alloc: Global,
    version: u8,
    subject: Subject,
    step: &Value,
    counts: &Counts,
    numbering: &mut Numbering,
) -> Result<Test, Failure>
    ensures met { OnOk result (IsMet counts.now (test_asked version subject (view step.now))
        counts.now) }
    ensures first { IfErr result (IsFirst counts.now (test_asked version subject (view step.now))) }
    ensures value { IfOk result (λ test. (test, numbers_of numbering.new)
        ≡ test_of subject (numbers_of numbering.old) (view step.now)) }
{
    if has(step, "is") {
        let Some(word) = tested_word(subject, step) else {
            return Err(counts.broken(Rule::Condition(ConditionRule::Word(subject))));
        };
        return Ok(Test::Is(word));
    }
    if has(step, "atleast") {
        counts.demand(
            fits_number(subject),
            Rule::Condition(ConditionRule::Number(subject)),
        )?;
        let Some(least) = whole_member(step, "atleast") else {
            return Err(counts.broken(Rule::Condition(ConditionRule::AtLeast)));
        };
        return Ok(Test::AtLeast(least));
    }
    counts.demand(
        fits_item(subject),
        Rule::Condition(ConditionRule::HasItem(subject)),
    )?;
    let Some(name) = text_member(step, "item") else {
        return Err(counts.broken(Rule::Condition(ConditionRule::TestedItem)));
    };
    counts.demand(
        is_name(version, name),
        Rule::Name(version, NameRule::TestedItem),
    )?;
    let item = item_of(alloc, name, numbering)?;
    Ok(Test::IsItem(item))
}
