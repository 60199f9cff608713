//! Gives the items and the reasons of a block other numbers.
ghost use Rattle.std.specs.Prelude.{◌≡◌, [], map, option_map, true};
ghost use Rattle.batch.specs.Views.{block_view, filling_view, handler_view, otherwise_view, step_view, subaction_view};
ghost use Rattle.doc_merge.specs.Renumbered.{new_number, numbered_item, renumbered, renumbered_argument, renumbered_call, renumbered_handlers, renumbered_member, renumbered_refusal, renumbered_step, renumbered_template, renumbered_test, renumbered_tried};

use atoms::Item;
use batch::{Block, Filling, Handler, Otherwise, Step, Subaction};
use meaning::{Argument, Refusal, Template, Test};
use objects::Call;
use std::mem::replace;
use vocabulary::{Phrase, phrase_of};

/// The new numbers of items and of reasons, by those that they had. One that isn't listed stays.
#[derive(Drop)]
pub struct NewNumbers {
    pub items: Vec<u32>,
    pub reasons: Vec<u32>,
}

impl NewNumbers {
    /// Whether none is listed, so that all stay.
    pub(crate) fn are_none(&self) -> bool
        ensures items { result ≡ true → self.now.items.items ≡ [] }
        ensures reasons { result ≡ true → self.now.reasons.items ≡ [] }
    {
        self.items.is_empty() && self.reasons.is_empty()
    }
}

fn new_number(numbers: &[u32], number: u32) -> u32
    ensures { result ≡ new_number numbers.now number }
{
    match numbers.get(number as usize) {
        Some(new) => *new,
        None => number,
    }
}

fn new_item(numbers: &NewNumbers, item: Item) -> Item
    ensures { result ≡ numbered_item (new_number numbers.now.items.items) item }
{
    Item(new_number(&numbers.items, item.0))
}

fn renumbered_call(numbers: &NewNumbers, call: Call) -> Call
    ensures { result ≡ renumbered_call (new_number numbers.now.items.items) call }
{
    match phrase_of(&call) {
        Phrase::OfAmount(..) | Phrase::Alone(_) => call,
        Phrase::OfItem(verb, item) => verb.call(new_item(numbers, item)),
        Phrase::OfPair(verb, key, item) => {
            verb.call(new_item(numbers, key), new_item(numbers, item))
        }
    }
}

fn renumbered_test(numbers: &NewNumbers, test: Test) -> Test
    ensures { result ≡ renumbered_test (new_number numbers.now.items.items) test }
{
    match test {
        Test::IsItem(item) => Test::IsItem(new_item(numbers, item)),
        Test::Is(_) | Test::AtLeast(_) => test,
    }
}

fn renumbered_reason(numbers: &NewNumbers, reason: Option<u32>) -> Option<u32>
    ensures { result ≡ option_map (new_number numbers.now.reasons.items) reason }
{
    match reason {
        Some(number) => Some(new_number(&numbers.reasons, number)),
        None => None,
    }
}

fn renumbered_argument(numbers: &NewNumbers, argument: Argument) -> Argument
    ensures { result ≡ renumbered_argument (new_number numbers.now.items.items) argument }
{
    match argument {
        Argument::Is(item) => Argument::Is(new_item(numbers, item)),
        Argument::From(_) => argument,
    }
}

fn renumbered_template(numbers: &NewNumbers, template: Template) -> Template
    ensures { result ≡ renumbered_template (new_number numbers.now.items.items) template }
{
    match template {
        Template::Given(call) => Template::Given(renumbered_call(numbers, call)),
        Template::OfAmount(..) | Template::OfItem(..) => template,
        Template::OfPair(verb, key, item) => {
            let key = renumbered_argument(numbers, key);
            Template::OfPair(verb, key, renumbered_argument(numbers, item))
        }
    }
}

fn renumbered_refusal(numbers: &NewNumbers, refusal: Refusal) -> Refusal
    ensures { result ≡ renumbered_refusal (new_number numbers.now.reasons.items) refusal }
{
    match refusal {
        Refusal::GoesOn => Refusal::GoesOn,
        Refusal::Aborts(reason) => Refusal::Aborts(renumbered_reason(numbers, reason)),
    }
}

fn renumber_filling(numbers: &NewNumbers, filling: &mut Filling)
    ensures { filling_view filling.new ≡ renumbered_step (new_number numbers.now.items.items)
        (new_number numbers.now.reasons.items) (filling_view filling.old) }
{
    filling.template = renumbered_template(numbers, filling.template);
    filling.refusal = renumbered_refusal(numbers, filling.refusal);
}

/// Gives each item and each reason in the block its new number.
#[cycle(renumber)]
pub fn renumber_block(numbers: &NewNumbers, block: &mut Block)
    ensures { block_view block.new ≡ renumbered (new_number numbers.now.items.items)
        (new_number numbers.now.reasons.items) (block_view block.old) }
{
    renumber_steps(numbers, &mut block.steps);
}

#[cycle(renumber)]
fn renumber_steps(numbers: &NewNumbers, steps: &mut Vec<Step>)
    ensures { map step_view steps.new.items ≡ map (renumbered_step
        (new_number numbers.now.items.items) (new_number numbers.now.reasons.items))
        (map step_view steps.old.items) }
{
    for place in 0..steps.len() {
        renumber_step(numbers, &mut steps[place]);
    }
}

#[cycle(renumber)]
fn renumber_step(numbers: &NewNumbers, step: &mut Step)
    ensures { step_view step.new ≡ renumbered_step (new_number numbers.now.items.items)
        (new_number numbers.now.reasons.items) (step_view step.old) }
{
    *step = match replace(step, Step::Abort(None)) {
        Step::Op {
            object,
            call,
            labelled,
        } => Step::Op {
            object,
            call: renumbered_call(numbers, call),
            labelled,
        },
        Step::Fill(mut filling) => {
            renumber_filling(numbers, &mut filling);
            Step::Fill(filling)
        }
        Step::If {
            label,
            test,
            mut then,
            mut otherwise,
        } => {
            renumber_block(numbers, &mut then);
            renumber_block(numbers, &mut otherwise);
            Step::If {
                label,
                test: renumbered_test(numbers, test),
                then,
                otherwise,
            }
        }
        Step::Sub(mut child) => {
            renumber_subaction(numbers, &mut child);
            Step::Sub(child)
        }
        Step::Abort(reason) => Step::Abort(renumbered_reason(numbers, reason)),
        Step::Parallel(mut children) => {
            renumber_children(numbers, &mut children);
            Step::Parallel(children)
        }
    };
}

#[cycle(renumber)]
fn renumber_children(numbers: &NewNumbers, children: &mut Vec<Subaction>)
    ensures { map subaction_view children.new.items ≡ map (renumbered_tried
        (new_number numbers.now.items.items) (new_number numbers.now.reasons.items))
        (map subaction_view children.old.items) }
{
    for place in 0..children.len() {
        renumber_subaction(numbers, &mut children[place]);
    }
}

#[cycle(renumber)]
fn renumber_subaction(numbers: &NewNumbers, child: &mut Subaction)
    ensures { subaction_view child.new ≡ renumbered_tried (new_number numbers.now.items.items)
        (new_number numbers.now.reasons.items) (subaction_view child.old) }
{
    renumber_block(numbers, &mut child.body);
    renumber_handlers(numbers, &mut child.handlers);
    renumber_otherwise(numbers, &mut child.otherwise);
}

#[cycle(renumber)]
fn renumber_handlers(numbers: &NewNumbers, handlers: &mut Vec<Handler>)
    ensures { map handler_view handlers.new.items ≡ map (renumbered_member
        (new_number numbers.now.items.items) (new_number numbers.now.reasons.items))
        (map handler_view handlers.old.items) }
{
    for place in 0..handlers.len() {
        renumber_handler(numbers, &mut handlers[place]);
    }
}

#[cycle(renumber)]
fn renumber_handler(numbers: &NewNumbers, handler: &mut Handler)
    ensures { handler_view handler.new ≡ renumbered_member (new_number numbers.now.items.items)
        (new_number numbers.now.reasons.items) (handler_view handler.old) }
{
    handler.reason = new_number(&numbers.reasons, handler.reason);
    renumber_block(numbers, &mut handler.block);
}

#[cycle(renumber)]
fn renumber_otherwise(numbers: &NewNumbers, otherwise: &mut Otherwise)
    ensures { otherwise_view otherwise.new ≡ renumbered_handlers
        (new_number numbers.now.items.items) (new_number numbers.now.reasons.items)
        (otherwise_view otherwise.old) }
{
    match replace(otherwise, Otherwise::Pass) {
        Otherwise::Run(mut block) => {
            renumber_block(numbers, &mut block);
            *otherwise = Otherwise::Run(block);
        }
        Otherwise::GoOn => *otherwise = Otherwise::GoOn,
        Otherwise::Pass => {}
    }
}
