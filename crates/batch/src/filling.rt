//! Calls whose arguments come from what labels hold, and what a refused call does.
ghost use Rattle.std.specs.Prelude.{◌≡◌, pos};
ghost use Rattle.std.specs.Option.{option_and_then};
ghost use Rattle.meaning.specs.Amounts.{number_amount};
ghost use Rattle.meaning.specs.Filling.{amount_from, end_after, fill, is_refusal, item_from, item_of, reason_for, reply_at_label};
ghost use Rattle.meaning.specs.Labels.{reply_number};

use atoms::{Amount, Item};
use meaning::{Argument, End, Held, Refusal, Template};
use objects::{Call, Reply};
use vocabulary::{Response, response_of};

/// The call with what these labels hold. None where a reply has no such argument.
pub fn fill(template: &Template, labels: &[Held]) -> Option<Call>
    ensures { result ≡ fill labels.now template.now }
{
    match *template {
        Template::Given(call) => Some(call),
        Template::OfAmount(verb, label) => match amount_from(labels, label) {
            Some(amount) => Some(verb.call(amount)),
            None => None,
        },
        Template::OfItem(verb, label) => match item_from(labels, label) {
            Some(item) => Some(verb.call(item)),
            None => None,
        },
        Template::OfPair(verb, key, item) => match (item_of(labels, key), item_of(labels, item)) {
            (Some(key), Some(item)) => Some(verb.call(key, item)),
            _ => None,
        },
    }
}

fn amount_from(labels: &[Held], label: u32) -> Option<Amount>
    ensures { result ≡ amount_from labels.now label }
{
    match reply_at(labels, label) {
        Some(reply) => reply_amount(&reply),
        None => None,
    }
}

fn item_from(labels: &[Held], label: u32) -> Option<Item>
    ensures { result ≡ item_from labels.now label }
{
    match reply_at(labels, label) {
        Some(reply) => response_of(&reply).item(),
        None => None,
    }
}

fn item_of(labels: &[Held], argument: Argument) -> Option<Item>
    ensures { result ≡ item_of labels.now argument }
{
    match argument {
        Argument::Is(item) => Some(item),
        Argument::From(label) => item_from(labels, label),
    }
}

// The reply that the label at this place holds.
fn reply_at(labels: &[Held], label: u32) -> Option<Reply>
    ensures { result ≡ reply_at_label labels.now label }
{
    match labels.get(label as usize) {
        Some(Held::Replied(reply)) => Some(*reply),
        _ => None,
    }
}

// The amount that the reply is, if it is one.
fn reply_amount(reply: &Reply) -> Option<Amount>
    ensures { result ≡ option_and_then number_amount (reply_number reply.now) }
{
    match response_of(reply) {
        Response::Number(number) => whole_amount(number),
        Response::Signed(number) => signed_amount(number),
        Response::Word(_) | Response::WithItem(..) => None,
    }
}

fn whole_amount(number: u64) -> Option<Amount>
    ensures { result ≡ number_amount (pos number) }
{
    Amount::new(number)
}

fn signed_amount(number: i64) -> Option<Amount>
    ensures { result ≡ number_amount number }
{
    match u64::try_from(number) {
        Ok(number) => whole_amount(number),
        Err(_) => None,
    }
}

// ---- refusals

/// The reason for which a step aborts where its call can't be made.
pub fn reason_for(refusal: Refusal) -> Option<u32>
    ensures { result ≡ reason_for refusal }
{
    match refusal {
        Refusal::GoesOn => None,
        Refusal::Aborts(reason) => reason,
    }
}

/// How a step ends after this reply: a refusal may abort it.
pub fn end_after(refusal: Refusal, reply: &Reply) -> End
    ensures { result ≡ end_after refusal reply.now }
{
    match refusal {
        Refusal::Aborts(reason) if is_refusal(reply) => End::Aborted(reason),
        _ => End::Ended,
    }
}

fn is_refusal(reply: &Reply) -> bool
    ensures { result ≡ is_refusal reply.now }
{
    match response_of(reply).word() {
        Some(word) => word.refuses(),
        None => false,
    }
}
