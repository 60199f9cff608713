//! Labels: adding what a step's label holds, and testing it.
ghost use Rattle.std.specs.Prelude.{◌≡◌, ◌==◌, ◌++◌, pos, IsTrue, OnOk, OnErr};
ghost use Rattle.std.specs.Int.RustNames.{int_le};
ghost use Rattle.meaning.specs.Labels.{holds_of, if_there, is_word_of, is_outcome, reply_number};
ghost use Rattle.meaning.specs.OneThread.{label_if};

use meaning::{End, Held, Test};
use objects::Reply;
use serial::NoMemory;
use vocabulary::{Response, Word, response_of};

/// Adds what the label of a step holds, where the step has one. A step without a label takes no
/// memory. On `NoMemory` the labels are as before.
pub fn add_label(labels: &mut Vec<Held>, labelled: bool, held: Held) -> Result<(), NoMemory>
    ensures ok { OnOk result (labels.new.items ≡ labels.old.items ++ label_if labelled held) }
    ensures err { OnErr result (labels.new.items ≡ labels.old.items) }
    ensures refused { OnErr result (IsTrue labelled) }
{
    if labelled {
        labels.push(held)?;
    }
    Ok(())
}

/// Whether the test holds of what a label holds.
pub fn test_holds(test: &Test, held: &Held) -> bool
    ensures { result ≡ holds_of test.now held.now }
{
    match (test, held) {
        (Test::Is(word), Held::Replied(reply)) => is_word_of(*word, reply),
        (Test::Is(word), Held::Outcome(outcome)) => is_outcome(*word, outcome),
        (Test::AtLeast(least), Held::Replied(reply)) => has_at_least(*least, reply),
        (Test::IsItem(item), Held::Replied(reply)) => match response_of(reply).item() {
            Some(found) => found.0 == item.0,
            None => false,
        },
        _ => false,
    }
}

// Whether the word is the first part of the reply.
fn is_word_of(word: Word, reply: &Reply) -> bool
    ensures { result ≡ is_word_of word reply.now }
{
    match response_of(reply).word() {
        Some(first) => first == word,
        None => false,
    }
}

fn is_outcome(word: Word, outcome: &End) -> bool
    ensures { result ≡ is_outcome word outcome.now }
{
    match outcome {
        End::Ended => matches!(word, Word::Committed),
        End::Aborted(_) => matches!(word, Word::Aborted),
    }
}

// Whether the reply is a number of at least this size.
fn has_at_least(least: i64, reply: &Reply) -> bool
    ensures { result ≡ if_there (reply_number reply.now) (int_le least) }
{
    match response_of(reply) {
        Response::Number(number) => reaches(number, least),
        Response::Signed(number) => least <= number,
        Response::Word(_) | Response::WithItem(..) => false,
    }
}

fn reaches(number: u64, least: i64) -> bool
    ensures { result ≡ int_le least (pos number) }
{
    match u64::try_from(least) {
        Ok(least) => least <= number,
        Err(_) => true,
    }
}
