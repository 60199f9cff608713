//! What labels are of, and which tests fit them.
ghost use Rattle.std.specs.Prelude.{◌≡◌};
ghost use Rattle.doc_rules.specs.Subjects.{fits_item, fits_number, fits_word};

use vocabulary::{Verb, Word};

/// What a label is of: the reply to a call, or the outcome of a subaction.
#[derive(Clone, Copy, Debug, Drop)]
pub enum Subject {
    Reply(Verb),
    Outcome,
}

/// Whether what a label is of can have the word.
pub fn fits_word(subject: Subject, word: Word) -> bool
    ensures { result ≡ fits_word subject word }
{
    match subject {
        Subject::Reply(verb) => verb.has_word(word),
        Subject::Outcome => matches!(word, Word::Committed | Word::Aborted),
    }
}

/// Whether what a label is of is a number.
pub fn fits_number(subject: Subject) -> bool
    ensures { result ≡ fits_number subject }
{
    match subject {
        Subject::Reply(verb) => verb.has_number(),
        Subject::Outcome => false,
    }
}

/// Whether what a label is of can have an item.
pub fn fits_item(subject: Subject) -> bool
    ensures { result ≡ fits_item subject }
{
    match subject {
        Subject::Reply(verb) => verb.has_item(),
        Subject::Outcome => false,
    }
}
