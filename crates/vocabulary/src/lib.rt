//! The words of the language: those of kinds, of calls and of replies, each said once.
//!
//! Documents are read by these words (`lang`), and reports are written with them (`report`). A
//! [`Verb`] is a call without its arguments, and a [`Phrase`] a call as it is said. A [`Word`] is
//! the first part of a reply, and a [`Response`] a reply as it is said. A word that came later than
//! the first version of documents has the number of its version.
#![tactic(auto)]

mod kind;
mod response;
mod verb;
mod word;

pub use kind::{KINDS, a_kind, kind_of_text, kind_text};
pub use response::{Response, response_of};
pub use verb::{AmountVerb, ItemVerb, LoneVerb, PairVerb, Phrase, Verb, phrase_of, verbs_of};
pub use word::Word;
