//! The rules of the language of documents, each named once: what is asked of a part, which fault
//! it is where the rule isn't kept, and how much a document of a version may have.
//!
//! `doc_tree` says where each is asked, and `doc_mistakes` has words for it.
#![tactic(auto)]

mod failure;
mod form;
mod limits;
mod pointer;
mod rule;
mod subject;

pub use failure::Failure;
pub use form::Form;
pub use limits::{LAST_VERSION, Limits, MAX_BYTES};
pub use pointer::pointer_token;
pub use rule::{
    ArgumentRule, ConditionRule, CountRule, NameRule, OperandPlace, Rule, ShapeRule, SourceRule,
    StartRule,
};
pub use subject::{Subject, fits_item, fits_number, fits_word};
