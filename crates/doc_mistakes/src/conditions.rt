//! What is said of the test of an `if`.
#![tactic(auto, using(crate::proofs::Joins::joins))]

ghost use Rattle.std.specs.Prelude.{◌≡◌, ◌++◌, OnOk, string_bytes};
ghost use Rattle.serde_json.specs.View.{view};
ghost use Rattle.doc_mistakes.specs.Words.{no_word, word_said};

use crate::parts::is_text;
use crate::phrases::{write_around, write_wanting};
use doc_rules::Subject;
use serde_json::Value;
use std::alloc::{AllocError, Global};

/// Writes why what a label is of can't have the word.
#[tactic(auto, unfolding(crate::specs::Words::word_said))]
pub(crate) fn write_word(
    alloc: Global,
    out: &mut String,
    subject: Subject,
    part: &Value,
) -> Result<(), AllocError>
    ensures { OnOk result (string_bytes out.new ≡ string_bytes out.old
        ++ word_said subject (view part.now)) }
{
    let found = part.get("is");
    if is_text(found) {
        write_around(alloc, out, "", found, "")?;
        write_no_word(out, subject)
    } else {
        write_wanting(alloc, out, "is", "a text", part)
    }
}

fn write_no_word(out: &mut String, subject: Subject) -> Result<(), AllocError>
    ensures { OnOk result (string_bytes out.new ≡ string_bytes out.old ++ no_word subject) }
{
    match subject {
        Subject::Reply(verb) => {
            let verb = verb.text();
            write!(out, " is no word of a reply of \"{verb}\"")?;
        }
        Subject::Outcome => out.push_str(" is no outcome: \"committed\" and \"aborted\" are")?,
    }
    Ok(())
}
