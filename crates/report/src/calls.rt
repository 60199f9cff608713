//! Writes calls and replies.
ghost use Rattle.std.specs.Prelude.{◌≡◌, ◌++◌, ◌<◌, OnOk, codes, string_bytes};
ghost use Rattle.std.specs.Fmt.{decimal, signed_decimal};
ghost use Rattle.meaning.specs.Words.{call_text, reply_text, response_text};
ghost use Rattle.vocabulary.specs.Words.{verb_text};
ghost use Rattle.batch.specs.Names.{names_of};

use crate::names::item_name;
use atoms::{Amount, Item};
use batch::Names;
use objects::{Call, Reply};
use serial::NoMemory;
use vocabulary::{Phrase, Response, Verb, phrase_of, response_of};

/// Writes the words of a call.
pub fn write_call(out: &mut String, names: &Names, call: &Call) -> Result<(), NoMemory>
    ensures { OnOk result (string_bytes out.new ≡ string_bytes out.old
        ++ call_text (names_of names.now) call.now) }
{
    match phrase_of(call) {
        Phrase::OfAmount(verb, amount) => write_amount(out, Verb::OfAmount(verb), amount),
        Phrase::OfItem(verb, item) => {
            write_word(out, Verb::OfItem(verb).text())?;
            write_item(out, names, item)
        }
        Phrase::OfPair(verb, key, item) => {
            write_word(out, Verb::OfPair(verb).text())?;
            write_item(out, names, key)?;
            write_item(out, names, item)
        }
        Phrase::Alone(verb) => write_word(out, Verb::Alone(verb).text()),
    }
}

/// Writes the words of a reply.
pub fn write_reply(out: &mut String, names: &Names, reply: &Reply) -> Result<(), NoMemory>
    ensures { OnOk result (string_bytes out.new ≡ string_bytes out.old
        ++ reply_text (names_of names.now) reply.now) }
{
    write_response(out, names, response_of(reply))
}

/// Writes a reply as it is said.
pub(crate) fn write_response(
    out: &mut String,
    names: &Names,
    response: Response,
) -> Result<(), NoMemory>
    ensures { OnOk result (string_bytes out.new ≡ string_bytes out.old
        ++ response_text (names_of names.now) response) }
{
    match response {
        Response::Word(word) => write_word(out, word.text()),
        Response::WithItem(word, item) => {
            write_word(out, word.text())?;
            write_item(out, names, item)
        }
        Response::Number(number) => write_natural(out, number),
        Response::Signed(number) => write_integer(out, number),
    }
}

/// Writes a number of at least 0. A short one costs less digit by digit.
pub(crate) fn write_natural(out: &mut String, number: u64) -> Result<(), NoMemory>
    ensures { OnOk result (string_bytes out.new ≡ string_bytes out.old ++ decimal number) }
{
    if number < 10 {
        return write_digit(out, number as u8);
    }
    if number < 100 {
        write_digit(out, (number / 10) as u8)?;
        write_digit(out, (number % 10) as u8)?;
        return Ok(());
    }
    write!(out, "{number}")?;
    Ok(())
}

// Writes a number of one digit.
#[tactic(auto, using(std::proofs::lemmas::Fmt::decimal_digit))]
fn write_digit(out: &mut String, digit: u8) -> Result<(), NoMemory>
    requires { digit < 10 }
    ensures { OnOk result (string_bytes out.new ≡ string_bytes out.old ++ decimal digit) }
{
    out.push((b'0' + digit) as char)?;
    Ok(())
}

// Writes a number that may be below 0.
fn write_integer(out: &mut String, number: i64) -> Result<(), NoMemory>
    ensures { OnOk result (string_bytes out.new ≡ string_bytes out.old ++ signed_decimal number) }
{
    write!(out, "{number}")?;
    Ok(())
}

fn write_word(out: &mut String, word: &str) -> Result<(), NoMemory>
    ensures { OnOk result (string_bytes out.new ≡ string_bytes out.old ++ word.now) }
{
    out.push_str(word)?;
    Ok(())
}

fn write_amount(out: &mut String, verb: Verb, amount: Amount) -> Result<(), NoMemory>
    ensures { OnOk result (string_bytes out.new ≡ string_bytes out.old ++ verb_text verb
        ++ codes " " ++ decimal amount.value) }
{
    out.push_str(verb.text())?;
    out.push(' ')?;
    write_natural(out, amount.get())
}

// The name of an item, after a space.
fn write_item(out: &mut String, names: &Names, item: Item) -> Result<(), NoMemory>
    ensures { OnOk result (string_bytes out.new ≡ string_bytes out.old ++ codes " "
        ++ (names_of names.now).item item) }
{
    out.push(' ')?;
    out.push_str(item_name(names, item))?;
    Ok(())
}
