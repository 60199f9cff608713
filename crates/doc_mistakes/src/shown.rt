//! Values and numbers, as they are shown in a line of words.
ghost use Rattle.std.specs.Prelude.{◌≡◌, ◌++◌, IfOk, OnOk, option_map, string_bytes};
ghost use Rattle.json.specs.Print.{quoted};
ghost use Rattle.serde_json.specs.View.{view};
ghost use Rattle.doc_mistakes.specs.Shown.{below_billion, grouped, shown, shown_in, thousands};

use json::Writer;
use serde_json::Value;
use std::alloc::{AllocError, Global};

/// A value on one line: a text in quotes, as JSON. Of a list and an object only what they are.
pub(crate) fn shown(alloc: Global, value: &Value) -> Result<String, AllocError>
    ensures { IfOk result (λ text. string_bytes text ≡ shown (view value.now)) }
{
    match value {
        Value::Number(number) if number.is_f64() => {
            String::from_str(
                alloc,
                "a number that is not written as a whole number of 64 bits",
            )
        }
        Value::Array(_) => String::from_str(alloc, "a list"),
        Value::Object(_) => String::from_str(alloc, "an object"),
        _ => value.to_string(alloc),
    }
}

/// A value as words show it. An absent value is shown as null.
pub(crate) fn shown_in(alloc: Global, found: Option<&Value>) -> Result<String, AllocError>
    ensures { IfOk result (λ text. string_bytes text
        ≡ shown_in (option_map (λ value. view value.now) found.entry)) }
{
    match found {
        Some(value) => shown(alloc, value),
        None => String::from_str(alloc, "null"),
    }
}

/// A text in quotes, as JSON.
#[tactic(auto, using(crate::proofs::Printed::printed_text))]
pub(crate) fn quoted(alloc: Global, text: &str) -> Result<String, AllocError>
    ensures { IfOk result (λ made. string_bytes made ≡ quoted text.now) }
{
    let mut writer = Writer::new(Vec::new(alloc));
    writer.string(text)?;
    match String::from_utf8(writer.into_inner()) {
        Ok(made) => Ok(made),
        Err(_) => unreachable!(),
    }
}

/// Writes a number with a comma before each three digits.
#[tactic(auto, unfolding(crate::specs::Shown::grouped))]
pub(crate) fn write_grouped(out: &mut String, number: u64) -> Result<(), AllocError>
    ensures { OnOk result (string_bytes out.new ≡ string_bytes out.old ++ grouped number) }
{
    if number < 1_000_000_000 {
        write_below_billion(out, number)?;
    } else {
        write_below_billion(out, number / 1_000_000_000)?;
        write_thousands(out, number / 1_000_000)?;
        write_thousands(out, number / 1000)?;
        write_thousands(out, number)?;
    }
    Ok(())
}

#[tactic(auto, unfolding(crate::specs::Shown::below_billion))]
fn write_below_billion(out: &mut String, number: u64) -> Result<(), AllocError>
    ensures { OnOk result (string_bytes out.new ≡ string_bytes out.old ++ below_billion number) }
{
    if number < 1000 {
        write!(out, "{number}")?;
    } else if number < 1_000_000 {
        let first = number / 1000;
        write!(out, "{first}")?;
        write_thousands(out, number)?;
    } else {
        let first = number / 1_000_000;
        write!(out, "{first}")?;
        write_thousands(out, number / 1000)?;
        write_thousands(out, number)?;
    }
    Ok(())
}

// Writes the last three digits, after a comma.
#[tactic(auto, unfolding(crate::specs::Shown::thousands))]
fn write_thousands(out: &mut String, number: u64) -> Result<(), AllocError>
    ensures { OnOk result (string_bytes out.new ≡ string_bytes out.old ++ thousands number) }
{
    let hundreds = number / 100 % 10;
    let tens = number / 10 % 10;
    let ones = number % 10;
    write!(out, ",{hundreds}{tens}{ones}")?;
    Ok(())
}
