//! Passes over the values of a document without making them.
//!
//! A function `pass_..` takes the next tokens of the reader, each once, and refuses exactly what
//! `serde_json` refuses.
ghost use Rattle.std.specs.Prelude.{◌≡◌, ℕ, ◌+◌, ◌∷◌, length, None, Some, IfErr, IfOk};
ghost use Rattle.json.specs.Json.{items, members, value};
ghost use Rattle.json.specs.Reads.{token_of};
ghost use Rattle.serde_json.specs.Data.{Data, Items, Members, no_members};
ghost use Rattle.serde_json.specs.Events.{items_len};
ghost use Rattle.serde_json.specs.Read.{converted, of_items, of_json, of_members};
ghost use Rattle.doc_tokens.specs.Passed.{seen_as};
ghost use Rattle.doc_tokens.specs.Pulled.{ReadsItems, ReadsMembers, ReadsValue};
ghost use Rattle.doc_tree.specs.Scope.{fit};

use doc_tree::numbers::number_of;
use json::{Invalid, Reader, Token};

/// What is seen of a value that is passed.
#[derive(Clone, Copy, Debug, Drop)]
pub enum PassedValue {
    /// A whole number that fits 64 bits with a sign.
    Whole(i64),
    /// An array of so many items; the greatest number stands for more, too.
    List(u32),
    Other,
}

/// The count with one more, or the greatest number.
pub(crate) fn one_more(count: u32) -> u32
    ensures { (k : ℕ) → count ≡ fit k → result ≡ fit (k + 1) }
{
    if count < 4_294_967_295 {
        count + 1
    } else {
        count
    }
}

#[cycle(pass)]
pub(crate) fn pass_value(reader: &mut Reader<'_>, depth: usize) -> Result<PassedValue, Invalid>
    ensures ok { IfOk result (λ seen. (d : Data)
        × ReadsValue depth reader.old d reader.new × (seen ≡ seen_as d)) }
    ensures err { IfErr result (λ _. converted of_json (value depth reader.old) ≡ None) }
{
    let token = reader.next().ok_or(Invalid)?;
    pass_from(token, reader, depth)
}

/// A value whose first token has been read.
#[cycle(pass)]
pub(crate) fn pass_from(
    token: Token<'_>,
    reader: &mut Reader<'_>,
    depth: usize,
) -> Result<PassedValue, Invalid>
    ensures ok { IfOk result (λ seen. (d : Data)
        × ReadsValue depth (token_of token.entry ∷ reader.old) d reader.new × (seen ≡ seen_as d)) }
    ensures err { IfErr result
        (λ _. converted of_json (value depth (token_of token.entry ∷ reader.old)) ≡ None) }
{
    match token {
        Token::Number(text) => match number_of(text) {
            Some(number) => match number.as_i64() {
                Some(whole) => Ok(PassedValue::Whole(whole)),
                None => Ok(PassedValue::Other),
            },
            None => Err(Invalid),
        },
        Token::String(_) | Token::Bool(_) | Token::Null => Ok(PassedValue::Other),
        Token::EndObject | Token::EndArray | Token::Key(_) | Token::Bad => Err(Invalid),
        Token::BeginArray => {
            if depth == 0 {
                return Err(Invalid);
            }
            Ok(PassedValue::List(pass_items(reader, depth - 1)?))
        }
        Token::BeginObject => {
            if depth == 0 {
                return Err(Invalid);
            }
            pass_members(reader, depth - 1)?;
            Ok(PassedValue::Other)
        }
    }
}

/// The items of an array whose beginning has been read, with its end: how many they are.
#[cycle(pass)]
fn pass_items(reader: &mut Reader<'_>, depth: usize) -> Result<u32, Invalid>
    ensures ok { IfOk result (λ count. (ds : Items)
        × ReadsItems depth reader.old ds reader.new × (count ≡ fit (items_len ds))) }
    ensures err { IfErr result
        (λ _. converted of_items (items (value depth) (length reader.old) reader.old) ≡ None) }
{
    let mut count = 0;
    'items: while !reader.take_end_array() {
        pass_value(reader, depth)?;
        count = one_more(count);
    }
    Ok(count)
}

/// The members of an object whose beginning has been read, with its end.
#[cycle(pass)]
fn pass_members(reader: &mut Reader<'_>, depth: usize) -> Result<(), Invalid>
    ensures ok { IfOk result (λ _. (ms : Members)
        × ReadsMembers depth no_members reader.old ms reader.new) }
    ensures err { IfErr result (λ _. converted (λ js.
        of_members js no_members) (members (value depth) (length reader.old) reader.old) ≡ None) }
{
    'members: while let Some(_) = reader.next_key()? {
        pass_value(reader, depth)?;
    }
    Ok(())
}
