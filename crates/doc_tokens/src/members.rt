//! Passes over the members of a document to the last one of a name.
ghost use Rattle.std.specs.Prelude.{◌≡◌, List, Some, IfErr, IfOk};
ghost use Rattle.json.specs.Token as token;
ghost use Rattle.serde_json.specs.Data.{Data, Items, Members, array, no_members};
ghost use Rattle.serde_json.specs.Find.{get_member};
ghost use Rattle.doc_tokens.specs.Passed.{HasLeft, HasMembers};
ghost use Rattle.doc_tokens.specs.Pulled.{WritesItems, WritesValue};

use crate::notes::MAX_NESTING;
use crate::pass::pass_value;
use json::{Invalid, Reader, Token};

/// Passes to the value of the last member of a name, which comes so often among the members that
/// are left of an object.
fn pass_to_last(reader: &mut Reader<'_>, name: &str, times: u32) -> Result<(), Invalid>
    ensures ok { IfOk result (λ _. (ms : Members) (v : Data) → HasLeft name.now times no_members
        reader.old ms → get_member name.now ms ≡ Some v → WritesValue 126 reader.new v) }
    ensures err { IfErr result (λ _. (ms : Members) (v : Data) → HasLeft name.now times no_members
        reader.old ms → get_member name.now ms ≡ Some v → ⊥) }
{
    let mut left = times;
    'members: while let Some(key) = reader.next_key()? {
        if key == name {
            if left <= 1 {
                return Ok(());
            }
            left -= 1;
        }
        pass_value(reader, MAX_NESTING - 1)?;
    }
    Err(Invalid)
}

/// Passes to the items of the array that the last member of a name is, which comes so often in the
/// object that begins here.
pub fn pass_to_list(reader: &mut Reader<'_>, name: &str, times: u32) -> Result<(), Invalid>
    ensures ok { IfOk result (λ _. (ms : Members) (ds : Items) → HasMembers name.now times
        reader.old ms → get_member name.now ms ≡ Some (array ds) → (rest : List token.Token)
        × WritesItems 125 reader.new ds rest) }
    ensures err { IfErr result (λ _. (ms : Members) (ds : Items) → HasMembers name.now times
        reader.old ms → get_member name.now ms ≡ Some (array ds) → ⊥) }
{
    let token = reader.next().ok_or(Invalid)?;
    let Token::BeginObject = token else {
        return Err(Invalid);
    };
    pass_to_last(reader, name, times)?;
    let first = reader.next().ok_or(Invalid)?;
    match first {
        Token::BeginArray => Ok(()),
        _ => Err(Invalid),
    }
}
