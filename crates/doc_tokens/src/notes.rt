//! What is noted of the members of a document, without a tree.
ghost use Rattle.std.specs.Prelude.{◌≡◌, ◌+◌, ℕ, codes, length, None, Some, Ok, IfErr, IfOk, IfSome, OnOk, true};
ghost use Rattle.json.specs.Json as json;
ghost use Rattle.json.specs.Json.{members, value};
ghost use Rattle.serde_json.specs.Data.{Data, Members, no_members, put};
ghost use Rattle.serde_json.specs.Read.{converted, of_json, of_members};
ghost use Rattle.doc_tree.specs.Demand.{check, no_counts};
ghost use Rattle.doc_tree.specs.Places.{fault_in, here};
ghost use Rattle.faults.specs.Faults.{is_of_reading};
ghost use Rattle.doc_tree.specs.Scope.{fit};
ghost use Rattle.doc_tokens.specs.Passed.{AreCounted, AreNoted, AreTimes, IsNoted, noted_asked, noted_count, noted_version, once, seen_as, version_in_notes};
ghost use Rattle.doc_tokens.specs.Pulled.{ReadsMembers, ReadsValue};

use crate::pass::{PassedValue, one_more, pass_from, pass_value};
use doc_rules::{LAST_VERSION, Limits};
use faults::{Fault, Wrong};
use json::{Invalid, Reader, Token};

/// How deep the arrays and objects of a document may nest.
pub const MAX_NESTING: usize = 127;

/// What is seen of the members that a document may have, the last of each name.
#[derive(Clone, Copy, Debug, Drop)]
pub struct Notes {
    /// Whether there is no other member.
    only: bool,
    version: Option<PassedValue>,
    objects: Option<PassedValue>,
    transactions: Option<PassedValue>,
    /// How often `objects` comes; the greatest number stands for more, too.
    pub objects_times: u32,
    /// How often `transactions` comes, likewise.
    pub transactions_times: u32,
}

impl Notes {
    fn none() -> Notes
        ensures noted { IsNoted result no_members }
        ensures times { (result.objects_times ≡ fit 0) × (result.transactions_times ≡ fit 0) }
    {
        Notes {
            only: true,
            version: None,
            objects: None,
            transactions: None,
            objects_times: 0,
            transactions_times: 0,
        }
    }

    /// What is noted once a member has been passed.
    fn with(self, name: &str, seen: PassedValue) -> Notes
        ensures noted { (d : Data) (ms : Members) → seen ≡ seen_as d → IsNoted self ms
            → IsNoted result (put name.now d ms) }
        ensures objects { (k : ℕ) → self.objects_times ≡ fit k
            → result.objects_times ≡ fit (k + once name.now (codes "objects")) }
        ensures transactions { (k : ℕ) → self.transactions_times ≡ fit k
            → result.transactions_times ≡ fit (k + once name.now (codes "transactions")) }
    {
        if name == "ordtx" {
            return Notes {
                version: Some(seen),
                ..self
            };
        }
        if name == "objects" {
            return Notes {
                objects: Some(seen),
                objects_times: one_more(self.objects_times),
                ..self
            };
        }
        if name == "transactions" {
            return Notes {
                transactions: Some(seen),
                transactions_times: one_more(self.transactions_times),
                ..self
            };
        }
        Notes {
            only: false,
            ..self
        }
    }
}

/// The members of an object whose beginning has been read, with its end.
fn note_members(reader: &mut Reader<'_>) -> Result<Notes, Invalid>
    ensures ok { IfOk result (λ notes. (ms : Members)
        × ReadsMembers 126 no_members reader.old ms reader.new × IsNoted notes ms) }
    ensures counted { IfOk result (λ notes. (js : json.Members)
        × (members (value 126) (length reader.old) reader.old ≡ Some (js, reader.new))
        × AreTimes notes js) }
    ensures err { IfErr result (λ _. converted (λ js.
        of_members js no_members) (members (value 126) (length reader.old) reader.old) ≡ None) }
{
    let mut notes = Notes::none();
    'members: while let Some(name) = reader.next_key()? {
        let seen = pass_value(reader, MAX_NESTING - 1)?;
        notes = notes.with(name, seen);
    }
    Ok(notes)
}

/// What is noted of a value, if it is an object.
pub fn note_value(reader: &mut Reader<'_>) -> Result<Option<Notes>, Invalid>
    ensures ok { IfOk result (λ notes. (d : Data)
        × ReadsValue 127 reader.old d reader.new × AreNoted notes d) }
    ensures counted { IfOk result (λ noted. IfSome noted (λ notes. AreCounted notes
        reader.old)) }
    ensures err { IfErr result (λ _. converted of_json (value 127 reader.old) ≡ None) }
{
    let token = reader.next().ok_or(Invalid)?;
    if let Token::BeginObject = token {
        let notes = note_members(reader)?;
        return Ok(Some(notes));
    }
    pass_from(token, reader, MAX_NESTING)?;
    Ok(None)
}

/// The version that is noted, if it is one that there is.
fn version_of(seen: Option<PassedValue>) -> Option<u8>
    ensures { result ≡ noted_version seen }
{
    match seen {
        Some(PassedValue::Whole(version)) if 1 <= version && version <= LAST_VERSION as i64 => {
            Some(version as u8)
        }
        _ => None,
    }
}

/// The version of the noted members, or else the first.
pub fn version_or_first(notes: &Notes) -> u8
    ensures { result ≡ version_in_notes notes.now }
{
    version_of(notes.version).unwrap_or(1)
}

/// How many items are noted, if it is an array.
fn count_of(seen: Option<PassedValue>) -> Option<u32>
    ensures { result ≡ noted_count seen }
{
    match seen {
        Some(PassedValue::List(count)) => Some(count),
        _ => None,
    }
}

/// That the document's shape has no fault, or its first.
pub fn check_notes(notes: &Notes) -> Result<(), Fault>
    ensures met { OnOk result (check no_counts (noted_asked notes.now) ≡ Ok no_counts) }
    ensures fault { IfErr result (λ fault. fault_in (here (check no_counts (noted_asked notes.now)))
        ≡ Some fault) }
    ensures code { IfErr result (λ fault. is_of_reading fault.code ≡ true) }
{
    if !notes.only {
        return Err(Wrong::Shape.outside());
    }
    let Some(version) = version_of(notes.version) else {
        return Err(Wrong::Shape.outside());
    };
    let Some(objects) = count_of(notes.objects) else {
        return Err(Wrong::Shape.outside());
    };
    let Some(transactions) = count_of(notes.transactions) else {
        return Err(Wrong::Shape.outside());
    };
    let limits = Limits::of(version);
    if objects as usize > limits.objects || transactions as usize > limits.transactions {
        return Err(Wrong::TooMany.outside());
    }
    Ok(())
}
