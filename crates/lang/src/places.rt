//! Where a document's first fault is, and what it is in words.
ghost use Rattle.std.specs.Prelude.{◌≡◌, None, Some, Err, IfErr, IfOk, OnOk, string_bytes};
ghost use Rattle.serde_json.specs.View.{view};
ghost use Rattle.faults.specs.Faults.{memory_fault};
ghost use Rattle.serde_json.specs.Data.{Data, null};
ghost use Rattle.doc_rules.specs.declared.rule.CountRule.TheVariants.{Bytes};
ghost use Rattle.doc_rules.specs.declared.rule.Rule.TheVariants.{Few};
ghost use Rattle.doc_mistakes.specs.Words.{IsSaid};
ghost use Rattle.doc_tree.specs.Answer.{IsFirst, IsMet};
ghost use Rattle.doc_tree.specs.Asked.{document_shape_asked, version_of};
ghost use Rattle.doc_tree.specs.Demand.{no_counts};
ghost use Rattle.doc_tree.specs.Places.{first_fault, placed};
ghost use Rattle.lang.specs.Found.{IsMistake, IsShort, IsToldAt, Shows};
ghost use Rattle.lang.specs.declared.places.Place.TheVariants.{Whole};
ghost use Rattle.lang.specs.Reading.{reading, value_of};

use crate::document::{misread_singly, too_long_for, utf8_of};
use crate::misread::{Misread, misread_of};
use crate::positions::{Position, position_of};
use doc_mistakes::{place_within, words};
use doc_rules::{CountRule, Failure, Form, LAST_VERSION, Limits, MAX_BYTES, Rule, ShapeRule};
use doc_tree::counts::Counts;
use doc_tree::look::{has_only, list_member, whole_member};
use doc_tree::unmet::Unmet;
use faults::{Code, Fault};
use serde_json::Value;
use std::alloc::{AllocError, Global};

/// Where a document's first fault is.
#[derive(Debug, Drop)]
pub enum Place {
    /// It is of the whole document.
    Whole,
    /// It is of the part to which this JSON Pointer (RFC 6901) leads, and which begins here.
    Pointer(String, Position),
    /// The bytes are no JSON here.
    LineColumn(Position),
}

/// What is wrong with a document first: where, and in words, as `no label "w" is seen here`.
#[derive(Debug, Drop)]
pub struct Mistake {
    pub place: Place,
    /// Without a line's end.
    pub words: String,
}

/// The place and the words of the fault that [`read`](crate::read) returns for these bytes.
///
/// `Memory` is returned where a request for memory was refused.
pub fn locate(alloc: Global, bytes: &[u8], fault: Fault) -> Result<Mistake, Fault>
    requires { reading bytes.now ≡ Err fault }
    ensures mistake { IfOk result (λ mistake. IsMistake bytes.now fault mistake.place
        (string_bytes mistake.words)) }
    ensures err { IfErr result (λ refused. refused ≡ memory_fault) }
{
    if bytes.len() > MAX_BYTES {
        return Ok(too_long(alloc, LAST_VERSION)?);
    }
    if let Some(version) = too_long_for(alloc, bytes)? {
        return Ok(too_long(alloc, version)?);
    }
    if let Some(misread) = misread_singly(alloc, bytes)? {
        let mistake = mistake_of(alloc, bytes, &misread)?;
        return Ok(mistake);
    }
    locate_in_tree(alloc, bytes, fault)
}

fn version_of(value: &Value) -> Option<u8>
    ensures { result ≡ version_of (view value.now) }
{
    match whole_member(value, "ordtx") {
        Some(version) if 1 <= version && version <= LAST_VERSION as i64 => Some(version as u8),
        _ => None,
    }
}

/// That a value has the shape of a document, or the first rule that it doesn't keep.
#[tactic(auto, using(doc_tree::proofs::Members::array_sizes), unfolding(doc_tree::specs::Asked::document_shape_asked))]
fn check_shape(value: &Value, counts: &Counts) -> Result<(), Failure>
    ensures met { OnOk result (IsMet counts.now (document_shape_asked (view value.now))
        counts.now) }
    ensures first { IfErr result (IsFirst counts.now (document_shape_asked (view value.now))) }
{
    counts.demand(
        has_only(value, Form::Document.members()),
        Rule::Shape(ShapeRule::Members(Form::Document)),
    )?;
    let Some(version) = version_of(value) else {
        return Err(counts.broken(Rule::Shape(ShapeRule::Version)));
    };
    let Some(objects) = list_member(value, "objects") else {
        return Err(counts.broken(Rule::Shape(ShapeRule::Objects)));
    };
    let Some(transactions) = list_member(value, "transactions") else {
        return Err(counts.broken(Rule::Shape(ShapeRule::Transactions)));
    };
    let limits = Limits::of(version);
    counts.demand(
        objects.len() <= limits.objects,
        Rule::Few(CountRule::Objects(version)),
    )?;
    counts.demand(
        transactions.len() <= limits.transactions,
        Rule::Few(CountRule::Transactions(version)),
    )?;
    Ok(())
}

// The place and the words of a fault of JSON or of the document's own shape, by a tree of the whole
// document. There are no more bytes than a document of its version may have.
fn locate_in_tree(alloc: Global, bytes: &[u8], fault: Fault) -> Result<Mistake, Fault>
    requires read { reading bytes.now ≡ Err fault }
    requires short { IsShort bytes.now }
    requires shape { (d : Data) → value_of bytes.now ≡ Some d → IsMet no_counts
        (document_shape_asked d) no_counts → first_fault (placed d) ≡ None }
    ensures mistake { IfOk result (λ mistake. IsMistake bytes.now fault mistake.place
        (string_bytes mistake.words)) }
    ensures err { IfErr result (λ refused. refused ≡ memory_fault) }
{
    let value = match Value::from_slice(alloc, bytes) {
        Ok(value) => value,
        Err(error) => {
            if error.is_memory() {
                return Err(Code::Memory.outside());
            }
            let position = Position {
                line: error.line(),
                column: error.column(),
            };
            let words = words(alloc, Rule::Json, &Value::Null)?;
            return Ok(Mistake {
                place: Place::LineColumn(position),
                words,
            });
        }
    };
    let counts = Counts {
        transaction: 0,
        operations: 0,
        nodes: 0,
        starts: 0,
    };
    match check_shape(&value, &counts) {
        // A document with a fault breaks a rule.
        Ok(()) => Ok(Mistake {
            place: Place::Whole,
            words: String::new(alloc),
        }),
        Err(failure) => {
            let misread = misread_of(alloc, Unmet::from(failure), value)?;
            let mistake = mistake_of(alloc, bytes, &misread)?;
            Ok(mistake)
        }
    }
}

// What is said of more bytes than a document of this version may have.
fn too_long(alloc: Global, version: u8) -> Result<Mistake, AllocError>
    ensures place { IfOk result (λ mistake. mistake.place ≡ Whole) }
    ensures words { IfOk result (λ mistake. IsSaid (Few (Bytes version)) null
        (string_bytes mistake.words)) }
{
    let words = words(alloc, Rule::Few(CountRule::Bytes(version)), &Value::Null)?;
    Ok(Mistake {
        place: Place::Whole,
        words,
    })
}

// What is said of a rule that a part of the value of these bytes doesn't keep.
fn mistake_of(alloc: Global, bytes: &[u8], misread: &Misread) -> Result<Mistake, AllocError>
    ensures { IfOk result (λ mistake. IsToldAt (view misread.now.part) misread.now.rule
        (string_bytes misread.now.pointer) mistake.place (string_bytes mistake.words)) }
{
    let words = words(alloc, misread.rule, &misread.part)?;
    let within = place_within(alloc, misread.rule, &misread.part)?;
    let pointer = misread.pointer.as_str();
    let lead = format!(in alloc; "{pointer}{within}")?;
    let place = place_of(alloc, bytes, lead)?;
    Ok(Mistake { place, words })
}

// The place to which a pointer leads in the value of these bytes.
fn place_of(alloc: Global, bytes: &[u8], pointer: String) -> Result<Place, AllocError>
    ensures { IfOk result (λ place. Shows (string_bytes pointer) place) }
{
    // The empty pointer leads to the whole.
    if pointer.is_empty() {
        return Ok(Place::Whole);
    }
    let text = utf8_of(bytes).unwrap_or("");
    let position = position_of(alloc, text, pointer.as_str())?;
    Ok(Place::Pointer(pointer, position))
}
