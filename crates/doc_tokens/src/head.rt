//! Reads a document straight from its tokens up to where its transactions begin.
//!
//! The common form: `ordtx`, `objects` and `transactions` in this order, or sorted by name:
//! `objects`, `ordtx` and `transactions`. What objects may be depends on the version. Where it
//! comes after them, they are read as of the version that the text seems to declare. The one that
//! comes is compared with it.
ghost use Rattle.std.specs.Prelude.{◌≡◌, Bool, [], false, true, IfOk, OnOk};
ghost use Rattle.doc_cuts.specs.Whole.{is_left};
ghost use Rattle.doc_tokens.specs.Heads.{Closes, Opens};
ghost use Rattle.doc_tokens.specs.Ranges.{IsHead};
ghost use Rattle.doc_tree.specs.Scope.{numbers_of, scope_of};

use crate::pull::{pull_begin_array, pull_begin_object, pull_key, pull_some_key, pull_version};
use crate::pull_objects::pull_objects;
use crate::stop::Stop;
use doc_tree::declared::Declared;
use doc_tree::state::ReaderState;
use json::Reader;
use memchr::memmem;
use std::alloc::Global;

/// The name of the member that has the version.
const NAME: &[u8] = b"\"ordtx\"";

/// The digit that comes first after a colon, white space aside.
fn digit_after_colon(text: &[u8]) -> Option<u8> {
    let mut colon = false;
    for byte in text {
        if colon && byte.is_ascii_digit() {
            return Some(byte - b'0');
        }
        if !colon && *byte == b':' {
            colon = true;
        } else if !byte.is_ascii_whitespace() {
            return None;
        }
    }
    None
}

/// The version that a text seems to declare, by the first name of this member before a colon and a
/// digit. The name may be that of another object's member, so this is no more than a guess.
fn seeming_version(text: &[u8]) -> Option<u8> {
    let mut from = 0;
    while let Some(found) = memmem::find(&text[from..], NAME) {
        from += found + NAME.len();
        if let Some(version) = digit_after_colon(&text[from..]) {
            return Some(version);
        }
    }
    None
}

/// Whether a document's version comes before its objects.
#[derive(Clone, Copy, Debug, Drop, PartialEq)]
enum Order {
    /// The version comes first.
    VersionFirst,
    /// The objects come first.
    ObjectsFirst,
}

/// The beginning of a document, up to the bracket that begins its objects: its version, or, where
/// the objects come first, the one that the text seems to declare.
fn pull_opening(text: &[u8], reader: &mut Reader<'_>) -> Result<(u8, Order), Stop>
    ensures { IfOk result (λ opened. Opens opened.0 opened.1 reader.old reader.new) }
{
    pull_begin_object(reader)?;
    match pull_some_key(reader)? {
        "ordtx" => {
            let version = pull_version(reader)?;
            pull_key(reader, "objects")?;
            pull_begin_array(reader)?;
            Ok((version, Order::VersionFirst))
        }
        "objects" => {
            pull_begin_array(reader)?;
            let version = seeming_version(text).ok_or(Stop::OtherForm)?;
            Ok((version, Order::ObjectsFirst))
        }
        _ => Err(Stop::OtherForm),
    }
}

/// The members after the objects, up to the key of the transactions, if the version is this one.
fn pull_closing(reader: &mut Reader<'_>, version: u8, order: Order) -> Result<(), Stop>
    ensures { IfOk result (λ _. Closes version order reader.old reader.new) }
{
    if order == Order::ObjectsFirst {
        pull_key(reader, "ordtx")?;
        if pull_version(reader)? != version {
            return Err(Stop::OtherForm);
        }
    }
    pull_key(reader, "transactions")
}

/// What a document declares, of which the reader is then at its transactions. The text is the one
/// that the reader began with. Nothing but a guess of the version is taken from it.
pub(crate) fn pull_declared(
    alloc: Global,
    text: &[u8],
    reader: &mut Reader<'_>,
    state: &mut ReaderState,
) -> Result<Declared, Stop>
    requires labels { scope_of state.old.labels.entries ≡ [] }
    ensures head { IfOk result (λ declared. IsHead reader.old reader.new declared
        state.old.counts (numbers_of state.old.numbering)
        state.new.counts (numbers_of state.new.numbering)) }
    ensures left { OnOk result ((v : Bool) → is_left v false reader.new ≡ true
        → is_left v false reader.old ≡ true) }
    ensures scope { OnOk result (scope_of state.new.labels.entries ≡ []) }
{
    let (version, order) = pull_opening(text, reader)?;
    let declared = pull_objects(
        alloc,
        reader,
        version,
        &mut state.counts,
        &mut state.numbering,
    )?;
    pull_closing(reader, version, order)?;
    Ok(declared)
}
