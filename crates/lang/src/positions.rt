//! Lines and columns of a document's text.
//!
//! No contract says which they are: they are for readers of a message.

use doc_mistakes::shown_token;
use doc_tokens::notes::MAX_NESTING;
use json::{Reader, Scratch, Token};
use memchr::{memchr_iter, memrchr};
use std::alloc::{AllocError, Global};

/// A line and a column of a text. Both count from 1, and columns count bytes. The column is 0 where
/// bytes that are no JSON end after a line feed.
#[derive(Clone, Copy, Debug, Drop, PartialEq, Eq)]
pub struct Position {
    pub line: usize,
    pub column: usize,
}

impl Position {
    // That of the byte before which there are these bytes.
    fn after(before: &[u8]) -> Position {
        let begin = match memrchr(b'\n', before) {
            Some(place) => place.saturating_add(1),
            None => 0,
        };
        Position {
            line: memchr_iter(b'\n', before).count().saturating_add(1),
            column: before.len().saturating_sub(begin).saturating_add(1),
        }
    }
}

/// Where the part begins to which a JSON Pointer leads from the value that the text writes. Of a
/// member that comes twice it is the last. Where a token leads nowhere, it is the value around it.
pub(crate) fn position_of(
    alloc: Global,
    text: &str,
    pointer: &str,
) -> Result<Position, AllocError> {
    let path: Vec<&str> = pointer.split('/').skip(1).collect(alloc)?;
    let mut scratch = Scratch::new(alloc);
    let mut reader = Reader::new(text, &mut scratch)?;
    let begin = part_in(alloc, &mut reader, path.as_slice())?;
    Ok(Position::after(before_value(text, begin)))
}

// The bytes before the value that comes next after so many bytes.
fn before_value(text: &str, begin: usize) -> &[u8] {
    let bytes = text.as_bytes();
    for place in begin..bytes.len() {
        if !matches!(bytes[place], b' ' | b'\t' | b'\r' | b'\n' | b':' | b',') {
            return &bytes[..place];
        }
    }
    bytes
}

// Passes the value that comes next. Returns where the reader was before the part of it to which
// these names and indices lead.
#[cycle(path)]
fn part_in(alloc: Global, reader: &mut Reader<'_>, path: &[&str]) -> Result<usize, AllocError> {
    let here = reader.offset();
    let Some((token, rest)) = path.split_first() else {
        // Where it can't be passed, nothing is found after it.
        let _ = reader.skip_value(MAX_NESTING);
        return Ok(here);
    };
    let part = match reader.next() {
        Some(Token::BeginObject) => member_in(alloc, reader, token, rest)?,
        Some(Token::BeginArray) => item_in(alloc, reader, token, rest)?,
        _ => None,
    };
    Ok(part.unwrap_or(here))
}

// Whether a token of a pointer leads to the member of this name.
fn is_of(alloc: Global, token: &str, name: &str) -> Result<bool, AllocError> {
    if !token.contains('~') && !token.contains('\\') {
        return Ok(token == name);
    }
    let own = shown_token(alloc, name)?;
    Ok(own.as_str() == token)
}

// Where the part begins that is in the last member to which this token leads, of an object whose
// beginning has been read.
#[cycle(path)]
fn member_in(
    alloc: Global,
    reader: &mut Reader<'_>,
    token: &str,
    rest: &[&str],
) -> Result<Option<usize>, AllocError> {
    let mut part = None;
    // There are never so many members.
    for _ in 0..usize::MAX {
        let Ok(Some(key)) = reader.next_key() else {
            break;
        };
        if is_of(alloc, token, key)? {
            part = Some(part_in(alloc, reader, rest)?);
        } else if reader.skip_value(MAX_NESTING).is_err() {
            break;
        }
    }
    Ok(part)
}

// Where the part begins that is in the item of this index, from 0, of an array whose beginning has
// been read.
#[cycle(path)]
fn item_in(
    alloc: Global,
    reader: &mut Reader<'_>,
    index: &str,
    rest: &[&str],
) -> Result<Option<usize>, AllocError> {
    let Ok(index) = index.parse::<usize>() else {
        return Ok(None);
    };
    let mut part = None;
    // There are never so many items.
    for place in 0..usize::MAX {
        if reader.take_end_array() {
            break;
        }
        if place == index {
            part = Some(part_in(alloc, reader, rest)?);
        } else if reader.skip_value(MAX_NESTING).is_err() {
            break;
        }
    }
    Ok(part)
}
