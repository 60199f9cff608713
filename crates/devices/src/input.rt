//! Reading the bytes of a source.
ghost use Rattle.std.specs.Prelude.{◌≡◌, ◌+◌, ◌<◌, ◌≤◌, ◌↔◌, true, false, Err, IfOk, OnOk, is_err, take, drop, vec_len, []};
ghost use Rattle.std.specs.Io.KnownBytes.{Consumes, IsAtEnd};
ghost use Rattle.devices.specs.Devices.{ReadsUpTo};
ghost use Rattle.devices.specs.declared.input.Unread.TheVariants as unread;

use crate::source::{Failed, Source};
use std::alloc::{AllocError, Global};

/// How many bytes a fetch has room for, where as many may still be read.
const PIECE: usize = 65_536;

/// Why a source wasn't read to its end.
#[derive(Clone, Copy, Debug, Drop, PartialEq, Eq)]
pub enum Unread {
    /// A request for memory was refused.
    NoMemory,
    /// A fetch failed.
    Failed,
}

impl From<AllocError> for Unread {
    ghost use Rattle.devices.specs.declared.input.Unread.TheVariants.{NoMemory};

    ghost from_gives = { λ _ unread. unread ≡ NoMemory };

    fn from(_refused: AllocError) -> Unread {
        Unread::NoMemory
    }
}

/// Reads all bytes to the end of the source, but at most `most`. The source may be read in part where
/// it isn't read to its end.
pub fn read_input<R: Source>(alloc: Global, source: &mut R, most: usize) -> Result<Vec<u8>, Unread>
    requires unended { R.has_ended source.old ≡ false }
    requires unread { R.has_failed source.old ≡ false }
    ensures bytes { IfOk result (λ bytes. ReadsUpTo most (R.remaining source.old)
        (R.remaining source.new) bytes.items) }
    ensures mark { R.has_failed source.new ≡ true ↔ result ≡ Err unread.Failed }
{
    let mut bytes = buffer(alloc, source.expected(), most);
    let mut filled = 0;
    while filled < most {
        make_room(&mut bytes, filled, most)?;
        match fetch_at(source, &mut bytes, filled) {
            Ok(0) => break,
            Ok(count) => filled += count,
            Err(Failed) => return Err(Unread::Failed),
        }
    }
    bytes.truncate(filled);
    Ok(bytes)
}

// An empty buffer, with room for the bytes that are expected and for the fetch that meets the end.
// Where that much memory is refused, room is made as the bytes come.
fn buffer(alloc: Global, expected: usize, most: usize) -> Vec<u8>
    ensures { result.items ≡ [] }
{
    let room = expected.saturating_add(PIECE).min(most);
    match Vec::with_capacity(alloc, room) {
        Ok(buffer) => buffer,
        Err(_) => Vec::new(alloc),
    }
}

// Makes room for a fetch after the filled bytes. Memory that no fetch comes to is not written.
fn make_room(bytes: &mut Vec<u8>, filled: usize, most: usize) -> Result<(), AllocError>
    requires room { filled < most }
    requires within { filled ≤ vec_len bytes.old }
    requires most { vec_len bytes.old ≤ most }
    ensures most { vec_len bytes.new ≤ most }
    ensures front { take filled bytes.new.items ≡ take filled bytes.old.items }
    ensures room { OnOk result (filled < vec_len bytes.new) }
{
    let wanted = filled.saturating_add(PIECE).min(most);
    bytes.resize(wanted, 0)
}

// One fetch to after the filled bytes.
fn fetch_at<R: Source>(source: &mut R, bytes: &mut Vec<u8>, filled: usize) -> Result<usize, Failed>
    requires room { filled < vec_len bytes.old }
    requires unended { R.has_ended source.old ≡ false }
    requires sound { R.has_failed source.old ≡ false }
    ensures len { vec_len bytes.new ≡ vec_len bytes.old }
    ensures front { take filled bytes.new.items ≡ take filled bytes.old.items }
    ensures fits { IfOk result (λ count. filled + count ≤ vec_len bytes.new) }
    ensures given { IfOk result (λ count. Consumes (R.remaining source.old) (R.remaining source.new)
        (take count (drop filled bytes.new.items))) }
    ensures end { IfOk result (λ count. count ≡ 0 → IsAtEnd (R.remaining source.new)) }
    ensures more { IfOk result (λ count. 0 < count → R.has_ended source.new ≡ false) }
    ensures mark { R.has_failed source.new ≡ is_err result }
{
    source.fetch(&mut bytes.as_mut_slice()[filled..])
}
