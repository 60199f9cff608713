//! Whether calls get the same replies on other objects.
ghost use Rattle.std.specs.Prelude.{IsTrue, length};
ghost use Rattle.objects.specs.Entries.{AreLegal};
ghost use Rattle.committed.specs.Summaries.{entries_of};
ghost use Rattle.rounds.specs.Repeated.{IsRepeated, AreOfOthers, AreApart};

use committed::MarkedEntry;
use objects::{Entry, Objects};

// Whether the call gets the same reply on these objects.
fn is_repeated(objects: &Objects, entry: &Entry) -> bool
    ensures { IsTrue result → IsRepeated objects.now entry.now }
{
    let Some(value) = objects.value(entry.object) else {
        return false;
    };
    if !value.fits(&entry.call) {
        return false;
    }
    value.reply(&entry.call) == entry.reply
}

// Whether one of these entries is of the object.
fn has_object(entries: &[MarkedEntry], object: u32) -> bool
    ensures { ¬ IsTrue result → AreOfOthers object (entries_of entries.now) }
{
    for marked in entries {
        if marked.entry.object == object {
            return true;
        }
    }
    false
}

// Whether no two of these entries are of one object.
fn are_apart(entries: &[MarkedEntry]) -> bool
    ensures { IsTrue result → AreApart (entries_of entries.now) (length entries.now) }
{
    for place in 0..entries.len() {
        if has_object(&entries[..place], entries[place].entry.object) {
            return false;
        }
    }
    true
}

/// Whether the calls of these entries, one after the other, are known to get the same replies on
/// these objects. Each call is asked of the objects as they are. So nothing is known where two calls
/// are on one object.
pub(crate) fn are_repeated(objects: &Objects, entries: &[MarkedEntry]) -> bool
    ensures { IsTrue result → AreLegal objects.now (entries_of entries.now) }
{
    if !are_apart(entries) {
        return false;
    }
    for marked in entries {
        if !is_repeated(objects, &marked.entry) {
            return false;
        }
    }
    true
}
