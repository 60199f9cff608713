//! Where to look for a name first.
ghost use Rattle.std.specs.Prelude.{◌≡◌, ◌<◌, is_some, length, IfSome, IsTrue, Some};
ghost use Rattle.batch.specs.Names.{texts_of};
ghost use Rattle.doc_tree.specs.Scope.{is_listed, place_of};

use crate::digests::Digest;
use crate::hashing::TextSet;
use crate::state::fit;
use serial::NoMemory;
use std::alloc::Global;

/// By slot, one more than the place of the last name that fell on it, or 0. There are at least four
/// times as many slots as names.
///
/// A hint saves the hashing of a name, and promises nothing: whoever takes one compares the names.
#[derive(Drop)]
pub(crate) struct Hints {
    ends: Vec<u32>,
}

impl Hints {
    /// None yet.
    pub(crate) fn new(alloc: Global) -> Hints {
        Hints {
            ends: Vec::new(alloc),
        }
    }

    fn of_names(alloc: Global, names: &TextSet) -> Result<Hints, NoMemory> {
        let ends = vec![in alloc; 0u32; names.len().saturating_mul(8)]?;
        let mut hints = Hints { ends };
        for (place, name) in names.as_slice().iter().enumerate() {
            hints.note(Digest::of(name.as_str()), place);
        }
        Ok(hints)
    }

    fn note(&mut self, digest: Digest, place: usize) {
        let slot = digest.slot(self.ends.len());
        if let Some(end) = self.ends.get_mut(slot) {
            *end = fit(place.saturating_add(1));
        }
    }

    /// Notes the place of a name that joined the others. Where these have become too many, all are
    /// noted anew.
    pub(crate) fn note_new(
        &mut self,
        alloc: Global,
        name: &str,
        place: usize,
        names: &TextSet,
    ) -> Result<(), NoMemory> {
        if self.ends.len() / 4 < names.len() {
            *self = Hints::of_names(alloc, names)?;
        } else {
            self.note(Digest::of(name), place);
        }
        Ok(())
    }

    /// The place at which the name with this digest may be. It may also be another name's. None
    /// where no name fell on its slot.
    pub(crate) fn place(&self, digest: Digest) -> Option<usize> {
        let slot = digest.slot(self.ends.len());
        let place = self.ends.get(slot)?.checked_sub(1)?;
        Some(place as usize)
    }
}

/// Whether the name is at that place.
pub(crate) fn is_at(names: &TextSet, place: usize, name: &str) -> bool
    ensures place { IsTrue result → place_of name.now (texts_of names.now.keys) ≡ Some place }
    ensures within { IsTrue result → place < length names.now.keys }
{
    match names.as_slice().get(place) {
        Some(known) => known.as_str() == name,
        None => false,
    }
}

/// The place of a name, which is hashed.
pub(crate) fn place_of(names: &TextSet, name: &str) -> Option<usize>
    ensures place { result ≡ place_of name.now (texts_of names.now.keys) }
    ensures listed { is_some result ≡ is_listed name.now (texts_of names.now.keys) }
    ensures within { IfSome result (λ place. place < length names.now.keys) }
{
    names.get_index_of(name)
}

/// The place of a name. Where it is the one that is guessed, the name isn't hashed.
pub(crate) fn place_in(names: &TextSet, name: &str, guess: usize) -> Option<usize>
    ensures place { result ≡ place_of name.now (texts_of names.now.keys) }
    ensures listed { is_some result ≡ is_listed name.now (texts_of names.now.keys) }
    ensures within { IfSome result (λ place. place < length names.now.keys) }
{
    if is_at(names, guess, name) {
        Some(guess)
    } else {
        place_of(names, name)
    }
}
