//! Finds objects by what distinguishes their names.
ghost use Rattle.std.specs.Prelude.{◌≡◌, ◌+◌, ◌^◌, ◌<◌, ℕ, IfOk, IfSome, List, length};
ghost use Rattle.objects.specs.declared.kind.Kind.{Kind};
ghost use Rattle.objects.specs.Entries.{kinds};
ghost use Rattle.batch.specs.Names.{texts_of};
ghost use Rattle.doc_tree.specs.Digests.{digest_in, digest_of, AreRight, IsObject, IsRight};

use crate::digests::Digest;
use crate::hashing::TextSet;
use objects::{Kind, Objects};
use serial::NoMemory;
use std::alloc::Global;

/// What is known of an object with no look at its name or its value, or none. It takes 16 bytes.
#[derive(Clone, Copy, Drop)]
struct Outline {
    ending: u64,
    /// One more than the object's place, or 0 for none.
    end: u32,
    length: u8,
    kind: Kind,
}

const NO_OUTLINE: Outline = Outline {
    ending: 0,
    end: 0,
    length: 0,
    kind: Kind::Account,
};

impl Outline {
    /// The place and the kind of the object, if there is one and its name has this digest.
    fn found(self, digest: Digest) -> Option<(u32, Kind)>
        ensures digest { IfSome result (λ found. digest_in self ≡ digest) }
        ensures place { IfSome result (λ found. self.end ≡ found.0 + 1) }
        ensures kind { IfSome result (λ found. self.kind ≡ found.1) }
    {
        if self.ending != digest.ending || self.length != digest.length {
            return None;
        }
        let place = self.end.checked_sub(1)?;
        Some((place, self.kind))
    }
}

/// The outlines of objects, each on the slot on which the digest of the name falls. There is a slot
/// for every two objects, with room for four outlines. An object whose slot is full has no outline.
#[derive(Drop)]
pub(crate) struct Outlines {
    slots: Vec<[Outline; 4]>,
}

impl Outlines {
    /// The outlines of the objects under these names.
    ///
    /// Returns `NoMemory` where a request for memory was refused.
    pub(crate) fn of(
        alloc: Global,
        names: &TextSet,
        objects: &Objects,
    ) -> Result<Outlines, NoMemory>
        requires named { length names.now.keys ≡ length objects.now }
        requires few { length objects.now < 2 ^ 32 }
        ensures { IfOk result (λ outlines.
            AreRight (texts_of names.now.keys) (kinds objects.now) outlines.slots.items) }
    {
        let names = names.as_slice();
        let slots = vec![in alloc; [NO_OUTLINE; 4]; names.len() / 2 + 1]?;
        let mut outlines = Outlines { slots };
        for place in 0..objects.len() as u32 {
            let Some(value) = objects.value(place) else {
                return Ok(outlines);
            };
            let digest = Digest::of(names[place as usize].as_str());
            outlines.note(Outline {
                ending: digest.ending,
                end: place + 1,
                length: digest.length,
                kind: value.kind(),
            });
        }
        Ok(outlines)
    }

    /// Adds an outline to the others on its slot, if there is room.
    fn note(&mut self, outline: Outline)
        ensures { (names : List (List ℕ)) → (kinds : List Kind) → IsRight names kinds outline
            → AreRight names kinds self.old.slots.items
            → AreRight names kinds self.new.slots.items }
    {
        let digest = Digest {
            ending: outline.ending,
            length: outline.length,
        };
        let slot = digest.slot(self.slots.len());
        if let Some(outlines) = self.slots.get_mut(slot) {
            if let Some(room) = outlines.iter().position(|known| known.end == 0) {
                outlines[room] = outline;
            }
        }
    }

    /// The place and the kind of an object whose name has this digest, if there is an outline of
    /// one.
    pub(crate) fn find(&self, digest: Digest) -> Option<(u32, Kind)>
        ensures { IfSome result (λ found. (names : List (List ℕ)) → (kinds : List Kind)
            → AreRight names kinds self.now.slots.items → IsObject names kinds digest found) }
    {
        let slot = digest.slot(self.slots.len());
        for outline in self.slots.get(slot)?.as_slice() {
            if let Some(found) = outline.found(digest) {
                return Some(found);
            }
        }
        None
    }
}
