//! How tables of entries are hashed.
ghost use Rattle.std.specs.Prelude.{◌≡◌};
ghost use Rattle.objects.specs.Hashing.{begun_with};

use std::hash::{BuildHasher, FoldHasher, Hasher};

/// Hashes what entries are listed under as what follows a key.
///
/// The key is made of a whole document, as it is for the document's names. With a hash that is known
/// beforehand, the author of a document could pick objects and items that all fall on one place of
/// a table. Here a change of the document moves them all.
#[derive(Clone, Copy, Debug, Drop)]
pub struct EntryHashing {
    begun: FoldHasher,
}

impl EntryHashing {
    /// With this key.
    pub fn of(key: u64) -> EntryHashing
        ensures { result.begun ≡ begun_with key }
    {
        let mut begun = FoldHasher::default();
        begun.write_u64(key);
        EntryHashing { begun }
    }
}

impl BuildHasher for EntryHashing {
    type Hasher = FoldHasher;

    ghost build_hasher = { λ hashing. hashing.begun };

    fn build_hasher(&self) -> FoldHasher {
        self.begun
    }
}
