//! How the names of a document are hashed.
ghost use Rattle.std.specs.Prelude.{◌≡◌};
ghost use Rattle.objects.specs.Hashing.{begun_with};
ghost use Rattle.std.specs.Hash.DefaultHasher.{finish};
ghost use Rattle.doc_tree.specs.Hashing.{begun, behind};

use doc_rules::Subject;
use indexmap::{IndexMap, IndexSet};
use objects::EntryHashing;
use std::hash::{BuildHasher, DefaultHasher, Hasher, RandomState};

/// Hashes names by SipHash-1-3 with random keys or, without keys, as what follows the whole document.
///
/// The author of a document picks its names, and with a hash that is known beforehand he could pick
/// names that all fall on one place of a table, so that each look-up walks through all of them. He
/// doesn't know random keys. Without keys a change of any name moves all the others, which only makes
/// such names hard to find: SipHash-1-3 with a known key is not cryptographic.
#[derive(Clone, Copy, Drop)]
pub struct NameHashing {
    document: DefaultHasher,
}

/// Texts, each once, by number.
pub type TextSet = IndexSet<String, NameHashing>;

/// Labels, each with what it is of.
pub type Labels = IndexMap<String, Subject, NameHashing>;

impl NameHashing {
    /// For the names of the document that the bytes write.
    pub fn of(bytes: &[u8]) -> NameHashing
        ensures { result.document ≡ behind bytes.now }
    {
        let mut document = DefaultHasher::new();
        document.write(bytes);
        // Up to a whole word, so that each name begins a word.
        document.write(&[0; 8][bytes.len() % 8..]);
        NameHashing { document }
    }

    /// For the names of the document that the bytes write, by these keys. Without keys the bytes are
    /// the key, as in [`NameHashing::of`].
    pub fn keyed(keys: Option<RandomState>, bytes: &[u8]) -> NameHashing
        ensures { result.document ≡ begun keys bytes.now }
    {
        match keys {
            Some(keys) => NameHashing {
                document: keys.build_hasher(),
            },
            None => NameHashing::of(bytes),
        }
    }

    /// How tables of the document's entries are hashed.
    pub fn of_entries(&self) -> EntryHashing
        ensures { result.begun ≡ begun_with (finish self.now.document) }
    {
        EntryHashing::of(self.document.finish())
    }
}

impl BuildHasher for NameHashing {
    type Hasher = DefaultHasher;

    ghost build_hasher = { λ hashing. hashing.document };

    fn build_hasher(&self) -> DefaultHasher {
        self.document
    }
}
