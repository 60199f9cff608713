//! Batches: objects, their names, and transactions over them.
ghost use Rattle.std.specs.Prelude.{◌≡◌, map};
ghost use Rattle.batch.specs.Views.{block_view};
ghost use Rattle.batch.specs.Limits.{IsBatch};
ghost use Rattle.batch.specs.LimitsProps.{IsBatch-prop};

use crate::names::Names;
use crate::tree::Block;
use objects::{EntryHashing, Objects};

/// Objects, the names of what the batch numbers, and transactions, which are numbered from 1.
///
/// Every batch can be run. Its calls fit their objects, its labels are bound, and its tests fit
/// them. Each object, item and reason has a name. It is within the limits of a document, so that
/// no number outgrows its type.
#[derive(Debug, Drop)]
pub struct Batch {
    /// The version of the document that it was read from.
    pub version: u8,
    /// The objects before the first transaction.
    pub objects: Objects,
    /// The names of objects, items and reasons.
    pub names: Names,
    /// The transactions, by number.
    pub transactions: Vec<Block>,
    /// How tables of its entries are hashed.
    pub hashing: EntryHashing,
    pub ghost is_batch: { IsBatch version objects names (map block_view transactions.items) } by { IsBatch-prop version objects names (map block_view transactions.items) },
}

impl Batch {
    /// The batch of these objects, names and transactions, as a document of this version has them.
    pub fn new(
        version: u8,
        objects: Objects,
        names: Names,
        transactions: Vec<Block>,
        hashing: EntryHashing,
    ) -> Batch
        requires { IsBatch version objects names (map block_view transactions.items) }
        ensures version { result.version ≡ version }
        ensures objects { result.objects ≡ objects }
        ensures names { result.names ≡ names }
        ensures transactions { result.transactions ≡ transactions }
        ensures hashing { result.hashing ≡ hashing }
    {
        Batch {
            version,
            objects,
            names,
            transactions,
            hashing,
        }
    }
}
