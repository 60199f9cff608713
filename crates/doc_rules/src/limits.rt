//! How much a document may have, by its version.
ghost use Rattle.std.specs.Prelude.{◌≡◌};
ghost use Rattle.doc_rules.specs.Limits.{limits_of};

use meaning::limits::{MAX_ENTRIES, MAX_NODES, MAX_OBJECTS, MAX_OPERATIONS, MAX_TRANSACTIONS};

/// The last version of documents that there is; the first is 1.
pub const LAST_VERSION: u8 = 5;

/// How many bytes a document has at most, whichever its version.
pub const MAX_BYTES: usize = 536_870_912;

/// How much a document of a version may have.
#[derive(Clone, Copy, Debug, Drop, PartialEq)]
pub struct Limits {
    /// The bytes of the whole document.
    pub bytes: usize,
    /// The objects.
    pub objects: usize,
    /// The members, items and bindings that all objects start with.
    pub entries: usize,
    /// The transactions, without the subactions in them.
    pub transactions: usize,
    /// The operations of all transactions, with those of all branches and handlers.
    pub operations: usize,
    /// The nodes that are no operations: ifs, subactions, children, parallel steps and aborts.
    pub nodes: usize,
}

impl Limits {
    /// The limits of a document of this version.
    pub fn of(version: u8) -> Limits
        ensures { result ≡ limits_of version }
    {
        if version >= 5 {
            return Limits {
                bytes: MAX_BYTES,
                objects: MAX_OBJECTS,
                entries: MAX_ENTRIES,
                transactions: MAX_TRANSACTIONS,
                operations: MAX_OPERATIONS,
                nodes: MAX_NODES,
            };
        }
        Limits {
            bytes: 67_108_864,
            objects: 1_000,
            entries: 100_000,
            transactions: 10_000,
            operations: if version >= 4 { 1_000_000 } else { 100_000 },
            nodes: 100_000,
        }
    }
}
