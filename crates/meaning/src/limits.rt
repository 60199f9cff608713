//! The limits of a batch. A document beyond them is refused, so every batch is within them.

/// How many objects there are at most.
pub const MAX_OBJECTS: usize = 1_000_000;

/// How many transactions there are at most.
pub const MAX_TRANSACTIONS: usize = 1_000_000;

/// How many operations all transactions have at most, with those of all branches and handlers.
pub const MAX_OPERATIONS: usize = 9_000_000;

/// How many nodes all transactions have at most that are no operations: ifs, subactions, children,
/// parallel steps and aborts.
pub const MAX_NODES: usize = 9_000_000;

/// How many bytes a name has at most.
pub const MAX_NAME: usize = 128;

/// How deep blocks are nested at most.
pub const MAX_DEPTH: usize = 24;

/// How many members, items and bindings all objects start with at most.
pub const MAX_ENTRIES: usize = 1_000_000;

/// The largest number that an account, a counter (also below 0) or a register starts with.
pub const MAX_START: u64 = 1_000_000_000_000_000;
