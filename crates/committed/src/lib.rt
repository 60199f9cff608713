//! The list of committed entries, for the check of which entries are still valid after it.
//!
//! A [`Committed`] is the list. It says whether entries commute forward (W. E. Weihl,
//! "Commutativity-based concurrency control for abstract data types", 1988) with a part of it.
#![tactic(auto)]

mod committed;
mod filter;
mod heading;
mod index;
mod marks;
mod span;
mod summary;

pub use committed::Committed;
pub use marks::{Mark, MarkedEntry};
pub use objects::{Call, Entry, Reply};
pub use serial::NoMemory;
pub use span::Span;
pub use summary::{FEW_ENTRIES, mark_all, summarize};
