//! Drafts: what a value became, kept as what differs from a borrowed value.
//!
//! A transaction's intentions are kept beside the objects that they are meant for (W. Weihl,
//! "Commutativity-based concurrency control for abstract data types", 1988). A [`Draft`] is such a
//! value. Of a set and a directory it keeps what was touched, of a queue what was added and how
//! many items were taken. The rest is read from the borrowed value. A draft's journal takes its
//! changes back, the last first.
#![tactic(auto)]

mod directory_draft;
mod draft;
mod number_draft;
mod queue_draft;
mod set_draft;
mod shown;
mod slots;

pub use draft::Draft;
pub use shown::ShownValue;
