//! What transactions intend: views of the objects, for the executors.
//!
//! A [`View`] runs a transaction's calls on a snapshot without changing it. It keeps an intentions
//! list (W. E. Weihl, "Commutativity-based concurrency control for abstract data types", 1988),
//! with a level for each open subaction (J. E. B. Moss, "Nested transactions", 1981). The list of
//! what was committed, [`Committed`], is passed on from the crate `committed`.
#![tactic(auto)]

mod draft_table;
mod layers;
mod places;
mod view;

pub use committed::Committed;
pub use objects::{Call, Entry, Objects, Reply, Value};
pub use places::PagedPlaces;
pub use serial::NoMemory;
pub use view::{Lists, NetList, View, perform_each};
