//! Batches of nested transactions, and what running one returns. These are the types that every
//! layer names, with the trees of the meaning that contracts see them as.
#![tactic(auto)]

mod answer;
mod batch;
mod counting;
mod filling;
mod handlers;
mod labels;
pub mod laws;
mod left;
mod names;
mod packed;
mod record;
mod tree;
mod tried;

pub use answer::{Outcome, Plain};
pub use atoms::Item;
pub use batch::Batch;
pub use filling::{end_after, fill, reason_for};
pub use handlers::{handler_for, taker, untaken};
pub use labels::{add_label, test_holds};
pub use left::perform_left;
pub use meaning::{End, Test};
pub use names::{Names, has_long_names, is_name, most_name_bytes};
pub use objects::{Call, Objects, Reply, Value};
pub use record::{Made, Record, Taken};
pub use serial::NoMemory;
pub use tree::{Block, Filling, Handler, Otherwise, Step, Subaction};
pub use tried::{Tried, handled};
