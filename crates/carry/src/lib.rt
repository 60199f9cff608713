//! Carrying objects over: the document of a batch's objects as they are at its end, for the next
//! batch to start with, or with the transactions of the next batch.
#![tactic(auto)]

mod document;
mod starts;
mod transactions;

pub use batch::Names;
pub use document::{Misfit, Unfit, carried, carried_version, first_unfit};
pub use objects::Objects;
pub use serial::NoMemory;
pub use starts::{NamedObjects, Start, first_clash, first_misfit, join, name_table, start_name};
pub use transactions::carried_into;
