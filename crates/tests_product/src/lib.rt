//! Tests of documents, of whole batches, of whole calls from a source to a sink, and those that start
//! threads. Gates hold one call until another comes, and count.
#![tactic(auto)]

mod child_counting;
mod counting;
mod crowd;
mod meeting;
mod tally;

pub use child_counting::ChildCounting;
pub use counting::Counting;
pub use crowd::Crowd;
pub use meeting::{FIRST_DECISION, Meeting, SECOND_DECISION};
pub use tally::Tally;

#[cfg(test)]
mod ahead_tests;
#[cfg(test)]
mod board_tests;
#[cfg(test)]
mod carry_tests;
#[cfg(test)]
mod devices_tests;
#[cfg(test)]
mod documents;
#[cfg(test)]
mod lang_tests;
#[cfg(test)]
mod memory;
#[cfg(test)]
mod plain_tests;
#[cfg(test)]
mod rounds_tests;
#[cfg(test)]
mod sibling_tests;
#[cfg(test)]
mod streams_tests;
#[cfg(test)]
mod workers_tests;
