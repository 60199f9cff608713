//! Tests of what runs rest on: types of objects, lists of objects, drafts, views, names, and the
//! committed list. They call what other crates promise. A crate that has tests is
//! proved twice, so they are in a crate of their own.
#![tactic(auto)]

#[cfg(test)]
mod atoms_tests;
#[cfg(test)]
mod batch_tests;
#[cfg(test)]
mod committed_tests;
#[cfg(test)]
mod drafts_tests;
#[cfg(test)]
mod intentions_tests;
#[cfg(test)]
mod objects_tests;
