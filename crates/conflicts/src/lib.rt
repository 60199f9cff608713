//! Which entries may conflict, by what their operations did: here the kinds of objects are named.
//!
//! An operation has a [`Class`]. Of most pairs of classes all operations commute forward (W. E.
//! Weihl, "Commutativity-based concurrency control for abstract data types", 1988), and of most
//! others those on different items do. A [`Strength`] says which of two entries commutes forward
//! with less.
#![tactic(auto)]

mod classes;
mod effect;
mod strength;
mod strictness;

pub use classes::Class;
pub use effect::operation_item;
pub use strength::{Strength, Topic};
pub use strictness::{Measured, are_as_strict, is_as_strict};
