//! Workers that share a claim board. [`first_failing`] finds the least piece that doesn't pass a
//! test, and [`give_all`] collects what all pieces give.
//!
//! The pieces are the numbers below a bound. Each worker has a seat at one board (`claims`), and
//! claims one piece after the other until there are none. Threads are started one after the other,
//! as long as there are pieces left. There are never more workers than pieces. One worker alone is no
//! thread of its own.
#![tactic(auto)]

mod cascade;
mod least;
mod seats;
mod work;

pub use least::first_failing;
pub use serial::NoMemory;
pub use work::{WorkerState, give_all};
