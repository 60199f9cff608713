//! A claim board deals out the numbers below a bound to threads, each number once. No thread waits
//! for another.
//!
//! [`Board::open`] makes a board of so many pieces and its seats, one for each worker. A worker
//! claims with its seat until a claim returns `Done` or `Stopped`. Any seat may *raise*, which
//! stops it at its next claim, and each other seat at a claim that sees the raise. Any seat may
//! *lower* the board's bound, which begins at the number of pieces: a search for the least piece
//! that fails does so. [`Board::gather`] takes all seats back and returns what they did together.
//!
//! The board is three words, NEXT, STOP and FIRST, that change in single atomic exchanges
//! (`atomic_table`). What is promised holds for every interleaving of these. `specs/Rule.antt` is
//! the fact that each exchange keeps, and `specs/Steps.antt` is what each exchange says to its
//! seat. No proof says which seat gets which piece, nor that a raise reaches another seat at once.
#![tactic(auto)]

mod board;
mod claim;
mod rule;
mod seat;
mod view;

pub use board::Board;
pub use claim::{Claim, Tally};
pub use seat::Seat;
pub use serial::NoMemory;
