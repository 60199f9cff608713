//! Views: what a seat knows, how large a board is, and how views are cut and joined.

use atomic_table::{Join, Split};
use std::collections::LinkedList;

/// What a seat knows of its board, as contracts see it. No value of it is made.
pub(crate) struct SeatView {
    /// 1 from the board's opening to the gathering.
    pub shares: u32,
    /// How many pieces its board has.
    pub pieces: u32,
    /// The pieces that it drew, in order.
    pub drawn: LinkedList<u32>,
    /// How often a claim of it returned `Done`.
    pub done: u32,
    /// A claim of it returned `Stopped`.
    pub stopped: bool,
    /// It raised.
    pub raised: bool,
    /// The least number that it lowered to, or the number of pieces.
    pub low: u32,
    /// The bound that it read last, or the number of pieces.
    pub told: u32,
}

/// How large a board is, which its table keeps from the start.
#[derive(Clone, Copy)]
pub(crate) struct Size {
    pub pieces: u32,
    pub seats: u32,
}

// Cuts one share off, for a seat of its own.
pub(crate) struct OneShare;

impl Split<SeatView> for OneShare {
    ghost use Rattle.claims.specs.Views.{fresh, one_share_less};

    ghost left = { one_share_less };

    ghost right = { λ v. fresh 1 v.pieces };
}

// Takes in another seat's view.
pub(crate) struct Both;

impl Join<SeatView> for Both {
    ghost use Rattle.claims.specs.Views.{spent, joined_views};

    ghost both = { joined_views };

    ghost spent = { spent };
}
