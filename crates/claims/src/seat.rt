//! The seats of a board.
ghost use Rattle.std.specs.Prelude.{◌≡◌, []};
ghost use Rattle.claims.specs.Views.{is_over};

use crate::view::SeatView;
use std::marker::Model;

pub(crate) type BoardSeat = atomic_table::Seat<(), SeatView>;

/// A seat at a board, with which one thread at a time claims. A seat can't be copied, so the seats
/// that [`Board::open`](crate::Board::open) returned are all the seats of a board.
#[derive(Drop)]
pub struct Seat {
    pub(crate) token: BoardSeat,
    pub(crate) over: bool,
}

impl Model for Seat {
    ghost use Rattle.std.specs.Prelude.{◌≡◌, []};
    ghost use Rattle.claims.specs.Seated.{Seated};
    ghost use Rattle.claims.specs.Views.{is_over};

    ghost Value = { Seated };

    ghost view = { λ s. record { board = s.token.table_id; view = s.token.me.0 } };

    ghost invariant = { λ s. (s.token.me.1 ≡ []) × (s.token.me.0.shares ≡ 1)
        × (s.over ≡ is_over s.token.me.0) };
}

impl Seat {
    /// Whether a claim of the seat returned `Done` or `Stopped`. The seat claims no more then, and
    /// may still raise, lower and read the bound. It takes no step and no memory.
    pub fn is_over(&self) -> bool
        ensures { result ≡ is_over self.now.view }
    {
        self.over
    }

    pub(crate) fn into_token(self) -> BoardSeat
        ensures board { (result.table_id ≡ self.board) × (result.me ≡ (self.view, [])) }
        ensures share { self.view.shares ≡ 1 }
    {
        let Seat { token, over: _ } = self;
        token
    }
}
