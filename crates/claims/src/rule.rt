//! The rule of a board's table, and the kinds of step that keep it.
ghost use Rattle.claims.specs.Views.{fresh};
ghost use Rattle.claims.specs.Rule.{Holds};
ghost use Rattle.claims.specs.Steps.{Draws, Looks, Raises, Lowers, Bounds};

use crate::view::{SeatView, Size};
use atomic_table::{Play, TableRule};

#[derive(Clone, Copy)]
pub(crate) struct BoardRule;

impl TableRule<(), SeatView, Size> for BoardRule {
    ghost holds = { Holds };

    ghost first = { λ size. fresh size.seats size.pieces };
}

pub(crate) struct Draw;

impl Play<(), SeatView> for Draw {
    ghost then = { Draws };
}

pub(crate) struct Look;

impl Play<(), SeatView> for Look {
    ghost then = { Looks };
}

pub(crate) struct Raise;

impl Play<(), SeatView> for Raise {
    ghost then = { Raises };
}

pub(crate) struct Lower;

impl Play<(), SeatView> for Lower {
    ghost then = { Lowers };
}

pub(crate) struct Bound;

impl Play<(), SeatView> for Bound {
    ghost then = { Bounds };
}
