//! The claim board, which deals out pieces to seats.
ghost use Rattle.std.specs.Prelude.{◌≡◌, ◌<◌, ◌≤◌, List, length, replicate, true, false, [], IfOk};
ghost use Rattle.std.specs.List.{All, list_any};
ghost use Rattle.std.specs.Vec.{vec_capacity};
ghost use mathlib.Core.Option.{some};
ghost use lib.ListN.{get_elem?};
ghost use Rattle.claims.specs.Views.{most_pieces, most_seats, fresh, is_over, claims_left, HoldsEachBelow, all_drawn, least};
ghost use Rattle.claims.specs.Rule.{Kept};
ghost use Rattle.claims.specs.Steps.{having_raised, lowered, told_bound};
ghost use Rattle.claims.specs.Seated.{IsSeatOf, views_of};
ghost use Rattle.claims.specs.Board.{Answers, is_last, Together};
ghost use Rattle.claims.specs.declared.view.SeatView.{SeatView};

use crate::claim::{Claim, Tally};
use crate::rule::{BoardRule, Bound, Draw, Look, Lower, Raise};
use crate::seat::{BoardSeat, Seat};
use crate::view::{Both, OneShare, SeatView, Size};
use atomic_table::{Shared, Table};
use serial::NoMemory;
use std::alloc::Global;
use std::marker::Model;

// How many draws there were.
const NEXT: usize = 0;

// 1 where a seat raised, else 0.
const STOP: usize = 1;

// The least number that a seat lowered to, or the number of pieces.
const FIRST: usize = 2;

type Words = Shared<(), SeatView, Size, BoardRule>;

/// A board of the pieces from 0 up to a number. Threads share it by `&`, each with a seat.
///
/// Every call but [`Board::open`] takes no memory. None waits, locks or tries again: each is the
/// few atomic exchanges that it names.
#[derive(Drop)]
pub struct Board {
    table: Table<(), SeatView, Size, BoardRule, Global>,
    pieces: u32,
}

impl Model for Board {
    ghost use Rattle.std.specs.Prelude.{◌≡◌, ◌<◌, ◌≤◌};
    ghost use Rattle.claims.specs.Seated.{Opened};
    ghost use Rattle.claims.specs.Views.{most_pieces};

    ghost Value = { Opened };

    ghost view = { λ b. record {
      id = b.table.shared.table_id;
      pieces = b.pieces;
      seats = b.table.shared.key.seats;
    } };

    ghost invariant = { λ b. (b.table.shared.table_id.words ≡ 3)
        × (b.table.shared.table_id.slots ≡ 0) × (b.table.shared.key.pieces ≡ b.pieces)
        × (b.pieces ≤ most_pieces) × (0 < b.table.shared.key.seats) };
}

// Cuts off one share after another, and makes a seat of each.
fn deal(words: &Words, mut first: BoardSeat, seats: u32, all: &mut Vec<Seat>)
    requires first { (first.table_id ≡ words.now.table_id)
        × (first.me ≡ (fresh seats words.now.key.pieces, [])) }
    requires words { words.now.table_id.words ≡ 3 }
    requires some { 0 < seats }
    requires room { (all.old.items ≡ []) × (vec_capacity all.old ≡ seats) }
    ensures { all.new.items ≡ replicate seats record {
      board = words.now.table_id;
      view = fresh 1
          words.now.key.pieces;
    } }
{
    for _dealt in 0..seats - 1 {
        let token = words.split_seat::<OneShare>(&mut first);
        all.push_reserved(Seat { token, over: false });
    }
    all.push_reserved(Seat {
        token: first,
        over: false,
    });
}

// Joins the tokens of all the seats into one.
fn join_all(words: &Words, mut seats: Vec<Seat>) -> BoardSeat
    requires own { All (λ s. s.board ≡ words.now.table_id) seats.items }
    requires words { words.now.table_id.words ≡ 3 }
    requires some { 0 < length seats.items }
    ensures own { result.table_id ≡ words.now.table_id }
    ensures view { Together words.now.key.pieces (views_of seats.items) result.me.0 }
{
    let Some(last) = seats.pop() else {
        unreachable!()
    };
    let mut whole = last.into_token();
    while let Some(seat) = seats.pop() {
        let mut token = seat.into_token();
        words.join_seat::<Both>(&mut token, whole);
        whole = token;
    }
    whole
}

// The words of a table that no thread shares any more.
fn close(table: Table<(), SeatView, Size, BoardRule, Global>, whole: BoardSeat) -> [u64; 3]
    requires own { whole.table_id ≡ table.shared.table_id }
    requires counts { (table.shared.table_id.words ≡ 3) × (table.shared.table_id.slots ≡ 0) }
    ensures { (views : List SeatView) × Kept table.shared.key result views
        × (get_elem? views whole.id ≡ some whole.me.0) }
{
    let closed = table.close_with(whole);
    let words = [closed.word(NEXT), closed.word(STOP), closed.word(FIRST)];
    closed.free();
    words
}

impl Board {
    /// Opens a board of `pieces` pieces, at most 1,000,000, and its `seats` seats, 1 to 64, one for
    /// each worker. No piece is drawn yet, and no seat raised or lowered.
    ///
    /// Returns `NoMemory` where there is no memory for the words or the list of the seats. Nothing
    /// is left then.
    pub fn open(alloc: Global, pieces: u32, seats: u32) -> Result<(Board, Vec<Seat>), NoMemory>
        requires pieces { pieces ≤ most_pieces }
        requires seats { (1 ≤ seats) × (seats ≤ most_seats) }
        ensures size { IfOk result (λ made. (made.0.pieces ≡ pieces) × (made.0.seats ≡ seats)) }
        ensures dealt { IfOk result (λ made.
            made.1.items ≡ replicate seats record { board = made.0.id; view = fresh 1 pieces }) }
    {
        let mut all = Vec::with_capacity(alloc, seats as usize)?;
        let size = Size { pieces, seats };
        let (table, first) = Table::of_words(alloc, &[0, 0, u64::from(pieces)], &size)?;
        deal(&table.shared, first, seats, &mut all);
        Ok((Board { table, pieces }, all))
    }

    /// Claims a piece: one look at STOP and, where it isn't raised, one draw from NEXT. The seat is
    /// one of this board's, and isn't over.
    ///
    /// - `Piece(k)`: piece `k` is this seat's, and no other seat's. It is below the number of
    ///   pieces, and above every piece that the seat has.
    /// - `Done`: all pieces are drawn. The seat is over.
    /// - `Stopped`: some seat raised. The seat is over. After a seat raised itself, its next claim
    ///   returns this.
    ///
    /// A claim changes nothing else of the seat. `claims_left` falls with each claim, so it is the
    /// measure of a loop that claims until the seat is over. Such a loop makes at most one claim
    /// more than there are pieces.
    #[tactic(auto, using(crate::proofs::Claiming::claims_left_falls))]
    pub fn claim(&self, seat: &mut Seat) -> Claim
        requires board { IsSeatOf self.now seat.old }
        requires going { is_over seat.old.view ≡ false }
        ensures board { IsSeatOf self.now seat.new }
        ensures answer { Answers self.now.pieces seat.old.view result seat.new.view }
        ensures over { is_over seat.new.view ≡ is_last result }
        ensures raised { seat.old.view.raised ≡ true → result ≡ Claim.Stopped }
        ensures fewer { claims_left self.now.pieces seat.new.view
            < claims_left self.now.pieces seat.old.view }
    {
        let words = &self.table.shared;
        let stopped = words.load::<Look>(&mut seat.token, STOP) == 1;
        if stopped {
            seat.over = true;
            return Claim::Stopped;
        }
        let found = words.fetch_add::<Draw>(&mut seat.token, NEXT, 1);
        if found < u64::from(self.pieces) {
            return Claim::Piece(found as u32);
        }
        seat.over = true;
        Claim::Done
    }

    /// Raises STOP: one exchange. The next claim of this seat returns `Stopped`, and so does a claim
    /// of another seat that sees the raise. Nothing of the seat changes but that it raised.
    pub fn raise(&self, seat: &mut Seat)
        requires { IsSeatOf self.now seat.old }
        ensures board { IsSeatOf self.now seat.new }
        ensures view { seat.new.view ≡ having_raised seat.old.view }
    {
        self.table
            .shared
            .fetch_or::<Raise>(&mut seat.token, STOP, 1);
    }

    /// Lowers the board's bound to `k`, a piece of the board, where the bound is above it: one
    /// exchange on FIRST. Nothing of the seat changes but its low, the least number that it lowered
    /// to.
    pub fn lower(&self, seat: &mut Seat, k: u32)
        requires board { IsSeatOf self.now seat.old }
        requires piece { k < self.now.pieces }
        ensures board { IsSeatOf self.now seat.new }
        ensures view { seat.new.view ≡ lowered seat.old.view k }
    {
        self.table
            .shared
            .fetch_min::<Lower>(&mut seat.token, FIRST, u64::from(k));
    }

    /// The board's bound: the least number that any seat lowered to so far, or the number of pieces
    /// where none did. One load of FIRST. It is at most what this seat read before, and at most
    /// each number that the seat lowered to. Nothing of the seat changes but the bound that it read
    /// last.
    pub fn bound(&self, seat: &mut Seat) -> u32
        requires { IsSeatOf self.now seat.old }
        ensures board { IsSeatOf self.now seat.new }
        ensures view { seat.new.view ≡ told_bound seat.old.view result }
        ensures told { result ≤ seat.old.view.told }
        ensures low { result ≤ seat.old.view.low }
    {
        self.table.shared.load::<Bound>(&mut seat.token, FIRST) as u32
    }

    /// Ends the board, and returns what its seats did together. It takes all of them: as many as
    /// `open` returned, each this board's.
    ///
    /// - `drawn`: the seats' lists together hold the numbers below it, each once. It is the number
    ///   of pieces where a claim of some seat returned `Done`.
    /// - `stopped`: whether some seat raised. It is true where a claim of some seat returned
    ///   `Stopped`.
    /// - `first`: the least number that a seat lowered to, or the number of pieces. No seat read a
    ///   smaller bound.
    pub fn gather(self, seats: Vec<Seat>) -> Tally
        requires all { length seats.items ≡ self.seats }
        requires own { All (λ s. IsSeatOf self s) seats.items }
        ensures once { HoldsEachBelow result.drawn (all_drawn (views_of seats.items)) }
        ensures within { result.drawn ≤ self.pieces }
        ensures done { All (λ s. 0 < s.view.done → result.drawn ≡ self.pieces) seats.items }
        ensures raised { result.stopped ≡ list_any (λ v. v.raised) (views_of seats.items) }
        ensures stopped { All (λ s. s.view.stopped ≡ true → result.stopped ≡ true) seats.items }
        ensures first { result.first ≡ least (λ v. v.low) self.pieces (views_of seats.items) }
        ensures told { All (λ s. result.first ≤ s.view.told) seats.items }
    {
        let Board { table, pieces } = self;
        let whole = join_all(&table.shared, seats);
        let [next, stop, first] = close(table, whole);
        Tally {
            drawn: next.min(u64::from(pieces)) as u32,
            stopped: stop == 1,
            first: first as u32,
        }
    }
}
