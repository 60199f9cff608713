//! The least piece that doesn't pass a test.
ghost use Rattle.std.specs.Prelude.{◌≡◌, ℕ, ◌+◌, ◌<◌, ◌≤◌, true, false, length, IfOk};
ghost use Rattle.std.specs.List.{All};
ghost use Rattle.claims.specs.Views.{most_pieces, most_seats, is_over};
ghost use Rattle.claims.specs.Seated.{IsSeatOf};
ghost use Rattle.workers.specs.Seating.{IsNewSeat, HasClaimed};
ghost use Rattle.workers.specs.Testing.{Passing, Failing, Judged, LowFails, Sought, AreBack, LowAndTold};

use crate::cascade::at_each_seat;
use crate::seats::seats_for;
use claims::{Board, Claim, Seat};
use serial::NoMemory;
use std::alloc::{AllocError, Global};
use std::thread::Threads;

// Tests a piece that the seat drew, unless the piece is at or above the bound. Lowers the bound to
// the piece where it doesn't pass.
fn judge<F: Fn(u32) -> bool>(board: &Board, passes: &F, seat: &mut Seat, piece: u32)
    requires own { IsSeatOf board.now seat.old }
    requires piece { piece < board.now.pieces }
    requires can { F.pre passes.now piece }
    ensures own { IsSeatOf board.now seat.new }
    ensures same { LowAndTold seat.old.view seat.new.view }
    ensures kept { (j : ℕ) → Judged (Passing (F.post passes.now)) seat.old.view j
        → Judged (Passing (F.post passes.now)) seat.new.view j }
    ensures judged { Judged (Passing (F.post passes.now)) seat.new.view piece }
    ensures low { LowFails (Failing (F.post passes.now)) board.now.pieces seat.old.view
        → LowFails (Failing (F.post passes.now)) board.now.pieces seat.new.view }
{
    if board.bound(seat) <= piece {
        return;
    }
    if !passes(piece) {
        board.lower(seat, piece);
    }
}

// Judges pieces from the seat's first claim on, until the seat is over.
fn seek<F: Fn(u32) -> bool>(board: &Board, passes: &F, mut seat: Seat, first: Claim) -> Seat
    requires first { HasClaimed board.now seat first }
    requires can { (k : ℕ) → k < board.now.pieces → F.pre passes.now k }
    ensures sought { Sought (Passing (F.post passes.now)) (Failing (F.post passes.now)) board.now
        result }
    ensures over { is_over result.view ≡ true }
{
    let mut claim = first;
    'claiming: while let Claim::Piece(piece) = claim {
        judge(board, passes, &mut seat, piece);
        claim = board.claim(&mut seat);
    }
    seat
}

// Each seat that claims seeks, in a thread of its own where one can be made. Beside them the
// seats that don't claim.
fn seek_all<R: Threads + Sync, F: Fn(u32) -> bool + Sync>(
    threads: &R,
    alloc: Global,
    board: &Board,
    passes: &F,
    seats: Vec<Seat>,
) -> Result<(Vec<Seat>, Vec<Seat>), AllocError>
    requires seats { All (IsNewSeat board.now) seats.items }
    requires can { (k : ℕ) → k < board.now.pieces → F.pre passes.now k }
    ensures count { IfOk result (λ p. length p.0.items + length p.1.items ≡ length seats.items) }
    ensures some { IfOk result (λ p. 0 < length seats.items → 0 < length p.0.items) }
    ensures back { IfOk result (λ p. AreBack (Passing (F.post passes.now))
        (Failing (F.post passes.now)) board.now p.0.items) }
    ensures unused { IfOk result (λ p. All (IsNewSeat board.now) p.1.items) }
{
    at_each_seat(
        threads,
        alloc,
        board,
        &|seat: Seat, first: Claim| -> Seat
            requires { HasClaimed board.now seat first × ((k : ℕ) → k < board.now.pieces
                → F.pre passes.now k) }
            ensures { Sought (Passing (F.post passes.entry.now)) (Failing (F.post passes.entry.now))
                board.entry.now result × (is_over result.view ≡ true) }
        { seek(board, passes, seat, first) },
        seats,
    )
}

/// The least piece for which `passes` returns false, or the number of pieces where there is none.
///
/// The result is the same for any number of workers and any order of their tests. A worker passes
/// over a piece only at or above one that was found to fail.
///
/// Returns `NoMemory` where there is no memory for the board, its seats or a list.
pub fn first_failing<R: Threads + Sync, F: Fn(u32) -> bool + Sync>(
    threads: &R,
    alloc: Global,
    pieces: u32,
    workers: u32,
    passes: &F,
) -> Result<u32, NoMemory>
    requires pieces { pieces ≤ most_pieces }
    requires workers { (1 ≤ workers) × (workers ≤ most_seats) }
    requires can { (k : ℕ) → k < pieces → F.pre passes.now k }
    ensures within { IfOk result (λ n. n ≤ pieces) }
    ensures least { IfOk result (λ n. (k : ℕ) → k < n → F.post passes.now k true) }
    ensures fails { IfOk result (λ n. n < pieces → F.post passes.now n false) }
{
    let (board, seats) = Board::open(alloc, pieces, seats_for(pieces, workers))?;
    let (mut back, mut seats) = seek_all(threads, alloc, &board, passes, seats)?;
    seats.append(&mut back)?;
    let tally = board.gather(seats);
    Ok(tally.first)
}
