//! What all pieces of a work give.
ghost use Rattle.std.specs.Prelude.{◌≡◌, ◌+◌, ◌++◌, ◌<◌, ◌≤◌, false, length, map, IfOk, IfSome, IsSome};
ghost use Rattle.std.specs.List.{All, flat_map};
ghost use Rattle.claims.specs.Views.{most_pieces, most_seats};
ghost use Rattle.claims.specs.Seated.{IsSeatOf};
ghost use Rattle.workers.specs.Seating.{IsNewSeat, HasClaimed};
ghost use Rattle.workers.specs.Working.{IsLeft, CanGiveAll, given_at, Gives, RaisedOnly, HasWorked, AreGivenOnce};

use crate::cascade::at_each_seat;
use crate::seats::seats_for;
use claims::{Board, Claim, Seat};
use serial::NoMemory;
use std::alloc::{AllocError, Global};
use std::thread::Threads;

/// What a worker brings back: its seat, and the items of its pieces.
#[derive(Drop)]
pub(crate) struct Worked<X> {
    pub(crate) seat: Seat,
    pub(crate) items: Vec<X>,
}

/// What a worker has from piece to piece: what it works with, and the items that its pieces gave.
#[derive(Drop)]
pub struct WorkerState<D, X> {
    /// What it works with. There is none before its first piece.
    pub workspace: Option<D>,
    /// What its pieces gave.
    pub items: Vec<X>,
}

// A worker with this state does a piece. There is no state after it where there was none, or no
// memory.
fn give_at<D: Drop, X: Drop, F: Fn(u32, WorkerState<D, X>) -> Result<WorkerState<D, X>, NoMemory>>(
    give: &F,
    piece: u32,
    state: Option<WorkerState<D, X>>,
) -> Option<WorkerState<D, X>>
    requires { IfSome state (F.pre give.now piece) }
    ensures { IfSome result (λ after. IsLeft (F.post give.now piece) state after) }
{
    match give(piece, state?) {
        Ok(after) => Some(after),
        Err(_) => None,
    }
}

// Does a piece that the seat drew. A worker that finds no memory raises, and so its next claim
// returns `Stopped`.
fn do_piece<D: Drop, X: Drop, F: Fn(u32, WorkerState<D, X>) -> Result<WorkerState<D, X>, NoMemory>>(
    board: &Board,
    give: &F,
    seat: &mut Seat,
    piece: u32,
    state: Option<WorkerState<D, X>>,
) -> Option<WorkerState<D, X>>
    requires own { IsSeatOf board.now seat.old }
    requires can { IfSome state (F.pre give.now piece) }
    ensures own { IsSeatOf board.now seat.new }
    ensures same { RaisedOnly seat.old.view seat.new.view }
    ensures left { IfSome result (λ after. IsLeft (F.post give.now piece) state after) }
    ensures calm { seat.new.view.raised ≡ false → (seat.old.view.raised ≡ false) × IsSome result }
{
    let after = give_at(give, piece, state);
    if after.is_none() {
        board.raise(seat);
    }
    after
}

// The items of a state, and none where there is no state.
fn items_at<D: Drop, X: Drop>(alloc: Global, state: Option<WorkerState<D, X>>) -> Vec<X>
    ensures { result.items ≡ given_at state }
{
    match state {
        Some(
            WorkerState {
                workspace: _,
                items,
            },
        ) => items,
        None => Vec::new(alloc),
    }
}

// Does pieces from the seat's first claim on, until the seat is over. One state leads through all.
fn work_one<D: Drop, X: Drop, F: Fn(u32, WorkerState<D, X>) -> Result<WorkerState<D, X>, NoMemory>>(
    alloc: Global,
    board: &Board,
    give: &F,
    mut seat: Seat,
    first: Claim,
) -> Worked<X>
    requires first { HasClaimed board.now seat first }
    requires can { CanGiveAll board.now.pieces (F.pre give.now) (F.post give.now) }
    ensures { HasWorked (Gives (F.post give.now)) board.now result }
{
    let mut state = Some(WorkerState {
        workspace: None,
        items: Vec::new(alloc),
    });
    let mut claim = first;
    'claiming: while let Claim::Piece(piece) = claim {
        state = do_piece(board, give, &mut seat, piece, state);
        claim = board.claim(&mut seat);
    }
    let items = items_at(alloc, state);
    Worked { seat, items }
}

// Each seat that claims works, in a thread of its own where one can be made. Beside them the
// seats that don't claim.
fn work_all<
    R: Threads + Sync,
    D: Send + Drop,
    X: Send + Drop,
    F: Fn(u32, WorkerState<D, X>) -> Result<WorkerState<D, X>, NoMemory> + Sync,
>(
    threads: &R,
    alloc: Global,
    board: &Board,
    give: &F,
    seats: Vec<Seat>,
) -> Result<(Vec<Worked<X>>, Vec<Seat>), AllocError>
    requires seats { All (IsNewSeat board.now) seats.items }
    requires can { CanGiveAll board.now.pieces (F.pre give.now) (F.post give.now) }
    ensures count { IfOk result (λ p. length p.0.items + length p.1.items ≡ length seats.items) }
    ensures some { IfOk result (λ p. 0 < length seats.items → 0 < length p.0.items) }
    ensures worked { IfOk result (λ p. All (HasWorked (Gives (F.post give.now)) board.now)
        p.0.items) }
    ensures unused { IfOk result (λ p. All (IsNewSeat board.now) p.1.items) }
{
    at_each_seat(
        threads,
        alloc,
        board,
        &|seat: Seat, first: Claim| -> Worked<X>
            requires { HasClaimed board.now seat first
                × CanGiveAll board.now.pieces (F.pre give.now) (F.post give.now) }
            ensures { HasWorked (Gives (F.post give.entry.now)) board.entry.now result }
        { work_one(alloc, board, give, seat, first) },
        seats,
    )
}

// Splits the results: the seats, after those that didn't claim, and all items in one list.
fn part<X: Drop>(
    alloc: Global,
    all: Vec<Worked<X>>,
    mut seats: Vec<Seat>,
) -> Result<(Vec<Seat>, Vec<X>), AllocError>
    ensures seats { IfOk result (λ p. p.0.items ≡ seats.items ++ map (λ w. w.seat) all.items) }
    ensures items { IfOk result (λ p. p.1.items ≡ flat_map (λ w. w.items.items) all.items) }
{
    let mut items = Vec::new(alloc);
    for worked in all {
        let Worked {
            seat,
            items: mut given,
        } = worked;
        seats.push(seat)?;
        items.append(&mut given)?;
    }
    Ok((seats, items))
}

/// What all pieces give: the items of each piece side by side, the pieces in any order, each once.
///
/// `give` does a piece with the worker's state, and adds the items of the piece to those there. A
/// worker does all its pieces with one state, one after the other. It begins without a workspace.
///
/// Returns `NoMemory` where there is no memory for the board, its seats or a list, and where `give`
/// returned it for a piece. The worker that met it raises, and each other one stops at a claim that
/// sees the raise. Nothing else is returned then.
pub fn give_all<
    R: Threads + Sync,
    D: Send + Drop,
    X: Send + Drop,
    F: Fn(u32, WorkerState<D, X>) -> Result<WorkerState<D, X>, NoMemory> + Sync,
>(threads: &R, alloc: Global, pieces: u32, workers: u32, give: &F) -> Result<Vec<X>, NoMemory>
    requires pieces { pieces ≤ most_pieces }
    requires workers { (1 ≤ workers) × (workers ≤ most_seats) }
    requires can { CanGiveAll pieces (F.pre give.now) (F.post give.now) }
    ensures { IfOk result (λ items. AreGivenOnce (Gives (F.post give.now)) pieces items.items) }
{
    let (board, seats) = Board::open(alloc, pieces, seats_for(pieces, workers))?;
    let (all, unused) = work_all(threads, alloc, &board, give, seats)?;
    let (seats, items) = part(alloc, all, unused)?;
    let tally = board.gather(seats);
    if tally.stopped {
        return Err(NoMemory);
    }
    Ok(items)
}
