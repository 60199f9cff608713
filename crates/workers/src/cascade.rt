//! Threads that are started one after the other, as long as there are pieces left.
ghost use Rattle.std.specs.Prelude.{◌≡◌, ◌+◌, ◌<◌, length, IfOk};
ghost use Rattle.std.specs.List.{All};
ghost use Rattle.std.specs.Thread.{IsSync, IsSend};
ghost use Rattle.std.specs.Vec.{vec_capacity};
ghost use Rattle.workers.specs.Seating.{IsNewSeat, CanWork, IsGivenBy, AreNext};

use claims::{Board, Claim, Seat};
use std::alloc::{AllocError, Global};
use std::thread::{Threads, join};

/// For up to how many seats the calling thread starts all threads. Threads that start each other often
/// share a core for some milliseconds.
const FEW: usize = 8;

/// What `work` returns for each seat that claims, and the seats that don't. It is called with the
/// seat, and with what the seat's first claim returned.
///
/// A seat that draws a piece works in a new thread, where one can be made, and the calling thread goes
/// on with the other seats. Of many seats it leaves all but one to a new thread, which does the same.
/// So few threads are started for short pieces. Where a seat draws none, all pieces are drawn or a
/// worker raised. Then the others don't claim.
///
/// Returns `AllocError` where there is no memory for the list of the results. No seat has claimed
/// then.
pub(crate) fn at_each_seat<R: Threads + Sync, X: Send + Drop, F: Fn(Seat, Claim) -> X + Sync>(
    threads: &R,
    alloc: Global,
    board: &Board,
    work: &F,
    seats: Vec<Seat>,
) -> Result<(Vec<X>, Vec<Seat>), AllocError>
    requires seats { All (IsNewSeat board.now) seats.items }
    requires can { CanWork board.now (F.pre work.now) }
    ensures count { IfOk result (λ p. length p.0.items + length p.1.items ≡ length seats.items) }
    ensures some { IfOk result (λ p. 0 < length seats.items → 0 < length p.0.items) }
    ensures each { IfOk result (λ p. All (IsGivenBy (F.post work.now)) p.0.items) }
    ensures unused { IfOk result (λ p. All (IsNewSeat board.now) p.1.items) }
{
    let all = Vec::with_capacity(alloc, seats.len())?;
    Ok(seat_by_seat(threads, board, work, seats, all))
}

// Adds what `work` returns for the last seat that claims. The seats that are left don't claim.
fn give_last<X: Drop, F: Fn(Seat, Claim) -> X>(
    work: &F,
    seat: Seat,
    first: Claim,
    mut all: Vec<X>,
    left: Vec<Seat>,
) -> (Vec<X>, Vec<Seat>)
    requires can { F.pre work.now seat first }
    requires room { length all.items < vec_capacity all }
    requires each { All (IsGivenBy (F.post work.now)) all.items }
    ensures room { vec_capacity result.0 ≡ vec_capacity all }
    ensures more { length result.0.items ≡ length all.items + 1 }
    ensures each { All (IsGivenBy (F.post work.now)) result.0.items }
    ensures left { result.1.items ≡ left.items }
{
    all.push_reserved(work(seat, first));
    (all, left)
}

// Calls both, one in this thread and one in a new one, where one can be made. The first is called in
// the new one where `moves_first` is true, and else the second.
fn side_by_side<R: Threads, X: Send, Y: Send, F: FnOnce() -> X + Send, G: FnOnce() -> Y + Send>(
    threads: &R,
    moves_first: bool,
    first: F,
    second: G,
) -> (X, Y)
    requires { F.pre first × G.pre second }
    ensures first { F.post first result.0 }
    ensures second { G.post second result.1 }
{
    if moves_first {
        return join(threads, first, second);
    }
    let (made, other) = join(threads, second, first);
    (other, made)
}

// Adds what `work` returns for each seat that claims, for which there is room, and returns the seats
// that don't claim. The piece that a seat draws and the other seats go to two threads, so that a long
// piece holds no seat up.
#[cycle(cascade)]
fn seat_by_seat<R: Threads + Sync, X: Send + Drop, F: Fn(Seat, Claim) -> X + Sync>(
    threads: &R,
    board: &Board,
    work: &F,
    mut seats: Vec<Seat>,
    all: Vec<X>,
) -> (Vec<X>, Vec<Seat>)
    requires next { AreNext board.now (F.post work.now) seats.items all.items (vec_capacity all) }
    requires can { CanWork board.now (F.pre work.now) }
    ensures room { vec_capacity result.0 ≡ vec_capacity all }
    ensures count { length result.0.items + length result.1.items
        ≡ length all.items + length seats.items }
    ensures some { 0 < length seats.items → length all.items < length result.0.items }
    ensures each { All (IsGivenBy (F.post work.now)) result.0.items }
    ensures unused { All (IsNewSeat board.now) result.1.items }
{
    let Some(mut seat) = seats.pop() else {
        return (all, seats);
    };
    let first = board.claim(&mut seat);
    let has_piece = matches!(first, Claim::Piece(_));
    if !has_piece || seats.is_empty() {
        return give_last(work, seat, first, all, seats);
    }
    let are_few = seats.len() < FEW;
    let others = move || -> (Vec<X>, Vec<Seat>)
        requires { IsSync R.row × IsSync F.row × IsSend X.row × CanWork board.now (F.pre work.now)
            × AreNext board.now (F.post work.now) seats.items all.items (vec_capacity all) }
        ensures { (vec_capacity result.0 ≡ vec_capacity all)
            × (length result.0.items + length result.1.items
            ≡ length all.items + length seats.items)
            × All (IsGivenBy (F.post work.entry.now)) result.0.items
            × All (IsNewSeat board.entry.now) result.1.items × (0 < length seats.items
            → length all.items < length result.0.items) }
    { seat_by_seat(threads, board, work, seats, all) };
    let own = move || -> X
        requires { F.pre work.now seat first }
        ensures { F.post work.entry.now seat first result }
    { work(seat, first) };
    let (last, (mut given, unused)) = side_by_side(threads, are_few, own, others);
    given.push_reserved(last);
    (given, unused)
}
