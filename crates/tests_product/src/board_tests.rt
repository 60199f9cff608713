//! Tests of the claim board.
ghost use Rattle.std.specs.Prelude.{◌≡◌, ◌≤◌, ◌∷◌, [], false, length, IfOk};
ghost use Rattle.std.specs.List.{All};
ghost use Rattle.claims.specs.Views.{most_pieces, most_seats, fresh, is_over};
ghost use Rattle.claims.specs.Seated.{IsSeatOf};

use claims::{Board, Claim, NoMemory, Seat, Tally};
use meaning::limits::MAX_TRANSACTIONS;
use std::alloc::{AllocError, Global};
use std::process::Abort;
use std::test::Fail;
use std::thread::{Threads, join};

/// As many pieces as a board has at most.
const PIECES: u32 = MAX_TRANSACTIONS as u32;

// Claims a piece, and stops the test where the claim returns none.
fn piece(rt: &impl Abort, board: &Board, seat: &mut Seat) -> u32
    requires board { IsSeatOf board.now seat.old }
    requires going { is_over seat.old.view ≡ false }
    ensures board { IsSeatOf board.now seat.new }
    ensures going { is_over seat.new.view ≡ false }
{
    match board.claim(seat) {
        Claim::Piece(k) => k,
        _ => panic!(rt; "no piece"),
    }
}

// A new board of so many pieces, and its two seats.
fn pair(rt: &impl Abort, alloc: Global, pieces: u32) -> (Board, Seat, Seat)
    requires { pieces ≤ most_pieces }
    ensures own { IsSeatOf result.0 result.1 × IsSeatOf result.0 result.2 }
    ensures going { (is_over result.1.view ≡ false) × (is_over result.2.view ≡ false) }
    ensures size { (result.0.pieces ≡ pieces) × (result.0.seats ≡ 2) }
{
    let Ok((board, mut seats)) = Board::open(alloc, pieces, 2) else {
        panic!(rt; "no memory")
    };
    let (Some(b), Some(a)) = (seats.pop(), seats.pop()) else {
        panic!(rt; "no seat")
    };
    (board, a, b)
}

// Claims, and stops the test where the claim returns another piece.
fn draws(rt: &impl Abort, board: &Board, seat: &mut Seat, k: u32)
    requires board { IsSeatOf board.now seat.old }
    requires going { is_over seat.old.view ≡ false }
    ensures board { IsSeatOf board.now seat.new }
    ensures going { is_over seat.new.view ≡ false }
{
    let drawn = piece(rt, board, seat);
    assert_eq!(rt; drawn, k);
}

// Claims, and stops the test where the claim returns something else.
fn claim_returns(rt: &impl Abort, board: &Board, seat: &mut Seat, expected: Claim)
    requires board { IsSeatOf board.now seat.old }
    requires going { is_over seat.old.view ≡ false }
    ensures { IsSeatOf board.now seat.new }
{
    let claim = board.claim(seat);
    assert_eq!(rt; claim, expected);
}

// Stops the test where the bound is another.
fn bounds(rt: &impl Abort, board: &Board, seat: &mut Seat, expected: u32)
    requires { IsSeatOf board.now seat.old }
    ensures board { IsSeatOf board.now seat.new }
    ensures going { is_over seat.new.view ≡ is_over seat.old.view }
{
    let bound = board.bound(seat);
    assert_eq!(rt; bound, expected);
}

// Gathers the two seats, and stops the test where the tally is another.
fn gathers(rt: &impl Abort, alloc: Global, board: Board, a: Seat, b: Seat, expected: Tally)
    requires own { IsSeatOf board a × IsSeatOf board b }
    requires all { board.seats ≡ 2 }
{
    let Ok(mut seats) = Vec::with_capacity(alloc, 2) else {
        panic!(rt; "no memory")
    };
    seats.push_reserved(a);
    seats.push_reserved(b);
    let tally = board.gather(seats);
    assert_eq!(rt; tally, expected);
}

#[test]
fn two_seats_draw_each_piece_once(rt: HostRuntime) {
    let (board, mut a, mut b) = pair(&rt, rt.alloc(), 3);
    draws(&rt, &board, &mut a, 0);
    draws(&rt, &board, &mut b, 1);
    draws(&rt, &board, &mut b, 2);
    claim_returns(&rt, &board, &mut a, Claim::Done);
    assert!(rt; a.is_over() && !b.is_over());
    let tally = Tally {
        drawn: 3,
        stopped: false,
        first: 3,
    };
    gathers(&rt, rt.alloc(), board, a, b, tally);
}

#[test]
fn a_raise_stops_the_other_seat(rt: HostRuntime) {
    let (board, mut a, mut b) = pair(&rt, rt.alloc(), 3);
    draws(&rt, &board, &mut a, 0);
    board.raise(&mut b);
    claim_returns(&rt, &board, &mut a, Claim::Stopped);
    let tally = Tally {
        drawn: 1,
        stopped: true,
        first: 3,
    };
    gathers(&rt, rt.alloc(), board, a, b, tally);
}

#[test]
fn the_bound_is_the_least_that_any_seat_lowered_to(rt: HostRuntime) {
    let (board, mut a, mut b) = pair(&rt, rt.alloc(), 3);
    board.lower(&mut a, 1);
    bounds(&rt, &board, &mut b, 1);
    board.lower(&mut b, 2);
    bounds(&rt, &board, &mut a, 1);
    let tally = Tally {
        drawn: 0,
        stopped: false,
        first: 1,
    };
    gathers(&rt, rt.alloc(), board, a, b, tally);
}

#[test]
fn a_board_of_no_pieces_is_done_at_once(rt: HostRuntime) {
    let (board, mut a, mut b) = pair(&rt, rt.alloc(), 0);
    claim_returns(&rt, &board, &mut a, Claim::Done);
    bounds(&rt, &board, &mut b, 0);
    claim_returns(&rt, &board, &mut b, Claim::Done);
    let tally = Tally {
        drawn: 0,
        stopped: false,
        first: 0,
    };
    gathers(&rt, rt.alloc(), board, a, b, tally);
}

// Each seat claims once. In one thread the pieces come in order.
fn claim_once_each(
    rt: &impl Abort,
    alloc: Global,
    board: &Board,
    seats: Vec<Seat>,
) -> Result<Vec<Seat>, AllocError>
    requires { All (λ s. IsSeatOf board.now s × (s.view ≡ fresh 1 board.now.pieces)) seats.items }
    ensures all { IfOk result (λ after. length after.items ≡ length seats.items) }
    ensures own { IfOk result (λ after. All (λ s. IsSeatOf board.now s) after.items) }
{
    let mut after = Vec::new(alloc);
    for mut seat in seats {
        let piece = piece(rt, board, &mut seat);
        assert_eq!(rt; piece as usize, after.len());
        after.push(seat)?;
    }
    Ok(after)
}

// A board on which each seat claims once.
fn claims_of(rt: &impl Abort, alloc: Global, pieces: u32, seats: u32) -> Result<Tally, NoMemory>
    requires pieces { pieces ≤ most_pieces }
    requires seats { (1 ≤ seats) × (seats ≤ most_seats) }
{
    let (board, seats) = Board::open(alloc, pieces, seats)?;
    let seats = claim_once_each(rt, alloc, &board, seats)?;
    Ok(board.gather(seats))
}

#[test]
fn sixty_four_seats_draw_from_one_board(rt: HostRuntime) -> Result<(), Fail> {
    let tally = claims_of(&rt, rt.alloc(), 100, 64)?;
    assert_eq!(rt;
        tally,
        Tally {
            drawn: 64,
            stopped: false,
            first: 100
        }
    );
    Ok(())
}

// Claims until its seat is over. A piece that finds no room in the list is missing from the count
// of the pieces.
fn claim_all(board: &Board, mut seat: Seat, mut mine: Vec<u32>) -> (Seat, Vec<u32>)
    requires { IsSeatOf board.now seat }
    ensures { IsSeatOf board.now result.0 }
{
    'claiming: while !seat.is_over() {
        if let Claim::Piece(k) = board.claim(&mut seat) {
            let _ = mine.push(k);
        }
    }
    (seat, mine)
}

// Two seats claim, each in a thread of its own.
fn claim_by_two<R: Threads + Sync>(
    rt: &R,
    board: &Board,
    a: Seat,
    b: Seat,
    mine: (Vec<u32>, Vec<u32>),
) -> ((Seat, Vec<u32>), (Seat, Vec<u32>))
    requires { IsSeatOf board.now a × IsSeatOf board.now b }
    ensures { IsSeatOf board.now result.0.0 × IsSeatOf board.now result.1.0 }
{
    let (first, second) = mine;
    join(
        rt,
        move || -> (Seat, Vec<u32>)
            requires { IsSeatOf board.now a }
            ensures { IsSeatOf board.entry.now result.0 }
        { claim_all(board, a, first) },
        move || -> (Seat, Vec<u32>)
            requires { IsSeatOf board.now b }
            ensures { IsSeatOf board.entry.now result.0 }
        { claim_all(board, b, second) },
    )
}

// A count of 0 for each piece. A function of its own, so that no proof goes through all counts.
fn none_counted(alloc: Global, pieces: usize) -> Result<Vec<u8>, AllocError> {
    Vec::from_elem(alloc, 0u8, pieces)
}

// Adds one for each piece to its count.
fn count(rt: &impl Abort, counts: &mut Vec<u8>, pieces: &[u32]) {
    for k in pieces {
        let place = *k as usize;
        assert!(rt; place < counts.len(), "piece {place}");
        counts[place] = counts[place].saturating_add(1);
    }
}

#[test]
fn four_threads_draw_each_piece_once(rt: HostRuntime) -> Result<(), Fail> {
    let alloc = rt.alloc();
    let (board, mut seats) = Board::open(alloc, PIECES, 4)?;
    let (Some(d), Some(c), Some(b), Some(a)) = (seats.pop(), seats.pop(), seats.pop(), seats.pop())
    else {
        panic!(rt; "four seats")
    };
    let lend = &board;
    let (front, back) = join(
        &rt,
        || -> ((Seat, Vec<u32>), (Seat, Vec<u32>))
            requires { IsSeatOf lend.now a × IsSeatOf lend.now b }
            ensures { IsSeatOf lend.entry.now result.0.0 × IsSeatOf lend.entry.now result.1.0 }
        { claim_by_two(&rt, lend, a, b, (Vec::new(alloc), Vec::new(alloc))) },
        || -> ((Seat, Vec<u32>), (Seat, Vec<u32>))
            requires { IsSeatOf lend.now c × IsSeatOf lend.now d }
            ensures { IsSeatOf lend.entry.now result.0.0 × IsSeatOf lend.entry.now result.1.0 }
        { claim_by_two(&rt, lend, c, d, (Vec::new(alloc), Vec::new(alloc))) },
    );
    let ((a, first), (b, second)) = front;
    let ((c, third), (d, fourth)) = back;
    let mut seats = Vec::with_capacity(alloc, 4)?;
    seats.push_reserved(a);
    seats.push_reserved(b);
    seats.push_reserved(c);
    seats.push_reserved(d);
    let tally = board.gather(seats);
    assert_eq!(rt;
        tally,
        Tally {
            drawn: PIECES,
            stopped: false,
            first: PIECES
        }
    );
    let mut counts = none_counted(alloc, PIECES as usize)?;
    for pieces in [&first, &second, &third, &fourth] {
        count(&rt, &mut counts, pieces);
    }
    assert!(rt; counts.iter().all(|n| *n == 1));
    Ok(())
}
