//! Measures how long a claim takes. `bench_claims BOARDS` opens that many boards of 10,000 pieces
//! for 1, 2 and 4 threads each, and prints the nanoseconds that a thread spends on one claim. With
//! no argument it opens one board for each, and prints nothing.
#![tactic(auto)]

ghost use Rattle.std.specs.Prelude.{◌≤◌};
ghost use Rattle.claims.specs.Views.{most_seats};
ghost use Rattle.claims.specs.Seated.{IsSeatOf};

use claims::{Board, NoMemory, Seat};
use std::alloc::Global;
use std::hint::spin_loop;
use std::sync::atomic::AtomicU32;
use std::sync::atomic::Ordering::SeqCst;
use std::thread::{Threads, map_vec};
use std::time::{Clock, Instant};
use std::{env, io};

const PIECES: u32 = 10_000;

const MEETING_TURNS: u32 = 1_000_000;

// How many claims were made, and how many nanoseconds the threads that made them took, added up.
#[derive(Clone, Copy)]
struct Spent {
    claims: u64,
    nanos: u64,
}

impl Spent {
    fn plus(self, other: Spent) -> Spent {
        Spent {
            claims: self.claims.saturating_add(other.claims),
            nanos: self.nanos.saturating_add(other.nanos),
        }
    }
}

// Waits, for a bounded time, until so many threads have come here, so that they claim at once.
fn meet(begun: &AtomicU32, threads: u32) {
    begun.fetch_add(1, SeqCst);
    for _ in 0..MEETING_TURNS {
        if begun.load(SeqCst) >= threads {
            break;
        }
        spin_loop();
    }
}

// Claims until the seat is over. None where the clock can't be read.
fn claim_all<R: Clock>(rt: &R, board: &Board, mut seat: Seat) -> Option<Spent>
    requires { IsSeatOf board.now seat }
{
    let start = Instant::now(rt).ok()?;
    let mut claims: u64 = 0;
    'claiming: while !seat.is_over() {
        board.claim(&mut seat);
        claims = claims.saturating_add(1);
    }
    let nanos = start.elapsed(rt).ok()?.as_nanos();
    Some(Spent {
        claims,
        nanos: u64::try_from(nanos).unwrap_or(u64::MAX),
    })
}

// One board, from which so many threads claim at once.
fn time_board<R: Threads + Sync + Clock>(
    rt: &R,
    alloc: Global,
    threads: u32,
) -> Result<Spent, NoMemory>
    requires { (1 ≤ threads) × (threads ≤ most_seats) }
{
    let (board, seats) = Board::open(alloc, PIECES, threads)?;
    let board = &board;
    let begun = &AtomicU32::new(0);
    let all = map_vec(
        rt,
        seats,
        &|seat: Seat| -> Option<Spent>
            requires { IsSeatOf board.now seat }
        {
            meet(begun, threads);
            claim_all(rt, board, seat)
        },
    )?;
    let mut sum = Spent {
        claims: 0,
        nanos: 0,
    };
    for spent in all {
        if let Some(spent) = spent {
            sum = sum.plus(spent);
        }
    }
    Ok(sum)
}

// The tenths of a nanosecond that a claim took, over so many boards.
fn time_boards<R: Threads + Sync + Clock>(
    rt: &R,
    alloc: Global,
    threads: u32,
    boards: u32,
) -> Result<u64, NoMemory>
    requires { (1 ≤ threads) × (threads ≤ most_seats) }
{
    let mut sum = Spent {
        claims: 0,
        nanos: 0,
    };
    for _ in 0..boards {
        sum = sum.plus(time_board(rt, alloc, threads)?);
    }
    Ok(sum.nanos.saturating_mul(10) / sum.claims.max(1))
}

fn main(rt: HostRuntime) -> io::Result<()> {
    let asked = env::args(&rt)?.nth(1);
    let boards = asked.as_ref().and_then(|word| word.parse::<u32>().ok());
    for threads in [1, 2, 4] {
        let Ok(tenths) = time_boards(&rt, rt.alloc(), threads, boards.unwrap_or(1)) else {
            return Err(io::ErrorKind::OutOfMemory.into());
        };
        if boards.is_some() {
            println!(&rt;
                "{threads} threads: {}.{} ns a claim",
                tenths / 10,
                tenths % 10
            )?;
        }
    }
    Ok(())
}
