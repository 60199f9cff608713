//! Tests that rounds look no further than they must: how many runs they make, and that runs of one
//! block are made at once.
use crate::documents::{batch_of, copies_of};
use crate::{Counting, FIRST_DECISION, Meeting, SECOND_DECISION};
use batch::Batch;
use rounds::{Plan, execute_ahead};
use speculate::Gate;
use std::alloc::AllocGlobal;
use std::process::Abort;
use std::thread::Threads;

/// Runs a batch with a plan, and returns the rounds.
fn rounds_of<G: Gate>(
    rt: &(impl Threads + Sync + Abort + AllocGlobal),
    batch: &Batch,
    plan: (u32, u32),
    gate: &G,
) -> u32 {
    let (workers, cut) = plan;
    let plan = Plan::new(workers, cut).expect(rt, "a plan");
    let Ok(outcome) = execute_ahead(rt, rt.alloc(), batch, plan, gate) else {
        panic!(rt; "no memory")
    };
    outcome.rounds
}

/// Stops the test where one worker makes more runs than there are transactions and rounds, or four
/// workers more than four for each transaction and 1,000.
fn makes_few_runs(rt: &(impl Threads + Sync + Abort + AllocGlobal), batch: &Batch) {
    let count = batch.transactions.len() as u32;
    for (workers, cut) in [(1, 16), (4, 16), (4, 1)] {
        let gate = Counting::new();
        let rounds = rounds_of(rt, batch, (workers, cut), &gate);
        let most = if workers == 1 {
            count.saturating_add(rounds)
        } else {
            count.saturating_mul(4).saturating_add(1_000)
        };
        assert!(rt;
            gate.all() <= most,
            "workers {workers} cut {cut} rounds {rounds}"
        );
    }
}

/// How many transactions the batches have: so many, and twice as many.
const SIZES: [usize; 2] = [250, 500];

/// Stops the test where copies of a transaction on these objects take too many runs.
fn copies_take_few_runs(
    rt: &(impl Threads + Sync + Abort + AllocGlobal),
    objects: &str,
    transaction: &str,
) {
    for count in SIZES {
        let transactions = copies_of(rt, transaction, count);
        makes_few_runs(rt, &batch_of(rt, 4, objects, transactions.as_str()));
    }
}

/// So many accounts with 1,000 each. Their names are `a0` and so on.
fn accounts(rt: &(impl Abort + AllocGlobal), count: usize) -> String {
    let mut text = String::new(rt.alloc());
    for i in 0..count {
        let comma = if i == 0 { "" } else { "," };
        let Ok(account) = format!(in rt.alloc();
            "{comma}{{\"name\":\"a{i}\",\"kind\":\"account\",\"start\":1000}}"
        ) else {
            panic!(rt; "no memory")
        };
        append(rt, &mut text, account.as_str());
    }
    text
}

/// Appends a part to a text.
fn append(rt: &impl Abort, text: &mut String, part: &str) {
    let Ok(()) = text.push_str(part) else {
        panic!(rt; "no memory")
    };
}

/// Appends a transaction that moves 1 from one account to another.
fn append_transfer(rt: &(impl Abort + AllocGlobal), text: &mut String, from: usize, to: usize) {
    let comma = if text.as_str().is_empty() { "" } else { "," };
    let Ok(transfer) = format!(in rt.alloc();
        "{comma}[{{\"op\":[\"a{from}\",\"withdraw\",1]}},{{\"op\":[\"a{to}\",\"deposit\",1]}}]"
    ) else {
        panic!(rt; "no memory")
    };
    append(rt, text, transfer.as_str());
}

#[test]
fn withdrawals_take_few_runs(rt: HostRuntime) {
    let objects = accounts(&rt, 1);
    copies_take_few_runs(&rt, objects.as_str(), "[{\"op\":[\"a0\",\"withdraw\",1]}]");
}

#[test]
fn sales_take_few_runs(rt: HostRuntime) {
    let objects = accounts(&rt, 2);
    let sale = "[{\"op\":[\"a0\",\"withdraw\",2]},{\"op\":[\"a1\",\"deposit\",5]}]";
    copies_take_few_runs(&rt, objects.as_str(), sale);
}

#[test]
fn transfers_take_few_runs(rt: HostRuntime) {
    for few in [2, 10, 100] {
        let objects = accounts(&rt, few);
        for count in SIZES {
            let mut transactions = String::new(rt.alloc());
            for i in 0..count {
                let from = i.wrapping_mul(7) % few;
                let to = from.wrapping_add(1 + i % (few - 1)) % few;
                append_transfer(&rt, &mut transactions, from, to);
            }
            makes_few_runs(
                &rt,
                &batch_of(&rt, 4, objects.as_str(), transactions.as_str()),
            );
        }
    }
}

#[test]
fn a_queue_that_all_take_from_takes_few_runs(rt: HostRuntime) {
    let queue = "{\"name\":\"q\",\"kind\":\"queue\",\"start\":[\"x\",\"y\",\"z\"]}";
    copies_take_few_runs(
        &rt,
        queue,
        "[{\"op\":[\"q\",\"deq\"]},{\"op\":[\"q\",\"enq\",\"x\"]}]",
    );
}

#[test]
fn inserts_with_sizes_take_few_runs(rt: HostRuntime) {
    let set = "{\"name\":\"s\",\"kind\":\"set\",\"start\":[]}";
    let five =
        "[{\"op\":[\"s\",\"insert\",\"x\"]},{\"op\":[\"s\",\"size\"]}],[{\"op\":[\"s\",\"remove\",\"x\"]},{\"op\":[\"s\",\"size\"]}]";
    copies_take_few_runs(&rt, set, five);
}

#[test]
fn a_chain_takes_few_runs(rt: HostRuntime) {
    for count in SIZES {
        let objects = accounts(&rt, count + 1);
        let mut transactions = String::new(rt.alloc());
        for i in 0..count {
            append_transfer(&rt, &mut transactions, i, i + 1);
        }
        makes_few_runs(
            &rt,
            &batch_of(&rt, 4, objects.as_str(), transactions.as_str()),
        );
    }
}

/// Stops the test where the held call of `pass` doesn't meet the other one.
fn meets(
    rt: &(impl Threads + Sync + Abort + AllocGlobal),
    objects: &str,
    transactions: &str,
    plan: (u32, u32),
    held: (u32, u32),
    other: (u32, u32),
) {
    let batch = batch_of(rt, 4, objects, transactions);
    let gate = Meeting::new(held, other);
    let _rounds = rounds_of(rt, &batch, plan, &gate);
    let (workers, cut) = plan;
    assert!(rt; gate.has_met(), "workers {workers} cut {cut}");
}

#[test]
fn runs_of_a_block_meet(rt: HostRuntime) {
    let objects = accounts(&rt, 3);
    let transactions =
        "[{\"op\":[\"a0\",\"withdraw\",1]}],[{\"op\":[\"a1\",\"withdraw\",1]}],[{\"op\":[\"a2\",\"deposit\",1]}]";
    meets(&rt, objects.as_str(), transactions, (2, 1), (1, 0), (2, 0));
    meets(&rt, objects.as_str(), transactions, (2, 1), (1, 0), (3, 0));
}

#[test]
fn checks_of_a_block_meet(rt: HostRuntime) {
    let objects = accounts(&rt, 2);
    let transactions = "[{\"op\":[\"a0\",\"withdraw\",1]}],[{\"op\":[\"a1\",\"deposit\",1]}]";
    meets(&rt, objects.as_str(), transactions, (2, 1), (0, 1), (0, 2));
}

#[test]
fn decisions_meet(rt: HostRuntime) {
    let objects = accounts(&rt, 2);
    let transactions =
        "[{\"op\":[\"a0\",\"withdraw\",3]}],[{\"op\":[\"a0\",\"withdraw\",5]}],[{\"op\":[\"a0\",\"withdraw\",1]}],[{\"op\":[\"a1\",\"deposit\",1]}]";
    meets(
        &rt,
        objects.as_str(),
        transactions,
        (2, 1),
        FIRST_DECISION,
        SECOND_DECISION,
    );
}

// Four workers and a cut of 16 are what `ordtx run` has without options.
#[test]
fn long_runs_meet_under_the_default_plan(rt: HostRuntime) {
    let objects = accounts(&rt, 1);
    let deposits = copies_of(&rt, "{\"op\":[\"a0\",\"deposit\",1]}", 4_096);
    let Ok(two) = format!(in rt.alloc(); "[{deposits}],[{deposits}]") else {
        panic!(rt; "no memory")
    };
    meets(&rt, objects.as_str(), two.as_str(), (4, 16), (1, 0), (2, 0));
}
