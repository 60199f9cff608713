//! Tests that the workers of a plan work at once, that no more work than there are, and that each
//! run is made once.
use crate::documents::{batch_of, copies_of};
use crate::{Crowd, Meeting, Tally};
use rounds::{Plan, execute};
use speculate::Gate;
use std::alloc::{AllocError, AllocGlobal};
use std::process::Abort;
use std::thread::Threads;

const OBJECTS: &str =
    "{\"name\":\"a\",\"kind\":\"account\",\"start\":100},{\"name\":\"b\",\"kind\":\"account\",\"start\":0}";

const WITHDRAWAL: &str = "{\"op\":[\"a\",\"withdraw\",1]}";

const DEPOSIT: &str = "{\"op\":[\"b\",\"deposit\",1]}";

const CHILD: &str = "{\"sub\":[{\"op\":[\"b\",\"deposit\",1]}]}";

/// Runs these transactions with a plan, and returns how often each was run.
fn runs_of<G: Gate>(
    rt: &(impl Threads + Sync + Abort + AllocGlobal),
    transactions: &str,
    plan: (u32, u32),
    gate: &G,
) -> Vec<u32> {
    let batch = batch_of(rt, 4, OBJECTS, transactions);
    let (workers, cut) = plan;
    let plan = Plan::new(workers, cut).expect(rt, "a plan");
    let Ok(outcome) = execute(rt, rt.alloc(), &batch, plan, gate) else {
        panic!(rt; "no memory")
    };
    outcome.runs
}

/// Stops the test where the held call of `pass` doesn't meet the other one.
fn meets(
    rt: &(impl Threads + Sync + Abort + AllocGlobal),
    transactions: &str,
    plan: (u32, u32),
    held: (u32, u32),
    other: (u32, u32),
) {
    let gate = Meeting::new(held, other);
    let _runs = runs_of(rt, transactions, plan, &gate);
    let (workers, cut) = plan;
    assert!(rt; gate.has_met(), "workers {workers} cut {cut}");
}

/// So many transactions, each of a parallel step with so many children.
fn wide_steps(rt: &(impl Abort + AllocGlobal), transactions: usize, children: usize) -> String {
    let children = copies_of(rt, CHILD, children);
    let Ok(transaction) = format!(in rt.alloc(); "[{{\"parallel\":[{children}]}}]") else {
        panic!(rt; "no memory")
    };
    copies_of(rt, transaction.as_str(), transactions)
}

/// So many transactions, each of so many deposits.
fn long_transactions(
    rt: &(impl Abort + AllocGlobal),
    transactions: usize,
    deposits: usize,
) -> String {
    let deposits = copies_of(rt, DEPOSIT, deposits);
    let Ok(transaction) = format!(in rt.alloc(); "[{deposits}]") else {
        panic!(rt; "no memory")
    };
    copies_of(rt, transaction.as_str(), transactions)
}

/// Two transactions of one step each.
fn two_transactions(rt: &(impl Abort + AllocGlobal), first: &str, second: &str) -> String {
    let Ok(text) = format!(in rt.alloc(); "[{first}],[{second}]") else {
        panic!(rt; "no memory")
    };
    text
}

#[test]
fn two_children_of_a_step_meet_in_a_batch(rt: HostRuntime) {
    let transactions = wide_steps(&rt, 1, 2);
    for cut in [1, 16] {
        meets(&rt, transactions.as_str(), (2, cut), (1, 1), (1, 2));
    }
}

// Four workers and a cut of 16 are what `ordtx run` has without options. The first piece has 16
// transactions, and there is work for two workers.
#[test]
fn two_pieces_meet_under_the_default_plan(rt: HostRuntime) {
    let transactions = long_transactions(&rt, 17, 512);
    meets(&rt, transactions.as_str(), (4, 16), (1, 0), (17, 0));
}

#[test]
fn an_abort_alone_meets_another_transaction(rt: HostRuntime) {
    let abort = "{\"abort\":true}";
    for (first, second) in [(abort, DEPOSIT), (DEPOSIT, abort), (abort, abort)] {
        let transactions = two_transactions(&rt, first, second);
        meets(&rt, transactions.as_str(), (2, 1), (1, 0), (2, 0));
    }
}

/// Stops the test where other than as many children as workers are at once at most, in so many
/// transactions.
fn crowds(rt: &(impl Threads + Sync + Abort + AllocGlobal), workers: u32, transactions: usize) {
    let steps = wide_steps(rt, transactions, 8);
    let gate = Crowd::new(workers);
    let _runs = runs_of(rt, steps.as_str(), (workers, 1), &gate);
    assert_eq!(rt;
        gate.most(),
        workers,
        "workers {workers} transactions {transactions}"
    );
}

#[test]
fn no_more_children_are_at_once_than_workers(rt: HostRuntime) {
    for workers in [1, 2, 4] {
        for transactions in [1, 2, 5] {
            crowds(&rt, workers, transactions);
        }
    }
}

/// Three times two transactions that withdraw and one that doesn't, each with so many deposits.
fn withdrawals_and_deposits(rt: &(impl Abort + AllocGlobal), deposits: usize) -> String {
    let deposits = copies_of(rt, DEPOSIT, deposits);
    let Ok(three) = format!(in rt.alloc();
        "[{WITHDRAWAL},{deposits}],[{WITHDRAWAL},{deposits}],[{deposits}]"
    ) else {
        panic!(rt; "no memory")
    };
    copies_of(rt, three.as_str(), 3)
}

/// A gate that counts the runs of each of nine transactions.
fn tally_of_nine(rt: &(impl Abort + AllocGlobal)) -> Tally {
    let Ok(tally) = Tally::new(rt.alloc(), 9) else {
        panic!(rt; "no memory")
    };
    tally
}

/// Stops the test where the counts are others.
fn are_counts(rt: &impl Abort, counts: Result<Vec<u32>, AllocError>, wanted: &[u32]) {
    let Ok(counts) = counts else {
        panic!(rt; "no memory")
    };
    assert!(rt; counts.as_slice() == wanted);
}

/// Stops the test where a withdrawal isn't run once more for each before it, or a deposit not once.
fn runs_each_as_counted(
    rt: &(impl Threads + Sync + Abort + AllocGlobal),
    transactions: &str,
    plan: (u32, u32),
) {
    let wanted = [1, 2, 1, 3, 4, 1, 5, 6, 1];
    let tally = tally_of_nine(rt);
    let runs = runs_of(rt, transactions, plan, &tally);
    assert!(rt; runs.as_slice() == wanted.as_slice());
    are_counts(rt, tally.begun(rt.alloc()), &wanted);
    are_counts(rt, tally.made(rt.alloc()), &wanted);
}

#[test]
fn each_transaction_is_made_as_often_as_its_count_says(rt: HostRuntime) {
    // With 300 operations each there is work for several workers with a cut of 3, too.
    for operations in [1, 300] {
        let transactions = withdrawals_and_deposits(&rt, operations);
        for workers in [1, 2, 4] {
            for cut in [1, 3] {
                runs_each_as_counted(&rt, transactions.as_str(), (workers, cut));
            }
        }
    }
}
