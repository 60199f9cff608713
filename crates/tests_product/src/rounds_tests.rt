//! Tests of the passes of a round on two workers. Two of their calls meet, runs are made as often
//! as they must be, and the first conflict is the same for any number of workers.
use crate::documents::{batch_of, copies_of};
use crate::{Counting, FIRST_DECISION, Meeting, SECOND_DECISION, Tally};
use batch::{Record, Taken};
use intentions::Entry;
use objects::{AccountCall, AccountReply, Amount, Call, Reply};
use rounds::{NoGate, Plan, execute, execute_ahead, first_conflict};
use speculate::{Gate, Run};
use std::alloc::AllocGlobal;
use std::process::Abort;
use std::thread::Threads;

// Withdrawals are from `a`, which has 100, and deposits on `b` and `c`, which have nothing.
const ACCOUNTS: &str =
    "{\"name\":\"a\",\"kind\":\"account\",\"start\":100},{\"name\":\"b\",\"kind\":\"account\",\"start\":0},{\"name\":\"c\",\"kind\":\"account\",\"start\":0}";

/// Runs these transactions with two workers and pieces of one transaction. Returns the rounds.
fn rounds_of<G: Gate>(
    rt: &(impl Threads + Sync + Abort + AllocGlobal),
    objects: &str,
    transactions: &str,
    gate: &G,
) -> u32 {
    let batch = batch_of(rt, 1, objects, transactions);
    let plan = Plan::new(2, 1).expect(rt, "a plan");
    let Ok(outcome) = execute(rt, rt.alloc(), &batch, plan, gate) else {
        panic!(rt; "no memory")
    };
    outcome.rounds
}

/// Stops the test where the held call of `pass` doesn't meet the other one.
fn meets(
    rt: &(impl Threads + Sync + Abort + AllocGlobal),
    transactions: &str,
    held: (u32, u32),
    other: (u32, u32),
) {
    let gate = Meeting::new(held, other);
    let _rounds = rounds_of(rt, ACCOUNTS, transactions, &gate);
    assert!(rt; gate.has_met());
}

const ON_TWO: &str = "[{\"op\":[\"a\",\"withdraw\",30]}],[{\"op\":[\"b\",\"deposit\",1]}]";

const ON_THREE: &str =
    "[{\"op\":[\"a\",\"withdraw\",30]}],[{\"op\":[\"b\",\"deposit\",1]}],[{\"op\":[\"c\",\"deposit\",1]}]";

#[test]
fn two_runs_meet(rt: HostRuntime) {
    meets(&rt, ON_TWO, (1, 0), (2, 0));
}

#[test]
fn third_run_meets(rt: HostRuntime) {
    meets(&rt, ON_THREE, (1, 0), (3, 0));
}

#[test]
fn two_checks_meet(rt: HostRuntime) {
    meets(&rt, ON_TWO, (0, 1), (0, 2));
}

#[test]
fn two_keeps_meet(rt: HostRuntime) {
    let transactions =
        "[{\"op\":[\"a\",\"withdraw\",30]}],[{\"op\":[\"a\",\"withdraw\",50]}],[{\"op\":[\"a\",\"withdraw\",10]}],[{\"op\":[\"b\",\"deposit\",1]}]";
    meets(&rt, transactions, FIRST_DECISION, SECOND_DECISION);
}

#[test]
fn runs_are_made(rt: HostRuntime) {
    let transactions = "[{\"op\":[\"a\",\"withdraw\",80]}],[{\"op\":[\"a\",\"withdraw\",50]}]";
    let gate = Counting::new();
    assert_eq!(rt; rounds_of(&rt, ACCOUNTS, transactions, &gate), 2);
    assert_eq!(rt; gate.made(), [1, 2, 0]);
    assert_eq!(rt; gate.refused(), [0, 2, 0]);
}

#[test]
fn each_withdrawal_is_made_again_until_its_round(rt: HostRuntime) {
    let transactions = copies_of(&rt, "[{\"op\":[\"a\",\"withdraw\",1]}]", 100);
    let gate = Counting::new();
    assert_eq!(rt; rounds_of(&rt, ACCOUNTS, transactions.as_str(), &gate), 100);
    assert_eq!(rt; gate.begun(), [1, 2, 3]);
    assert_eq!(rt; gate.all(), 5050);
}

#[test]
fn another_keys_lookup_is_not_made_again(rt: HostRuntime) {
    let directory = "{\"name\":\"d\",\"kind\":\"directory\",\"start\":[]}";
    let transactions =
        "[{\"op\":[\"d\",\"bind\",\"k\",\"v\"]}],[{\"op\":[\"d\",\"lookup\",\"k\"]}],[{\"op\":[\"d\",\"lookup\",\"j\"]}]";
    let gate = Counting::new();
    assert_eq!(rt; rounds_of(&rt, directory, transactions, &gate), 2);
    assert_eq!(rt; gate.begun(), [1, 2, 1]);
}

#[test]
fn a_run_that_still_stands_is_not_made_again(rt: HostRuntime) {
    let transactions =
        "[{\"op\":[\"a\",\"withdraw\",30]}],[{\"op\":[\"a\",\"withdraw\",50]}],[{\"op\":[\"b\",\"deposit\",1]}]";
    let gate = Counting::new();
    assert_eq!(rt; rounds_of(&rt, ACCOUNTS, transactions, &gate), 2);
    assert_eq!(rt; gate.begun(), [1, 2, 1]);
}

#[test]
fn an_enqueue_is_made_again_for_each_round_that_conflicts_with_it(rt: HostRuntime) {
    let queue = "{\"name\":\"q\",\"kind\":\"queue\",\"start\":[]}";
    let transactions =
        "[{\"op\":[\"q\",\"enq\",\"x\"]}],[{\"op\":[\"q\",\"enq\",\"y\"]}],[{\"op\":[\"q\",\"enq\",\"x\"]}],[{\"op\":[\"q\",\"enq\",\"z\"]}]";
    let gate = Counting::new();
    assert_eq!(rt; rounds_of(&rt, queue, transactions, &gate), 4);
    // The third doesn't conflict with the first, which enqueues the same item.
    assert_eq!(rt; gate.begun(), [1, 2, 2]);
    assert_eq!(rt; gate.all(), 9);
}

#[test]
fn enqueues_of_different_items_are_made_until_their_round(rt: HostRuntime) {
    let queue = "{\"name\":\"q\",\"kind\":\"queue\",\"start\":[]}";
    let transactions =
        "[{\"op\":[\"q\",\"enq\",\"a\"]}],[{\"op\":[\"q\",\"enq\",\"b\"]}],[{\"op\":[\"q\",\"enq\",\"c\"]}],[{\"op\":[\"q\",\"enq\",\"d\"]}],[{\"op\":[\"q\",\"enq\",\"e\"]}],[{\"op\":[\"q\",\"enq\",\"f\"]}]";
    let Ok(tally) = Tally::new(rt.alloc(), 6) else {
        panic!(rt; "no memory")
    };
    assert_eq!(rt; rounds_of(&rt, queue, transactions, &tally), 6);
    for counts in [tally.begun(rt.alloc()), tally.made(rt.alloc())] {
        let Ok(counts) = counts else {
            panic!(rt; "no memory")
        };
        assert!(rt; counts.as_slice() == [1, 2, 3, 4, 5, 6].as_slice());
    }
}

#[test]
fn deposits_are_made_again_after_a_balance(rt: HostRuntime) {
    let transactions =
        "[{\"op\":[\"a\",\"deposit\",1]}],[{\"op\":[\"a\",\"balance\"]}],[{\"op\":[\"a\",\"deposit\",2]}],[{\"op\":[\"a\",\"deposit\",3]}]";
    let gate = Counting::new();
    assert_eq!(rt; rounds_of(&rt, ACCOUNTS, transactions, &gate), 3);
    assert_eq!(rt; gate.begun(), [1, 2, 2]);
    assert_eq!(rt; gate.all(), 7);
}

#[test]
fn a_gate_that_looks_sees_the_whole_net(rt: HostRuntime) {
    let transactions =
        "[{\"op\":[\"a\",\"deposit\",1]},{\"op\":[\"a\",\"deposit\",2]}],[{\"sub\":[{\"op\":[\"b\",\"deposit\",1]},{\"abort\":true}],\"handler\":[]},{\"op\":[\"b\",\"deposit\",2]}],[{\"op\":[\"c\",\"deposit\",1]},{\"op\":[\"c\",\"deposit\",2]}]";
    let batch = batch_of(&rt, 1, ACCOUNTS, transactions);
    let plan = Plan::new(1, 16).expect(&rt, "a plan");
    let gate = Counting::new();
    let Ok(_outcome) = execute_ahead(&rt, rt.alloc(), &batch, plan, &gate) else {
        panic!(rt; "no memory")
    };
    assert_eq!(rt; gate.made(), [1, 1, 1]);
    assert_eq!(rt; gate.entries(), [2, 2, 2]);
    assert_eq!(rt; gate.net(), [2, 1, 2]);
}

/// A list of one item.
fn list_of<T: Drop>(rt: &(impl Abort + AllocGlobal), item: T) -> Vec<T> {
    let mut list = Vec::new(rt.alloc());
    let Ok(()) = list.push(item) else {
        panic!(rt; "no memory")
    };
    list
}

/// The run of one call on an account, with the reply `ok`.
fn run_of(rt: &(impl Abort + AllocGlobal), object: u32, call: AccountCall) -> Run {
    let reply = Reply::Account(AccountReply::Ok);
    let entry = Entry {
        object,
        call: Call::Account(call),
        reply,
    };
    let tree = Record {
        taken: list_of(rt, Taken::Op(reply)),
        outcome: meaning::End::Ended,
    };
    Run {
        tree,
        entries: list_of(rt, entry),
        net: list_of(rt, entry),
    }
}

/// The run of a withdrawal from the account.
fn withdrawal(rt: &(impl Abort + AllocGlobal), object: u32, amount: u64) -> Run {
    let amount = Amount::new(amount).expect(rt, "an amount");
    run_of(rt, object, AccountCall::Withdraw(amount))
}

/// The run of a deposit of 1 on the account.
fn deposit(rt: &(impl Abort + AllocGlobal), object: u32) -> Run {
    let amount = Amount::new(1).expect(rt, "an amount");
    run_of(rt, object, AccountCall::Deposit(amount))
}

/// Stops the test where another run of these few is the first that conflicts, for some workers.
fn first_conflict_is(rt: &(impl Threads + Sync + Abort + AllocGlobal), runs: &[Run], place: usize) {
    assert!(rt; runs.len() <= 3);
    for workers in [1, 2, 64] {
        let first = first_conflict(rt, rt.alloc(), runs, workers, &NoGate);
        assert!(rt;
            matches!(first, Ok(first) if first == place),
            "workers {workers}"
        );
    }
}

#[test]
fn the_first_conflict_is_the_same_for_any_workers(rt: HostRuntime) {
    let at_odds = [
        withdrawal(&rt, 0, 30),
        withdrawal(&rt, 0, 50),
        deposit(&rt, 1),
    ];
    first_conflict_is(&rt, &at_odds, 1);
}

#[test]
fn runs_apart_have_no_conflict(rt: HostRuntime) {
    let apart = [withdrawal(&rt, 0, 30), deposit(&rt, 1), deposit(&rt, 0)];
    first_conflict_is(&rt, &apart, 3);
}

#[test]
fn no_runs_have_no_conflict(rt: HostRuntime) {
    first_conflict_is(&rt, &[], 0);
}

#[test]
fn plans_have_limits(rt: HostRuntime) {
    assert!(rt; Plan::new(1, 1).is_some());
    assert!(rt; Plan::new(64, 1000).is_some());
    for (workers, cut) in [(0, 1), (65, 1), (1, 0), (1, 1001)] {
        assert!(rt; Plan::new(workers, cut).is_none());
    }
}
