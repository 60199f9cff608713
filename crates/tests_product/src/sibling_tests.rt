//! Tests of children of parallel steps that are run at once.
ghost use Rattle.std.specs.Prelude.{◌≤◌};

use crate::documents::{ACCOUNT, batch_of};
use crate::{ChildCounting, Crowd, Meeting};
use atoms::{CounterReply, Item, QueueReply};
use objects::{Entry, Reply};
use speculate::{End, Gate, NoGate, Run, Taken, run};
use std::alloc::AllocGlobal;
use std::process::Abort;
use std::thread::Threads;

const WIDTHS: [u32; 4] = [1, 2, 5, 64];

const COUNTER: &str = "{\"name\":\"c\",\"kind\":\"counter\",\"start\":0}";

const TWO_DEPOSITS: &str =
    "[{\"parallel\":[{\"sub\":[{\"op\":[\"a\",\"deposit\",1]}]},{\"sub\":[{\"op\":[\"a\",\"deposit\",2]}]}]}]";

const TWO_DEQUEUES: &str =
    "[{\"parallel\":[{\"sub\":[{\"op\":[\"q\",\"deq\"]}]},{\"sub\":[{\"op\":[\"q\",\"deq\"]}]}]}]";

const QUEUE: &str = "{\"name\":\"q\",\"kind\":\"queue\",\"start\":[\"x\",\"y\"]}";

/// The run of a transaction of this block, alone in its batch, on the starting object.
fn run_of<G: Gate>(
    rt: &(impl Threads + Sync + Abort + AllocGlobal),
    object: &str,
    block: &str,
    width: u32,
    gate: &G,
) -> Run
    requires { (1 ≤ width) × (width ≤ 64) }
{
    let batch = batch_of(rt, 4, object, block);
    assert!(rt; batch.transactions.len() == 1);
    let Ok(made) = run(rt, rt.alloc(), &batch.objects, &batch, 1, width, gate) else {
        panic!(rt; "no memory")
    };
    made
}

/// A block of two parallel children, which are both this block.
fn pair_of(rt: &(impl Abort + AllocGlobal), block: &str) -> String {
    let Ok(text) = format!(in rt.alloc();
        "[{{\"parallel\":[{{\"sub\":{block}}},{{\"sub\":{block}}}]}}]"
    ) else {
        panic!(rt; "no memory")
    };
    text
}

/// Stops the test where the replies of the calls are others.
fn has_replies(rt: &impl Abort, entries: &[Entry], replies: &[Reply]) {
    assert_eq!(rt; entries.len(), replies.len());
    for (entry, reply) in entries.iter().zip(replies) {
        assert_eq!(rt; entry.reply, *reply);
    }
}

#[test]
fn two_siblings_meet(rt: HostRuntime) {
    let gate = Meeting::new((1, 1), (1, 2));
    let made = run_of(&rt, ACCOUNT, TWO_DEPOSITS, 2, &gate);
    assert!(rt; gate.has_met());
    assert_eq!(rt; made.net.len(), 2);
}

#[test]
fn four_children_are_at_once_with_a_width_of_four(rt: HostRuntime) {
    let block =
        "[{\"parallel\":[{\"sub\":[{\"op\":[\"a\",\"deposit\",1]}]},{\"sub\":[{\"op\":[\"a\",\"deposit\",1]}]},{\"sub\":[{\"op\":[\"a\",\"deposit\",1]}]},{\"sub\":[{\"op\":[\"a\",\"deposit\",1]}]}]}]";
    let gate = Crowd::new(4);
    let _made = run_of(&rt, ACCOUNT, block, 4, &gate);
    assert_eq!(rt; gate.most(), 4);
}

/// Stops the test where the child starts another number of times.
fn starts(
    rt: &(impl Threads + Sync + Abort + AllocGlobal),
    object: &str,
    block: &str,
    width: u32,
    child: u32,
    times: u32,
)
    requires { (1 ≤ width) × (width ≤ 64) }
{
    let gate = ChildCounting::new((1, child));
    let _made = run_of(rt, object, block, width, &gate);
    assert_eq!(rt; gate.count(), times, "width {width} child {child}");
}

#[test]
fn children_that_stand_are_each_made_once(rt: HostRuntime) {
    for width in WIDTHS {
        for child in [1, 2] {
            starts(&rt, ACCOUNT, TWO_DEPOSITS, width, child, 1);
        }
    }
}

/// Stops the test where two children that dequeue don't get the items in order.
fn dequeues_in_order(rt: &(impl Threads + Sync + Abort + AllocGlobal), width: u32)
    requires { (1 ≤ width) × (width ≤ 64) }
{
    let made = run_of(rt, QUEUE, TWO_DEQUEUES, width, &NoGate);
    let replies = [
        Reply::Queue(QueueReply::Got(Item(0))),
        Reply::Queue(QueueReply::Got(Item(1))),
    ];
    has_replies(rt, &made.entries, &replies);
    assert!(rt;
        made.net.as_slice() == made.entries.as_slice(),
        "width {width}"
    );
}

#[test]
fn a_child_is_run_again_after_a_sibling(rt: HostRuntime) {
    for width in WIDTHS {
        dequeues_in_order(&rt, width);
    }
}

#[test]
fn the_gate_sees_each_start(rt: HostRuntime) {
    for (width, times) in [(1, 1), (2, 2), (64, 2)] {
        starts(&rt, QUEUE, TWO_DEQUEUES, width, 2, times);
    }
}

#[test]
fn a_child_that_is_run_again_runs_its_children_in_turn(rt: HostRuntime) {
    let queue = "{\"name\":\"q\",\"kind\":\"queue\",\"start\":[\"x\",\"y\",\"z\",\"w\"]}";
    let block = pair_of(&rt, TWO_DEQUEUES);
    // Each of the two children has a second one that is run ahead, and again after the first. The
    // second child is run again itself, and its second one then once more.
    for (width, times) in [(1, 3), (64, 7)] {
        starts(&rt, queue, block.as_str(), width, 2, times);
    }
}

/// A child that adds, one that aborts after its handler has read, and one that isn't reached.
const ABORTING: &str =
    "[{\"parallel\":[{\"sub\":[{\"op\":[\"c\",\"add\",1]}]},{\"sub\":[{\"op\":[\"c\",\"add\",2]},{\"abort\":true}],\"handler\":[{\"op\":[\"c\",\"read\"]},{\"abort\":true}]},{\"sub\":[{\"op\":[\"c\",\"add\",4]}]}]}]";

/// Stops the test where other than two children were reached, or the transaction didn't abort.
fn aborts_after_two(rt: &impl Abort, made: &Run) {
    assert!(rt; made.tree.outcome == End::Aborted(None));
    match made.tree.taken.first() {
        Some(Taken::Parallel(children)) => assert_eq!(rt; children.len(), 2),
        _ => assert!(rt; false),
    }
    assert!(rt; made.net.is_empty());
}

/// Stops the test where a child after the one that aborts is in the run.
fn drops_the_rest(rt: &(impl Threads + Sync + Abort + AllocGlobal), width: u32)
    requires { (1 ≤ width) × (width ≤ 64) }
{
    let made = run_of(rt, COUNTER, ABORTING, width, &NoGate);
    let replies = [
        Reply::Counter(CounterReply::Ok),
        Reply::Counter(CounterReply::Ok),
        Reply::Counter(CounterReply::Number(1)),
    ];
    has_replies(rt, &made.entries, &replies);
    aborts_after_two(rt, &made);
}

#[test]
fn children_after_an_abort_are_dropped(rt: HostRuntime) {
    for width in WIDTHS {
        drops_the_rest(&rt, width);
    }
}

/// Stops the test where the replies that are numbers aren't 1 to `last` in order.
fn reads_in_order(rt: &impl Abort, entries: &[Entry], last: i64) {
    let mut read = 0;
    for entry in entries {
        if let Reply::Counter(CounterReply::Number(number)) = entry.reply {
            assert!(rt; read < last);
            read += 1;
            assert_eq!(rt; number, read);
        }
    }
    assert_eq!(rt; read, last);
}

#[test]
fn children_in_children_are_in_order(rt: HostRuntime) {
    let leaf = "[{\"op\":[\"c\",\"add\",1]},{\"op\":[\"c\",\"read\"]}]";
    let four = pair_of(&rt, pair_of(&rt, leaf).as_str());
    let block = pair_of(&rt, four.as_str());
    for width in WIDTHS {
        let made = run_of(&rt, COUNTER, block.as_str(), width, &NoGate);
        reads_in_order(&rt, &made.entries, 8);
        assert_eq!(rt; made.entries.len(), 16);
    }
}
