//! Tests of drafts.
use drafts::{Draft, ShownValue};
use objects::{
    Amount, Call, CounterCall, CounterReply, Directory, DirectoryCall, DirectoryReply, Item,
    ItemSet, Queue, QueueCall, QueueReply, Reply, SetCall, SetReply, Value,
};
use std::alloc::Global;
use std::process::Abort;

/// What is done with a draft, and what must come of it.
#[derive(Clone, Copy)]
enum Step {
    /// A call that may change the value is performed, and has the reply.
    Performs(Call, Reply),
    /// Takes back for good.
    Settles(Call, Reply),
    /// A look at the draft has the reply.
    Shows(Call, Reply),
    /// A look at the draft has no reply, since the call may change the value.
    Changes(Call),
    /// A look at the whole value that is made of the draft has the reply.
    WholeShows(Call, Reply),
    /// The last change is taken back.
    Undoes,
}

/// Performs a call, where the test ends if the draft doesn't let it, and returns its reply.
fn reply_of(rt: &impl Abort, draft: &mut Draft<'_>, call: &Call) -> Reply {
    assert!(rt; draft.fits(call) && draft.has_room(call) && draft.look(call).is_none());
    draft.perform(call).ok().expect(rt, "memory")
}

/// Performs a call for good, where the test ends if the draft doesn't let it, and returns its reply.
fn reply_for_good(rt: &impl Abort, draft: &mut Draft<'_>, call: &Call) -> Reply {
    assert!(rt; draft.fits(call) && draft.has_room(call) && draft.look(call).is_none());
    draft.settle(call).ok().expect(rt, "memory")
}

/// Stops the test where a look at the value, and at a draft of it, has another reply.
fn value_shows(rt: &impl Abort, alloc: Global, value: &Value, call: &Call, reply: Reply) {
    assert_eq!(rt; Draft::of(alloc, value).look(call), Some(reply));
    assert_eq!(rt; ShownValue::Lent(value).look(alloc, call), Some(reply));
}

/// Stops the test where a look at the whole value of the draft has another reply.
fn whole_shows(rt: &impl Abort, alloc: Global, draft: &Draft<'_>, call: &Call, reply: Reply) {
    let whole = draft.whole(alloc).ok().expect(rt, "memory");
    value_shows(rt, alloc, &whole, call, reply);
    let whole = ShownValue::Changed(draft)
        .whole(alloc)
        .ok()
        .expect(rt, "memory");
    value_shows(rt, alloc, &whole, call, reply);
}

/// Does a step with a draft, and stops the test where something else comes of it.
fn follow_step(rt: &impl Abort, alloc: Global, draft: &mut Draft<'_>, step: &Step) {
    match step {
        Step::Performs(call, reply) => assert_eq!(rt; reply_of(rt, draft, call), *reply),
        Step::Settles(call, reply) => assert_eq!(rt; reply_for_good(rt, draft, call), *reply),
        Step::Shows(call, reply) => assert_eq!(rt; draft.look(call), Some(*reply)),
        Step::Changes(call) => assert!(rt; draft.look(call).is_none()),
        Step::WholeShows(call, reply) => whole_shows(rt, alloc, draft, call, *reply),
        Step::Undoes => draft.undo(),
    }
}

/// Does the steps with a fresh draft of the value.
fn follow(rt: &impl Abort, alloc: Global, lent: &Value, steps: &[Step]) {
    let mut draft = Draft::of(alloc, lent);
    for step in steps {
        follow_step(rt, alloc, &mut draft, step);
    }
}

/// A set of the items 1 and 2.
fn two_members(rt: &impl Abort, alloc: Global) -> Value {
    let mut set = ItemSet::new(alloc);
    let _ = set.insert(Item(1)).ok().expect(rt, "memory");
    let _ = set.insert(Item(2)).ok().expect(rt, "memory");
    Value::Set(set)
}

#[test]
fn sets(rt: HostRuntime) {
    let remove = Call::Set(SetCall::Remove(Item(1)));
    let insert = Call::Set(SetCall::Insert(Item(3)));
    let has = Call::Set(SetCall::Has(Item(1)));
    let size = Call::Set(SetCall::Size);
    let lent = two_members(&rt, rt.alloc());
    let steps = [
        Step::Changes(remove),
        Step::Performs(remove, Reply::Set(SetReply::Removed)),
        Step::Shows(remove, Reply::Set(SetReply::Absent)),
        Step::Performs(insert, Reply::Set(SetReply::Added)),
        Step::Shows(has, Reply::Set(SetReply::No)),
        Step::Shows(size, Reply::Set(SetReply::Number(2))),
        Step::WholeShows(has, Reply::Set(SetReply::No)),
        Step::Undoes,
        Step::Changes(insert),
        Step::Undoes,
        Step::Shows(has, Reply::Set(SetReply::Yes)),
        Step::Shows(size, Reply::Set(SetReply::Number(2))),
    ];
    follow(&rt, rt.alloc(), &lent, &steps);
}

/// A directory in which the key 1 is bound to 7.
fn one_binding(rt: &impl Abort, alloc: Global) -> Value {
    let mut directory = Directory::new(alloc);
    let _ = directory.put(Item(1), Item(7)).ok().expect(rt, "memory");
    Value::Directory(directory)
}

#[test]
fn directories(rt: HostRuntime) {
    let unbind = Call::Directory(DirectoryCall::Unbind(Item(1)));
    let put = Call::Directory(DirectoryCall::Put(Item(2), Item(8)));
    let first = Call::Directory(DirectoryCall::Lookup(Item(1)));
    let second = Call::Directory(DirectoryCall::Lookup(Item(2)));
    let missing = Reply::Directory(DirectoryReply::Missing);
    let lent = one_binding(&rt, rt.alloc());
    let steps = [
        Step::Changes(unbind),
        Step::Performs(unbind, Reply::Directory(DirectoryReply::Gone)),
        Step::Performs(put, Reply::Directory(DirectoryReply::Ok)),
        Step::Shows(first, missing),
        Step::WholeShows(first, missing),
        Step::Undoes,
        Step::Undoes,
        Step::Shows(first, Reply::Directory(DirectoryReply::Found(Item(7)))),
        Step::Shows(second, missing),
    ];
    follow(&rt, rt.alloc(), &lent, &steps);
}

/// A queue of the item 1.
fn one_item(rt: &impl Abort, alloc: Global) -> Value {
    let mut queue = Queue::new(alloc);
    queue.push_back(Item(1)).ok().expect(rt, "memory");
    Value::Queue(queue)
}

#[test]
fn queues(rt: HostRuntime) {
    let enq = Call::Queue(QueueCall::Enq(Item(2)));
    let deq = Call::Queue(QueueCall::Deq);
    let length = Call::Queue(QueueCall::Length);
    let first = Reply::Queue(QueueReply::Got(Item(1)));
    let one = Reply::Queue(QueueReply::Number(1));
    let lent = one_item(&rt, rt.alloc());
    let steps = [
        Step::Performs(enq, Reply::Queue(QueueReply::Ok)),
        Step::Shows(length, Reply::Queue(QueueReply::Number(2))),
        Step::Performs(deq, first),
        Step::WholeShows(length, one),
        Step::Performs(deq, Reply::Queue(QueueReply::Got(Item(2)))),
        Step::Shows(deq, Reply::Queue(QueueReply::Empty)),
        Step::WholeShows(deq, Reply::Queue(QueueReply::Empty)),
        Step::Undoes,
        Step::Undoes,
        Step::Undoes,
        Step::Shows(length, one),
        Step::Performs(deq, first),
    ];
    follow(&rt, rt.alloc(), &lent, &steps);
}

/// Subtracts 7 from a counter.
fn subtract_7(rt: &impl Abort) -> Call {
    Call::Counter(CounterCall::Sub(Amount::new(7).expect(rt, "an amount")))
}

#[test]
fn numbers(rt: HostRuntime) {
    let read = Call::Counter(CounterCall::Read);
    let subtract = subtract_7(&rt);
    let ok = Reply::Counter(CounterReply::Ok);
    let steps = [
        Step::Performs(subtract, ok),
        Step::Shows(read, Reply::Counter(CounterReply::Number(-2))),
        Step::Undoes,
        Step::Shows(read, Reply::Counter(CounterReply::Number(5))),
    ];
    follow(&rt, rt.alloc(), &Value::Counter(5), &steps);
}

#[test]
fn a_settled_number_stays(rt: HostRuntime) {
    let subtract = subtract_7(&rt);
    let ok = Reply::Counter(CounterReply::Ok);
    let steps = [
        Step::Performs(subtract, ok),
        Step::Settles(subtract, ok),
        Step::Undoes,
        Step::Shows(
            Call::Counter(CounterCall::Read),
            Reply::Counter(CounterReply::Number(-9)),
        ),
    ];
    follow(&rt, rt.alloc(), &Value::Counter(5), &steps);
}

#[test]
fn a_settled_item_stays(rt: HostRuntime) {
    let lent = Value::Queue(Queue::new(rt.alloc()));
    let steps = [
        Step::Settles(
            Call::Queue(QueueCall::Enq(Item(2))),
            Reply::Queue(QueueReply::Ok),
        ),
        Step::Undoes,
        Step::Shows(
            Call::Queue(QueueCall::Length),
            Reply::Queue(QueueReply::Number(1)),
        ),
    ];
    follow(&rt, rt.alloc(), &lent, &steps);
}

#[test]
fn what_is_shown_fits_and_has_room(rt: HostRuntime) {
    let lent = Value::Counter(5);
    let read = Call::Counter(CounterCall::Read);
    let shown = ShownValue::Lent(&lent);
    assert!(rt; shown.fits(&read) && shown.has_room(&read));
}
