//! Tests of views.
ghost use Rattle.std.specs.Prelude.{◌≡◌};

use intentions::{Call, Entry, Lists, NetList, Objects, Reply, Value, View, perform_each};
use objects::{
    AccountCall, AccountReply, Amount, CounterCall, CounterReply, Directory, DirectoryCall,
    DirectoryReply, Item, ItemSet, MaxCall, MaxReply, Queue, QueueCall, QueueReply, SetCall,
    SetReply,
};
use std::alloc::Global;
use std::process::Abort;

/// What is done with a view, and what must come of it.
#[derive(Clone, Copy)]
enum Step {
    /// A level is opened.
    Begins,
    /// The innermost level, which is open, is committed.
    Commits,
    /// The innermost level, which is open, is taken back.
    Aborts,
    /// A call on an object, which fits and has room, has the reply.
    Performs(u32, Call, Reply),
    /// A child is absorbed that enqueued the item twice in an object and took the first back.
    Absorbs(u32, Item),
    /// So many levels are open; there are so many entries, and so many in the innermost net.
    HasLengths(usize, usize, usize),
}

/// An account, a queue, a set, a directory, a counter and a maximum register, at their places.
fn objects(rt: &impl Abort, alloc: Global) -> Objects {
    let mut objects = Objects::new(alloc);
    push(rt, &mut objects, Value::Account(100));
    push(rt, &mut objects, Value::Queue(Queue::new(alloc)));
    push(rt, &mut objects, Value::Set(ItemSet::new(alloc)));
    push(rt, &mut objects, Value::Directory(Directory::new(alloc)));
    push(rt, &mut objects, Value::Counter(0));
    push(rt, &mut objects, Value::Max(0));
    objects
}

fn push(rt: &impl Abort, objects: &mut Objects, value: Value) {
    objects.push(value).ok().expect(rt, "memory")
}

fn open<'s>(rt: &impl Abort, alloc: Global, snapshot: &'s Objects) -> View<'s> {
    View::open(alloc, snapshot).ok().expect(rt, "memory")
}

/// Performs a call, where the test ends if the view doesn't let it, and returns its reply.
fn reply_of(rt: &impl Abort, view: &mut View<'_>, object: u32, call: &Call) -> Reply {
    assert!(rt; view.fits(object, call) && matches!(view.has_room(object, call), Ok(true)));
    view.perform(object, call).ok().expect(rt, "memory")
}

fn commit(rt: &impl Abort, view: &mut View<'_>) {
    assert!(rt; view.depth() > 0);
    view.commit().ok().expect(rt, "memory")
}

fn abort(rt: &impl Abort, view: &mut View<'_>) {
    assert!(rt; view.depth() > 0);
    view.abort();
}

fn absorb_enq(rt: &impl Abort, view: &mut View<'_>, object: u32, item: Item) {
    let call = Call::Queue(QueueCall::Enq(item));
    let entry = Entry {
        object,
        call,
        reply: Reply::Queue(QueueReply::Ok),
    };
    if view.fits(object, &call) {
        let Ok(()) = view.absorb(&[entry, entry], &[entry]) else {
            panic!(rt; "no memory")
        };
    }
}

fn lengths(view: &View<'_>) -> (usize, usize, usize) {
    (view.depth(), view.entries().len(), view.net().len())
}

/// Does a step with a view, and stops the test where something else comes of it.
fn follow_step(rt: &impl Abort, view: &mut View<'_>, step: Step) {
    match step {
        Step::Begins => view.begin().ok().expect(rt, "memory"),
        Step::Commits => commit(rt, view),
        Step::Aborts => abort(rt, view),
        Step::Performs(object, call, reply) => {
            assert_eq!(rt; reply_of(rt, view, object, &call), reply)
        }
        Step::Absorbs(object, item) => absorb_enq(rt, view, object, item),
        Step::HasLengths(depth, all, net) => assert_eq!(rt; lengths(view), (depth, all, net)),
    }
}

/// Does the steps with a view.
fn follow(rt: &impl Abort, view: &mut View<'_>, steps: &[Step]) {
    for step in steps {
        follow_step(rt, view, *step);
    }
}

/// Does the steps with a fresh view of the objects.
fn follow_in(rt: &impl Abort, alloc: Global, snapshot: &Objects, steps: &[Step]) {
    let mut view = open(rt, alloc, snapshot);
    follow(rt, &mut view, steps);
}

/// Takes the lists of a view with no level but the base, which is then used again, and returns
/// where its net is listed. Stops the test where the entries and the net have other lengths.
fn take_run(
    rt: &impl Abort,
    view: &mut View<'_>,
    lists: &mut Lists,
    expected: (usize, usize),
) -> NetList {
    assert!(rt; view.depth() == 0);
    let listed = view.take_run(&mut lists.entries, &mut lists.net);
    let net = listed.of(&lists.entries, &lists.net);
    assert_eq!(rt; (lists.entries.len(), net.len()), expected);
    listed
}

/// Stops the test where the lists at the end of a view have other lengths.
fn ends_with(rt: &impl Abort, view: View<'_>, expected: (usize, usize)) {
    assert!(rt; view.depth() == 0);
    let Lists { entries, net } = view.into_run();
    assert_eq!(rt; (entries.len(), net.len()), expected);
}

fn amount(rt: &impl Abort, number: u64) -> Amount {
    Amount::new(number).expect(rt, "an amount")
}

#[test]
fn levels(rt: HostRuntime) {
    let balance = Call::Account(AccountCall::Balance);
    let withdraw = Call::Account(AccountCall::Withdraw(amount(&rt, 60)));
    let enq = Call::Queue(QueueCall::Enq(Item(7)));
    let deq = Call::Queue(QueueCall::Deq);
    let got = Reply::Queue(QueueReply::Got(Item(7)));
    let steps = [
        Step::Performs(0, withdraw, Reply::Account(AccountReply::Ok)),
        Step::Begins,
        Step::Performs(1, enq, Reply::Queue(QueueReply::Ok)),
        Step::Begins,
        Step::Performs(0, withdraw, Reply::Account(AccountReply::No)),
        Step::Performs(1, deq, got),
        Step::HasLengths(2, 4, 2),
        Step::Aborts,
        Step::HasLengths(1, 4, 1),
        Step::Commits,
        Step::Performs(0, balance, Reply::Account(AccountReply::Number(40))),
        Step::Performs(1, deq, got),
        Step::HasLengths(0, 6, 4),
    ];
    let snapshot = objects(&rt, rt.alloc());
    let mut view = open(&rt, rt.alloc(), &snapshot);
    assert!(rt; !view.fits(0, &enq) && !view.fits(6, &enq));
    follow(&rt, &mut view, &steps);
    ends_with(&rt, view, (6, 4));
}

/// A call of each object that changes it, with its reply.
fn changes(rt: &impl Abort) -> [Step; 6] {
    let five = amount(rt, 5);
    let put = DirectoryCall::Put(Item(3), Item(4));
    [
        Step::Performs(
            0,
            Call::Account(AccountCall::Deposit(five)),
            Reply::Account(AccountReply::Ok),
        ),
        Step::Performs(
            1,
            Call::Queue(QueueCall::Enq(Item(1))),
            Reply::Queue(QueueReply::Ok),
        ),
        Step::Performs(
            2,
            Call::Set(SetCall::Insert(Item(2))),
            Reply::Set(SetReply::Added),
        ),
        Step::Performs(
            3,
            Call::Directory(put),
            Reply::Directory(DirectoryReply::Ok),
        ),
        Step::Performs(
            4,
            Call::Counter(CounterCall::Sub(five)),
            Reply::Counter(CounterReply::Ok),
        ),
        Step::Performs(5, Call::Max(MaxCall::Raise(five)), Reply::Max(MaxReply::Ok)),
    ]
}

/// A call of each object that changes nothing, with its reply.
fn looks(
    account: u64,
    length: u64,
    size: u64,
    bound: DirectoryReply,
    counter: i64,
    max: u64,
) -> [Step; 6] {
    let lookup = DirectoryCall::Lookup(Item(3));
    [
        Step::Performs(
            0,
            Call::Account(AccountCall::Balance),
            Reply::Account(AccountReply::Number(account)),
        ),
        Step::Performs(
            1,
            Call::Queue(QueueCall::Length),
            Reply::Queue(QueueReply::Number(length)),
        ),
        Step::Performs(
            2,
            Call::Set(SetCall::Size),
            Reply::Set(SetReply::Number(size)),
        ),
        Step::Performs(3, Call::Directory(lookup), Reply::Directory(bound)),
        Step::Performs(
            4,
            Call::Counter(CounterCall::Read),
            Reply::Counter(CounterReply::Number(counter)),
        ),
        Step::Performs(
            5,
            Call::Max(MaxCall::Top),
            Reply::Max(MaxReply::Number(max)),
        ),
    ]
}

#[test]
fn every_kind_is_taken_back(rt: HostRuntime) {
    let snapshot = objects(&rt, rt.alloc());
    let mut view = open(&rt, rt.alloc(), &snapshot);
    follow(&rt, &mut view, &[Step::Begins, Step::Begins]);
    follow(&rt, &mut view, &changes(&rt));
    follow(&rt, &mut view, &[Step::Commits]);
    let bound = DirectoryReply::Found(Item(4));
    follow(&rt, &mut view, &looks(105, 1, 1, bound, -5, 5));
    follow(&rt, &mut view, &[Step::Aborts]);
    let missing = DirectoryReply::Missing;
    follow(&rt, &mut view, &looks(100, 0, 0, missing, 0, 0));
}

#[test]
fn a_childs_lists_are_absorbed(rt: HostRuntime) {
    let enq = Call::Queue(QueueCall::Enq(Item(7)));
    let deq = Call::Queue(QueueCall::Deq);
    let first = [
        Step::Performs(1, enq, Reply::Queue(QueueReply::Ok)),
        Step::Absorbs(1, Item(8)),
        Step::HasLengths(0, 3, 2),
    ];
    let later = [
        Step::Performs(1, deq, Reply::Queue(QueueReply::Got(Item(7)))),
        Step::Performs(1, deq, Reply::Queue(QueueReply::Got(Item(8)))),
        Step::Performs(1, deq, Reply::Queue(QueueReply::Empty)),
    ];
    let snapshot = objects(&rt, rt.alloc());
    let mut parent = open(&rt, rt.alloc(), &snapshot);
    follow(&rt, &mut parent, &first);
    let state = parent.state().ok().expect(&rt, "memory");
    assert_eq!(rt; state.len(), 6);
    follow_in(&rt, rt.alloc(), &state, &later);
}

#[test]
fn a_view_is_used_again(rt: HostRuntime) {
    let five = amount(&rt, 5);
    let raise = Call::Max(MaxCall::Raise(five));
    let sub = Call::Counter(CounterCall::Sub(five));
    let top = Call::Max(MaxCall::Top);
    let read = Call::Counter(CounterCall::Read);
    let first = [Step::Performs(5, raise, Reply::Max(MaxReply::Ok))];
    // In this run another object's draft is where that of object 5 was.
    let second = [
        Step::Performs(4, sub, Reply::Counter(CounterReply::Ok)),
        Step::Performs(5, top, Reply::Max(MaxReply::Number(0))),
        Step::Performs(4, read, Reply::Counter(CounterReply::Number(-5))),
        Step::HasLengths(0, 3, 3),
    ];
    let snapshot = objects(&rt, rt.alloc());
    let mut view = open(&rt, rt.alloc(), &snapshot);
    follow(&rt, &mut view, &first);
    let mut lists = Lists::empty(rt.alloc());
    assert_eq!(rt;
        take_run(&rt, &mut view, &mut lists, (1, 1)),
        NetList::Entries
    );
    follow(&rt, &mut view, &second);
    assert_eq!(rt;
        take_run(&rt, &mut view, &mut lists, (3, 3)),
        NetList::Entries
    );
    follow(&rt, &mut view, &[Step::HasLengths(0, 0, 0)]);
}

#[test]
fn a_net_is_listed_once_something_was_taken_back(rt: HostRuntime) {
    let ok = Reply::Account(AccountReply::Ok);
    let kept = Call::Account(AccountCall::Deposit(amount(&rt, 5)));
    let undone = Call::Account(AccountCall::Withdraw(amount(&rt, 3)));
    let committed = [
        Step::Begins,
        Step::Performs(0, kept, ok),
        Step::Commits,
        Step::Performs(0, undone, ok),
    ];
    let aborted = [
        Step::Performs(0, kept, ok),
        Step::Begins,
        Step::Performs(0, undone, ok),
        Step::Aborts,
        Step::Performs(0, kept, ok),
    ];
    let snapshot = objects(&rt, rt.alloc());
    let mut view = open(&rt, rt.alloc(), &snapshot);
    let mut lists = Lists::empty(rt.alloc());
    follow(&rt, &mut view, &committed);
    let listed = take_run(&rt, &mut view, &mut lists, (2, 2));
    assert!(rt; listed == NetList::Entries && lists.net.is_empty());
    follow(&rt, &mut view, &aborted);
    let listed = take_run(&rt, &mut view, &mut lists, (3, 2));
    assert!(rt; listed == NetList::Own && lists.net.iter().all(|entry| entry.call == kept));
    follow(&rt, &mut view, &committed);
    let listed = take_run(&rt, &mut view, &mut lists, (2, 2));
    assert!(rt; listed == NetList::Entries);
    assert!(rt; matches!(lists.entries.first(), Some(entry) if entry.call == kept));
}

#[test]
fn entries_are_performed_in_place(rt: HostRuntime) {
    let call = Call::Account(AccountCall::Deposit(amount(&rt, 5)));
    let entry = Entry {
        object: 0,
        call,
        reply: Reply::Account(AccountReply::Ok),
    };
    let mut state = objects(&rt, rt.alloc());
    assert!(rt; state.fits(0, &call) && state.has_room(0, &call));
    perform_each(&mut state, &[entry])
        .ok()
        .expect(&rt, "memory");
    assert!(rt; matches!(state.value(0), Some(Value::Account(105))));
}
