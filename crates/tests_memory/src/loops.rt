//! The loops of calls that may be refused memory.
use crate::seen::{Seen, Sizes, item, refused};
use intentions::{Committed, View};
use objects::{
    AccountCall, Amount, Call, Directory, DirectoryCall, Entry, ItemSet, NoMemory, Objects, Queue,
    QueueCall, SetCall, Value,
};
use std::alloc::Global;

/// How many calls of each kind are made.
const TURNS: u32 = 20;

/// All loops, up to the first refusal.
pub(crate) fn try_all(alloc: Global) -> Seen {
    let mut objects = Objects::new(alloc);
    let seen = fill(alloc, &mut objects);
    if seen != Seen::Whole {
        return seen;
    }
    let seen = try_objects(&mut objects);
    if seen != Seen::Whole {
        return seen;
    }
    try_view(alloc, &objects)
}

fn fill(alloc: Global, objects: &mut Objects) -> Seen {
    let values = [
        Value::Account(100),
        Value::Set(ItemSet::new(alloc)),
        Value::Queue(Queue::new(alloc)),
        Value::Directory(Directory::new(alloc)),
    ];
    for value in values {
        let before = objects.len();
        if objects.push(value).is_err() {
            return refused(objects.len() == before);
        }
    }
    Seen::Whole
}

/// The call of a turn, on the object at that place among the four.
fn call_of(turn: u32) -> Call {
    match turn % 4 {
        0 => match Amount::new(5) {
            Some(amount) => Call::Account(AccountCall::Deposit(amount)),
            None => Call::Account(AccountCall::Balance),
        },
        1 => Call::Set(SetCall::Insert(item(turn))),
        2 => Call::Queue(QueueCall::Enq(item(turn))),
        _ => Call::Directory(DirectoryCall::Put(item(turn), item(0))),
    }
}

/// Calls on objects, on copies of them and of their values, up to the first refusal.
fn try_objects(objects: &mut Objects) -> Seen {
    for turn in 0..TURNS {
        let seen = try_object(objects, turn % 4, &call_of(turn));
        if seen != Seen::Whole {
            return seen;
        }
    }
    Seen::Whole
}

/// A call on an object, on copies of all objects and of its value.
fn try_object(objects: &mut Objects, object: u32, call: &Call) -> Seen {
    let before = Sizes::of(objects);
    if objects.fits(object, call) && objects.has_room(object, call) {
        if objects.perform(object, call).is_err() {
            return refused(Sizes::of(objects) == before);
        }
    }
    let seen = try_copy(objects);
    if seen != Seen::Whole {
        return seen;
    }
    match objects.value(object) {
        Some(value) => try_value(value, call),
        None => Seen::Whole,
    }
}

/// A copy of objects, which is as they are.
fn try_copy(objects: &Objects) -> Seen {
    let before = Sizes::of(objects);
    match objects.copy() {
        Ok(copied) if Sizes::of(&copied) == before => Seen::Whole,
        Ok(_) => Seen::Changed,
        Err(NoMemory) => refused(Sizes::of(objects) == before),
    }
}

/// A call on a copy of a value, which stays as it was where the call is refused memory.
fn try_value(value: &Value, call: &Call) -> Seen {
    let Ok(mut copied) = value.copy() else {
        return Seen::Unchanged;
    };
    let before = size(&copied);
    if copied.fits(call) && copied.has_room(call) {
        if copied.perform(call).is_err() {
            return refused(size(&copied) == before);
        }
    }
    Seen::Whole
}

fn size(value: &Value) -> usize {
    match value {
        Value::Set(set) => set.len(),
        Value::Queue(queue) => queue.items().len(),
        Value::Directory(directory) => directory.entries().len(),
        _ => 0,
    }
}

/// Calls on a view, and on another one and a committed list that take its entries in.
fn try_view(alloc: Global, objects: &Objects) -> Seen {
    let Ok(mut view) = View::open(alloc, objects) else {
        return Seen::Changed;
    };
    try_calls(alloc, &mut view, objects)
}

/// Levels of a view, with a call in each. Then its state, and what takes its entries in.
fn try_calls(alloc: Global, view: &mut View<'_>, objects: &Objects) -> Seen {
    let seen = try_levels(view, objects);
    if seen != Seen::Whole {
        return seen;
    }
    if view.state().is_err() {
        return refused(is_as(view, objects, (0, TURNS as usize)));
    }
    try_entries(alloc, objects, view.entries())
}

/// Levels of a view, up to the first refusal.
fn try_levels(view: &mut View<'_>, objects: &Objects) -> Seen {
    for turn in 0..TURNS {
        let seen = try_level(view, objects, turn);
        if seen != Seen::Whole {
            return seen;
        }
    }
    Seen::Whole
}

/// A level with the call of a turn in it. Every third level is aborted.
fn try_level(view: &mut View<'_>, objects: &Objects, turn: u32) -> Seen {
    let before = (view.depth(), view.entries().len());
    if view.begin().is_err() {
        return refused(is_as(view, objects, before));
    }
    let before = (view.depth(), view.entries().len());
    if perform_turn(view, turn).is_err() {
        return refused(is_as(view, objects, before));
    }
    if view.depth() > 0 {
        if turn % 3 == 0 {
            view.abort();
        } else if view.commit().is_err() {
            return Seen::Changed;
        }
    }
    Seen::Whole
}

/// The call of a turn.
fn perform_turn(view: &mut View<'_>, turn: u32) -> Result<(), NoMemory> {
    let object = turn % 4;
    let call = call_of(turn);
    if view.fits(object, &call) && view.has_room(object, &call)? {
        view.perform(object, &call)?;
    }
    Ok(())
}

/// Whether a view still has this depth and so many entries, and can show its state.
fn is_as(view: &View<'_>, objects: &Objects, before: (usize, usize)) -> bool {
    match view.state() {
        Ok(state) => {
            state.len() == objects.len() && (view.depth(), view.entries().len()) == before
        }
        Err(NoMemory) => false,
    }
}

/// Another view takes entries in, and a committed list too.
fn try_entries(alloc: Global, objects: &Objects, entries: &[Entry]) -> Seen {
    let Ok(mut view) = View::open(alloc, objects) else {
        return Seen::Changed;
    };
    let mut committed = Committed::new(alloc);
    try_turns(&mut view, objects, &mut committed, entries)
}

/// These take entries in, up to the first refusal.
fn try_turns(
    view: &mut View<'_>,
    objects: &Objects,
    committed: &mut Committed,
    entries: &[Entry],
) -> Seen {
    for _ in 0..TURNS {
        let seen = try_turn(view, objects, committed, entries);
        if seen != Seen::Whole {
            return seen;
        }
    }
    Seen::Whole
}

/// A view takes entries in, and then a committed list does.
fn try_turn(
    view: &mut View<'_>,
    objects: &Objects,
    committed: &mut Committed,
    entries: &[Entry],
) -> Seen {
    let none: [Entry; 0] = [];
    let before = (view.depth(), view.entries().len());
    if view.absorb(entries, none.as_slice()).is_err() {
        return refused(is_as(view, objects, before));
    }
    let before = committed.len();
    if committed.append(entries).is_err() {
        return refused(committed.len() == before);
    }
    Seen::Whole
}
