//! Tests of the documents that carry objects over.
use carry::{Misfit, Names, Objects, Unfit, carried, first_unfit};
use meaning::limits::MAX_OBJECTS;
use objects::{Directory, Item, ItemSet, Queue, Value};
use std::alloc::AllocGlobal;
use std::process::Abort;

/// The version of most documents.
const VERSION: u8 = 4;

const DOCUMENT: &str = "{\"ordtx\": 4,
\"objects\": [
{\"name\": \"a\", \"kind\": \"account\", \"start\": 5},
{\"name\": \"c\", \"kind\": \"counter\", \"start\": -7},
{\"name\": \"s\", \"kind\": \"set\", \"start\": [\"x\", \"y\"]},
{\"name\": \"q\", \"kind\": \"queue\", \"start\": [\"y\", \"x\", \"y\"]},
{\"name\": \"d\", \"kind\": \"directory\", \"start\": [[\"x\", \"y\"], [\"y\", \"y\"]]},
{\"name\": \"m\", \"kind\": \"max\", \"start\": 9},
{\"name\": \"none\", \"kind\": \"set\", \"start\": []}
],
\"transactions\": [
]}
";

/// These words, each as a text of its own.
fn texts(rt: &(impl Abort + AllocGlobal), words: &[&str]) -> Vec<String> {
    let mut list = Vec::new(rt.alloc());
    for word in words {
        let Ok(text) = String::from_str(rt.alloc(), word) else {
            panic!(rt; "no memory")
        };
        let Ok(()) = list.push(text) else {
            panic!(rt; "no memory")
        };
    }
    list
}

/// Adds an object.
fn push(rt: &impl Abort, objects: &mut Objects, value: Value) {
    let Ok(()) = objects.push(value) else {
        panic!(rt; "no memory")
    };
}

/// Adds an item to the end of a queue.
fn enqueue(rt: &impl Abort, queue: &mut Queue, item: u32) {
    let Ok(()) = queue.push_back(Item(item)) else {
        panic!(rt; "no memory")
    };
}

/// Adds an item to a set.
fn insert(rt: &impl Abort, set: &mut ItemSet, item: u32) {
    let Ok(_) = set.insert(Item(item)) else {
        panic!(rt; "no memory")
    };
}

/// Binds a key of a directory.
fn put(rt: &impl Abort, directory: &mut Directory, key: u32, value: u32) {
    let Ok(()) = directory.put(Item(key), Item(value)) else {
        panic!(rt; "no memory")
    };
}

/// An object of each kind, and an empty set.
fn objects_of(rt: &(impl Abort + AllocGlobal)) -> Objects {
    let mut set = ItemSet::new(rt.alloc());
    insert(rt, &mut set, 1);
    insert(rt, &mut set, 0);
    let mut queue = Queue::new(rt.alloc());
    enqueue(rt, &mut queue, 1);
    enqueue(rt, &mut queue, 0);
    enqueue(rt, &mut queue, 1);
    let mut directory = Directory::new(rt.alloc());
    put(rt, &mut directory, 1, 1);
    put(rt, &mut directory, 0, 1);
    let mut objects = Objects::new(rt.alloc());
    push(rt, &mut objects, Value::Account(5));
    push(rt, &mut objects, Value::Counter(-7));
    push(rt, &mut objects, Value::Set(set));
    push(rt, &mut objects, Value::Queue(queue));
    push(rt, &mut objects, Value::Directory(directory));
    push(rt, &mut objects, Value::Max(9));
    push(rt, &mut objects, Value::Set(ItemSet::new(rt.alloc())));
    objects
}

/// Stops the test where another is the first unfit for a document of this version. The objects are so
/// few that each has a number.
fn unfit_is(rt: &impl Abort, version: u8, objects: &Objects, misfit: Option<Misfit>) {
    assert!(rt; objects.len() <= MAX_OBJECTS);
    assert_eq!(rt; first_unfit(version, objects), misfit);
}

/// Stops the test where the document that carries these few objects over is another.
fn carries(rt: &(impl Abort + AllocGlobal), objects: &Objects, document: &str) {
    assert!(rt; objects.len() <= MAX_OBJECTS);
    let named = texts(rt, &["a", "c", "s", "q", "d", "m", "none"]);
    let items = texts(rt, &["x", "y"]);
    let Ok(names) = Names::new(rt.alloc(), &named, &items, &[]) else {
        panic!(rt; "no memory")
    };
    let Ok(text) = carried(rt.alloc(), VERSION, &names, objects) else {
        panic!(rt; "no memory")
    };
    assert_eq!(rt; text.as_str(), document);
}

#[test]
fn carries_each_kind(rt: HostRuntime) {
    let objects = objects_of(&rt);
    unfit_is(&rt, VERSION, &objects, None);
    carries(&rt, &objects, DOCUMENT);
}

#[test]
fn carries_no_object(rt: HostRuntime) {
    let document = "{\"ordtx\": 4,\n\"objects\": [\n\n],\n\"transactions\": [\n]}\n";
    carries(&rt, &Objects::new(rt.alloc()), document);
}

#[test]
fn finds_the_first_unfit(rt: HostRuntime) {
    let mut objects = Objects::new(rt.alloc());
    push(&rt, &mut objects, Value::Account(1_000_000_000_000_000));
    push(&rt, &mut objects, Value::Counter(-1_000_000_000_000_000));
    unfit_is(&rt, VERSION, &objects, None);
    push(&rt, &mut objects, Value::Counter(-1_000_000_000_000_001));
    let unfit = Unfit::Start;
    unfit_is(&rt, VERSION, &objects, Some(Misfit { place: 2, unfit }));
}

/// Adds a queue of so many items.
fn push_queue(rt: &(impl Abort + AllocGlobal), objects: &mut Objects, length: u32) {
    let mut queue = Queue::new(rt.alloc());
    for _ in 0..length {
        enqueue(rt, &mut queue, 0);
    }
    push(rt, objects, Value::Queue(queue));
}

#[test]
fn counts_all_entries(rt: HostRuntime) {
    let mut objects = objects_of(&rt);
    push_queue(&rt, &mut objects, 99_993);
    unfit_is(&rt, VERSION, &objects, None);
    push_queue(&rt, &mut objects, 1);
    push(&rt, &mut objects, Value::Account(1_000_000_000_000_001));
    let unfit = Unfit::TooMany;
    unfit_is(&rt, VERSION, &objects, Some(Misfit { place: 8, unfit }));
    // A document of version 5 may start with more.
    let unfit = Unfit::Start;
    unfit_is(&rt, 5, &objects, Some(Misfit { place: 9, unfit }));
}
