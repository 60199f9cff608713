//! Documents that are read from bytes. `tests/refused.py` has those that are refused.
use batch::Batch;
use lang::{Item, Step, Value, read};
use std::alloc::AllocGlobal;
use std::process::Abort;

/// A document of a version, of these objects and transactions.
fn document(
    rt: &(impl Abort + AllocGlobal),
    version: u32,
    objects: &str,
    transactions: &str,
) -> String {
    let Ok(text) = format!(in rt.alloc();
        "{{\"ordtx\":{version},\"objects\":[{objects}],\"transactions\":[{transactions}]}}"
    ) else {
        panic!(rt; "no memory")
    };
    text
}

/// The same document, with its members in another order.
fn document_in_other_order(
    rt: &(impl Abort + AllocGlobal),
    version: u32,
    objects: &str,
    transactions: &str,
) -> String {
    let Ok(text) = format!(in rt.alloc();
        "{{\"transactions\":[{transactions}],\"objects\":[{objects}],\"ordtx\":{version}}}"
    ) else {
        panic!(rt; "no memory")
    };
    text
}

/// The same document, with its members sorted by name.
fn document_sorted(
    rt: &(impl Abort + AllocGlobal),
    version: u32,
    objects: &str,
    transactions: &str,
) -> String {
    let Ok(text) = format!(in rt.alloc();
        "{{\"objects\":[{objects}],\"ordtx\":{version},\"transactions\":[{transactions}]}}"
    ) else {
        panic!(rt; "no memory")
    };
    text
}

/// Appends a part to a text.
fn append(rt: &impl Abort, text: &mut String, part: &str) {
    let Ok(()) = text.push_str(part) else {
        panic!(rt; "no memory")
    };
}

/// These parts, with commas between them.
fn listed(rt: &(impl Abort + AllocGlobal), parts: &[&str]) -> String {
    let mut text = String::new(rt.alloc());
    for part in parts {
        if !text.as_str().is_empty() {
            append(rt, &mut text, ",");
        }
        append(rt, &mut text, part);
    }
    text
}

const SIX: &str =
    "{\"name\":\"a\",\"kind\":\"account\",\"start\":5},{\"name\":\"c\",\"kind\":\"counter\",\"start\":-3},{\"name\":\"s\",\"kind\":\"set\",\"start\":[\"x\",\"y\"]},{\"name\":\"q\",\"kind\":\"queue\",\"start\":[\"x\",\"x\"]},{\"name\":\"d\",\"kind\":\"directory\",\"start\":[[\"k\",\"v\"],[\"x\",\"k\"]]},{\"name\":\"m\",\"kind\":\"max\",\"start\":7}";

const ALL_STEPS: &str =
    "[{\"op\":[\"d\",\"put\",\"new\",\"w\"],\"as\":\"l\"},{\"if\":\"l\",\"is\":\"ok\",\"then\":[{\"op\":[\"q\",\"enq\",\"t\"]}],\"else\":[{\"op\":[\"q\",\"enq\",\"e\"]}]},{\"sub\":[{\"abort\":\"late\"}],\"handlers\":{\"z\":[],\"early\":[{\"op\":[\"s\",\"insert\",\"h\"]}]},\"handler\":[{\"abort\":true}],\"as\":\"o\"},{\"parallel\":[{\"sub\":[{\"op\":[\"q\",\"deq\"],\"as\":\"g\"},{\"if\":\"g\",\"item\":\"p\",\"then\":[]}],\"as\":\"g\"},{\"sub\":[{\"abort\":\"early\"}]}]},{\"if\":\"g\",\"is\":\"committed\",\"then\":[]}]";

/// The document of all kinds of objects and of all steps, read.
fn all_read(rt: &(impl Abort + AllocGlobal)) -> Batch {
    let Ok(batch) = read(rt.alloc(), document(rt, 4, SIX, ALL_STEPS).as_bytes()) else {
        panic!(rt; "not read")
    };
    batch
}

#[test]
fn numbers_are_read(rt: HostRuntime) {
    let batch = all_read(&rt);
    assert!(rt; matches!(batch.objects.value(0), Some(Value::Account(5))));
    assert!(rt; matches!(batch.objects.value(1), Some(Value::Counter(-3))));
    assert!(rt; matches!(batch.objects.value(5), Some(Value::Max(7))));
}

#[test]
fn a_set_is_read(rt: HostRuntime) {
    let batch = all_read(&rt);
    match batch.objects.value(2) {
        Some(Value::Set(set)) => assert_eq!(rt; set.len(), 2),
        _ => assert!(rt; false),
    }
}

#[test]
fn a_queue_is_read(rt: HostRuntime) {
    let batch = all_read(&rt);
    match batch.objects.value(3) {
        Some(Value::Queue(queue)) => assert_eq!(rt; queue.items().len(), 2),
        _ => assert!(rt; false),
    }
}

#[test]
fn a_directory_is_read(rt: HostRuntime) {
    let batch = all_read(&rt);
    match batch.objects.value(4) {
        Some(Value::Directory(directory)) => assert_eq!(rt; directory.get(Item(0)), Some(Item(2))),
        _ => assert!(rt; false),
    }
}

#[test]
fn objects_and_transactions_are_counted(rt: HostRuntime) {
    let batch = all_read(&rt);
    assert!(rt; batch.objects.len() == 6);
    assert!(rt; batch.transactions.len() == 1);
    assert!(rt; batch.transactions[0].steps.len() == 5);
}

#[test]
fn steps_are_read(rt: HostRuntime) {
    let batch = all_read(&rt);
    assert!(rt; batch.transactions.len() == 1);
    let steps = &batch.transactions[0].steps;
    assert!(rt; steps.len() == 5);
    assert!(rt;
        matches!(
            steps[0],
            Step::Op {
                object: 4,
                labelled: true,
                ..
            }
        )
    );
    assert!(rt; matches!(steps[1], Step::If { label: 0, .. }));
    assert!(rt; matches!(steps[4], Step::If { label: 2, .. }));
}

/// Stops the test where a name is another.
fn is_named(rt: &impl Abort, name: Option<&str>, expected: Option<&str>) {
    assert_eq!(rt; name, expected);
}

#[test]
fn items_are_numbered_by_first_appearance(rt: HostRuntime) {
    let batch = all_read(&rt);
    let items = [
        (0, "x"),
        (1, "y"),
        (2, "k"),
        (3, "v"),
        (4, "new"),
        (5, "w"),
        (6, "t"),
        (7, "e"),
        (8, "h"),
        (9, "p"),
    ];
    for (number, item) in items {
        is_named(&rt, batch.names.item(Item(number)), Some(item));
    }
    is_named(&rt, batch.names.item(Item(10)), None);
}

#[test]
fn objects_and_reasons_are_numbered_by_first_appearance(rt: HostRuntime) {
    let batch = all_read(&rt);
    is_named(&rt, batch.names.object(5), Some("m"));
    is_named(&rt, batch.names.reason(0), Some("late"));
    is_named(&rt, batch.names.reason(1), Some("early"));
    is_named(&rt, batch.names.reason(2), Some("z"));
    is_named(&rt, batch.names.reason(3), None);
}

/// How many objects, and which names and transactions a document's bytes spell, as they are printed.
fn read_of(rt: &(impl Abort + AllocGlobal), text: &str) -> String {
    let alloc = rt.alloc();
    let Ok(batch) = read(alloc, text.as_bytes()) else {
        panic!(rt; "not read")
    };
    let objects = batch.objects.len();
    let names = &batch.names;
    let transactions = &batch.transactions;
    let Ok(printed) = format!(in alloc; "{objects} {names:?} {transactions:?}") else {
        panic!(rt; "no memory")
    };
    printed
}

/// Stops the test where a document is not read, or does not spell what another does.
fn reads_alike(rt: &(impl Abort + AllocGlobal), text: &str, other: &str) {
    assert_eq!(rt; read_of(rt, text).as_str(), read_of(rt, other).as_str());
}

/// Stops the test where transactions are not read alike in a turned document, which a tree reads.
fn reads_alike_turned(rt: &(impl Abort + AllocGlobal), transactions: &str) {
    let text = document(rt, 4, SIX, transactions);
    let by_tree = document_in_other_order(rt, 4, SIX, transactions);
    reads_alike(rt, text.as_str(), by_tree.as_str());
}

const CALLS: &str =
    "[{\"op\":[\"a\",\"balance\"],\"as\":\"b\"},{\"op\":[\"d\",\"bind\",\"k\",\"z\"]},{\"op\":[\"m\",\"raise\",9]},{\"if\":\"b\",\"atleast\":1,\"then\":[{\"op\":[\"c\",\"sub\",2]}]}]";

/// Stops the test where a document in which a text is replaced is not read as the turned one.
fn reads_alike_replaced(rt: &(impl Abort + AllocGlobal), from: &str, to: &str) {
    let transactions = listed(rt, &[CALLS, ALL_STEPS, "[]"]);
    let text = document(rt, 4, SIX, transactions.as_str());
    let Ok(replaced) = text.replace(rt.alloc(), from, to) else {
        panic!(rt; "no memory")
    };
    let by_tree = document_in_other_order(rt, 4, SIX, transactions.as_str());
    reads_alike(rt, replaced.as_str(), by_tree.as_str());
}

#[test]
fn the_same_is_read_without_a_tree(rt: HostRuntime) {
    let transactions = listed(&rt, &[CALLS, ALL_STEPS, "[]"]);
    reads_alike_turned(&rt, transactions.as_str());
    reads_alike_replaced(&rt, ",", " ,\n ");
    reads_alike_replaced(&rt, "{\"op\"", "{\"op\":1,\"op\"");
}

const SORTED: &str =
    "{\"kind\":\"set\",\"name\":\"ordtx\",\"start\":[\"ordtx\",\"x\"]},{\"kind\":\"max\",\"name\":\"m\",\"start\":7}";

const NAMED_FIRST: &str =
    "{\"name\":\"ordtx\",\"kind\":\"set\",\"start\":[\"ordtx\",\"x\"]},{\"name\":\"m\",\"kind\":\"max\",\"start\":7}";

/// The start of the first object comes twice, and the first one has a member `ordtx`.
const MISLEADING: &str =
    "{\"start\":{\"ordtx\":1},\"kind\":\"set\",\"name\":\"ordtx\",\"start\":[\"ordtx\",\"x\"]},{\"kind\":\"max\",\"name\":\"m\",\"start\":7}";

#[test]
fn sorted_members_are_read_alike(rt: HostRuntime) {
    let steps = "[{\"op\":[\"ordtx\",\"insert\",\"y\"]},{\"op\":[\"m\",\"raise\",9]}]";
    let text = document(&rt, 4, NAMED_FIRST, steps);
    for objects in [SORTED, NAMED_FIRST, MISLEADING] {
        let sorted = document_sorted(&rt, 4, objects, steps);
        reads_alike(&rt, text.as_str(), sorted.as_str());
    }
}

const SUB: &str = "\"sub\":[{\"op\":[\"q\",\"enq\",\"e\"]}]";

const HANDLERS: &str =
    "\"handlers\":{\"y\":[{\"op\":[\"q\",\"enq\",\"h\"]}],\"x\":[{\"abort\":\"z\"}]}";

const HANDLER: &str = "\"handler\":[{\"op\":[\"q\",\"enq\",\"g\"]},{\"abort\":true}]";

const LABEL: &str = "\"as\":\"o\"";

/// A document of a step of these members, and of a test of its label.
fn document_of_step(rt: &(impl Abort + AllocGlobal), members: &[&str]) -> String {
    let members = listed(rt, members);
    let members = members.as_str();
    let after = "{\"if\":\"o\",\"is\":\"aborted\",\"then\":[{\"abort\":\"y\"}]}";
    let Ok(steps) = format!(in rt.alloc(); "[{{{members}}},{after}]") else {
        panic!(rt; "no memory")
    };
    document(rt, 4, SIX, steps.as_str())
}

/// Stops the test where a step of these members is not read as the one whose `sub` comes last.
fn step_reads_alike(rt: &(impl Abort + AllocGlobal), members: &[&str]) {
    let text = document_of_step(rt, members);
    let by_tree = document_of_step(rt, &[HANDLERS, HANDLER, LABEL, SUB]);
    reads_alike(rt, text.as_str(), by_tree.as_str());
}

#[test]
fn steps_in_any_order_are_read_alike(rt: HostRuntime) {
    step_reads_alike(&rt, &[SUB, LABEL, HANDLERS, HANDLER]);
    step_reads_alike(&rt, &[SUB, HANDLERS, LABEL, HANDLER]);
    step_reads_alike(&rt, &[SUB, HANDLERS, HANDLER, LABEL]);
    step_reads_alike(&rt, &[SUB, HANDLER, HANDLERS, LABEL]);
    step_reads_alike(&rt, &[SUB, HANDLER, LABEL, HANDLERS]);
    step_reads_alike(&rt, &[SUB, LABEL, HANDLER, HANDLERS, LABEL]);
}

#[test]
fn each_step_is_read_alike_in_a_turned_document(rt: HostRuntime) {
    let rows = [
        "[{\"sub\":[]}]",
        "[{\"sub\":[{\"sub\":[{\"abort\":\"x\"}],\"handlers\":{\"y\":[],\"x\":[]}}],\"as\":\"n\"}]",
        "[{\"parallel\":[]},{\"abort\":true}]",
        "[{\"parallel\":[{\"sub\":[{\"parallel\":[{\"sub\":[],\"as\":\"m\"},{\"sub\":[]}]}],\"as\":\"n\"},{\"sub\":[],\"as\":\"m\"}]},{\"if\":\"m\",\"is\":\"committed\",\"then\":[],\"else\":[{\"abort\":\"x\"}]}]",
        "[{\"op\":[\"c\",\"read\"],\"as\":\"n\"},{\"if\":\"n\",\"atleast\":-3,\"then\":[]},{\"if\":\"n\",\"then\":[],\"atleast\":9223372036854775807}]",
        "[{\"op\":[\"d\",\"lookup\",\"k\"],\"as\":\"n\"},{\"if\":\"n\",\"item\":\"v\",\"then\":[{\"op\":[\"q\",\"enq\",\"w\"]}]},{\"if\":\"n\",\"then\":[],\"item\":\"u\"}]",
    ];
    for row in rows {
        reads_alike_turned(&rt, row);
    }
}
