//! Documents for tests.
use batch::Batch;
use lang::read;
use std::alloc::AllocGlobal;
use std::process::Abort;

/// An account with 100.
pub(crate) const ACCOUNT: &str = "{\"name\":\"a\",\"kind\":\"account\",\"start\":100}";

/// The batch of a document of a version, of these objects and transactions. Stops the test where the
/// document is refused.
pub(crate) fn batch_of(
    rt: &(impl Abort + AllocGlobal),
    version: u32,
    objects: &str,
    transactions: &str,
) -> Batch {
    let Ok(text) = format!(in rt.alloc();
        "{{\"ordtx\":{version},\"objects\":[{objects}],\"transactions\":[{transactions}]}}"
    ) else {
        panic!(rt; "no memory")
    };
    let Ok(batch) = read(rt.alloc(), text.as_bytes()) else {
        panic!(rt; "not read")
    };
    batch
}

/// An item, so many times, with commas between them.
pub(crate) fn copies_of(rt: &(impl Abort + AllocGlobal), item: &str, times: usize) -> String {
    let mut text = String::new(rt.alloc());
    for _ in 0..times {
        if !text.as_str().is_empty() {
            append(rt, &mut text, ",");
        }
        append(rt, &mut text, item);
    }
    text
}

/// Appends a part to a text.
fn append(rt: &impl Abort, text: &mut String, part: &str) {
    let Ok(()) = text.push_str(part) else {
        panic!(rt; "no memory")
    };
}
