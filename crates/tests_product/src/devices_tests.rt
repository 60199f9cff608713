//! Tests of reading a source up to a number of bytes, and of writing a text in pieces.
use crate::memory::{TestSink, TestSource};
use devices::{Failed, Source, Unread, read_input, write_text};
use std::alloc::AllocGlobal;
use std::process::Abort;

const TEXT: &[u8] = b"thirty bytes, a few at a time.";

const ALWAYS: usize = usize::MAX;

/// Stops the test where these bytes aren't what is read of the text, with so many at most, or the
/// end isn't met as expected.
fn reads(rt: &(impl Abort + AllocGlobal), most: usize, expected: &[u8], ends: bool) {
    let mut source = TestSource::new(TEXT, 7, ALWAYS);
    let Ok(bytes) = read_input(rt.alloc(), &mut source, most) else {
        panic!(rt; "not read")
    };
    assert!(rt; bytes.as_slice() == expected);
    assert_eq!(rt; source.ended(), ends);
}

#[test]
fn reads_to_the_end(rt: HostRuntime) {
    reads(&rt, 31, TEXT, true);
    reads(&rt, usize::MAX, TEXT, true);
}

#[test]
fn reads_so_many_bytes_at_most(rt: HostRuntime) {
    reads(&rt, 0, b"", false);
    reads(&rt, 12, b"thirty bytes", false);
    reads(&rt, 30, TEXT, false);
}

#[test]
fn a_failed_fetch_ends_the_reading(rt: HostRuntime) {
    let mut source = TestSource::new(TEXT, 7, 20);
    assert!(rt; read_input(rt.alloc(), &mut source, 31) == Err(Unread::Failed));
    assert!(rt; source.failed());
}

#[test]
fn writes_a_text_in_pieces(rt: HostRuntime) {
    let mut sink = TestSink::new(&rt, 4, ALWAYS);
    assert!(rt; write_text(&mut sink, TEXT) == Ok(()));
    assert!(rt; sink.taken() == TEXT);
}

#[test]
fn a_failed_put_leaves_a_beginning(rt: HostRuntime) {
    let mut sink = TestSink::new(&rt, 4, 10);
    assert!(rt; write_text(&mut sink, TEXT) == Err(Failed));
    assert!(rt; Some(sink.taken()) == TEXT.get(..10));
}
