//! Tests of streams that move a few bytes a call and fail, and of whole batches.
ghost use Rattle.std.specs.Prelude.{◌≡◌, false};

use crate::Meeting;
use crate::memory::{TestSink, TestSource};
use ordtx::{
    Code, Fault, Marked, NoGate, Plan, Sink, Source, Uncarried, Wrong, audit_stream,
    carry_into_stream, carry_stream, check_at_once_stream, check_stream, run_stream,
    serial_at_once_stream, serial_stream,
};
use std::alloc::AllocGlobal;
use std::hash::RandomState;
use std::io;
use std::io::{ErrorKind, Read, Write};
use std::process::Abort;
use std::random::RandomSource;
use std::thread::Threads;

const DOCUMENT: &[u8] =
    b"{\"ordtx\":1,\"objects\":[{\"name\":\"a\",\"kind\":\"account\",\"start\":100}],\"transactions\":[[{\"op\":[\"a\",\"withdraw\",10]}],[{\"op\":[\"a\",\"withdraw\",95]}]]}";

const REPORT: &[u8] =
    b"T 1 committed\nO 1.1 a withdraw 10 = ok\nT 2 committed\nO 2.1 a withdraw 95 = no\n= a account 90\nrounds 2\n";

// What `run` writes for the same transactions with their run counts, `serial`, and `check`.
const COUNTS: &[u8] = b"runs 1 1\nruns 2 2\n";

const PLAIN: &[u8] =
    b"T 1 committed\nO 1.1 a withdraw 10 = ok\nT 2 committed\nO 2.1 a withdraw 95 = no\n= a account 90\n";

const HELD: &[u8] = b"ok objects 1 transactions 2 operations 2\n";

// What `carry` writes.
const CARRIED: &[u8] =
    b"{\"ordtx\": 4,\n\"objects\": [\n{\"name\": \"a\", \"kind\": \"account\", \"start\": 90}\n],\n\"transactions\": [\n]}\n";

// An account that ends as none may start.
const UNFIT: &[u8] =
    b"{\"ordtx\":1,\"objects\":[{\"name\":\"a\",\"kind\":\"account\",\"start\":1000000000000000}],\"transactions\":[[{\"op\":[\"a\",\"deposit\",1]}]]}";

// A next document with an object of its own, and what `carry --into` writes.
const NEXT: &[u8] =
    b"{\"ordtx\":1,\"objects\":[{\"name\":\"b\",\"kind\":\"set\",\"start\":[\"x\"]},{\"name\":\"a\",\"kind\":\"account\",\"start\":0}],\"transactions\":[[], [ {\"op\":[\"a\", \"deposit\", 7]}]]}";

const JOINED: &[u8] =
    b"{\"ordtx\": 4,\n\"objects\": [\n{\"name\": \"b\", \"kind\": \"set\", \"start\": [\"x\"]},\n{\"name\": \"a\", \"kind\": \"account\", \"start\": 90}\n],\n\"transactions\": [\n[],\n[{\"op\":[\"a\",\"deposit\",7]}]\n]}\n";

// A next document with another kind of object.
const CLASH: &[u8] =
    b"{\"ordtx\":1,\"objects\":[{\"name\":\"a\",\"kind\":\"counter\",\"start\":0}],\"transactions\":[]}";

const ALWAYS: usize = usize::MAX;

/// Runs the document of a source with the plan that `ordtx run` has without options.
fn answer_of<R: Source, W: Sink>(
    rt: &(impl Threads + Sync + Abort + AllocGlobal),
    source: &mut R,
    sink: &mut W,
) -> Result<(), Fault>
    requires unended { R.has_ended source.old ≡ false }
    requires unread { R.has_failed source.old ≡ false }
    requires unwritten { W.has_failed sink.old ≡ false }
{
    let plan = Plan::new(4, 16).expect(rt, "a plan");
    run_stream(rt, rt.alloc(), source, sink, plan, &NoGate)
}

#[test]
fn moves_a_byte_a_call(rt: HostRuntime) {
    let mut source = TestSource::new(DOCUMENT, 1, ALWAYS);
    let mut sink = TestSink::new(&rt, 1, ALWAYS);
    assert!(rt; answer_of(&rt, &mut source, &mut sink).is_ok());
    assert!(rt; sink.taken() == REPORT);
}

#[test]
fn writes_run_counts(rt: HostRuntime) {
    let plan = Plan::new(4, 16).expect(&rt, "a plan");
    let mut source = Marked::new(DOCUMENT);
    let mut sink = TestSink::new(&rt, 9, ALWAYS);
    assert!(rt; audit_stream(&rt, rt.alloc(), &mut source, &mut sink, plan, &NoGate).is_ok());
    assert!(rt; sink.taken().starts_with(REPORT) && sink.taken().ends_with(COUNTS));
    assert_eq!(rt; sink.taken().len(), REPORT.len() + COUNTS.len());
}

#[test]
fn runs_of_a_document_meet(rt: HostRuntime) {
    let plan = Plan::new(2, 1).expect(&rt, "a plan");
    let gate = Meeting::new((1, 0), (2, 0));
    let mut sink = TestSink::new(&rt, ALWAYS, ALWAYS);
    assert!(rt;
        run_stream(
            &rt,
            rt.alloc(),
            &mut Marked::new(DOCUMENT),
            &mut sink,
            plan,
            &gate
        )
        .is_ok()
    );
    assert!(rt; gate.has_met());
    assert!(rt; sink.taken() == REPORT);
}

/// Gives fives.
struct Fives;

impl RandomSource for Fives {
    fn fill_bytes(&self, bytes: &mut [u8]) -> io::Result<()> {
        bytes.fill(5);
        Ok(())
    }
}

#[test]
fn keys_change_no_report(rt: HostRuntime) {
    let keys = RandomState::new(&Fives).expect(&rt, "keys");
    let plan = Plan::new(2, 16).expect(&rt, "a plan").with_keys(keys);
    let mut source = Marked::new(DOCUMENT);
    let mut sink = TestSink::new(&rt, ALWAYS, ALWAYS);
    assert!(rt; run_stream(&rt, rt.alloc(), &mut source, &mut sink, plan, &NoGate).is_ok());
    assert!(rt; sink.taken() == REPORT);
}

#[test]
fn answers_on_one_thread(rt: HostRuntime) {
    let mut sink = TestSink::new(&rt, ALWAYS, ALWAYS);
    assert!(rt; serial_stream(rt.alloc(), &mut Marked::new(DOCUMENT), &mut sink).is_ok());
    assert!(rt; sink.taken() == PLAIN);
}

#[test]
fn writes_how_much_a_document_has(rt: HostRuntime) {
    let mut sink = TestSink::new(&rt, ALWAYS, ALWAYS);
    assert!(rt; check_stream(rt.alloc(), &mut Marked::new(DOCUMENT), &mut sink).is_ok());
    assert!(rt; sink.taken() == HELD);
}

#[test]
fn answers_by_workers(rt: HostRuntime) {
    let plan = Plan::new(2, 16).expect(&rt, "a plan");
    let mut source = Marked::new(DOCUMENT);
    let mut sink = TestSink::new(&rt, 9, ALWAYS);
    assert!(rt; serial_at_once_stream(&rt, rt.alloc(), &mut source, &mut sink, plan).is_ok());
    assert!(rt; sink.taken() == PLAIN);
}

#[test]
fn writes_by_workers_how_much_a_document_has(rt: HostRuntime) {
    let plan = Plan::new(2, 16).expect(&rt, "a plan");
    let mut source = Marked::new(DOCUMENT);
    let mut sink = TestSink::new(&rt, ALWAYS, ALWAYS);
    assert!(rt; check_at_once_stream(&rt, rt.alloc(), &mut source, &mut sink, plan).is_ok());
    assert!(rt; sink.taken() == HELD);
}

/// Carries the objects of a document over by two workers.
fn carry<W: Sink>(
    rt: &(impl Threads + Sync + Abort + AllocGlobal),
    document: &[u8],
    sink: &mut W,
) -> Result<(), Uncarried>
    requires unwritten { W.has_failed sink.old ≡ false }
{
    let plan = Plan::new(2, 16).expect(rt, "a plan");
    carry_stream(rt, rt.alloc(), &mut Marked::new(document), sink, plan)
}

/// Carries the objects of the document into a next one by two workers.
fn carry_into<W: Sink>(
    rt: &(impl Threads + Sync + Abort + AllocGlobal),
    next: &[u8],
    sink: &mut W,
) -> Result<(), Uncarried>
    requires unwritten { W.has_failed sink.old ≡ false }
{
    let plan = Plan::new(2, 16).expect(rt, "a plan");
    let mut first = Marked::new(DOCUMENT);
    carry_into_stream(
        rt,
        rt.alloc(),
        &mut first,
        &mut Marked::new(next),
        sink,
        plan,
    )
}

#[test]
fn carries_objects_over(rt: HostRuntime) {
    let mut sink = TestSink::new(&rt, ALWAYS, ALWAYS);
    assert!(rt; carry(&rt, DOCUMENT, &mut sink).is_ok());
    assert!(rt; sink.taken() == CARRIED);
}

#[test]
fn carries_no_unfit_object(rt: HostRuntime) {
    let mut sink = TestSink::new(&rt, ALWAYS, ALWAYS);
    let answer = carry(&rt, UNFIT, &mut sink);
    refuses_object(&rt, answer, Wrong::Start);
    assert!(rt; sink.taken().is_empty());
}

/// Stops the test where an answer isn't that the object `a` is wrong so.
fn refuses_object(rt: &impl Abort, answer: Result<(), Uncarried>, wrong: Wrong) {
    let Err(Uncarried::Object(fault, name)) = answer else {
        panic!(rt; "no object is refused")
    };
    assert!(rt; fault == wrong.outside());
    assert_eq!(rt; name.as_str(), "a");
}

#[test]
fn carries_objects_into_the_next_document(rt: HostRuntime) {
    let mut sink = TestSink::new(&rt, ALWAYS, ALWAYS);
    let answer = carry_into(&rt, NEXT, &mut sink);
    assert!(rt; answer.is_ok());
    assert!(rt; sink.taken() == JOINED);
}

#[test]
fn carries_no_object_of_two_kinds(rt: HostRuntime) {
    let mut sink = TestSink::new(&rt, ALWAYS, ALWAYS);
    let answer = carry_into(&rt, CLASH, &mut sink);
    refuses_object(&rt, answer, Wrong::DuplicateObject);
    assert!(rt; sink.taken().is_empty());
}

/// Stops the test where a sink that fails after so many bytes hasn't taken exactly the first ones
/// of the report.
fn writes_first(rt: &(impl Threads + Sync + Abort + AllocGlobal), sound: usize) {
    let mut source = TestSource::new(DOCUMENT, 7, ALWAYS);
    let mut sink = TestSink::new(rt, 4, sound);
    let answer = answer_of(rt, &mut source, &mut sink);
    assert!(rt; answer == Err(Code::Output.outside()), "after {sound}");
    assert!(rt; sink.failed() && !source.failed());
    assert!(rt; Some(sink.taken()) == REPORT.get(..sound));
}

#[test]
fn writes_a_beginning(rt: HostRuntime) {
    for sound in [0, 1, 50, REPORT.len() - 1] {
        writes_first(&rt, sound);
    }
}

#[test]
fn fails_to_read(rt: HostRuntime) {
    let mut source = TestSource::new(DOCUMENT, ALWAYS, 20);
    let mut sink = TestSink::new(&rt, ALWAYS, ALWAYS);
    let answer = answer_of(&rt, &mut source, &mut sink);
    assert!(rt; answer == Err(Code::Input.outside()));
    assert!(rt; sink.taken().is_empty());
}

/// A reader and a writer of which one call fails, after some that moved at most 7 bytes each. It
/// counts the calls after that one, which succeed.
#[derive(Drop)]
struct FailsOnce<'a> {
    rest: &'a [u8],
    before: usize,
    failed: bool,
    after: usize,
}

impl<'a> FailsOnce<'a> {
    fn new(rest: &'a [u8], before: usize) -> FailsOnce<'a> {
        FailsOnce {
            rest,
            before,
            failed: false,
            after: 0,
        }
    }

    // Counts a call, or is the failure.
    fn pass(&mut self) -> io::Result<()> {
        if self.failed {
            self.after = self.after.saturating_add(1);
        } else if self.before == 0 {
            self.failed = true;
            return Err(io::Error::from(ErrorKind::Interrupted));
        } else {
            self.before -= 1;
        }
        Ok(())
    }
}

impl<'a> Read for FailsOnce<'a> {
    fn read(&mut self, buf: &mut [u8]) -> io::Result<usize> {
        self.pass()?;
        let most = buf.len().min(7);
        self.rest.read(&mut buf[..most])
    }
}

impl<'a> Write for FailsOnce<'a> {
    fn write(&mut self, buf: &[u8]) -> io::Result<usize> {
        self.pass()?;
        Ok(buf.len().min(7))
    }

    fn flush(&mut self) -> io::Result<()> {
        Ok(())
    }
}

/// Stops the test where a read that fails after so many others is tried again, or isn't the answer.
fn read_fails_once(rt: &(impl Threads + Sync + Abort + AllocGlobal), before: usize) {
    let mut source = Marked::new(FailsOnce::new(DOCUMENT, before));
    let mut sink = TestSink::new(rt, ALWAYS, ALWAYS);
    let answer = answer_of(rt, &mut source, &mut sink);
    assert!(rt; answer == Err(Code::Input.outside()));
    assert!(rt; Source::failed(&source) && !source.ended() && sink.taken().is_empty());
    let device = source.into_inner();
    assert!(rt; device.failed && device.after == 0);
}

#[test]
fn a_failed_read_is_not_tried_again(rt: HostRuntime) {
    for before in [0, 1, 5] {
        read_fails_once(&rt, before);
    }
}

/// Stops the test where a write that fails after so many others is tried again, or isn't the answer.
fn write_fails_once(rt: &(impl Threads + Sync + Abort + AllocGlobal), before: usize) {
    let mut source = Marked::new(DOCUMENT);
    let mut sink = Marked::new(FailsOnce::new(b"", before));
    let answer = answer_of(rt, &mut source, &mut sink);
    assert!(rt; answer == Err(Code::Output.outside()));
    assert!(rt; source.ended() && !source.failed() && Sink::failed(&sink));
    let device = sink.into_inner();
    assert!(rt; device.failed && device.after == 0);
}

#[test]
fn a_failed_write_is_not_tried_again(rt: HostRuntime) {
    for before in [0, 1, 5] {
        write_fails_once(&rt, before);
    }
}

/// Stops the test where a document isn't refused for this fault, or something is written.
fn writes_nothing(rt: &(impl Threads + Sync + Abort + AllocGlobal), document: &[u8], wrong: Wrong) {
    let mut source = Marked::new(document);
    let mut sink = TestSink::new(rt, ALWAYS, ALWAYS);
    let answer = answer_of(rt, &mut source, &mut sink);
    assert!(rt; answer == Err(wrong.outside()));
    assert!(rt; sink.taken().is_empty() && !source.failed());
}

#[test]
fn writes_nothing_for_a_fault(rt: HostRuntime) {
    let documents: [(&[u8], Wrong); 3] = [
        (b"", Wrong::NotJson),
        (
            b"{\"ordtx\":1,\"objects\":[],\"transactions\":[",
            Wrong::NotJson,
        ),
        (b"{\"ordtx\":1}", Wrong::Shape),
    ];
    for (document, wrong) in documents {
        writes_nothing(&rt, document, wrong);
    }
}

// A slice takes no byte once it is full.
#[test]
fn takes_no_byte(rt: HostRuntime) {
    let mut source = Marked::new(DOCUMENT);
    let mut full = [0u8; 0];
    let mut sink = Marked::new(full.as_mut_slice());
    let answer = answer_of(&rt, &mut source, &mut sink);
    assert!(rt; answer == Err(Code::Output.outside()));
}
