//! Sources and sinks over memory, for tests. They move a few bytes a call, and fail after some
//! bytes.
ghost use Rattle.std.specs.Prelude.{◌≡◌, ◌<◌, false, Some};

use ordtx::{Failed, Sink, Source};
use std::alloc::AllocGlobal;
use std::process::Abort;

// How many bytes a sink has room for beforehand: more than any text of the tests.
const ROOM: usize = 200;

/// A source of these bytes that moves at most `most` bytes a call. A fetch fails once `sound` bytes
/// were given.
#[derive(Debug, Drop)]
pub struct TestSource<'a> {
    rest: &'a [u8],
    most: usize,
    sound: usize,
    ended: bool,
    failed: bool,
    pub ghost gives: { 0 < most },
}

impl<'a> TestSource<'a> {
    /// A source that gives these bytes.
    pub fn new(bytes: &'a [u8], most: usize, sound: usize) -> TestSource<'a>
        requires { 0 < most }
        ensures rest { result.rest ≡ bytes.entry }
        ensures unended { result.ended ≡ false }
        ensures unmarked { result.failed ≡ false }
    {
        TestSource {
            rest: bytes,
            most,
            sound,
            ended: false,
            failed: false,
        }
    }
}

impl<'a> Source for TestSource<'a> {
    ghost remaining = { λ source. Some source.rest.now };

    ghost has_ended = { λ source. source.ended };

    ghost has_failed = { λ source. source.failed };

    fn fetch(&mut self, piece: &mut [u8]) -> Result<usize, Failed> {
        if self.sound == 0 {
            self.failed = true;
            return Err(Failed);
        }
        let count = piece
            .len()
            .min(self.most)
            .min(self.sound)
            .min(self.rest.len());
        let (given, rest) = self.rest.split_at(count);
        piece[..count].copy_from_slice(given);
        self.rest = rest;
        self.sound -= count;
        self.ended = !piece.is_empty() && count == 0;
        Ok(count)
    }

    fn ended(&self) -> bool {
        self.ended
    }

    fn failed(&self) -> bool {
        self.failed
    }
}

/// A sink that takes at most `most` bytes a call. A put fails once `sound` bytes were taken, or
/// where there is no memory.
#[derive(Debug, Drop)]
pub struct TestSink {
    taken: Vec<u8>,
    most: usize,
    sound: usize,
    failed: bool,
    pub ghost takes: { 0 < most },
}

impl TestSink {
    /// A sink that has taken nothing. It has room beforehand, so that a put needs no memory. Stops
    /// the test where there is no room.
    pub fn new(rt: &(impl Abort + AllocGlobal), most: usize, sound: usize) -> TestSink
        requires { 0 < most }
        ensures { result.failed ≡ false }
    {
        let Ok(taken) = Vec::with_capacity(rt.alloc(), ROOM) else {
            panic!(rt; "no memory")
        };
        TestSink {
            taken,
            most,
            sound,
            failed: false,
        }
    }

    /// The bytes that were taken.
    pub fn taken(&self) -> &[u8]
        ensures { result.now ≡ self.now.taken.items }
    {
        self.taken.as_slice()
    }
}

impl Sink for TestSink {
    ghost taken = { λ sink. Some sink.taken.items };

    ghost has_failed = { λ sink. sink.failed };

    fn put(&mut self, piece: &[u8]) -> Result<usize, Failed> {
        let count = piece.len().min(self.most).min(self.sound);
        if self.sound == 0 || self.taken.extend_from_slice(&piece[..count]).is_err() {
            self.failed = true;
            return Err(Failed);
        }
        self.sound -= count;
        Ok(count)
    }

    fn failed(&self) -> bool {
        self.failed
    }
}
