//! Readers and writers of std as sources and sinks, with a mark of whether a call failed.
ghost use Rattle.std.specs.Prelude.{◌≡◌, false};

use crate::sink::Sink;
use crate::source::{Failed, Source};
use std::io::{Read, Write};

/// A source over a reader, or a sink over a writer. A call failed where the reader or the writer
/// returned an error, which includes an interruption. It also failed where the writer took no byte
/// of a piece that isn't empty.
#[derive(Drop)]
pub struct Marked<D> {
    device: D,
    expected: usize,
    ended: bool,
    failed: bool,
}

impl<D> Marked<D> {
    /// This device, of which no call has met the end or failed yet.
    pub fn new(device: D) -> Marked<D>
        ensures device { result.device ≡ device }
        ensures unended { result.ended ≡ false }
        ensures unmarked { result.failed ≡ false }
    {
        Marked::expecting(device, 0)
    }

    /// This device as [`Marked::new`] makes it, which is expected to give about so many bytes.
    pub fn expecting(device: D, expected: usize) -> Marked<D>
        ensures device { result.device ≡ device }
        ensures unended { result.ended ≡ false }
        ensures unmarked { result.failed ≡ false }
    {
        Marked {
            device,
            expected,
            ended: false,
            failed: false,
        }
    }

    /// The device.
    pub fn into_inner(self) -> D
        ensures { result ≡ self.device }
    {
        self.device
    }
}

impl<R: Read> Source for Marked<R> {
    ghost remaining = { λ source. R.remaining source.device };

    ghost has_ended = { λ source. source.ended };

    ghost has_failed = { λ source. source.failed };

    fn fetch(&mut self, piece: &mut [u8]) -> Result<usize, Failed> {
        match self.device.read(piece) {
            Ok(count) => {
                self.ended = !piece.is_empty() && count == 0;
                Ok(count)
            }
            Err(_) => {
                self.failed = true;
                Err(Failed)
            }
        }
    }

    fn expected(&self) -> usize {
        self.expected
    }

    fn ended(&self) -> bool {
        self.ended
    }

    fn failed(&self) -> bool {
        self.failed
    }
}

impl<W: Write> Sink for Marked<W> {
    ghost taken = { λ sink. W.contents sink.device };

    ghost has_failed = { λ sink. sink.failed };

    fn put(&mut self, piece: &[u8]) -> Result<usize, Failed> {
        match self.device.write(piece) {
            Ok(count) if count > 0 || piece.is_empty() => Ok(count),
            _ => {
                self.failed = true;
                Err(Failed)
            }
        }
    }

    fn failed(&self) -> bool {
        self.failed
    }
}
