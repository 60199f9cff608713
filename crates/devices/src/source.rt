//! Sources: where a document comes from.
ghost use Rattle.std.specs.Prelude.{◌≡◌, ◌≤◌, ℕ, Bool, List, Option, false, IfOk, is_err, length};
ghost use Rattle.std.specs.Io.KnownBytes.{ReadConsumes};
ghost use Rattle.devices.specs.Devices.{meets_end};

/// A call on a device failed, and moved no byte.
#[derive(Clone, Copy, Debug, Drop, PartialEq, Eq)]
pub struct Failed;

/// A device that bytes are read from.
pub trait Source {
    // The bytes that fetches will give from here on, where they are known.
    ghost remaining: { Self → Option (List ℕ) };

    // Whether a fetch met the end.
    ghost has_ended: { Self → Bool };

    // Whether a fetch failed.
    ghost has_failed: { Self → Bool };

    /// Writes the next bytes to the front of the piece, and returns how many. For a piece that
    /// isn't empty, 0 is the end. Nothing is fetched after the end, nor after a fetch that failed.
    fn fetch(&mut self, piece: &mut [u8]) -> Result<usize, Failed>
        requires unended { has_ended self.old ≡ false }
        requires sound { has_failed self.old ≡ false }
        ensures bound { IfOk result (λ count. count ≤ length piece.new) }
        ensures bytes { ReadConsumes (remaining self.old) (remaining self.new) result piece.new }
        ensures end { has_ended self.new ≡ meets_end result (length piece.new) }
        ensures mark { has_failed self.new ≡ is_err result };

    /// About how many bytes are left, where the device knows. Nothing rests on it: where it is wrong,
    /// more memory is asked for, or it is asked for more often.
    fn expected(&self) -> usize {
        0
    }

    /// Whether a fetch met the end.
    fn ended(&self) -> bool
        ensures { result ≡ has_ended self.now };

    /// Whether a fetch failed.
    fn failed(&self) -> bool
        ensures { result ≡ has_failed self.now };
}
