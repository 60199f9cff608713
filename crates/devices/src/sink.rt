//! Sinks: where a text goes.
ghost use Rattle.std.specs.Prelude.{◌≡◌, ◌<◌, ◌≤◌, ℕ, Bool, List, Option, false, IfOk, is_err, length};
ghost use Rattle.std.specs.Io.KnownBytes.{WriteAppends};

use crate::source::Failed;

/// A device that bytes are written to.
pub trait Sink {
    // The bytes that were taken, where they are known.
    ghost taken: { Self → Option (List ℕ) };

    // Whether a put failed.
    ghost has_failed: { Self → Bool };

    /// Takes bytes from the front of the piece, and returns how many: at least one of a piece that
    /// isn't empty. Nothing is put after a put that failed.
    fn put(&mut self, piece: &[u8]) -> Result<usize, Failed>
        requires sound { has_failed self.old ≡ false }
        ensures bound { IfOk result (λ count. count ≤ length piece.now) }
        ensures progress { 0 < length piece.now → IfOk result (λ count. 0 < count) }
        ensures bytes { WriteAppends (taken self.old) (taken self.new) result piece.now }
        ensures mark { has_failed self.new ≡ is_err result };

    /// Whether a put failed.
    fn failed(&self) -> bool
        ensures { result ≡ has_failed self.now };
}
