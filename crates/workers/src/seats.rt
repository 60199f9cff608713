//! How many workers there are.
ghost use Rattle.std.specs.Prelude.{◌≤◌};

/// How many seats to open: at most one for each piece, and at least one.
pub(crate) fn seats_for(pieces: u32, workers: u32) -> u32
    requires { 1 ≤ workers }
    ensures some { (1 ≤ result) × (result ≤ workers) }
    ensures few { 1 ≤ pieces → result ≤ pieces }
{
    workers.min(pieces).max(1)
}
