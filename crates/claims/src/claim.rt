//! What a claim returns, and what a gathering returns.

/// What a claim returns.
#[derive(Clone, Copy, Debug, PartialEq, Eq)]
pub enum Claim {
    /// This piece is the seat's own, and no other seat's.
    Piece(u32),
    /// All pieces are drawn.
    Done,
    /// Some seat raised.
    Stopped,
}

/// What the seats of a board did together, as a gathering returns it.
#[derive(Clone, Copy, Debug, PartialEq, Eq)]
pub struct Tally {
    /// How many pieces were drawn: those below this number, each by one seat.
    pub drawn: u32,
    /// Whether some seat raised.
    pub stopped: bool,
    /// The least number that a seat lowered to, or the number of pieces where none did.
    pub first: u32,
}
