//! What labels hold.
use crate::end::End;
use objects::Reply;

/// What a label holds: the reply of an operation, or the outcome of a subaction.
#[derive(Clone, Copy, Debug, PartialEq, Eq)]
pub enum Held {
    Replied(Reply),
    Outcome(End),
}
