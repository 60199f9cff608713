//! Records: what a run of a block did.
use meaning::End;
use objects::{Call, Reply};

/// A call that was made from a template, and its reply.
#[derive(Clone, Copy, Debug, Drop)]
pub struct Made {
    pub call: Call,
    pub reply: Reply,
}

/// What a run of a block did.
#[derive(Debug, Drop)]
#[cycle(record)]
pub struct Record {
    /// The steps that were taken, in order.
    pub taken: Vec<Taken>,
    /// How the block ended.
    pub outcome: End,
}

/// A step that was taken.
#[derive(Debug, Drop)]
#[cycle(record)]
pub enum Taken {
    /// The reply of an operation.
    Op(Reply),
    /// An operation whose call was made when it was reached.
    Filled(Box<Made>),
    /// Whether the test held, and the branch that was run.
    If(bool, Box<Record>),
    /// A subaction: its body, and the handler where one ran.
    Sub(Box<Record>, Option<Box<Record>>),
    /// An abort.
    Abort,
    /// The children of a parallel step that were reached, each as a subaction.
    Parallel(Vec<(Record, Option<Record>)>),
}
