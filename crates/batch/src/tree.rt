//! Transactions as trees of blocks and steps (nested transactions: Moss 1981).
use meaning::{Refusal, Template, Test};
use objects::Call;

/// A list of steps, which are taken in order. A transaction is a block.
#[derive(Debug, Drop)]
#[cycle(tree)]
pub struct Block {
    pub steps: Vec<Step>,
}

/// A step of a block. A label is a number: how many labels are seen before it. A step that is
/// `labelled` adds one more for the steps after it.
#[derive(Debug, Drop)]
#[cycle(tree)]
pub enum Step {
    /// One call on the object at this place. Its label holds the reply.
    Op {
        object: u32,
        call: Call,
        labelled: bool,
    },
    /// One call whose arguments may come from labels, or whose refusal may abort the block.
    Fill(Box<Filling>),
    /// Runs the branch that the test of a label picks.
    If {
        label: u32,
        test: Test,
        then: Box<Block>,
        otherwise: Box<Block>,
    },
    /// Runs a subaction.
    Sub(Box<Subaction>),
    /// Ends the innermost subaction or the transaction around it, for a reason or without one.
    Abort(Option<u32>),
    /// Subactions that may run at once. They mean the same as one after the other.
    Parallel(Vec<Subaction>),
}

/// One call on the object at this place, which is made when its step is reached. Where a label's reply
/// has no argument for it the step aborts. Where the reply is a refusal it may: for the reason of
/// `refusal`, if it has one. The label holds the reply.
#[derive(Clone, Copy, Debug, Drop)]
pub struct Filling {
    pub object: u32,
    pub template: Template,
    pub labelled: bool,
    pub refusal: Refusal,
}

/// A subaction, or a child of a parallel step. Its label holds its outcome.
///
/// Where the body aborts, its effects are undone, and a block takes the abort. It is the first of
/// the handlers for its reason, or else what `otherwise` says.
#[derive(Debug, Drop)]
#[cycle(tree)]
pub struct Subaction {
    /// The steps of the subaction.
    pub body: Block,
    /// Whether the subaction has a label.
    pub labelled: bool,
    /// The handlers of some reasons, tried in this order.
    pub handlers: Vec<Handler>,
    /// What comes of an abort that no handler is for.
    pub otherwise: Otherwise,
}

/// A handler: the block that takes aborts for a reason.
#[derive(Debug, Drop)]
#[cycle(tree)]
pub struct Handler {
    /// The reason, by its number.
    pub reason: u32,
    /// The block that runs.
    pub block: Block,
}

/// What comes of an abort that no handler is for.
#[derive(Debug, Drop)]
#[cycle(tree)]
pub enum Otherwise {
    /// This block runs.
    Run(Block),
    /// The parent goes on.
    GoOn,
    /// The parent aborts as the body did.
    Pass,
}
