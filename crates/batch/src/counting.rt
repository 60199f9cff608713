//! How many operations the transactions of a batch have.
ghost use Rattle.std.specs.Prelude.{◌≡◌, ◌<◌, ◌≤◌, length, map};
ghost use Rattle.meaning.specs.Batch.{block_at};
ghost use Rattle.batch.specs.Parts.{blocks_of};
ghost use Rattle.meaning.specs.Running.{all_operations};
ghost use Rattle.meaning.specs.WellFormed.{operations, operations_of_children, operations_of_handlers, operations_of_step};
ghost use Rattle.meaning.specs.Trees.{Pass, for_reasons};
ghost use Rattle.batch.specs.Counting.{operations_of};
ghost use Rattle.batch.specs.Views.{block_view, children_view, handler_view, step_view, steps_view, subaction_view};
ghost use Rattle.meaning.specs.declared.limits.TheConstants.{MAX_OPERATIONS};

use crate::batch::Batch;
use crate::tree::{Block, Handler, Otherwise, Step, Subaction};

impl Batch {
    /// How many operations the transactions have, at most 9,000,000. Those of branches and handlers
    /// count too, though a run may not take them.
    pub fn operations(&self) -> u32
        ensures { result ≡ all_operations (map block_view self.now.transactions.items) }
    {
        let mut count = 0;
        for block in &self.transactions {
            count += operations_in(block);
        }
        count
    }

    /// How many operations the transaction with this number has, counted from 0.
    pub fn operations_of(&self, number: usize) -> u32
        requires { number < length self.now.transactions.items }
        ensures { result ≡ operations (block_at (blocks_of self.now) number) }
    {
        operations_in(&self.transactions[number])
    }
}

#[cycle(count)]
fn operations_in(block: &Block) -> u32
    requires { operations (block_view block.now) ≤ MAX_OPERATIONS }
    ensures { result ≡ operations (block_view block.now) }
{
    operations_in_steps(&block.steps)
}

#[cycle(count)]
fn operations_in_steps(steps: &[Step]) -> u32
    requires { operations (steps_view steps.now) ≤ MAX_OPERATIONS }
    ensures { result ≡ operations (steps_view steps.now) }
{
    let mut count = 0;
    for step in steps {
        count += operations_in_step(step);
    }
    count
}

#[cycle(count)]
fn operations_in_step(step: &Step) -> u32
    requires { operations_of_step (step_view step.now) ≤ MAX_OPERATIONS }
    ensures { result ≡ operations_of_step (step_view step.now) }
{
    match step {
        Step::Op { .. } | Step::Fill(_) => 1,
        Step::If {
            then,
            otherwise,
            ..
        } => operations_in(then) + operations_in(otherwise),
        Step::Sub(child) => operations_in_subaction(child),
        Step::Abort(_) => 0,
        Step::Parallel(children) => operations_in_children(children),
    }
}

#[cycle(count)]
fn operations_in_children(children: &[Subaction]) -> u32
    requires { operations_of_children (children_view children.now) ≤ MAX_OPERATIONS }
    ensures { result ≡ operations_of_children (children_view children.now) }
{
    let mut count = 0;
    for child in children {
        count += operations_in_subaction(child);
    }
    count
}

#[cycle(count)]
fn operations_in_subaction(child: &Subaction) -> u32
    requires { operations_of (subaction_view child.now) ≤ MAX_OPERATIONS }
    ensures { result ≡ operations_of (subaction_view child.now) }
{
    let body = operations_in(&child.body);
    let by_reason = operations_in_handlers(&child.handlers);
    let last = match &child.otherwise {
        Otherwise::Run(block) => operations_in(block),
        Otherwise::GoOn => 0,
        Otherwise::Pass => 0,
    };
    body + by_reason + last
}

#[cycle(count)]
fn operations_in_handlers(handlers: &[Handler]) -> u32
    requires { operations_of_handlers (for_reasons (map handler_view handlers.now) Pass)
        ≤ MAX_OPERATIONS }
    ensures { result ≡ operations_of_handlers (for_reasons (map handler_view handlers.now) Pass) }
{
    let mut count = 0;
    for handler in handlers {
        count += operations_in(&handler.block);
    }
    count
}
