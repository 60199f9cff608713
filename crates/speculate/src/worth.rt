//! Whether children are worth running ahead.
//!
//! Children that are run ahead work on a copy of the whole state, and each on a copy of all labels.
//! Where they do little compared with that, running them one after the other is faster. Either
//! choice is right: the children's runs mean the same.
use batch::{Block, Otherwise, Step, Subaction};
use objects::Objects;

/// How many copied items or labels one operation outweighs.
const COPIES: u64 = 16;

/// Whether the operations of the children outweigh the copies of this many labels, one for each
/// child and one that they share, and of these objects.
///
/// It takes time for each node of the children's trees, and for no more objects than `COPIES` times
/// their operations.
pub(crate) fn is_worth(children: &[Subaction], labels: usize, objects: &Objects) -> bool {
    let outweighed = operations_in_children(children).saturating_mul(COPIES);
    let copies = (children.len() as u64).saturating_add(1);
    let copied = (labels as u64).saturating_mul(copies);
    copied < outweighed && are_within(objects, outweighed - copied)
}

// Whether the sizes of the objects add up to `most` or less. The size of an object is 1, and 1 more
// for each of its items. It looks at one object more than `most` or fewer.
fn are_within(objects: &Objects, most: u64) -> bool {
    let mut left = most;
    for place in 0..u32::MAX {
        let Some(value) = objects.value(place) else {
            return true;
        };
        let size = (value.content().len() as u64).saturating_add(1);
        if size > left {
            return false;
        }
        left -= size;
    }
    false
}

// How many operations there are. Those of branches and handlers count too, though a run may not
// take them.
#[cycle(count)]
fn operations_in(block: &Block) -> u64 {
    let mut count: u64 = 0;
    for step in &block.steps {
        count = count.saturating_add(operations_in_step(step));
    }
    count
}

#[cycle(count)]
fn operations_in_step(step: &Step) -> u64 {
    match step {
        Step::Op { .. } | Step::Fill(_) => 1,
        Step::If {
            then,
            otherwise,
            ..
        } => operations_in(then).saturating_add(operations_in(otherwise)),
        Step::Sub(child) => operations_in_subaction(child),
        Step::Abort(_) => 0,
        Step::Parallel(children) => operations_in_children(children),
    }
}

#[cycle(count)]
fn operations_in_children(children: &[Subaction]) -> u64 {
    let mut count: u64 = 0;
    for child in children {
        count = count.saturating_add(operations_in_subaction(child));
    }
    count
}

#[cycle(count)]
fn operations_in_subaction(child: &Subaction) -> u64 {
    let mut count = operations_in(&child.body);
    for handler in &child.handlers {
        count = count.saturating_add(operations_in(&handler.block));
    }
    match &child.otherwise {
        Otherwise::Run(block) => count.saturating_add(operations_in(block)),
        Otherwise::GoOn => count,
        Otherwise::Pass => count,
    }
}
