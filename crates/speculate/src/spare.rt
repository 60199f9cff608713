//! The memory of a record, for the record of the next run of the same block.
ghost use Rattle.std.specs.Prelude.{◌≡◌, ◌≤◌, ◌+◌, ◌++◌, ◌∷◌, [], length, take, IfOk, OnOk};
ghost use Rattle.meaning.specs.OneThread.{label_if};
ghost use Rattle.meaning.specs.Shown.{Acted};
ghost use Rattle.meaning.specs.declared.held.Held.TheVariants.{Outcome};
ghost use Rattle.batch.specs.Views.{taken_view, tried_view};

use batch::{Record, Taken, Tried, add_label};
use meaning::{End, Held};
use serial::NoMemory;
use std::alloc::Global;
use std::mem::replace;

/// The boxes of what a step did when it was taken before, with the lists in them.
#[derive(Drop)]
pub(crate) struct Spare {
    /// Of a branch, or of a body.
    pub(crate) body: Option<Box<Record>>,
    pub(crate) handler: Option<Box<Record>>,
}

impl Spare {
    /// No boxes.
    pub(crate) fn none() -> Spare {
        Spare {
            body: None,
            handler: None,
        }
    }

    /// The boxes of a step that was taken.
    fn of(taken: Taken) -> Spare {
        match taken {
            Taken::If(_, branch) => Spare {
                body: Some(branch),
                handler: None,
            },
            Taken::Sub(body, handler) => Spare {
                body: Some(body),
                handler,
            },
            Taken::Op(_) | Taken::Filled(_) | Taken::Abort | Taken::Parallel(_) => Spare::none(),
        }
    }

    /// A subaction as a step that was taken, in these boxes.
    pub(crate) fn into_taken(&mut self, alloc: Global, tried: Tried) -> Result<Taken, NoMemory>
        ensures { IfOk result (λ taken. taken_view taken
            ≡ Acted (tried_view (tried.body, tried.handler))) }
    {
        let body = boxed(alloc, &mut self.body, tried.body)?;
        let handler = match tried.handler {
            Some(done) => Some(boxed(alloc, &mut self.handler, done)?),
            None => None,
        };
        Ok(Taken::Sub(body, handler))
    }

    /// A subaction as a step that was taken, in these boxes, and how the block around goes on. Its
    /// label holds its outcome.
    pub(crate) fn into_step(
        &mut self,
        alloc: Global,
        labels: &mut Vec<Held>,
        labelled: bool,
        tried: Tried,
    ) -> Result<(Taken, End), NoMemory>
        ensures taken { IfOk result (λ step. taken_view step.0
            ≡ Acted (tried_view (tried.body, tried.handler))) }
        ensures end { IfOk result (λ step. step.1 ≡ tried.end) }
        ensures labels { OnOk result (labels.new.items ≡ labels.old.items
            ++ label_if labelled (Outcome tried.body.outcome)) }
    {
        add_label(labels, labelled, Held::Outcome(tried.body.outcome))?;
        let end = tried.end;
        Ok((self.into_taken(alloc, tried)?, end))
    }
}

/// The list of the record in a box.
pub(crate) fn list_of(alloc: Global, spare: &mut Option<Box<Record>>) -> Vec<Taken> {
    match spare {
        Some(done) => replace(&mut done.taken, Vec::new(alloc)),
        None => Vec::new(alloc),
    }
}

/// A record in a box: the spare one, if there is one.
///
/// Returns `NoMemory` where a request for memory was refused.
pub(crate) fn boxed(
    alloc: Global,
    spare: &mut Option<Box<Record>>,
    done: Record,
) -> Result<Box<Record>, NoMemory>
    ensures { IfOk result (λ b. b.value ≡ done) }
{
    match spare.take() {
        Some(mut room) => {
            Box::replace(&mut room, done);
            Ok(room)
        }
        None => Ok(Box::new(alloc, done)?),
    }
}

/// The boxes of what was taken at a place of a list.
pub(crate) fn spare_at(taken: &mut Vec<Taken>, place: usize) -> Spare
    ensures length { length taken.new.items ≡ length taken.old.items }
    ensures before { take place taken.new.items ≡ take place taken.old.items }
{
    match taken.get_mut(place) {
        Some(old) => Spare::of(replace(old, Taken::Abort)),
        None => Spare::none(),
    }
}

/// Puts what was taken at a place of a list, over what was there.
pub(crate) fn put_at(taken: &mut Vec<Taken>, place: usize, done: Taken) -> Result<(), NoMemory>
    requires { place ≤ length taken.old.items }
    ensures put { OnOk result (take (place + 1) taken.new.items ≡ take place taken.old.items
        ++ done ∷ []) }
    ensures long { OnOk result (place + 1 ≤ length taken.new.items) }
{
    if place < taken.len() {
        taken[place] = done;
    } else {
        taken.push(done)?;
    }
    Ok(())
}

/// Makes room in the list for so many steps.
pub(crate) fn make_room(taken: &mut Vec<Taken>, count: usize) -> Result<(), NoMemory> {
    taken.reserve_exact(count.saturating_sub(taken.len()))?;
    Ok(())
}

/// The record of the first steps of a list. What is left there of the spare ones is dropped.
pub(crate) fn record_of(mut taken: Vec<Taken>, count: usize, outcome: End) -> Record
    ensures taken { result.taken.items ≡ take count taken.items }
    ensures outcome { result.outcome ≡ outcome }
{
    taken.truncate(count);
    Record { taken, outcome }
}
