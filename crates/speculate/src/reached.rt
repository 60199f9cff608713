//! What the children of a parallel step did that were reached.
ghost use Rattle.std.specs.Prelude.{◌≡◌, ◌++◌, ◌∷◌, [], IfOk, OnOk};
ghost use Rattle.meaning.specs.OneThread.{label_if};
ghost use Rattle.meaning.specs.declared.held.Held.TheVariants.{Outcome};
ghost use Rattle.batch.specs.declared.record.Taken.{Parallel};

use batch::{Record, Taken, Tried, add_label};
use meaning::{End, Held};
use serial::NoMemory;
use std::alloc::Global;

/// What the children of a parallel step did that were reached.
#[derive(Drop)]
pub(crate) struct Reached {
    all: Vec<(Record, Option<Record>)>,
    /// What the labels hold that they add.
    outcomes: Vec<Held>,
}

impl Reached {
    /// No children, with room for so many.
    pub(crate) fn new(alloc: Global, count: usize) -> Result<Reached, NoMemory>
        ensures all { IfOk result (λ reached. reached.all.items ≡ []) }
        ensures outcomes { IfOk result (λ reached. reached.outcomes.items ≡ []) }
    {
        Ok(Reached {
            all: Vec::with_capacity(alloc, count)?,
            outcomes: Vec::new(alloc),
        })
    }

    /// Adds the next child. Returns how the step goes on.
    pub(crate) fn add(&mut self, labelled: bool, tried: Tried) -> Result<End, NoMemory>
        ensures all { OnOk result (self.new.all.items ≡ self.old.all.items
            ++ (tried.body, tried.handler) ∷ []) }
        ensures outcomes { OnOk result (self.new.outcomes.items ≡ self.old.outcomes.items
            ++ label_if labelled (Outcome tried.body.outcome)) }
        ensures end { IfOk result (λ end. end ≡ tried.end) }
    {
        add_label(
            &mut self.outcomes,
            labelled,
            Held::Outcome(tried.body.outcome),
        )?;
        let end = tried.end;
        self.all.push((tried.body, tried.handler))?;
        Ok(end)
    }

    /// The children as a step that was taken. Their labels come after those that are seen.
    pub(crate) fn into_taken(self, labels: &mut Vec<Held>) -> Result<Taken, NoMemory>
        ensures taken { IfOk result (λ taken. taken ≡ Parallel self.all) }
        ensures labels { OnOk result (labels.new.items ≡ labels.old.items ++ self.outcomes.items) }
    {
        let Reached { all, mut outcomes } = self;
        labels.append(&mut outcomes)?;
        Ok(Taken::Parallel(all))
    }
}
