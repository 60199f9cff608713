//! What running a subaction gives.
ghost use Rattle.std.specs.Prelude.{◌≡◌, IfOk, Some};
ghost use Rattle.meaning.specs.Shown.{Acted};
ghost use Rattle.batch.specs.Views.{taken_view, tried_view};

use crate::record::{Record, Taken};
use meaning::End;
use serial::NoMemory;
use std::alloc::Global;

/// What running a subaction gives.
#[derive(Debug, Drop)]
pub struct Tried {
    /// What the body did.
    pub body: Record,
    /// What the handler did, where one ran.
    pub handler: Option<Record>,
    /// How the block around goes on.
    pub end: End,
}

impl Tried {
    /// The subaction as a step that was taken. Returns `NoMemory` where a request for memory was
    /// refused.
    pub fn into_taken(self, alloc: Global) -> Result<Taken, NoMemory>
        ensures { IfOk result (λ taken. taken_view taken
            ≡ Acted (tried_view (self.body, self.handler))) }
    {
        let body = Box::new(alloc, self.body)?;
        let handler = self.handler.map(|done| Box::new(alloc, done)).transpose()?;
        Ok(Taken::Sub(body, handler))
    }
}

/// The handler that ran, and how the block around goes on.
pub fn handled(done: Record) -> (Option<Record>, End)
    ensures handler { result.0 ≡ Some done }
    ensures end { result.1 ≡ done.outcome }
{
    let end = done.outcome;
    (Some(done), end)
}
