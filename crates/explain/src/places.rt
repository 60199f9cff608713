//! The operations of a run, each with the path of its step.
ghost use Rattle.std.specs.Prelude.{◌≡◌, [], ◌∷◌, ◌&&◌, IfOk, OnOk, option_copied};
ghost use Rattle.std.specs.Fmt.{decimal};
ghost use Rattle.batch.specs.Names.{names_of};
ghost use Rattle.batch.specs.Views.{block_view, record_view, step_view, taken_view, subaction_view, tried_view, children_view, all_tried_view};
ghost use Rattle.explain.specs.Why.{has_ended, placed, placed_step, placed_child, placed_children};
ghost use Rattle.explain.specs.Places.{places_view, is_left, ArePlacedAfter};

use batch::{Block, Names, Record, Step, Subaction, Taken};
use meaning::End;
use objects::{Call, Entry, Reply};
use report::{branch_path, handler_place, part_path, reason_of};
use serial::NoMemory;
use std::alloc::Global;

/// What becomes of an operation of a run.
#[derive(Clone, Copy, Debug, Drop)]
pub(crate) enum Fate {
    /// The run leaves it.
    Stays,
    /// An abort takes it back.
    TakenBack,
}

/// An operation of a run with the path of its step, and what becomes of it.
#[derive(Debug, Drop)]
pub(crate) struct PlacedOperation {
    pub(crate) path: String,
    pub(crate) entry: Entry,
    pub(crate) fate: Fate,
}

// Where operations are placed: the path that they are under, the names of their batch, and what
// becomes of them.
#[derive(Clone, Copy, Drop)]
struct Spot<'a> {
    names: &'a Names,
    path: &'a str,
    fate: Fate,
}

impl Fate {
    // That of what a block did which ended so.
    fn of(outcome: End) -> Fate
        ensures { is_left result ≡ has_ended outcome }
    {
        match outcome {
            End::Ended => Fate::Stays,
            End::Aborted(_) => Fate::TakenBack,
        }
    }

    // That of what a body did which ended so, inside of a block with this fate.
    fn of_body(self, outcome: End) -> Fate
        ensures { is_left result ≡ (is_left self && has_ended outcome) }
    {
        match self {
            Fate::Stays => Fate::of(outcome),
            Fate::TakenBack => Fate::TakenBack,
        }
    }

    /// Whether the run leaves the operation.
    pub(crate) fn is_left(self) -> bool
        ensures { result ≡ is_left self }
    {
        match self {
            Fate::Stays => true,
            Fate::TakenBack => false,
        }
    }
}

/// The operations of the run of the transaction of this number, in order.
pub(crate) fn places_of(
    alloc: Global,
    names: &Names,
    number: usize,
    block: &Block,
    done: &Record,
) -> Result<Vec<PlacedOperation>, NoMemory>
    ensures { IfOk result (λ places. places_view places.items
        ≡ placed (names_of names.now) (decimal number) 1 (has_ended done.now.outcome)
        (block_view block.now) (record_view done.now)) }
{
    let mut places = Vec::new(alloc);
    let path = format!(in alloc; "{number}")?;
    let spot = Spot {
        names,
        path: path.as_str(),
        fate: Fate::of(done.outcome),
    };
    place_block(alloc, &mut places, spot, block, done)?;
    Ok(places)
}

#[cycle(places)]
fn place_block(
    alloc: Global,
    places: &mut Vec<PlacedOperation>,
    spot: Spot<'_>,
    block: &Block,
    done: &Record,
) -> Result<(), NoMemory>
    ensures { OnOk result (ArePlacedAfter places.old.items places.new.items
        (placed (names_of spot.entry.names.now) spot.entry.path.now 1 (is_left spot.entry.fate)
        (block_view block.now) (record_view done.now))) }
{
    for (index, taken) in done.taken.iter().enumerate() {
        if index >= block.steps.len() {
            return Ok(());
        }
        let step = &block.steps[index];
        let step_path = part_path(alloc, spot.path, index + 1)?;
        let at = Spot {
            path: step_path.as_str(),
            ..spot
        };
        place_step(alloc, places, at, step, taken)?;
    }
    Ok(())
}

#[cycle(places)]
fn place_step(
    alloc: Global,
    places: &mut Vec<PlacedOperation>,
    spot: Spot<'_>,
    step: &Step,
    taken: &Taken,
) -> Result<(), NoMemory>
    ensures { OnOk result (ArePlacedAfter places.old.items places.new.items
        (placed_step (names_of spot.entry.names.now) spot.entry.path.now (is_left spot.entry.fate)
        (step_view step.now) (taken_view taken.now))) }
{
    match (step, taken) {
        (Step::Op { object, call, .. }, Taken::Op(reply)) => {
            place_operation(alloc, places, spot, *object, call, reply)
        }
        (Step::Fill(filling), Taken::Filled(made)) => {
            let object = filling.object;
            place_operation(alloc, places, spot, object, &made.call, &made.reply)
        }
        (
            Step::If {
                then,
                otherwise,
                ..
            },
            Taken::If(holds, record),
        ) => {
            let branch = if *holds { then } else { otherwise };
            let branch_path = branch_path(alloc, spot.path, *holds)?;
            let at = Spot {
                path: branch_path.as_str(),
                ..spot
            };
            place_block(alloc, places, at, branch, record)
        }
        (Step::Sub(child), Taken::Sub(body, handler)) => {
            place_child(alloc, places, spot, child, body, handler.as_deref())
        }
        (Step::Parallel(children), Taken::Parallel(tried)) => {
            place_children(alloc, places, spot, children, tried)
        }
        _ => Ok(()),
    }
}

#[cycle(places)]
fn place_child(
    alloc: Global,
    places: &mut Vec<PlacedOperation>,
    spot: Spot<'_>,
    child: &Subaction,
    body: &Record,
    handler: Option<&Record>,
) -> Result<(), NoMemory>
    ensures { OnOk result (let child = subaction_view child.now in
        ArePlacedAfter places.old.items places.new.items
        (placed_child (names_of spot.entry.names.now) spot.entry.path.now (is_left spot.entry.fate)
        child.body child.handlers (tried_view (body.now, option_copied handler.entry)))) }
{
    let path = spot.path;
    let body_path = format!(in alloc; "{path}.b")?;
    let in_body = Spot {
        path: body_path.as_str(),
        fate: spot.fate.of_body(body.outcome),
        ..spot
    };
    place_block(alloc, places, in_body, &child.body, body)?;
    let Some(done) = handler else {
        return Ok(());
    };
    let reason = reason_of(body.outcome);
    let Some((handler_path, block)) = handler_place(alloc, spot.names, path, child, reason)? else {
        return Ok(());
    };
    let in_handler = Spot {
        path: handler_path.as_str(),
        ..spot
    };
    place_block(alloc, places, in_handler, block, done)
}

#[cycle(places)]
fn place_children(
    alloc: Global,
    places: &mut Vec<PlacedOperation>,
    spot: Spot<'_>,
    children: &[Subaction],
    all_tried: &[(Record, Option<Record>)],
) -> Result<(), NoMemory>
    ensures { OnOk result (ArePlacedAfter places.old.items places.new.items
        (placed_children (names_of spot.entry.names.now) spot.entry.path.now 1
        (is_left spot.entry.fate) (children_view children.now) (all_tried_view all_tried.now))) }
{
    for (index, tried) in all_tried.iter().enumerate() {
        if index >= children.len() {
            return Ok(());
        }
        let child = &children[index];
        let child_path = part_path(alloc, spot.path, index + 1)?;
        let at = Spot {
            path: child_path.as_str(),
            ..spot
        };
        let (body, handler) = tried;
        place_child(alloc, places, at, child, body, handler.as_ref())?;
    }
    Ok(())
}

fn place_operation(
    alloc: Global,
    places: &mut Vec<PlacedOperation>,
    spot: Spot<'_>,
    object: u32,
    call: &Call,
    reply: &Reply,
) -> Result<(), NoMemory>
    ensures { OnOk result (ArePlacedAfter places.old.items places.new.items (record {
      path = spot.entry.path.now;
      entry = record { object = object; call = call.now; reply = reply.now };
      left = is_left spot.entry.fate;
    } ∷ [])) }
{
    let path = String::from_str(alloc, spot.path)?;
    let entry = Entry {
        object,
        call: *call,
        reply: *reply,
    };
    let fate = spot.fate;
    places.push(PlacedOperation { path, entry, fate })?;
    Ok(())
}
