//! Objects that are changed in place, with a journal of the changes.
ghost use Rattle.std.specs.Prelude.{◌≡◌, ◌≤◌, [], Some, length, drop, take, IfOk, OnOk};
ghost use Rattle.atoms.specs.Undo.{undone_all};
ghost use Rattle.objects.specs.Entries.{reply_at};
ghost use Rattle.meaning.specs.Running.{CanPerform};
ghost use Rattle.objects.specs.Objects.{objects_undoing};
ghost use Rattle.one_thread.specs.Journaled.{performed, rewound};

use objects::{Call, Change, Objects, Reply};
use serial::NoMemory;
use std::alloc::Global;
use std::marker::Model;

/// Objects, and the journal of what takes back each change that was made to them since the journal
/// was empty, the earliest first.
#[derive(Drop)]
pub(crate) struct JournaledObjects {
    objects: Objects,
    journal: Vec<(u32, Change)>,
}

impl Model for JournaledObjects {
    ghost use Rattle.one_thread.specs.Journaled.{Journaled};
    ghost use Rattle.std.specs.Coded.{codes};
    ghost use Rattle.objects.specs.contracts.kind.Value as one_value_type;

    ghost Value = { Journaled };

    ghost coded = { Prim.hlevel (codes, one_value_type.the_row.coded) };

    ghost view = { λ workspace. record {
      state = workspace.objects;
      journal = workspace.journal.items;
    } };
}

impl JournaledObjects {
    /// A workspace of these objects, with an empty journal. It takes no memory.
    pub(crate) fn new(alloc: Global, objects: Objects) -> JournaledObjects
        ensures { result ≡ record { state = objects; journal = [] } }
    {
        JournaledObjects {
            objects,
            journal: Vec::new(alloc),
        }
    }

    /// How long the journal is: the place to which `rewind` leads back.
    pub(crate) fn mark(&self) -> usize
        ensures { result ≡ length self.now.journal }
    {
        self.journal.len()
    }

    /// Performs a call on an object, and returns its reply. The journal keeps what the call
    /// changed.
    pub(crate) fn perform(&mut self, object: u32, call: &Call) -> Result<Reply, NoMemory>
        requires { CanPerform self.old.state object call.now }
        ensures reply { IfOk result (λ reply. reply_at self.old.state object call.now
            ≡ Some reply) }
        ensures ok { OnOk result (self.new ≡ performed self.old object call.now) }
    {
        if let Some(change) = self.objects.change(object, call) {
            self.journal.push((object, change))?;
        }
        Ok(self.objects.perform(object, call)?)
    }

    /// Takes the changes since the mark back, the last first.
    pub(crate) fn rewind(&mut self, mark: usize) -> Result<(), NoMemory>
        requires { mark ≤ length self.old.journal }
        ensures { OnOk result (self.new ≡ rewound self.old mark) }
    {
        undo_from(&mut self.objects, &mut self.journal, mark)
    }

    /// Empties the journal: its changes are not taken back any more.
    pub(crate) fn settle(&mut self)
        ensures { self.new ≡ record { state = self.old.state; journal = [] } }
    {
        self.journal.clear();
    }

    /// The objects.
    pub(crate) fn into_objects(self) -> Objects
        ensures { result ≡ self.state }
    {
        self.objects
    }
}

// Takes the changes from this place of the journal on back.
fn undo_from(
    objects: &mut Objects,
    journal: &mut Vec<(u32, Change)>,
    mark: usize,
) -> Result<(), NoMemory>
    requires { mark ≤ length journal.old.items }
    ensures objects { OnOk result (objects.new ≡ undone_all objects_undoing objects.old
        (drop mark journal.old.items)) }
    ensures journal { OnOk result (journal.new.items ≡ take mark journal.old.items) }
{
    while journal.len() > mark {
        if let Some((object, change)) = journal.pop() {
            objects.undo(object, &change)?;
        }
    }
    Ok(())
}
