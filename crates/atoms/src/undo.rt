//! Taking calls back: what each call changed, and how the value before it is restored.
ghost use Rattle.std.specs.Prelude.{◌≡◌, Option, OnOk, OnErr};
ghost use Rattle.atoms.specs.Undo.{Undoing};

use serial::{Atom, NoMemory};

/// A type of objects whose calls can be taken back. Undoing what a call changed leaves the value
/// before the call (`laws::calls_are_undone`).
pub trait Undo: Atom {
    /// What a call changed.
    type Change;

    /// What each call changes at a value, and the value that is left after a change is taken back.
    ghost undoing: { Undoing Self.Value Self.Call Self.Change };

    /// Taking the change back may take memory at this value.
    ghost UndoMayGrow: { Self.Value → Self.Change → Type 0 };

    /// What the call will change at this value, or none where it will change nothing.
    fn change(value: &Self::Value, call: &Self::Call) -> Option<Self::Change>
        ensures { result ≡ undoing.change value.now call.now };

    /// Takes a change back. On `NoMemory` the value is as before.
    fn undo(value: &mut Self::Value, change: &Self::Change) -> Result<(), NoMemory>
        ensures ok { OnOk result (value.new ≡ undoing.undone value.old change.now) }
        ensures err { OnErr result (value.new ≡ value.old) }
        ensures refused { OnErr result (UndoMayGrow value.old change.now) };
}
