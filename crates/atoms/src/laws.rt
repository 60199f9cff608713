//! Laws of the six types.
ghost use Rattle.atoms.specs.Undo.{TakesBack};
ghost use Rattle.atoms.specs.Account.{account, account_undoing};
ghost use Rattle.atoms.specs.Counter.{counter, counter_undoing};
ghost use Rattle.atoms.specs.ItemSet.{item_set, set_undoing};
ghost use Rattle.atoms.specs.Queue.{queue, queue_undoing};
ghost use Rattle.atoms.specs.Directory.{directory, directory_undoing};
ghost use Rattle.atoms.specs.MaxRegister.{max_register, max_undoing};

/// Taking back what a call changed leaves the value before the call.
pub fn calls_are_undone()
    ensures account { TakesBack account account_undoing }
    ensures counter { TakesBack counter counter_undoing }
    ensures set { TakesBack item_set set_undoing }
    ensures queue { TakesBack queue queue_undoing }
    ensures directory { TakesBack directory directory_undoing }
    ensures max { TakesBack max_register max_undoing }
{}
