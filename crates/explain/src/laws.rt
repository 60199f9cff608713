//! The laws of the lines.
ghost use Rattle.explain.specs.Laws.{PlacedLaw, DeterminedLaw};

/// The operations that are placed of a run are its entries, and those that are left are its net.
pub fn operations_are_placed()
    ensures { PlacedLaw }
{}

/// A batch has one text of lines.
pub fn lines_are_determined()
    ensures { DeterminedLaw }
{}
