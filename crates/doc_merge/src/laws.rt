//! The law of what is read after other texts.
ghost use Rattle.doc_merge.specs.ReadAfter.{ReadAfterLaw};

/// Transactions that are read after other texts are those that are read alone, with each item and reason
/// under the number that its text has there.
pub fn later_transactions_are_renumbered()
    ensures { ReadAfterLaw }
{}
