//! Laws of the document of objects as they are.
ghost use Rattle.carry_laws.specs.Laws.{CarriedEndLaw, CarriedLaw, JoinedLaw, JoinedReadLaw, JoinedStartsLaw, NamedLaw};

/// What is printed of objects that can be carried over is read as a document of its version that starts
/// with them.
pub fn carried_objects_are_read()
    ensures { CarriedLaw }
{}

/// Objects can be carried over under the texts of a batch, where each object and each item has a text
/// of its own.
pub fn named_objects_can_be_carried()
    ensures { NamedLaw }
{}

/// What is printed of the objects with which a document ends is read as a document that starts with
/// them, where they may all start.
pub fn carried_ends_are_read()
    ensures { CarriedEndLaw }
{}

/// What is printed of a next document, into which the objects at the end of a first are carried, is the
/// value of the later version of both, with these starts and the next document's own transactions.
pub fn joined_documents_are_read()
    ensures { JoinedLaw }
{}

/// What is spelled of its objects are these starts, under the same names.
pub fn joined_starts_are_read()
    ensures { JoinedStartsLaw }
{}

/// What is printed of a next document, into which the objects at the end of a first are carried, is read
/// as the next document with these objects. Its transactions are the next document's, with each item
/// under the number that its text has there.
pub fn next_documents_are_read()
    ensures { JoinedReadLaw }
{}
