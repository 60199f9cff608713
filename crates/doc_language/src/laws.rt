//! The law that joins the definition of the language to those of its reader.
ghost use Rattle.doc_language.specs.Laws.{LanguageLaw};

/// Where no demand on a value is unmet, it spells the document that the reader's definitions say. Else
/// its fault and its place are those of the first demand that isn't met.
pub fn spelled_documents_are_read()
    ensures { LanguageLaw }
{}
