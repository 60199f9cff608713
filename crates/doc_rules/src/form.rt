//! The forms that an object of JSON may have in a document.
ghost use Rattle.std.specs.Prelude.{◌≡◌, map};
ghost use Rattle.doc_rules.specs.Forms.{member_names};

/// A form of an object of JSON in a document, by the members that it may have.
#[derive(Clone, Copy, Debug, Drop, PartialEq)]
pub enum Form {
    Document,
    Object,
    Operation,
    /// An argument that a label gives.
    Source,
    If,
    Subaction,
    Abort,
    Parallel,
}

impl Form {
    /// The names of the members that it may have.
    pub fn members(self) -> &'static [&'static str]
        ensures { map (λ name. name.now) result.now ≡ member_names self }
    {
        match self {
            Form::Document => &["ordtx", "objects", "transactions"],
            Form::Object => &["name", "kind", "start"],
            Form::Operation => &["op", "as", "else"],
            Form::Source => &["from"],
            Form::If => &["if", "is", "atleast", "item", "then", "else"],
            Form::Subaction => &["sub", "handler", "handlers", "as"],
            Form::Abort => &["abort"],
            Form::Parallel => &["parallel"],
        }
    }
}
