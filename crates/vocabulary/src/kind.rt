//! The words of kinds.
ghost use Rattle.std.specs.Prelude.{◌≡◌};
ghost use Rattle.vocabulary.specs.Words.{a_kind, is_kind_text, kind_of_text, kind_since, kind_text};

use objects::Kind;

/// Every kind.
pub const KINDS: [Kind; 6] = [
    Kind::Account,
    Kind::Counter,
    Kind::Set,
    Kind::Queue,
    Kind::Directory,
    Kind::Max,
];

/// The word of a kind.
pub fn kind_text(kind: Kind) -> &'static str
    ensures { result.now ≡ kind_text kind }
{
    match kind {
        Kind::Account => "account",
        Kind::Counter => "counter",
        Kind::Set => "set",
        Kind::Queue => "queue",
        Kind::Directory => "directory",
        Kind::Max => "max",
    }
}

/// An object of a kind: the kind with its article.
pub fn a_kind(kind: Kind) -> &'static str
    ensures { result.now ≡ a_kind kind }
{
    match kind {
        Kind::Account => "an account",
        Kind::Counter => "a counter",
        Kind::Set => "a set",
        Kind::Queue => "a queue",
        Kind::Directory => "a directory",
        Kind::Max => "a maximum register",
    }
}

// The first version of documents that has the kind.
fn kind_since(kind: Kind) -> u8
    ensures { result ≡ kind_since kind }
{
    match kind {
        Kind::Max => 2,
        _ => 1,
    }
}

// Whether the text is the word of the kind in a document of a version.
fn is_kind_text(version: u8, text: &str, kind: Kind) -> bool
    ensures { result ≡ is_kind_text version text.now kind }
{
    kind_text(kind) == text && kind_since(kind) <= version
}

/// The kind that a word names in a document of a version.
#[tactic(auto, unfolding(crate::specs::Words::kind_of_text))]
pub fn kind_of_text(version: u8, text: &str) -> Option<Kind>
    ensures { result ≡ kind_of_text version text.now }
{
    KINDS
        .iter()
        .copied()
        .find(|kind| is_kind_text(version, text, *kind))
}
