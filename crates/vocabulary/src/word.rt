//! The words of replies and outcomes.
ghost use Rattle.std.specs.Prelude.{◌≡◌};
ghost use Rattle.vocabulary.specs.Words.{refuses, word_of_text, word_text};

/// The first part of a reply, or the outcome of a subaction.
#[derive(Clone, Copy, Debug, PartialEq, Eq)]
pub enum Word {
    Ok,
    No,
    Added,
    Present,
    Removed,
    Absent,
    Yes,
    Got,
    Empty,
    Bound,
    Taken,
    Gone,
    Missing,
    Found,
    Committed,
    Aborted,
}

// Every word.
const WORDS: [Word; 16] = [
    Word::Ok,
    Word::No,
    Word::Added,
    Word::Present,
    Word::Removed,
    Word::Absent,
    Word::Yes,
    Word::Got,
    Word::Empty,
    Word::Bound,
    Word::Taken,
    Word::Gone,
    Word::Missing,
    Word::Found,
    Word::Committed,
    Word::Aborted,
];

impl Word {
    /// Whether a reply with this word refuses what was asked.
    pub fn refuses(self) -> bool
        ensures { result ≡ refuses self }
    {
        matches!(
            self,
            Word::No | Word::Present | Word::Absent | Word::Empty | Word::Taken | Word::Missing
        )
    }

    /// The word as text.
    pub fn text(self) -> &'static str
        ensures { result.now ≡ word_text self }
    {
        match self {
            Word::Ok => "ok",
            Word::No => "no",
            Word::Added => "added",
            Word::Present => "present",
            Word::Removed => "removed",
            Word::Absent => "absent",
            Word::Yes => "yes",
            Word::Got => "got",
            Word::Empty => "empty",
            Word::Bound => "bound",
            Word::Taken => "taken",
            Word::Gone => "gone",
            Word::Missing => "missing",
            Word::Found => "found",
            Word::Committed => "committed",
            Word::Aborted => "aborted",
        }
    }

    /// The word that a text is.
    #[tactic(auto, unfolding(crate::specs::Words::word_of_text))]
    pub fn of_text(text: &str) -> Option<Word>
        ensures { result ≡ word_of_text text.now }
    {
        WORDS.iter().copied().find(|word| word.text() == text)
    }
}
