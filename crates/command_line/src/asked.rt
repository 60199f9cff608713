//! What a command line asks for, and why it is refused.
ghost use Rattle.std.specs.Prelude.{◌≡◌};

use plan::Plan;
use std::alloc::AllocError;
use thiserror::Error;

/// What the program is to do.
#[derive(Clone, Copy, Debug, PartialEq, Eq)]
pub enum Command {
    /// Run a document's transactions on workers, and print the report.
    Run,
    /// Run them by number on one thread, and print the report without the number of rounds.
    Serial,
    /// Run them so, and print the document of the objects at their end, without a transaction, or
    /// with those of a next document.
    Carry,
    /// Read a document, and print how much it holds.
    Check,
    /// Read a document, and print where its first fault is, or how much it holds.
    Locate,
}

/// What a command line asks for.
#[derive(Debug, Drop)]
pub struct Line {
    /// What the program is to do.
    pub command: Command,
    /// The document's file, or standard input.
    pub file: Option<String>,
    /// The file of the next document, into which `carry` carries the objects.
    pub into: Option<String>,
    /// How many workers there are, and how many transactions a piece of their work has. Where the
    /// words don't say, `run` has 4 workers, and each other command has one.
    pub plan: Plan,
    /// Whether the report says how often each transaction was run.
    pub audit: bool,
    /// Whether the report says which operations ended each round.
    pub why: bool,
    /// Whether standard error shows how far the run is.
    pub progress: bool,
}

/// Why a command line is refused, with the text to print.
#[derive(Debug, Drop, Error)]
pub enum Refused {
    /// A request for memory was refused.
    #[error("out of memory")]
    Memory,
    /// Help or the version was asked for. The text is it.
    #[error("{0}")]
    Help(String),
    /// The words have a mistake. The text says which.
    #[error("{0}")]
    Words(String),
}

impl From<AllocError> for Refused {
    ghost use Rattle.command_line.specs.declared.asked.Refused.TheVariants as refusal;

    ghost from_gives = { λ _ refused. refused ≡ refusal.Memory };

    fn from(_refused: AllocError) -> Refused {
        Refused::Memory
    }
}
