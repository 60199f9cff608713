//! Why a document isn't read from its tokens.
ghost use Rattle.std.specs.Prelude.{◌≡◌};

use doc_rules::Failure;
use doc_tree::unmet::Unmet;
use json::Invalid;
use serial::NoMemory;
use std::alloc::{AllocError, AllocFailed};

/// Where the reading of tokens stops, why it does.
#[derive(Clone, Copy, Debug, Drop, PartialEq)]
pub enum Stop {
    /// Memory was refused.
    NoMemory,
    /// The tokens are out of the common form, or spell a document that doesn't keep a rule.
    OtherForm,
    /// The reasons of some handlers don't ascend, and are to.
    UnsortedReasons,
}

impl From<Failure> for Stop {
    fn from(failure: Failure) -> Stop {
        match failure {
            Failure::Broken(_, _) => Stop::OtherForm,
            Failure::NoMemory => Stop::NoMemory,
        }
    }
}

impl From<Unmet> for Stop {
    fn from(unmet: Unmet) -> Stop {
        Stop::from(unmet.failure)
    }
}

impl From<Invalid> for Stop {
    fn from(_invalid: Invalid) -> Stop {
        Stop::OtherForm
    }
}

impl From<NoMemory> for Stop {
    ghost use Rattle.doc_tokens.specs.declared.stop.Stop.TheVariants as stop;

    ghost from_gives = { λ _ given. given ≡ stop.NoMemory };

    fn from(_refused: NoMemory) -> Stop {
        Stop::NoMemory
    }
}

impl From<AllocError> for Stop {
    ghost use Rattle.doc_tokens.specs.declared.stop.Stop.TheVariants as stop;

    ghost from_gives = { λ _ given. given ≡ stop.NoMemory };

    fn from(_refused: AllocError) -> Stop {
        Stop::NoMemory
    }
}

impl<T: Drop> From<AllocFailed<T>> for Stop {
    ghost use Rattle.doc_tokens.specs.declared.stop.Stop.TheVariants as stop;

    ghost from_gives = { λ _ given. given ≡ stop.NoMemory };

    fn from(_refused: AllocFailed<T>) -> Stop {
        Stop::NoMemory
    }
}
