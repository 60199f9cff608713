//! Why a part of a document wasn't read.
ghost use Rattle.std.specs.Prelude.{◌≡◌};
ghost use Rattle.doc_rules.specs.Failures.{fault_of};

use crate::rule::Rule;
use faults::{Code, Fault};
use serial::NoMemory;
use std::alloc::{AllocError, AllocFailed};

/// Why a part of a document wasn't read.
#[derive(Clone, Copy, Debug, Drop)]
pub enum Failure {
    /// A rule isn't kept, in the transaction of this number, or outside of them (0).
    Broken(Rule, u32),
    /// Memory was refused.
    NoMemory,
}

impl Failure {
    /// The fault that a document has so.
    pub fn fault(self) -> Fault
        ensures { result ≡ fault_of self }
    {
        match self {
            Failure::Broken(rule, transaction) => Fault {
                code: Code::Wrong(rule.wrong()),
                transaction,
            },
            Failure::NoMemory => Code::Memory.outside(),
        }
    }
}

impl From<NoMemory> for Failure {
    ghost use Rattle.doc_rules.specs.declared.failure.Failure.TheVariants as failure;

    ghost from_gives = { λ _ given. given ≡ failure.NoMemory };

    fn from(_refused: NoMemory) -> Failure {
        Failure::NoMemory
    }
}

impl From<AllocError> for Failure {
    ghost use Rattle.doc_rules.specs.declared.failure.Failure.TheVariants as failure;

    ghost from_gives = { λ _ given. given ≡ failure.NoMemory };

    fn from(_refused: AllocError) -> Failure {
        Failure::NoMemory
    }
}

impl<T: Drop> From<AllocFailed<T>> for Failure {
    ghost use Rattle.doc_rules.specs.declared.failure.Failure.TheVariants as failure;

    ghost from_gives = { λ _ given. given ≡ failure.NoMemory };

    fn from(_refused: AllocFailed<T>) -> Failure {
        Failure::NoMemory
    }
}
