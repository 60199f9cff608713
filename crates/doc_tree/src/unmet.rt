//! A demand that is not met, and where.
ghost use Rattle.std.specs.Prelude.{◌≡◌, ◌≢◌, ◌++◌, codes, string_bytes, IfOk};
ghost use Rattle.doc_tree.specs.Answer.{found_of, pointer_text};
ghost use Rattle.doc_tree.specs.Places.{found_inside, item_at, member_named};

use doc_rules::{Failure, pointer_token};
use serial::NoMemory;
use std::alloc::{AllocError, AllocFailed, Global};

/// A demand that is not met: the rule that isn't kept, and the pointer from a value to the part
/// that it is asked of, where that is not the value itself. Or that memory was refused.
#[derive(Drop)]
pub struct Unmet {
    pub failure: Failure,
    /// A JSON Pointer (RFC 6901).
    pub pointer: Option<String>,
}

impl From<Failure> for Unmet {
    ghost use Rattle.std.specs.Prelude.{None};

    ghost from_gives = { λ failure unmet. (unmet.failure ≡ failure) × (unmet.pointer ≡ None) };

    fn from(failure: Failure) -> Unmet {
        Unmet {
            failure,
            pointer: None,
        }
    }
}

impl From<AllocError> for Unmet {
    ghost use Rattle.doc_rules.specs.declared.failure.Failure.TheVariants as failure;

    ghost from_gives = { λ _ unmet. unmet.failure ≡ failure.NoMemory };

    fn from(_refused: AllocError) -> Unmet {
        Unmet::from(Failure::NoMemory)
    }
}

impl<T: Drop> From<AllocFailed<T>> for Unmet {
    ghost use Rattle.doc_rules.specs.declared.failure.Failure.TheVariants as failure;

    ghost from_gives = { λ _ unmet. unmet.failure ≡ failure.NoMemory };

    fn from(_refused: AllocFailed<T>) -> Unmet {
        Unmet::from(Failure::NoMemory)
    }
}

impl From<NoMemory> for Unmet {
    ghost use Rattle.doc_rules.specs.declared.failure.Failure.TheVariants as failure;

    ghost from_gives = { λ _ unmet. unmet.failure ≡ failure.NoMemory };

    fn from(_refused: NoMemory) -> Unmet {
        Unmet::from(Failure::NoMemory)
    }
}

impl Unmet {
    /// As one of the value whose member of that name it is of.
    ///
    /// Where memory is refused, it says so.
    pub fn in_member(self, alloc: Global, name: &str) -> Unmet
        ensures { result.failure ≢ Failure.NoMemory → (self.failure ≢ Failure.NoMemory)
            × (found_of result ≡ found_inside (member_named name.now) (found_of self)) }
    {
        if matches!(self.failure, Failure::NoMemory) {
            // No place is asked for, which would take memory.
            return Unmet::from(Failure::NoMemory);
        }
        let Ok(token) = pointer_token(alloc, name) else {
            return Unmet::from(Failure::NoMemory);
        };
        self.below(alloc, token.as_str())
    }

    /// As one of the value whose item at that index it is of.
    ///
    /// Where memory is refused, it says so.
    pub(crate) fn in_item(self, alloc: Global, index: usize) -> Unmet
        ensures { result.failure ≢ Failure.NoMemory → (self.failure ≢ Failure.NoMemory)
            × (found_of result ≡ found_inside (item_at index) (found_of self)) }
    {
        if matches!(self.failure, Failure::NoMemory) {
            return Unmet::from(Failure::NoMemory);
        }
        let Ok(token) = format!(in alloc; "{index}") else {
            return Unmet::from(Failure::NoMemory);
        };
        self.below(alloc, token.as_str())
    }

    // As one of the value from which this token leads to it.
    fn below(self, alloc: Global, token: &str) -> Unmet
        ensures { result.failure ≢ Failure.NoMemory → (result.failure ≡ self.failure)
            × (pointer_text result.pointer ≡ codes "/" ++ token.now ++ pointer_text self.pointer) }
    {
        let Ok(pointer) = in_front(alloc, token, self.pointer) else {
            return Unmet::from(Failure::NoMemory);
        };
        Unmet {
            failure: self.failure,
            pointer: Some(pointer),
        }
    }
}

/// The pointer with one more token before the others.
fn in_front(alloc: Global, token: &str, pointer: Option<String>) -> Result<String, AllocError>
    ensures { IfOk result (λ text. string_bytes text ≡ codes "/" ++ token.now
        ++ pointer_text pointer) }
{
    let rest = match &pointer {
        Some(rest) => rest.as_str(),
        None => "",
    };
    format!(in alloc; "/{token}{rest}")
}
