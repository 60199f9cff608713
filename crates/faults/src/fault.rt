//! Why a document has no report, and in which transaction.
ghost use Rattle.std.specs.Prelude.{◌≡◌};
ghost use Rattle.faults.specs.Faults.{fault_outside, code_number, wrong_outside};

use serial::NoMemory;
use std::alloc::{AllocError, AllocFailed};
use thiserror::Error;

/// What is wrong with a document.
#[derive(Clone, Copy, Debug, Drop, PartialEq, Eq)]
pub enum Wrong {
    /// The bytes are no JSON.
    NotJson = 1,
    /// A part doesn't have the form that its place asks for.
    Shape = 2,
    /// A text is no name.
    Name = 3,
    /// An earlier object has the name.
    DuplicateObject = 4,
    /// No object has the name.
    UnknownObject = 5,
    /// The object's kind has no such call.
    UnknownOperation = 6,
    /// A call's arguments are too many, too few, or out of range.
    Argument = 7,
    /// No label of the name is seen.
    UnknownLabel = 8,
    /// A label of the name is seen already.
    DuplicateLabel = 9,
    /// A test doesn't fit its label.
    Condition = 10,
    /// Blocks are nested too deep.
    Depth = 11,
    /// There are more of something than a document may have.
    TooMany = 12,
    /// An object can't start with this value.
    Start = 13,
}

/// Why there is no report: what is wrong with the document, or what failed beside it.
#[derive(Clone, Copy, Debug, Drop, PartialEq, Eq)]
pub enum Code {
    /// The document is wrong.
    Wrong(Wrong),
    /// Memory was refused.
    Memory,
    /// The document could not be read.
    Input,
    /// The report could not be written.
    Output,
}

/// A code, with the number of the transaction that was being read, or 0 outside of them.
#[derive(Clone, Copy, Debug, Drop, PartialEq, Eq, Error)]
#[error("fault {} transaction {transaction}", .code.number())]
pub struct Fault {
    pub code: Code,
    pub transaction: u32,
}

impl Wrong {
    /// The fault of this wrong that is in no transaction.
    pub fn outside(self) -> Fault
        ensures { result ≡ wrong_outside self }
    {
        Code::Wrong(self).outside()
    }
}

impl Code {
    /// The number that stands for the code in what is printed.
    pub fn number(self) -> u8
        ensures { result ≡ code_number self }
    {
        match self {
            Code::Wrong(wrong) => wrong as u8,
            Code::Memory => 20,
            Code::Input => 21,
            Code::Output => 22,
        }
    }

    /// The fault of this code that is in no transaction.
    pub fn outside(self) -> Fault
        ensures { result ≡ fault_outside self }
    {
        Fault {
            code: self,
            transaction: 0,
        }
    }
}

impl Fault {
    /// The number of its code.
    pub fn number(&self) -> u8
        ensures { result ≡ code_number self.now.code }
    {
        self.code.number()
    }
}

impl From<AllocError> for Fault {
    ghost use Rattle.faults.specs.Faults.{memory_fault};

    ghost from_gives = { λ _ fault. fault ≡ memory_fault };

    fn from(_refused: AllocError) -> Fault {
        Code::Memory.outside()
    }
}

impl<T: Drop> From<AllocFailed<T>> for Fault {
    ghost use Rattle.faults.specs.Faults.{memory_fault};

    ghost from_gives = { λ _ fault. fault ≡ memory_fault };

    fn from(_refused: AllocFailed<T>) -> Fault {
        Code::Memory.outside()
    }
}

impl From<NoMemory> for Fault {
    ghost use Rattle.faults.specs.Faults.{memory_fault};

    ghost from_gives = { λ _ fault. fault ≡ memory_fault };

    fn from(_refused: NoMemory) -> Fault {
        Code::Memory.outside()
    }
}
