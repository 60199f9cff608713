//! A rule that a document doesn't keep, with the part of which it is asked.
ghost use Rattle.std.specs.Prelude.{◌≡◌, ◌≢◌, IfOk};
ghost use Rattle.std.specs.Fmt.{decimal};
ghost use Rattle.serde_json.specs.View.{view};
ghost use Rattle.doc_rules.specs.declared.failure.Failure.TheVariants as failure;
ghost use Rattle.doc_rules.specs.Failures.{fault_of};
ghost use Rattle.doc_tree.specs.Answer.{found_of, pointer_text};
ghost use Rattle.lang.specs.Found.{IsBelow, found_by, part_at};

use doc_rules::{Failure, Rule};
use doc_tree::unmet::Unmet;
use faults::Fault;
use serde_json::Value;
use serial::NoMemory;
use std::alloc::Global;

/// The first rule that a value doesn't keep: in the transaction of this number, or outside of them
/// (0), with the pointer from the value to the part of which it is asked, and that part.
#[derive(Drop)]
pub(crate) struct Misread {
    pub(crate) rule: Rule,
    pub(crate) transaction: u32,
    /// A JSON Pointer (RFC 6901).
    pub(crate) pointer: String,
    pub(crate) part: Value,
}

/// The part of a value to which a pointer leads.
fn part_at(value: Value, pointer: &str) -> Value
    ensures { view result ≡ part_at pointer.now (view value) }
{
    let mut whole = value;
    match whole.pointer_mut(pointer) {
        Some(part) => part.take(),
        None => Value::Null,
    }
}

/// The demand that a value doesn't meet, with the part of which it is asked.
///
/// Err where memory was refused.
pub(crate) fn misread_of(alloc: Global, unmet: Unmet, value: Value) -> Result<Misread, NoMemory>
    ensures other { IfOk result (λ misread. unmet.failure ≢ failure.NoMemory) }
    ensures found { IfOk result (λ misread. found_by misread ≡ found_of unmet) }
    ensures part { IfOk result (λ misread. view misread.part
        ≡ part_at (pointer_text unmet.pointer) (view value)) }
{
    let Failure::Broken(rule, transaction) = unmet.failure else {
        return Err(NoMemory);
    };
    let pointer = match unmet.pointer {
        Some(pointer) => pointer,
        None => String::new(alloc),
    };
    let part = part_at(value, pointer.as_str());
    Ok(Misread {
        rule,
        transaction,
        pointer,
        part,
    })
}

impl Misread {
    /// As one of the value from which this token of a pointer leads to it.
    pub(crate) fn below(self, alloc: Global, token: &str) -> Result<Misread, NoMemory>
        ensures { IfOk result (λ misread. IsBelow token.now self misread) }
    {
        let rest = self.pointer.as_str();
        let pointer = format!(in alloc; "/{token}{rest}")?;
        Ok(Misread {
            rule: self.rule,
            transaction: self.transaction,
            pointer,
            part: self.part,
        })
    }

    /// As one of the array whose item at that index it is of.
    pub(crate) fn in_item(self, alloc: Global, index: usize) -> Result<Misread, NoMemory>
        ensures { IfOk result (λ misread. IsBelow (decimal index) self misread) }
    {
        let token = format!(in alloc; "{index}")?;
        self.below(alloc, token.as_str())
    }

    /// The fault that a document has so.
    pub(crate) fn fault(&self) -> Fault
        ensures { result ≡ fault_of (found_by self.now).failure }
    {
        Failure::Broken(self.rule, self.transaction).fault()
    }
}
