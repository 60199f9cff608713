//! Performing calls on some of the objects, side by side.
ghost use Rattle.std.specs.Prelude.{◌≡◌, OnOk, OnErr};
ghost use Rattle.objects.specs.Objects.{kind_of_value, kind_of_call, HasRoom, MayGrow};
ghost use Rattle.objects.specs.Parts.{IfAmong, IsAmong, IsPerformedOn};

use crate::{Call, Value};
use serial::NoMemory;

/// Performs a call on its object, where that is one of these values. They are those of the objects
/// from the place `first` on. A call on another object is passed over.
///
/// Returns `NoMemory` where a request for memory was refused: the values are then as before.
pub fn perform_on(
    values: &mut [Value],
    first: usize,
    object: u32,
    call: &Call,
) -> Result<(), NoMemory>
    requires fits { IfAmong first values.old object
        (λ value. kind_of_value value ≡ kind_of_call call.now) }
    requires room { IfAmong first values.old object (λ value. HasRoom value call.now) }
    ensures ok { OnOk result (IsPerformedOn first values.old values.new object call.now) }
    ensures err { OnErr result (values.new ≡ values.old) }
    ensures refused { OnErr result (IsAmong first values.old object
        (λ value. MayGrow value call.now)) }
{
    if let Some(place) = (object as usize).checked_sub(first) {
        if place < values.len() {
            let _reply = values[place].perform(call)?;
        }
    }
    Ok(())
}
