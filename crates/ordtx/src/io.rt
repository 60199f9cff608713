//! Documents that are read and texts that are written, with the fault where a device fails.
ghost use Rattle.std.specs.Prelude.{◌≡◌, ◌↔◌, ◌⊎◌, ℕ, true, false, Err, IfErr, IfOk, OnErr, OnOk, string_bytes, take};
ghost use Rattle.std.specs.List.{flat_map};
ghost use Rattle.std.specs.Io.KnownBytes.{Appends};
ghost use Rattle.devices.specs.Devices.{ReadsUpTo};
ghost use Rattle.faults.specs.Faults.{input_fault, memory_fault, output_fault};

use devices::{Failed, Sink, Source, Unread, read_input};
use doc_rules::MAX_BYTES;
use faults::{Code, Fault};
use std::alloc::Global;

// One byte more than a document may have, so that a longer input is seen to be longer.
const MOST_READ: usize = MAX_BYTES + 1;

/// Reads all bytes of a source, but at most one more than a document may have. The fault is one of
/// memory, or of the input where a fetch failed.
pub(crate) fn read_document<R: Source>(alloc: Global, source: &mut R) -> Result<Vec<u8>, Fault>
    requires unended { R.has_ended source.old ≡ false }
    requires unread { R.has_failed source.old ≡ false }
    ensures bytes { IfOk result (λ bytes. ReadsUpTo MOST_READ (R.remaining source.old)
        (R.remaining source.new) bytes.items) }
    ensures faults { IfErr result (λ fault. (fault ≡ memory_fault) ⊎ (fault ≡ input_fault)) }
    ensures mark { R.has_failed source.new ≡ true ↔ result ≡ Err input_fault }
{
    match read_input(alloc, source, MOST_READ) {
        Ok(bytes) => Ok(bytes),
        Err(Unread::NoMemory) => Err(Code::Memory.outside()),
        Err(Unread::Failed) => Err(Code::Input.outside()),
    }
}

/// Writes the whole text. The fault is one of the output, where a put failed. A beginning of the text
/// was written then.
pub(crate) fn write_text<W: Sink>(sink: &mut W, text: &[u8]) -> Result<(), Fault>
    requires { W.has_failed sink.old ≡ false }
    ensures whole { OnOk result (Appends (W.taken sink.old) (W.taken sink.new) text.now) }
    ensures beginning { OnErr result ((count : ℕ)
        × Appends (W.taken sink.old) (W.taken sink.new) (take count text.now)) }
    ensures fault { IfErr result (λ fault. fault ≡ output_fault) }
    ensures mark { W.has_failed sink.new ≡ true ↔ result ≡ Err output_fault }
{
    match devices::write_text(sink, text) {
        Ok(()) => Ok(()),
        Err(Failed) => Err(Code::Output.outside()),
    }
}

/// Writes these texts one after the other, as [`write_text`] writes one.
pub(crate) fn write_texts<W: Sink>(sink: &mut W, texts: &[String]) -> Result<(), Fault>
    requires { W.has_failed sink.old ≡ false }
    ensures whole { OnOk result (Appends (W.taken sink.old) (W.taken sink.new)
        (flat_map string_bytes texts.now)) }
    ensures beginning { OnErr result ((count : ℕ)
        × Appends (W.taken sink.old) (W.taken sink.new) (take count (flat_map string_bytes
        texts.now))) }
    ensures fault { IfErr result (λ fault. fault ≡ output_fault) }
    ensures mark { W.has_failed sink.new ≡ true ↔ result ≡ Err output_fault }
{
    match devices::write_texts(sink, texts) {
        Ok(()) => Ok(()),
        Err(Failed) => Err(Code::Output.outside()),
    }
}
