//! Writing texts to a sink.
ghost use Rattle.std.specs.Prelude.{◌≡◌, ℕ, false, OnOk, OnErr, is_err, string_bytes, take};
ghost use Rattle.std.specs.List.{flat_map};
ghost use Rattle.std.specs.Io.KnownBytes.{Appends};

use crate::sink::Sink;
use crate::source::Failed;

/// Writes the whole text, in whatever pieces the sink takes. Where a put failed, a beginning of the
/// text was written.
pub fn write_text<W: Sink>(sink: &mut W, text: &[u8]) -> Result<(), Failed>
    requires { W.has_failed sink.old ≡ false }
    ensures whole { OnOk result (Appends (W.taken sink.old) (W.taken sink.new) text.now) }
    ensures beginning { OnErr result ((count : ℕ)
        × Appends (W.taken sink.old) (W.taken sink.new) (take count text.now)) }
    ensures mark { W.has_failed sink.new ≡ is_err result }
{
    let mut done = 0;
    while done < text.len() {
        let count = sink.put(&text[done..])?;
        done += count;
    }
    Ok(())
}

/// Writes these texts one after the other, as [`write_text`] writes one. Nothing is written after a
/// put that failed. A beginning of what the texts are together was written then.
pub fn write_texts<W: Sink>(sink: &mut W, texts: &[String]) -> Result<(), Failed>
    requires { W.has_failed sink.old ≡ false }
    ensures whole { OnOk result (Appends (W.taken sink.old) (W.taken sink.new)
        (flat_map string_bytes texts.now)) }
    ensures beginning { OnErr result ((count : ℕ)
        × Appends (W.taken sink.old) (W.taken sink.new) (take count (flat_map string_bytes
        texts.now))) }
    ensures mark { W.has_failed sink.new ≡ is_err result }
{
    for text in texts {
        write_text(sink, text.as_bytes())?;
    }
    Ok(())
}
