//! Texts in the memory of one.
ghost use Rattle.std.specs.Prelude.{◌∷◌, ◌≡◌, ◌≤◌, ◌^◌, ◌-◌, IfOk, get_or, length, min, option_map, slice_get, string_bytes};
ghost use Rattle.std.specs.List.{sum_by};
ghost use Rattle.batch.specs.Names.{texts_of};

use serial::NoMemory;
use std::alloc::Global;
use std::marker::Model;

/// Texts one after the other in the memory of one, so that a look at one of them touches little of
/// it.
#[derive(Debug, Drop)]
pub(crate) struct Packed {
    /// The texts, with nothing between them.
    text: String,
    /// Where each of them ends.
    ends: Vec<usize>,
}

impl Model for Packed {
    ghost use Rattle.std.specs.Prelude.{List, ℕ, string_bytes};
    ghost use Rattle.batch.specs.Packed.{AreEnds, parts_from};

    ghost Value = { List (List ℕ) };

    ghost view = { λ packed. parts_from (string_bytes packed.text) 0 packed.ends.items };

    ghost invariant = { λ packed. AreEnds (string_bytes packed.text) 0 packed.ends.items };
}

/// How many bytes the texts have together, or the most that a `usize` can be where they have more.
fn room_for(texts: &[String]) -> usize
    ensures { result ≡ min (sum_by (λ text. length (string_bytes text)) texts.now) (2 ^ 64 - 1) }
{
    let mut room: usize = 0;
    for text in texts {
        room = room.saturating_add(text.len());
    }
    room
}

/// Where the text at this place begins: where the one before it ends.
fn beginning_of(ends: &[usize], place: usize) -> usize
    requires { place ≤ length ends.now }
    ensures { result ≡ get_or (0 ∷ ends.now) place 0 }
{
    if place == 0 { 0 } else { ends[place - 1] }
}

impl Packed {
    /// These texts, in this order.
    pub(crate) fn of(alloc: Global, texts: &[String]) -> Result<Packed, NoMemory>
        ensures { IfOk result (λ packed. packed ≡ texts_of texts.now) }
    {
        let mut text = String::with_capacity(alloc, room_for(texts))?;
        let mut ends = Vec::with_capacity(alloc, texts.len())?;
        for part in texts {
            text.push_str(part)?;
            ends.push(text.len())?;
        }
        Ok(Packed { text, ends })
    }

    /// The text at this place, if there is one.
    pub(crate) fn get(&self, number: u32) -> Option<&str>
        ensures { option_map (λ text. text.now) result ≡ slice_get self.now number }
    {
        let place = number as usize;
        let end = *self.ends.get(place)?;
        let start = beginning_of(&self.ends, place);
        Some(&self.text.as_str()[start..end])
    }
}
