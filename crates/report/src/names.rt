//! The names of numbers. A number that has no name has the empty text.
ghost use Rattle.std.specs.Prelude.{◌≡◌};
ghost use Rattle.batch.specs.Names.{names_of};

use atoms::Item;
use batch::Names;

/// The name of an object.
#[tactic(auto, using(crate::proofs::NameLemmas::no_name))]
pub fn object_name(names: &Names, object: u32) -> &str
    ensures { result.now ≡ (names_of names.now).object object }
{
    match names.object(object) {
        Some(name) => name,
        None => "",
    }
}

/// The name of an item.
#[tactic(auto, using(crate::proofs::NameLemmas::no_name))]
pub fn item_name(names: &Names, item: Item) -> &str
    ensures { result.now ≡ (names_of names.now).item item }
{
    match names.item(item) {
        Some(name) => name,
        None => "",
    }
}

/// The name of the reason of an abort.
#[tactic(auto, using(crate::proofs::NameLemmas::no_name))]
pub fn reason_name(names: &Names, reason: u32) -> &str
    ensures { result.now ≡ (names_of names.now).reason reason }
{
    match names.reason(reason) {
        Some(name) => name,
        None => "",
    }
}
