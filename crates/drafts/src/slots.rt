//! Slots of touched items.
ghost use Rattle.std.specs.Prelude.{◌≡◌, IsSome, Some, cond};
ghost use Rattle.std.specs.BTreeMap.{is_at};
ghost use Rattle.atoms.specs.Item.{item_cmp};
ghost use Rattle.atoms.specs.declared.item.Item.{Item};
ghost use Rattle.drafts.specs.Overlays.{slot_at};

use atoms::Item;
use std::collections::BTreeMap;

/// Writes a slot that is there. It takes no memory.
pub fn write_slot<B: Drop>(slots: &mut BTreeMap<Item, B>, item: Item, content: B)
    requires { IsSome (slot_at slots.old.entries item) }
    ensures { (q : Item) → slot_at slots.new.entries q
        ≡ cond (is_at (item_cmp item) q) (Some content) (slot_at slots.old.entries q) }
{
    match slots.insert(item, content) {
        Ok(_) => {}
        Err(_) => unreachable!(),
    }
}
