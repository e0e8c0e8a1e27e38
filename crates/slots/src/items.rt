// Items in slots.
ghost use Rattle.std.specs.Prelude.{◌≡◌, true, ◌≤◌, ◌<◌, ◌+◌, length, map, take, drop, ◌++◌};
ghost use Rattle.model.specs.File.{fields_in_range};
ghost use Rattle.areas.specs.Sums.{ItemSums};
ghost use Rattle.slots.specs.Held.{held_in, number_in, item_in, no_force, item_of, slot_of};

use crate::head::held_in;
use crate::{Slot, State};
use areas::ice::Ice;
use areas::items::item_part;
use areas::ranges::fields_in_range;
use model::Item;
use units::Length;

// The slot of the first item.
pub const ITEMS: usize = 65;

// The slots of the items, in hanging order.
pub fn item_slots(s: &State) -> &[Slot]
    ensures slots { result.now ≡ take (held_in s.now) (drop 65 s.now) }
    ensures count { length result.now ≡ held_in s.now }
    ensures few { length result.now ≤ 64 }
{
    &s[ITEMS..ITEMS + held_in(s)]
}

// The number of the item in a slot, whatever the other cells.
pub fn number_in(slot: &Slot) -> u16
    ensures { result ≡ number_in slot.now }
{
    (slot[0] % 65_536) as u16
}

fn item_in(slot: &Slot) -> Item
    ensures { result ≡ item_in slot.now }
{
    let [number, section, width, length, bare, iced, position, ..] = *slot;
    Item {
        number: (number % 65_536) as u16,
        section: (section % 256) as u8,
        width: Length(width),
        length: Length(length),
        bare: (bare % 65_536) as u16,
        iced: (iced % 65_536) as u16,
        position: (position % 65_536) as u16,
    }
}

fn no_force(it: Item) -> Item
    ensures { result ≡ no_force it }
{
    Item {
        width: Length(1),
        length: Length(1),
        bare: 0,
        iced: 0,
        position: 0,
        ..it
    }
}

// The item of a slot, or one of no force where its fields are out of range.
#[tactic(auto, unfolding(crate::specs::Held::item_of))]
pub fn item_of(slot: &Slot) -> Item
    ensures { (result ≡ item_of slot.now) × (fields_in_range result ≡ true) }
{
    let it = item_in(slot);
    if fields_in_range(it) {
        it
    } else {
        no_force(it)
    }
}

// The slot of an item that is in its ranges: it stands for the item.
#[tactic(auto, using(crate::proofs::Codec::item_back))]
pub fn item_slot(it: Item) -> Slot
    requires { fields_in_range it ≡ true }
    ensures { (result ≡ slot_of it) × (item_of result ≡ it) }
{
    [
        it.number as u32,
        it.section as u32,
        it.width.0,
        it.length.0,
        it.bare as u32,
        it.iced as u32,
        it.position as u32,
        0,
        0,
        0,
        0,
        0,
    ]
}

// Of each of 32 sections, the sum over the items in these slots that hang on it.
pub fn item_sums(slots: &[Slot], ice: Ice) -> [u64; 32]
    requires { length slots.now ≤ 64 }
    ensures { ItemSums ice.thickness (map item_of slots.now) result }
{
    let mut sums = [0u64; 32];
    for slot in slots {
        let item = item_of(slot);
        let section = usize::from(item.section);
        if section < 32 {
            sums[section] += item_part(ice, item);
        }
    }
    sums
}
