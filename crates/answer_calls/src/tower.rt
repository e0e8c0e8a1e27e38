// The tower that stands in the slots, as a value.
ghost use Rattle.std.specs.Prelude.{◌≡◌, map};
ghost use Rattle.counted.specs.Elements.{elements};
ghost use Rattle.model.specs.Tower.{section_of, tower_of};
ghost use Rattle.slots.specs.Held.{items_in, tower_in};

use counted::Counted;
use model::{Item, Section, Tower};
use slots::State;
use slots::head::{count_in, legs_in};
use slots::items::{item_of, item_slots};
use slots::sections::section_at;
use slots::wind::ice_on;

fn sections_in(s: &State) -> Counted<Section, 32>
    ensures { map section_of (elements result) ≡ (tower_in s.now).sections }
{
    let ice = ice_on(s);
    let mut sections = Counted::new();
    for i in 0..count_in(s) {
        sections.push(section_at(s, ice, i));
    }
    sections
}

fn items_in(s: &State) -> Counted<Item, 64>
    ensures { elements result ≡ items_in s.now }
{
    let mut items = Counted::new();
    for slot in item_slots(s) {
        items.push(item_of(slot));
    }
    items
}

#[tactic(auto, unfolding(slots::specs::Held::ground_of))]
pub(crate) fn tower_in(s: &State) -> Tower
    ensures { tower_of result ≡ tower_in s.now }
{
    Tower {
        legs: legs_in(s),
        sections: sections_in(s),
        items: items_in(s),
    }
}
