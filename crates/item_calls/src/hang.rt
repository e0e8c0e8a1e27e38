// One item more.
ghost use Rattle.std.specs.Prelude.{◌≡◌, []};
ghost use Rattle.model.specs.Answers.{answer_number, answer_reply};
ghost use Rattle.model.specs.Calls as call;
ghost use Rattle.slots.specs.Held.{state_of};
ghost use Rattle.slots.specs.Promises.{Meets};

use crate::places::place_of;
use areas::ranges::fields_in_range;
use model::{Item, Refusal};
use slots::State;
use slots::head::{count_in, expect_tower, held_in, set_held};
use slots::items::{ITEMS, item_slot, item_slots};

// Document 01's rules of hang, in their order.
#[tactic(auto, using(crate::proofs::WaysOut::hang_rules))]
fn validate(s: &State, item: Item) -> Result<(), Refusal>
    ensures { answer_number result ≡ call.refusal_of (state_of s.now) (call.hang item) }
{
    expect_tower(s)?;
    if 64 <= held_in(s) {
        return Err(Refusal::ItemCount);
    }
    if place_of(item_slots(s), item.number).is_some() {
        return Err(Refusal::ItemNumber);
    }
    if count_in(s) <= usize::from(item.section) {
        return Err(Refusal::ItemSection);
    }
    if !fields_in_range(item) {
        return Err(Refusal::ItemField);
    }
    Ok(())
}

// The item joins at the end of the list.
#[tactic(auto, using(crate::proofs::WaysOut::room))]
pub fn hang(s: &mut State, item: Item) -> Result<(), Refusal>
    ensures { Meets (call.hang item) s.old s.new (answer_reply result) [] }
{
    validate(s, item)?;
    let held = held_in(s);
    s[ITEMS + held] = item_slot(item);
    set_held(&mut s[0], held + 1);
    Ok(())
}
