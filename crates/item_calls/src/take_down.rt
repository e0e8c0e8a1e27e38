// One item less.
ghost use Rattle.std.specs.Prelude.{◌≡◌, [], ◌≤◌, length, take, filter};
ghost use Rattle.model.specs.Answers.{answer_reply};
ghost use Rattle.model.specs.Calls as call;
ghost use Rattle.slots.specs.Promises.{Meets};
ghost use Rattle.item_calls.specs.Places.{has_another};

use crate::places::place_of;
use model::Refusal;
use slots::head::{expect_tower, held_in, set_held};
use slots::items::{ITEMS, item_slots, number_in};
use slots::{Slot, State};

// The slots of the items that have another number, moved up to the front in place; and how many they are.
#[tactic(auto, using(std::proofs::lemmas::List::Elements::filter_more))]
fn close_up(items: &mut [Slot], number: u16) -> usize
    ensures left { take result items.new ≡ filter (has_another number) items.old }
    ensures few { result ≤ length items.old }
{
    let mut n = 0;
    for i in 0..items.len() {
        if number_in(&items[i]) != number {
            items[n] = items[i];
            n += 1;
        }
    }
    n
}

// The item with this number is removed; the others keep their order.
pub fn take_down(s: &mut State, number: u16) -> Result<(), Refusal>
    ensures { Meets (call.take_down number) s.old s.new (answer_reply result) [] }
{
    expect_tower(s)?;
    let place = place_of(item_slots(s), number).ok_or(Refusal::NoSuchItem)?;
    let held = held_in(s);
    let rest = close_up(&mut s[ITEMS + place..ITEMS + held], number);
    set_held(&mut s[0], place + rest);
    Ok(())
}
