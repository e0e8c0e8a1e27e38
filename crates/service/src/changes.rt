// The calls that change the state.
ghost use Rattle.std.specs.Prelude.{◌≡◌, []};
ghost use Rattle.model.specs.Answers.{answer_reply};
ghost use Rattle.model.specs.Calls as call;
ghost use Rattle.model.specs.Tower.{wind_of};
ghost use Rattle.slots.specs.Held.{empty_slots};
ghost use Rattle.slots.specs.Promises.{Meets};

use model::{Item, Refusal, Wind};
use slots::{EMPTY, State};

// A service without a tower: every cell is 0.
pub fn fresh(s: &mut State)
    ensures { s.new ≡ empty_slots }
{
    *s = EMPTY;
}

// The tower of the file in place of everything, and no wind.
pub fn erect(s: &mut State, file: &[u8]) -> Result<(), Refusal>
    ensures { Meets (call.erect file.now) s.old s.new (answer_reply result) file.now }
{
    tower_calls::erect::erect(s, file)
}

// One item more, at the end of the list.
pub fn hang(s: &mut State, item: Item) -> Result<(), Refusal>
    ensures { Meets (call.hang item) s.old s.new (answer_reply result) [] }
{
    item_calls::hang::hang(s, item)
}

// The item with this number removed; the others keep their order.
pub fn take_down(s: &mut State, number: u16) -> Result<(), Refusal>
    ensures { Meets (call.take_down number) s.old s.new (answer_reply result) [] }
{
    item_calls::take_down::take_down(s, number)
}

// Another wind in place of the last.
pub fn set_wind(s: &mut State, wind: Wind) -> Result<(), Refusal>
    ensures { Meets (call.wind (wind_of wind.entry)) s.old s.new (answer_reply result) wind.entry.pressures.now }
{
    tower_calls::wind::set_wind(s, wind)
}
