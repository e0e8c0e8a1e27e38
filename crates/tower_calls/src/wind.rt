// Another wind in place of the last.
ghost use Rattle.std.specs.Prelude.{◌≡◌, ◌≤◌, ◌<◌, length, slice_index};
ghost use Rattle.model.specs.Lists.{all_of};
ghost use Rattle.model.specs.Ranges as ranges;
ghost use Rattle.model.specs.Answers.{answer_number, answer_reply};
ghost use Rattle.model.specs.Calls as call;
ghost use Rattle.model.specs.Tower.{wind_of};
ghost use Rattle.slots.specs.Held.{stands_under, section_at, ground_of, ice_on, state_of, PutSections};
ghost use Rattle.slots.specs.Promises.{Meets};
ghost use Rattle.tower_calls.specs.Placed.{all_stand, WindHead};

use areas::ice::Ice;
use areas::ranges::fits_under;
use model::ranges::{ICE_CLASSES, PRESSURES, STRUCTURE_FACTOR};
use model::{Refusal, Wind};
use slots::head::{DIRECTION, FACTOR, ICE, WINDY, count_in, expect_tower, legs_in};
use slots::sections::{put_section, section_at};
use slots::wind::ice_on;
use slots::{Slot, State};

fn pressures_fit(pressures: &[u16]) -> bool
    ensures { result ≡ all_of (ranges.within ranges.pressures) pressures.now }
{
    pressures.iter().all(|q| PRESSURES.contains(u32::from(*q)))
}

// Whether section i, as it stands under the present ice, stands under this one.
fn section_fits(s: &State, present: Ice, ice: Ice, i: usize) -> bool
    requires { i < 32 }
    ensures { result ≡ stands_under ice.thickness (section_at s.now present.thickness i) }
{
    fits_under(ice.thickness, &section_at(s, present, i))
}

// Whether every section stands under this ice.
#[tactic(auto, unfolding(crate::specs::Placed::all_stand))]
fn sections_fit(s: &State, ice: Ice) -> bool
    ensures { result ≡ all_stand ice.thickness s.now }
{
    let present = ice_on(s);
    (0..count_in(s)).all(|i| section_fits(s, present, ice, i))
}

// Document 01's rules of wind, in their order.
#[tactic(auto, using(crate::proofs::Winds::wind_rules))]
fn validate(s: &State, wind: Wind) -> Result<(), Refusal>
    ensures { answer_number result ≡ call.refusal_of (state_of s.now) (call.wind (wind_of wind.entry)) }
{
    expect_tower(s)?;
    if !legs_in(s).allows_direction(wind.direction) {
        return Err(Refusal::Direction);
    }
    if !ICE_CLASSES.contains(wind.ice) {
        return Err(Refusal::IceClass);
    }
    if !STRUCTURE_FACTOR.contains(wind.factor) {
        return Err(Refusal::StructureFactor);
    }
    if wind.pressures.len() != count_in(s) {
        return Err(Refusal::PressureCount);
    }
    if !pressures_fit(wind.pressures) {
        return Err(Refusal::Pressure);
    }
    if !sections_fit(s, Ice::of_class(wind.ice)) {
        return Err(Refusal::IcedSolidity);
    }
    Ok(())
}

// The pressures beside their sections, which then stand in their slots as they do now.
fn put_pressures(s: &mut State, pressures: &[u16])
    requires { length pressures.now ≤ 32 }
    ensures { PutSections (section_at s.old (ice_on (ground_of s.old))) (λ k. slice_index pressures.now k) (length pressures.now) s.old s.new }
{
    let ice = ice_on(s);
    for (i, q) in pressures.iter().enumerate() {
        let section = section_at(s, ice, i);
        put_section(s, i, &section, *q);
    }
}

// Slot 0 under the wind.
fn put_wind(head: &mut Slot, wind: Wind)
    ensures { WindHead head.old wind.entry.direction wind.entry.ice wind.entry.factor head.new }
{
    head[WINDY] = 1;
    head[DIRECTION] = wind.direction;
    head[ICE] = wind.ice;
    head[FACTOR] = wind.factor;
}

pub fn set_wind(s: &mut State, wind: Wind) -> Result<(), Refusal>
    ensures { Meets (call.wind (wind_of wind.entry)) s.old s.new (answer_reply result) wind.entry.pressures.now }
{
    validate(s, wind)?;
    put_pressures(s, wind.pressures);
    put_wind(&mut s[0], wind);
    Ok(())
}
