// The wind: its numbers in slot 0, and a pressure beside each section.
ghost use Rattle.std.specs.Prelude.{◌≡◌, ◌&&◌, ◌≤◌, ◌<◌, IfSome, is_some};
ghost use Rattle.model.specs.Machine as machine;
ghost use Rattle.model.specs.Ranges as ranges;
ghost use Rattle.slots.specs.Held.{cell, ground_of, is_windy, ice_on};
ghost use Rattle.slots.specs.Held as held;

use crate::State;
use crate::head::{DIRECTION, FACTOR, ICE, WINDY, legs_in};
use crate::sections::{PRESSURE, SECTIONS};
use areas::ice::Ice;
use model::Legs;
use model::ranges::{DIRECTIONS, ICE_CLASSES, PRESSURES, STRUCTURE_FACTOR};

// Direction, ice class and structure factor.
#[derive(Clone, Copy, Debug, PartialEq, Eq, Hash)]
pub struct WindNumbers {
    pub direction: u32,
    pub ice: u32,
    pub factor: u32,
}

fn numbers_fit(legs: Legs, w: WindNumbers) -> bool
    ensures { result ≡ machine.direction_fits legs w.direction && (ranges.within ranges.ice_classes w.ice && ranges.within ranges.structure_factor w.factor) }
{
    legs.allows_direction(w.direction)
        && ICE_CLASSES.contains(w.ice)
        && STRUCTURE_FACTOR.contains(w.factor)
}

// As they stand in slot 0.
pub fn wind_numbers(s: &State) -> WindNumbers
    ensures { (result.direction ≡ cell s.now 0 5) × (result.ice ≡ cell s.now 0 6) × (result.factor ≡ cell s.now 0 7) }
{
    WindNumbers {
        direction: s[0][DIRECTION],
        ice: s[0][ICE],
        factor: s[0][FACTOR],
    }
}

#[tactic(auto, unfolding(crate::specs::Held::ground_of))]
pub fn has_wind(s: &State) -> bool
    ensures { result ≡ is_windy (ground_of s.now) }
{
    s[0][WINDY] == 1 && numbers_fit(legs_in(s), wind_numbers(s))
}

// Those of the wind that stands, where one does.
#[tactic(auto, unfolding(crate::specs::Held::ground_of))]
pub fn standing_wind(s: &State) -> Option<WindNumbers>
    ensures stands { is_some result ≡ is_windy (ground_of s.now) }
    ensures numbers { IfSome result (λ w. (w.direction ≡ cell s.now 0 5) × (w.ice ≡ cell s.now 0 6) × (w.factor ≡ cell s.now 0 7)) }
    ensures in_range { IfSome result (λ w. (w.ice ≤ 5) × (w.factor ≤ 2000)) }
{
    has_wind(s).then_some(wind_numbers(s))
}

// The ice that the sections stand under.
#[tactic(auto, unfolding(crate::specs::Held::ground_of, crate::specs::Held::ice_on))]
pub fn ice_on(s: &State) -> Ice
    ensures { result.thickness ≡ ice_on (ground_of s.now) }
{
    Ice::of_class(standing_wind(s).map_or(0, |w| w.ice))
}

// The pressure on section i.
#[tactic(auto, unfolding(crate::specs::Held::pressure_of))]
pub fn pressure_at(s: &State, i: usize) -> u16
    requires { i < 32 }
    ensures { (result ≡ held.pressure_at s.now i) × (result ≤ 5000) }
{
    let q = s[SECTIONS + 2 * i][PRESSURE];
    if PRESSURES.contains(q) { q as u16 } else { 0 }
}
