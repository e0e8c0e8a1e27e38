// Drawn arguments of calls, most of which suit the tower that stands.
ghost use Rattle.std.specs.Prelude.{◌≡◌, ◌%◌, ◌<◌, ◌≤◌, true, false, IfSome};
ghost use Rattle.counted.specs.Elements.{elements};
ghost use Rattle.draws.specs.Draws.{drawn};

use crate::fields::Draws;
use crate::keys::Key;
use crate::sections::FLOW_LIMITS;
use crate::towers::item_of;
use counted::Counted;
use model::ranges::{DIRECTIONS, ICE_CLASSES, PRESSURES, STRUCTURE_FACTOR};
use model::{Item, Legs, Wind};

// Once in so many cases a field of an item or of a wind is wrong.
const ITEM_ODDS: u64 = 30;

const WIND_ODDS: u64 = 12;

// Which call is drawn.
#[derive(Clone, Copy, Debug, PartialEq, Eq)]
pub enum CallKind {
    Erect { sound: bool },
    Hang,
    TakeDown,
    Wind,
    Report,
    Check,
    Write,
}

impl CallKind {
    ghost use Rattle.draws.specs.declared.arguments.CallKind.TheVariants as kind;

    // What is missing, a tower or a wind, comes more often.
    pub fn drawn(key: Key, standing: bool, windy: bool) -> CallKind
        ensures erects { drawn key.0 0 % 3 ≡ 0 → standing ≡ false → result ≡ kind.Erect true }
        ensures blows { drawn key.0 0 % 3 ≡ 0 → standing ≡ true → windy ≡ false → result ≡ kind.Wind }
    {
        let soon = key.once_in(0, 3);
        if soon && !standing {
            return CallKind::Erect { sound: true };
        }
        if soon && !windy {
            return CallKind::Wind;
        }
        match key.within(1, 0..=99) {
            0..=2 => CallKind::Erect { sound: true },
            3..=10 => CallKind::Erect { sound: false },
            11..=34 => CallKind::Hang,
            35..=49 => CallKind::TakeDown,
            50..=63 => CallKind::Wind,
            64..=79 => CallKind::Report,
            80..=89 => CallKind::Check,
            _ => CallKind::Write,
        }
    }
}

// The arguments of a wind.
#[derive(Clone, Copy, Debug, PartialEq, Eq)]
pub struct DrawnWind {
    pub direction: u32,
    pub ice: u32,
    pub factor: u32,
    pub pressures: Counted<u16, 40>,
}

impl DrawnWind {
    pub fn as_wind(&self) -> Wind<'_>
        ensures direction { result.direction ≡ self.now.direction }
        ensures ice { result.ice ≡ self.now.ice }
        ensures factor { result.factor ≡ self.now.factor }
        ensures pressures { result.pressures.now ≡ elements self.now.pressures }
    {
        Wind {
            direction: self.direction,
            ice: self.ice,
            factor: self.factor,
            pressures: &self.pressures,
        }
    }
}

// The number of an item.
pub fn any_number(key: Key) -> u16
    ensures { result ≤ 40 }
{
    key.within(0, 0..=40) as u16
}

// The place of one of so many items that are held, or none of them.
pub fn held_place(key: Key, held: usize) -> Option<usize>
    ensures { IfSome result (λ i. i < held) }
{
    if held == 0 || key.once_in(1, 2) {
        None
    } else {
        Some(key.index(2, held))
    }
}

// An item to hang on one of so many sections.
pub fn hung_item(key: Key, sections: u64) -> Item
    ensures { result.number ≤ 40 }
{
    let draws = Draws {
        key,
        odds: Some(ITEM_ODDS),
    };
    item_of(draws, any_number(key), sections)
}

// With three legs an odd one is wrong too.
fn direction(draws: Draws, legs: Legs) -> u32 {
    let direction = draws.field(0, DIRECTIONS);
    match legs {
        Legs::Three if !draws.is_wrong(6) => direction / 2 * 2,
        _ => direction,
    }
}

fn ice_class(draws: Draws) -> u32 {
    if draws.key.once_in(1, 2) {
        0
    } else {
        draws.field(2, ICE_CLASSES)
    }
}

// How many pressures there are, with so many sections.
fn pressure_count(draws: Draws, sections: u64) -> u64
    ensures { result ≤ 40 }
{
    if draws.is_wrong(4) {
        u64::from(draws.key.within(4, 0..=33))
    } else {
        sections.min(40)
    }
}

// Any pressure, or one at a flow limit or just above it.
fn pressure(draws: Draws) -> u16 {
    let key = draws.key;
    if key.once_in(0, 4) {
        let (_, limit) = FLOW_LIMITS[key.index(1, FLOW_LIMITS.len())];
        limit.wrapping_add(key.within(2, 0..=1) as u16)
    } else {
        draws.short(3, PRESSURES)
    }
}

// So many pressures, each of them wrong once in `odds` cases.
fn pressures(draws: Draws, count: u64) -> Counted<u16, 40>
    requires { count ≤ 40 }
    ensures { result.count ≤ 40 }
{
    let mut pressures = Counted::new();
    for place in 0..count {
        pressures.push(pressure(draws.part(place)));
    }
    pressures
}

// A wind for a tower with so many sections. With more of them a pressure is wrong less often.
pub fn wind_of(key: Key, legs: Legs, sections: u64) -> DrawnWind
    ensures { result.pressures.count ≤ 40 }
{
    let draws = Draws {
        key,
        odds: Some(WIND_ODDS),
    };
    let each = Draws {
        key: key.part(5),
        odds: Some(WIND_ODDS.saturating_mul(sections)),
    };
    DrawnWind {
        direction: direction(draws, legs),
        ice: ice_class(draws),
        factor: draws.field(3, STRUCTURE_FACTOR),
        pressures: pressures(each, pressure_count(draws, sections)),
    }
}

// As many elements as are needed, or some more or fewer, out of the most.
pub fn room(key: Key, needed: usize, most: usize) -> usize
    ensures { result ≤ most }
{
    let room = match key.within(0, 0..=7) {
        0 => needed.wrapping_sub(1),
        1 => key.index(1, needed.saturating_add(1)),
        2 | 3 => needed.saturating_add(key.within(1, 1..=20) as usize),
        _ => needed,
    };
    room.min(most)
}
