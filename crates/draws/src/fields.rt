// Fields of which some are wrong.
ghost use Rattle.std.specs.Prelude.{◌≤◌};

use crate::keys::Key;
use model::Range;

// What the fields of a part are drawn from. A field is wrong once in `odds` cases, or never.
#[derive(Clone, Copy)]
pub struct Draws {
    pub key: Key,
    pub odds: Option<u64>,
}

impl Draws {
    // The draws of a part, with the same odds.
    pub(crate) fn part(self, place: u64) -> Draws {
        let key = self.key.part(place);
        Draws { key, ..self }
    }

    // Whether the field of this place is wrong.
    pub(crate) fn is_wrong(self, place: u64) -> bool {
        self.odds
            .is_some_and(|odds| self.key.part(place).once_in(0, odds))
    }

    // A number of the range, or a wrong one.
    pub(crate) fn field(self, place: u64, range: Range) -> u32
        requires { range.low ≤ range.high }
    {
        let drawn = self.key.within(place, range.low..=range.high);
        self.or_wrong(place, drawn, range)
    }

    // A field's low 16 bits, which are all of its width.
    pub(crate) fn short(self, place: u64, range: Range) -> u16
        requires { range.low ≤ range.high }
    {
        (self.field(place, range) & 0xffff) as u16
    }

    // This number, or one outside the range.
    pub(crate) fn or_wrong(self, place: u64, number: u32, range: Range) -> u32 {
        if self.is_wrong(place) {
            outside(self.key.part(place), range)
        } else {
            number
        }
    }
}

// A number just below the range, just above it, or the largest, which is the largest of each field's width.
fn outside(key: Key, range: Range) -> u32 {
    match key.within(1, 0..=2) {
        0 if 0 < range.low => range.low - 1,
        0 | 1 => range.high.wrapping_add(1),
        _ => u32::MAX,
    }
}
