// Numbers drawn from a key.
ghost use Rattle.std.specs.Prelude.{◌≡◌, ◌%◌, ◌<◌, ◌≤◌, ◌↔◌, IsTrue};
ghost use Rattle.std.specs.Range.{range_inclusive_start, range_inclusive_end};
ghost use Rattle.draws.specs.Draws.{stir, drawn};

use lines::digest::mix;
use std::ops::RangeInclusive;

// What numbers are drawn from.
#[derive(Clone, Copy, Debug, PartialEq, Eq)]
pub struct Key(pub u64);

#[tactic(auto, unfolding(crate::specs::Draws::stir))]
fn stirred(n: u64) -> u64
    ensures { result ≡ stir n }
{
    mix(n, n >> 29)
}

impl Key {
    // 64 bits, each of which depends on all of the key and the place.
    pub fn bits(self, place: u64) -> u64
        ensures { result ≡ drawn self.0 place }
    {
        let mixed = mix(self.0, place);
        stirred(stirred(stirred(stirred(mixed))))
    }

    // The key of a part.
    pub fn part(self, place: u64) -> Key
        ensures { result.0 ≡ drawn self.0 place }
    {
        Key(self.bits(place))
    }

    // A number of the range.
    pub(crate) fn within(self, place: u64, range: RangeInclusive<u32>) -> u32
        requires { range_inclusive_start range ≤ range_inclusive_end range }
        ensures low { range_inclusive_start range ≤ result }
        ensures high { result ≤ range_inclusive_end range }
    {
        let (low, high) = range.into_inner();
        let count = u64::from(high - low) + 1;
        low + (self.bits(place) % count) as u32
    }

    // The place of one of so many.
    pub fn index(self, place: u64, count: usize) -> usize
        requires { 0 < count }
        ensures value { result ≡ drawn self.0 place % count }
        ensures within { result < count }
    {
        (self.bits(place) % count as u64) as usize
    }

    // True once in so many cases, and never in 0.
    pub fn once_in(self, place: u64, cases: u64) -> bool
        ensures { IsTrue result ↔ ((0 < cases) × (drawn self.0 place % cases ≡ 0)) }
    {
        0 < cases && self.bits(place).is_multiple_of(cases)
    }
}
