// A list of 15 001 winds on one tower of three sections, each with 1 N/m² more on one of them than the wind before and
// as much on the others: no reported force, shear or moment falls.
use crate::sites::{Site, blow};
use draws::keys::Key;
use slots::State;
use std::cmp::Ordering;

// All winds: the first has no pressure, and under the last one every section has 5 000 N/m².
pub(crate) const WINDS: u16 = 15_001;

// Every 3 000 winds the pressure is 1 000 N/m² more on all sections.
pub(crate) const PRINTED: u16 = 3_000;

// Each of its sections has tubes whose lesser winds govern.
const PRESSED: Site = Site {
    key: Key(18),
    sections: 3,
};

// How many forces, shears and moments were more than in the report before, the same, and less.
#[derive(Clone, Copy, Debug, PartialEq, Eq, Default)]
pub(crate) struct Counts {
    pub more: u64,
    pub same: u64,
    pub less: u64,
}

impl Counts {
    // Two reports, one after the other.
    pub(crate) fn compare(&mut self, before: &[u64; 18], after: &[u64; 18]) {
        for (place, (before, after)) in before.iter().zip(after).enumerate() {
            if 3 <= place % 6 {
                self.count(after.cmp(before));
            }
        }
    }

    // One number more.
    fn count(&mut self, after: Ordering) {
        let count = match after {
            Ordering::Greater => &mut self.more,
            Ordering::Equal => &mut self.same,
            Ordering::Less => &mut self.less,
        };
        *count = count.wrapping_add(1);
    }
}

// The tower with four items, and no wind yet.
pub(crate) fn standing() -> State {
    PRESSED.raised(4)
}

// The wind of this place: the sections take turns from the top.
pub(crate) fn press(s: &mut State, place: u16) {
    let turns = |ahead: u32| ((u32::from(place) + ahead) / 3) as u16;
    blow(s, &[turns(2), turns(1), turns(0)]);
}
