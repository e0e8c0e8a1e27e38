// A list of 3 000 000 hangings and take-downs on one tower, of which a million and more are accepted. First they are
// drawn; then each number is taken down, and the items of the start hang again, in falling order.
use crate::sites::{Site, blow};
use draws::keys::Key;
use model::Refusal;
use service::changes::{hang, take_down};
use slots::State;

// How many calls are drawn.
pub(crate) const DRAWN: u64 = 2_999_888;

// How many items are hung and taken down.
pub(crate) const NUMBERS: u16 = 100;

// How many of them hang at the start and at the end.
pub(crate) const HUNG: u16 = 12;

// The list's calls are drawn from this key too.
pub(crate) const MILLION: Site = Site {
    key: Key(2),
    sections: 6,
};

// The tower with the first items, under a wind.
pub(crate) fn start() -> State {
    let mut state = MILLION.raised(HUNG);
    blow(&mut state, &[1000, 950, 900, 850, 800, 750]);
    state
}

// Hangs an item or takes one down. Which of both mostly, changes with the tide of 1000 calls.
pub(crate) fn drawn_step(s: &mut State, place: u64) -> Result<(), Refusal> {
    let key = MILLION.key.part(2).part(place);
    let number = key.index(0, NUMBERS as usize) as u16;
    let rising = place / 1000 % 2 == 0;
    let against = key.once_in(1, 4);
    if rising != against {
        hang(s, MILLION.item(number))
    } else {
        take_down(s, number)
    }
}
