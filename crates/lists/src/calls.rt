// A call with drawn arguments on a service, and what it hands back as numbers for a digest.
ghost use Rattle.std.specs.Prelude.{◌≡◌, ◌≤◌};

use draws::arguments::{CallKind, any_number, held_place, hung_item, room, wind_of};
use draws::keys::Key;
use draws::towers::drawn_file;
use lines::digest::{digest_of, mix};
use model::{Legs, Refusal};
use service::answers::{check, report, write};
use service::changes::{erect, hang, set_wind, take_down};
use slots::State;
use slots::head::{count_in, is_standing, legs_in};
use slots::items::{item_slots, number_in};
use slots::wind::has_wind;

// More bytes than any file has: the largest tower's has 2915.
const FILE_ROOM: usize = 3000;

// More numbers than any report has: those of 32 sections are 192.
const REPORT_ROOM: usize = 220;

// What all lent bytes are before, those of the lent numbers too.
const LENT_BYTE: u8 = 0xa5;

const LENT_NUMBER: u64 = 0xa5a5_a5a5_a5a5_a5a5;

// Stands for the answer that no section is over its allowance.
const NONE_OVER: u64 = 32;

// What a call hands back beside the state: its answer, and a number for all else, lent elements included.
#[derive(Clone, Copy, Debug, PartialEq, Eq)]
pub(crate) struct Told {
    pub answer: Result<(), Refusal>,
    pub rest: u64,
}

impl From<Result<(), Refusal>> for Told {
    ghost from_gives = { λ answer told. (told.answer ≡ answer) × (told.rest ≡ 0) };

    fn from(answer: Result<(), Refusal>) -> Told {
        Told { answer, rest: 0 }
    }
}

// What a call's arguments are drawn for. Where there is no tower, one section on four legs.
#[derive(Clone, Copy, Debug, PartialEq, Eq)]
struct Seen {
    legs: Legs,
    sections: usize,
}

fn seen_of(s: &State) -> Seen
    ensures { result.sections ≤ 32 }
{
    if !is_standing(s) {
        return Seen {
            legs: Legs::Four,
            sections: 1,
        };
    }
    Seen {
        legs: legs_in(s),
        sections: count_in(s),
    }
}

// A number that is held, or any.
fn taken(s: &State, key: Key) -> u16 {
    let items = item_slots(s);
    match held_place(key, items.len()) {
        Some(i) => number_in(&items[i]),
        None => any_number(key),
    }
}

fn call_report(s: &State, key: Key) -> Told {
    let seen = seen_of(s);
    let mut lent = [LENT_NUMBER; REPORT_ROOM];
    let lent = &mut lent[..room(key, 6 * seen.sections, REPORT_ROOM)];
    let answer = report(s, lent);
    Told {
        answer,
        rest: digest_of(lent),
    }
}

fn call_check(s: &State) -> Told {
    let over = check(s).map(|over| over.map_or(NONE_OVER, |i| i as u64));
    Told {
        answer: over.map(|_| ()),
        rest: over.unwrap_or(0),
    }
}

// The length of the tower's file. Where there is no tower, 3.
fn file_length(s: &State) -> usize {
    let mut bytes = [0; FILE_ROOM];
    write(s, &mut bytes).unwrap_or(3)
}

fn call_write(s: &State, key: Key) -> Told {
    let mut lent = [LENT_BYTE; FILE_ROOM];
    let lent = &mut lent[..room(key, file_length(s), FILE_ROOM)];
    let length = write(s, lent);
    Told {
        answer: length.map(|_| ()),
        rest: mix(digest_of(lent), length.unwrap_or(0) as u64),
    }
}

fn call_wind(s: &mut State, key: Key) -> Result<(), Refusal> {
    let seen = seen_of(s);
    let wind = wind_of(key, seen.legs, seen.sections as u64);
    set_wind(s, wind.as_wind())
}

// The call at a place of a list.
pub(crate) fn drawn_call(s: &mut State, list: Key, place: u64) -> Told {
    let key = list.part(place);
    let kind = CallKind::drawn(key, is_standing(s), has_wind(s));
    let key = key.part(2);
    match kind {
        CallKind::Erect { sound } => erect(s, &drawn_file(list, key, sound).bytes).into(),
        CallKind::Hang => {
            let seen = seen_of(s);
            hang(s, hung_item(key, seen.sections as u64)).into()
        }
        CallKind::TakeDown => {
            let number = taken(s, key);
            take_down(s, number).into()
        }
        CallKind::Wind => call_wind(s, key).into(),
        CallKind::Report => call_report(s, key),
        CallKind::Check => call_check(s),
        CallKind::Write => call_write(s, key),
    }
}
