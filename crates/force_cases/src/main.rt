// Reads cases from standard input, one a line, and prints for each its areas, the items' sum and the force, or what is
// wrong with it first. The last line says how many forces each way decided.
// A line is LEGS K ICE FACTOR PRESSURE WIDTH HEIGHT GROUPCOUNT (KIND SIZE LENGTH)* ITEMCOUNT
// (SECTION WIDTH LENGTH BARE ICED POSITION)*. The case's section is number 0: items on other sections do not count.
#![tactic(auto)]

mod items;
mod wrong;

use crate::items::item_slots;
use crate::wrong::Wrong;
use case_words::case_of;
use case_words::faults::{groups_end, test_case};
use force::{Load, Way};
use lines::input::read_within;
use lines::numbers::lent_numbers;
use slots::items::item_sums;
use std::io;

// What a line holds at most: 8 numbers, those of 8 groups, the number of items and those of 64 items.
const MOST_NUMBERS: usize = 8 + 3 * 8 + 1 + 6 * 64;

const MOST_INPUT: u32 = 500_000;

// The load on the case's section, its items' sum, and what decided the formula's force at full pressure.
#[derive(Clone, Copy, Debug, PartialEq, Eq)]
struct Answer {
    load: Load,
    items: u64,
    way: Way,
}

// How many forces each way decided.
#[derive(Clone, Copy, Debug, Default, PartialEq, Eq)]
struct Counts {
    no_pressure: u64,
    bounds: u64,
    quotient: u64,
    squares: u64,
}

impl Counts {
    fn count(&mut self, way: Way) {
        let count = match way {
            Way::NoPressure => &mut self.no_pressure,
            Way::Bounds => &mut self.bounds,
            Way::Quotient => &mut self.quotient,
            Way::Squares => &mut self.squares,
        };
        *count = count.wrapping_add(1);
    }
}

fn answer_numbers(numbers: &[u64]) -> Result<Answer, Wrong> {
    let case = case_of(numbers);
    let sound = test_case(&case, numbers.len())?;
    let slots = item_slots(numbers, groups_end(&case.section))?;
    let items = item_sums(&slots, sound.iced_section().ice)[0];
    let section = sound.loaded(case.pressure, items);
    Ok(Answer {
        load: section.load(),
        items,
        way: section.formula_load().way,
    })
}

fn answer_line(line: &[u8], numbers: &mut [u64]) -> Result<Answer, Wrong> {
    answer_numbers(lent_numbers(line, numbers)?)
}

fn answer_all(rt: &impl Print, text: &[u8]) -> io::Result<()> {
    let mut numbers = [0; MOST_NUMBERS];
    let mut counts = Counts::default();
    for line in text.split_inclusive(|b| *b == b'\n') {
        match answer_line(line.strip_suffix(b"\n").unwrap_or(line), &mut numbers) {
            Ok(Answer { load, items, way }) => {
                let Load { areas, force } = load;
                counts.count(way);
                println!(rt;
                    "{} {} {} {items} {}",
                    areas.flat.0, areas.subcritical.0, areas.supercritical.0, force.0
                )?;
            }
            Err(wrong) => println!(rt; "error: {wrong}")?,
        }
    }
    println!(rt;
        "decided: {} without pressure, {} by bounds, {} by the quotient, {} by squares",
        counts.no_pressure, counts.bounds, counts.quotient, counts.squares
    )
}

fn main(rt: HostRuntime) -> io::Result<()> {
    let Some(text) = read_within(rt.stdin(), MOST_INPUT, rt.alloc())? else {
        return println!(rt; "error: the input is too long");
    };
    answer_all(&rt, &text)
}
