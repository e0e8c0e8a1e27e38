// Runs 2000 drawn lists of 100 calls each, sound and damaged, each list on a service that is fresh at its start, and
// prints for each a line
//     list PLACE ACCEPTED DIGEST
// with how many of its calls were accepted, and a digest of all answers and of every lent byte and number. Then it
// prints how often each answer came over all lists, 0 for an accepted call:
//     answer NUMBER COUNT
// Then it runs a list of 3 000 000 hangings and take-downs on one tower under a wind, at whose end the items of its
// start hang again in another order. It prints the report before the list, within it and after it, a line `start`,
// `amid` or `end` for each section's row and then a digest; how often each answer came, as `million NUMBER COUNT`; and,
// as `equal COUNT`, how many of the 36 numbers of the first report and the last are equal. Last it puts another tower
// under 15 001 winds, one after the other, each with 1 N/m² more on one section. It prints the report at every 1 000
// N/m², a line `pressed` for each section's row; a digest of all reports; and, as `compared MORE SAME LESS`, how many
// forces, shears and moments were more than in the report before, the same, and less.
#![tactic(auto)]

mod calls;
mod million;
mod pressures;
mod runs;
mod sites;

use crate::calls::drawn_call;
use crate::million::{DRAWN, HUNG, MILLION, NUMBERS, drawn_step, start};
use crate::pressures::{Counts, PRINTED, WINDS, press, standing};
use crate::runs::Run;
use draws::keys::Key;
use lines::digest::{START, digest_of, mix};
use model::numbers::ANSWERS;
use service::answers::report;
use service::changes::{fresh, hang, take_down};
use slots::{EMPTY, State};
use std::io;

// The key of all lists.
const ALL_LISTS: Key = Key(1);

fn print_counts(rt: &impl Print, name: &str, counts: &[u64; ANSWERS]) -> io::Result<()> {
    for (number, count) in counts.iter().enumerate() {
        if 0 < *count {
            println!(rt; "{name} {number} {count}")?;
        }
    }
    Ok(())
}

fn run_lists(rt: &impl Print) -> io::Result<()> {
    let mut state = EMPTY;
    let mut run = Run::new();
    for number in 0..2000 {
        fresh(&mut state);
        let list = ALL_LISTS.part(number);
        let before = run.counts[0];
        run.digest = START;
        for place in 0..100 {
            run.add(drawn_call(&mut state, list, place));
        }
        let accepted = run.counts[0].wrapping_sub(before);
        println!(rt; "list {number} {accepted} {}", run.digest)?;
    }
    print_counts(rt, "answer", &run.counts)
}

// A line for each row of six numbers.
fn print_rows(rt: &impl Print, name: &str, rows: &[u64]) -> io::Result<()> {
    for row in rows.chunks_exact(6) {
        print!(rt; "{name}")?;
        for number in row {
            print!(rt; " {number}")?;
        }
        println!(rt)?;
    }
    Ok(())
}

// The numbers of a report.
fn rows_of<const N: usize>(s: &State) -> [u64; N] {
    let mut rows = [0; N];
    let _ = report(s, &mut rows);
    rows
}

fn print_report(rt: &impl Print, name: &str, rows: &[u64]) -> io::Result<()> {
    print_rows(rt, name, rows)?;
    println!(rt; "digest {}", digest_of(rows))
}

fn print_million(rt: &impl Print) -> io::Result<()> {
    let mut state = start();
    let first: [u64; 36] = rows_of(&state);
    print_report(rt, "start", &first)?;
    let mut run = Run::new();
    for place in 0..DRAWN {
        run.add(drawn_step(&mut state, place).into());
    }
    let amid: [u64; 36] = rows_of(&state);
    print_report(rt, "amid", &amid)?;
    for number in 0..NUMBERS {
        run.add(take_down(&mut state, number).into());
    }
    for number in (0..HUNG).rev() {
        run.add(hang(&mut state, MILLION.item(number)).into());
    }
    let last: [u64; 36] = rows_of(&state);
    print_report(rt, "end", &last)?;
    print_counts(rt, "million", &run.counts)?;
    let equal = first.iter().zip(&last).filter(|(a, b)| a == b).count();
    println!(rt; "equal {equal}")
}

fn print_pressures(rt: &impl Print) -> io::Result<()> {
    let mut state = standing();
    let mut counts = Counts::default();
    let mut digest = START;
    let mut before: Option<[u64; 18]> = None;
    for place in 0..WINDS {
        press(&mut state, place);
        let rows = rows_of(&state);
        digest = rows
            .iter()
            .fold(digest, |digest, number| mix(digest, *number));
        if place % PRINTED == 0 {
            print_rows(rt, "pressed", &rows)?;
        }
        if let Some(before) = before {
            counts.compare(&before, &rows);
        }
        before = Some(rows);
    }
    println!(rt; "digest {digest}")?;
    let Counts { more, same, less } = counts;
    println!(rt; "compared {more} {same} {less}")
}

fn main(rt: HostRuntime) -> io::Result<()> {
    run_lists(&rt)?;
    print_million(&rt)?;
    print_pressures(&rt)
}
