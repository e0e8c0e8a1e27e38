// Reads tower files from standard input, one a line, and prints for each what the reader and the writer make of it.
// A line is one of
//     f B B ..        the file of these bytes; the lines after it have it as their base file
//     c N             the first N bytes of the base file
//     s AT B AT B ..  the base file with the byte at AT replaced by B, for each pair
//     a B B ..        the base file with these bytes behind it
//     r N             the base file, whose tower is written into N lent bytes
// The answer is `refused N`, with document 01's number, or `ok LENGTH TOWER OUT`: the length that write answers, a
// digest of the tower, and one of LENGTH + 5 lent bytes, all 165 before, into which it is written. For r it is
// `ok LENGTH OUT`, or `refused 22 OUT` where they are too few. A file, and what is lent, has at most 4000 bytes. Any
// other line is answered by what is wrong with it first.
#![tactic(auto)]

mod answers;
mod cases;
mod digest;
mod files;
mod wrong;

use crate::answers::{Answer, answer_file, answer_room};
use crate::cases::{Kind, kind_of, numbers_in};
use crate::files::{File, MOST_BYTES, at_most, bytes_of, changed, longer};
use crate::wrong::Wrong;
use lines::input::read_within;
use std::io;

const MOST_INPUT: u32 = 500_000;

// f makes its file the base.
fn answer_line(line: &[u8], base: &mut File) -> Result<Answer, Wrong> {
    let kind = kind_of(line).ok_or(Wrong::Case)?;
    let mut numbers = [0; MOST_BYTES];
    let numbers = numbers_in(kind, line, &mut numbers)?;
    match kind {
        Kind::File => {
            *base = bytes_of(numbers)?;
            answer_file(base)
        }
        Kind::First => answer_file(&base[..at_most(base.len(), numbers)?]),
        Kind::Changed => answer_file(&changed(base, numbers)?),
        Kind::Longer => answer_file(&longer(base, numbers)?),
        Kind::Room => answer_room(base, at_most(MOST_BYTES, numbers)?),
    }
}

fn answer_all(rt: &impl Print, text: &[u8]) -> io::Result<()> {
    let mut base = File::new();
    for line in text.split_inclusive(|b| *b == b'\n') {
        match answer_line(line.strip_suffix(b"\n").unwrap_or(line), &mut base) {
            Ok(answer) => println!(rt; "{answer}")?,
            Err(wrong) => println!(rt; "{wrong}")?,
        }
    }
    Ok(())
}

fn main(rt: HostRuntime) -> io::Result<()> {
    let Some(text) = read_within(rt.stdin(), MOST_INPUT, rt.alloc())? else {
        return println!(rt; "error: the input is too long");
    };
    answer_all(&rt, &text)
}
