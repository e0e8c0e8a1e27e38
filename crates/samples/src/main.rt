// Document 01's sample towers as a session with the service: requests from standard input, each printed behind `> ` and
// followed by its answer. A line that starts with # is a title and is printed as it stands.
#![tactic(auto)]

use handler::respond::answer;
use handler::{Buffers, FILE, NUMBERS, ROWS, TEXT};
use lines::input::read_within;
use service::changes::fresh;
use slots::EMPTY;
use std::io;

const MOST_INPUT: u32 = 100_000;

fn print_line(rt: &impl Print, line: &[u8]) -> io::Result<()> {
    rt.write_all(line)?;
    rt.write_all(b"\n")
}

fn answer_all(rt: &impl Print, text: &[u8], buffers: &mut Buffers<'_>) -> io::Result<()> {
    let mut state = EMPTY;
    fresh(&mut state);
    for line in text.split_inclusive(|b| *b == b'\n') {
        let line = line.strip_suffix(b"\n").unwrap_or(line);
        if line.starts_with(b"#") {
            print_line(rt, line)?;
        } else {
            rt.write_all(b"> ")?;
            print_line(rt, line)?;
            answer(rt, &mut state, line, buffers)?;
        }
    }
    Ok(())
}

fn main(rt: HostRuntime) -> io::Result<()> {
    let Some(text) = read_within(rt.stdin(), MOST_INPUT, rt.alloc())? else {
        return println!(rt; "error: the input is too long");
    };
    let mut buffers = Buffers {
        numbers: &mut [0; NUMBERS],
        rows: &mut [0; ROWS],
        file: &mut [0; FILE],
        out: &mut [0; TEXT],
    };
    answer_all(&rt, &text, &mut buffers)
}
