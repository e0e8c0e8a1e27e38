// The service on standard input and output, from a fresh state until the input ends. A request is a line, and its
// answer is written before another request is read; `help` says what the requests are. A line that is too long is
// answered once, at its end. Nothing is taken from the heap, so that memory cannot run out.
#![tactic(auto)]

mod refill;

use crate::refill::refill;
use handler::respond::answer;
use handler::{Buffers, FILE, NUMBERS, ROWS, TEXT};
use replies::text::put_message;
use requests::Fault;
use service::changes::fresh;
use slots::EMPTY;
use std::io;
use std::io::Read;

// The bytes from `at` to `end` of the buffer are read and not answered yet. `cut` says that the start of a line was
// dropped, since it is too long, and `ended` that the input has ended.
#[derive(Clone, Copy, Debug, PartialEq, Eq)]
struct Input {
    at: usize,
    end: usize,
    cut: bool,
    ended: bool,
}

// A line whose start was dropped.
fn refuse_long(rt: &impl Print, out: &mut [u8]) -> io::Result<()> {
    let length = put_message(out, Err(Fault::LongLine.into()));
    rt.write_all(&out[..length])
}

fn serve(
    rt: &impl Print,
    stdin: &mut impl Read,
    buf: &mut [u8],
    buffers: &mut Buffers<'_>,
) -> io::Result<()> {
    let mut state = EMPTY;
    fresh(&mut state);
    let mut input = Input {
        at: 0,
        end: 0,
        cut: false,
        ended: false,
    };
    for _ in 0..u64::MAX {
        let unanswered = &buf[input.at..input.end];
        let Some(length) = unanswered.iter().position(|b| *b == b'\n') else {
            let Some(refilled) = refill(stdin, input, buf) else {
                break;
            };
            input = refilled;
            continue;
        };
        if input.cut {
            refuse_long(rt, buffers.out)?;
        } else {
            answer(rt, &mut state, &unanswered[..length], buffers)?;
        }
        input.at += length + 1;
        input.cut = false;
    }
    Ok(())
}

fn main(rt: HostRuntime) -> io::Result<()> {
    let mut buffers = Buffers {
        numbers: &mut [0; NUMBERS],
        rows: &mut [0; ROWS],
        file: &mut [0; FILE],
        out: &mut [0; TEXT],
    };
    serve(&rt, &mut rt.stdin(), &mut [0; 65536], &mut buffers)
}
