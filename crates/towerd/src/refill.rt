// Reading into the buffer.
ghost use Rattle.std.specs.Prelude.{◌+◌, ◌≤◌, length, IfSome};
ghost use Rattle.towerd.specs.Buffered.{Buffered};

use crate::Input;
use requests::line::LONGEST;
use std::io::Read;

fn is_long(input: Input) -> bool
    requires { input.at ≤ input.end }
{
    LONGEST < input.end - input.at
}

// How many of the bytes are kept: none of a line that is too long.
fn kept(input: Input) -> usize
    requires { input.at ≤ input.end }
    ensures { input.at + result ≤ input.end }
{
    if is_long(input) {
        0
    } else {
        input.end - input.at
    }
}

// At the end of the input, what is left is a line.
fn last_line(buf: &mut [u8], rest: usize, cut: bool) -> Option<Input>
    requires { rest ≤ length buf.old }
    ensures { IfSome result (λ input. Buffered input buf.new) }
{
    if rest == 0 && !cut {
        return None;
    }
    let mut end = rest;
    if rest < buf.len() {
        buf[rest] = b'\n';
        end += 1;
    }
    Some(Input {
        at: 0,
        end,
        cut,
        ended: true,
    })
}

// More bytes behind those that are not answered, of which none are kept if their line is too long; None where nothing
// is left to answer. A read that fails counts as the end of the input.
pub(crate) fn refill(stdin: &mut impl Read, input: Input, buf: &mut [u8]) -> Option<Input>
    requires { Buffered input buf.old }
    ensures { IfSome result (λ refilled. Buffered refilled buf.new) }
{
    if input.ended {
        return None;
    }
    let cut = input.cut || is_long(input);
    let kept = kept(input);
    buf.copy_within(input.at..input.at + kept, 0);
    let read = stdin.read(&mut buf[kept..]).unwrap_or(0);
    if read == 0 {
        return last_line(buf, kept, cut);
    }
    Some(Input {
        at: 0,
        end: kept + read,
        cut,
        ended: false,
    })
}
