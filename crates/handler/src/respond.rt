// The answer to a line, as text.
ghost use Rattle.std.specs.Prelude.{◌≡◌, length, IfOk};
ghost use Rattle.requests.specs.Asked.{asked_in};
ghost use Rattle.requests.specs.Decoded.{room_of};
ghost use Rattle.slots.specs.Held.{state_of};
ghost use Rattle.handler.specs.RequestSteps.{after};
ghost use Rattle.handler.specs.Responds.{room_in, Responds, AnswerLength, SameSlices};

use crate::Buffers;
use crate::step::step_line;
use replies::text::put_message;
use slots::State;
use std::io;

// The slices apart: the message borrows from two of them, and what a call lends of a struct's field is not known to be
// as long afterwards.
fn put_answer(
    s: &mut State,
    line: &[u8],
    numbers: &mut [u64],
    rows: &mut [u64],
    file: &mut [u8],
    out: &mut [u8],
) -> usize
    ensures { Responds (asked_in (room_of (length numbers.old) (length rows.old) (length file.old)) line.now)
        s.old s.new out.old out.new result }
{
    let message = step_line(s, line, numbers, rows, file);
    put_message(out, message)
}

// A line, without its end. The answer is put at the start of `out`, and its length is returned.
pub fn respond(s: &mut State, line: &[u8], buffers: &mut Buffers<'_>) -> usize
    ensures responds { Responds (asked_in (room_in buffers.old) line.now) s.old s.new
        buffers.old.out.now buffers.new.out.now result }
    ensures same { SameSlices buffers.old buffers.new }
{
    put_answer(
        s,
        line,
        buffers.numbers,
        buffers.rows,
        buffers.file,
        buffers.out,
    )
}

// Writes the answer to a line, and returns its length. What the line does to the state is done also where the answer
// cannot be written.
pub fn answer(
    rt: &impl Print,
    s: &mut State,
    line: &[u8],
    buffers: &mut Buffers<'_>,
) -> io::Result<usize>
    ensures long { IfOk result (AnswerLength (asked_in (room_in buffers.old) line.now) s.old
        (length buffers.old.out.now)) }
    ensures state { state_of s.new ≡ after (state_of s.old) (asked_in (room_in buffers.old) line.now) }
    ensures same { SameSlices buffers.old buffers.new }
{
    let length = respond(s, line, buffers);
    rt.write_all(&buffers.out[..length])?;
    Ok(length)
}
