// The step of a whole line.
ghost use Rattle.std.specs.Prelude.{ℕ, length};
ghost use Rattle.requests.specs.Asked.{asked_by, asked_in};
ghost use Rattle.requests.specs.Decoded.{room_of};
ghost use Rattle.handler.specs.RequestSteps.{RequestSteps};

use crate::answers::{check_by, help_by, report_by, write_by};
use crate::changes::{hang_by, take_down_by, wind_by};
use replies::{Message, Reply};
use requests::line::lent_request;
use requests::{Request, Verb};
use service::changes::erect;
use slots::State;

// A request whose arguments are numbers.
#[tactic(auto, unfolding(requests::specs::Asked::asked_by))]
fn step_by<'a>(
    s: &mut State,
    verb: Verb,
    args: &[u64],
    rows: &'a mut [u64],
    file: &'a mut [u8],
) -> Message<'a>
    ensures { (most : ℕ)
        → RequestSteps (asked_by (room_of most (length rows.old) (length file.old)) verb args.now) s.old s.new result }
{
    match verb {
        Verb::Hang => hang_by(s, args),
        Verb::TakeDown => take_down_by(s, args),
        Verb::Wind => wind_by(s, args),
        Verb::Report => report_by(s, args, rows),
        Verb::Check => check_by(s, args),
        Verb::Write => write_by(s, args, file),
        Verb::Help => help_by(args),
    }
}

// A line, without its end. `file` takes the bytes of an erect and those of a write.
pub(crate) fn step_line<'a>(
    s: &mut State,
    line: &[u8],
    numbers: &mut [u64],
    rows: &'a mut [u64],
    file: &'a mut [u8],
) -> Message<'a>
    ensures { RequestSteps (asked_in (room_of (length numbers.old) (length rows.old) (length file.old)) line.now)
        s.old s.new result }
{
    match lent_request(line, numbers, file)? {
        Request::Numbered(verb, args) => step_by(s, verb, args, rows, file),
        Request::Erect(bytes) => {
            erect(s, bytes)?;
            Ok(Reply::Done)
        }
    }
}
