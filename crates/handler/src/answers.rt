// The requests that change nothing in the state. Each function takes the numbers behind the request's word.
ghost use Rattle.std.specs.Prelude.{length};
ghost use Rattle.requests.specs.Asked.{report_asked, check_asked, write_asked, help_asked};
ghost use Rattle.slots.specs.Held.{Slots};
ghost use Rattle.handler.specs.RequestSteps.{RequestSteps};

use crate::arguments::{exactly, room_of};
use replies::{Message, Reply};
use service::answers::{check, report, write};
use slots::State;
use slots::head::count_in;

pub(crate) fn report_by<'a>(s: &State, args: &[u64], rows: &'a mut [u64]) -> Message<'a>
    ensures { RequestSteps (report_asked (length rows.old) args.now) s.now s.now result }
{
    let room = room_of(args, rows.len())?;
    report(s, &mut rows[..room])?;
    Ok(Reply::Rows(&rows[..6 * count_in(s)]))
}

pub(crate) fn check_by<'a>(s: &State, args: &[u64]) -> Message<'a>
    ensures { RequestSteps (check_asked args.now) s.now s.now result }
{
    exactly::<0>(args)?;
    Ok(Reply::Over(check(s)?))
}

pub(crate) fn write_by<'a>(s: &State, args: &[u64], file: &'a mut [u8]) -> Message<'a>
    ensures { RequestSteps (write_asked (length file.old) args.now) s.now s.now result }
{
    let room = room_of(args, file.len())?;
    let length = write(s, &mut file[..room])?;
    Ok(Reply::File(&file[..length]))
}

pub(crate) fn help_by<'a>(args: &[u64]) -> Message<'a>
    ensures { (s : Slots) → RequestSteps (help_asked args.now) s s result }
{
    exactly::<0>(args)?;
    Ok(Reply::Help)
}
