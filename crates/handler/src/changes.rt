// The requests that may change the state. Each function takes the numbers behind the request's word.
ghost use Rattle.requests.specs.Asked.{hang_asked, take_down_asked, wind_asked};
ghost use Rattle.handler.specs.RequestSteps.{RequestSteps};

use crate::arguments::{item_of, number_of, wind_of};
use arrayvec::ArrayVec;
use replies::{Message, Reply};
use service::changes::{hang, set_wind, take_down};
use slots::State;

pub(crate) fn hang_by<'a>(s: &mut State, args: &[u64]) -> Message<'a>
    ensures { RequestSteps (hang_asked args.now) s.old s.new result }
{
    let item = item_of(args)?;
    hang(s, item)?;
    Ok(Reply::Done)
}

pub(crate) fn take_down_by<'a>(s: &mut State, args: &[u64]) -> Message<'a>
    ensures { RequestSteps (take_down_asked args.now) s.old s.new result }
{
    let number = number_of(args)?;
    take_down(s, number)?;
    Ok(Reply::Done)
}

pub(crate) fn wind_by<'a>(s: &mut State, args: &[u64]) -> Message<'a>
    ensures { RequestSteps (wind_asked args.now) s.old s.new result }
{
    let mut pressures = ArrayVec::new();
    let wind = wind_of(args, &mut pressures)?;
    set_wind(s, wind)?;
    Ok(Reply::Done)
}
