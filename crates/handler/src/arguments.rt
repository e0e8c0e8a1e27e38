// A call's arguments, from the numbers behind the request's word, or what is wrong with them.
ghost use Rattle.std.specs.Prelude.{◌≡◌, ◌≤◌, ℕ, IfOk};
ghost use Rattle.arrayvec.specs.ArrayVec.{array_vec_len};
ghost use Rattle.model.specs.Tower.{wind_of};
ghost use Rattle.model.specs.Calls as call;
ghost use Rattle.requests.specs.Asked.{Asked, called, counted, hang_asked, take_down_asked, wind_asked, room_at};
ghost use Rattle.handler.specs.Arguments.{asked_for};

use crate::PRESSURES;
use arrayvec::ArrayVec;
use model::{Item, Wind};
use requests::Fault;
use units::Length;

// N numbers.
pub(crate) fn exactly<const N: usize>(args: &[u64]) -> Result<&[u64; N], Fault>
    ensures asks { (a : Asked) → asked_for (λ _. a) result ≡ counted N N args.now a }
    ensures same { IfOk result (λ array. array.now ≡ args.now) }
{
    match <&[u64; N]>::try_from(args) {
        Ok(array) => Ok(array),
        Err(_) if args.len() < N => Err(Fault::FewWords),
        Err(_) => Err(Fault::ManyWords),
    }
}

#[tactic(auto, unfolding(requests::specs::Asked::hang_asked))]
pub(crate) fn item_of(args: &[u64]) -> Result<Item, Fault>
    ensures { asked_for (λ it. called (call.hang it)) result ≡ hang_asked args.now }
{
    let [number, section, width, length, bare, iced, position] = *exactly::<7>(args)?;
    Ok(Item {
        number: u16::try_from(number)?,
        section: u8::try_from(section)?,
        width: Length(u32::try_from(width)?),
        length: Length(u32::try_from(length)?),
        bare: u16::try_from(bare)?,
        iced: u16::try_from(iced)?,
        position: u16::try_from(position)?,
    })
}

#[tactic(auto, unfolding(requests::specs::Asked::take_down_asked))]
pub(crate) fn number_of(args: &[u64]) -> Result<u16, Fault>
    ensures { asked_for (λ n. called (call.take_down n)) result ≡ take_down_asked args.now }
{
    let [number] = *exactly::<1>(args)?;
    Ok(u16::try_from(number)?)
}

// How many elements are lent: as many as the number says where there is one, and never more than `most`.
pub(crate) fn room_of(args: &[u64], most: usize) -> Result<usize, Fault>
    ensures asks { (as_asked : ℕ → Asked) → asked_for as_asked result ≡ counted 0 1 args.now (as_asked (room_at most args.now)) }
    ensures most { IfOk result (λ n. n ≤ most) }
{
    match args {
        [] => Ok(most),
        [room] => Ok((*room).min(most as u64) as usize),
        _ => Err(Fault::ManyWords),
    }
}

// The wind's pressures are put into `pressures`.
#[tactic(auto, unfolding(requests::specs::Asked::wind_asked))]
pub(crate) fn wind_of<'a>(
    args: &[u64],
    pressures: &'a mut ArrayVec<u16, PRESSURES>,
) -> Result<Wind<'a>, Fault>
    requires { array_vec_len pressures.old ≡ 0 }
    ensures { asked_for (λ w. called (call.wind (wind_of w))) result ≡ wind_asked args.now }
{
    let [direction, ice, factor, asked @ ..] = args else {
        return Err(Fault::FewWords);
    };
    if PRESSURES < asked.len() {
        return Err(Fault::ManyWords);
    }
    for q in asked {
        pressures.push(u16::try_from(*q)?);
    }
    Ok(Wind {
        direction: u32::try_from(*direction)?,
        ice: u32::try_from(*ice)?,
        factor: u32::try_from(*factor)?,
        pressures,
    })
}
