// Calls of the service, many times in one call, for a benchmark. Each function erects the file on a fresh service and
// sets the wind before it repeats a call, and answers how many of the repeated calls are accepted, modulo 2^64.
#![tactic(auto)]

ghost use Rattle.std.specs.Prelude.{◌≡◌, ◌+◌, ◌%◌, ◌^◌, ◌≤◌};
ghost use Rattle.model.specs.Answers.{answer_number};
ghost use Rattle.model.specs.Tower.{wind_of};
ghost use Rattle.slots.specs.Held.{state_of};
ghost use Rattle.slots.specs.Promises.{wind_asked};
ghost use Rattle.call_bench.specs.Repeated.{windy, once, dish, first_in, After, Repeats, hang_round, first_round, erect_round, Reported, Hung, Erected, FirstDown};

use model::{Item, Refusal, Wind};
use service::answers::report;
use service::changes::{erect, fresh, hang, set_wind, take_down};
use slots::head::is_standing;
use slots::items::{item_of, item_slots};
use slots::{EMPTY, State};
use units::Length;

// A fresh service with the tower of the file in the wind. A call that is turned down leaves the state, so that all
// after it may be turned down too.
fn windy(file: &[u8], wind: Wind) -> State
    ensures { state_of result ≡ windy file.now (wind_of wind.entry) }
{
    let mut state = EMPTY;
    fresh(&mut state);
    let _ = erect(&mut state, file);
    let _ = set_wind(&mut state, wind);
    state
}

// 1 where the call is accepted.
fn once(answer: Result<(), Refusal>) -> u64
    ensures { (result ≡ once (answer_number answer)) × (result ≤ 1) }
{
    u64::from(answer.is_ok())
}

// A dish on the topmost section.
fn dish(number: u16) -> Item
    ensures { result ≡ dish number }
{
    Item {
        number,
        section: 0,
        width: Length(1200),
        length: Length(1200),
        bare: 1200,
        iced: 1500,
        position: 900,
    }
}

// The item that was hung first, or a dish where none hangs.
fn first_of(s: &State) -> Item
    ensures { result ≡ first_in (state_of s.now) }
{
    match item_slots(s).first() {
        Some(slot) if is_standing(s) => item_of(slot),
        _ => dish(0),
    }
}

// So many rounds in the wind: how many of their calls are accepted. Each is given its number and answers how many of
// its own are.
fn repeated<F: Fn(&mut State, u64) -> u64>(file: &[u8], wind: Wind, rounds: u64, round: F) -> u64
    requires { F.IsAlwaysCallable round }
    ensures { Repeats F.Fn round (windy file.now (wind_of wind.entry)) rounds result }
{
    let mut state = windy(file, wind);
    let mut accepted: u64 = 0;
    for i in 0..rounds {
        accepted = accepted.wrapping_add(round(&mut state, i));
    }
    accepted
}

// Hangs a dish and takes it down again. Its number is the round's modulo 1000.
fn hang_round(state: &mut State, round: u64) -> u64
    ensures { After (state_of state.old) (hang_round round) state.new result }
{
    let number = (round % 1000) as u16;
    once(hang(state, dish(number))) + once(take_down(state, number))
}

// Takes down the item that was hung first and hangs it again.
fn first_round(state: &mut State, _round: u64) -> u64
    ensures { After (state_of state.old) (first_round (state_of state.old)) state.new result }
{
    let first = first_of(state);
    once(take_down(state, first.number)) + once(hang(state, first))
}

// The state as it is, in another place.
fn keep(s: &State, kept: &mut State)
    ensures { kept.new ≡ s.now }
{
    *kept = *s;
}

// Reports into out so many times, in a loop of its own since the contract tells what is left in out.
#[unsafe(no_mangle)]
pub extern "C" fn report_bench(
    file: &[u8],
    direction: u32,
    ice: u32,
    factor: u32,
    pressures: &[u16],
    rounds: u64,
    out: &mut [u64],
) -> u64
    ensures { Reported (windy file.now (wind_asked direction ice factor pressures.now)) rounds out.old out.new result }
{
    let wind = Wind {
        direction,
        ice,
        factor,
        pressures,
    };
    let state = windy(file, wind);
    let mut accepted: u64 = 0;
    for _ in 0..rounds {
        accepted = accepted.wrapping_add(once(report(&state, out)));
    }
    accepted
}

// Hangs a dish and takes it down again, so many times.
#[unsafe(no_mangle)]
pub extern "C" fn hang_bench(
    file: &[u8],
    direction: u32,
    ice: u32,
    factor: u32,
    pressures: &[u16],
    rounds: u64,
) -> u64
    ensures { Hung (windy file.now (wind_asked direction ice factor pressures.now)) rounds result }
{
    let wind = Wind {
        direction,
        ice,
        factor,
        pressures,
    };
    repeated(file, wind, rounds, hang_round)
}

// Takes down the item that was hung first and hangs it again, so many times.
#[unsafe(no_mangle)]
pub extern "C" fn first_down_bench(
    file: &[u8],
    direction: u32,
    ice: u32,
    factor: u32,
    pressures: &[u16],
    rounds: u64,
) -> u64
    ensures { FirstDown (windy file.now (wind_asked direction ice factor pressures.now)) rounds result }
{
    let wind = Wind {
        direction,
        ice,
        factor,
        pressures,
    };
    repeated(file, wind, rounds, first_round)
}

// Erects the file so many times more.
#[unsafe(no_mangle)]
pub extern "C" fn erect_bench(
    file: &[u8],
    direction: u32,
    ice: u32,
    factor: u32,
    pressures: &[u16],
    rounds: u64,
) -> u64
    ensures { Erected (windy file.now (wind_asked direction ice factor pressures.now)) file.now rounds result }
{
    let wind = Wind {
        direction,
        ice,
        factor,
        pressures,
    };
    repeated(
        file,
        wind,
        rounds,
        |state: &mut State, round: u64| -> u64
            ensures { After (state_of state.old) (erect_round file.entry.now) state.new result }
        { once(erect(state, file)) },
    )
}

// Copies the state so many times, and reports once from the last copy.
#[unsafe(no_mangle)]
pub extern "C" fn keep_bench(
    file: &[u8],
    direction: u32,
    ice: u32,
    factor: u32,
    pressures: &[u16],
    rounds: u64,
    out: &mut [u64],
) -> u64
    ensures { Reported (windy file.now (wind_asked direction ice factor pressures.now)) 1 out.old out.new result }
{
    let wind = Wind {
        direction,
        ice,
        factor,
        pressures,
    };
    let state = windy(file, wind);
    let mut kept = state;
    for _ in 0..rounds {
        keep(&state, &mut kept);
    }
    once(report(&kept, out))
}
