// The calls that ask, and change nothing in the state.
ghost use Rattle.std.specs.Prelude.{◌≡◌, [], IfOk, IfErr};
ghost use Rattle.std.proofs.Math.Option.{some};
ghost use Rattle.model.specs.Answers.{refusal_number, answer_reply, check_reply, write_reply};
ghost use Rattle.model.specs.Machine.{standing};
ghost use Rattle.model.specs.Calls as call;
ghost use Rattle.slots.specs.Held as held;
ghost use Rattle.slots.specs.Held.{state_of, wind_in};
ghost use Rattle.slots.specs.Promises.{Meets};

use crate::tower::tower_in;
use model::Refusal;
use rows::loads::LoadedTower;
use slots::State;
use slots::head::{count_in, expect_tower};

// The tower under its wind, or which of the two does not stand.
fn loaded_tower(s: &State) -> Result<LoadedTower<'_>, Refusal>
    ensures refused { IfErr result (λ e. refusal_number e ≡ call.refusal_of (state_of s.now) call.check) }
    ensures loaded { IfOk result (λ t. (t.state.now ≡ s.now) × (state_of s.now ≡ standing (held.tower_in s.now) (some (wind_in s.now)))) }
{
    expect_tower(s)?;
    LoadedTower::new(s).ok_or(Refusal::NoWind)
}

// Six numbers per section at the start of out, top first; the rest of out stays.
pub fn report(s: &State, out: &mut [u64]) -> Result<(), Refusal>
    ensures { Meets (call.report out.old) s.now s.now (answer_reply result) out.new }
{
    let tower = loaded_tower(s)?;
    if out.len() < 6 * count_in(s) {
        return Err(Refusal::OutputShort);
    }
    tower.write_rows(out);
    Ok(())
}

// The topmost section whose reported shear is above its allowance, or that none is.
pub fn check(s: &State) -> Result<Option<usize>, Refusal>
    ensures { Meets call.check s.now s.now (check_reply result) [] }
{
    Ok(loaded_tower(s)?.section_over())
}

// The tower file at the start of out, and its length; the bytes beyond stay.
pub fn write(s: &State, out: &mut [u8]) -> Result<usize, Refusal>
    ensures { Meets (call.write out.old) s.now s.now (write_reply result) out.new }
{
    expect_tower(s)?;
    tower_file::file::write(&tower_in(s), out)
}
