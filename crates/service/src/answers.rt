// The calls that ask, and leave the state.
ghost use Rattle.std.specs.Prelude.{[]};
ghost use Rattle.model.specs.Answers.{answer_reply, check_reply, write_reply};
ghost use Rattle.model.specs.Calls as call;
ghost use Rattle.slots.specs.Promises.{Meets};

use model::Refusal;
use slots::State;

// Six numbers per section at the start of out, top first; the rest of out stays.
pub fn report(s: &State, out: &mut [u64]) -> Result<(), Refusal>
    ensures { Meets (call.report out.old) s.now s.now (answer_reply result) out.new }
{
    answer_calls::answers::report(s, out)
}

// The topmost section whose reported shear is above its allowance, or that none is.
pub fn check(s: &State) -> Result<Option<usize>, Refusal>
    ensures { Meets call.check s.now s.now (check_reply result) [] }
{
    answer_calls::answers::check(s)
}

// The tower file at the start of out, and its length; the bytes beyond stay.
pub fn write(s: &State, out: &mut [u8]) -> Result<usize, Refusal>
    ensures { Meets (call.write out.old) s.now s.now (write_reply result) out.new }
{
    answer_calls::answers::write(s, out)
}
