// The report of a host program.
ghost use Rattle.std.specs.Prelude.{◌≡◌};
ghost use Rattle.std.proofs.Math.Option.{some};
ghost use Rattle.model.specs.Answers.{answer_number};
ghost use Rattle.model.specs.Tower as model;
ghost use Rattle.model.specs.Machine.{standing};
ghost use Rattle.slots.specs.Held.{state_of};
ghost use Rattle.host.specs.Promises.{RowsLent};

use file_parts::parts::write_each;
use model::Refusal;
use service::answers::report;
use slots::State;
use slots::head::count_in;

// The rows of a tower under a wind, 8 bytes a number; the bytes beyond them stay.
pub(crate) fn write_report(s: &State, rows: &mut [u8]) -> Result<(), Refusal>
    ensures { (t : model.Tower) (w : model.Wind) → state_of s.now ≡ standing t (some w) → RowsLent t w rows.old rows.new (answer_number result) }
{
    let count = count_in(s);
    if rows.len() < 48 * count {
        return Err(Refusal::OutputShort);
    }
    // six for each of 32 sections
    let mut numbers = [0; 192];
    report(s, &mut numbers)?;
    write_each(rows, &numbers[..6 * count]);
    Ok(())
}
