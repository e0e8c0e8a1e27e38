// Document 01's call for a host program in C: erect, wind and report from fresh.
#![tactic(auto)]

mod pressure_bytes;
mod row_bytes;

ghost use Rattle.model.specs.Answers.{answer_number};
ghost use Rattle.host.specs.Promises.{Hosts};

use crate::pressure_bytes::pressures_asked;
use crate::row_bytes::write_report;
use model::numbers::answer_number;
use model::{Refusal, Wind};
use service::changes::{erect, fresh, set_wind};
use slots::EMPTY;
use slots::head::count_in;

// The call, with its refusal.
fn report_rows(
    file: &[u8],
    direction: u32,
    ice: u32,
    factor: u32,
    pressures: &[u8],
    rows: &mut [u8],
) -> Result<(), Refusal>
    ensures { Hosts file.now direction ice factor pressures.now rows.old rows.new (answer_number result) }
{
    let mut state = EMPTY;
    fresh(&mut state);
    erect(&mut state, file)?;
    let pressures = pressures_asked(count_in(&state), pressures);
    let wind = Wind {
        direction,
        ice,
        factor,
        pressures: &pressures,
    };
    set_wind(&mut state, wind)?;
    write_report(&state, rows)
}

// A pressure has 2 bytes and a number of the rows 8, high byte first. The answer is 0, or the number of a refusal,
// which leaves all of rows.
#[unsafe(no_mangle)]
pub extern "C" fn dembyhai_report(
    file: &[u8],
    direction: u32,
    ice: u32,
    factor: u32,
    pressures: &[u8],
    rows: &mut [u8],
) -> u32
    ensures { Hosts file.now direction ice factor pressures.now rows.old rows.new result }
{
    answer_number(report_rows(file, direction, ice, factor, pressures, rows))
}
