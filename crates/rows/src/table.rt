// The report's rows, and the topmost section whose shear is above its allowance.
ghost use Rattle.std.specs.Prelude.{◌≡◌, ◌++◌, ◌*◌, ◌≤◌, length, drop, option_to_list};
ghost use Rattle.model.specs.Report as report;
ghost use Rattle.slots.specs.Held.{count_in, tower_in, wind_in};
ghost use Rattle.rows.specs.Loaded.{row_of};

use crate::feet::Foot;
use crate::loads::LoadedTower;
use force::Load;
use slots::head::count_in;
use slots::items::{item_slots, item_sums};
use units::Force;

// The six numbers of one section, into its part of the lent slice.
fn write_row(part: &mut [u64], load: Load, foot: Foot)
    requires { length part.old ≡ 6 }
    ensures { part.new ≡ row_of load foot }
{
    part.copy_from_slice(&[
        load.areas.flat.0,
        load.areas.subcritical.0,
        load.areas.supercritical.0,
        load.force.0,
        foot.shear.0,
        foot.moment.0,
    ]);
}

// An allowance of 0 says that none is stated.
#[tactic(auto, unfolding(model::specs::Report::exceeds))]
fn exceeds(shear: Force, allowance: Force) -> bool
    ensures { result ≡ report.exceeds shear allowance }
{
    allowance.0 != 0 && allowance < shear
}

impl<'a> LoadedTower<'a> {
    // The rows at the start of out, top first; the rest of out stays.
    pub fn write_rows(&self, out: &mut [u64])
        requires { 6 * count_in self.now.state.now ≤ length out.old }
        ensures { out.new
            ≡ report.rows_of (tower_in self.now.state.now) (wind_in self.now.state.now) ++ drop (6 * count_in self.now.state.now) out.old }
    {
        let sums = item_sums(item_slots(self.state), self.case.ice);
        let mut foot = Foot::default();
        for i in 0..count_in(self.state) {
            let own = self.load(i, sums[i]);
            foot = foot.below(own.load.force, own.height);
            write_row(&mut out[6 * i..6 * i + 6], own.load, foot);
        }
    }

    // The topmost section whose reported shear is above its allowance.
    pub fn section_over(&self) -> Option<usize>
        ensures { option_to_list result ≡ report.topmost_over (tower_in self.now.state.now) (wind_in self.now.state.now) }
    {
        let sums = item_sums(item_slots(self.state), self.case.ice);
        let mut shear = Force(0);
        for i in 0..count_in(self.state) {
            let section = self.load(i, sums[i]);
            shear = shear + section.load.force;
            if exceeds(shear, section.allowance) {
                return Some(i);
            }
        }
        None
    }
}
