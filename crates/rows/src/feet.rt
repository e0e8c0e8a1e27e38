// Shear and moment from foot to foot.
ghost use Rattle.std.specs.Prelude.{◌*◌, ◌^◌, ◌≤◌};
ghost use Rattle.model.specs.Force.{largest_force};
ghost use Rattle.rows.specs.Loaded.{NextFoot};

use units::{Force, Length, Moment};

// Shear and moment at the foot of a section.
#[derive(Clone, Copy, Debug, PartialEq, Eq, Hash, Default)]
pub(crate) struct Foot {
    pub shear: Force,
    pub moment: Moment,
}

impl Foot {
    // The foot of a section of this height below this one, under this force at its mid-height.
    pub(crate) fn below(self, force: Force, height: Length) -> Foot
        requires { (self.shear.0 ≤ 31 * largest_force) × (self.moment.0 ≤ 2 ^ 60) × (force.0 ≤ largest_force) × (height.0 ≤ 10_000) }
        ensures { NextFoot self force height result }
    {
        let half = Length(height.0 / 2);
        Foot {
            shear: self.shear + force,
            moment: self.moment + self.shear * height + force * half,
        }
    }
}
