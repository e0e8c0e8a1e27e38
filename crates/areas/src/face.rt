// The groups of a section's face.
ghost use Rattle.std.specs.Prelude.{◌≡◌, true, ◌≤◌, length};
ghost use Rattle.model.specs.Lists.{all_of};
ghost use Rattle.model.specs.Valid.{group_fits};

use crate::ice::Ice;
use crate::section::{add_group, group_area};
use model::{Areas, Group};
use units::Area;

// At most 8 groups, each within its ranges.
#[derive(Clone, Copy, Debug, PartialEq, Eq)]
pub struct Face<'a> {
    pub groups: &'a [Group],
    ghost few: { length groups.now ≤ 8 },
    ghost fit: { all_of group_fits groups.now ≡ true },
}

impl<'a> Face<'a> {
    ghost use Rattle.model.specs.Areas.{areas_of, solid_of};
    ghost use Rattle.areas.specs.Sums.{SmallAreas};

    // A_f, A_c and A_p under pressure q.
    pub fn areas(&self, ice: Ice, q: u16) -> Areas
        ensures value { result ≡ areas_of ice.thickness q self.now.groups.now }
        ensures small { SmallAreas result }
    {
        let mut sum = Areas::default();
        for group in self.groups {
            sum = add_group(ice, q, *group, sum);
        }
        sum
    }

    // A_S.
    pub fn solid(&self, ice: Ice) -> Area
        ensures { result ≡ solid_of ice.thickness self.now.groups.now }
    {
        let mut sum = Area::default();
        for group in self.groups {
            sum = sum + group_area(ice, *group);
        }
        sum
    }
}
