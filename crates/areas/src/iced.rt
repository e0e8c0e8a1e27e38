// A section under its ice.
ghost use Rattle.std.specs.Prelude.{◌≡◌, true};
ghost use Rattle.areas.specs.Fits.{fits_under};

use crate::face::Face;
use crate::ice::Ice;
use crate::section::gross_area;
use model::Section;
use units::Area;

// A section that stands under the ice: it is within its ranges, and A_S is at most A_u.
#[derive(Clone, Copy, Debug, PartialEq, Eq)]
pub struct IcedSection<'a> {
    pub ice: Ice,
    pub section: &'a Section,
    ghost stands: { fits_under ice.thickness section.now ≡ true },
}

impl<'a> IcedSection<'a> {
    ghost use Rattle.std.specs.Prelude.{◌≤◌};
    ghost use Rattle.model.specs.Tower.{section_of};
    ghost use Rattle.model.specs.Areas.{gross, largest_gross};

    pub fn face(&self) -> Face<'a>
        ensures { result.groups.now ≡ (section_of self.now.section.now).groups }
    {
        Face {
            groups: &self.section.groups,
        }
    }

    // A_u.
    pub fn gross(&self) -> Area
        ensures value { result ≡ gross (section_of self.now.section.now) }
        ensures small { result.0 ≤ largest_gross }
    {
        gross_area(self.section)
    }
}
