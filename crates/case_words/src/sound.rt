// A case with which nothing is wrong.
ghost use Rattle.std.specs.Prelude.{◌≡◌, true, ◌≤◌};
ghost use Rattle.model.specs.Areas.{thickness};
ghost use Rattle.areas.specs.Fits.{fits_under};

use crate::Case;
use areas::ice::Ice;
use areas::iced::IcedSection;
use force::prepared::Loading;
use force::section::LoadedSection;
use model::Legs;

// The section stands under the ice.
#[derive(Clone, Copy, Debug, PartialEq, Eq)]
pub struct SoundCase<'a> {
    pub case: &'a Case,
    ghost ice: { case.now.ice ≤ 5 },
    ghost factor: { case.now.factor ≤ 2000 },
    ghost pressure: { case.now.pressure ≤ 5000 },
    ghost stands: { fits_under (thickness case.now.ice) case.now.section ≡ true },
}

impl<'a> SoundCase<'a> {
    ghost use Rattle.model.specs.File.{legs_of};
    ghost use Rattle.model.specs.Force.{largest_items};

    pub fn iced_section(&self) -> IcedSection<'a>
        ensures ice { result.ice.thickness ≡ thickness self.now.case.now.ice }
        ensures section { result.section.now ≡ self.now.case.now.section }
    {
        IcedSection {
            ice: Ice::of_class(self.case.ice),
            section: &self.case.section,
        }
    }

    // The section under this pressure, with this sum of its items.
    pub fn loaded(&self, pressure: u16, items: u64) -> LoadedSection<'a>
        requires { (pressure ≤ 5000) × (items ≤ largest_items) }
        ensures legs { result.legs ≡ legs_of self.now.case.now.legs }
        ensures direction { result.loading.direction ≡ self.now.case.now.direction }
        ensures ice { result.section.ice.thickness ≡ thickness self.now.case.now.ice }
        ensures factor { result.loading.factor ≡ self.now.case.now.factor }
        ensures section { result.section.section.now ≡ self.now.case.now.section }
        ensures pressure { result.loading.pressure ≡ pressure }
        ensures items { result.loading.items ≡ items }
    {
        LoadedSection {
            legs: Legs::from(self.case.legs),
            section: self.iced_section(),
            loading: Loading {
                direction: self.case.direction,
                factor: self.case.factor,
                pressure,
                items,
            },
        }
    }
}
