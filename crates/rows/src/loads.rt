// The loads on the sections of a tower under the wind that stands.
ghost use Rattle.rows.specs.Loaded.{CaseOf};

use crate::case::LoadCase;
use areas::ice::Ice;
use areas::iced::IcedSection;
use areas::ranges::measure;
use force::Load;
use force::prepared::Loading;
use force::section::LoadedSection;
use model::Section;
use slots::State;
use slots::head::legs_in;
use slots::sections::{least, section_as};
use slots::wind::{pressure_at, standing_wind};
use units::{Force, Length};

// The load on a section, with the section's height and allowance.
#[derive(Clone, Copy, Debug, PartialEq, Eq, Hash)]
pub(crate) struct SectionLoad {
    pub load: Load,
    pub height: Length,
    pub allowance: Force,
}

impl SectionLoad {
    ghost use Rattle.std.specs.Prelude.{◌≡◌};

    fn new(load: Load, section: &Section) -> SectionLoad
        ensures { (result.load ≡ load) × (result.height ≡ section.now.height) × (result.allowance ≡ section.now.allowance) }
    {
        SectionLoad {
            load,
            height: section.height,
            allowance: section.allowance,
        }
    }
}

// A tower under a wind, as they stand in the slots.
#[derive(Clone, Copy)]
pub struct LoadedTower<'a> {
    pub state: &'a State,
    pub case: LoadCase,
    ghost stands: { CaseOf state.now case },
}

impl<'a> LoadedTower<'a> {
    ghost use Rattle.std.specs.Prelude.{◌≡◌, ◌≤◌, ◌<◌, is_some, IfSome};
    ghost use Rattle.model.specs.Force.{item_sum, largest_items};
    ghost use Rattle.slots.specs.Held.{ground_of, is_windy, count_in, items_in, tower_in, wind_in};
    ghost use Rattle.rows.specs.Loaded.{LoadAt};

    // None where no wind stands.
    pub fn new(state: &'a State) -> Option<LoadedTower<'a>>
        ensures stands { is_some result ≡ is_windy (ground_of state.now) }
        ensures state { IfSome result (λ t. t.state.now ≡ state.now) }
    {
        let wind = standing_wind(state)?;
        let case = LoadCase {
            legs: legs_in(state),
            direction: wind.direction,
            ice: Ice::of_class(wind.ice),
            factor: wind.factor,
        };
        Some(LoadedTower { state, case })
    }

    // Section i, read from its slots, with its items' sum. Its areas are worked out while it is tested.
    pub(crate) fn load(&self, i: usize, items: u64) -> SectionLoad
        requires count { i < count_in self.now.state.now }
        requires items { (items ≡ item_sum self.now.case.ice.thickness i (items_in self.now.state.now)) × (items ≤ largest_items) }
        ensures { LoadAt (tower_in self.now.state.now) (wind_in self.now.state.now) i result }
    {
        let case = self.case;
        let legs = case.legs;
        let ice = case.ice;
        let pressure = pressure_at(self.state, i);
        let loading = Loading {
            direction: case.direction,
            factor: case.factor,
            pressure,
            items,
        };
        let section = section_as(self.state, i);
        if let Some(areas) = measure(ice.thickness, pressure, &section) {
            let iced = IcedSection {
                ice,
                section: &section,
            };
            let on = LoadedSection {
                legs,
                section: iced,
                loading,
            };
            return SectionLoad::new(on.measured_load(areas), &section);
        }
        let section = least();
        let iced = IcedSection {
            ice,
            section: &section,
        };
        let on = LoadedSection {
            legs,
            section: iced,
            loading,
        };
        SectionLoad::new(on.load(), &section)
    }
}
