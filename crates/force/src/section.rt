// The areas of a section's face and the force on it.
ghost use Rattle.std.specs.Prelude.{◌≡◌, ◌≤◌};

use crate::face::FaceAreas;
use crate::prepared::Loading;
use crate::{Decided, Load};
use areas::iced::IcedSection;
use model::{Areas, Legs};
use units::Force;

// A section of a tower on so many legs, which stands under its ice, and what loads it.
#[derive(Clone, Copy, Debug, PartialEq, Eq)]
pub struct LoadedSection<'a> {
    pub legs: Legs,
    pub section: IcedSection<'a>,
    pub loading: Loading,
}

impl<'a> LoadedSection<'a> {
    ghost use Rattle.exact.specs.Number.{only, Least};
    ghost use Rattle.force.specs.Loaded.{in_wind, areas_in, formula_in, Loaded};

    // The section's areas in a wind of this pressure.
    fn areas(&self, pressure: u16) -> Areas
        ensures { result ≡ areas_in (in_wind self.now) pressure }
    {
        self.section.face().areas(self.section.ice, pressure)
    }

    // What document 01's formula gives in a wind of this pressure, rounded up; `areas` are the section's then.
    #[tactic(auto, using(crate::proofs::Loads::solid_known, crate::proofs::Loads::formula_least))]
    fn formula_force(&self, pressure: u16, areas: Areas) -> Decided<Force>
        requires { (pressure ≤ 5000) × (areas ≡ areas_in (in_wind self.now) pressure) }
        ensures { Least (only (formula_in (in_wind self.now) pressure)) result.value.0 }
    {
        let face = FaceAreas {
            legs: self.legs,
            areas,
            gap: self.section.gross() - areas.solid(),
        };
        face.prepare().force_in(Loading {
            direction: self.loading.direction,
            factor: self.loading.factor,
            pressure,
            items: self.loading.items,
        })
    }

    // What the formula gives under the full pressure, rounded up, and what decided it.
    pub fn formula_load(&self) -> Decided<Load>
        ensures areas { result.value.areas ≡ areas_in (in_wind self.now) self.now.loading.pressure }
        ensures force { Least (only (formula_in (in_wind self.now) self.now.loading.pressure)) result.value.force.0 }
    {
        let areas = self.areas(self.loading.pressure);
        let Decided { value: force, way } = self.formula_force(self.loading.pressure, areas);
        let value = Load { areas, force };
        Decided { value, way }
    }

    // The load where these are the areas at full pressure. Its force is the greatest of the formula's values at full
    // pressure and in the lesser winds, of which there are none without supercritical members.
    pub fn measured_load(&self, areas: Areas) -> Load
        requires { areas ≡ areas_in (in_wind self.now) self.now.loading.pressure }
        ensures { Loaded (in_wind self.now) result }
    {
        let q = self.loading.pressure;
        let mut force = self.formula_force(q, areas).value;
        if areas.supercritical.0 != 0 {
            let ice = self.section.ice;
            let face = self.section.face();
            for i in 0..face.groups.len() {
                if let Some(pressure) = face.lesser_wind(ice.thickness, q, i) {
                    let here = self.areas(pressure);
                    force = force.max(self.formula_force(pressure, here).value);
                }
            }
        }
        Load { areas, force }
    }

    pub fn load(&self) -> Load
        ensures { Loaded (in_wind self.now) result }
    {
        self.measured_load(self.areas(self.loading.pressure))
    }
}
