// Document 01, "Areas and flow".
ghost use Rattle.std.specs.Prelude.{◌≡◌, true, ◌≤◌};
ghost use Rattle.model.specs.Tower.{section_of};
ghost use Rattle.model.specs.Areas.{iced_area, group_area, is_supercritical, flow_of, gross, largest_gross};
ghost use Rattle.model.specs.Valid.{group_fits};
ghost use Rattle.areas.specs.Sums.{Added, SmallAreas};

use crate::ice::Ice;
use model::{Areas, Flow, Group, Member, Section};
use units::{Area, Length};

// A length times a width with ice on both sides.
pub(crate) fn iced_area(ice: Ice, width: Length, length: Length) -> Area
    requires { (width.0 ≤ 3000) × (length.0 ≤ 200_000) }
    ensures { result ≡ iced_area ice.thickness width length }
{
    Length(width.0 + 2 * ice.thickness.0) * length
}

#[tactic(auto, unfolding(model::specs::Areas::group_area))]
pub fn group_area(ice: Ice, group: Group) -> Area
    requires { group_fits group ≡ true }
    ensures value { result ≡ group_area ice.thickness group }
    ensures small { result.0 ≤ 220_000_000 }
{
    iced_area(ice, group.member.size(), group.length)
}

pub(crate) const FLOW_LIMIT: u32 = 45_000_000;

// With the bare diameter d, and only where there is no ice.
pub(crate) fn is_supercritical(t: Length, q: u16, d: Length) -> bool
    ensures { result ≡ is_supercritical t q d }
{
    t.0 == 0 && (FLOW_LIMIT as u128) < 2 * (q as u128) * ((d * d).0 as u128)
}

#[tactic(auto, unfolding(model::specs::Areas::flow_of))]
pub fn flow_class(t: Length, q: u16, member: Member) -> Flow
    ensures { result ≡ flow_of t q member }
{
    match member {
        Member::Flat(_) => Flow::Flat,
        Member::Round(d) if is_supercritical(t, q, d) => Flow::Supercritical,
        Member::Round(_) => Flow::Subcritical,
    }
}

// The three sums with a group's area in the sum of its flow class.
#[tactic(auto, unfolding(model::specs::Areas::area_in))]
pub(crate) fn add_group(ice: Ice, q: u16, group: Group, sum: Areas) -> Areas
    requires { (group_fits group ≡ true) × SmallAreas sum }
    ensures { Added ice.thickness q group sum result }
{
    let area = group_area(ice, group);
    match flow_class(ice.thickness, q, group.member) {
        Flow::Flat => Areas {
            flat: sum.flat + area,
            ..sum
        },
        Flow::Subcritical => Areas {
            subcritical: sum.subcritical + area,
            ..sum
        },
        Flow::Supercritical => Areas {
            supercritical: sum.supercritical + area,
            ..sum
        },
    }
}

// A_u.
#[tactic(auto, unfolding(model::specs::Areas::gross))]
pub fn gross_area(section: &Section) -> Area
    requires { (section.now.width.0 ≤ 15_000) × (section.now.height.0 ≤ 10_000) }
    ensures value { result ≡ gross (section_of section.now) }
    ensures small { result.0 ≤ largest_gross }
{
    section.width * section.height
}
