// Whether groups, items and sections are within document 01's ranges.
ghost use Rattle.std.specs.Prelude.{◌≡◌, ◌≤◌, length, is_some, IfSome};
ghost use Rattle.model.specs.Lists.{all_of};
ghost use Rattle.model.specs.Areas.{areas_of};
ghost use Rattle.model.specs.Tower.{section_of};
ghost use Rattle.model.specs.File.{fields_in_range};
ghost use Rattle.model.specs.Valid.{group_fits};
ghost use Rattle.areas.specs.Fits.{sizes_fit, fits_under};
ghost use Rattle.areas.specs.Sums.{SmallAreas};

use crate::ice::Ice;
use crate::section::{add_group, gross_area};
use model::ranges::{
    COEFFICIENTS, ITEM_LENGTH, ITEM_WIDTH, MEMBER_LENGTH, MEMBER_SIZE, POSITION_FACTOR,
    SECTION_HEIGHT, SECTION_WIDTH,
};
use model::{Areas, Group, Item, Section};
use units::Length;

pub fn group_fits(group: Group) -> bool
    ensures { result ≡ group_fits group }
{
    MEMBER_SIZE.contains(group.member.size().0) && MEMBER_LENGTH.contains(group.length.0)
}

pub fn groups_fit(groups: &[Group]) -> bool
    ensures { result ≡ all_of group_fits groups.now }
{
    groups.iter().all(|group| group_fits(*group))
}

pub fn fields_in_range(item: Item) -> bool
    ensures { result ≡ fields_in_range item }
{
    ITEM_WIDTH.contains(item.width.0)
        && ITEM_LENGTH.contains(item.length.0)
        && COEFFICIENTS.contains(item.bare as u32)
        && COEFFICIENTS.contains(item.iced as u32)
        && POSITION_FACTOR.contains(item.position as u32)
}

// Width, height, allowance and the number of groups.
#[tactic(auto, unfolding(crate::specs::Fits::sizes_fit))]
pub fn sizes_fit(section: &Section) -> bool
    ensures { result ≡ sizes_fit section.now }
{
    SECTION_WIDTH.contains(section.width.0)
        && SECTION_HEIGHT.contains(section.height.0)
        && section.height.0 % 2 == 0
        && section.allowance.0 < 4_294_967_296
        && 1 <= section.groups.count
        && section.groups.count <= 8
}

// The areas of the groups under pressure q, where all are in range.
fn measure_groups(ice: Ice, q: u16, groups: &[Group]) -> Option<Areas>
    requires { length groups.now ≤ 8 }
    ensures fit { is_some result ≡ all_of group_fits groups.now }
    ensures areas { IfSome result (λ a. (a ≡ areas_of ice.thickness q groups.now) × SmallAreas a) }
{
    let mut areas = Areas::default();
    for group in groups {
        if !group_fits(*group) {
            return None;
        }
        areas = add_group(ice, q, *group, areas);
    }
    Some(areas)
}

// The areas under pressure q of a section that stands bare and under ice of thickness t: A_S is at most A_u under the
// ice, and so bare.
#[tactic(auto, unfolding(model::specs::Areas::solid))]
pub fn measure(t: Length, q: u16, section: &Section) -> Option<Areas>
    ensures stands { is_some result ≡ fits_under t section.now }
    ensures areas { IfSome result (λ a. a ≡ areas_of t q (section_of section.now).groups) }
{
    let ice = Ice::new(t)?;
    if !sizes_fit(section) {
        return None;
    }
    let areas = measure_groups(ice, q, &section.groups)?;
    (areas.solid() <= gross_area(section)).then_some(areas)
}

// Whether it stands. The pressure has no part in that.
pub fn fits_under(t: Length, section: &Section) -> bool
    ensures { result ≡ fits_under t section.now }
{
    measure(t, 0, section).is_some()
}
