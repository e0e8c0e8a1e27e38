// Sections in slots.
ghost use Rattle.std.specs.Prelude.{◌≡◌, true, ◌+◌, ◌*◌, ◌≤◌, ◌<◌, length, map};
ghost use Rattle.counted.specs.Elements.{elements};
ghost use Rattle.model.specs.Tower as tower;
ghost use Rattle.units.specs.declared.Length.{Length};
ghost use Rattle.model.specs.Lists.{all_of};
ghost use Rattle.model.specs.Valid.{group_fits, section_fits};
ghost use Rattle.areas.specs.Fits.{fits_under};
ghost use Rattle.slots.specs.Held.{slot, group_in, group_number, section_in, section_as, section_at, field_slot, group_slot, least_section, PutSection};

use crate::{Slot, State};
use areas::ice::Ice;
use areas::ranges::fits_under;
use counted::Counted;
use model::ranges::GROUP_COUNT;
use model::{Group, Member, Section};
use units::{Force, Length};

// The first slot of the first section.
pub const SECTIONS: usize = 1;

// The cell of a section's pressure, in the first of its two slots.
pub const PRESSURE: usize = 3;

// What stands where no section does, under any ice.
pub fn least() -> Section
    ensures { (tower.section_of result ≡ least_section) × ((t : Length) → t.0 ≤ 50 → fits_under t result ≡ true) }
{
    let mut groups = Counted::new();
    groups.push(Group {
        member: Member::Flat(Length(1)),
        length: Length(1),
    });
    Section {
        width: Length(100),
        height: Length(100),
        allowance: Force(0),
        groups,
    }
}

fn group_of(x: u32) -> Group
    ensures { result ≡ group_in x }
{
    Group {
        member: Member::of_kind(x % 2, Length(x / 2 % 1024)),
        length: Length(x / 2048),
    }
}

#[tactic(auto, unfolding(crate::specs::Held::group_number))]
fn group_number(group: Group) -> u32
    requires { group_fits group ≡ true }
    ensures { result ≡ group_number group }
{
    group.member.kind() + 2 * group.member.size().0 + 2048 * group.length.0
}

fn groups_in(numbers: &[u32]) -> Counted<Group, 8>
    requires { length numbers.now ≤ 8 }
    ensures items { elements result ≡ map group_in numbers.now }
    ensures few { result.count ≤ 8 }
{
    let mut groups = Counted::new();
    for number in numbers {
        groups.push(group_of(*number));
    }
    groups
}

// The section of its two slots, in its ranges or not.
#[tactic(auto, using(crate::proofs::Lists::list_to_map))]
fn section_in(fields: &Slot, numbers: &Slot) -> Section
    ensures section { tower.section_of result ≡ section_in fields.now numbers.now }
    ensures few { result.groups.count ≤ 8 }
{
    let [width, height, allowance, _, count, ..] = *fields;
    Section {
        width: Length(width),
        height: Length(height),
        allowance: Force(u64::from(allowance)),
        groups: groups_in(&numbers[..count.min(GROUP_COUNT.high) as usize]),
    }
}

// Section i as its slots have it, in its ranges or not.
pub fn section_as(s: &State, i: usize) -> Section
    requires { i < 32 }
    ensures section { tower.section_of result ≡ section_as s.now i }
    ensures few { result.groups.count ≤ 8 }
{
    let at = SECTIONS + 2 * i;
    section_in(&s[at], &s[at + 1])
}

// Section i, or the least one where its slots are out of range or too solid under the ice.
pub fn section_at(s: &State, ice: Ice, i: usize) -> Section
    requires { i < 32 }
    ensures { (tower.section_of result ≡ section_at s.now ice.thickness i) × (fits_under ice.thickness result ≡ true) }
{
    let section = section_as(s, i);
    if fits_under(ice.thickness, &section) {
        section
    } else {
        least()
    }
}

fn field_slot(section: &Section, q: u16) -> Slot
    requires { section_fits (tower.section_of section.now) ≡ true }
    ensures { result ≡ field_slot (tower.section_of section.now) q }
{
    [
        section.width.0,
        section.height.0,
        section.allowance.0 as u32,
        u32::from(q),
        section.groups.len() as u32,
        0,
        0,
        0,
        0,
        0,
        0,
        0,
    ]
}

fn group_slot(groups: &[Group]) -> Slot
    requires few { length groups.now ≤ 8 }
    requires fit { all_of group_fits groups.now ≡ true }
    ensures { result ≡ group_slot groups.now }
{
    let mut slot = [0; 12];
    for (j, group) in groups.iter().enumerate() {
        slot[j] = group_number(*group);
    }
    slot
}

// Section i with its pressure: its slots then stand for it.
pub fn put_section(s: &mut State, i: usize, section: &Section, q: u16)
    requires { (i < 32) × (section_fits (tower.section_of section.now) ≡ true) }
    ensures { PutSection (tower.section_of section.now) q i s.old s.new }
{
    let at = SECTIONS + 2 * i;
    s[at] = field_slot(section, q);
    s[at + 1] = group_slot(&section.groups);
}
