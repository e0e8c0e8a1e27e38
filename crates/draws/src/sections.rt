// Sections of a drawn tower's file.
ghost use Rattle.std.specs.Prelude.{◌≤◌};

use crate::fields::Draws;
use crate::files::File;
use crate::keys::Key;
use model::Range;
use model::ranges::{GROUP_COUNT, MEMBER_KIND, MEMBER_LENGTH, MEMBER_SIZE, SECTION_WIDTH};

// Diameters in mm, each with the pressure at which 2 q d² is 45 000 000 exactly.
pub(crate) const FLOW_LIMITS: [(u32, u16); 6] = [
    (75, 4000),
    (100, 2250),
    (150, 1000),
    (250, 360),
    (300, 250),
    (500, 90),
];

// Half of a height, which is even.
const HALF_HEIGHT: Range = Range {
    low: 50,
    high: 5000,
};

fn put_group(file: &mut File, kind: u32, size: u32, length: u32) {
    file.put(1, kind);
    file.put(2, size);
    file.put(4, length);
}

// None, any, or one that is near the shears.
fn allowance(section: Key) -> u32 {
    let key = section.part(8);
    match key.within(0, 0..=3) {
        0 => 0,
        1 => key.within(1, 0..=u32::MAX),
        _ => key.within(1, 1..=300_000),
    }
}

// A section's own fields, down to its group count.
fn put_frame(file: &mut File, key: Key, width: u32, height: u32) {
    file.put(2, width);
    file.put(2, height);
    file.put(4, allowance(key));
}

// What is more than the full face, in mm². A bare face has that only in a damaged file.
fn more_than_full(draws: Draws, ice: u32) -> u32
    ensures { result ≤ 1 }
{
    if ice == 0 && draws.odds.is_none() {
        0
    } else {
        draws.key.within(5, 0..=1)
    }
}

fn ice_of(key: Key) -> u32
    ensures { result ≤ 5 }
{
    if key.once_in(0, 2) {
        0
    } else {
        key.within(1, 1..=5)
    }
}

// A section whose face is exactly full, bare or under some ice, or 1 mm² more than that.
fn put_full_section(file: &mut File, draws: Draws) {
    let key = draws.key;
    let ice = ice_of(key);
    let size = key.within(2, 100..=899);
    let across = key.within(3, 1..=15);
    let height = 2 * key.within(4, 50..=5000);
    put_frame(file, key, (size + 20 * ice) * across, height);
    file.put(1, 2);
    put_group(file, key.within(6, 0..=1), size, across * height - 1);
    let more = more_than_full(draws, ice);
    put_group(file, key.within(7, 0..=1), size + more, 1);
}

// Any size, or a diameter with a flow limit.
fn size_of(draws: Draws) -> u32 {
    let key = draws.key;
    if key.once_in(1, 4) {
        let (diameter, _) = FLOW_LIMITS[key.index(2, FLOW_LIMITS.len())];
        diameter
    } else {
        draws.field(2, MEMBER_SIZE)
    }
}

// The length that gives a group its area, as far as a group may have it.
fn length_of(area: u64, size: u32) -> u32 {
    let Range { low, high } = MEMBER_LENGTH;
    let length = area.checked_div(u64::from(size)).unwrap_or(1);
    length.clamp(u64::from(low), u64::from(high)) as u32
}

fn put_drawn_group(file: &mut File, draws: Draws, area: u64) {
    let kind = draws.field(0, MEMBER_KIND);
    let size = size_of(draws);
    let length = draws.or_wrong(3, length_of(area, size), MEMBER_LENGTH);
    put_group(file, kind, size, length);
}

fn group_count(key: Key) -> u32
    ensures { 1 ≤ result }
{
    let most = if key.once_in(3, 8) { 8 } else { 3 };
    key.within(4, 1..=most)
}

// A wrong one may be odd.
fn height_of(draws: Draws) -> u32 {
    let height = draws.field(1, HALF_HEIGHT).wrapping_mul(2);
    height.wrapping_add(u32::from(draws.is_wrong(2)))
}

// A section with any solidity ratio.
fn put_any_section(file: &mut File, draws: Draws) {
    let key = draws.key;
    let width = draws.field(0, SECTION_WIDTH);
    let height = height_of(draws);
    let count = group_count(key);
    put_frame(file, key, width, height);
    file.put(1, draws.or_wrong(5, count, GROUP_COUNT));
    let thousandths = key.within(6, 0..=1000);
    let solid = u64::from(width) * u64::from(thousandths) / 1000 * u64::from(height);
    for place in 0..count {
        let group = draws.part(7).part(u64::from(place));
        put_drawn_group(file, group, solid / u64::from(count));
    }
}

pub(crate) fn put_section(file: &mut File, draws: Draws) {
    if draws.key.once_in(0, 8) {
        put_full_section(file, draws.part(1));
    } else {
        put_any_section(file, draws.part(1));
    }
}
