// Files of drawn towers, sound and damaged, and items.
ghost use Rattle.std.specs.Prelude.{◌≡◌, ◌<◌, ◌≤◌};

use crate::fields::Draws;
use crate::files::File;
use crate::keys::Key;
use crate::sections::put_section;
use model::ranges::{
    COEFFICIENTS, ITEM_COUNT, ITEM_LENGTH, ITEM_WIDTH, LEG_COUNT, POSITION_FACTOR, SECTION_COUNT,
};
use model::{Item, Range};
use units::Length;

// A place beyond those of a list's calls.
const CALLS_END: u64 = 1000;

// How many sections and items a tower has.
#[derive(Clone, Copy)]
struct Extent {
    sections: u64,
    items: u64,
    ghost few_items: { items ≤ 64 },
}

// The towers of a list have up to three sections and four items, or up to 64 items, or up to 32 sections.
fn extent_of(list: Key, key: Key) -> Extent {
    let (sections, items) = match list.within(CALLS_END, 0..=31) {
        0 => (4..=32, 0..=8),
        1..=3 => (1..=2, 60..=64),
        _ => (1..=3, 0..=4),
    };
    Extent {
        sections: u64::from(key.within(0, sections)),
        items: u64::from(key.within(1, items)),
    }
}

// An item on one of so many sections.
pub(crate) fn item_of(draws: Draws, number: u16, sections: u64) -> Item
    ensures { result.number ≡ number }
{
    let last = sections.wrapping_sub(1) & 0xffff_ffff;
    let on = Range {
        low: 0,
        high: last as u32,
    };
    Item {
        number,
        section: (draws.field(2, on) & 0xff) as u8,
        width: Length(draws.field(3, ITEM_WIDTH)),
        length: Length(draws.field(4, ITEM_LENGTH)),
        bare: draws.short(5, COEFFICIENTS),
        iced: draws.short(6, COEFFICIENTS),
        position: draws.short(7, POSITION_FACTOR),
    }
}

fn put_item(file: &mut File, item: &Item) {
    file.put(2, u32::from(item.number));
    file.put(1, u32::from(item.section));
    file.put(2, item.width.0);
    file.put(2, item.length.0);
    file.put(2, u32::from(item.bare));
    file.put(2, u32::from(item.iced));
    file.put(2, u32::from(item.position));
}

// A number that no other place has.
fn number_at(items: Key, place: u64) -> u16
    requires { place < 64 }
{
    let number = 3 * place + u64::from(items.part(place).within(1, 0..=2));
    number as u16
}

// The item at this place among a file's. A wrong number is that of the item before.
fn filed_item(items: Draws, place: u64, sections: u64) -> Item
    requires { place < 64 }
{
    let draws = items.part(place);
    let back = u64::from(0 < place && draws.is_wrong(0));
    item_of(draws, number_at(items.key, place - back), sections)
}

fn file_of(draws: Draws, extent: Extent) -> File {
    let Extent { sections, items } = extent;
    let mut file = File::new();
    file.put(1, draws.field(0, LEG_COUNT));
    let count = (sections & 0xff) as u32;
    file.put(1, draws.or_wrong(1, count, SECTION_COUNT));
    for place in 0..sections {
        put_section(&mut file, draws.part(2).part(place));
    }
    file.put(1, draws.or_wrong(3, items as u32, ITEM_COUNT));
    for place in 0..items {
        put_item(&mut file, &filed_item(draws.part(4), place, sections));
    }
    file
}

// A file that is accepted.
fn sound_file(key: Key, extent: Extent) -> File {
    let draws = Draws {
        key: key.part(0),
        odds: None,
    };
    file_of(draws, extent)
}

// What is wrong with a file: a byte that is any, bytes behind its end, none from some place on, or fields.
#[derive(Clone, Copy, Debug, PartialEq, Eq)]
enum Damage {
    Byte,
    Behind,
    Cut,
    Fields { odds: u64 },
}

impl Damage {
    fn drawn(key: Key) -> Damage {
        match key.within(2, 0..=7) {
            0 => Damage::Byte,
            1 => Damage::Behind,
            2 => Damage::Cut,
            _ => Damage::Fields {
                odds: u64::from(key.within(3, 8..=64)),
            },
        }
    }

    // The odds of a wrong field.
    fn odds(self) -> Option<u64> {
        match self {
            Damage::Fields { odds } => Some(odds),
            _ => None,
        }
    }
}

fn damaged_file(key: Key, extent: Extent) -> File {
    let damage = Damage::drawn(key);
    let draws = Draws {
        key: key.part(0),
        odds: damage.odds(),
    };
    let mut file = file_of(draws, extent);
    if file.bytes.is_empty() {
        return file;
    }
    let any = key.index(4, file.bytes.len());
    match damage {
        Damage::Byte => file.bytes.set(any, key.within(5, 0..=255) as u8),
        Damage::Behind => file.put(key.within(5, 1..=3) as usize, any as u32),
        Damage::Cut => file.bytes.truncate(any),
        Damage::Fields { .. } => {}
    }
    file
}

// A file for a list, which is accepted if it is sound.
pub fn drawn_file(list: Key, key: Key, sound: bool) -> File
    ensures { result.bytes.count ≤ 3000 }
{
    let extent = extent_of(list, key);
    if sound {
        sound_file(key, extent)
    } else {
        damaged_file(key, extent)
    }
}

// A file without items, which is accepted.
pub fn bare_file(key: Key, sections: u64) -> File
    ensures { result.bytes.count ≤ 3000 }
{
    sound_file(key, Extent { sections, items: 0 })
}

// A sound item on one of so many sections.
pub fn sound_item(key: Key, number: u16, sections: u64) -> Item
    ensures { result.number ≡ number }
{
    item_of(Draws { key, odds: None }, number, sections)
}
