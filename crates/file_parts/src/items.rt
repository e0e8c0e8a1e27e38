// The ancillary items, in hanging order.
ghost use Rattle.std.specs.Prelude.{◌%◌, ◌≤◌, ◌<◌, ◌≡◌, List, [], ◌∷◌, ◌++◌, length, IfOk};
ghost use Rattle.counted.specs.Elements.{elements, element_count};
ghost use Rattle.model.specs.declared.Item.{Item};
ghost use Rattle.model.specs.File.{numbered, read_item_fields, read_items};
ghost use Rattle.model.specs.Bytes.{item_field_bytes, item_bytes};
ghost use Rattle.file_fields.specs.Outcomes.{Reads, ReadsAs};
ghost use Rattle.file_fields.specs.Written.{Puts};
ghost use Rattle.file_parts.specs.Marks.{Marked};
ghost use Rattle.file_parts.specs.Parts.{read_item_rest, read_item_part};

use crate::parts::ToBytes;
use counted::Counted;
use file_fields::Parsed;
use file_fields::fields::{read_field, read_ranged, write_field};
use model::ranges::{COEFFICIENTS, ITEM_COUNT, ITEM_LENGTH, ITEM_WIDTH, POSITION_FACTOR};
use model::{Item, Refusal};
use units::Length;

// The bytes of an item.
pub const ITEM_BYTES: usize = 13;

// How many marks item numbers can leave.
const MARKS: usize = 1024;

// Items, and the marks of their numbers: a number is compared with theirs only where one of them left its mark.
#[derive(Drop)]
struct Numbered {
    items: Counted<Item, 64>,
    marks: [bool; MARKS],
    ghost marked: { Marked marks (elements items) },
    ghost few: { items.count ≤ 64 },
}

impl Numbered {
    fn new() -> Numbered
        ensures { elements result.items ≡ [] }
    {
        let items = Counted::new();
        let marks = [false; MARKS];
        Numbered { items, marks }
    }

    // Where a number leaves its mark.
    fn mark_of(number: u16) -> usize
        ensures place { result ≡ number % 1024 }
        ensures within { result < 1024 }
    {
        usize::from(number) % MARKS
    }

    fn contains(&self, number: u16) -> bool
        ensures { result ≡ numbered number (elements self.now.items) }
    {
        self.marks[Numbered::mark_of(number)] && self.items.iter().any(|item| item.number == number)
    }

    fn push(&mut self, item: Item)
        requires { element_count self.old.items < 64 }
        ensures { elements self.new.items ≡ elements self.old.items ++ item ∷ [] }
    {
        self.items.push(item);
        self.marks[Numbered::mark_of(item.number)] = true;
    }
}

// The fields of an item behind its number and section.
fn read_item_fields(file: &[u8], number: u16, section: u8) -> Parsed<Item>
    ensures { Reads Item file.now (read_item_fields number section file.now) result }
{
    let (width, at) = read_ranged(file, 0, 2, ITEM_WIDTH, Refusal::ItemField)?;
    let (length, at) = read_ranged(file, at, 2, ITEM_LENGTH, Refusal::ItemField)?;
    let (bare, at) = read_ranged(file, at, 2, COEFFICIENTS, Refusal::ItemField)?;
    let (iced, at) = read_ranged(file, at, 2, COEFFICIENTS, Refusal::ItemField)?;
    let (position, next) = read_ranged(file, at, 2, POSITION_FACTOR, Refusal::ItemField)?;
    let item = Item {
        number,
        section,
        width: Length(width),
        length: Length(length),
        bare: bare as u16,
        iced: iced as u16,
        position: position as u16,
    };
    Ok((item, next))
}

// An item behind its number, on a tower of so many sections.
fn read_item_rest(file: &[u8], sections: usize, number: u16) -> Parsed<Item>
    ensures { Reads Item file.now (read_item_rest sections number file.now) result }
{
    let Ok((section, at)) = read_field(file, 0, 1) else {
        return Err(Refusal::FileEnds);
    };
    if sections <= section as usize {
        return Err(Refusal::ItemSection);
    }
    let (item, used) = read_item_fields(&file[at..], number, section as u8)?;
    Ok((item, at + used))
}

// So many items. Whether one is read depends on those before it, so read_each does not serve.
fn read_items(file: &[u8], sections: usize, count: usize) -> Parsed<Counted<Item, 64>>
    requires { count ≤ 64 }
    ensures says { ReadsAs (λ read. elements read.0) (λ read. read.1) file.now (read_items sections count file.now) result }
    ensures count { IfOk result (λ read. read.0.count ≤ 64) }
{
    let mut earlier = Numbered::new();
    let mut at = 0;
    for _ in 0..count {
        let Ok((number, next)) = read_field(file, at, 2) else {
            return Err(Refusal::FileEnds);
        };
        let number = number as u16;
        if earlier.contains(number) {
            return Err(Refusal::ItemNumber);
        }
        let (item, used) = read_item_rest(&file[next..], sections, number)?;
        earlier.push(item);
        at = next + used;
    }
    Ok((earlier.items, at))
}

// Their count, then the items.
pub fn read_item_part(file: &[u8], sections: usize) -> Parsed<Counted<Item, 64>>
    ensures says { ReadsAs (λ read. elements read.0) (λ read. read.1) file.now (read_item_part sections file.now) result }
    ensures count { IfOk result (λ read. read.0.count ≤ 64) }
{
    let (count, at) = read_ranged(file, 0, 1, ITEM_COUNT, Refusal::ItemCount)?;
    let (items, used) = read_items(&file[at..], sections, count as usize)?;
    Ok((items, at + used))
}

// The fields of an item behind its number and section.
#[tactic(auto, unfolding(model::specs::Bytes::bytes))]
fn write_item_fields(out: &mut [u8], item: &Item) -> usize
    requires { 10 ≤ length out.old }
    ensures { Puts (item_field_bytes item.now) out.old out.new result }
{
    let at = write_field(out, 2, u64::from(item.width.0));
    let at = at + write_field(&mut out[at..], 2, u64::from(item.length.0));
    let at = at + write_field(&mut out[at..], 2, u64::from(item.bare));
    let at = at + write_field(&mut out[at..], 2, u64::from(item.iced));
    at + write_field(&mut out[at..], 2, u64::from(item.position))
}

impl ToBytes for Item {
    ghost bytes_of = { item_bytes };

    #[tactic(auto, unfolding(model::specs::Bytes::bytes, model::specs::Bytes::item_bytes))]
    fn write(&self, out: &mut [u8]) -> usize {
        let at = write_field(out, 2, u64::from(self.number));
        let at = at + write_field(&mut out[at..], 1, u64::from(self.section));
        at + write_item_fields(&mut out[at..], self)
    }
}
