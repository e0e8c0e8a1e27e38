// The whole file.
ghost use Rattle.std.specs.Prelude.{◌≤◌, ◌≡◌, length};
ghost use Rattle.model.specs.Tower.{tower_of};
ghost use Rattle.model.specs.Bytes.{file_of};
ghost use Rattle.file_fields.specs.Written.{Puts};
ghost use Rattle.tower_file.specs.Stored.{ReadsFile};
ghost use Rattle.tower_file.specs.Written.{WritesFile};

use counted::Counted;
use file_fields::fields::{read_ranged, write_field};
use file_parts::items::{ITEM_BYTES, read_item_part};
use file_parts::parts::{read_each_stored, write_each};
use file_parts::sections::sections_length;
use model::ranges::{LEG_COUNT, SECTION_COUNT};
use model::{Legs, Refusal, Tower};

// The tower of a file, or the first refusal in reading order.
pub fn read(file: &[u8]) -> Result<Tower, Refusal>
    ensures { ReadsFile file.now result }
{
    let (legs, at) = read_ranged(file, 0, 1, LEG_COUNT, Refusal::Legs)?;
    let (count, at) = read_ranged(file, at, 1, SECTION_COUNT, Refusal::SectionCount)?;
    let count = count as usize;
    let mut sections = Counted::new();
    let at = at + read_each_stored(&file[at..], count, &mut sections)?;
    let (items, used) = read_item_part(&file[at..], count)?;
    if at + used != file.len() {
        return Err(Refusal::BytesFollow);
    }
    let legs = Legs::from(legs);
    Ok(Tower {
        legs,
        sections,
        items,
    })
}

// How many bytes the file of a tower has.
pub fn file_length(tower: &Tower) -> usize
    ensures { result ≡ length (file_of (tower_of tower.now)) }
{
    3 + sections_length(&tower.sections) + ITEM_BYTES * tower.items.len()
}

#[tactic(auto, using(crate::proofs::WritingParts::parts_length), unfolding(model::specs::Bytes::bytes))]
fn write_parts(tower: &Tower, out: &mut [u8]) -> usize
    requires { length (file_of (tower_of tower.now)) ≤ length out.old }
    ensures { Puts (file_of (tower_of tower.now)) out.old out.new result }
{
    let at = write_field(out, 1, u64::from(tower.legs));
    let at = at + write_field(&mut out[at..], 1, tower.sections.len() as u64);
    let at = at + write_each(&mut out[at..], &tower.sections);
    let at = at + write_field(&mut out[at..], 1, tower.items.len() as u64);
    at + write_each(&mut out[at..], &tower.items)
}

// Puts the file of a tower at the start of out and answers its length. Bytes beyond it stay, and all do if out is too
// short.
pub fn write(tower: &Tower, out: &mut [u8]) -> Result<usize, Refusal>
    ensures { WritesFile (tower_of tower.now) out.old out.new result }
{
    if out.len() < file_length(tower) {
        return Err(Refusal::OutputShort);
    }
    Ok(write_parts(tower, out))
}
