// The sections, from the top.
ghost use Rattle.std.specs.Prelude.{◌≤◌, ◌≡◌, true, length, map, IfOk};
ghost use Rattle.model.specs.Lists.{joined};
ghost use Rattle.model.specs.Tower as tower;
ghost use Rattle.model.specs.Tower.{section_of};
ghost use Rattle.model.specs.File.{read_section};
ghost use Rattle.model.specs.Bytes.{section_bytes};
ghost use Rattle.file_fields.specs.Outcomes.{Reads, ReadsAs};
ghost use Rattle.file_parts.specs.Parts.{read_head};
ghost use Rattle.file_parts.specs.Stored.{groups_stored};

use crate::parts::{FromBytes, StoredFromBytes, ToBytes, read_each_stored, write_each};
use areas::face::Face;
use areas::ice::Ice;
use areas::section::gross_area;
use counted::Counted;
use file_fields::Parsed;
use file_fields::fields::{read_field, read_ranged, write_field};
use model::ranges::{GROUP_COUNT, SECTION_HEIGHT, SECTION_WIDTH};
use model::{Refusal, Section};
use units::{Force, Length};

// What a section has before its groups.
#[derive(Clone, Copy)]
pub struct Head {
    pub width: Length,
    pub height: Length,
    pub allowance: Force,
    pub count: usize,
}

fn read_head(file: &[u8]) -> Parsed<Head>
    ensures { Reads Head file.now (read_head file.now) result }
{
    let (width, at) = read_ranged(file, 0, 2, SECTION_WIDTH, Refusal::SectionSize)?;
    let (height, at) = read_ranged(file, at, 2, SECTION_HEIGHT, Refusal::SectionSize)?;
    if height % 2 != 0 {
        return Err(Refusal::SectionSize);
    }
    let Ok((allowance, at)) = read_field(file, at, 4) else {
        return Err(Refusal::FileEnds);
    };
    let (count, next) = read_ranged(file, at, 1, GROUP_COUNT, Refusal::GroupCount)?;
    let head = Head {
        width: Length(width),
        height: Length(height),
        allowance: Force(u64::from(allowance)),
        count: count as usize,
    };
    Ok((head, next))
}

impl StoredFromBytes for Section {
    ghost Value = { tower.Section };

    ghost value_of = { section_of };

    ghost reading = { read_section };

    ghost stored = { groups_stored };

    // Its bare A_S is tested after its last group.
    fn read_stored(file: &[u8]) -> Parsed<Section> {
        let (head, at) = read_head(file)?;
        let mut groups = Counted::new();
        let used = read_each_stored(&file[at..], head.count, &mut groups)?;
        let section = Section {
            width: head.width,
            height: head.height,
            allowance: head.allowance,
            groups,
        };
        let groups = section.groups.as_slice();
        let solid = Face { groups }.solid(Ice::of_class(0));
        if gross_area(&section) < solid {
            return Err(Refusal::BareSolidity);
        }
        Ok((section, at + used))
    }
}

impl FromBytes for Section {
    ghost Value = { tower.Section };

    ghost value_of = { section_of };

    ghost reading = { read_section };

    fn read(file: &[u8]) -> Parsed<Section>
        ensures says { ReadsAs (λ read. section_of read.0) (λ read. read.1) file.now (read_section file.now) result }
        ensures stored { IfOk result (λ read. groups_stored read.0 ≡ true) }
    {
        Section::read_stored(file)
    }
}

impl ToBytes for Section {
    ghost bytes_of = { λ section. section_bytes (section_of section) };

    #[tactic(auto, unfolding(model::specs::Bytes::bytes, model::specs::Bytes::section_bytes))]
    fn write(&self, out: &mut [u8]) -> usize {
        let at = write_field(out, 2, u64::from(self.width.0));
        let at = at + write_field(&mut out[at..], 2, u64::from(self.height.0));
        let at = at + write_field(&mut out[at..], 4, self.allowance.0);
        let at = at + write_field(&mut out[at..], 1, self.groups.len() as u64);
        at + write_each(&mut out[at..], &self.groups)
    }
}

// How many bytes they take.
pub fn sections_length(sections: &[Section]) -> usize
    requires { length sections.now ≤ 32 }
    ensures value { result ≡ length (joined section_bytes (map section_of sections.now)) }
    ensures small { result ≤ 2080 }
{
    let mut length = 0;
    for section in sections {
        length += 9 + 7 * section.groups.len();
    }
    length
}
