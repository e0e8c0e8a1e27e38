// The member groups of a section.
ghost use Rattle.std.specs.Prelude.{◌≡◌, true};
ghost use Rattle.model.specs.declared.Group.{Group};
ghost use Rattle.model.specs.File.{read_group};
ghost use Rattle.model.specs.Bytes.{group_bytes};

use crate::parts::{FromBytes, StoredFromBytes, ToBytes};
use file_fields::Parsed;
use file_fields::fields::{read_ranged, write_field};
use model::ranges::{MEMBER_KIND, MEMBER_LENGTH, MEMBER_SIZE};
use model::{Group, Member, Refusal};
use units::Length;

impl StoredFromBytes for Group {
    ghost Value = { Group };

    ghost value_of = { λ group. group };

    ghost reading = { read_group };

    ghost stored = { λ _. true };

    fn read_stored(file: &[u8]) -> Parsed<Group> {
        let (kind, at) = read_ranged(file, 0, 1, MEMBER_KIND, Refusal::GroupField)?;
        let (size, at) = read_ranged(file, at, 2, MEMBER_SIZE, Refusal::GroupField)?;
        let (length, next) = read_ranged(file, at, 4, MEMBER_LENGTH, Refusal::GroupField)?;
        let member = Member::of_kind(kind, Length(size));
        let length = Length(length);
        Ok((Group { member, length }, next))
    }
}

impl FromBytes for Group {
    ghost Value = { Group };

    ghost value_of = { λ group. group };

    ghost reading = { read_group };

    fn read(file: &[u8]) -> Parsed<Group> {
        Group::read_stored(file)
    }
}

impl ToBytes for Group {
    ghost bytes_of = { group_bytes };

    #[tactic(auto, unfolding(model::specs::Bytes::bytes, model::specs::Bytes::group_bytes))]
    fn write(&self, out: &mut [u8]) -> usize {
        let at = write_field(out, 1, u64::from(self.member.kind()));
        let at = at + write_field(&mut out[at..], 2, u64::from(self.member.size().0));
        at + write_field(&mut out[at..], 4, u64::from(self.length.0))
    }
}
