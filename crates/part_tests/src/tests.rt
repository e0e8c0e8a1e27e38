// Groups and sections, appended to a vector and read one by one.
use arrayvec::ArrayVec;
use counted::Counted;
use file_parts::parts::{FromBytes, read_each};
use model::{Group, Member, Refusal, Section};
use units::{Force, Length};

// A flat member of 100 mm and 24 m, and a round one of 60 mm and 12 m.
const GROUPS: [u8; 14] = [0, 0, 100, 0, 0, 93, 192, 1, 0, 60, 0, 0, 46, 224];

const FLAT: Group = Group {
    member: Member::Flat(Length(100)),
    length: Length(24_000),
};

const ROUND: Group = Group {
    member: Member::Round(Length(60)),
    length: Length(12_000),
};

// 2 m wide and 6 m high, with an allowance of 500 N and the flat members.
const SECTION: [u8; 16] = [7, 208, 23, 112, 0, 0, 1, 244, 1, 0, 0, 100, 0, 0, 93, 192];

fn flat_section() -> Section {
    let mut groups = Counted::new();
    groups.push(FLAT);
    Section {
        width: Length(2000),
        height: Length(6000),
        allowance: Force(500),
        groups,
    }
}

#[test]
fn groups_are_appended(rt: HostRuntime) {
    let mut groups: ArrayVec<Group, 8> = ArrayVec::new();
    groups.push(ROUND);
    assert_eq!(rt; read_each(&GROUPS, 0, &mut groups), Ok(0));
    assert_eq!(rt; groups.as_slice(), [ROUND].as_slice());
    assert_eq!(rt; read_each(&GROUPS, 2, &mut groups), Ok(14));
    assert_eq!(rt; groups.as_slice(), [ROUND, FLAT, ROUND].as_slice());
}

// 10 cm wide and high, with no allowance: a round member of 1 cm and 10 cm, and a flat one of 1 mm and 1 mm.
const SMALL: [u8; 23] = [
    0, 100, 0, 100, 0, 0, 0, 0, 2, 1, 0, 10, 0, 0, 0, 100, 0, 0, 1, 0, 0, 0, 1,
];

fn small_section() -> Section {
    let mut groups = Counted::new();
    groups.push(Group {
        member: Member::Round(Length(10)),
        length: Length(100),
    });
    groups.push(Group {
        member: Member::Flat(Length(1)),
        length: Length(1),
    });
    Section {
        width: Length(100),
        height: Length(100),
        allowance: Force(0),
        groups,
    }
}

#[test]
fn sections_are_appended(rt: HostRuntime) {
    let mut file = [0; 39];
    file[..16].copy_from_slice(&SECTION);
    file[16..].copy_from_slice(&SMALL);
    let mut sections: ArrayVec<Section, 32> = ArrayVec::new();
    assert_eq!(rt; read_each(&file, 2, &mut sections), Ok(39));
    assert_eq!(rt;
        sections.as_slice(),
        [flat_section(), small_section()].as_slice()
    );
}

#[test]
fn a_cut_part_is_refused(rt: HostRuntime) {
    let mut groups: ArrayVec<Group, 8> = ArrayVec::new();
    assert_eq!(rt;
        read_each(&GROUPS[..13], 2, &mut groups),
        Err(Refusal::FileEnds)
    );
    assert_eq!(rt;
        <Section as FromBytes>::read(&SECTION[..15]),
        Err(Refusal::FileEnds)
    );
}

#[test]
fn a_part_is_read(rt: HostRuntime) {
    assert_eq!(rt; <Group as FromBytes>::read(&GROUPS), Ok((FLAT, 7)));
    assert_eq!(rt;
        <Section as FromBytes>::read(&SECTION),
        Ok((flat_section(), 16))
    );
}

// A kind of 2.
#[test]
fn a_group_out_of_range_is_refused(rt: HostRuntime) {
    let mut file = SECTION;
    file[9] = 2;
    assert_eq!(rt;
        <Group as FromBytes>::read(&file[9..]),
        Err(Refusal::GroupField)
    );
    assert_eq!(rt;
        <Section as FromBytes>::read(&file),
        Err(Refusal::GroupField)
    );
}

// 120 m of flat members cover the face, and 200 m would cover more.
#[test]
fn a_face_may_be_full(rt: HostRuntime) {
    let mut file = SECTION;
    file[13..].copy_from_slice(&[1, 212, 192]);
    assert!(rt; <Section as FromBytes>::read(&file).is_ok());
    file[13..].copy_from_slice(&[3, 13, 64]);
    assert_eq!(rt;
        <Section as FromBytes>::read(&file),
        Err(Refusal::BareSolidity)
    );
}
