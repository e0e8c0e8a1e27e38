// Document 01's tower as programs hold it: what the calls take, keep and answer. specs/ has all of document 01 as
// definitions and says what each of these types means there; proofs/ has their laws.
#![tactic(auto)]

ghost use Rattle.std.specs.Prelude.{◌≡◌, ◌^◌, ◌<◌};
ghost use Rattle.model.specs.Areas.{size_of, solid};
ghost use Rattle.model.specs.Bytes.{kind_of};
ghost use Rattle.model.specs.File.{member_of};

use counted::Counted;
use units::{Area, Force, Length};

pub mod numbers;
pub mod ranges;

// Numbers from low to high. std's RangeInclusive is an iterator, and is not Copy.
#[derive(Clone, Copy, Debug, PartialEq, Eq, Hash)]
pub struct Range {
    pub low: u32,
    pub high: u32,
}

// The legs of the tower; it has as many equal faces.
#[derive(Clone, Copy, Debug, PartialEq, Eq, Hash)]
pub enum Legs {
    Three = 3,
    Four = 4,
}

// A member of a face: flat with a width, or round with a diameter.
#[derive(Clone, Copy, Debug, PartialEq, Eq, Hash)]
pub enum Member {
    Flat(Length),
    Round(Length),
}

impl Member {
    // Flat where the kind is 0, round for any other.
    pub fn of_kind(kind: u32, size: Length) -> Self
        ensures { result ≡ member_of kind size }
    {
        match kind {
            0 => Member::Flat(size),
            _ => Member::Round(size),
        }
    }

    // 0 for flat, 1 for round.
    pub fn kind(self) -> u32
        ensures { result ≡ kind_of self }
    {
        match self {
            Member::Flat(_) => 0,
            Member::Round(_) => 1,
        }
    }

    // The width or the diameter.
    pub fn size(self) -> Length
        ensures { result ≡ size_of self }
    {
        match self {
            Member::Flat(width) => width,
            Member::Round(diameter) => diameter,
        }
    }
}

impl Default for Member {
    fn default() -> Self {
        Member::Flat(Length::default())
    }
}

// Members of one kind and size, and their total length in one face.
#[derive(Clone, Copy, Debug, PartialEq, Eq, Hash, Default)]
pub struct Group {
    pub member: Member,
    pub length: Length,
}

// A section: mean width b, height h, shear allowance (0: none is stated), and its groups.
#[derive(Clone, Copy, Debug, PartialEq, Eq, Default)]
pub struct Section {
    pub width: Length,
    pub height: Length,
    pub allowance: Force,
    pub groups: Counted<Group, 8>,
}

// An ancillary item: its number, the section that it hangs on, its size, and its coefficients and position factor K in
// thousandths.
#[derive(Clone, Copy, Debug, PartialEq, Eq, Hash, Default)]
pub struct Item {
    pub number: u16,
    pub section: u8,
    pub width: Length,
    pub length: Length,
    pub bare: u16,
    pub iced: u16,
    pub position: u16,
}

// Legs, the sections from the top, and the items in hanging order.
#[derive(Clone, Copy, Debug, PartialEq, Eq)]
pub struct Tower {
    pub legs: Legs,
    pub sections: Counted<Section, 32>,
    pub items: Counted<Item, 64>,
}

// The wind that a call sets: direction, ice class, structure factor in thousandths, and a pressure for each section.
#[derive(Clone, Copy, Debug, PartialEq, Eq)]
pub struct Wind<'a> {
    pub direction: u32,
    pub ice: u32,
    pub factor: u32,
    pub pressures: &'a [u16],
}

// The flow class of a member under a pressure.
#[derive(Clone, Copy, Debug, PartialEq, Eq, Hash)]
pub enum Flow {
    Flat,
    Subcritical,
    Supercritical,
}

// A_f, A_c and A_p of a section's face.
#[derive(Clone, Copy, Debug, PartialEq, Eq, Hash, Default)]
pub struct Areas {
    pub flat: Area,
    pub subcritical: Area,
    pub supercritical: Area,
}

impl Areas {
    // A_S: their sum.
    #[tactic(auto, unfolding(crate::specs::Areas::solid))]
    pub fn solid(self) -> Area
        requires { (solid self).0 < 2 ^ 64 }
        ensures { result ≡ solid self }
    {
        self.flat + self.subcritical + self.supercritical
    }
}

// Why a call is turned down, with its number in document 01.
#[derive(Clone, Copy, Debug, PartialEq, Eq, Hash)]
pub enum Refusal {
    NoTower = 1,
    FileEnds,
    Legs,
    SectionCount,
    SectionSize,
    GroupCount,
    GroupField,
    BareSolidity,
    ItemCount,
    ItemNumber,
    ItemSection,
    ItemField,
    BytesFollow,
    NoSuchItem,
    Direction,
    IceClass,
    StructureFactor,
    PressureCount,
    Pressure,
    IcedSolidity,
    NoWind,
    OutputShort,
}
