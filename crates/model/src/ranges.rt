// Document 01's ranges, for the file and for the calls. specs/Ranges has the same names.
ghost use Rattle.std.specs.Prelude.{◌≡◌};
ghost use Rattle.model.specs.Ranges as ranges;
ghost use Rattle.model.specs.Machine.{direction_fits};

use crate::{Legs, Range};

pub const LEG_COUNT: Range = Range { low: 3, high: 4 };

pub const SECTION_COUNT: Range = Range { low: 1, high: 32 };

pub const SECTION_WIDTH: Range = Range {
    low: 100,
    high: 15_000,
};

pub const SECTION_HEIGHT: Range = Range {
    low: 100,
    high: 10_000,
};

pub const GROUP_COUNT: Range = Range { low: 1, high: 8 };

pub const MEMBER_KIND: Range = Range { low: 0, high: 1 };

pub const MEMBER_SIZE: Range = Range { low: 1, high: 1000 };

pub const MEMBER_LENGTH: Range = Range {
    low: 1,
    high: 200_000,
};

pub const ITEM_COUNT: Range = Range { low: 0, high: 64 };

pub const ITEM_WIDTH: Range = Range { low: 1, high: 3000 };

pub const ITEM_LENGTH: Range = Range {
    low: 1,
    high: 10_000,
};

pub const COEFFICIENTS: Range = Range { low: 0, high: 3000 };

pub const POSITION_FACTOR: Range = Range { low: 0, high: 1000 };

pub const DIRECTIONS: Range = Range { low: 0, high: 23 };

pub const ICE_CLASSES: Range = Range { low: 0, high: 5 };

pub const STRUCTURE_FACTOR: Range = Range {
    low: 500,
    high: 2000,
};

pub const PRESSURES: Range = Range { low: 0, high: 5000 };

// No exact force is above it, in N; specs/Force has the same name.
pub const LARGEST_FORCE: u64 = 0x800_0000;

// No item adds more to its section's sum; specs/Force has the same name.
pub const LARGEST_ITEM: u64 = 3000 * 1000 * (3100 * 10_000);

impl Range {
    pub fn contains(self, x: u32) -> bool
        ensures { result ≡ ranges.within self x }
    {
        self.low <= x && x <= self.high
    }
}

impl Legs {
    // Whether k is a direction: with three legs only even k.
    pub fn allows_direction(self, k: u32) -> bool
        ensures { result ≡ direction_fits self k }
    {
        DIRECTIONS.contains(k) && (self == Legs::Four || k % 2 == 0)
    }
}
