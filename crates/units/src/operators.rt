// Sums of one quantity, and products of two that make a third.
ghost use Rattle.std.specs.Prelude.{◌≡◌, ◌+◌, ◌-◌, ◌*◌, ◌^◌, ◌≤◌, ◌<◌};

use crate::{Area, Force, Length, Moment};
use std::ops::{Add, Mul, Sub};

impl Add for Area {
    type Output = Area;

    ghost can_add = { λ a b. a.0 + b.0 < 2 ^ 64 };

    ghost add_gives = { λ a b sum. sum.0 ≡ a.0 + b.0 };

    fn add(self, other: Area) -> Area {
        Area(self.0 + other.0)
    }
}

impl Sub for Area {
    type Output = Area;

    ghost can_sub = { λ a b. b.0 ≤ a.0 };

    ghost sub_gives = { λ a b rest. rest.0 ≡ a.0 - b.0 };

    fn sub(self, other: Area) -> Area {
        Area(self.0 - other.0)
    }
}

impl Add for Force {
    type Output = Force;

    ghost can_add = { λ a b. a.0 + b.0 < 2 ^ 64 };

    ghost add_gives = { λ a b sum. sum.0 ≡ a.0 + b.0 };

    fn add(self, other: Force) -> Force {
        Force(self.0 + other.0)
    }
}

impl Add for Moment {
    type Output = Moment;

    ghost can_add = { λ a b. a.0 + b.0 < 2 ^ 64 };

    ghost add_gives = { λ a b sum. sum.0 ≡ a.0 + b.0 };

    fn add(self, other: Moment) -> Moment {
        Moment(self.0 + other.0)
    }
}

impl Mul for Length {
    type Output = Area;

    ghost mul_gives = { λ width length area. area.0 ≡ width.0 * length.0 };

    fn mul(self, other: Length) -> Area {
        Area(self.0 as u64 * other.0 as u64)
    }
}

// A force on an arm.
impl Mul<Length> for Force {
    type Output = Moment;

    ghost can_mul = { λ force arm. force.0 * arm.0 < 2 ^ 64 };

    ghost mul_gives = { λ force arm moment. moment.0 ≡ force.0 * arm.0 };

    fn mul(self, arm: Length) -> Moment {
        Moment(self.0 * arm.0 as u64)
    }
}
