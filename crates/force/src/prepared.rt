// The force on a face in two steps: what does not depend on direction, pressure and items, and the rest. It is decided
// by bounds; what they leave open, by an exact comparison.
ghost use Rattle.std.specs.Prelude.{◌≡◌, ◌+◌, ◌*◌, ◌≤◌, ◌<◌, IfSome, IfOk, IsSomeAnd};
ghost use Rattle.std.proofs.Props.{props};
ghost use Rattle.model.specs.Areas.{solid};
ghost use Rattle.model.specs.Force.{largest_items};
ghost use Rattle.model.specs.WholeForm.{gross_of, incidence_den, face_den, face_num};
ghost use Rattle.rounding.specs.Bounds.{Between};
ghost use Rattle.force.specs.Prepared.{root_square};

use crate::face::FaceAreas;
use crate::least::least_force;
use crate::{Decided, Way};
use rounding::bounds::{Bounds, Linear};
use units::Force;

// What the force on a face takes neither from direction nor from pressure nor from items, as whole numbers: the sum
// c_f A_f + c_c A_c + 1.9 A_p in millionths of mm², what it is divided by, and bounds of the sum less its root, where
// these are known.
#[derive(Clone, Copy, Debug, PartialEq, Eq, Hash)]
pub struct PreparedFace {
    pub face: FaceAreas,
    pub sum: u128,
    pub divisor: u128,
    pub less_root: Option<Bounds<u128>>,
    ghost sum_is: { sum ≡ face_num face.legs face.areas face.gap.0 * 1_000_000 },
    ghost divisor_is: { divisor ≡ incidence_den face.legs (solid face.areas).0 face.gap.0 * face_den face.legs (gross_of face.areas face.gap.0).0 },
    ghost bounded: { IfSome less_root (λ b. Between sum (root_square face.legs face.areas face.gap.0) b.low b.high) } by { Prim.hlevel props },
}

// What loads a face: the wind's direction and structure factor, the pressure on the section, and its items' sum.
#[derive(Clone, Copy, Debug, PartialEq, Eq, Hash)]
pub struct Loading {
    pub direction: u32,
    pub factor: u32,
    pub pressure: u16,
    pub items: u64,
    ghost factor_small: { factor ≤ 2000 },
    ghost pressure_small: { pressure ≤ 5000 },
    ghost items_small: { items ≤ largest_items },
}

impl FaceAreas {
    // Bounds of the face's sum less its root, where they are known.
    #[tactic(auto, using(crate::proofs::Bounded::rootless, crate::proofs::Bounded::square_is))]
    fn less_root(self, sum: u128) -> Option<Bounds<u128>>
        ensures { IfSome result (λ b. Between sum (root_square self.legs self.areas self.gap.0) b.low b.high) }
    {
        if self.areas.supercritical.0 == 0 {
            return Some(Bounds {
                low: sum,
                high: sum,
            });
        }
        let root = self.root();
        let square = root.open as u128 * root.linear as u128;
        rounding::bounds::less_root(sum, self.root_weight(), square)
    }

    pub fn prepare(self) -> PreparedFace
        ensures { result.face ≡ self }
    {
        let sum = self.sum();
        PreparedFace {
            face: self,
            sum,
            divisor: self.divisor(),
            less_root: self.less_root(sum),
        }
    }
}

impl PreparedFace {
    ghost use Rattle.exact.specs.Number.{only, Least};
    ghost use Rattle.rounding.specs.Bounds.{Decides};
    ghost use Rattle.force.specs.FaceForce.{force_on, LinearOf};

    // The least whole number of newtons, where the bounds decide it; else one that should be near it, if there is one.
    fn by_bounds(self, x: Linear) -> Result<u64, Option<u64>>
        requires { x.offset ≤ largest_items }
        ensures { IfOk result (λ f. IsSomeAnd self.less_root (λ b. Decides x.factor x.slope b.low b.high x.divisor x.offset f)) }
    {
        x.least_between(self.less_root.ok_or(None)?)
    }

    // The least whole number of newtons in the wind.
    pub fn force_in(self, w: Loading) -> Decided<Force>
        requires { 0 < (solid self.face.areas).0 }
        ensures { Least (only (force_on self w)) result.value.0 }
    {
        let factored = w.pressure as u64 * w.factor as u64;
        if factored == 0 {
            return Decided {
                value: Force(0),
                way: Way::NoPressure,
            };
        }
        let x = Linear {
            factor: factored,
            slope: self.face.incidence(w.direction),
            offset: w.items,
            divisor: self.divisor,
        };
        match self.by_bounds(x) {
            Ok(f) => Decided {
                value: Force(f),
                way: Way::Bounds,
            },
            Err(near) => self.compared(w, x, near),
        }
    }

    // The least whole number of newtons by an exact comparison: without a root beside the number that is near, else by
    // squares.
    fn compared(self, w: Loading, x: Linear, near: Option<u64>) -> Decided<Force>
        requires { (0 < (solid self.face.areas).0) × LinearOf self w x }
        ensures { Least (only (force_on self w)) result.value.0 }
    {
        if self.face.areas.supercritical.0 == 0
            && let Some(n) = near
            && let Some(f) = x.least_beside(self.sum, n)
        {
            return Decided {
                value: Force(f),
                way: Way::Quotient,
            };
        }
        Decided {
            value: least_force(self, w, x),
            way: Way::Squares,
        }
    }
}
