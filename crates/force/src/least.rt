// The least whole number of newtons that is not below the exact force of a face, by squares.
ghost use Rattle.std.specs.Prelude.{◌≡◌, ◌+◌, ◌*◌, ◌^◌, ◌<◌, ◌≤◌};
ghost use Rattle.exact.specs.Number.{only, Least};
ghost use Rattle.model.specs.Areas.{solid};
ghost use Rattle.model.specs.WholeForm.{gross_of, root_num};
ghost use Rattle.force.specs.FaceForce.{force_on, LinearOf};
ghost use Rattle.wide.specs.Value.{value256, value512};

use crate::face::FaceAreas;
use crate::prepared::{Loading, PreparedFace};
use model::ranges::LARGEST_FORCE;
use rounding::bounds::{Linear, UNIT};
use rounding::ceiling::Surd;
use units::Force;
use wide::{Digit, U256, U512};

// factor (slope g + offset divisor)
#[tactic(auto, using(crate::proofs::Quotient::num_sum), unfolding(wide::specs::Value::value256))]
fn numerator(x: Linear, g: u128) -> U256
    requires { x.factor * (x.slope * g + x.offset * x.divisor) < 2 ^ 256 }
    ensures { value256 result ≡ x.factor * (x.slope * g + x.offset * x.divisor) }
{
    let by_face = x.factor as u128 * x.slope as u128;
    let by_items = x.factor as u128 * x.offset as u128;
    g.widening_mul(by_face) + x.divisor.widening_mul(by_items)
}

// (factored · incidence · 10⁶ · A_p · A_u)² · root, and nothing to work out without supercritical members
#[tactic(auto, using(crate::proofs::Quotient::no_radicand, crate::proofs::FaceSums::words_fit), unfolding(wide::specs::Value::value256, wide::specs::Value::value512))]
fn radicand(face: FaceAreas, factored: u64, incidence: u64) -> U512
    requires { factored ≤ 10_000_000 }
    ensures { let r = factored * incidence * 1_000_000 * face.areas.supercritical.0 * (gross_of face.areas face.gap.0).0 in value512 result ≡ r * r * root_num face.legs (solid face.areas).0 face.gap.0 }
{
    if face.areas.supercritical.0 == 0 {
        return U512::zero();
    }
    let root = face.root();
    let r = (factored * 1_000_000) as u128 * face.root_weight() as u128;
    let x = r.widening_mul(incidence as u128 * root.open as u128);
    let y = r.widening_mul(incidence as u128 * root.linear as u128);
    x.widening_mul(y)
}

// By squares, where there is a root.
#[tactic(auto, using(crate::proofs::Quotient::num_fits, crate::proofs::Quotient::factored_small))]
pub(crate) fn least_force(p: PreparedFace, w: Loading, x: Linear) -> Force
    requires { (0 < (solid p.face.areas).0) × LinearOf p w x }
    ensures { Least (only (force_on p w)) result.0 }
{
    let surd = Surd {
        num: numerator(x, p.sum),
        radicand: radicand(p.face, x.factor, x.slope),
        den: x.divisor.widening_mul(UNIT),
    };
    Force(surd.ceiling(LARGEST_FORCE))
}
