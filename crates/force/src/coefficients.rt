// The coefficients c_f, c_c and c_p of a face, as whole numbers over `face_den` of model/specs/WholeForm. s is A_S and
// e the open area A_u − A_S.
ghost use Rattle.std.specs.Prelude.{◌≡◌, ◌+◌, ◌*◌, ◌^◌, ◌<◌, ◌≤◌};
ghost use Rattle.model.specs.Areas.{solid, largest_gross};

use crate::face::{FaceAreas, Root};
use units::Area;

// a s² + b s e + c e²
#[derive(Clone, Copy)]
pub(crate) struct Quadratic {
    pub a: u64,
    pub b: u64,
    pub c: u64,
    ghost small: { (a ≤ 403) × (b ≤ 403) × (c ≤ 403) },
}

// flat_factor · flat and subcritical_factor · subcritical are c_f and c_c; supercritical · A_u² is 1.9; the number
// under the root of c_p is root_factor · e (root_solid s + root_open e).
#[derive(Clone, Copy)]
pub(crate) struct Coefficients {
    pub flat_factor: u64,
    pub flat: Quadratic,
    pub subcritical_factor: u64,
    pub subcritical: Quadratic,
    pub supercritical: u64,
    pub root_factor: u64,
    pub root_solid: u64,
    pub root_open: u64,
    ghost factors_small: { (flat_factor ≤ 9500) × (subcritical_factor ≤ 9500) × (supercritical ≤ 9500) },
    ghost root_small: { (root_factor ≤ 50_000) × (root_solid ≤ 9500) × (root_open ≤ 9500) },
}

pub(crate) const THREE: Coefficients = Coefficients {
    flat_factor: 3344,
    flat: Quadratic { a: 3, b: 3, c: 5 },
    subcritical_factor: 25,
    subcritical: Quadratic {
        a: 403,
        b: 228,
        c: 380,
    },
    supercritical: 9500,
    root_factor: 50_000,
    root_solid: 817,
    root_open: 317,
};

pub(crate) const FOUR: Coefficients = Coefficients {
    flat_factor: 396,
    flat: Quadratic { a: 1, b: 1, c: 2 },
    subcritical_factor: 25,
    subcritical: Quadratic { a: 16, b: 9, c: 18 },
    supercritical: 380,
    root_factor: 200,
    root_solid: 247,
    root_open: 47,
};

impl Quadratic {
    ghost use Rattle.force.specs.Coefficients.{quadratic_at};

    #[tactic(auto, unfolding(model::specs::Areas::solid))]
    fn at(self, face: FaceAreas) -> u64
        ensures { result ≡ quadratic_at self (solid face.areas).0 face.gap.0 }
    {
        let s = face.solid();
        let e = face.gap.0;
        self.a * (s * s) + self.b * (s * e) + self.c * (e * e)
    }
}

// So many times an area, in millionths of mm².
fn in_millionths(factor: u64, area: Area) -> u64
    requires { (factor ≤ 9500) × (area.0 ≤ largest_gross) }
    ensures { (result ≡ factor * 1_000_000 * area.0) × (result < 2 ^ 62) }
{
    factor * 1_000_000 * area.0
}

impl Coefficients {
    ghost use Rattle.force.specs.Coefficients.{sum_by, root_by};

    // The face's sum in millionths of mm².
    #[tactic(auto, unfolding(model::specs::Areas::solid))]
    pub(crate) fn sum(self, face: FaceAreas) -> u128
        ensures { result ≡ sum_by self face.areas face.gap.0 * 1_000_000 }
    {
        let flat = in_millionths(self.flat_factor, face.areas.flat);
        let subcritical = in_millionths(self.subcritical_factor, face.areas.subcritical);
        let supercritical = in_millionths(self.supercritical, face.areas.supercritical);
        let u = face.gross();
        self.flat.at(face) as u128 * flat as u128
            + self.subcritical.at(face) as u128 * subcritical as u128
            + (u * u) as u128 * supercritical as u128
    }

    pub(crate) fn root(self, face: FaceAreas) -> Root
        ensures { result.open * result.linear ≡ root_by self (solid face.areas).0 face.gap.0 }
    {
        Root {
            open: self.root_factor * face.gap.0,
            linear: self.root_solid * face.solid() + self.root_open * face.gap.0,
        }
    }
}
