// The face of a section: its areas, and what its force is worked out from, as whole numbers of model/specs/WholeForm.
ghost use Rattle.std.specs.Prelude.{◌≡◌, ◌+◌, ◌*◌, ◌≤◌};
ghost use Rattle.model.specs.Areas.{solid, largest_gross};
ghost use Rattle.model.specs.WholeForm.{gross_of, incidence_den, face_den, face_num, root_num};

use crate::coefficients::{FOUR, THREE};
use model::{Areas, Legs};
use units::Area;

// The face of a section on so many legs: its areas, and its open area A_u − A_S.
#[derive(Clone, Copy, Debug, PartialEq, Eq, Hash)]
pub struct FaceAreas {
    pub legs: Legs,
    pub areas: Areas,
    pub gap: Area,
    ghost small: { (solid areas).0 + gap.0 ≤ largest_gross },
}

// What stands under the root of c_p, times (face_den / A_u)², in two factors.
#[derive(Clone, Copy)]
pub(crate) struct Root {
    pub open: u64,
    pub linear: u64,
}

impl FaceAreas {
    // A_S
    pub(crate) fn solid(self) -> u64
        ensures { result ≡ (solid self.areas).0 }
    {
        self.areas.solid().0
    }

    // A_u
    pub(crate) fn gross(self) -> u64
        ensures { result ≡ (gross_of self.areas self.gap.0).0 }
    {
        self.solid() + self.gap.0
    }

    // A_p A_u, which the root of c_p is taken times.
    #[tactic(auto, unfolding(model::specs::Areas::solid))]
    pub(crate) fn root_weight(self) -> u64
        ensures { result ≡ self.areas.supercritical.0 * (gross_of self.areas self.gap.0).0 }
    {
        self.areas.supercritical.0 * self.gross()
    }

    // c_f A_f + c_c A_c + 1.9 A_p, over `face_den` and in millionths of mm², as the items' sum is.
    #[tactic(auto, unfolding(model::specs::WholeForm::face_num, model::specs::WholeForm::flat_num, model::specs::WholeForm::subcritical_num, model::specs::WholeForm::supercritical_num))]
    pub(crate) fn sum(self) -> u128
        ensures { result ≡ face_num self.legs self.areas self.gap.0 * 1_000_000 }
    {
        match self.legs {
            Legs::Three => THREE.sum(self),
            Legs::Four => FOUR.sum(self),
        }
    }

    // What Kθ and the coefficients together are divided by.
    #[tactic(auto, using(crate::proofs::FaceSums::divisor_fits, crate::proofs::FaceSums::divisor_three), unfolding(model::specs::WholeForm::incidence_den, model::specs::WholeForm::face_den))]
    pub(crate) fn divisor(self) -> u128
        ensures { result ≡ incidence_den self.legs (solid self.areas).0 self.gap.0 * face_den self.legs (gross_of self.areas self.gap.0).0 }
    {
        let s = self.solid();
        let u = self.gross();
        match self.legs {
            // 20 s · 5000 u², so shared out that both factors fit a word
            Legs::Three => (20 * s * u) as u128 * (5000 * u) as u128,
            Legs::Four => (400 * s * u) as u128 * (200 * (u * u)) as u128,
        }
    }

    #[tactic(auto, unfolding(model::specs::WholeForm::root_num))]
    pub(crate) fn root(self) -> Root
        ensures { result.open * result.linear ≡ root_num self.legs (solid self.areas).0 self.gap.0 }
    {
        match self.legs {
            Legs::Three => THREE.root(self),
            Legs::Four => FOUR.root(self),
        }
    }
}
