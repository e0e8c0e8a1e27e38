// Kθ: the wind incidence factor, as a whole number over `incidence_den` of model/specs/WholeForm.
ghost use Rattle.std.specs.Prelude.{◌≡◌, ◌+◌, ◌*◌, ◌≤◌};
ghost use Rattle.model.specs.Areas.{largest_gross};
ghost use Rattle.model.specs.Force.{quarters, halves};
ghost use Rattle.model.specs.WholeForm.{k2_num, incidence_num};

use crate::face::FaceAreas;
use model::Legs;

const QUARTERS: [u64; 6] = [0, 1, 3, 4, 3, 1];

const HALVES: [u64; 8] = [0, 0, 1, 0, 2, 0, 1, 0];

// s on four legs, in quarters
#[tactic(auto, unfolding(model::specs::Force::quarters))]
fn quarters(k: u32) -> u64
    ensures { (result ≡ quarters k) × (result ≤ 4) }
{
    QUARTERS[(k % 6) as usize]
}

// s on three legs, in halves
#[tactic(auto, unfolding(model::specs::Force::halves))]
fn halves(k: u32) -> u64
    ensures { (result ≡ halves k) × (result ≤ 2) }
{
    HALVES[(k % 8) as usize]
}

// 5 A_u K2, where e is A_u − A_S
#[tactic(auto, unfolding(model::specs::WholeForm::k2_num))]
fn k2_num(s: u64, e: u64) -> u64
    requires { s + e ≤ largest_gross }
    ensures { (result ≡ k2_num s e) × (result ≤ 750_000_000) }
{
    if 4 * s <= e || 4 * e <= s {
        s + e
    } else {
        5 * s.min(e)
    }
}

// Kθ of four legs: f flat, r round
fn incidence_four(k: u32, f: u64, r: u64, e: u64) -> u64
    requires { f + r + e ≤ largest_gross }
    ensures { result ≡ 400 * (f + r) * (f + r + e) + (11 * f + 16 * r) * k2_num (f + r) e * quarters k }
{
    let s = f + r;
    400 * s * (s + e) + (11 * f + 16 * r) * k2_num(s, e) * quarters(k)
}

impl FaceAreas {
    #[tactic(auto, using(crate::proofs::IncidenceFactor::incidence_is_four, crate::proofs::IncidenceFactor::incidence_is_three), unfolding(model::specs::Areas::solid))]
    pub(crate) fn incidence(self, k: u32) -> u64
        ensures { result ≡ incidence_num self.legs k self.areas self.gap.0 }
    {
        let f = self.areas.flat.0;
        let r = self.areas.subcritical.0 + self.areas.supercritical.0;
        match self.legs {
            Legs::Three => 20 * r + f * (20 - halves(k)),
            Legs::Four => incidence_four(k, f, r, self.gap.0),
        }
    }
}
