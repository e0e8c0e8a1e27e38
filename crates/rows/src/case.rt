// What the loads on all sections of a tower share.
ghost use Rattle.std.specs.Prelude.{◌≤◌};

use areas::ice::Ice;
use model::Legs;

// The legs, and the wind's direction, ice and structure factor.
#[derive(Clone, Copy, Debug, PartialEq, Eq, Hash)]
pub struct LoadCase {
    pub legs: Legs,
    pub direction: u32,
    pub ice: Ice,
    pub factor: u32,
    ghost factor_small: { factor ≤ 2000 },
}
