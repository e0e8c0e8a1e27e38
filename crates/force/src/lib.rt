// The wind force on a section: the least whole number of newtons that is not below document 01's exact force.
#![tactic(auto)]

mod coefficients;
pub mod face;
mod incidence;
mod least;
pub mod prepared;
pub mod section;

use model::Areas;
use units::Force;

// What a section's row says of the section alone.
#[derive(Clone, Copy, Debug, PartialEq, Eq, Hash)]
pub struct Load {
    pub areas: Areas,
    pub force: Force,
}

// What decided a force: that there is no pressure; bounds of the force; an exact comparison beside a whole number,
// where there is no root; or one by squares.
#[derive(Clone, Copy, Debug, PartialEq, Eq, Hash)]
pub enum Way {
    NoPressure,
    Bounds,
    Quotient,
    Squares,
}

// A force or a load, and what decided it.
#[derive(Clone, Copy, Debug, PartialEq, Eq, Hash)]
pub struct Decided<T> {
    pub value: T,
    pub way: Way,
}
