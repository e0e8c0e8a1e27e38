// The least whole number that is at least an exact number: decided by bounds, or by exact comparison of (n − √m) / d.
#![tactic(auto)]

pub mod bounds;
pub mod ceiling;
mod guess;
