// Hang and take down, on slots that the caller lends.
#![tactic(auto)]

pub mod hang;
mod places;
pub mod take_down;
