// Erect and wind, on slots that the caller lends.
#![tactic(auto)]

pub mod erect;
pub mod wind;
