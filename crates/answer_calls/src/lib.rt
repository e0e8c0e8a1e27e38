// Report, check and write, on a state that the caller lends and that they leave.
#![tactic(auto)]

pub mod answers;
mod tower;
