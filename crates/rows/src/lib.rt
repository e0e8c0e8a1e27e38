// The rows of document 01's report for the tower and the wind that stand in lent slots, and the check of its shears
// against the allowances.
#![tactic(auto)]

mod case;
mod feet;
pub mod loads;
mod table;
