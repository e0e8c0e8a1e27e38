// Document 01's areas and flow in code, the lesser winds of M-103, the items' sums of all sections, and the tests that
// groups, items and sections are within their ranges.
#![tactic(auto)]

pub mod face;
pub mod ice;
pub mod iced;
pub mod items;
pub mod lesser;
pub mod ranges;
pub mod section;
