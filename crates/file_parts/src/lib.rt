// The parts of the tower file: groups, sections and items, each read and written. Places are counted from the start of
// the bytes that a part is given.
#![tactic(auto)]

pub mod groups;
pub mod items;
pub mod parts;
pub mod sections;

pub use sections::Head;
