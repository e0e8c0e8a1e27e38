// A field of the tower file, read and written. Places are counted from the start of the bytes that are given.
#![tactic(auto)]

use model::Refusal;

pub mod fields;

// A value and the next place, or why it cannot be read.
pub type Parsed<T> = Result<(T, usize), Refusal>;
