// Arguments of calls that look random but never change: files of towers, items, winds and rooms, most of them sound.
// Each number is drawn from a key and a place alone, so that their order is free.
#![tactic(auto)]

pub mod arguments;
mod fields;
pub mod files;
pub mod keys;
mod sections;
pub mod towers;

pub use arguments::DrawnWind;
pub use fields::Draws;
pub use files::File;
