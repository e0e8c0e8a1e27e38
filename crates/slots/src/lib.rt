// A service's state as numbers that the caller lends: 129 slots of 12 cells. Here alone a typed value is made from
// slots and turned into slots.
#![tactic(auto)]

pub mod head;
pub mod items;
pub mod sections;
pub mod wind;

pub type Slot = [u32; 12];

// Slot 0 tells what stands; slots 1 to 64 hold the sections, two each; slots 65 to 128 the items in hanging order.
// specs/Held has each cell's meaning.
pub type State = [Slot; 129];

// Every cell 0: no tower.
pub const EMPTY: State = [[0; 12]; 129];
