// The service behind the requests: what a line does to the state, and what is printed for it.
#![tactic(auto)]

mod answers;
mod arguments;
mod changes;
pub mod respond;
mod step;

// Room for the numbers of the longest line, the largest report and a file somewhat longer than the largest, and for
// every answer's text.
pub const NUMBERS: usize = 3003;

// A wind has three numbers before its pressures.
const PRESSURES: usize = NUMBERS - 3;

pub const ROWS: usize = 192;

pub const FILE: usize = 3000;

pub const TEXT: usize = 8192;

// Room to work in, for a line's numbers, a report's and a file, and for the text of the answer.
#[derive(Drop)]
pub struct Buffers<'a> {
    pub numbers: &'a mut [u64],
    pub rows: &'a mut [u64],
    pub file: &'a mut [u8],
    pub out: &'a mut [u8],
}
