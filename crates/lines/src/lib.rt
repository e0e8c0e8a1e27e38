// A line of input as numbers or bytes, a line of output as text, and digests of bytes and numbers.
#![tactic(auto)]

pub mod digest;
pub mod hex;
pub mod input;
pub mod numbers;
pub mod text;
