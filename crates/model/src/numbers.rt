// Document 01's numbers for legs, refusals and answers. specs/Bytes, File and Answers have the same tables.
ghost use Rattle.std.specs.Prelude.{◌≡◌};
ghost use Rattle.model.specs.Answers.{refusal_number, answer_number};
ghost use Rattle.model.specs.Bytes.{legs_number};
ghost use Rattle.model.specs.File.{legs_of};

use crate::{Legs, Refusal};

// How many answers there are: 0 for an accepted call, and the refusals' numbers.
pub const ANSWERS: usize = 23;

// Four for any number but 3.
impl From<u32> for Legs {
    ghost from_gives = { λ n legs. legs ≡ legs_of n };

    fn from(n: u32) -> Self {
        if n == 3 { Legs::Three } else { Legs::Four }
    }
}

impl From<Legs> for u64 {
    ghost from_gives = { λ legs n. n ≡ legs_number legs };

    fn from(legs: Legs) -> u64 {
        legs as u64
    }
}

impl From<Refusal> for u32 {
    ghost from_gives = { λ refusal n. n ≡ refusal_number refusal };

    fn from(refusal: Refusal) -> u32 {
        refusal as u32
    }
}

// The number of an answer that is a number alone.
pub fn answer_number(answer: Result<(), Refusal>) -> u32
    ensures { result ≡ answer_number answer }
{
    match answer {
        Ok(()) => 0,
        Err(refusal) => u32::from(refusal),
    }
}
