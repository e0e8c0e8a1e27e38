// A section under a wind, as a run of numbers: LEGS K ICE FACTOR PRESSURE WIDTH HEIGHT GROUPCOUNT (KIND SIZE LENGTH)*.
// What stands past the end counts as 0, and a number that does not fit its type as the largest that does: no range
// reaches so far.
#![tactic(auto)]

pub mod faults;
mod groups;
pub mod items;
pub mod sound;
mod words;

ghost use Rattle.std.specs.Prelude.{◌≡◌};
ghost use Rattle.case_words.specs.Words.{section_in, case_in};

use crate::words::{word16, word32};
use model::Section;
use std::fmt;
use units::{Force, Length};

// The section and the wind on it, with no test of any range.
#[derive(Clone, Copy, Debug, PartialEq, Eq)]
pub struct Case {
    pub legs: u32,
    pub direction: u32,
    pub ice: u32,
    pub factor: u32,
    pub pressure: u16,
    pub section: Section,
}

// The first thing that is wrong with a case. Missing: there are fewer than 8 numbers, or, after Sizes, too few for the
// groups. Sizes: the width, the height or the number of groups. Solidity: A_S is above A_u, bare or under the ice.
#[derive(Clone, Copy, Debug, PartialEq, Eq, Hash)]
pub enum Fault {
    Missing,
    Legs,
    Direction,
    Ice,
    Factor,
    Pressure,
    Sizes,
    Groups,
    Solidity,
}

impl fmt::Display for Fault {
    fn fmt<W: fmt::Write>(&self, f: &mut fmt::Formatter<W>) -> fmt::Result {
        f.write_str(match self {
            Fault::Missing => "numbers are missing",
            Fault::Legs => "legs are neither 3 nor 4",
            Fault::Direction => "k is above 23, or odd with three legs",
            Fault::Ice => "the ice class is above 5",
            Fault::Factor => "the structure factor is not 500 to 2000",
            Fault::Pressure => "the pressure is above 5000",
            Fault::Sizes => {
                "the width, the height or the number of groups is out of range, or the height is odd"
            }
            Fault::Groups => "a kind, size or length of a group is out of range",
            Fault::Solidity => "A_S is above A_u",
        })
    }
}

#[tactic(auto, unfolding(crate::specs::Words::section_in))]
fn section_of(numbers: &[u64]) -> Section
    ensures { result ≡ section_in numbers.now }
{
    Section {
        width: Length(word32(numbers, 5)),
        height: Length(word32(numbers, 6)),
        allowance: Force(0),
        groups: groups::groups_of(numbers),
    }
}

#[tactic(auto, unfolding(crate::specs::Words::case_in))]
pub fn case_of(numbers: &[u64]) -> Case
    ensures { result ≡ case_in numbers.now }
{
    Case {
        legs: word32(numbers, 0),
        direction: word32(numbers, 1),
        ice: word32(numbers, 2),
        factor: word32(numbers, 3),
        pressure: word16(numbers, 4),
        section: section_of(numbers),
    }
}
