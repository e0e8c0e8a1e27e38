// The groups of a section.
ghost use Rattle.std.specs.Prelude.{◌≡◌, ◌<◌};
ghost use Rattle.case_words.specs.Words.{member_read, group_of, groups_of};

use crate::words::{word, word32};
use counted::Counted;
use model::{Group, Member};
use units::Length;

// Kinds are 0 and 1. Any other has size 0, which no member may have.
fn member_read(kind: u64, size: u32) -> Member
    ensures { result ≡ member_read kind size }
{
    match kind {
        0 => Member::Flat(Length(size)),
        1 => Member::Round(Length(size)),
        _ => Member::Flat(Length(0)),
    }
}

#[tactic(auto, unfolding(crate::specs::Words::group_of))]
fn group_at(numbers: &[u64], i: usize) -> Group
    requires { i < 8 }
    ensures { result ≡ group_of numbers.now i }
{
    Group {
        member: member_read(word(numbers, 8 + 3 * i), word32(numbers, 9 + 3 * i)),
        length: Length(word32(numbers, 10 + 3 * i)),
    }
}

// All groups that there may be, and how many are told: a section may have no more than 8.
#[tactic(auto, unfolding(crate::specs::Words::groups_of))]
pub fn groups_of(numbers: &[u64]) -> Counted<Group, 8>
    ensures { result ≡ groups_of numbers.now }
{
    Counted {
        count: word32(numbers, 7) as usize,
        places: [
            group_at(numbers, 0),
            group_at(numbers, 1),
            group_at(numbers, 2),
            group_at(numbers, 3),
            group_at(numbers, 4),
            group_at(numbers, 5),
            group_at(numbers, 6),
            group_at(numbers, 7),
        ],
    }
}
