// What a list of calls has come to.
ghost use Rattle.std.specs.Prelude.{◌≡◌, ◌+◌, ◌%◌, ◌^◌, slice_index, slice_set};
ghost use Rattle.model.specs.Answers.{answer_number};

use crate::calls::Told;
use lines::digest::{START, mix};
use model::Refusal;
use model::numbers::{ANSWERS, answer_number};

// A list up to some call: a digest of the answers and of all that was lent, and how often each answer came, also in
// earlier lists.
#[derive(Debug, PartialEq, Eq, Drop)]
pub(crate) struct Run {
    pub digest: u64,
    pub counts: [u64; ANSWERS],
}

// One more of this answer.
fn count(counts: &mut [u64; ANSWERS], answer: Result<(), Refusal>)
    ensures { counts.new ≡ slice_set counts.old (answer_number answer) ((slice_index counts.old (answer_number answer) + 1) % 2 ^ 64) }
{
    let i = answer_number(answer) as usize;
    counts[i] = counts[i].wrapping_add(1);
}

impl Run {
    pub(crate) fn new() -> Run {
        Run {
            digest: START,
            counts: [0; ANSWERS],
        }
    }

    // One call more.
    pub(crate) fn add(&mut self, told: Told) {
        count(&mut self.counts, told.answer);
        let answer = mix(self.digest, u64::from(answer_number(told.answer)));
        self.digest = mix(answer, told.rest);
    }
}
