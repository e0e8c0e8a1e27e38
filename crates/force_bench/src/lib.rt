// Many section forces in one call, for a benchmark.
#![tactic(auto)]

ghost use Rattle.std.specs.Prelude.{◌≡◌, ◌≤◌};
ghost use Rattle.model.specs.Force.{largest_items};
ghost use Rattle.force_bench.specs.Words.{total_of, bench_of};

use case_words::case_of;
use case_words::faults::{groups_end, test_case};
use case_words::sound::SoundCase;
use model::ranges::LARGEST_ITEM;

// The largest sum of a section's items.
const LARGEST_ITEMS: u64 = 64 * LARGEST_ITEM;

// The forces of so many rounds, modulo 2^64. Round i has the case's pressure less i % 16.
fn total(sound: SoundCase, items: u64, rounds: u64) -> u64
    requires { (15 ≤ sound.case.now.pressure) × (items ≤ largest_items) }
    ensures { result ≡ total_of sound.entry.case.now items rounds }
{
    let mut sum: u64 = 0;
    for i in 0..rounds {
        let section = sound.loaded(sound.case.pressure - (i % 16) as u16, items);
        sum = sum.wrapping_add(section.load().force.0);
    }
    sum
}

// Words are a case's numbers, then the items' sum. u64::MAX for words that are no case.
#[tactic(auto, unfolding(crate::specs::Words::answer_of))]
#[unsafe(no_mangle)]
pub extern "C" fn force_bench(words: &[u64], rounds: u64) -> u64
    ensures { result ≡ bench_of words.now rounds }
{
    let case = case_of(words);
    let Ok(sound) = test_case(&case, words.len()) else {
        return u64::MAX;
    };
    let Some([items]) = words.get(groups_end(&case.section)..) else {
        return u64::MAX;
    };
    if case.pressure < 15 || LARGEST_ITEMS < *items {
        return u64::MAX;
    }
    total(sound, *items, rounds)
}
