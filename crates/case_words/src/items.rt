// The items that hang on a tower: (SECTION WIDTH LENGTH BARE ICED POSITION)*.
ghost use Rattle.std.specs.Prelude.{◌≡◌, ◌<◌};
ghost use Rattle.case_words.specs.Words.{item_of, width_on};

use crate::words::{word, word8, word16, word32};
use model::Item;
use units::Length;

// An item on a section that no tower has gets width 0, which no item may have.
fn width_on(section: u64, width: u32) -> Length
    ensures { result ≡ width_on section width }
{
    if section < 32 {
        Length(width)
    } else {
        Length(0)
    }
}

// The item whose numbers start at `place`.
#[tactic(auto, unfolding(crate::specs::Words::item_of))]
pub fn item_at(numbers: &[u64], place: usize) -> Item
    requires { place < 1000 }
    ensures { result ≡ item_of numbers.now place }
{
    Item {
        number: 0,
        section: word8(numbers, place),
        width: width_on(word(numbers, place), word32(numbers, place + 1)),
        length: Length(word32(numbers, place + 2)),
        bare: word16(numbers, place + 3),
        iced: word16(numbers, place + 4),
        position: word16(numbers, place + 5),
    }
}
