// Where an item stands.
ghost use Rattle.std.specs.Prelude.{◌≡◌, position};
ghost use Rattle.item_calls.specs.Places.{has_number};

use slots::Slot;
use slots::items::number_in;

// The place of the first item with the number.
pub(crate) fn place_of(items: &[Slot], number: u16) -> Option<usize>
    ensures { result ≡ position (has_number number) items.now }
{
    items.iter().position(|slot| number_in(slot) == number)
}
