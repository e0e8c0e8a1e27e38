// The items of a case.
ghost use Rattle.std.specs.Prelude.{◌≡◌, ◌+◌, ◌*◌, ◌≤◌, true, false, length, IsOk, IfOk, IfErr};
ghost use Rattle.model.specs.Lists.{all_of};
ghost use Rattle.model.specs.File.{fields_in_range};
ghost use Rattle.case_words.specs.Words.{at};
ghost use Rattle.force_cases.specs.Items.{items_at, HoldsItems};

use crate::wrong::Wrong;
use areas::ranges::fields_in_range;
use arrayvec::ArrayVec;
use case_words::Fault;
use case_words::items::item_at;
use slots::Slot;
use slots::items::item_slot;

// The slots of the items whose number stands at `place`, behind which they take the numbers up to the end.
pub(crate) fn item_slots(numbers: &[u64], place: usize) -> Result<ArrayVec<Slot, 64>, Wrong>
    ensures held { IfOk result (λ slots. HoldsItems numbers.now place slots.items) }
    ensures fit { IfErr result (λ wrong. wrong ≡ Wrong.Item → all_of fields_in_range (items_at numbers.now place) ≡ false) }
    ensures taken { at numbers.now place ≤ 64 → length numbers.now ≡ place + 1 + 6 * at numbers.now place
        → all_of fields_in_range (items_at numbers.now place) ≡ true → IsOk result }
{
    let held = *numbers.get(place).ok_or(Wrong::Case(Fault::Missing))?;
    if 64 < held {
        return Err(Wrong::ManyItems);
    }
    let items = &numbers[place + 1..];
    let needed = 6 * held as usize;
    if items.len() < needed {
        return Err(Wrong::Case(Fault::Missing));
    }
    if needed < items.len() {
        return Err(Wrong::LeftOver);
    }
    let mut slots = ArrayVec::new();
    for fields in items.chunks_exact(6) {
        let item = item_at(fields, 0);
        if !fields_in_range(item) {
            return Err(Wrong::Item);
        }
        slots.push(item_slot(item));
    }
    Ok(slots)
}
