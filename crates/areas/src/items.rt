// Document 01, "The exact force": what an ancillary item adds to its section.
ghost use Rattle.std.specs.Prelude.{◌≡◌, true, ◌≤◌};
ghost use Rattle.model.specs.Force.{item_part, largest_item};
ghost use Rattle.model.specs.Force as force;
ghost use Rattle.model.specs.File.{fields_in_range};

use crate::ice::Ice;
use crate::section::iced_area;
use model::Item;
use units::Length;

// In thousandths: the iced one if there is ice.
#[tactic(auto, unfolding(model::specs::Force::coefficient))]
fn coefficient(t: Length, item: Item) -> u16
    requires { fields_in_range item ≡ true }
    ensures { (result ≡ force.coefficient t item) × (result ≤ 3000) }
{
    if t.0 == 0 { item.bare } else { item.iced }
}

// Coefficient · K · area, in millionths of mm².
#[tactic(auto, using(crate::proofs::Facts::item_bounds), unfolding(model::specs::Force::item_part, model::specs::Areas::item_area))]
pub fn item_part(ice: Ice, item: Item) -> u64
    requires { fields_in_range item ≡ true }
    ensures value { result ≡ item_part ice.thickness item }
    ensures small { result ≤ largest_item }
{
    let area = iced_area(ice, item.width, item.length);
    let coefficient = coefficient(ice.thickness, item);
    (coefficient as u64) * (item.position as u64) * area.0
}
