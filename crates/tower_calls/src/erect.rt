// A tower from its file.
ghost use Rattle.std.specs.Prelude.{◌≡◌, true, ◌≤◌, length, map};
ghost use Rattle.std.proofs.Math.Option.{none};
ghost use Rattle.model.specs.Lists.{all_of};
ghost use Rattle.model.specs.File.{fields_in_range};
ghost use Rattle.model.specs.Answers.{answer_reply};
ghost use Rattle.model.specs.Machine.{standing};
ghost use Rattle.model.specs.Calls as call;
ghost use Rattle.model.specs.Tower.{section_of, tower_of};
ghost use Rattle.model.specs.Valid.{section_fits, ValidTower};
ghost use Rattle.slots.specs.Held.{state_of, PutSections};
ghost use Rattle.slots.specs.Promises.{Meets};
ghost use Rattle.tower_calls.specs.Placed.{section_in, head_of, PutItems};

use model::{Item, Refusal, Section, Tower};
use slots::head::{COUNT, HELD, LEGS, STANDING};
use slots::items::{ITEMS, item_slot};
use slots::sections::put_section;
use slots::{Slot, State};

fn put_sections(s: &mut State, sections: &[Section])
    requires few { length sections.now ≤ 32 }
    requires fit { all_of section_fits (map section_of sections.now) ≡ true }
    ensures { PutSections (section_in (map section_of sections.now)) (λ _. 0) (length sections.now) s.old s.new }
{
    for (i, section) in sections.iter().enumerate() {
        put_section(s, i, section, 0);
    }
}

fn put_items(s: &mut State, items: &[Item])
    requires few { length items.now ≤ 64 }
    requires fit { all_of fields_in_range items.now ≡ true }
    ensures { PutItems items.now s.old s.new }
{
    for (i, item) in items.iter().enumerate() {
        s[ITEMS + i] = item_slot(*item);
    }
}

// Slot 0 of a tower under no wind.
fn head_slot(tower: &Tower) -> Slot
    ensures { result ≡ head_of (tower_of tower.now) }
{
    let mut head = [0; 12];
    head[STANDING] = 1;
    head[LEGS] = tower.legs as u32;
    head[COUNT] = tower.sections.len() as u32;
    head[HELD] = tower.items.len() as u32;
    head
}

// A tower under no wind in place of everything.
fn put_tower(s: &mut State, tower: &Tower)
    requires { ValidTower (tower_of tower.now) }
    ensures { state_of s.new ≡ standing (tower_of tower.now) none }
{
    put_sections(s, &tower.sections);
    put_items(s, &tower.items);
    s[0] = head_slot(tower);
}

// The tower of the file in place of everything, and no wind.
pub fn erect(s: &mut State, file: &[u8]) -> Result<(), Refusal>
    ensures { Meets (call.erect file.now) s.old s.new (answer_reply result) file.now }
{
    let tower = tower_file::file::read(file)?;
    put_tower(s, &tower);
    Ok(())
}
