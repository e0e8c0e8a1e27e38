// Slot 0: what stands, and the counts.
ghost use Rattle.std.specs.Prelude.{◌≡◌, ◌≤◌, true, false, IfOk, IfErr};
ghost use Rattle.model.specs.File.{legs_of};
ghost use Rattle.model.specs.declared.Refusal.TheVariants.{NoTower};
ghost use Rattle.slots.specs.Held.{is_standing, count_in, held_in, cell, NextCell};

use crate::{Slot, State};
use model::ranges::{ITEM_COUNT, SECTION_COUNT};
use model::{Legs, Refusal};

// Its cells.
pub const STANDING: usize = 0;

pub const LEGS: usize = 1;

pub const COUNT: usize = 2;

pub const HELD: usize = 3;

pub const WINDY: usize = 4;

pub const DIRECTION: usize = 5;

pub const ICE: usize = 6;

pub const FACTOR: usize = 7;

#[tactic(auto, unfolding(crate::specs::Held::is_standing))]
pub fn is_standing(s: &State) -> bool
    ensures { result ≡ is_standing s.now }
{
    s[0][STANDING] == 1
}

// The first rule of each call but erect.
pub fn expect_tower(s: &State) -> Result<(), Refusal>
    ensures stands { IfOk result (λ _. is_standing s.now ≡ true) }
    ensures fallen { IfErr result (λ e. (e ≡ NoTower) × (is_standing s.now ≡ false)) }
{
    is_standing(s).then_some(()).ok_or(Refusal::NoTower)
}

pub fn legs_in(s: &State) -> Legs
    ensures { result ≡ legs_of (cell s.now 0 1) }
{
    Legs::from(s[0][LEGS])
}

// The number of sections.
#[tactic(auto, unfolding(crate::specs::Held::count_in))]
pub fn count_in(s: &State) -> usize
    ensures { (result ≡ count_in s.now) × (result ≤ 32) }
{
    s[0][COUNT].min(SECTION_COUNT.high) as usize
}

// The number of items.
#[tactic(auto, unfolding(crate::specs::Held::held_in))]
pub fn held_in(s: &State) -> usize
    ensures { (result ≡ held_in s.now) × (result ≤ 64) }
{
    s[0][HELD].min(ITEM_COUNT.high) as usize
}

// Slot 0 with another number of items.
pub fn set_held(head: &mut Slot, held: usize)
    requires { held ≤ 64 }
    ensures { NextCell head.old 3 held head.new }
{
    head[HELD] = held as u32;
}
