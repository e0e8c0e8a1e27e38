// What is wrong with a case.
ghost use Rattle.std.specs.Prelude.{◌≡◌, true, ◌≤◌, None, Some, OnOk, IfOk, IfErr};
ghost use Rattle.areas.specs.Fits.{fits_under};
ghost use Rattle.case_words.specs.Faults.{groups_end, section_fault, fault_of};

use crate::sound::SoundCase;
use crate::{Case, Fault};
use areas::ice::Ice;
use areas::ranges::{fits_under, groups_fit, sizes_fit};
use model::ranges::{ICE_CLASSES, LEG_COUNT, PRESSURES, STRUCTURE_FACTOR};
use model::{Legs, Section};

// The place after the groups.
pub fn groups_end(section: &Section) -> usize
    ensures value { result ≡ groups_end section.now }
    ensures within { result ≤ 32 }
{
    8 + 3 * section.groups.len()
}

// The section, where there are n numbers.
#[tactic(auto, using(crate::proofs::Solidity::solid_decides), unfolding(crate::specs::Faults::section_fault))]
fn test_section(ice: Ice, n: usize, section: &Section) -> Result<(), Fault>
    ensures none { OnOk result (section_fault ice.thickness n section.now ≡ None) }
    ensures stands { OnOk result (fits_under ice.thickness section.now ≡ true) }
    ensures first { IfErr result (λ fault. section_fault ice.thickness n section.now ≡ Some fault) }
{
    if !sizes_fit(section) {
        return Err(Fault::Sizes);
    }
    if n < groups_end(section) {
        return Err(Fault::Missing);
    }
    if !groups_fit(&section.groups) {
        return Err(Fault::Groups);
    }
    if !fits_under(ice.thickness, section) {
        return Err(Fault::Solidity);
    }
    Ok(())
}

// A case that was read from n numbers.
#[tactic(auto, unfolding(crate::specs::Faults::fault_of))]
pub fn test_case(case: &Case, n: usize) -> Result<SoundCase, Fault>
    ensures none { OnOk result (fault_of case.now n ≡ None) }
    ensures sound { IfOk result (λ sound. sound.case.now ≡ case.now) }
    ensures first { IfErr result (λ fault. fault_of case.now n ≡ Some fault) }
{
    if n < 8 {
        return Err(Fault::Missing);
    }
    if !LEG_COUNT.contains(case.legs) {
        return Err(Fault::Legs);
    }
    if !Legs::from(case.legs).allows_direction(case.direction) {
        return Err(Fault::Direction);
    }
    if !ICE_CLASSES.contains(case.ice) {
        return Err(Fault::Ice);
    }
    if !STRUCTURE_FACTOR.contains(case.factor) {
        return Err(Fault::Factor);
    }
    if !PRESSURES.contains(u32::from(case.pressure)) {
        return Err(Fault::Pressure);
    }
    test_section(Ice::of_class(case.ice), n, &case.section)?;
    Ok(SoundCase { case })
}
