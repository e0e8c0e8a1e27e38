// Document 02, M-103: the lesser winds of a section's groups.
ghost use Rattle.std.specs.Prelude.{◌≡◌, true, false, ◌*◌, ◌/◌, ◌≤◌, ◌<◌, take, length, IfSome, option_to_list};
ghost use Rattle.model.specs.Lists.{any_of};
ghost use Rattle.model.specs.Areas.{size_of, flow_limit, lesser_of};
ghost use Rattle.areas.specs.LesserPressures.{turns_above, Needless, WindOf};

use crate::face::Face;
use crate::section::{FLOW_LIMIT, is_supercritical};
use model::Member;
use units::Length;

// The greatest whole pressure at which a diameter is not supercritical that is supercritical under q.
fn greatest_subcritical(q: u16, d: Length) -> u16
    requires { (d.0 ≤ 1000) × (flow_limit < 2 * q * (d.0 * d.0)) }
    ensures { (result ≡ flow_limit / (2 * (d.0 * d.0))) × (0 < result) × (result < q) }
{
    let p = FLOW_LIMIT / (2 * (d.0 * d.0));
    p as u16
}

// The lesser wind of a member under q.
#[tactic(auto, unfolding(model::specs::Areas::lesser_of))]
fn lesser_pressure(t: Length, q: u16, member: Member) -> Option<u16>
    requires { (size_of member).0 ≤ 1000 }
    ensures lesser { lesser_of t q member ≡ option_to_list result }
    ensures below { IfSome result (λ p. (0 < p) × (p < q)) }
{
    match member {
        Member::Round(d) if is_supercritical(t, q, d) => Some(greatest_subcritical(q, d)),
        _ => None,
    }
}

// Whether p is the lesser wind of a member under a higher pressure.
#[tactic(auto, unfolding(crate::specs::LesserPressures::turns_above))]
fn turns_above(t: Length, p: u16, member: Member) -> bool
    requires { p < 65_535 }
    ensures { result ≡ turns_above t p member }
{
    match member {
        Member::Flat(_) => false,
        Member::Round(d) => !is_supercritical(t, p, d) && is_supercritical(t, p + 1, d),
    }
}

impl<'a> Face<'a> {
    // Whether one of the first i groups has the lesser wind p under a higher pressure.
    fn came_before(&self, t: Length, p: u16, i: usize) -> bool
        requires { (i ≤ length self.now.groups.now) × (p < 65_535) }
        ensures { result ≡ any_of (λ g. turns_above t p g.member) (take i self.now.groups.now) }
    {
        self.groups[..i]
            .iter()
            .any(|group| turns_above(t, p, group.member))
    }

    // Whether group i need not be worked out in its lesser wind p.
    #[tactic(auto, using(crate::proofs::LesserPressures::came_before))]
    fn is_needless(&self, t: Length, q: u16, p: u16, i: usize) -> bool
        requires { (i < length self.now.groups.now) × (p < q) }
        ensures needless { result ≡ true → Needless t q self.now.groups.now i p }
        ensures worked_out { result ≡ false → q < 4 * p }
    {
        4 * (p as u32) <= q as u32 || self.came_before(t, p, i)
    }

    // The lesser wind that the section is to be worked out in for group i, if there is one. It is above a quarter of q.
    pub fn lesser_wind(&self, t: Length, q: u16, i: usize) -> Option<u16>
        requires { i < length self.now.groups.now }
        ensures wind { WindOf t q self.now.groups.now i result }
        ensures above_quarter { IfSome result (λ p. q < 4 * p) }
    {
        let pressure = lesser_pressure(t, q, self.groups[i].member)?;
        (!self.is_needless(t, q, pressure, i)).then_some(pressure)
    }
}
