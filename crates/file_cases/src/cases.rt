// What a line is, and its numbers.
ghost use Rattle.std.specs.Prelude.{◌≡◌, ◌≤◌, length, IfOk};
ghost use Rattle.file_cases.specs.Cases.{kind_byte, kind_in};

use crate::wrong::Wrong;
use lines::numbers::lent_numbers;

// By its first byte: f, c, s, a or r.
#[derive(Clone, Copy, Debug, PartialEq, Eq)]
pub(crate) enum Kind {
    File,
    First,
    Changed,
    Longer,
    Room,
}

#[tactic(auto, unfolding(crate::specs::Cases::kind_byte))]
fn kind_byte(b: u8) -> Option<Kind>
    ensures { result ≡ kind_byte b }
{
    match b {
        b'f' => Some(Kind::File),
        b'c' => Some(Kind::First),
        b's' => Some(Kind::Changed),
        b'a' => Some(Kind::Longer),
        b'r' => Some(Kind::Room),
        _ => None,
    }
}

#[tactic(auto, using(crate::proofs::Letters::letters))]
pub(crate) fn kind_of(line: &[u8]) -> Option<Kind>
    ensures { result ≡ kind_in line.now }
{
    match line {
        [b] | [b, b' ', ..] => kind_byte(*b),
        _ => None,
    }
}

// A letter alone has none, which only f may have.
pub(crate) fn numbers_in<'a>(
    kind: Kind,
    line: &[u8],
    out: &'a mut [u64],
) -> Result<&'a [u64], Wrong>
    ensures { IfOk result (λ numbers. length numbers.now ≤ length out.old) }
{
    match line.get(2..) {
        Some(text) => Ok(lent_numbers(text, out)?),
        None if kind == Kind::File => Ok(&[]),
        None => Err(Wrong::Count),
    }
}
