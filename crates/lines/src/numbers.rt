// The numbers of a line.
ghost use Rattle.std.specs.Prelude.{◌≡◌, ◌≤◌, length, IfOk};
ghost use Rattle.lines.specs.Copied.{result_copied, filled};
ghost use Rattle.lines.specs.Numbers.{numbers_in, digit_value};

use std::fmt;

// What is wrong with a line first: it is no run of numbers with single spaces, one has 10^19 or more, or there is no
// room for so many.
#[derive(Clone, Copy, Debug, PartialEq, Eq)]
pub enum NumbersError {
    Bad,
    Large,
    Many,
}

impl fmt::Display for NumbersError {
    fn fmt<W: fmt::Write>(&self, f: &mut fmt::Formatter<W>) -> fmt::Result {
        f.write_str(match self {
            NumbersError::Bad => "not decimal numbers with single spaces between them",
            NumbersError::Large => "a number is too large",
            NumbersError::Many => "there are too many numbers",
        })
    }
}

// From here on a number has 10^19 or more with one digit more.
const FULL: u64 = 1_000_000_000_000_000_000;

fn digit_value(digit: u8) -> Option<u64>
    ensures { result ≡ digit_value digit }
{
    match digit {
        b'0'..=b'9' => Some(u64::from(digit - b'0')),
        _ => None,
    }
}

// Puts the numbers of a line, with one space between two, at the start of out, and answers how many they are.
pub fn numbers_of(line: &[u8], out: &mut [u64]) -> Result<usize, NumbersError>
    ensures value { filled out.new result ≡ numbers_in (length out.old) line.now }
    ensures within { IfOk result (λ count. count ≤ length out.old) }
{
    let mut count = 0;
    // The number whose digits are being read.
    let mut number = None;
    for b in line {
        number = match (number, digit_value(*b)) {
            (None, None) => return Err(NumbersError::Bad),
            (None, Some(_)) if out.len() <= count => return Err(NumbersError::Many),
            (None, Some(digit)) => Some(digit),
            (Some(n), Some(_)) if FULL <= n => return Err(NumbersError::Large),
            (Some(n), Some(digit)) => Some(n * 10 + digit),
            (Some(_), None) if *b != b' ' => return Err(NumbersError::Bad),
            (Some(n), None) => {
                out[count] = n;
                count += 1;
                None
            }
        };
    }
    let last = number.ok_or(NumbersError::Bad)?;
    out[count] = last;
    Ok(count + 1)
}

// The numbers of a line, which are put at the start of out.
pub fn lent_numbers<'a>(line: &[u8], out: &'a mut [u64]) -> Result<&'a [u64], NumbersError>
    ensures value { result_copied result ≡ numbers_in (length out.old) line.now }
    ensures within { IfOk result (λ numbers. length numbers.now ≤ length out.old) }
{
    let count = numbers_of(line, out)?;
    Ok(&out[..count])
}
