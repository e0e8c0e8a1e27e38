// A field: unsigned, high byte first.
ghost use Rattle.std.specs.Prelude.{ℕ, ◌≤◌, ◌≡◌, length, drop};
ghost use Rattle.model.specs.Answers.{refusal_number};
ghost use Rattle.model.specs.Reading.{ranged};
ghost use Rattle.model.specs.Bytes.{bytes};
ghost use Rattle.file_fields.specs.Outcomes.{Reads, ReadsField};
ghost use Rattle.file_fields.specs.Written.{Puts};

use crate::Parsed;
use model::{Range, Refusal};

// Each reader answers the number of the field at a place, and the next place. This one fetches the field as one number.
pub fn fetch<const N: usize>(file: &[u8], at: usize) -> Parsed<u32>
    requires place { at ≤ length file.now }
    requires width { N ≤ 4 }
    ensures { ReadsField N file.now at result }
{
    let Some(bytes) = file[at..].first_chunk::<N>() else {
        return Err(Refusal::FileEnds);
    };
    let mut word = [0; 4];
    word[4 - N..].copy_from_slice(bytes);
    Ok((u32::from_be_bytes(word), at + N))
}

// A field of any width, byte by byte.
pub fn read_bytes(file: &[u8], at: usize, width: usize) -> Parsed<u32>
    requires { (at ≤ length file.now) × (width ≤ 4) }
    ensures { ReadsField width file.now at result }
{
    let Some(bytes) = file[at..].get(..width) else {
        return Err(Refusal::FileEnds);
    };
    let mut value: u32 = 0;
    for b in bytes {
        value = value * 256 + u32::from(*b);
    }
    Ok((value, at + width))
}

// The reader for the field's width. As document 01 has it, its answer is taken apart by let .. else; it is refused only
// where the file ends.
pub fn read_field(file: &[u8], at: usize, width: usize) -> Parsed<u32>
    requires { (at ≤ length file.now) × (width ≤ 4) }
    ensures { ReadsField width file.now at result }
{
    match width {
        2 => fetch::<2>(file, at),
        4 => fetch::<4>(file, at),
        _ => read_bytes(file, at, width),
    }
}

// The same, where a number outside the range is refused.
pub fn read_ranged(
    file: &[u8],
    at: usize,
    width: usize,
    range: Range,
    outside: Refusal,
) -> Parsed<u32>
    requires { (at ≤ length file.now) × (width ≤ 4) }
    ensures { Reads ℕ file.now (ranged width range (refusal_number outside) (drop at file.now)) result }
{
    let Ok((value, next)) = read_field(file, at, width) else {
        return Err(Refusal::FileEnds);
    };
    if !range.contains(value) {
        return Err(outside);
    }
    Ok((value, next))
}

// Puts the number's bytes at the start of out and answers how many they are. A field of more than eight begins with
// zeros.
pub fn write_field(out: &mut [u8], width: usize, value: u64) -> usize
    requires { width ≤ length out.old }
    ensures { Puts (bytes width value) out.old out.new result }
{
    let zeros = width.saturating_sub(8);
    out[..zeros].fill(0);
    out[zeros..width].copy_from_slice(&value.to_be_bytes()[8 - (width - zeros)..]);
    width
}
