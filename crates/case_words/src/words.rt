// A number at a place, and numbers cut down to their types: the largest where they do not fit.
ghost use Rattle.std.specs.Prelude.{◌≡◌};
ghost use Rattle.case_words.specs.Words.{at, in32, in16, in8};

// 0 past the end.
pub fn word(numbers: &[u64], i: usize) -> u64
    ensures { result ≡ at numbers.now i }
{
    numbers.get(i).copied().unwrap_or(0)
}

pub fn word32(numbers: &[u64], i: usize) -> u32
    ensures { result ≡ in32 (at numbers.now i) }
{
    u32::try_from(word(numbers, i)).unwrap_or(u32::MAX)
}

pub fn word16(numbers: &[u64], i: usize) -> u16
    ensures { result ≡ in16 (at numbers.now i) }
{
    u16::try_from(word(numbers, i)).unwrap_or(u16::MAX)
}

pub fn word8(numbers: &[u64], i: usize) -> u8
    ensures { result ≡ in8 (at numbers.now i) }
{
    u8::try_from(word(numbers, i)).unwrap_or(u8::MAX)
}
