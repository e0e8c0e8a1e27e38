// Files made of a line's numbers, and of the base file.
ghost use Rattle.std.specs.Prelude.{◌≡◌, ◌≤◌, ◌++◌, length, IfOk};
ghost use Rattle.arrayvec.specs.ArrayVec.{array_vec_len};

use crate::wrong::Wrong;
use arrayvec::ArrayVec;

pub(crate) const MOST_BYTES: usize = 4000;

pub(crate) type File = ArrayVec<u8, MOST_BYTES>;

pub(crate) fn bytes_of(numbers: &[u64]) -> Result<File, Wrong>
    ensures { IfOk result (λ file. file.items ≡ numbers.now) }
{
    let mut file = File::new();
    for n in numbers {
        let byte = u8::try_from(*n).map_err(|_| Wrong::Byte)?;
        file.try_push(byte)?;
    }
    Ok(file)
}

// The base, and the numbers behind it.
pub(crate) fn longer(base: &[u8], numbers: &[u64]) -> Result<File, Wrong>
    ensures { IfOk result (λ file. file.items ≡ base.now ++ numbers.now) }
{
    let bytes = bytes_of(numbers)?;
    let mut file = File::try_from(base)?;
    file.try_extend_from_slice(&bytes)?;
    Ok(file)
}

// Places of the base, each with the byte that it gets.
pub(crate) fn changed(base: &[u8], numbers: &[u64]) -> Result<File, Wrong>
    ensures { IfOk result (λ file. array_vec_len file ≡ length base.now) }
{
    let (pairs, []) = numbers.as_chunks::<2>() else {
        return Err(Wrong::Count);
    };
    let mut file = File::try_from(base)?;
    for [at, byte] in pairs {
        let place = file.get_mut(*at as usize).ok_or(Wrong::Range)?;
        *place = u8::try_from(*byte).map_err(|_| Wrong::Byte)?;
    }
    Ok(file)
}

// One number, which is at most `most`.
pub(crate) fn at_most(most: usize, numbers: &[u64]) -> Result<usize, Wrong>
    ensures { IfOk result (λ n. n ≤ most) }
{
    match numbers {
        [n] if *n as usize <= most => Ok(*n as usize),
        [_] => Err(Wrong::Range),
        _ => Err(Wrong::Count),
    }
}
