// Parts of one kind, one behind another.
ghost use Rattle.std.specs.Prelude.{ℕ, Bool, true, List, ◌≡◌, ◌+◌, ◌≤◌, length, map, IfOk};
ghost use Rattle.arrayvec.specs.ArrayVec.{array_vec_len};
ghost use Rattle.counted.specs.Elements.{elements, element_count};
ghost use Rattle.model.specs.Lists.{joined, all_of};
ghost use Rattle.model.specs.Reading.{Parsed, many};
ghost use Rattle.model.specs.Bytes.{bytes};
ghost use Rattle.file_fields.specs.Outcomes.{ReadsAs};
ghost use Rattle.file_fields.specs.Written.{Puts};

use arrayvec::ArrayVec;
use counted::Counted;
use file_fields::Parsed;
use file_fields::fields::write_field;
use model::Refusal;

// What is read from the bytes that remain. A program's value may stand for one of another type.
pub trait FromBytes {
    ghost Value: { Type 0 };

    ghost value_of: { Self → Value };

    ghost reading: { List ℕ → Parsed Value };

    fn read(file: &[u8]) -> Parsed<Self>
        ensures { ReadsAs (λ read. value_of read.0) (λ read. read.1) file.now (reading file.now) result };
}

// Appends so many parts to a vector, in the file's order, and answers the place behind them.
pub fn read_each<T: FromBytes + Drop, const N: usize>(
    file: &[u8],
    count: usize,
    parts: &mut ArrayVec<T, N>,
) -> Result<usize, Refusal>
    requires { array_vec_len parts.old + count ≤ N }
    ensures { ReadsAs (λ next. map T.value_of parts.new.items) (λ next. next) file.now
        (many (λ earlier. T.reading) count (map T.value_of parts.old.items) file.now) result }
{
    let mut at = 0;
    for _index in 0..count {
        let (part, used) = T::read(&file[at..])?;
        parts.push(part);
        at += used;
    }
    Ok(at)
}

// What is read from the bytes that remain, with no count in it beyond its array.
pub trait StoredFromBytes {
    ghost Value: { Type 0 };

    ghost value_of: { Self → Value };

    ghost reading: { List ℕ → Parsed Value };

    // Whether no count in it is beyond its array.
    ghost stored: { Self → Bool };

    fn read_stored(file: &[u8]) -> Parsed<Self>
        ensures says { ReadsAs (λ read. value_of read.0) (λ read. read.1) file.now (reading file.now) result }
        ensures stored { IfOk result (λ read. stored read.0 ≡ true) };
}

// Appends so many of them, in the file's order, and answers the place behind them.
pub fn read_each_stored<T: StoredFromBytes + Drop, const N: usize>(
    file: &[u8],
    count: usize,
    parts: &mut Counted<T, N>,
) -> Result<usize, Refusal>
    requires { element_count parts.old + count ≤ N }
    ensures says { ReadsAs (λ next. map T.value_of (elements parts.new)) (λ next. next) file.now
        (many (λ earlier. T.reading) count (map T.value_of (elements parts.old)) file.now) result }
    ensures count { parts.old.count ≤ N → parts.new.count ≤ N }
    ensures stored { all_of T.stored (elements parts.old) ≡ true → all_of T.stored (elements parts.new) ≡ true }
{
    let mut at = 0;
    for _ in 0..count {
        let (part, used) = T::read_stored(&file[at..])?;
        parts.push(part);
        at += used;
    }
    Ok(at)
}

// What is written as bytes of its own.
pub trait ToBytes {
    ghost bytes_of: { Self → List ℕ };

    // Puts its bytes at the start of out and answers how many they are.
    fn write(&self, out: &mut [u8]) -> usize
        requires { length (bytes_of self.now) ≤ length out.old }
        ensures { Puts (bytes_of self.now) out.old out.new result };
}

pub fn write_each<T: ToBytes>(out: &mut [u8], parts: &[T]) -> usize
    requires { length (joined T.bytes_of parts.now) ≤ length out.old }
    ensures { Puts (joined T.bytes_of parts.now) out.old out.new result }
{
    let mut at = 0;
    for part in parts {
        at += part.write(&mut out[at..]);
    }
    at
}

// A number of a row, in all its bytes.
impl ToBytes for u64 {
    ghost bytes_of = { bytes 8 };

    #[tactic(auto, unfolding(model::specs::Bytes::bytes))]
    fn write(&self, out: &mut [u8]) -> usize {
        write_field(out, 8, *self)
    }
}
