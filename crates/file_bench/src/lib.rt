// For a benchmark: a tower file read or written many times in one call, and the numbers of its fields by either reader.
#![tactic(auto)]

ghost use Rattle.std.specs.Prelude.{◌≤◌, ◌≡◌, map, length};
ghost use Rattle.file_fields.specs.Outcomes.{ReadsField};
ghost use Rattle.file_fields.specs.Written.{Puts};
ghost use Rattle.model.specs.Tower.{tower_of};
ghost use Rattle.tower_file.specs.Stored.{ReadsFile};
ghost use Rattle.tower_file.specs.Written.{WritesFile};
ghost use Rattle.file_bench.specs.Timed.{length_in, Timed};
ghost use Rattle.file_bench.specs.Numbers.{number_at, GivesNumbers};

use file_fields::Parsed;
use file_fields::fields::{read_bytes, read_field};
use model::{Refusal, Tower};
use tower_file::file::{read, write};

// The answer where nothing was written.
const NONE: u64 = u64::MAX;

// The last of so many readings; there is one at least.
fn read_times(file: &[u8], times: u64) -> Result<Tower, Refusal>
    ensures { ReadsFile file.now result }
{
    let mut got = read(file);
    for _ in 1..times {
        got = read(file);
    }
    got
}

// The last of so many writings; there is one at least.
fn write_times(tower: &Tower, times: u64, out: &mut [u8]) -> Result<usize, Refusal>
    ensures { WritesFile (tower_of tower.now) out.old out.new result }
{
    let mut answer = write(tower, out);
    for _ in 1..times {
        answer = write(tower, out);
    }
    answer
}

fn length_in(answer: Result<usize, Refusal>) -> u64
    ensures { result ≡ length_in answer }
{
    answer.map_or(NONE, |length| length as u64)
}

fn timed(file: &[u8], reads: u64, writes: u64, out: &mut [u8]) -> Result<usize, Refusal>
    ensures { Timed file.now 1 out.old out.new (length_in result) }
{
    write_times(&read_times(file, reads)?, writes, out)
}

// Reads the file so many times and writes its tower into out.
#[tactic(auto, unfolding(crate::specs::Timed::is_timed, crate::specs::Timed::answer_of, crate::specs::Timed::bytes_of))]
#[unsafe(no_mangle)]
pub extern "C" fn read_bench(file: &[u8], rounds: u64, out: &mut [u8]) -> u64
    ensures { Timed file.now rounds out.old out.new result }
{
    if rounds == 0 {
        return NONE;
    }
    length_in(timed(file, rounds, 1, out))
}

// Reads the file and writes its tower into out so many times.
#[tactic(auto, unfolding(crate::specs::Timed::is_timed, crate::specs::Timed::answer_of, crate::specs::Timed::bytes_of))]
#[unsafe(no_mangle)]
pub extern "C" fn write_bench(file: &[u8], rounds: u64, out: &mut [u8]) -> u64
    ensures { Timed file.now rounds out.old out.new result }
{
    if rounds == 0 {
        return NONE;
    }
    length_in(timed(file, 1, rounds, out))
}

// A reader of fields of up to four bytes.
trait Reader {
    fn read(file: &[u8], at: usize, width: usize) -> Parsed<u32>
        requires { (at ≤ length file.now) × (width ≤ 4) }
        ensures { ReadsField width file.now at result };
}

struct ByWord;

impl Reader for ByWord {
    fn read(file: &[u8], at: usize, width: usize) -> Parsed<u32> {
        read_field(file, at, width)
    }
}

struct ByByte;

impl Reader for ByByte {
    fn read(file: &[u8], at: usize, width: usize) -> Parsed<u32> {
        read_bytes(file, at, width)
    }
}

// The number of the field at a place.
fn number_at<R: Reader>(file: &[u8], at: usize, width: usize) -> u64
    requires { (1 ≤ width) × (width ≤ 4) }
    ensures { result ≡ number_at width file.now at }
{
    if file.len() < at {
        return NONE;
    }
    R::read(file, at, width).map_or(NONE, |(number, _)| u64::from(number))
}

// The numbers of the fields at these places, put at the start of out.
fn put_numbers<R: Reader>(file: &[u8], places: &[u64], width: usize, out: &mut [u64]) -> usize
    requires width { (1 ≤ width) × (width ≤ 4) }
    requires room { length places.now ≤ length out.old }
    ensures { Puts (map (number_at width file.now) places.now) out.old out.new result }
{
    for (i, at) in places.iter().enumerate() {
        out[i] = number_at::<R>(file, *at as usize, width);
    }
    places.len()
}

fn fields_by<R: Reader>(file: &[u8], twos: &[u64], fours: &[u64], out: &mut [u64]) -> u64
    ensures { GivesNumbers file.now twos.now fours.now out.old out.new result }
{
    if out.len() < twos.len() + fours.len() {
        return NONE;
    }
    let at = put_numbers::<R>(file, twos, 2, out);
    let end = at + put_numbers::<R>(file, fours, 4, &mut out[at..]);
    end as u64
}

// The numbers of the two-byte fields at the first places and of the four-byte fields at the others, put at the start
// of out.
#[unsafe(no_mangle)]
pub extern "C" fn word_fields_bench(
    file: &[u8],
    twos: &[u64],
    fours: &[u64],
    out: &mut [u64],
) -> u64
    ensures { GivesNumbers file.now twos.now fours.now out.old out.new result }
{
    fields_by::<ByWord>(file, twos, fours, out)
}

// The same, byte by byte.
#[unsafe(no_mangle)]
pub extern "C" fn byte_fields_bench(
    file: &[u8],
    twos: &[u64],
    fours: &[u64],
    out: &mut [u64],
) -> u64
    ensures { GivesNumbers file.now twos.now fours.now out.old out.new result }
{
    fields_by::<ByByte>(file, twos, fours, out)
}
