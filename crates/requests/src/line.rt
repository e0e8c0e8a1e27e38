// A whole line. The numbers of a request are put at the start of `numbers`, the bytes of an erect at the start of
// `file`.
ghost use Rattle.std.specs.Prelude.{◌≡◌, ℕ, List, length, IfOk};
ghost use Rattle.std.specs.Option.{option_copied};
ghost use Rattle.requests.specs.Asked.{Room, asked_alone, asked_text, asked_in};
ghost use Rattle.requests.specs.Words.{space_in, first_word, rest_of};
ghost use Rattle.requests.specs.Decoded.{Decoded, Within, asked_from, Filled, CountWithin};

use crate::words::word_of;
use crate::{Fault, LentRequest, Request, Word};
use lines::hex::read_hex;
use lines::numbers::numbers_of;

// The bytes of the longest request: an erect with 3000 bytes.
pub const LONGEST: usize = 6006;

fn space_in(line: &[u8]) -> Option<usize>
    ensures { result ≡ space_in line.now }
{
    line.iter().position(|b| *b == b' ')
}

// The first word, and what follows the space after it.
fn split_word(line: &[u8]) -> (&[u8], Option<&[u8]>)
    ensures word { result.0.now ≡ first_word line.now }
    ensures rest { option_copied result.1 ≡ rest_of line.now }
{
    match space_in(line) {
        Some(end) => (&line[..end], Some(&line[end + 1..])),
        None => (line, None),
    }
}

// A word alone.
#[tactic(auto, unfolding(crate::specs::Asked::asked_alone))]
fn read_word(word: Word) -> Request<usize, usize>
    ensures asks { (room : Room) (numbers file : List ℕ)
        → asked_from numbers file room (Ok result) ≡ asked_alone room word }
    ensures within { (most bytes : ℕ) → CountWithin most bytes result }
{
    match word {
        Word::Numbered(verb) => Request::Numbered(verb, 0),
        Word::Erect => Request::Erect(0),
    }
}

// A word and what follows the space after it.
#[tactic(auto, unfolding(crate::specs::Asked::asked_text, crate::specs::Asked::numbers_text, crate::specs::Asked::erect_text))]
fn fill_text(
    word: Word,
    text: &[u8],
    numbers: &mut [u64],
    file: &mut [u8],
) -> Result<Request<usize, usize>, Fault>
    ensures asks { Filled (λ room. asked_text room word text.now) (length numbers.old) (length file.old)
        numbers.new file.new result }
    ensures within { IfOk result (CountWithin (length numbers.old) (length file.old)) }
{
    match word {
        Word::Numbered(verb) => Ok(Request::Numbered(verb, numbers_of(text, numbers)?)),
        Word::Erect => Ok(Request::Erect(read_hex(text, file)?)),
    }
}

// A line, without its end, as a request with how many numbers or bytes it has.
#[tactic(auto, unfolding(crate::specs::Asked::asked_in))]
pub fn read_line(
    line: &[u8],
    numbers: &mut [u64],
    file: &mut [u8],
) -> Result<Request<usize, usize>, Fault>
    ensures asks { Filled (λ room. asked_in room line.now) (length numbers.old) (length file.old)
        numbers.new file.new result }
    ensures within { IfOk result (CountWithin (length numbers.old) (length file.old)) }
{
    if LONGEST < line.len() {
        return Err(Fault::LongLine);
    }
    let (word, rest) = split_word(line);
    let word = word_of(word).ok_or(Fault::NoRequest)?;
    match rest {
        Some(text) => fill_text(word, text, numbers, file),
        None => Ok(read_word(word)),
    }
}

// The same as a request with these themselves.
pub fn lent_request<'n, 'f>(
    line: &[u8],
    numbers: &'n mut [u64],
    file: &'f mut [u8],
) -> Result<LentRequest<'n, 'f>, Fault>
    ensures asks { Decoded (λ room. asked_in room line.now) (length numbers.old) (length file.old) result }
    ensures within { IfOk result (Within (length numbers.old) (length file.old)) }
{
    Ok(match read_line(line, numbers, file)? {
        Request::Numbered(verb, count) => Request::Numbered(verb, &numbers[..count]),
        Request::Erect(count) => Request::Erect(&file[..count]),
    })
}
