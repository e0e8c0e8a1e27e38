// The first word of a line.
ghost use Rattle.std.specs.Prelude.{◌≡◌};
ghost use Rattle.requests.specs.Words.{word_of};

use crate::{Verb, Word};

pub(crate) fn word_of(word: &[u8]) -> Option<Word>
    ensures { result ≡ word_of word.now }
{
    match word {
        b"hang" => Some(Word::Numbered(Verb::Hang)),
        b"takedown" => Some(Word::Numbered(Verb::TakeDown)),
        b"report" => Some(Word::Numbered(Verb::Report)),
        b"check" => Some(Word::Numbered(Verb::Check)),
        b"wind" => Some(Word::Numbered(Verb::Wind)),
        b"erect" => Some(Word::Erect),
        b"write" => Some(Word::Numbered(Verb::Write)),
        b"help" => Some(Word::Numbered(Verb::Help)),
        _ => None,
    }
}
