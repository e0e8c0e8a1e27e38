// What the reader and the writer make of a file.
ghost use Rattle.std.specs.Prelude.{◌≤◌};

use crate::digest::tower_digest;
use crate::files::MOST_BYTES;
use crate::wrong::Wrong;
use lines::digest::digest_of;
use model::{Refusal, Tower};
use std::fmt;
use tower_file::file::{file_length, read, write};

// Write's answer, the digest of the tower where it is asked for, and that of the lent bytes.
#[derive(Clone, Copy, Debug, PartialEq, Eq)]
pub(crate) struct Answer {
    written: Result<usize, Refusal>,
    tower: Option<u64>,
    lent: u64,
}

impl fmt::Display for Answer {
    fn fmt<W: fmt::Write>(&self, f: &mut fmt::Formatter<W>) -> fmt::Result {
        match self.written {
            Ok(length) => write!(f, "ok {length}")?,
            Err(refusal) => write!(f, "refused {}", u32::from(refusal))?,
        }
        if let Some(tower) = self.tower {
            write!(f, " {tower}")?;
        }
        write!(f, " {}", self.lent)
    }
}

// Bytes to lend: five more than a file may have.
const LENT: [u8; MOST_BYTES + 5] = [165; MOST_BYTES + 5];

// The tower is written into so many lent bytes.
fn answer_in(tower: &Tower, room: usize, digest: Option<u64>) -> Answer
    requires { room ≤ 4005 }
{
    let mut lent = LENT;
    let lent = &mut lent[..room];
    let written = write(tower, lent);
    Answer {
        written,
        tower: digest,
        lent: digest_of(lent),
    }
}

pub(crate) fn answer_file(file: &[u8]) -> Result<Answer, Wrong> {
    let tower = read(file)?;
    let room = file_length(&tower).min(MOST_BYTES) + 5;
    Ok(answer_in(&tower, room, Some(tower_digest(&tower))))
}

pub(crate) fn answer_room(file: &[u8], room: usize) -> Result<Answer, Wrong>
    requires { room ≤ 4000 }
{
    Ok(answer_in(&read(file)?, room, None))
}
