// An input that is read whole or not at all.
ghost use Rattle.std.specs.Prelude.{IfOk, IfSome, ◌≡◌, ◌≤◌, length};
ghost use Rattle.std.specs.Option.{option_map};
ghost use Rattle.lines.specs.Input.{within};

use std::alloc::Allocator;
use std::io;
use std::io::Read;

// All that is left to read, or none of it where it has more bytes than `most`.
#[tactic(auto, using(crate::proofs::Whole::whole_taken))]
pub fn read_within<R: Read + Drop, A: Allocator + Drop>(
    input: R,
    most: u32,
    alloc: A,
) -> io::Result<Option<Vec<u8, A>>>
    ensures bound { IfOk result (λ read. IfSome read (λ bytes. length bytes.items ≤ most)) }
    ensures bytes { IfOk result (λ read. IfSome (R.remaining input) (λ xs.
        option_map (λ bytes. bytes.items) read ≡ within most xs)) }
{
    let mut bytes = Vec::new(alloc);
    input.take(u64::from(most) + 1).read_to_end(&mut bytes)?;
    if (most as usize) < bytes.len() {
        Ok(None)
    } else {
        Ok(Some(bytes))
    }
}
