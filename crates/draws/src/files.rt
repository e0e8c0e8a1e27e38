// A file that is put together.
ghost use Rattle.std.specs.Prelude.{◌≤◌};

use counted::Counted;

// A tower file, sound or damaged. That of the largest tower has 2915 bytes.
#[derive(Clone, Copy, Debug, PartialEq, Eq)]
pub struct File {
    pub bytes: Counted<u8, 3000>,
    ghost few: { bytes.count ≤ 3000 },
}

impl File {
    pub(crate) fn new() -> File {
        File {
            bytes: Counted::new(),
        }
    }

    // Adds the number's low bytes, high byte first, as far as there is room.
    pub(crate) fn put(&mut self, width: usize, number: u32)
        requires { width ≤ 4 }
    {
        for b in &number.to_be_bytes()[4 - width..] {
            if self.bytes.len() < 3000 {
                self.bytes.push(*b);
            }
        }
    }
}
