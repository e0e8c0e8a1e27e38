// Text that is put in a slice, as far as that reaches.
ghost use Rattle.std.specs.Prelude.{◌≡◌, ◌≤◌, [], ◌∷◌, length, decimal};
ghost use Rattle.lines.specs.Hex.{hex_text};

use crate::hex::hex_digit;
use itoa::Buffer;

// The text so far stands at the start of out.
#[derive(Drop)]
pub struct Text<'a> {
    out: &'a mut [u8],
    len: usize,
    ghost fits: { len ≤ length out.now },
}

impl<'a> Text<'a> {
    ghost use Rattle.lines.specs.Appends.{Appends};

    pub fn new(out: &'a mut [u8]) -> Text<'a>
        ensures same { result.out.ghost_name ≡ out.entry.ghost_name }
        ensures slice { result.out.now ≡ out.old }
        ensures empty { result.len ≡ 0 }
    {
        Text { out, len: 0 }
    }

    pub fn len(&self) -> usize
        ensures { result ≡ self.now.len }
    {
        self.len
    }

    pub fn push(&mut self, b: u8)
        ensures { Appends (b ∷ []) self.old self.new }
    {
        if self.len < self.out.len() {
            self.out[self.len] = b;
            self.len += 1;
        }
    }

    pub fn push_all(&mut self, bytes: &[u8])
        ensures { Appends bytes.now self.old self.new }
    {
        let start = self.len;
        let fit = bytes.len().min(self.out.len() - start);
        self.out[start..start + fit].copy_from_slice(&bytes[..fit]);
        self.len += fit;
    }

    pub fn push_decimal(&mut self, n: u64)
        ensures { Appends (decimal n) self.old self.new }
    {
        self.push_all(Buffer::new().format(n).as_bytes());
    }

    // Two digits a byte.
    pub fn push_hex(&mut self, bytes: &[u8])
        ensures { Appends (hex_text bytes.now) self.old self.new }
    {
        for b in bytes {
            self.push(hex_digit(*b / 16));
            self.push(hex_digit(*b % 16));
        }
    }
}
