// Bytes in hexadecimal, two digits a byte.
ghost use Rattle.std.specs.Prelude.{◌≡◌, ◌<◌, ◌≤◌, length, slice_index, IfOk};
ghost use Rattle.lines.specs.Copied.{result_copied, filled};
ghost use Rattle.lines.specs.Hex.{hex_digit, hex_value, pair_value, bytes_in};

// What is wrong with a text: it is none in hexadecimal, or of more bytes than there is room for.
#[derive(Clone, Copy, Debug, PartialEq, Eq)]
pub enum HexError {
    Bad,
    Many,
}

fn hex_value(digit: u8) -> Option<u8>
    ensures { result ≡ hex_value digit }
{
    match digit {
        b'0'..=b'9' => Some(digit - b'0'),
        b'A'..=b'F' => Some(digit - b'A' + 10),
        b'a'..=b'f' => Some(digit - b'a' + 10),
        _ => None,
    }
}

// The byte of two digits.
fn pair_value(pair: &[u8]) -> Option<u8>
    requires { length pair.now ≡ 2 }
    ensures { result ≡ pair_value (slice_index pair.now 0) (slice_index pair.now 1) }
{
    Some(hex_value(pair[0])? * 16 + hex_value(pair[1])?)
}

// Puts the bytes of a text at the start of out, and answers how many they are.
pub fn read_hex(text: &[u8], out: &mut [u8]) -> Result<usize, HexError>
    ensures value { filled out.new result ≡ bytes_in (length out.old) text.now }
    ensures within { IfOk result (λ count. count ≤ length out.old) }
{
    if text.len() % 2 == 1 {
        return Err(HexError::Bad);
    }
    let count = text.len() / 2;
    if out.len() < count {
        return Err(HexError::Many);
    }
    for (i, pair) in text.chunks_exact(2).enumerate() {
        out[i] = pair_value(pair).ok_or(HexError::Bad)?;
    }
    Ok(count)
}

// The bytes of a text, which are put at the start of out.
pub fn lent_hex<'a>(text: &[u8], out: &'a mut [u8]) -> Result<&'a [u8], HexError>
    ensures value { result_copied result ≡ bytes_in (length out.old) text.now }
    ensures within { IfOk result (λ bytes. length bytes.now ≤ length out.old) }
{
    let count = read_hex(text, out)?;
    Ok(&out[..count])
}

pub(crate) fn hex_digit(value: u8) -> u8
    requires { value < 16 }
    ensures { result ≡ hex_digit value }
{
    b"0123456789abcdef"[usize::from(value)]
}
