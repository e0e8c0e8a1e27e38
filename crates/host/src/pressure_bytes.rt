// The pressures of a host program.
ghost use Rattle.std.specs.Prelude.{◌≡◌, ◌≤◌, length};
ghost use Rattle.model.specs.Host.{pressures_of};
ghost use Rattle.host.specs.Promises.{pressures_asked};

use arrayvec::ArrayVec;

// Pressures of 2 bytes each, high byte first.
fn pressures_of(bytes: &[u8]) -> ArrayVec<u16, 32>
    requires { length bytes.now ≤ 64 }
    ensures { result.items ≡ pressures_of bytes.now }
{
    let mut pressures = ArrayVec::new();
    for pair in bytes.as_chunks::<2>().0 {
        pressures.push(u16::from_be_bytes(*pair));
    }
    pressures
}

// Where there are not 2 bytes per section, wind is given no pressure, so that a tower with a section turns it down with
// 18 if not with 15, 16 or 17.
pub(crate) fn pressures_asked(sections: usize, bytes: &[u8]) -> ArrayVec<u16, 32>
    requires { sections ≤ 32 }
    ensures { result.items ≡ pressures_asked sections bytes.now }
{
    if bytes.len() != 2 * sections {
        return ArrayVec::new();
    }
    pressures_of(bytes)
}
