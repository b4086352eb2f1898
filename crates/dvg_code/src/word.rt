//! Words in bytes.
ghost use Rattle.std.specs.Prelude.{◌≡◌, ◌+◌, ◌*◌, ◌<◌, length};
ghost use Rattle.dvg_code.specs.Words.{word_in};

use byteorder::{ByteOrder, LittleEndian};

/// Returns word `k` of `bytes`: byte `2k` (low) and byte `2k + 1` (high), which must be there.
pub fn word_at(bytes: &[u8], k: usize) -> u16
    requires { 2 * k + 1 < length bytes.now }
    ensures { result ≡ word_in bytes.now k }
{
    LittleEndian::read_u16(&bytes[2 * k..])
}
