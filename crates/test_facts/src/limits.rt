//! The limits as numbers, beside those of `dvg_tool::laws`. Clauses and definitions cite
//! them by name, so a wrong number in a source would change what they say: here it is refused.
ghost use Rattle.std.specs.Prelude.{◌≡◌};

use dvg_device::MOST_STAGED;
use dvg_dump::{LARGE_DUMP_BYTES, MOST_WORDS, SMALL_DUMP_BYTES};
use dvg_gen::STACK_DEPTH;
use dvg_mem::{LARGE_ROM_BYTES, MEMORY_BYTES, ROM_END};
use dvg_print::LINE_WORDS;

/// The return addresses that a generator saves: at most 4.
pub fn most_returns() -> usize
    ensures { result ≡ 4 }
{
    STACK_DEPTH
}

/// The bytes of the RAM, and of the smaller ROM, and those of the larger ROM.
pub fn memory_sizes() -> (usize, usize)
    ensures { result ≡ (2048, 4096) }
{
    (MEMORY_BYTES, LARGE_ROM_BYTES)
}

/// The word address past the ROM.
pub fn end_of_rom() -> u16
    ensures { result ≡ 0xC00 }
{
    ROM_END
}

/// The words of a line of a ROM: at most 8.
pub fn words_of_a_line() -> usize
    ensures { result ≡ 8 }
{
    LINE_WORDS
}

/// The words that the run of a dump fetches: at most 65,536.
pub fn longest_run() -> u32
    ensures { result ≡ 65536 }
{
    MOST_WORDS
}

/// The bytes of a dump: 4,096, or with the larger ROM 6,144.
pub fn dump_sizes() -> (usize, usize)
    ensures { result ≡ (4096, 6144) }
{
    (SMALL_DUMP_BYTES, LARGE_DUMP_BYTES)
}

/// The bytes that a device has staged: at most 6,144.
pub fn most_staged() -> usize
    ensures { result ≡ 6144 }
{
    MOST_STAGED
}
