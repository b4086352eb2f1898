//! Numbers below 100,000,000 as texts of eight bytes, made without a branch.
ghost use Rattle.std.specs.Prelude.{◌≡◌, ◌+◌, ◌-◌, ◌*◌, ◌/◌, ◌%◌, ◌^◌, ◌<◌, ◌≤◌, ◌++◌, length};
ghost use Rattle.std.specs.Prelude.{decimal, drop};
ghost use Rattle.std.specs.Int.{to_le_bytes, w64};
ghost use Rattle.dvg_print.specs.Numbering.{padded};

use crate::digits::BLOCK_BYTES;

/// The least number that has no text of eight bytes.
pub(crate) const GREAT: u32 = 100_000_000;

/// What is added to a number of 32 bits, by the count of zeros that it begins with: the upper 32
/// bits of the sum are how many digits it has.
static COUNTS: [u64; 33] = [
    42_949_672_960,
    42_949_672_960,
    41_949_672_960,
    41_949_672_960,
    41_949_672_960,
    38_554_705_664,
    38_554_705_664,
    38_554_705_664,
    34_349_738_368,
    34_349_738_368,
    34_349_738_368,
    34_349_738_368,
    30_063_771_072,
    30_063_771_072,
    30_063_771_072,
    25_769_703_776,
    25_769_703_776,
    25_769_703_776,
    21_474_826_480,
    21_474_826_480,
    21_474_826_480,
    21_474_826_480,
    17_179_868_184,
    17_179_868_184,
    17_179_868_184,
    12_884_901_788,
    12_884_901_788,
    12_884_901_788,
    8_589_934_582,
    8_589_934_582,
    8_589_934_582,
    8_589_934_582,
    8_589_934_582,
];

/// A number, and its text: the last `count` of the eight bytes that make up `bytes`.
#[derive(Drop)]
pub(crate) struct Digits {
    pub(crate) number: u32,
    bytes: u64,
    count: usize,
    ghost few: { count ≤ 8 },
    ghost text: { drop (8 - count) (to_le_bytes w64 bytes) ≡ decimal number },
}

// Returns how many digits `number` has.
#[inline(always)]
fn digit_count(number: u32) -> usize
    requires { number < 100000000 }
    ensures { result ≡ length (decimal number) }
{
    let zeros = number.leading_zeros() as usize;
    ((u64::from(number) + COUNTS[zeros]) >> 32) as usize
}

// Returns four digits of `number` in each half of the bits, the first ones in the lower half.
#[inline(always)]
fn halves(number: u32) -> u64
    requires { number < 100000000 }
    ensures { result ≡ number / 10000 + number % 10000 * 2 ^ 32 }
{
    u64::from(number / 10_000) + u64::from(number % 10_000) * 0x1_0000_0000
}

// Returns two digits of `number` in each quarter. 10,486 is 2 ^ 20 / 100, rounded up.
#[inline(always)]
fn quarters(number: u32) -> u64
    requires { number < 100000000 }
    ensures { result ≡ number / 1000000 + number / 10000 % 100 * 2 ^ 16
        + number / 100 % 100 * 2 ^ 32 + number % 100 * 2 ^ 48 }
{
    let halves = halves(number);
    let hundreds = ((halves * 10_486) >> 20) & 0x7F_0000_007F;
    hundreds + (halves - 100 * hundreds) * 0x1_0000
}

// Returns a digit of `number` in each byte, as text. 103 is 2 ^ 10 / 10, rounded up.
#[inline(always)]
fn eight_digits(number: u32) -> u64
    requires { number < 100000000 }
    ensures { to_le_bytes w64 result ≡ padded 8 number }
{
    let quarters = quarters(number);
    let tens = ((quarters * 103) >> 10) & 0x000F_000F_000F_000F;
    tens + (quarters - 10 * tens) * 0x100 + 0x3030_3030_3030_3030
}

/// Returns the text of `number`.
#[inline(always)]
pub(crate) fn digits_of(number: u32) -> Digits
    requires { number < 100000000 }
    ensures { result.number ≡ number }
{
    Digits {
        number,
        bytes: eight_digits(number),
        count: digit_count(number),
    }
}

/// Puts the text of `digits` before `end`. Returns where it begins.
#[inline(always)]
pub(crate) fn put_digits(bytes: &mut [u8; BLOCK_BYTES], end: usize, digits: &Digits) -> usize
    requires room { 8 ≤ end }
    requires inside { end ≤ 96 }
    ensures start { result + length (decimal digits.now.number) ≡ end }
    ensures few { end ≤ result + 8 }
    ensures text { drop result bytes.new ≡ decimal digits.now.number ++ drop end bytes.old }
{
    bytes[end - 8..end].copy_from_slice(&digits.bytes.to_le_bytes());
    end - digits.count
}
