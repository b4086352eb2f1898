//! Digits of numbers, in the bytes of a line.
ghost use Rattle.std.specs.Prelude.{◌≡◌, ◌+◌, ◌-◌, ◌/◌, ◌%◌, ◌<◌, ◌≤◌, ◌∷◌, [], ◌++◌, length, drop};
ghost use Rattle.std.specs.Prelude.{decimal, take, IsTrue, ◌^◌};
ghost use Rattle.dvg_print.specs.Lines.{spaced};
ghost use Rattle.dvg_print.specs.Numbering.{CountsUp};
ghost use Rattle.dvg_print.specs.Shows.{position_text};

/// The bytes in which a line is made from its end to its front. The longest one has 69.
pub(crate) const BLOCK_BYTES: usize = 96;

/// The bytes in which a number is counted up. No number of 64 bits has more digits.
pub(crate) const NUMBER_BYTES: usize = 24;

/// The digits of each number below 100, two by two.
static PAIRS: [u8; 200] = *b"0001020304050607080910111213141516171819\
    2021222324252627282930313233343536373839404142434445464748495051525354555657585960616263646566\
    676869707172737475767778798081828384858687888990919293949596979899";

// Puts the two digits of `pair`, a number below 100, before `end`.
#[inline(always)]
fn put_pair(bytes: &mut [u8; BLOCK_BYTES], end: usize, pair: u32)
    requires pair { pair < 100 }
    requires room { 2 ≤ end }
    requires inside { end ≤ 96 }
    ensures { drop (end - 2) bytes.new
        ≡ (48 + pair / 10) ∷ (48 + pair % 10) ∷ drop end bytes.old }
{
    let from = 2 * pair as usize;
    let (tens, ones) = (PAIRS[from], PAIRS[from + 1]);
    bytes[end - 2] = tens;
    bytes[end - 1] = ones;
}

// Puts the digits of `number`, which is below 100, before `end`. Returns where they begin.
#[inline(always)]
fn put_first(bytes: &mut [u8; BLOCK_BYTES], end: usize, number: u32) -> usize
    requires number { number < 100 }
    requires room { length (decimal number) ≤ end }
    requires inside { end ≤ 96 }
    ensures start { result + length (decimal number) ≡ end }
    ensures text { drop result bytes.new ≡ decimal number ++ drop end bytes.old }
{
    if number < 10 {
        bytes[end - 1] = b'0' + number as u8;
        return end - 1;
    }
    put_pair(bytes, end, number);
    end - 2
}

// Puts `number` in decimal before `end`. Returns where it begins.
#[inline(always)]
fn put_number(bytes: &mut [u8; BLOCK_BYTES], end: usize, number: u32) -> usize
    requires room { 10 ≤ end }
    requires inside { end ≤ 96 }
    ensures start { result + length (decimal number) ≡ end }
    ensures few { end ≤ result + 10 }
    ensures text { drop result bytes.new ≡ decimal number ++ drop end bytes.old }
{
    let mut left = number;
    let mut at = end;
    while left >= 100 {
        put_pair(bytes, at, left % 100);
        left /= 100;
        at -= 2;
    }
    put_first(bytes, at, left)
}

// Returns how many digits `number` has, which is below 10,000.
#[inline(always)]
fn small_count(number: u32) -> usize
    requires { number < 10000 }
    ensures value { result ≡ length (decimal number) }
    ensures few { result ≤ 4 }
{
    if number < 10 {
        1
    } else if number < 100 {
        2
    } else if number < 1000 {
        3
    } else {
        4
    }
}

// Puts `number`, which is below 10,000, in decimal before `end`. Returns where it begins. All four
// digits are put, so that none waits for how many there are.
#[inline(always)]
pub(crate) fn put_small(bytes: &mut [u8; BLOCK_BYTES], end: usize, number: u32) -> usize
    requires number { number < 10000 }
    requires room { 4 ≤ end }
    requires inside { end ≤ 96 }
    ensures start { result + length (decimal number) ≡ end }
    ensures few { end ≤ result + 4 }
    ensures text { drop result bytes.new ≡ decimal number ++ drop end bytes.old }
{
    put_pair(bytes, end, number % 100);
    put_pair(bytes, end - 2, number / 100);
    end - small_count(number)
}

// Puts `number`, which is below 100, in decimal before `end`. Returns where it begins. Both digits
// are put.
#[inline(always)]
pub(crate) fn put_tiny(bytes: &mut [u8; BLOCK_BYTES], end: usize, number: u32) -> usize
    requires number { number < 100 }
    requires room { 2 ≤ end }
    requires inside { end ≤ 96 }
    ensures start { result + length (decimal number) ≡ end }
    ensures few { end ≤ result + 2 }
    ensures text { drop result bytes.new ≡ decimal number ++ drop end bytes.old }
{
    put_pair(bytes, end, number);
    if number < 10 { end - 1 } else { end - 2 }
}

// Puts `byte` before `end`. Returns where it is.
#[inline(always)]
pub(crate) fn put_byte(bytes: &mut [u8; BLOCK_BYTES], end: usize, byte: u8) -> usize
    requires room { 1 ≤ end }
    requires inside { end ≤ 96 }
    ensures start { result + 1 ≡ end }
    ensures text { drop result bytes.new ≡ byte ∷ drop end bytes.old }
{
    bytes[end - 1] = byte;
    end - 1
}

// Puts a space and `number` in decimal before `end`. Returns where the space is.
#[inline(always)]
pub(crate) fn put_part(bytes: &mut [u8; BLOCK_BYTES], end: usize, number: u32) -> usize
    requires room { 11 ≤ end }
    requires inside { end ≤ 96 }
    ensures start { result + length (spaced (decimal number ∷ [])) ≡ end }
    ensures few { end ≤ result + 11 }
    ensures text { drop result bytes.new ≡ spaced (decimal number ∷ []) ++ drop end bytes.old }
{
    let at = put_number(bytes, end, number);
    put_byte(bytes, at, b' ')
}

// Puts the position `x y` before `end`. Returns where it begins.
pub(crate) fn put_position(bytes: &mut [u8; BLOCK_BYTES], end: usize, x: u32, y: u32) -> usize
    requires room { 21 ≤ end }
    requires inside { end ≤ 96 }
    ensures start { result + length (position_text x y) ≡ end }
    ensures few { end ≤ result + 21 }
    ensures text { drop result bytes.new ≡ position_text x y ++ drop end bytes.old }
{
    let at = put_part(bytes, end, y);
    put_number(bytes, at, x)
}

// Adds 1 to the decimal number whose digits are the first `count` of `bytes`, in place. Returns
// false if all were nines: they are zeros then.
#[inline(always)]
pub(crate) fn add_one(bytes: &mut [u8; NUMBER_BYTES], count: usize) -> bool
    requires { count ≤ 24 }
    ensures { IsTrue result → CountsUp (take count bytes.old) (take count bytes.new) }
{
    let mut at = count;
    while at > 0 && bytes[at - 1] == b'9' {
        at -= 1;
        bytes[at] = b'0';
    }
    if at > 0 && bytes[at - 1] < b'9' {
        bytes[at - 1] += 1;
        return true;
    }
    false
}
