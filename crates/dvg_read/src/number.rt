//! Numbers in a line of a text.
ghost use Rattle.std.specs.Prelude.{◌≡◌, ◌+◌, ◌<◌, ◌≤◌, ◌^◌, ◌∷◌, ◌++◌, ℕ, ℤ, IfSome, List};
ghost use Rattle.std.specs.Prelude.{Some, decimal, length, min, unsigned_abs};
ghost use Rattle.std.specs.Char.{digit_value};
ghost use Rattle.std.specs.Fmt.{signed_decimal};
ghost use Rattle.std.specs.Str.Parse.{AllDigits, digits_value};
ghost use Rattle.dvg_read.specs.Texts.{IsHex, parts};

/// The most decimal digits of a number of 16 bits.
const MAX_DIGITS: usize = 5;

/// The value of each byte as a hexadecimal digit of either case, and 16 for a byte that isn't one.
#[rattlefmt::skip]
const HEX_DIGITS: [u8; 256] = [
    16, 16, 16, 16, 16, 16, 16, 16, 16, 16, 16, 16, 16, 16, 16, 16,
    16, 16, 16, 16, 16, 16, 16, 16, 16, 16, 16, 16, 16, 16, 16, 16,
    16, 16, 16, 16, 16, 16, 16, 16, 16, 16, 16, 16, 16, 16, 16, 16,
    0, 1, 2, 3, 4, 5, 6, 7, 8, 9, 16, 16, 16, 16, 16, 16,
    16, 10, 11, 12, 13, 14, 15, 16, 16, 16, 16, 16, 16, 16, 16, 16,
    16, 16, 16, 16, 16, 16, 16, 16, 16, 16, 16, 16, 16, 16, 16, 16,
    16, 10, 11, 12, 13, 14, 15, 16, 16, 16, 16, 16, 16, 16, 16, 16,
    16, 16, 16, 16, 16, 16, 16, 16, 16, 16, 16, 16, 16, 16, 16, 16,
    16, 16, 16, 16, 16, 16, 16, 16, 16, 16, 16, 16, 16, 16, 16, 16,
    16, 16, 16, 16, 16, 16, 16, 16, 16, 16, 16, 16, 16, 16, 16, 16,
    16, 16, 16, 16, 16, 16, 16, 16, 16, 16, 16, 16, 16, 16, 16, 16,
    16, 16, 16, 16, 16, 16, 16, 16, 16, 16, 16, 16, 16, 16, 16, 16,
    16, 16, 16, 16, 16, 16, 16, 16, 16, 16, 16, 16, 16, 16, 16, 16,
    16, 16, 16, 16, 16, 16, 16, 16, 16, 16, 16, 16, 16, 16, 16, 16,
    16, 16, 16, 16, 16, 16, 16, 16, 16, 16, 16, 16, 16, 16, 16, 16,
    16, 16, 16, 16, 16, 16, 16, 16, 16, 16, 16, 16, 16, 16, 16, 16,
];

/// Returns the value of `byte` as a hexadecimal digit of either case, and 16 where it isn't one.
#[inline(always)]
#[tactic(auto, using(crate::proofs::HexDigits::entry))]
pub fn digit_of(byte: u8) -> u8
    ensures { result ≡ min 16 (digit_value byte) }
{
    HEX_DIGITS[usize::from(byte)]
}

// Returns the number that `digits` spell in `radix`, 2 to 16. Returns `None` where another byte is
// among them.
#[inline(always)]
fn value_of(digits: &[u8], radix: u32) -> Option<u32>
    requires few { length digits.now ≤ 5 }
    requires least { 2 ≤ radix }
    requires most { radix ≤ 16 }
    ensures found { IfSome result (λ n. AllDigits radix digits.now
        × (digits_value radix digits.now ≡ n)) }
    ensures only { AllDigits radix digits.now → result ≡ Some (digits_value radix digits.now) }
{
    let mut number = 0;
    for byte in digits {
        let digit = u32::from(digit_of(*byte));
        if digit >= radix {
            return None;
        }
        number = number * radix + digit;
    }
    Some(number)
}

/// Returns the decimal number below 65,536 that `part` spells, without a sign and without leading
/// zeros.
pub fn natural(part: &[u8]) -> Option<u16>
    ensures found { IfSome result (λ n. part.now ≡ decimal n) }
    ensures only { (n : ℕ) → n < 2 ^ 16 → part.now ≡ decimal n → result ≡ Some n }
{
    let first = *part.first()?;
    if part.len() > MAX_DIGITS || (first == b'0' && part.len() > 1) {
        return None;
    }
    u16::try_from(value_of(part, 10)?).ok()
}

/// Returns the decimal number below 256 that `part` spells, without a sign and without leading
/// zeros.
pub fn small_natural(part: &[u8]) -> Option<u8>
    ensures found { IfSome result (λ n. part.now ≡ decimal n) }
    ensures only { (n : ℕ) → n < 2 ^ 8 → part.now ≡ decimal n → result ≡ Some n }
{
    u8::try_from(natural(part)?).ok()
}

/// Returns the decimal number from -32,767 to 32,767 that `part` spells, without leading zeros. It
/// has `-` before it exactly where it is negative.
pub fn integer(part: &[u8]) -> Option<i16>
    ensures found { IfSome result (λ n. part.now ≡ signed_decimal n) }
    ensures only { (n : ℤ) → unsigned_abs n < 2 ^ 15 → part.now ≡ signed_decimal n
        → result ≡ Some n }
{
    let (first, digits) = part.split_first()?;
    if *first != b'-' {
        return i16::try_from(natural(part)?).ok();
    }
    let size = i16::try_from(natural(digits)?).ok()?;
    if size > 0 { Some(-size) } else { None }
}

/// Returns the number that `part` spells, as `integer` does, if it is from -128 to 127.
pub fn small_integer(part: &[u8]) -> Option<i8>
    ensures found { IfSome result (λ n. part.now ≡ signed_decimal n) }
    ensures only { (n : ℤ) → unsigned_abs n < 2 ^ 7 → part.now ≡ signed_decimal n
        → result ≡ Some n }
{
    i8::try_from(integer(part)?).ok()
}

/// Returns the number that `part` spells in exactly `count` hexadecimal digits of either case.
/// `count` is at most 4.
#[inline]
pub fn hex(part: &[u8], count: usize) -> Option<u16>
    requires { count ≤ 4 }
    ensures found { IfSome result (λ n. IsHex count n part.now) }
    ensures only { (n : ℕ) → IsHex count n part.now → result ≡ Some n }
{
    if part.len() != count {
        return None;
    }
    u16::try_from(value_of(part, 16)?).ok()
}

// Returns the value of the decimal digit `byte`.
#[inline(always)]
fn decimal_digit(byte: u8) -> Option<u8>
    ensures { IfSome result (λ digit. (byte ≡ 48 + digit) × (digit ≤ 9)) }
{
    match byte {
        b'0'..=b'9' => Some(byte - b'0'),
        _ => None,
    }
}

/// Returns the decimal number of one digit that `text` begins with, before the byte `end`, and what
/// comes after that byte.
#[inline(always)]
pub(crate) fn digit_before(text: &[u8], end: u8) -> Option<(u8, &[u8])>
    ensures spelled { IfSome result (λ ahead. text.now ≡ decimal ahead.0 ++ end ∷ ahead.1.now) }
    ensures most { IfSome result (λ ahead. ahead.0 ≤ 9) }
{
    if let [first, then, rest @ ..] = text {
        if *then != end {
            return None;
        }
        return Some((decimal_digit(*first)?, rest));
    }
    None
}

/// Like `digit_before`, for a number of `text` from 0 to 15 before `end`.
#[inline(always)]
pub(crate) fn nibble_before(text: &[u8], end: u8) -> Option<(u8, &[u8])>
    ensures spelled { IfSome result (λ ahead. text.now ≡ decimal ahead.0 ++ end ∷ ahead.1.now) }
    ensures most { IfSome result (λ ahead. ahead.0 ≤ 15) }
{
    if let Some(ahead) = digit_before(text, end) {
        return Some(ahead);
    }
    let [b'1', rest @ ..] = text else {
        return None;
    };
    let (ones, rest) = digit_before(rest, end)?;
    if ones <= 5 {
        Some((10 + ones, rest))
    } else {
        None
    }
}

/// Like `digit_before`, for a number of `text` up to `most` before `end`, without leading zeros.
/// `most` is at least 9.
#[inline(always)]
pub(crate) fn natural_before(text: &[u8], end: u8, most: u16) -> Option<(u16, &[u8])>
    requires { 9 ≤ most }
    ensures spelled { IfSome result (λ ahead. text.now ≡ decimal ahead.0 ++ end ∷ ahead.1.now) }
    ensures most { IfSome result (λ ahead. ahead.0 ≤ most) }
{
    let (number, rest) = first_digit(text)?;
    if let Some(after) = after_byte(rest, end) {
        return Some((number as u16, after));
    }
    if number == 0 {
        return None;
    }
    let (number, rest) = one_more(number, rest, most)?;
    if let Some(after) = after_byte(rest, end) {
        return Some((number as u16, after));
    }
    let (number, rest) = one_more(number, rest, most)?;
    if let Some(after) = after_byte(rest, end) {
        return Some((number as u16, after));
    }
    let (number, rest) = one_more(number, rest, most)?;
    if let Some(after) = after_byte(rest, end) {
        return Some((number as u16, after));
    }
    let (number, rest) = one_more(number, rest, most)?;
    Some((number as u16, after_byte(rest, end)?))
}

/// Returns what stands in `text` after `byte`, with which it begins. Returns `None` where it begins
/// otherwise.
#[inline(always)]
pub(crate) fn after_byte(text: &[u8], byte: u8) -> Option<&[u8]>
    ensures { IfSome result (λ rest. text.now ≡ byte ∷ rest.now) }
{
    match text {
        [first, rest @ ..] if *first == byte => Some(rest),
        _ => None,
    }
}

// Returns the number that the first digit of `text` spells, and what comes after that digit.
#[inline(always)]
fn first_digit(text: &[u8]) -> Option<(u32, &[u8])>
    ensures spelled { IfSome result (λ ahead. text.now ≡ decimal ahead.0 ++ ahead.1.now) }
    ensures most { IfSome result (λ ahead. ahead.0 ≤ 9) }
{
    let (byte, rest) = text.split_first()?;
    Some((u32::from(decimal_digit(*byte)?), rest))
}

// Returns `number` with one more digit, with which `text` begins, and what comes after that.
// Returns `None` where it would be greater than `most`, or no digit comes.
#[inline(always)]
fn one_more(number: u32, text: &[u8], most: u16) -> Option<(u32, &[u8])>
    requires some { 0 < number }
    requires few { number ≤ most }
    ensures spelled { (all : List ℕ) → all ≡ decimal number ++ text.now
        → IfSome result (λ ahead. all ≡ decimal ahead.0 ++ ahead.1.now) }
    ensures some { IfSome result (λ ahead. 0 < ahead.0) }
    ensures most { IfSome result (λ ahead. ahead.0 ≤ most) }
{
    let (byte, rest) = text.split_first()?;
    let number = number * 10 + u32::from(decimal_digit(*byte)?);
    if number <= u32::from(most) {
        Some((number, rest))
    } else {
        None
    }
}

/// Returns the decimal number that `text` begins with, before a space, and what comes after that.
/// It is from -`most` to `most`, without leading zeros. It has `-` before it exactly where it is
/// negative.
#[inline(always)]
pub(crate) fn integer_before_space(text: &[u8], most: u16) -> Option<(i16, &[u8])>
    requires { (9 ≤ most) × (most < 2 ^ 15) }
    ensures spelled { IfSome result (λ ahead.
        text.now ≡ signed_decimal ahead.0 ++ 32 ∷ ahead.1.now) }
    ensures most { IfSome result (λ ahead. unsigned_abs ahead.0 ≤ most) }
{
    let (first, digits) = text.split_first()?;
    if *first != b'-' {
        let (size, rest) = natural_before(text, b' ', most)?;
        return Some((size as i16, rest));
    }
    let (size, rest) = natural_before(digits, b' ', most)?;
    if size > 0 {
        Some((-(size as i16), rest))
    } else {
        None
    }
}

/// Like `integer_before_space`, for a number of `text` from -3 to 3.
#[inline(always)]
pub(crate) fn tiny_before_space(text: &[u8]) -> Option<(i8, &[u8])>
    ensures spelled { IfSome result (λ ahead.
        text.now ≡ signed_decimal ahead.0 ++ 32 ∷ ahead.1.now) }
    ensures most { IfSome result (λ ahead. unsigned_abs ahead.0 ≤ 3) }
{
    if let [b'-', rest @ ..] = text {
        let (size, rest) = digit_before(rest, b' ')?;
        return if 1 <= size && size <= 3 {
            Some((-(size as i8), rest))
        } else {
            None
        };
    }
    let (size, rest) = digit_before(text, b' ')?;
    if size <= 3 {
        Some((size as i8, rest))
    } else {
        None
    }
}
