//! From instructions to words.
ghost use Rattle.std.specs.Prelude.{◌≡◌, ◌↔◌, ◌+◌, ◌*◌, ◌<◌, ◌≤◌, unsigned_abs, IsTrue, [], ◌∷◌};
ghost use Rattle.dvg_code.specs.Ranges.{InRange};
ghost use Rattle.dvg_code.specs.Spelling.{IsCanonical, Spells, canon, sign_bit};

use crate::code::Code;
use crate::decoding::decode;
use crate::instr::Instr;
use arrayvec::ArrayVec;

/// The words of one instruction.
pub type Words = ArrayVec<u16, 2>;

// Returns the sign bit that is written for `n`: 1 where it is negative, else 0.
fn sign_of(n: i16) -> u16
    ensures value { result ≡ sign_bit n }
    ensures is_bit { result < 2 }
{
    if n < 0 { 1 } else { 0 }
}

// Returns the word of the four bits `top`, and of the sign bit and the magnitude of `n`, which is
// -1023 to 1023.
fn long_word(top: u8, n: i16) -> u16
    requires top { top < 16 }
    requires magnitude { unsigned_abs n ≤ 1023 }
    ensures { result ≡ 4096 * top + 1024 * sign_bit n + unsigned_abs n }
{
    4096 * u16::from(top) + 1024 * sign_of(n) + n.unsigned_abs()
}

// Returns the word of a short vector with these fields, which are in range: the scale `scale`, the
// moves `dx` and `dy`, and the intensity `z`.
fn short_word(scale: u8, dx: i8, dy: i8, z: u8) -> u16
    requires in_range { InRange (Instr.Svec scale dx dy z) }
    ensures { canon (Instr.Svec scale dx dy z) ≡ result ∷ [] }
{
    let weights = u16::from(scale) - 2;
    0xF000
        + 2048 * (weights % 2)
        + 1024 * sign_of(i16::from(dy))
        + 256 * u16::from(dy.unsigned_abs())
        + 16 * u16::from(z)
        + 8 * (weights / 2)
        + 4 * sign_of(i16::from(dx))
        + u16::from(dx.unsigned_abs())
}

// Returns `word` alone.
fn one_word(word: u16) -> Words
    ensures { result.items ≡ word ∷ [] }
{
    let mut words = Words::new();
    words.push(word);
    words
}

// Returns `first` and then `second`.
fn two_words(first: u16, second: u16) -> Words
    ensures { result.items ≡ first ∷ second ∷ [] }
{
    let mut words = Words::new();
    words.push(first);
    words.push(second);
    words
}

/// Returns the canonical words of `code`: every ignored bit is 0, and so is the sign of a magnitude
/// of zero (this project's own choice).
#[tactic(auto, using(crate::proofs::FieldsSpell::written_spells))]
pub fn encode(code: &Code) -> Words
    ensures canonical { result.items ≡ canon code.now }
    ensures spells { Spells code.now result.items }
{
    match code.instr() {
        Instr::Vctr { scale, dx, dy, z } => two_words(long_word(scale, dy), long_word(z, dx)),
        Instr::Labs { x, y, scale } => two_words(0xA000 + y, 4096 * u16::from(scale) + x),
        Instr::Halt => one_word(0xB000),
        Instr::Jsrl(address) => one_word(0xC000 + address),
        Instr::Rtsl => one_word(0xD000),
        Instr::Jmpl(address) => one_word(0xE000 + address),
        Instr::Svec { scale, dx, dy, z } => one_word(short_word(scale, dx, dy, z)),
    }
}

/// Returns whether `words` are what `encode` writes for some instruction.
pub fn is_canonical(words: &[u16]) -> bool
    ensures { IsTrue result ↔ IsCanonical words.now }
{
    match decode(words) {
        Ok(read) => encode(&read.0).as_slice() == words,
        Err(_) => false,
    }
}
