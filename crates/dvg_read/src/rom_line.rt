//! Lines that give words of a ROM.
ghost use Rattle.std.specs.Prelude.{◌≡◌, ◌≢◌, ℕ, ◌+◌, ◌*◌, ◌<◌, ◌≤◌, List, get_or, length, IfSome};
ghost use Rattle.std.specs.Prelude.{IsSomeAnd, Some};
ghost use Rattle.dvg_code.specs.Words.{word_in};
ghost use Rattle.dvg_read.specs.LineParts.{bytes_of};
ghost use Rattle.dvg_read.specs.RomTexts.{IsRomLine, RomLine};
ghost use Rattle.dvg_read.specs.RomReading.{IsAfterLine, SpellsWords};
ghost use Rattle.dvg_read.specs.Texts.{parts};

use crate::line_parts::parts_of;
use crate::number::hex;
use arrayvec::ArrayVec;
use dvg_mem::ROM_END;
use std::marker::Model;

/// The most words that a line gives.
const MAX_WORDS: usize = 8;

/// The words that a line gives, from the word address `address` on. All of them are words of the
/// ROM.
#[derive(Drop)]
pub struct RomWords {
    address: u16,
    words: ArrayVec<u16, MAX_WORDS>,
}

/// Contracts see the address and the list of the words.
impl Model for RomWords {
    ghost use Rattle.std.specs.Prelude.{◌+◌, ◌≤◌, length};
    ghost use Rattle.dvg_mem.specs.declared.TheConstants.{ROM_END};
    ghost use Rattle.dvg_read.specs.RomTexts.{RomLine};

    ghost Value = { RomLine };

    ghost view = { λ given. record { address = given.address; words = given.words.items } };

    ghost invariant = { λ given. given.address + length given.words.items ≤ ROM_END };
}

/// Returns the words that `line` gives, or `None` exactly where it isn't a line of the ROM. `first`
/// is the word address of the ROM's first word.
pub fn read_rom_line(first: u16, line: &[u8]) -> Option<RomWords>
    ensures found { IfSome result (λ given. IsRomLine first given line.now) }
    ensures only { (given : RomLine) → IsRomLine first given line.now → result ≡ Some given }
{
    let parts = parts_of(line)?;
    read_rom_parts(first, parts.as_slice())
}

/// Returns the words that a line of the parts `cut` gives, or `None` exactly where it isn't a line
/// of the ROM. `first` is the word address of the ROM's first word.
pub fn read_rom_parts(first: u16, cut: &[&[u8]]) -> Option<RomWords>
    ensures found { IfSome result (λ given. (line : List ℕ) → parts line ≡ bytes_of cut.now
        → IsRomLine first given line) }
    ensures only { (given : RomLine) (line : List ℕ) → parts line ≡ bytes_of cut.now
        → IsRomLine first given line → result ≡ Some given }
{
    let [name, address, spelled @ ..] = cut else {
        return None;
    };
    if *name != b"rom".as_slice() {
        return None;
    }
    let address = hex(address, 3)?;
    let words = hex_words(spelled)?;
    if words.is_empty() || address < first {
        return None;
    }
    if usize::from(address) + words.len() > usize::from(ROM_END) {
        return None;
    }
    Some(RomWords { address, words })
}

// Returns the words that `parts` spell, at most eight.
fn hex_words(parts: &[&[u8]]) -> Option<ArrayVec<u16, MAX_WORDS>>
    ensures found { IfSome result (λ words. SpellsWords words.items (bytes_of parts.now)) }
    ensures few { IfSome result (λ words. length words.items ≤ 8) }
    ensures only { (words : List ℕ) → length words ≤ 8 → SpellsWords words (bytes_of parts.now)
        → IsSomeAnd result (λ found. found.items ≡ words) }
{
    let mut words = ArrayVec::new();
    for part in parts {
        if words.is_full() {
            return None;
        }
        words.push(hex(part, 4)?);
    }
    Some(words)
}

impl RomWords {
    /// Returns the word address after the words.
    pub fn end(&self) -> u16
        ensures { result ≡ self.now.address + length self.now.words }
    {
        self.address + self.words.len() as u16
    }

    /// Puts the words into `rom`, the bytes of a ROM. `first` is the word address of the ROM's
    /// first word.
    pub fn put(&self, first: u16, rom: &mut [u8])
        requires low { first ≤ self.now.address }
        requires whole { 0x1800 ≤ length rom.old + 2 * first }
        ensures after { IsAfterLine self.now first rom.old rom.new }
        ensures fits { (i : ℕ) → get_or rom.new i 0 < 256 }
    {
        let place = usize::from(self.address - first);
        for (k, word) in self.words.as_slice().iter().enumerate() {
            put_word(rom, place + k, *word);
        }
    }
}

/// Puts `word` at the place `k`, counted in words from 0, of `bytes`, the low byte first.
#[tactic(auto, using(crate::proofs::GivenWords::set_fits))]
pub fn put_word(bytes: &mut [u8], k: usize, word: u16)
    requires { 2 * k + 1 < length bytes.old }
    ensures word { word_in bytes.new k ≡ word }
    ensures others { (j : ℕ) → j ≢ k → word_in bytes.new j ≡ word_in bytes.old j }
    ensures count { length bytes.new ≡ length bytes.old }
    ensures fits { (i : ℕ) → get_or bytes.new i 0 < 256 }
{
    bytes[2 * k] = (word % 256) as u8;
    bytes[2 * k + 1] = (word / 256) as u8;
}
