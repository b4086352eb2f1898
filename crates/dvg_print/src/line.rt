//! Lines of output, made without taking memory.
ghost use Rattle.std.specs.Prelude.{◌≡◌, ◌≤◌, ◌<◌, ◌+◌, ◌++◌, ◌∷◌, [], length, codes};
ghost use Rattle.std.specs.Prelude.{decimal, set, take, true};
ghost use Rattle.std.specs.Fmt.{digit_glyph};
ghost use Rattle.dvg_print.specs.Lines.{hex_2, hex_3, hex_4, rom_line, spaced};
ghost use Rattle.dvg_print.specs.Verdicts.{bounded_line, fault_parts, place_parts, verdict_line};
ghost use Rattle.dvg_print.specs.declared.line.TheConstants.{LINE_WORDS, MOST_BYTES};

use crate::digits::NUMBER_BYTES;
use crate::verdict::{BoundedVerdict, Verdict};
use dvg_frame::{FrameFault, Place};
use itoa::{Buffer, Integer};
use std::marker::Model;

/// The most bytes of a line, or of two lines that are one text.
pub(crate) const MOST_BYTES: usize = 256;

/// The number of words in a line of a ROM.
pub const LINE_WORDS: usize = 8;

/// The two hexadecimal digits of each byte.
static PAIRS: [u8; 512] =
    *b"000102030405060708090A0B0C0D0E0F101112131415161718191A1B1C1D1E1F2021222324252627\
    28292A2B2C2D2E2F303132333435363738393A3B3C3D3E3F404142434445464748494A4B4C4D4E4F\
    505152535455565758595A5B5C5D5E5F606162636465666768696A6B6C6D6E6F7071727374757677\
    78797A7B7C7D7E7F808182838485868788898A8B8C8D8E8F909192939495969798999A9B9C9D9E9F\
    A0A1A2A3A4A5A6A7A8A9AAABACADAEAFB0B1B2B3B4B5B6B7B8B9BABBBCBDBEBFC0C1C2C3C4C5C6C7\
    C8C9CACBCCCDCECFD0D1D2D3D4D5D6D7D8D9DADBDCDDDEDFE0E1E2E3E4E5E6E7E8E9EAEBECEDEEEF\
    F0F1F2F3F4F5F6F7F8F9FAFBFCFDFEFF";

/// Returns `digit`, 0 to 15, as a hexadecimal digit in upper case.
#[inline(always)]
pub fn glyph(digit: usize) -> u8
    requires { digit < 16 }
    ensures { result ≡ digit_glyph true digit }
{
    b"0123456789ABCDEF"[digit]
}

// Returns the two hexadecimal digits of `byte`.
#[inline(always)]
#[tactic(auto, using(crate::proofs::HexPairs::pair_at))]
pub(crate) fn pair(byte: u8) -> (u8, u8)
    ensures { result.0 ∷ result.1 ∷ [] ≡ hex_2 byte }
{
    let from = 2 * byte as usize;
    (PAIRS[from], PAIRS[from + 1])
}

/// A line of output, of at most 256 bytes. The verdict on a torn log is two lines in one.
#[derive(Drop)]
pub struct Line {
    // The bytes of the line, and after them those of earlier lines, which are never cleared.
    bytes: [u8; MOST_BYTES],
    count: usize,
}

/// Contracts see the bytes.
impl Model for Line {
    ghost use Rattle.std.specs.Prelude.{◌≤◌, List, ℕ, take};
    ghost use Rattle.dvg_print.specs.declared.line.TheConstants.{MOST_BYTES};

    ghost Value = { List ℕ };

    ghost view = { λ line. take line.count line.bytes };

    ghost invariant = { λ line. line.count ≤ MOST_BYTES };
}

impl Line {
    /// Returns a line with no bytes.
    pub fn new() -> Line
        ensures { result ≡ [] }
    {
        Line {
            bytes: [0; MOST_BYTES],
            count: 0,
        }
    }

    /// Returns the bytes of the line.
    #[inline(always)]
    pub fn as_bytes(&self) -> &[u8]
        ensures { result.now ≡ self.now }
    {
        &self.bytes[..self.count]
    }

    // Becomes a line with no bytes.
    #[inline(always)]
    pub(crate) fn clear(&mut self)
        ensures { self.new ≡ [] }
    {
        self.count = 0;
    }

    // Appends the first `count` bytes of `text`. All 24 are copied, as that takes less time.
    #[inline(always)]
    pub(crate) fn front(&mut self, text: &[u8; NUMBER_BYTES], count: usize)
        requires room { length self.old + 24 ≤ MOST_BYTES }
        requires inside { count ≤ 24 }
        ensures text { self.new ≡ self.old ++ take count text.now }
        ensures grew { length self.new ≡ length self.old + count }
    {
        self.bytes[self.count..self.count + NUMBER_BYTES].copy_from_slice(text);
        self.count += count;
    }

    // Puts `byte` in the place of the one at `at`.
    #[inline(always)]
    pub(crate) fn put(&mut self, at: usize, byte: u8)
        requires { at < length self.old }
        ensures { self.new ≡ set self.old at byte }
    {
        self.bytes[at] = byte;
    }

    // Appends `text`.
    #[inline(always)]
    pub(crate) fn text(&mut self, text: &[u8])
        requires { length self.old + length text.now ≤ MOST_BYTES }
        ensures text { self.new ≡ self.old ++ text.now }
        ensures grew { length self.new ≡ length self.old + length text.now }
    {
        let end = self.count + text.len();
        self.bytes[self.count..end].copy_from_slice(text);
        self.count = end;
    }

    // Appends a space and `part`.
    #[inline(always)]
    pub(crate) fn part(&mut self, part: &[u8])
        requires { length self.old + length part.now < MOST_BYTES }
        ensures text { self.new ≡ self.old ++ spaced (part.now ∷ []) }
        ensures grew { length self.new ≡ length self.old + length part.now + 1 }
    {
        self.text(b" ");
        self.text(part);
    }

    // Appends a space and `n` in decimal.
    pub(crate) fn number<I: Integer>(&mut self, n: I)
        requires { length self.old + I.MAX_STR_LEN < MOST_BYTES }
        ensures text { self.new ≡ self.old ++ spaced (I.text n ∷ []) }
        ensures grew { length self.new ≤ length self.old + I.MAX_STR_LEN + 1 }
    {
        self.part(Buffer::new().format(n).as_bytes());
    }

    // Appends a space and the two hexadecimal digits of `byte`.
    #[inline(always)]
    pub(crate) fn hex_2(&mut self, byte: u8)
        requires { length self.old + 3 ≤ MOST_BYTES }
        ensures text { self.new ≡ self.old ++ spaced (hex_2 byte ∷ []) }
        ensures grew { length self.new ≡ length self.old + 3 }
    {
        let (tens, ones) = pair(byte);
        self.text(&[b' ', tens, ones]);
    }

    // Appends the last three hexadecimal digits of `n`.
    #[inline(always)]
    pub(crate) fn hex_3(&mut self, n: usize)
        requires { length self.old + 3 ≤ MOST_BYTES }
        ensures text { self.new ≡ self.old ++ hex_3 n }
        ensures grew { length self.new ≡ length self.old + 3 }
    {
        self.text(&[glyph(n / 256 % 16), glyph(n / 16 % 16), glyph(n % 16)]);
    }

    // Appends a space and the three hexadecimal digits of the word address `address`.
    #[inline(always)]
    fn address(&mut self, address: u16)
        requires { length self.old + 4 ≤ MOST_BYTES }
        ensures text { self.new ≡ self.old ++ spaced (hex_3 address ∷ []) }
        ensures grew { length self.new ≡ length self.old + 4 }
    {
        let first = glyph(usize::from(address / 256 % 16));
        let (second, last) = pair((address % 256) as u8);
        self.text(&[b' ', first, second, last]);
    }

    // Appends a space and the four hexadecimal digits of `word`.
    #[inline(always)]
    pub(crate) fn hex_4(&mut self, word: u16)
        requires { length self.old + 5 ≤ MOST_BYTES }
        ensures text { self.new ≡ self.old ++ spaced (hex_4 word ∷ []) }
        ensures grew { length self.new ≡ length self.old + 5 }
    {
        let (first, second) = pair((word / 256) as u8);
        let (third, last) = pair((word % 256) as u8);
        self.text(&[b' ', first, second, third, last]);
    }

    // Appends `name`, the name of an instruction, and the word address `address`.
    #[inline(always)]
    pub(crate) fn with_address(&mut self, name: &[u8], address: u16)
        requires { length self.old + length name.now + 5 ≤ MOST_BYTES }
        ensures text { self.new ≡ self.old ++ spaced (name.now ∷ hex_3 address ∷ []) }
        ensures grew { length self.new ≡ length self.old + length name.now + 5 }
    {
        self.part(name);
        self.address(address);
    }

    // Appends `place`: an operation's number, or a ROM word's address.
    fn place(&mut self, place: Place)
        requires { length self.old + 9 ≤ MOST_BYTES }
        ensures text { self.new ≡ self.old ++ spaced (place_parts place) }
        ensures grew { length self.new ≤ length self.old + 9 }
    {
        match place {
            Place::InFrame(i) => {
                self.part(b"op");
                self.number(i);
            }
            Place::InRom(a) => self.with_address(b"word", a),
        }
    }

    // Appends `name`, which is a fault's number and name, and `place`.
    fn fault_at(&mut self, name: &[u8], place: Place)
        requires { length self.old + length name.now + 10 ≤ MOST_BYTES }
        ensures text { self.new ≡ self.old ++ spaced (name.now ∷ place_parts place) }
        ensures grew { length self.new ≤ length self.old + length name.now + 10 }
    {
        self.part(name);
        self.place(place);
    }

    // Appends `name`, which is a fault's number and name, and `i`, the number of an operation.
    fn fault_of(&mut self, name: &[u8], i: u16)
        requires { length self.old + length name.now + 7 ≤ MOST_BYTES }
        ensures text { self.new ≡ self.old ++ spaced (name.now ∷ decimal i ∷ []) }
        ensures grew { length self.new ≤ length self.old + length name.now + 7 }
    {
        self.part(name);
        self.number(i);
    }

    // Appends the parts of the text of `fault`.
    pub(crate) fn fault(&mut self, fault: FrameFault)
        requires { length self.old + 22 ≤ MOST_BYTES }
        ensures text { self.new ≡ self.old ++ spaced (fault_parts fault) }
        ensures grew { length self.new ≤ length self.old + 22 }
    {
        match fault {
            FrameFault::Empty => self.part(b"1 empty"),
            FrameFault::NoLabs => self.part(b"2 no labs"),
            FrameFault::TooLong => self.part(b"3 too long"),
            FrameFault::Target(i) => self.fault_of(b"4 target", i),
            FrameFault::RunsOff(i) => self.fault_of(b"5 runs off", i),
            FrameFault::OutOfRom(place) => self.fault_at(b"6 out of rom", place),
            FrameFault::TooDeep(place) => self.fault_at(b"7 too deep", place),
            FrameFault::NoCaller(place) => self.fault_at(b"8 no caller", place),
            FrameFault::Loops => self.part(b"9 loops"),
        }
    }

    /// Becomes the ROM line of `words`, which are eight, from the word address `address` on.
    pub fn become_rom(&mut self, address: usize, words: &[u16])
        requires { length words.now ≡ LINE_WORDS }
        ensures { self.new ≡ rom_line address words.now }
    {
        self.clear();
        self.text(b"rom ");
        self.hex_3(address);
        for word in words {
            self.hex_4(*word);
        }
        self.text(b"\n");
    }

    /// Becomes the line that `check` writes of `verdict`.
    pub fn become_verdict(&mut self, verdict: Verdict)
        ensures { self.new ≡ verdict_line verdict }
    {
        self.clear();
        match verdict {
            Verdict::Good(words) => {
                self.text(b"ok");
                self.number(words);
                self.part(b"words");
            }
            Verdict::Refused(fault) => {
                self.text(b"fault");
                self.fault(fault);
            }
        }
        self.text(b"\n");
    }

    /// Becomes the line that `check --bound` writes of `verdict`, with the bound of a good draft.
    pub fn become_bounded(&mut self, verdict: BoundedVerdict)
        ensures { self.new ≡ bounded_line verdict }
    {
        self.clear();
        match verdict {
            BoundedVerdict::Good { words, bound } => {
                self.text(b"ok");
                self.number(words);
                self.part(b"words");
                self.number(bound);
                self.part(b"fetches");
            }
            BoundedVerdict::Refused(fault) => {
                self.text(b"fault");
                self.fault(fault);
            }
        }
        self.text(b"\n");
    }
}
