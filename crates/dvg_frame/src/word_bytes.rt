//! The bytes of words, one after the other.
ghost use Rattle.std.specs.Prelude.{◌≡◌, ◌≢◌, ◌≤◌, ◌↔◌, [], ◌∷◌, length, IsTrue};
ghost use Rattle.dvg_frame.specs.Bytes.{bytes};

use std::marker::Model;

/// Those bytes of at most two words that are still to come. Each word's low byte comes first.
#[derive(Drop)]
pub(crate) struct WordBytes {
    /// The lowest byte of this number is the next one.
    number: u32,
    /// How many bytes are still to come.
    count: u16,
}

/// Contracts see the list of the bytes.
impl Model for WordBytes {
    ghost use Rattle.std.specs.Prelude.{ℕ, List};
    ghost use Rattle.dvg_frame.specs.own.LowBytes.{low_bytes};

    ghost Value = { List ℕ };

    ghost view = { λ left. low_bytes left.count left.number };
}

impl WordBytes {
    // Returns the bytes of no word.
    pub(crate) fn new() -> WordBytes
        ensures { result ≡ [] }
    {
        WordBytes {
            number: 0,
            count: 0,
        }
    }

    // Returns the bytes of `words`, which are at most two.
    #[inline(always)]
    pub(crate) fn of(words: &[u16]) -> WordBytes
        requires { length words.now ≤ 2 }
        ensures { result ≡ bytes words.now }
    {
        match words {
            [] => WordBytes::new(),
            [word] => WordBytes {
                number: u32::from(*word),
                count: 2,
            },
            [first, second] => WordBytes {
                number: u32::from(*first) + 0x1_0000 * u32::from(*second),
                count: 4,
            },
            _ => unreachable!(), // There are at most two.
        }
    }

    // Returns whether no byte is left.
    #[inline(always)]
    pub(crate) fn is_empty(&self) -> bool
        ensures { IsTrue result ↔ (self.now ≡ []) }
    {
        self.count == 0
    }

    // Takes the next byte, of which there must be one, and returns it.
    #[inline(always)]
    pub(crate) fn take(&mut self) -> u8
        requires { self.old ≢ [] }
        ensures { self.old ≡ result ∷ self.new }
    {
        let byte = (self.number % 0x100) as u8;
        self.number /= 0x100;
        self.count -= 1;
        byte
    }
}
