//! The instructions of a list of words, one after the other.
ghost use Rattle.std.specs.Prelude.{◌+◌, ◌^◌, ◌<◌, length};

use crate::code::Code;
use crate::decoding::{CodeFault, decode};

/// What stands at a place of a list of words. Places count words, from 0.
#[derive(Clone, Copy, Debug, PartialEq, Eq)]
pub enum Listed {
    /// An instruction, at the place of its first word.
    At(usize, Code),
    /// A word whose second word is missing, at its place.
    Cut(usize),
}

/// An iterator over the instructions of borrowed words, from place 0 on. If a word is left whose
/// second word is missing, its `Listed::Cut` comes last.
#[derive(Drop)]
pub struct Listing<'a> {
    words: &'a [u16],
    place: usize,
    ghost fits: { place + length words.now < 2 ^ 64 },
}

impl<'a> Listing<'a> {
    ghost use Rattle.std.specs.Prelude.{◌≡◌};
    ghost use Rattle.std.specs.Iterator.Runs.{EachRunFrom};
    ghost use Rattle.dvg_code.specs.Listing.{IsListing, NextListed, place_of, words_left};

    /// Returns an iterator over the instructions of `words`, from place 0 on.
    pub fn new(words: &'a [u16]) -> Listing<'a>
        ensures words { words_left result ≡ words.entry.now }
        ensures place { place_of result ≡ 0 }
        ensures runs { EachRunFrom NextListed result
            (λ run. IsListing words.entry.now run.items run.whole) }
    {
        Listing { words, place: 0 }
    }
}

impl Iterator for Listing<'_> {
    ghost use Rattle.std.specs.Prelude.{length};
    ghost use Rattle.std.specs.Iterator.{at_most};
    ghost use Rattle.dvg_code.specs.Listing.{NextListed, words_left};

    type Item = Listed;

    ghost next_gives = { NextListed };

    ghost remaining = { λ listing. at_most (length (words_left listing)) };

    fn next(&mut self) -> Option<Listed> {
        let place = self.place;
        match decode(self.words) {
            Ok((code, count)) => {
                self.words = &self.words[count..];
                self.place = place + count;
                Some(Listed::At(place, code))
            }
            Err(CodeFault::Empty) => None,
            Err(CodeFault::Cut) => {
                self.words = &[];
                Some(Listed::Cut(place))
            }
        }
    }
}
