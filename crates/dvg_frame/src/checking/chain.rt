//! A chain of places, of which each leads on to the next one at its depth.
ghost use Rattle.std.specs.Prelude.{◌≡◌, ◌<◌, ◌≤◌, List, [], ◌∷◌, ◌++◌, length};
ghost use Rattle.dvg_frame.specs.own.Pairs.{IsPlace};
ghost use Rattle.dvg_frame.specs.declared.place.Place.{Place};

use crate::checking::pair::{DEEPEST, PLACES, number_of, place_of};
use crate::place::Place;
use arrayvec::ArrayVec;
use std::marker::Model;

/// The most places of one depth: one more than there are.
pub(crate) const LONGEST: usize = PLACES + 1;

/// The most places of all depths.
pub(crate) const ROOM: usize = LONGEST * (DEEPEST as usize + 1);

/// Places of which each leads on to the next one at its depth, those of each depth after those of
/// the one before. Each takes two bytes: its number in the order of the places.
#[derive(Drop)]
pub(crate) struct Chain {
    numbers: ArrayVec<u16, ROOM>,
}

/// Contracts see the list of the places.
impl Model for Chain {
    ghost use Rattle.std.specs.Prelude.{◌<◌, All, List, map};
    ghost use Rattle.dvg_frame.specs.own.Pairs.{place_at};
    ghost use Rattle.dvg_frame.specs.declared.checking.pair.TheConstants.{PLACES};
    ghost use Rattle.dvg_frame.specs.declared.place.Place.{Place};

    ghost Value = { List Place };

    ghost view = { λ chain. map place_at chain.numbers.items };

    ghost invariant = { λ chain. All (λ number. number < PLACES) chain.numbers.items };
}

impl Chain {
    // Returns a chain with no place.
    pub(crate) fn new() -> Chain
        ensures { result ≡ [] }
    {
        Chain {
            numbers: ArrayVec::new(),
        }
    }

    // Returns the number of places, at most `ROOM`.
    pub(crate) fn len(&self) -> usize
        ensures value { result ≡ length self.now }
        ensures bound { result ≤ ROOM }
    {
        self.numbers.len()
    }

    // Removes all places.
    pub(crate) fn clear(&mut self)
        ensures { self.new ≡ [] }
    {
        self.numbers.clear();
    }

    // Adds `place` at the end. There must be room for it.
    pub(crate) fn push(&mut self, place: Place)
        requires room { length self.old < ROOM }
        requires valid { IsPlace place }
        ensures { self.new ≡ self.old ++ place ∷ [] }
    {
        self.numbers.push(number_of(place) as u16);
    }

    // Removes the last place and returns it. The chain must not be empty.
    pub(crate) fn pop(&mut self) -> Place
        requires { 0 < length self.old }
        ensures value { self.old ≡ self.new ++ result ∷ [] }
        ensures valid { IsPlace result }
    {
        place_of(self.numbers.pop().unwrap())
    }
}
