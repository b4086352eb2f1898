//! Lists of pairs.
ghost use Rattle.std.specs.Prelude.{◌≡◌, ◌<◌, ◌≤◌, List, [], ◌∷◌, ◌++◌, Some, length, slice_get};
ghost use Rattle.dvg_frame.specs.own.Pairs.{IsPair};
ghost use Rattle.dvg_frame.specs.declared.checking.pair.Pair.{Pair};

use crate::checking::pair::{PAIRS, Pair, index_of, pair_of};
use arrayvec::ArrayVec;
use std::marker::Model;

/// A list of at most `PAIRS` pairs. Each takes two bytes: its number in the order in which faults
/// are picked.
#[derive(Drop)]
pub(crate) struct PairList {
    numbers: ArrayVec<u16, PAIRS>,
}

/// Contracts see the list of the pairs.
impl Model for PairList {
    ghost use Rattle.std.specs.Prelude.{All, List, map};
    ghost use Rattle.dvg_frame.specs.own.Pairs.{IsPair, pair_at};
    ghost use Rattle.dvg_frame.specs.declared.checking.pair.Pair.{Pair};

    ghost Value = { List Pair };

    ghost view = { λ list. map pair_at list.numbers.items };

    ghost invariant = { λ list. All IsPair (map pair_at list.numbers.items) };
}

impl PairList {
    // Returns a list with no pair.
    pub(crate) fn new() -> PairList
        ensures { result ≡ [] }
    {
        PairList {
            numbers: ArrayVec::new(),
        }
    }

    // Returns the number of pairs, at most `PAIRS`.
    pub(crate) fn len(&self) -> usize
        ensures value { result ≡ length self.now }
        ensures bound { result ≤ PAIRS }
    {
        self.numbers.len()
    }

    // Returns the pair at the position `i`, which must be below the number of pairs.
    #[tactic(auto, using(crate::proofs::Numbered::listed_at))]
    pub(crate) fn at(&self, i: usize) -> Pair
        requires { i < length self.now }
        ensures value { slice_get self.now i ≡ Some result }
        ensures valid { IsPair result }
    {
        pair_of(self.numbers[i])
    }

    // Adds `pair` at the end. There must be room for it.
    pub(crate) fn push(&mut self, pair: Pair)
        requires room { length self.old < PAIRS }
        requires valid { IsPair pair }
        ensures { self.new ≡ self.old ++ pair ∷ [] }
    {
        self.numbers.push(index_of(pair) as u16);
    }
}
