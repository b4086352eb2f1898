//! A work list of pairs.
ghost use Rattle.std.specs.Prelude.{◌≡◌, ◌<◌, ◌≤◌, List, [], Some, length, slice_get};
ghost use Rattle.dvg_frame.specs.own.Growth.{AreMarked, Grows};
ghost use Rattle.dvg_frame.specs.own.Pairs.{IsPair};
ghost use Rattle.dvg_frame.specs.declared.checking.pair.Pair.{Pair};

use crate::checking::pair::{PAIRS, Pair, index_of};
use crate::checking::pair_list::PairList;
use std::marker::Model;

/// Pairs, each once, in the order in which they came.
#[derive(Drop)]
pub(crate) struct Worklist {
    marks: [bool; PAIRS],
    pairs: PairList,
}

/// Contracts see the list of the pairs.
impl Model for Worklist {
    ghost Value = { List Pair };

    ghost view = { λ list. list.pairs };

    ghost invariant = { λ list. AreMarked list.marks list.pairs };
}

impl Worklist {
    // Returns a list with no pair.
    pub(crate) fn new() -> Worklist
        ensures { result ≡ [] }
    {
        Worklist {
            marks: [false; PAIRS],
            pairs: PairList::new(),
        }
    }

    // Returns the number of pairs.
    pub(crate) fn len(&self) -> usize
        ensures value { result ≡ length self.now }
        ensures bound { result ≤ PAIRS }
    {
        self.pairs.len()
    }

    // Returns the pair at the position `i`, which must be below the number of pairs.
    pub(crate) fn at(&self, i: usize) -> Pair
        requires { i < length self.now }
        ensures value { slice_get self.now i ≡ Some result }
        ensures valid { IsPair result }
    {
        self.pairs.at(i)
    }

    // Adds `pair` at the end, unless it is there.
    pub(crate) fn add(&mut self, pair: Pair)
        requires { IsPair pair }
        ensures { Grows self.old self.new (λ new. new ≡ pair) }
    {
        let i = index_of(pair);
        if !self.marks[i] {
            self.marks[i] = true;
            self.pairs.push(pair);
        }
    }
}
