//! Moves of instructions that were run.
ghost use Rattle.std.specs.Prelude.{◌≡◌, ◌∷◌, [], option_to_list};
ghost use Rattle.dvg_gen.specs.Counting.{followed, followed_all};
ghost use Rattle.dvg_gen.specs.Moving.{made};
ghost use Rattle.dvg_dump.specs.Units.{setting_out, units_if};

use crate::ran::Ran;
use dvg_gen::{Beam, Counters, Move};
use std::marker::Model;

/// Goes along the instructions of a run, and tells their moves: in 1/512 of a screen unit, or in
/// whole units, as the counters of `dvg_gen` have them.
#[derive(Debug, Drop)]
pub struct Follower {
    units: bool,
    beam: Beam,
    counters: Counters,
}

/// Contracts see where it is.
impl Model for Follower {
    ghost use Rattle.dvg_dump.specs.Units.{Course};

    ghost Value = { Course };

    ghost view = { λ follower. record {
      units = follower.units;
      beam = follower.beam;
      counters = follower.counters;
    } };
}

impl Follower {
    /// Returns one that stands before the first instruction of a new generator. With `units` it
    /// tells moves in whole units.
    pub fn new(units: bool) -> Follower
        ensures { result ≡ setting_out units }
    {
        Follower {
            units,
            beam: Beam::place(0, 0, 0),
            counters: Counters { x: 0, y: 0 },
        }
    }

    /// Goes past `ran`, the next instruction, and returns its move. `None` means that it leaves the
    /// beam as it is.
    pub fn follow(&mut self, ran: &Ran) -> Option<Move>
        ensures told { option_to_list result ≡ units_if self.old.units self.old.counters
            (made self.old.beam ran.now.address ran.now.code) }
        ensures past { self.new ≡ record {
          units = self.old.units;
          beam = ran.now.beam;
          counters = followed_all self.old.counters
              (made self.old.beam ran.now.address ran.now.code);
        } }
    {
        let made = Move::of(&self.beam, &ran.code, ran.address);
        self.beam = ran.beam;
        match made {
            Some(made) => Some(self.told(&made)),
            None => None,
        }
    }

    // Lets the counters follow `made`, and returns it in the unit that is asked for.
    fn told(&mut self, made: &Move) -> Move
        ensures told { result ∷ [] ≡ units_if self.old.units self.old.counters (made.now ∷ []) }
        ensures past { self.new ≡ record self.old {
          counters = followed self.old.counters made.now;
        } }
    {
        let before = self.counters;
        self.counters.follow(made);
        if !self.units {
            return *made;
        }
        Move {
            x0: u32::from(before.x),
            y0: u32::from(before.y),
            x1: u32::from(self.counters.x),
            y1: u32::from(self.counters.y),
            z: made.z,
            placed: made.placed,
            address: made.address,
        }
    }
}
