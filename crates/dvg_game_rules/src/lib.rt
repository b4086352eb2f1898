//! A checker of a program's bytes, and what its yes means. There is no code here: each law is the
//! contract of a function that does nothing.
#![tactic(auto)]

ghost use Rattle.dvg_game_rules.specs.Alike.{InterruptsAlike, StartsUp, StepsAlike};
ghost use Rattle.dvg_game_rules.specs.Asteroid.{RunsSafely as AsteroidRunsSafely};
ghost use Rattle.dvg_game_rules.specs.Bat.{RunsSafely as BatRunsSafely};
ghost use Rattle.dvg_game_rules.specs.Between.{LeavesAlone};
ghost use Rattle.dvg_game_rules.specs.First.{RunsSafely as FirstRunsSafely};
ghost use Rattle.dvg_game_rules.specs.Rocks.{RunsSafely as RocksRunsSafely};
ghost use Rattle.dvg_game_rules.specs.Safe.{CheckedSafe};
ghost use Rattle.dvg_game_rules.specs.SomeRun.{SomeRun};
ghost use Rattle.dvg_game_rules.specs.TestRom.{RunsSafely as TestRomRunsSafely};

/// Where the checker accepts a ROM, each run of the machine here on it is safe, whoever made the
/// notes.
pub fn checked_safe()
    ensures { CheckedSafe }
{}

/// Between calls of the driver each step leaves the driver's bytes, the flag, the strobe and the
/// vector RAM as they are, or `dvg_reset` must be called before all else.
pub fn leaves_alone()
    ensures { LeavesAlone }
{}

/// Each step of the processor, of all its opcodes, but for calls of the driver, is one of the
/// machine here; and so is an NMI.
pub fn steps_alike()
    ensures steps { StepsAlike }
    ensures interrupts { InterruptsAlike }
{}

/// After a reset the processor comes to where a run begins, with S at 255, whatever memory held.
pub fn starts_up()
    ensures { StartsUp }
{}

/// The game of examples/asteroid_game: each run of its bytes keeps to the premises.
#[tactic(auto, using(crate::proofs::Asteroid::runs_safely))]
pub fn asteroid_is_safe()
    ensures { AsteroidRunsSafely }
{}

/// The game of examples/bat: each run of its bytes keeps to the premises.
#[tactic(auto, using(crate::proofs::Bat::runs_safely))]
pub fn bat_is_safe()
    ensures { BatRunsSafely }
{}

/// The program of examples/first: each run of its bytes keeps to the premises.
#[tactic(auto, using(crate::proofs::First::runs_safely))]
pub fn first_is_safe()
    ensures { FirstRunsSafely }
{}

/// The game of examples/board: each run of its bytes keeps to the premises.
#[tactic(auto, using(crate::proofs::Rocks::runs_safely))]
pub fn rocks_is_safe()
    ensures { RocksRunsSafely }
{}

/// The program of examples/test_rom: each run of its bytes keeps to the premises.
#[tactic(auto, using(crate::proofs::TestRom::runs_safely))]
pub fn test_rom_is_safe()
    ensures { TestRomRunsSafely }
{}

/// The laws aren't empty: a run of examples/first, which shows a frame, with two NMIs.
#[tactic(auto, using(crate::proofs::Example::some_run))]
pub fn some_run()
    ensures { SomeRun }
{}
