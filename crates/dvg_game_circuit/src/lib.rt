//! A whole Asteroids board as one circuit on one clock, `core/dvg_game.v`: whatever came since
//! power-up. There is no code here: each law is the contract of a function that does nothing.
//!
//! `specs/Game.antt` is made by `core/cells`.
#![tactic(auto)]

ghost use Rattle.dvg_game_circuit.specs.Around.{BoardGoesAround};
ghost use Rattle.dvg_game_circuit.specs.Laws.{Asteroid, CircuitsAreWhole, CircuitsKeepByBytes};
ghost use Rattle.dvg_game_circuit.specs.Laws.{GamesLoad, Rocks};
ghost use Rattle.dvg_game_circuit.specs.Pictures.{CircuitDraws, CircuitIsDark, CircuitTakesPicture};
ghost use Rattle.dvg_game_circuit.specs.Shown.{ShowsParts};

use dvg_cells_motion::{halted_tells, machine_follows, takes_picture};
use dvg_closed_cells::{
    asteroid_on_cells_keeps, can_be_powered, games_on_cells_keep_by_bytes, rocks_on_cells_keeps,
};

/// Each run of the circuit is one of the cells of a processor and a board with a memory that has
/// its ROMs: it answers in time, and NMIs come far enough apart, whatever the pins are.
#[tactic(auto, using(crate::proofs::CircuitAsCells::whole))]
pub fn circuits_are_whole()
    ensures { CircuitsAreWhole }
{}

/// So where two tests of a game's bytes say so, each run of the circuit with these in its ROMs has
/// a log that the board's clocks make, which is legal, and each line keeps the headline; and its
/// vectors are drawn by the hardware's motion.
pub fn circuits_keep_by_bytes()
    ensures { CircuitsKeepByBytes }
{
    games_on_cells_keep_by_bytes();
}

/// So does each run of the circuit whose ROMs hold examples/asteroid_game at power-up
/// (`HoldsGame`): no other premise is left but that pins are bits and bytes.
pub fn asteroid_circuit_keeps()
    ensures { Asteroid }
{
    asteroid_on_cells_keeps();
    can_be_powered();
}

/// So does each whose ROMs hold examples/board then.
pub fn rocks_circuit_keeps()
    ensures { Rocks }
{
    rocks_on_cells_keeps();
    can_be_powered();
}

/// None of these is empty: the two files of a game make such memories.
pub fn games_load()
    ensures { GamesLoad }
{
    can_be_powered();
}

/// The pins of the circuit are those of its processor and its vectors.
#[tactic(auto, using(crate::proofs::PinsOfParts::shows))]
pub fn circuit_shows()
    ensures { ShowsParts }
{}

/// Around its processor and its vectors the circuit goes as an Asteroids board: its RAM, with both
/// banks, inputs and switches answer, latches have what was written last, ticks are counted, NMIs
/// come, and the watchdog bites.
pub fn board_goes_around()
    ensures { BoardGoesAround }
{}

/// The beam's counters follow the run of the circuit's core; where the pin `halted` is high, its
/// last stroke is drawn.
pub fn circuit_draws()
    ensures { CircuitDraws }
{
    machine_follows();
    halted_tells();
}

/// Where no vector goes its beam is dark.
pub fn circuit_is_dark()
    ensures { CircuitIsDark }
{}

/// A picture of the circuit takes as many ticks as its instructions add up to, where the
/// processor's cycles begin with ticks, as on the arcade's board.
pub fn circuit_takes_picture()
    ensures { CircuitTakesPicture }
{
    takes_picture();
}
