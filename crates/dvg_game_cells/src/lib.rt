//! A game's ROM on a machine of cells: from its bytes to each run of a processor and a board, both
//! cells, on one clock. There is no code here: the law is the contract of a function that does
//! nothing.
#![tactic(auto)]

ghost use Rattle.dvg_game_cells.specs.GoesOn.{RunsGoOn, SomeWhole};
ghost use Rattle.dvg_game_cells.specs.Keeps.{GamesOnCellsKeep, VectorsOnCellsKeep};

use dvg_calls_board::{hindsight_keeps, machine_keeps};
use dvg_game_board::{games_keep, vectors_keep};

/// Where the checker accepts a game, and what it offers and puts is as `Content` says: each run of
/// the cells of a processor and a board that have it in memory, clock by clock, has a log that the
/// board's clocks make, which is legal, and each line keeps the headline.
pub fn games_on_cells_keep()
    ensures { GamesOnCellsKeep }
{
    games_keep();
    hindsight_keeps();
    machine_keeps();
}

/// A game that builds its frames by `dvg_open`, `dvg_labs`, `dvg_vector` and `dvg_close` alone has
/// no premise on its content.
pub fn vectors_on_cells_keep()
    ensures { VectorsOnCellsKeep }
{
    vectors_keep();
    hindsight_keeps();
    machine_keeps();
}

/// A run can go on by a clock in which memory and the generator's ROM answer, whatever `reset`,
/// `ready` and `hold` are, and the byte where any will do; and whatever `nmi` is, unless it rises
/// less than 5,200 cycles after it rose before.
pub fn runs_go_on()
    ensures { RunsGoOn }
{}

/// The laws aren't empty: a run of the cells of a game that the checker accepts, from power-up up
/// to where the driver reads byte 001.
#[tactic(auto, using(crate::proofs::Example::some_whole))]
pub fn some_whole()
    ensures { SomeWhole }
{}
