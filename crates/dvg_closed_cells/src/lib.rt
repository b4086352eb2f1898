//! Games on a machine of cells, with no premise on what they do. There is no code here: each law is
//! the contract of a function that does nothing.
#![tactic(auto)]

ghost use Rattle.dvg_closed_cells.specs.Closed.{Asteroid, Bat, CanBePowered, First};
ghost use Rattle.dvg_closed_cells.specs.Closed.{GamesOnCellsKeepByBytes, Rocks, TestRom};

use dvg_game_cells::games_on_cells_keep;

/// Where two tests of a game's bytes say so, each run of the cells of a processor and a board that
/// have it in memory, clock by clock, has a log that the board's clocks make, which is legal, and
/// each line keeps the headline.
pub fn games_on_cells_keep_by_bytes()
    ensures { GamesOnCellsKeepByBytes }
{
    games_on_cells_keep();
}

/// So does each run of examples/first on the cells: no premise is left but what drives them.
pub fn first_on_cells_keeps()
    ensures { First }
{
    games_on_cells_keep_by_bytes();
}

/// So does each of examples/bat.
pub fn bat_on_cells_keeps()
    ensures { Bat }
{
    games_on_cells_keep_by_bytes();
}

/// So does each of examples/asteroid_game.
pub fn asteroid_on_cells_keeps()
    ensures { Asteroid }
{
    games_on_cells_keep_by_bytes();
}

/// So does each of examples/board.
pub fn rocks_on_cells_keeps()
    ensures { Rocks }
{
    games_on_cells_keep_by_bytes();
}

/// So does each of examples/test_rom.
pub fn test_rom_on_cells_keeps()
    ensures { TestRom }
{
    games_on_cells_keep_by_bytes();
}

/// None of these is empty: each game's cells can be powered, whatever stands beside its ROM.
#[tactic(auto, using(crate::proofs::Powering::can_be_powered))]
pub fn can_be_powered()
    ensures { CanBePowered }
{}
