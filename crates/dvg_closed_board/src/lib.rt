//! Games of which no premise is left but their bytes. There is no code here: each law is the
//! contract of a function that does nothing.
#![tactic(auto)]

ghost use Rattle.dvg_closed_board.specs.AsteroidContent.{Always as AsteroidAlways};
ghost use Rattle.dvg_closed_board.specs.BatContent.{Always as BatAlways};
ghost use Rattle.dvg_closed_board.specs.FirstContent.{Always as FirstAlways};
ghost use Rattle.dvg_closed_board.specs.RocksContent.{Always as RocksAlways};
ghost use Rattle.dvg_closed_board.specs.TestRomContent.{Always as TestRomAlways};

use dvg_game_board::games_keep;

/// Each run of examples/first on its board has a log that the board's clocks make, which is legal,
/// and each line keeps the headline.
pub fn first_keeps()
    ensures { FirstAlways }
{
    games_keep();
}

/// So does each of examples/bat.
pub fn bat_keeps()
    ensures { BatAlways }
{
    games_keep();
}

/// So does each of examples/asteroid_game.
pub fn asteroid_keeps()
    ensures { AsteroidAlways }
{
    games_keep();
}

/// So does each of examples/board.
pub fn rocks_keeps()
    ensures { RocksAlways }
{
    games_keep();
}

/// So does each of examples/test_rom.
pub fn test_rom_keeps()
    ensures { TestRomAlways }
{
    games_keep();
}
