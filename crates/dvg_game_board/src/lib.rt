//! Games on their boards: from the bytes of a ROM to each run of a whole machine. There is no code
//! here: each law is the contract of a function that does nothing.
#![tactic(auto)]

ghost use Rattle.dvg_game_board.specs.Example.{SomeCabinet};
ghost use Rattle.dvg_game_board.specs.Keeps.{GamesKeep, GamesKeepByBytes, GamesLeaveBoard};
ghost use Rattle.dvg_game_board.specs.Keeps.{VectorsKeep};

use dvg_calls_board::{hindsight_keeps, machine_keeps};

/// Where the checker accepts a game, and what it offers and puts is as `Content` says: each run of
/// it on its board has a log that the board's clocks make, which is legal, and each line keeps the
/// headline. What the game writes leaves the board alone.
pub fn games_keep()
    ensures keeps { GamesKeep }
    ensures leaves { GamesLeaveBoard }
{
    hindsight_keeps();
    machine_keeps();
}

/// So it is where two tests of a game's bytes say so, with no premise on what it offers and puts.
pub fn games_keep_by_bytes()
    ensures { GamesKeepByBytes }
{
    games_keep();
}

/// A game that builds its frames by `dvg_open`, `dvg_labs`, `dvg_vector` and `dvg_close` alone has
/// no premise on its content.
pub fn vectors_keep()
    ensures { VectorsKeep }
{
    hindsight_keeps();
    machine_keeps();
}

/// The laws aren't empty: a run of a game that the checker accepts, up to the driver's read of byte
/// 001, the first of its boot.
#[tactic(auto, using(crate::proofs::SomeCabinet::some_cabinet))]
pub fn some_cabinet()
    ensures { SomeCabinet }
{}
