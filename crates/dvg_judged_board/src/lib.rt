//! What the judge's yes to a program says of each run of it on its board. There is no code here:
//! the law is the contract of a function that does nothing.
#![tactic(auto)]

ghost use Rattle.dvg_judged_board.specs.Judged.{JudgedKeeps};

use dvg_game_board::games_keep;

/// Each run on its board of a program to which `dvg_game_check::judge` says `Keeps`, with that
/// vector ROM, has a log that the board's clocks make, which is legal, and each line keeps the
/// headline: whatever stands beside the program.
pub fn judged_keeps()
    ensures { JudgedKeeps }
{
    games_keep();
}
