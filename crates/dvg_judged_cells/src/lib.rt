//! What the judge's yes to a program says of each run of it on a machine of cells. There is no code
//! here: the law is the contract of a function that does nothing.
#![tactic(auto)]

ghost use Rattle.dvg_judged_cells.specs.Judged.{JudgedOnCellsKeeps};

use dvg_game_cells::games_on_cells_keep;

/// Each run of the cells of a processor and a board that have in memory a program to which
/// `dvg_game_check::judge` says `Keeps`, with that vector ROM, keeps the headline.
pub fn judged_on_cells_keeps()
    ensures { JudgedOnCellsKeeps }
{
    games_on_cells_keep();
}
