//! What the judge's yes to a program says of each run of it on a whole board as one circuit. There
//! is no code here: the law is the contract of a function that does nothing.
#![tactic(auto)]

ghost use Rattle.dvg_judged_circuit.specs.Judged.{JudgedOnCircuitKeeps};

use dvg_judged_cells::judged_on_cells_keeps;

/// Each run of the circuit that has in its ROMs a program to which `dvg_game_check::judge` says
/// `Keeps`, and that vector ROM, keeps the headline, whatever its pins are.
pub fn judged_on_circuit_keeps()
    ensures { JudgedOnCircuitKeeps }
{
    judged_on_cells_keeps();
}
