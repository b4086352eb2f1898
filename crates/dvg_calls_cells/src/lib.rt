//! The whole machine as cells: a processor (`core/dvg_cpu.v`) and the generator's board
//! (`core/dvg_board.v`) on one clock (`core/dvg_machine.v`). There is no code here. Each law is the
//! contract of a function that does nothing.
//!
//! `specs/Machine.antt` is made by `core/cells`, and the cycles of `some_played` by `tables`.
#![tactic(auto)]

ghost use Rattle.dvg_calls_cells.specs.Example.{SomeDrawn, SomePlayed};
ghost use Rattle.dvg_calls_cells.specs.GoesOn.{CallGoesOn, CellsGoOn, CellsWaitOn};
ghost use Rattle.dvg_calls_cells.specs.Needed.{AllIsDoes, NeedsAnswers, NeedsCount, NeedsFree};
ghost use Rattle.dvg_calls_cells.specs.Needed.{NeedsNoStrobe, NeedsNoWrite, NeedsRests};
ghost use Rattle.dvg_calls_cells.specs.Needed.{PremisesFollow};
ghost use Rattle.dvg_calls_cells.specs.Own.{NmiIsQuiet, OwnIsQuiet};
ghost use Rattle.dvg_calls_cells.specs.Played.{CellsKeep, CpuWaits, CycleEnds};
ghost use Rattle.dvg_calls_cells.specs.Played.{ResetTakes, ResetWaits};
ghost use Rattle.dvg_calls_cells.specs.Shown.{ShowsParts};
ghost use Rattle.dvg_calls_cells.specs.Steps.{CellsStep};

use dvg_calls_board::machine_keeps;

/// Each instruction of a call of the driver's code is done by the cells: it is a step of the call,
/// and its access is made on the board.
pub fn cells_step()
    ensures { CellsStep }
{}

/// For every run of the cells since power-up, whose processor calls the driver's routines, waits
/// wherever a cycle would begin, and else writes neither the vector RAM nor the strobe: there is a
/// log that its clocks make; it is legal and keeps the headline, and the RAM holds what it says.
/// What the program reads by itself isn't in it, and before the first call it may write the RAM.
#[tactic(auto, using(crate::proofs::Playing::cells_keep))]
pub fn cells_keep()
    ensures { CellsKeep }
{
    machine_keeps();
}

/// Premises of `cells_keep` are needed. Without one of these, which the last step of a run doesn't
/// meet, there is no log as it says: the program sends no strobe, not even before its first call;
/// after a call it writes no RAM; an instruction of a call begins where the cells rest with the
/// call's registers and no NMI is due, has as many cycles as it takes, and finds what the call has
/// in memory.
/// Of the others, ROM, images, calls, what is checked, jumper and bytes follow from such a log.
pub fn premises_are_needed()
    ensures strobe { NeedsNoStrobe }
    ensures write { NeedsNoWrite }
    ensures rests { NeedsRests }
    ensures free { NeedsFree }
    ensures count { NeedsCount }
    ensures answers { NeedsAnswers }
    ensures others { AllIsDoes }
    ensures follow { PremisesFollow }
{
    machine_keeps();
}

/// What leaves the board alone, said of the definition of the processor: where an instruction's
/// step does, the cycles in which the cells do it do, too; and so does an NMI.
pub fn own_is_quiet()
    ensures own { OwnIsQuiet }
    ensures nmi { NmiIsQuiet }
{}

/// A reset is taken between two cycles: in the first clock of one, or where the processor waits, it
/// resets processor and board; in the second clock neither a reset nor `ready` does anything. Where
/// a cycle would begin and `ready` is low, the processor stays as it is, and the board goes on.
pub fn reset_waits()
    ensures ends { CycleEnds }
    ensures takes { ResetTakes }
    ensures waits { ResetWaits }
    ensures processor { CpuWaits }
{}

/// A run can always go on: by a cycle of the program, whatever its pins are; by a clock in which
/// the processor waits; and by the next instruction of a call, if the board answers each read with
/// what the call's processor has there.
pub fn goes_on()
    ensures alone { CellsGoOn }
    ensures waits { CellsWaitOn }
    ensures calls { CallGoesOn }
{}

/// The machine's pins are those of its processor and its board, in each clock.
pub fn machine_shows()
    ensures { ShowsParts }
{}

/// An example: cells since power-up, whose program tells the watchdog, boot the driver, and calls
/// of `dvg_tick` look at byte 001 and at the flag.
#[tactic(auto, using(crate::proofs::Example::some_played))]
pub fn some_played()
    ensures { SomePlayed }
{}

/// And one that draws: the driver boots and takes a table, `dvg_run` writes and publishes its frame
/// and sends a strobe, and while the program idles the core draws it, as its log says.
#[tactic(auto, using(crate::proofs::FirstCellsPicture::some_drawn))]
pub fn some_drawn()
    ensures { SomeDrawn }
{
    cells_keep();
}
