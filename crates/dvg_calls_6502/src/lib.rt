//! The 6502 code of the driver, proved from its bytes: each routine does what the script says. Of
//! dvg_copy the laws of single calls and of frames speak (`copies`), and none of many calls.
//! There is no code here. Each law is the contract of a function that does nothing.
#![tactic(auto)]

ghost use Rattle.dvg_calls_6502.specs.Calls.{CallsLive, OfferAnswers, OneLife, OpenAnswers};
ghost use Rattle.dvg_calls_6502.specs.Calls.{RedrawAnswers, RunSpares, TicksReturn};
ghost use Rattle.dvg_calls_6502.specs.Decided.{CallsDecide, Decides, LabsIsPair, StaysBuilding};
ghost use Rattle.dvg_calls_6502.specs.Decided.{StaysIdle};
ghost use Rattle.dvg_calls_6502.specs.Interrupts.{InterruptReturns};
ghost use Rattle.dvg_calls_6502.specs.Programs.{Hindsight};
ghost use Rattle.dvg_calls_6502.specs.Joined.{BoardKeeps, SomeBuilding, SomeCalls, SomeLogs};
ghost use Rattle.dvg_calls_6502.specs.Joined.{SomeTicks};
ghost use Rattle.dvg_calls_6502.specs.Routines.{OfferRefuses, OfferTakes, RedrawRefuses};
ghost use Rattle.dvg_calls_6502.specs.Routines.{RedrawTakes, ResetRefines, TickRefines};
ghost use Rattle.dvg_calls_6502.specs.Build.{BuildsScript, BuiltAccepted, CloseRefuses, CloseTakes};
ghost use Rattle.dvg_calls_6502.specs.Build.{IdleTicks, IdleTicksAll, LabsTakes, OpenRefuses};
ghost use Rattle.dvg_calls_6502.specs.Build.{OpenTakes, PairTakes, PutTakes, PutsRefuse};
ghost use Rattle.dvg_calls_6502.specs.Build.{RunReturns};
ghost use Rattle.dvg_calls_6502.specs.Build.{VectorRefuses, VectorTakes};
ghost use Rattle.dvg_calls_6502.specs.Copy.{CopiesFrame, CopyRefuses, CopyTakes, SomeCopies};
ghost use Rattle.dvg_calls_6502.specs.Moves.{SomeVectors, VectorDraws};
ghost use Rattle.dvg_calls_6502.specs.Whole.{BuildsFrame, BuildsLife, SomeFrame};
ghost use Rattle.dvg_calls_6502.specs.Tables.{CheckedExpressible, TableLaw, TableMisses};

/// What is written for the table of a frame is the frame in either half.
#[tactic(auto, using(crate::proofs::TableFed::table_law))]
pub fn tables()
    ensures { TableLaw }
{}

/// A table can express each checked draft whose operations name the ROM from 400 on.
#[tactic(auto, using(crate::proofs::Checked::checked_expressible))]
pub fn checked_tables()
    ensures { CheckedExpressible }
{}

/// An example of a table that says something else: its frame names a word of the ROM below 400.
#[tactic(auto, using(crate::proofs::TableBegins::table_misses))]
pub fn table_misses()
    ensures { TableMisses }
{}

/// After `dvg_reset` the driver stands at its start, whatever memory held.
#[tactic(auto, using(crate::proofs::Offering::reset_refines))]
pub fn reset()
    ensures { ResetRefines }
{}

/// Each call of `dvg_tick` does the script's next action.
#[tactic(auto, using(crate::proofs::TickDoesNext::tick_refines))]
pub fn tick()
    ensures { TickRefines }
{}

/// An offer of a table by `dvg_offer` is taken where the driver rests, and else refused.
pub fn offer()
    ensures takes { OfferTakes }
    ensures refuses { OfferRefuses }
{}

/// `dvg_redraw` is taken where the driver rests and has published a frame, and else refused.
pub fn redraw()
    ensures takes { RedrawTakes }
    ensures refuses { RedrawRefuses }
{}

/// Over all calls since a reset, with any memory at first, also interrupted ones, where nobody else
/// writes the driver's bytes, its code, the vector RAM or a table that is being written: the
/// accesses of the hardware, in their order, with the frames and redraws that were taken, are a
/// life of the script. A frame that the program builds counts as taken at `dvg_open`. The next call
/// may begin as soon as the answer of the one before is decided, so the ticks of an NMI are calls
/// like the others.
#[tactic(auto, using(crate::proofs::Sessions::calls_live))]
pub fn calls_live()
    ensures { CallsLive }
{}

/// There are such calls: after the boot a frame's table is offered, and taken, and an NMI that
/// counts comes amid that, or one that ticks, before and after the answer is decided; or a frame of
/// one LABS is built. And there are such logs, over each ROM and each first memory image.
pub fn some_calls()
    ensures calls { SomeCalls }
    ensures ticks { SomeTicks }
    ensures building { SomeBuilding }
    ensures logs { SomeLogs }
{}

/// A call of `dvg_ticks` returns, also amid interrupts, with its count at 0. It changes at most the
/// driver's bytes, the hardware, and two bytes of the stack.
#[tactic(auto, using(crate::proofs::Programs::ticks_come_back))]
pub fn ticks_return()
    ensures { TicksReturn }
{}

/// A call of `dvg_run` that has returned changed at most the same bytes, also amid interrupts.
#[tactic(auto, using(crate::proofs::Programs::run_spares_rest))]
pub fn run_spares()
    ensures { RunSpares }
{}

/// An NMI's routine is a program like another one. Where it comes to an RTI, with S and the three
/// bytes that the NMI pushed as they were, the program goes on where the NMI came, with the flags
/// of then; A, X, Y and memory are as the routine left them.
#[tactic(auto, using(crate::proofs::Resuming::interrupt_returns))]
pub fn interrupt_returns()
    ensures { InterruptReturns }
{}

/// Calls make at most one life.
#[tactic(auto, using(crate::proofs::Sessions::one_life))]
pub fn one_life()
    ensures { OneLife }
{}

/// The drafts that a program builds are known in hindsight. Let each of its calls that puts a part
/// put the words of an operation, at first those of a LABS. Then there are drafts with which its
/// calls are those of the other laws: what was put, and a HALT, also where a frame is given up.
#[tactic(auto, using(crate::proofs::Programs::hindsight))]
pub fn hindsight()
    ensures { Hindsight }
{}

/// Of all calls, an offer or `dvg_open` is taken exactly where the life is whole, and a redraw
/// where it has a flip, too.
pub fn answers()
    ensures offer { OfferAnswers }
    ensures opens { OpenAnswers }
    ensures redraw { RedrawAnswers }
{}

/// A log whose driver's lines are accesses and answers of the machine code is legal, and keeps the
/// headline: no byte is written in the half being drawn, and each picture is that of the frame
/// newest published. Of a frame that the program builds each shape that it calls is one that the
/// check accepts when it is called once.
#[tactic(auto, using(crate::proofs::BoardLogsLegal::board_keeps))]
pub fn board_keeps()
    ensures { BoardKeeps }
{}

/// The routines that build a frame, one by one: what they put is written where the frame goes on,
/// as the script's next writes, and after `dvg_close` word zero is to come. `dvg_vector` puts the
/// canonical words of a vector, or the one word of the short vector that draws the same. Where
/// there is no such vector, no frame or no room, a call is refused. Ticks do nothing while a frame
/// is being built, and `dvg_run` returns at once. Each leaves alone the memory that it isn't said
/// to change, also where it is refused.
pub fn builds()
    ensures opens { OpenTakes }
    ensures puts { PutTakes }
    ensures pairs { PairTakes }
    ensures labs { LabsTakes }
    ensures vector { VectorTakes }
    ensures no_vector { VectorRefuses }
    ensures no_room { PutsRefuse }
    ensures no_rest { OpenRefuses }
    ensures no_frame { CloseRefuses }
    ensures vector_draws { VectorDraws }
    ensures some_vectors { SomeVectors }
    ensures closes { CloseTakes }
    ensures idles { IdleTicks }
    ensures runs { RunReturns }
    ensures idles_all { IdleTicksAll }
    ensures script { BuildsScript }
{}

/// Calls of these routines, one after the other, build a whole frame, also amid interrupts that
/// leave the driver's bytes alone. Where it is a draft's, these are the script's writes of that
/// draft. There are such calls.
pub fn builds_frame()
    ensures writes { BuildsFrame }
    ensures life { BuildsLife }
    ensures some { SomeFrame }
{}

/// The check accepts each frame of a LABS, then vectors, LABSs and calls of shapes, then the HALT,
/// of at most 511 words, if it accepts the frames that call these shapes once.
pub fn built_accepted()
    ensures { BuiltAccepted }
{}

/// After its look at the phase, if that refuses, and after its store of the phase, a call of the
/// main program takes its code alone: ticks of an NMI may act there, and it returns the same C. So
/// does each of the calls whose answer is decided. Before that the driver is idle, or a frame is
/// being built, so that ticks do nothing. `dvg_labs` is `dvg_pair` from its look on.
pub fn decides()
    ensures places { Decides }
    ensures calls { CallsDecide }
    ensures idle { StaysIdle }
    ensures building { StaysBuilding }
    ensures labs { LabsIsPair }
{}

/// `dvg_copy`, by its bytes: where a frame is being built and there is room, it puts what it
/// copies, byte by byte, as calls of `dvg_put` would, and returns with C clear; else it is refused.
/// It wants D clear, an even count, and a source apart from the hardware and from the driver's
/// bytes. Calls of it, among those of `builds_frame`, build a whole frame, also amid interrupts
/// that leave the source alone, too. There are such calls.
pub fn copies()
    ensures takes { CopyTakes }
    ensures refuses { CopyRefuses }
    ensures frame { CopiesFrame }
    ensures some { SomeCopies }
{}
