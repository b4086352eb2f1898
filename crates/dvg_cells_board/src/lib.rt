//! The generator's side of a board, `core/dvg_board.v`: the bus of a processor, the arbiter, the
//! RAM and the core, proved from the cells that yosys reads in them. There is no code here. Each
//! law is the contract of a function that does nothing.
//!
//! `specs/Board.antt` is made by `core/cells dvg_board`. The core is one cell of it, that of
//! `dvg_cells_core`.
//!
//! Proofs compute the cells of the RAM and of what is read in it, case by case, so a wrong one is
//! refused at once. Other lemmas name wires: there a refusal may say only that something changed.
#![tactic(auto)]

ghost use Rattle.dvg_log.specs.Headline.{KeepsHeadline};
ghost use Rattle.dvg_log.specs.Legal.{IsLegal};
ghost use Rattle.dvg_log.specs.Log.{Throughout};
ghost use Rattle.dvg_cells_board.specs.Answers.{AnswersNext, BoardWorks};
ghost use Rattle.dvg_cells_board.specs.Example.{SomeBoard};
ghost use Rattle.dvg_cells_board.specs.Logs.{HoldsRam, OfEachBoard};
ghost use Rattle.dvg_cells_board.specs.Shown.{ShowsCore};

/// For every ROM, first content of the RAM and list of clocks, whatever pins, resets, holds and
/// pace of accesses they have, where the accesses of the processor are those of the driver's
/// script: the log of these clocks is legal, and each of its lines keeps the headline. No byte is
/// written in the half being drawn, the generator never faults, and every run that reaches HALT
/// drew exactly the picture of the frame newest published. The RAM holds what the log says.
pub fn board_keeps()
    ensures legal { OfEachBoard (λ R image held log clocks. IsLegal R image log) }
    ensures headline { OfEachBoard
        (λ R image held log clocks. Throughout (KeepsHeadline R image) log) }
    ensures memory { OfEachBoard (λ R image held log clocks. HoldsRam image held log clocks) }
{}

/// What the processor reads is what the log has: the RAM's byte, and the flag. Its strobe starts
/// the core, and the core is served in each clock in which the RAM is free for it.
#[tactic(auto, using(crate::proofs::AnswersProcessor::answers_next))]
pub fn board_answers()
    ensures { OfEachBoard (λ R image held log clocks. AnswersNext image held log clocks) }
{}

/// A clock of any board, whoever drives it, and whatever came before.
#[tactic(auto, using(crate::proofs::AnswersProcessor::board_works))]
pub fn board_works()
    ensures { BoardWorks }
{}

/// The pins `at` to `z` are those of the core, and `ends` to `vec_z`, too.
pub fn board_shows()
    ensures { ShowsCore }
{}

/// There is such a board: over a RAM and a ROM of zeros the driver boots, writes a frame, publishes
/// it and sends a strobe, and the core draws the frame's picture.
#[tactic(auto, using(crate::proofs::Example::some_board))]
pub fn some_board()
    ensures { SomeBoard }
{}
