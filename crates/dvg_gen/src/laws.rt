//! Laws of the definitions alone. Each is the contract of a function that does nothing.
ghost use Rattle.dvg_gen.specs.Laws.{AnswersACall, BeamOfAll, CountersOfMoves, CountersOfRun};
ghost use Rattle.dvg_gen.specs.Laws.{LeastResidue, OneCall, OneRun, OneRunOfMemory, PastTheCall};
ghost use Rattle.dvg_gen.specs.Laws.{RunInRange, SeenDraws, StaysInRange, StrokesAreSeen};
ghost use Rattle.dvg_gen.specs.Laws.{UnseenDrawsNothing};
ghost use Rattle.dvg_gen.specs.Wrapping.{WrapsAlike, WrapsUnbroken};

/// A moved position is exact: the least residue modulo 2,097,152 of the old one and the way.
pub fn least_residue()
    ensures { LeastResidue }
{}

/// A vector with an intensity of at least 1 draws one stroke, even of length zero. Nothing else
/// draws.
#[tactic(auto, using(crate::proofs::WhatDraws::seen_draws))]
pub fn what_draws()
    ensures seen { SeenDraws }
    ensures unseen { UnseenDrawsNothing }
{}

/// What is drawn is in range: positions are below 2,097,152, and the intensity is 1 to 15. This
/// holds of an instruction in range, from each beam, and of the strokes of each history's newest
/// run.
pub fn strokes_in_range()
    ensures step { StaysInRange }
    ensures run { RunInRange }
{}

/// Where there are more calls than returns, a return answers exactly one call: reading back from
/// it, the first place with one call more than returns.
pub fn one_call()
    ensures { OneCall }
{}

/// What a return answers is a call, and it leads to one past it. So a reader of the definition,
/// which counts how many returns still need a call, need not trust its counter.
pub fn past_the_call()
    ensures call { AnswersACall }
    ensures address { PastTheCall }
{}

/// A history leaves exactly one run.
#[tactic(auto, using(crate::proofs::OneRun::leaves_same, crate::proofs::OneRun::leaves_more))]
pub fn one_run()
    ensures { OneRun }
{}

/// A memory that does not change has at most one run of a given number of words.
#[tactic(auto, using(crate::proofs::OneRun::runs_same))]
pub fn one_run_of_memory()
    ensures { OneRunOfMemory }
{}

/// The beam is that of all whole instructions of a history, whatever run they stand in.
pub fn beam_of_all()
    ensures { BeamOfAll }
{}

/// The strokes of a run are those moves that are seen: the ones of intensity 1 to 15, in order.
#[tactic(auto, using(crate::proofs::Moves::seen_moves))]
pub fn seen_moves()
    ensures { StrokesAreSeen }
{}

/// Counters that follow a run's moves, which know positions alone, are those that an instruction's
/// own fields count: of a vector its magnitudes times the unit of its scale, rounded.
pub fn counted_moves()
    ensures step { CountersOfMoves }
    ensures run { CountersOfRun }
{}

/// Where the stack wraps, no call and no return breaks a run. What breaks at no stack is as it is
/// without a stack that wraps.
pub fn wrapping_stack()
    ensures unbroken { WrapsUnbroken }
    ensures alike { WrapsAlike }
{}
