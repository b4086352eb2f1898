//! Laws of the definitions alone. Each is the contract of a function that does nothing.
ghost use Rattle.dvg_dump.specs.Laws.{MovesOfTrace, OneEnd, StrokesOfTrace};

/// The run over a memory of words ends in exactly one way within 65,536 words, of which not ending
/// is one, and after exactly one list of instructions.
#[tactic(auto, using(crate::proofs::OneEnd::one_end, crate::proofs::OneEnd::some_end))]
pub fn one_end()
    ensures { OneEnd }
{}

/// The strokes of a run are those that are recorded of its instructions, in order.
#[tactic(auto, using(crate::proofs::OneStroke::strokes_of_trace))]
pub fn strokes_of_trace()
    ensures { StrokesOfTrace }
{}

/// The moves of a run are those that are recorded of its instructions, in order.
#[tactic(auto, using(crate::proofs::RecordedMoves::moves_of_trace))]
pub fn moves_of_trace()
    ensures { MovesOfTrace }
{}
