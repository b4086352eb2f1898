//! Laws of sketches. Each is the contract of a function that does nothing. That a text has a
//! meaning or a fault is said as "none lacks both": no function tells which without memory.
ghost use Rattle.dvg_named.specs.SketchLaws.{NoFaultBeside, NoneLacksBoth, OneFault, OneMeaning};
ghost use Rattle.dvg_named.specs.SketchLaws.{OneSketch, PlainDrafts, TokensAreParts};

/// The tokens of a line are the parts of the line as a plain draft has it, where there is a token.
#[tactic(auto, using(crate::proofs::PlainTokens::parts_of_plain))]
pub fn tokens_are_parts()
    ensures { TokensAreParts }
{}

/// A list of lines spells one sketch at most.
pub fn one_sketch()
    ensures { OneSketch }
{}

/// A text denotes one list of frames at most, and one ROM.
pub fn one_meaning()
    ensures { OneMeaning }
{}

/// A text that denotes frames and a ROM has no fault.
pub fn no_fault_beside()
    ensures { NoFaultBeside }
{}

/// A text has one fault at most.
#[tactic(auto, using(crate::proofs::OneFault::one_fault))]
pub fn one_fault()
    ensures { OneFault }
{}

/// No text lacks both a meaning and a fault.
#[tactic(auto, using(crate::proofs::MeaningOrFault::none_lacks_both))]
pub fn none_lacks_both()
    ensures { NoneLacksBoth }
{}

/// Each plain draft is a sketch of one frame without a name: of the same draft, and the same ROM.
#[tactic(auto, using(crate::proofs::PlainDrafts::plain_drafts))]
pub fn plain_drafts()
    ensures { PlainDrafts }
{}
