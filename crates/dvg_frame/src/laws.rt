//! Laws of the check's result. Each is the contract of a function that does nothing else.
ghost use Rattle.dvg_frame.specs.Laws.{AcceptedStays, GrownStays, LoopsComeBack, OneAnswer};
ghost use Rattle.dvg_frame.specs.Laws.{OneFault, OnePicture};

/// At most one fault is picked of a draft, over any ROM.
#[tactic(auto, using(crate::proofs::OneFault::one_fault))]
pub fn one_fault()
    ensures { OneFault }
{}

/// No fault is picked of a draft that has none and no loop.
#[tactic(auto, using(crate::proofs::OneFault::accepted_stays))]
pub fn accepted_stays()
    ensures { AcceptedStays }
{}

/// Each draft has exactly one result of the check over each ROM: a frame, or a fault.
pub fn one_answer()
    ensures { OneAnswer }
{}

/// A draft with no fault and no loop has exactly one picture, of fewer than 2^63 words.
pub fn one_picture()
    ensures { OnePicture }
{}

/// A closed draft has a loop exactly where steps at one depth lead from a reached pair back to it.
#[tactic(auto, using(crate::proofs::Loops::loop_comes_back, crate::proofs::Loops::back_loops))]
pub fn loops_come_back()
    ensures { LoopsComeBack }
{}

/// A draft that is closed over a ROM of 2,048 bytes is closed over the ROM that `Rom::grow` makes
/// of it, with the same pictures.
#[tactic(auto, using(crate::proofs::Grown::stays_closed, crate::proofs::Grown::same_pictures))]
pub fn grown_stays()
    ensures { GrownStays }
{}
