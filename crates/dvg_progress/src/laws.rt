//! Laws of progress, of definitions alone. Each is the contract of a function that does nothing.
ghost use Rattle.dvg_progress.specs.Progress.{DrawnInTime, HaltsInTime, PublishedInTime};
ghost use Rattle.dvg_progress.specs.Progress.{NeverStuck, SentInTime, ShownInTime};

/// In every legal log, after an accepted offer of a draft of `W` words, while neither the processor
/// nor the whole system is reset: the first `2W + 2` ticks are the writes of its frame part, in
/// their order, and the last of these is the flip, so the draft is published. Where the life has
/// flipped before, they are `2W + 1`.
pub fn published_in_time()
    ensures { PublishedInTime }
{}

/// In every legal log, after a flip, while neither the processor nor the whole system is reset: the
/// first tick at which no run is open reads that the generator is halted, and the next tick sends
/// the strobe.
pub fn sent_in_time()
    ensures { SentInTime }
{}

/// In every legal log an open run that shows a frame with a bound of `n` words has had fewer than
/// `2n` fetches since it began. So with `2n` it is over, whatever else comes, unless a strobe began
/// another.
pub fn halts_in_time()
    ensures { HaltsInTime }
{}

/// In every legal log, after a strobe began a run, while there is no other strobe and no reset of
/// the generator or of the whole system: once no run is open, there was exactly one `done`. It is
/// the run's fetch number `2n`, and drew the picture, of `n` words, of the frame that was newest
/// published when the run fetched word zero.
#[tactic(auto, using(crate::proofs::FinishedOnce::drawn_in_time))]
pub fn drawn_in_time()
    ensures { DrawnInTime }
{}

/// These together. Let a draft of `W` words and with a bound of `n` be accepted, and no other one
/// up to the end. Let `2W + 2` ticks come, with no reset of the processor or of the whole system.
/// Then, with no such reset and no strobe, let a run that is open by then come to `2m` fetches,
/// where `m` is the bound of what it shows; and then 2 ticks. Then let a strobe come, and, with no
/// other strobe and no reset of the generator or of the whole system, `2n` fetches. Exactly one of
/// these is `done`, and it drew the draft's picture. More of each may come, and anything else in
/// between.
pub fn shown_in_time()
    ensures { ShownInTime }
{}

/// No schedule, however hostile, leaves the two ends where a frame can't be drawn any more. From
/// every legal log, and for every draft of `W` words and with a bound of `n` that is accepted over
/// the ROM, there is a list of at most `2(W + m + n) + 1033` events, none of them a reset, after
/// which the last entry is `done` with the draft's picture. Here `m` is the bound of the frame that
/// is newest published, and 0 where none is.
pub fn never_stuck()
    ensures { NeverStuck }
{}
