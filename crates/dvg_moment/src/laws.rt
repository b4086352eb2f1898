//! Laws of the definitions alone. Each is the contract of a function that does nothing.
ghost use Rattle.dvg_log.specs.Legal.{Always};
ghost use Rattle.dvg_moment.specs.Moment.{IsOfOneMoment, stands, told};
ghost use Rattle.dvg_moment.specs.Played.{DrawsTheMoment, DrewAMoment, ErrsUntold, FetchesMemory};
ghost use Rattle.dvg_moment.specs.Played.{NeverContradicts, SomeRunIsTorn, StoodThen};

/// In every legal log each run that reaches HALT is consistent: there is a moment of the run
/// such that no byte which the run reads changes between that moment and its reading. `world` says
/// it where memory is known, `told` where only what the log tells of memory counts.
pub fn of_one_moment()
    ensures world { Always (λ R image. IsOfOneMoment (stands image)) }
    ensures told { Always (λ R image. IsOfOneMoment told) }
{}

/// In every legal log each run that reaches HALT has such a moment at which each word that it
/// fetched stands in memory as it was read, a byte at a time.
#[tactic(auto, using(crate::proofs::FetchedWordStays::stood_then))]
pub fn stood_then()
    ensures { Always StoodThen }
{}

/// In every legal log each run that reaches HALT has such a moment, and drew what a run over that
/// moment's memory draws, from any beam.
#[tactic(auto, using(crate::proofs::DrewAMoment::drew_a_moment))]
pub fn drew_a_moment()
    ensures { Always DrewAMoment }
{}

/// Whoever drives: a consistent run that reaches HALT drew what a run over that moment's memory
/// draws. Only what the generator does has to be right: it fetches what is in memory then.
#[tactic(auto, using(crate::proofs::DrawsTheMoment::draws_the_moment))]
pub fn draws_the_moment()
    ensures { DrawsTheMoment stands }
{}

/// Whoever drives, and whatever was in memory at first: where a run that reaches HALT is of one
/// moment by what its log alone tells, it drew what a run over that moment's memory draws.
#[tactic(auto, using(crate::proofs::Truth::told_is_enough))]
pub fn told_is_enough()
    ensures { DrawsTheMoment (λ image. told) }
{}

/// Each legal log is one in which the generator fetches what is in memory then, so the laws above
/// that hold whoever drives are of legal logs, too.
#[tactic(auto, using(crate::proofs::Small::legal_is_played))]
pub fn legal_is_played()
    ensures { Always FetchesMemory }
{}

/// Whoever drives, no line contradicts what the log before it told. So if a line does, a writer is
/// missing from the log, or the generator fetched what wasn't in memory.
#[tactic(auto, using(crate::proofs::Truth::never_contradicts))]
pub fn never_contradicts()
    ensures { NeverContradicts }
{}

/// Whoever drives: a write that changes a byte by what the log told, and changes nothing in memory,
/// is of a byte that the log told nothing of. By no other write a run is called torn that isn't.
#[tactic(auto, using(crate::proofs::Truth::errs_untold))]
pub fn errs_untold()
    ensures { ErrsUntold }
{}

/// Over each ROM there is a log in which the generator fetches what is in memory then, and a run
/// comes to its HALT that is mixed: where memory is known, and by what the log alone tells. So the
/// premise of `draws_the_moment` and of `told_is_enough` asks for something.
pub fn some_run_is_torn()
    ensures { SomeRunIsTorn }
{}
