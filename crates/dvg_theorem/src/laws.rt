//! Laws of the definitions alone. Each is the contract of a function that does nothing.
ghost use Rattle.dvg_theorem.specs.Fetches.{DrewInRange, IsInMemory, IsPaired, KeepsNext};
ghost use Rattle.dvg_theorem.specs.Fetches.{ReadsOneFrame, WithinBound};
ghost use Rattle.dvg_log.specs.Headline.{DrawsAHalf, DrewHeld, DrewPublished, IsNoOlder};
ghost use Rattle.dvg_log.specs.Headline.{KeepsHeadline, KeepsTime, NoFault, SparesDrawn};
ghost use Rattle.dvg_theorem.specs.Law.{AnyMemory, EndsInTime, OnlyFirst, Undisturbed};
ghost use Rattle.dvg_log.specs.Legal.{Always, SameLog};

/// The law of undisturbed runs. Let a memory that doesn't change have a checked frame in a half,
/// the jump to that half in word zero, and the words of the ROM that the frame was checked over.
/// Then no lawful run over it breaks, from any beam; and there is one of `n` fetches that ends in
/// HALT with some strokes exactly when these are the picture of the frame's draft, in `n` fetches.
/// `ram` says it of a RAM beside the ROM, `memory` of any memory.
pub fn undisturbed()
    ensures memory { AnyMemory }
    ensures ram { Undisturbed }
{}

/// No run over a memory as in `undisturbed` comes to word zero again, once it has fetched it.
#[tactic(auto, using(crate::proofs::Law::only_once))]
pub fn word_zero_only_first()
    ensures { OnlyFirst }
{}

/// Where the draft of the frame has a picture of `n` words, a run over a memory as in `undisturbed`
/// has at most `n`, and one of `n` ended in HALT with the picture's strokes.
pub fn ends_in_time()
    ensures { EndsInTime }
{}

/// A list of events has at most one legal log. That it has one is not said here.
#[tactic(auto, using(crate::proofs::OneLog::same_log))]
pub fn one_log()
    ensures { SameLog }
{}

/// In every legal log no byte is written in the half being drawn. What a reset of the whole system
/// puts into the RAM isn't a write; it ends the run.
#[tactic(auto, using(crate::proofs::Headline::never_torn))]
pub fn never_torn()
    ensures { Always (λ R image. SparesDrawn) }
{}

/// In every legal log the generator never faults: no run meets a hole, makes a fifth call or
/// returns without one. `always_bounded` says how long a run can be.
#[tactic(auto, using(crate::proofs::Headline::never_faults))]
pub fn never_faults()
    ensures { Always (λ R image. NoFault) }
{}

/// In every legal log each run that reaches HALT drew exactly the picture of the frame that was
/// newest published when it fetched word zero, and fetched as many words as the picture has. That a
/// run reaches HALT, or that a published frame is drawn at all, is not said.
#[tactic(auto, using(crate::proofs::Headline::draws_published))]
pub fn draws_published()
    ensures { Always (λ R image. DrewPublished R) }
{}

/// In every legal log no picture is older than one before it: the publications that the runs which
/// reach HALT show are in the order of their flips. One may be shown several times, and one may be
/// passed over.
#[tactic(auto, using(crate::proofs::Headline::never_older))]
pub fn never_older()
    ensures { Always (λ R image. IsNoOlder) }
{}

/// In every legal log, for each picture of what a run shows, of `n` words: the run fetches at most
/// `2n` bytes, and its fetch number `2n` is the one that finishes it, with the picture's strokes.
/// That there is a picture, `always_bounded` says. That this many fetches come is not said.
#[tactic(auto, using(crate::proofs::Headline::always_in_time))]
pub fn always_in_time()
    ensures { Always (λ R image. KeepsTime R) }
{}

/// In every legal log what a run shows has a bound, the number that `Frame::bound` gives, and the
/// run fetches at most two bytes for each of its words. That the fetches come is not said.
#[tactic(auto, using(crate::proofs::Headline::always_bounded))]
pub fn always_bounded()
    ensures { Always (λ R image. WithinBound R) }
{}

/// In every legal log a run that reaches HALT, during which nothing was written and the RAM held a
/// checked frame with the jump to it, drew that frame's picture.
#[tactic(auto, using(crate::proofs::Untouched::draws_held))]
pub fn draws_held()
    ensures { Always DrewHeld }
{}

/// After every legal log an open run that has fetched word zero is drawing a half, so `never_torn`
/// speaks of each such run. It shows a draft that was accepted and published, and the half holds
/// that draft's frame.
#[tactic(auto, using(crate::proofs::Headline::draws_a_half))]
pub fn draws_a_half()
    ensures { DrawsAHalf }
{}

/// Each line of every legal log keeps the headline: what the laws from `never_torn` to
/// `draws_a_half` say, in one record. It is the clause `headline` of `run`, of `run_trace` and of
/// the calls of a `World`, in `dvg_world`.
#[tactic(auto, using(crate::proofs::Headline::headline))]
pub fn headline()
    ensures { Always KeepsHeadline }
{}

/// In every legal log each word that a run fetches after word zero is one of the layout of the
/// frame which it shows, in its place in the half being drawn, or a word of the ROM: so what is
/// drawn is never torn, said without beams, steps or pictures.
#[tactic(auto, using(crate::proofs::OneFrame::reads_one_frame))]
pub fn reads_one_frame()
    ensures { Always (λ R image. ReadsOneFrame R) }
{}

/// In every legal log the strokes of each run that reaches HALT are in range: positions below
/// 2,097,152, and intensities of 1 to 15.
#[tactic(auto, using(crate::proofs::OneFrame::draws_in_range))]
pub fn draws_in_range()
    ensures { Always (λ R image. DrewInRange) }
{}

/// In every legal log each word that a run fetched, a byte at a time, is the word that memory has
/// when its high byte is fetched (`whole`). It comes right after its low byte, which was fetched at
/// the same address (`paired`).
pub fn words_are_whole()
    ensures whole { Always IsInMemory }
    ensures paired { Always (λ R image. IsPaired) }
{}

/// In every legal log no action of the driver changes what the open run fetches next, but for the
/// high byte of word zero, which is the flip. So the order in which the two bytes of a word are
/// fetched matters for word zero alone.
#[tactic(auto, using(crate::proofs::Words::next_stays))]
pub fn next_word_stays()
    ensures { Always KeepsNext }
{}
