//! The motion and the pace of the hardware, proved from the cells that yosys reads in
//! `core/dvg_motion.v`, `core/dvg_pace.v` and `core/dvg_vectors.v`, which has both beside a board.
//! Counters of whole units go as pulses of rate multipliers lead them, tick by tick, and a vector
//! ends where `Counters::follow` of the generator has it. There is no code here. Each law is the
//! contract of a function that does nothing.
//!
//! `specs/Motion.antt`, `Pace.antt` and `Vectors.antt` are made by `core/cells`. What pulses and
//! ticks are, is the arcade emulator's, and no schematic's.
#![tactic(auto)]

ghost use Rattle.dvg_cells_motion.specs.Example.{SomeMotion, SomePicture};
ghost use Rattle.dvg_cells_motion.specs.Machine.{HaltedTells, MachineFollows, StartTakes};
ghost use Rattle.dvg_cells_motion.specs.Machine.{OldVectorEnds, TakesTime};
ghost use Rattle.dvg_cells_motion.specs.Pulses.{DacsShow, FollowsSvec, FollowsVctr, GoesByPulses};
ghost use Rattle.dvg_cells_motion.specs.Pulses.{MovesRight, Places, PulsesAre, Shows, StaysDark};
ghost use Rattle.dvg_cells_motion.specs.Shown.{ShowsParts};
ghost use Rattle.dvg_cells_motion.specs.Times.{ResetDraws, TakesPicture};

/// In the 2^(s+1) ticks of a vector at scale s, 0 to 9, a rate multiplier gives as many pulses as
/// the vector is long, in whole units: a magnitude of m moves by (m * 2^s + 256) / 512.
#[tactic(auto, using(crate::proofs::Ticks::pulses_are))]
pub fn pulses_are()
    ensures { PulsesAre }
{}

/// In each clock of a vector, whatever the other pins were since: the counters are where the pulses
/// so far led them, and `going` is high until the vector's last tick is over.
#[tactic(auto, using(crate::proofs::Moves::goes_by_pulses_law))]
pub fn goes_by_pulses()
    ensures { GoesByPulses }
{}

/// Meanwhile the monitor gets ten bits of each counter, and the vector's intensity where bit 10 of
/// both is 0; after the last tick it is dark.
pub fn shows()
    ensures { Shows }
{}

/// Where no vector goes it is dark: from power-up on, at a LABS, and after it. There, too, the DACs
/// have ten bits of each counter.
pub fn stays_dark()
    ensures dark { StaysDark }
    ensures dacs { DacsShow }
{}

/// After a vector the counters are those that the definition of the generator gives, and stay so.
#[tactic(auto, using(crate::proofs::Moves::moves_right_law))]
pub fn moves_right()
    ensures { MovesRight }
{}

/// So they are where the move of a VCTR or an SVEC leads, from any exact beam; a LABS sets them.
pub fn follows()
    ensures vctr { FollowsVctr }
    ensures svec { FollowsSvec }
    ensures labs { Places }
{}

/// The whole machine, after each list of clocks since power-up, whatever the processor did in them:
/// at rest the counters are those that followed all moves of the run, dark ones too. Where `hold`
/// is low all is at rest, so no byte is fetched while a vector goes.
#[tactic(auto, using(crate::proofs::Wiring::machine_follows_law))]
pub fn machine_follows()
    ensures { MachineFollows }
{}

/// Where the pin `halted` is high no run is open, and the counters are those that followed all
/// moves of the newest one: its last stroke is drawn.
pub fn halted_tells()
    ensures { HaltedTells }
{}

/// Once a byte is taken, `hold` is high for the ticks of the instruction that it ends, if any: one
/// tick, or two for a JSRL, in which the beam is dark, and then those of a vector, however short it
/// is. In the tick after these a byte may be fetched again.
pub fn takes_time()
    ensures { TakesTime }
{}

/// A start has one tick of its own; also amid a vector, whose ticks are still to come then.
#[tactic(auto, using(crate::proofs::Resets::start_takes_law))]
pub fn start_takes()
    ensures { StartTakes }
{}

/// A vector that goes when a run starts, as after a reset, is lit in that run for as many ticks as
/// it had left, 1,024 at most. No byte of the run is taken before (`start_takes`).
pub fn old_vector_ends()
    ensures { OldVectorEnds }
{}

/// A picture's time: from a start where `halted` is high to the next clock in which it is, as many
/// ticks come as `run_ticks` adds up over the instructions of the run, if it came to a HALT; and
/// beside them those that came while a byte might be fetched and wasn't taken. Where memory answers
/// at once there are none of these.
pub fn takes_picture()
    ensures { TakesPicture }
{}

/// After a reset, also amid a vector, the board's flag is high at once, and the pin `halted` as
/// soon as the ticks came that the vector and its instruction had left: it is drawn to its end.
#[tactic(auto, using(crate::proofs::Resets::reset_draws_law))]
pub fn reset_draws()
    ensures { ResetDraws }
{}

/// The pins of the whole are those of its parts; until an instruction's own ticks are over it is
/// dark.
pub fn vectors_show()
    ensures { ShowsParts }
{}

/// An example: a machine that draws a vector, after which x has moved by one unit.
#[tactic(auto, using(crate::proofs::Example::some_motion_law))]
pub fn some_motion()
    ensures { SomeMotion }
{}

/// An example: a picture of a HALT alone, which takes four ticks where memory answers at once. So
/// the premises of `takes_picture` can be met.
#[tactic(auto, using(crate::proofs::Example::some_picture_law))]
pub fn some_picture()
    ensures { SomePicture }
{}
