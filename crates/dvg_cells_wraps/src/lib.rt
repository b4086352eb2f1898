//! The generator of `core/dvg_core.v` with the macro DVG_WRAPS, proved from the cells that yosys
//! reads in it: its stack of return addresses wraps, as that of `WrappingGenerator` does. There is
//! no code here. Each law is the contract of a function that does nothing.
//!
//! `specs/Wraps.antt` is made by `core/cells dvg_wraps`.
#![tactic(auto)]

ghost use Rattle.dvg_cells_wraps.specs.Example.{WrapsSome};
ghost use Rattle.dvg_cells_wraps.specs.Refines.{WrapsRefines, WrapsTells};

/// Whatever the pins `reset`, `start`, `valid`, `hole` and `din` were in each clock since power-up:
/// the pins are those of the run that the definition of a generator whose stack wraps leaves, as
/// `WrappingGenerator::feed` has it: `halted`, `at`, `high`, the beam, each stroke, `done` and
/// `fault`; and the four registers are its return addresses.
#[tactic(auto, using(crate::proofs::WrapsSincePowerUp::wraps_refines_law))]
pub fn wraps_refine()
    ensures { WrapsRefines }
{}

/// The pins `ends` to `vec_z`, which tell of the clock itself, are what they are of a core whose
/// stack doesn't wrap.
#[tactic(auto, using(crate::proofs::WrapsSincePowerUp::wraps_tells_law))]
pub fn wraps_tell()
    ensures { WrapsTells }
{}

/// An example: a fifth call overwrites the oldest address, and a return goes to the newest one.
#[tactic(auto, using(crate::proofs::Example::wraps_some_law))]
pub fn wraps_some()
    ensures { WrapsSome }
{}
