//! The generator of `core/dvg_core.v`, proved from the cells that yosys reads in it: its pins are
//! those of the definition, in each clock since power-up. There is no code here. Each law is the
//! contract of a function that does nothing.
//!
//! `specs/Core.antt` is made by `core/cells dvg_core`, and `specs/Cells.antt` says what each kind
//! of cell computes.
#![tactic(auto)]

ghost use Rattle.dvg_cells_core.specs.Example.{DrawsSome};
ghost use Rattle.dvg_cells_core.specs.Refines.{CoreRefines, HasClocks};
ghost use Rattle.dvg_cells_core.specs.Tells.{PinsRest, PinsTell};

/// Whatever the pins `reset`, `start`, `valid`, `hole` and `din` were in each clock since power-up:
/// `halted` is whether no run is open, `at` and `high` name the byte that the open run wants next,
/// `x` and `y` are its beam, the strokes shown since the newest start are its strokes, and after
/// each fetched word or hole `done` and `fault` are the answer that the definition of the generator
/// gives. Where that is a fault, `done` and `stroke` are 0; after all else all three are.
#[tactic(auto, using(crate::proofs::CoreSincePowerUp::refines))]
pub fn core_refines()
    ensures { CoreRefines }
{}

/// The converse: each history of starts, resets, words and holes that leaves a run, by the
/// definition of the generator, has clocks since power-up that make it. So the core can do all that
/// the definition can.
pub fn has_clocks()
    ensures { HasClocks }
{}

/// In each clock since power-up, but those of a reset and a start, the run gains the moves that the
/// pins `labs` and `vec` tell of, none or one, and `sum` to `vec_z` are those of the move; `ends`
/// and `jsrl` tell what ends. In the clock of a reset or a start all four are 0.
pub fn pins_tell()
    ensures event { PinsTell }
    ensures rest { PinsRest }
{}

/// An example: over the clocks of one frame the core shows the frame's stroke, and `done`.
#[tactic(auto, using(crate::proofs::Example::draws_some))]
pub fn draws_some()
    ensures { DrawsSome }
{}
