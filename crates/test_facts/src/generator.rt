//! What follows from the contracts of `Generator`.
ghost use Rattle.std.specs.Prelude.{◌≡◌, ℕ, [], List, Option, Some, None, IfOk, IfSome, IsTrue};
ghost use Rattle.dvg_gen.specs.Machine.{HasTaken};
ghost use Rattle.dvg_gen.specs.Told.{Told};
ghost use Rattle.test_facts.specs.Facts.{two_units};

use dvg_code::OutOfMemory;
use dvg_gen::{GenFault, Generator, Move, Step, Stroke, Taken};
use std::alloc::Global;

/// A return at word zero breaks the run, as no call is open. Returns `None` where the generator
/// asks for memory, which it doesn't.
pub fn return_without_a_call(alloc: Global) -> Option<Taken<Global>>
    ensures { IfSome result (λ taken. taken ≡ Taken.Broke GenFault.StackUnder) }
{
    let mut generator = Generator::new(alloc);
    generator.start();
    let Ok(Taken::Low) = generator.take_byte(Some(0x00)) else {
        return None;
    };
    match generator.take_byte(Some(0xD0)) {
        Ok(taken) => Some(taken),
        Err(_) => None,
    }
}

/// The first byte of a run is the low one of its word, and leaves the picture alone.
pub fn low_byte_keeps_the_picture(generator: &mut Generator<Global>) -> Result<Step, OutOfMemory>
    ensures step { (history : List Told) (low : Option ℕ) → HasTaken generator.old history low
        → IfOk result (λ step. step ≡ Step.Low) }
    ensures picture { (history : List Told) (low : Option ℕ) → HasTaken generator.old history low
        → generator.new.picture ≡ generator.old.picture }
{
    generator.start();
    generator.feed(Some(0x00))
}

/// A HALT at word zero makes an empty picture, in place of the one before. Returns `None` where the
/// generator asks for memory, which it doesn't.
pub fn halt_makes_an_empty_picture(generator: &mut Generator<Global>) -> Option<Step>
    ensures { (history : List Told) (low : Option ℕ) → HasTaken generator.old history low
        → IfSome result (λ step. (step ≡ Step.Done) × (generator.new.picture ≡ [])) }
{
    generator.start();
    let Ok(Step::Low) = generator.feed(Some(0x00)) else {
        return None;
    };
    match generator.feed(Some(0xB0)) {
        Ok(step) => Some(step),
        Err(_) => None,
    }
}

/// A low byte moves no beam.
pub fn low_byte_moves_nothing(alloc: Global) -> Option<Move>
    ensures { result ≡ None }
{
    let mut generator = Generator::new(alloc);
    generator.start();
    generator.move_by(Some(0x71))
}

/// The high byte of F071 at word zero, SVEC 2 1 0 7, moves the beam by two units along x. Returns
/// `None` where the generator asks for memory, which it doesn't.
pub fn short_vector_moves(alloc: Global) -> Option<Option<Move>>
    ensures { IfSome result (λ made. made ≡ Some two_units) }
{
    let mut generator = Generator::new(alloc);
    generator.start();
    let Ok(Taken::Low) = generator.take_byte(Some(0x71)) else {
        return None;
    };
    Some(generator.move_by(Some(0xF0)))
}

/// A generator into which what another one has was put, strokes and picture apart, has it, and each
/// one that stands after some history can be put into another.
pub fn goes_on_as_saved(
    alloc: Global,
    saved: &Generator<Global>,
    other: &mut Generator<Global>,
) -> bool
    ensures same { IsTrue result
        → other.new ≡ record saved.now { strokes = []; picture = other.old.picture } }
    ensures done { (history : List Told) (low : Option ℕ) → HasTaken saved.now history low
        → IsTrue result }
{
    let state = saved.state();
    other.resume(&state, Vec::new(alloc)).is_ok()
}
