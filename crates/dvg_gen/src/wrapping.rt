//! A generator whose stack wraps.
ghost use Rattle.std.specs.Prelude.{◌≡◌, ◌↔◌, ◌+◌, ◌<◌, ◌≤◌, ℕ, List, [], ◌∷◌, Option, None, Some};
ghost use Rattle.std.specs.Prelude.{IfErr, IsOk, IfOk, OnErr, OnOk, true, false, length, reverse};
ghost use Rattle.dvg_gen.specs.Bytes.{met};
ghost use Rattle.dvg_gen.specs.Completing.{DrawsNothing};
ghost use Rattle.dvg_gen.specs.Machine.{answer_by, picture_after};
ghost use Rattle.dvg_gen.specs.Run.{on};
ghost use Rattle.dvg_gen.specs.Saved.{CanResume, IsWrappedState, wrapped_of};
ghost use Rattle.dvg_gen.specs.Told.{Told, Start, Reset};
ghost use Rattle.dvg_gen.specs.Wrapping.{AnswersWrapped, HasWrapped, Wrapped, jump_of, turn_of};
ghost use Rattle.dvg_gen.specs.Wrapping.{turned};

use crate::STACK_DEPTH;
use crate::generator::{Generator, copied};
use crate::state::{GeneratorRefused, GeneratorState, GeneratorStateFault};
use crate::stroke::Stroke;
use crate::taken::Step;
use arrayvec::ArrayVec;
use dvg_code::OutOfMemory;
use std::alloc::{Allocator, Global};
use std::marker::Model;

/// A generator whose stack wraps, for whoever compares with hardware or an emulator that goes on: a
/// fifth call overwrites the oldest return address, and a return without a call goes to whatever a
/// register holds. All else is as with `Generator`, whose rules the rest of this project has.
///
/// The stack is four registers in a circle, round which a counter of two bits goes. A call writes
/// the address of the next word into the oldest one, and a return goes to the newest one, which is
/// the oldest then. That the stack wraps silently is how a common arcade emulator has it; that the
/// registers are 0 at first, and stay at a start and at a reset, is this project's own choice.
#[derive(Drop)]
pub struct WrappingGenerator<A: Allocator = Global> {
    // It jumps for each call and each return, so no address is on its own stack.
    generator: Generator<A>,
    // The newest first.
    registers: [u16; STACK_DEPTH],
}

/// Contracts see a `Wrapped`.
impl<A: Allocator> Model for WrappingGenerator<A> {
    ghost use Rattle.std.specs.Prelude.{◌≡◌, []};
    ghost use Rattle.dvg_gen.specs.Wrapping.{AreRegisters, Wrapped};

    ghost Value = { Wrapped };

    ghost view = { λ wrapping. record {
      machine = wrapping.generator;
      registers = wrapping.registers;
    } };

    ghost invariant = { λ wrapping. (wrapping.generator.stack ≡ [])
        × AreRegisters wrapping.registers };
}

impl<A: Allocator + Copy> WrappingGenerator<A> {
    /// Returns a new generator, which is halted and has no picture. Its strokes will be in memory
    /// of `alloc`.
    pub fn new(alloc: A) -> WrappingGenerator<A>
        ensures stands { HasWrapped result [] None }
        ensures picture { result.machine.picture ≡ [] }
    {
        WrappingGenerator {
            generator: Generator::new(alloc),
            registers: [0; STACK_DEPTH],
        }
    }

    /// Begins a run at word zero, as `Generator::start` does. The registers stay, and so does the
    /// picture.
    pub fn start(&mut self)
        ensures stands { (history : List Told) (low : Option ℕ) → HasWrapped self.old history low
            → HasWrapped self.new (Start ∷ history) None }
        ensures registers { self.new.registers ≡ self.old.registers }
        ensures machine { self.new.machine ≡ record self.old.machine
            { at = 0; held = None; low = None; stack = []; strokes = []; is_open = true } }
    {
        self.generator.start();
    }

    /// Halts the generator, as `Generator::reset` does. The registers stay, and so does the
    /// picture.
    pub fn reset(&mut self)
        ensures stands { (history : List Told) (low : Option ℕ) → HasWrapped self.old history low
            → HasWrapped self.new (Reset ∷ history) None }
        ensures registers { self.new.registers ≡ self.old.registers }
        ensures machine { self.new.machine ≡ record self.old.machine
            { low = None; strokes = []; is_open = false } }
    {
        self.generator.reset();
    }

    /// Returns the generator in it, which tells what is wanted, where the beam is, what the next
    /// byte moves, and the strokes and the picture. It jumps for each call and each return; their
    /// addresses are in `registers`.
    #[inline(always)]
    pub fn generator(&self) -> &Generator<A>
        ensures { result.now ≡ self.now.machine }
    {
        &self.generator
    }

    /// Returns the registers, the newest return address first.
    pub fn registers(&self) -> &[u16; STACK_DEPTH]
        ensures { result.now ≡ self.now.registers }
    {
        &self.registers
    }

    /// Takes the picture out, as `Generator::take_picture` does.
    #[inline(always)]
    pub fn take_picture(&mut self) -> Vec<Stroke, A>
        ensures taken { result.items ≡ self.old.machine.picture }
        ensures stands { (history : List Told) (low : Option ℕ) → HasWrapped self.old history low
            → HasWrapped self.new history low }
        ensures registers { self.new.registers ≡ self.old.registers }
        ensures machine { self.new.machine ≡ record self.old.machine { picture = [] } }
    {
        self.generator.take_picture()
    }

    /// Takes out the strokes that the open run drew so far, as `Generator::take_strokes` does.
    pub fn take_strokes(&mut self) -> Vec<Stroke, A>
        ensures taken { result.items ≡ self.old.machine.strokes }
        ensures left { self.new
            ≡ record self.old { machine = record self.old.machine { strokes = [] } } }
    {
        self.generator.take_strokes()
    }

    /// Returns all that the generator keeps but its strokes and its picture. The return addresses
    /// are the four registers, the newest last.
    pub fn state(&self) -> GeneratorState
        ensures machine { self.now
            ≡ wrapped_of result self.now.machine.strokes self.now.machine.picture }
        ensures valid { IsWrappedState result }
    {
        let mut state = self.generator.state();
        state.return_addresses = oldest_first(&self.registers);
        state
    }

    /// Brings the generator into `state`, with `strokes` as what its run drew so far. So it goes on
    /// as the one whose `state` and `strokes` these were. No claim is made about a run that goes on
    /// with other strokes. The picture stays as it was. Returns the strokes with `Fields` exactly
    /// where `state` isn't valid or hasn't four return addresses, otherwise with `Stroke` exactly
    /// where one of `strokes` isn't valid; then nothing has changed.
    pub fn resume(
        &mut self,
        state: &GeneratorState,
        strokes: Vec<Stroke, A>,
    ) -> Result<(), GeneratorRefused<A>>
        ensures taken { IsOk result ↔ CanResume (IsWrappedState state.now) strokes.items }
        ensures machine { OnOk result
            (self.new ≡ wrapped_of state.now strokes.items self.old.machine.picture) }
        ensures stands { OnOk result ((saved : Wrapped) (picture : List Stroke)
            (history : List Told) (low : Option ℕ)
            → saved ≡ wrapped_of state.now strokes.items picture → HasWrapped saved history low
            → HasWrapped self.new history low) }
        ensures stroke { IfErr result (λ refused.
            (refused.fault ≡ GeneratorStateFault.Stroke) ↔ IsWrappedState state.now) }
        ensures given_back { IfErr result (λ refused. refused.strokes ≡ strokes) }
        ensures refused { OnErr result (self.new ≡ self.old) }
    {
        if !state.return_addresses.is_full() {
            return Err(GeneratorRefused {
                fault: GeneratorStateFault::Fields,
                strokes,
            });
        }
        if let Some(fault) = state.fault_with(strokes.as_slice()) {
            return Err(GeneratorRefused { fault, strokes });
        }
        self.registers = newest_first(&state.return_addresses);
        self.generator.go_on(&without_addresses(state), strokes);
        Ok(())
    }

    /// Takes `byte`, as `Generator::feed` does, and returns what it led to. A run must be open. No
    /// call and no return breaks it.
    #[inline(always)]
    pub fn feed(&mut self, byte: Option<u8>) -> Result<Step, OutOfMemory>
        requires { self.old.machine.is_open ≡ true }
        ensures answers { IfOk result (λ step. (history : List Told) (low : Option ℕ)
            → HasWrapped self.old history low
            → AnswersWrapped history (met low byte) self.new
            (answer_by step self.new.machine.picture)) }
        ensures picture { IfOk result (λ step. self.new.machine.picture
            ≡ picture_after step self.old.machine) }
        ensures room { DrawsNothing self.old.machine.held (met self.old.machine.low byte)
            → IsOk result }
        ensures refused { OnErr result (self.new ≡ self.old) }
    {
        match self.turn_by(byte) {
            Some(word) => Ok(self.turn(word)),
            None => self.generator.feed(byte),
        }
    }

    // Returns the call or the return that `byte` completes.
    #[inline(always)]
    fn turn_by(&self, byte: Option<u8>) -> Option<u16>
        ensures { result ≡ turn_of self.now.machine.held (met self.now.machine.low byte) }
    {
        let high = byte?;
        let low = self.generator.low_byte()?;
        let word = u16::from_le_bytes([low, high]);
        let is_turn = 0xC000 <= word && word < 0xE000 && self.generator.first_word().is_none();
        is_turn.then_some(word)
    }

    // Executes `word`, a JSRL or an RTSL: jumps, and rotates the registers. Returns `Word`.
    fn turn(&mut self, word: u16) -> Step
        requires in_range { (0xC000 ≤ word) × (word < 0xE000) }
        ensures registers { self.new.registers
            ≡ turned self.old.registers (on self.old.machine.at 1) word }
        ensures jumps { 0xE000 + self.new.machine.at ≡ jump_of self.old.registers word }
        ensures in_range { self.new.machine.at < 4096 }
        ensures moved { self.new.machine ≡ record self.old.machine
            { at = self.new.machine.at; held = None; low = None } }
        ensures goes_on { result ≡ Step.Word }
    {
        if word < 0xD000 {
            self.registers.rotate_right(1);
            self.registers[0] = self.generator.next_address();
            self.generator.jump(word % 4096)
        } else {
            let back = self.registers[0];
            self.registers.rotate_left(1);
            self.generator.jump(back)
        }
    }
}

// Returns the addresses of `registers`, the oldest first.
fn oldest_first(registers: &[u16; STACK_DEPTH]) -> ArrayVec<u16, STACK_DEPTH>
    ensures { result.items ≡ reverse registers.now }
{
    let mut addresses = *registers;
    addresses.reverse();
    copied(&addresses)
}

// Returns the registers with these `addresses`, of which there are four, the oldest first.
fn newest_first(addresses: &ArrayVec<u16, STACK_DEPTH>) -> [u16; STACK_DEPTH]
    requires { length addresses.now.items ≡ 4 }
    ensures { result ≡ reverse addresses.now.items }
{
    let mut registers = [0; STACK_DEPTH];
    registers.copy_from_slice(addresses.as_slice());
    registers.reverse();
    registers
}

// Returns `state` without its return addresses.
fn without_addresses(state: &GeneratorState) -> GeneratorState
    ensures rest { result ≡ record state.now { return_addresses = result.return_addresses } }
    ensures none { result.return_addresses.items ≡ [] }
{
    GeneratorState {
        is_open: state.is_open,
        at: state.at,
        held: state.held,
        low: state.low,
        return_addresses: ArrayVec::new(),
        x: state.x,
        y: state.y,
        scale: state.scale,
    }
}
