//! The generator.
ghost use Rattle.std.specs.Prelude.{◌≡◌, ◌↔◌, ◌+◌, ◌%◌, ◌<◌, ◌≤◌, true, false, ℕ, List, Option, []};
ghost use Rattle.std.specs.Prelude.{◌∷◌, ◌++◌, All, IsTrue, IsNone, IsSome, IsOk, IfSome, IfOk};
ghost use Rattle.std.specs.Prelude.{IfErr, OnErr, OnOk, Some, None, length, option_to_list};
ghost use Rattle.std.specs.Prelude.{reverse};
ghost use Rattle.dvg_code.specs.Acts.{Moves, act_of};
ghost use Rattle.dvg_code.specs.Ranges.{InRange};
ghost use Rattle.dvg_code.specs.Spelling.{IsFirst};
ghost use Rattle.dvg_code.specs.declared.instr.Instr.{Instr};
ghost use Rattle.dvg_gen.specs.Bytes.{Whole, met, word_of};
ghost use Rattle.dvg_gen.specs.Completing.{Completes, DrawsNothing, IsSeen};
ghost use Rattle.dvg_gen.specs.Drawing.{drawn};
ghost use Rattle.dvg_gen.specs.Machine.{Answers, HasTaken, IsOnward, Machine};
ghost use Rattle.dvg_gen.specs.Machine.{answer_by, answer_of, left_by, picture_after};
ghost use Rattle.dvg_gen.specs.Moving.{AddsMoves, CompletesMove, IsMove, begins_at};
ghost use Rattle.dvg_gen.specs.Obeyed.{IsLabs, Obeyed};
ghost use Rattle.dvg_gen.specs.Position.{IsStroke};
ghost use Rattle.dvg_gen.specs.Run as spec;
ghost use Rattle.dvg_gen.specs.Saved.{CanResume, IsReturns, IsState, machine_of};
ghost use Rattle.dvg_gen.specs.Told.{Drew, Told, Start, Reset, wants};
ghost use Rattle.dvg_gen.specs.Wrapping.{is_turn, turn_of};
ghost use Rattle.dvg_gen.specs.declared.TheConstants.{STACK_DEPTH};
ghost use Rattle.dvg_gen.specs.declared.stroke.Stroke.{Stroke};

use crate::STACK_DEPTH;
use crate::beam::Beam;
use crate::moving::Move;
use crate::state::{GeneratorRefused, GeneratorState, GeneratorStateFault};
use crate::stroke::Stroke;
use crate::taken::{GenFault, Step, Taken};
use arrayvec::ArrayVec;
use dvg_code::{Code, Instr, OutOfMemory, decode};
use std::alloc::{Allocator, Global};
use std::marker::Model;
use std::mem;

/// The vector generator, which is handed one byte a call: the low byte of a word, and then its high
/// byte (this project's own choice).
///
/// A new one is halted, with the beam at 0, 0 and the global scale 0. Beam and scale are kept from
/// run to run (this project's own choice).
#[derive(Drop)]
pub struct Generator<A: Allocator = Global> {
    alloc: A,
    is_open: bool,
    // Neither this nor the address lies at a multiple of four bytes. There the processor would have
    // to wait for them, as each fetch reads what the one before has written. So this isn't part of
    // an `Option`.
    has_low: bool,
    // The address of the next word.
    at: u16,
    held: Option<u16>,
    // The low byte of the next word, where `has_low`.
    low: u8,
    stack: ArrayVec<u16, STACK_DEPTH>,
    beam: Beam,
    strokes: Vec<Stroke, A>,
    // The strokes of the newest run that came to a HALT, until they are taken. At a HALT the two
    // lists change places, so the memory of each is used again.
    picture: Vec<Stroke, A>,
}

/// Contracts see a `Machine`.
impl<A: Allocator> Model for Generator<A> {
    ghost use Rattle.std.specs.Prelude.{All, Some, None, if◌then◌else◌, reverse};
    ghost use Rattle.dvg_gen.specs.Machine.{IsKept, Machine, WaitsInRun};
    ghost use Rattle.dvg_gen.specs.Position.{IsStroke};

    ghost Value = { Machine };

    ghost view = { λ generator. record {
      at = generator.at;
      held = generator.held;
      low = if generator.has_low then Some generator.low else None;
      stack = reverse generator.stack.items;
      beam = generator.beam;
      strokes = generator.strokes.items;
      picture = generator.picture.items;
      is_open = generator.is_open;
    } };

    ghost invariant = { λ generator. IsKept generator.at generator.held generator.stack.items
        × WaitsInRun generator.has_low generator.is_open × All IsStroke generator.strokes.items };
}

impl<A: Allocator + Copy> Generator<A> {
    /// Returns a new generator, which is halted and has no picture. Its strokes will be in memory
    /// of `alloc`.
    #[tactic(auto, using(crate::proofs::GeneratorAfterHistory::stands_new))]
    pub fn new(alloc: A) -> Generator<A>
        ensures stands { HasTaken result [] None }
        ensures halted { result.is_open ≡ false }
        ensures stack { result.stack ≡ [] }
        ensures picture { result.picture ≡ [] }
    {
        Generator {
            alloc,
            at: 0,
            held: None,
            has_low: false,
            low: 0,
            stack: ArrayVec::new(),
            beam: Beam::place(0, 0, 0),
            strokes: Vec::new(alloc),
            picture: Vec::new(alloc),
            is_open: false,
        }
    }

    /// Begins a run at word zero, with no return address and no stroke. A run that was open is
    /// abandoned with its strokes and its low byte (this project's own choice). The picture of the
    /// newest run that came to a HALT stays until it is taken.
    pub fn start(&mut self)
        ensures stands { (history : List Told) (low : Option ℕ) → HasTaken self.old history low
            → HasTaken self.new (Start ∷ history) None }
        ensures machine { self.new ≡ record self.old
            { at = 0; held = None; low = None; stack = []; strokes = []; is_open = true } }
    {
        self.reset();
        self.at = 0;
        self.held = None;
        self.stack.clear();
        self.is_open = true;
    }

    /// Halts the generator. A run that was open is abandoned with its strokes and its low byte; the
    /// beam stays, and so does the picture of the newest run that came to a HALT.
    #[tactic(auto, using(crate::proofs::GeneratorAfterHistory::stands_reset))]
    pub fn reset(&mut self)
        ensures stands { (history : List Told) (low : Option ℕ) → HasTaken self.old history low
            → HasTaken self.new (Reset ∷ history) None }
        ensures machine { self.new ≡ record self.old { low = None; strokes = []; is_open = false } }
    {
        self.strokes.clear();
        self.has_low = false; // The high byte never comes.
        self.is_open = false;
    }

    /// Returns whether no run is open.
    pub fn halted(&self) -> bool
        ensures value { IsTrue result ↔ (self.now.is_open ≡ false) }
        ensures run { (history : List Told) (low : Option ℕ) (after : HasTaken self.now history low)
            → IsTrue result ↔ (after.run.is_open ≡ false) }
    {
        !self.is_open
    }

    /// Returns the address of the next word, below 4,096, or `None` where the generator is halted.
    pub fn wants(&self) -> Option<u16>
        ensures halted { IsNone result ↔ (self.now.is_open ≡ false) }
        ensures address { (history : List Told) (low : Option ℕ)
            (after : HasTaken self.now history low)
            → result ≡ wants after.run }
        ensures in_range { IfSome result (λ address. address < 4096) }
    {
        (!self.halted()).then_some(self.at)
    }

    /// Returns whether the next byte is the high one of its word: the last fetch of the open run
    /// was of the low byte.
    pub fn wants_high(&self) -> bool
        ensures run { (history : List Told) (low : Option ℕ) → HasTaken self.now history low
            → IsTrue result ↔ IsSome low }
        ensures open { (history : List Told) (low : Option ℕ)
            (after : HasTaken self.now history low)
            → IsTrue result → after.run.is_open ≡ true }
    {
        self.low_byte().is_some()
    }

    /// Returns the low byte of the next word, if it was fetched and the high byte comes next.
    #[inline(always)]
    pub fn low_byte(&self) -> Option<u8>
        ensures { result ≡ self.now.low }
    {
        self.has_low.then_some(self.low)
    }

    /// Returns the first word of an instruction whose second word comes next, in an open run. Once
    /// the run is over it means nothing.
    pub fn first_word(&self) -> Option<u16>
        ensures value { result ≡ self.now.held }
        ensures run { (history : List Told) (low : Option ℕ)
            (after : HasTaken self.now history low) → after.run.is_open ≡ true
            → result ≡ after.run.held }
    {
        self.held
    }

    /// Returns the beam.
    pub fn beam(&self) -> Beam
        ensures value { result ≡ self.now.beam }
        ensures run { (history : List Told) (low : Option ℕ)
            (after : HasTaken self.now history low)
            → result ≡ spec.beam_after after.run.first after.run.visits }
    {
        self.beam
    }

    /// Returns the return addresses, at most four, the newest last. In an open run these are the
    /// addresses past the calls that are still open. Once the run is over they mean nothing.
    pub fn return_addresses(&self) -> &[u16]
        ensures value { reverse result.now ≡ self.now.stack }
        ensures fits { length result.now ≤ STACK_DEPTH }
        ensures run { (history : List Told) (low : Option ℕ)
            (after : HasTaken self.now history low) → after.run.is_open ≡ true
            → IsReturns (reverse result.now) after.run.visits }
    {
        self.stack.as_slice()
    }

    /// Returns the strokes that the open run drew so far, in the order drawn. There are none after
    /// a HALT, which makes the picture of them.
    pub fn strokes(&self) -> &[Stroke]
        ensures value { result.now ≡ self.now.strokes }
        ensures run { (history : List Told) (low : Option ℕ)
            (after : HasTaken self.now history low) → after.run.is_open ≡ true
            → result.now ≡ spec.strokes after.run.first after.run.visits }
        ensures in_range { All IsStroke result.now }
    {
        self.strokes.as_slice()
    }

    /// Takes out the strokes that the open run drew so far, and leaves none: its picture is made of
    /// those that it draws from now on. So a run without an end takes no more memory.
    pub fn take_strokes(&mut self) -> Vec<Stroke, A>
        ensures taken { result.items ≡ self.old.strokes }
        ensures machine { self.new ≡ record self.old { strokes = [] } }
        ensures in_range { All IsStroke result.items }
    {
        mem::replace(&mut self.strokes, Vec::new(self.alloc))
    }

    /// Returns the move that `byte`, the next one, completes, before it is taken: so who takes one
    /// pays nothing for its move. The generator stays as it is. `None` means that no run is open or
    /// that the byte moves no beam: a low byte or a first word, a word of another instruction than
    /// VCTR, SVEC and LABS, or no memory.
    pub fn move_by(&self, byte: Option<u8>) -> Option<Move>
        ensures moves { (history : List Told) (low : Option ℕ)
            (after : HasTaken self.now history low) → after.run.is_open ≡ true
            → AddsMoves history after.run (met low byte) (option_to_list result) }
        ensures halted { self.now.is_open ≡ false → IsNone result }
        ensures in_range { IfSome result IsMove }
    {
        if self.halted() {
            return None;
        }
        let Some(high) = byte else {
            return None;
        };
        let Some(low) = self.low_byte() else {
            return None;
        };
        self.move_of(u16::from_le_bytes([low, high]))
    }

    /// Returns the picture: the strokes of the newest run that came to a HALT, in the order drawn.
    /// There are none before the first HALT, and after the picture was taken.
    pub fn picture(&self) -> &[Stroke]
        ensures { result.now ≡ self.now.picture }
    {
        self.picture.as_slice()
    }

    /// Takes the picture out, and leaves an empty one. The next strokes need new memory then.
    #[inline(always)]
    pub fn take_picture(&mut self) -> Vec<Stroke, A>
        ensures taken { result.items ≡ self.old.picture }
        ensures stands { (history : List Told) (low : Option ℕ) → HasTaken self.old history low
            → HasTaken self.new history low }
        ensures machine { self.new ≡ record self.old { picture = [] } }
    {
        mem::replace(&mut self.picture, Vec::new(self.alloc))
    }

    /// Takes `byte`, and returns what it led to. `byte` is the low byte of the word at the address
    /// that `wants` returns, or its high byte where `wants_high` is true. `None` means that no
    /// memory answers there; it may come after a low byte, too, which is then dropped, as only the
    /// generator knows of it. A run must be open. After `Done` or `Broke` the generator is halted;
    /// `Done` makes the picture of the run's strokes, and every other step leaves it as it was. The
    /// return addresses change only where a call or a return is completed.
    ///
    /// Returns `OutOfMemory` where an allocation fails, and then nothing has changed. That comes
    /// only where a high byte completes a vector with an intensity of at least 1.
    #[inline(always)]
    pub fn feed(&mut self, byte: Option<u8>) -> Result<Step, OutOfMemory>
        requires { self.old.is_open ≡ true }
        ensures answers { IfOk result (λ step. (history : List Told) (low : Option ℕ)
            → HasTaken self.old history low
            → Answers history (met low byte) self.new (answer_by step self.new.picture)) }
        ensures picture { IfOk result (λ step. self.new.picture ≡ picture_after step self.old) }
        ensures strokes { IfOk result (λ step. step ≡ Step.Done → self.new.strokes ≡ []) }
        ensures finished { IfOk result (λ step. step ≡ Step.Done
            → IsSome (word_of (met self.old.low byte))) }
        ensures goes_on { IfOk result (λ step. (self.new.is_open ≡ true)
            ↔ IsOnward (answer_by step self.new.picture)) }
        ensures stack { turn_of self.old.held (met self.old.low byte) ≡ None
            → self.new.stack ≡ self.old.stack }
        ensures room { DrawsNothing self.old.held (met self.old.low byte) → IsOk result }
        ensures refused { OnErr result (self.new ≡ self.old) }
    {
        let Some(byte) = byte else {
            return Ok(self.break_off(GenFault::Hole));
        };
        let Some(low) = self.low_byte() else {
            self.low = byte;
            self.has_low = true;
            return Ok(Step::Low);
        };
        self.take(u16::from_le_bytes([low, byte]))
    }

    /// Takes `byte` as `feed` does, and the picture, too, where it is `Done`.
    #[inline(always)]
    pub fn take_byte(&mut self, byte: Option<u8>) -> Result<Taken<A>, OutOfMemory>
        requires { self.old.is_open ≡ true }
        ensures answers { IfOk result (λ taken. (history : List Told) (low : Option ℕ)
            → HasTaken self.old history low
            → Answers history (met low byte) self.new (answer_of taken)) }
        ensures picture { IfOk result (λ taken. self.new.picture
            ≡ left_by taken self.old.picture) }
        ensures goes_on { IfOk result (λ taken. (self.new.is_open ≡ true)
            ↔ IsOnward (answer_of taken)) }
        ensures room { DrawsNothing self.old.held (met self.old.low byte) → IsOk result }
        ensures strokes { IfOk result (λ taken. (strokes : List Stroke)
            → answer_of taken ≡ Some (Drew strokes) → self.new.strokes ≡ []) }
        ensures refused { OnErr result (self.new ≡ self.old) }
    {
        match self.feed(byte) {
            Ok(Step::Low) => Ok(Taken::Low),
            Ok(Step::Word) => Ok(Taken::Word),
            Ok(Step::Done) => Ok(Taken::Done(self.take_picture())),
            Ok(Step::Broke(fault)) => Ok(Taken::Broke(fault)),
            Err(refused) => Err(refused),
        }
    }

    /// Returns all that the generator keeps but its strokes and its picture.
    pub fn state(&self) -> GeneratorState
        ensures machine { self.now ≡ machine_of result self.now.strokes self.now.picture }
        ensures valid { IsState result }
    {
        let Beam { x, y, scale } = self.beam;
        GeneratorState {
            is_open: self.is_open,
            at: self.at,
            held: self.held,
            low: self.low_byte(),
            return_addresses: copied(self.stack.as_slice()),
            x,
            y,
            scale,
        }
    }

    /// Brings the generator into `state`, with `strokes` as what its run drew so far. So it goes on
    /// as the one whose `state` and `strokes` these were. No claim is made about a run that goes on
    /// with other strokes. The picture stays as it was. If `fault_with` finds a fault, it returns
    /// that with the strokes, and nothing has changed: so never with those of a generator.
    pub fn resume(
        &mut self,
        state: &GeneratorState,
        strokes: Vec<Stroke, A>,
    ) -> Result<(), GeneratorRefused<A>>
        ensures taken { IsOk result ↔ CanResume (IsState state.now) strokes.items }
        ensures machine { OnOk result
            (self.new ≡ machine_of state.now strokes.items self.old.picture) }
        ensures stands { OnOk result ((saved : Machine) (picture : List Stroke)
            (history : List Told) (low : Option ℕ)
            → saved ≡ machine_of state.now strokes.items picture → HasTaken saved history low
            → HasTaken self.new history low) }
        ensures stroke { IfErr result (λ refused.
            (refused.fault ≡ GeneratorStateFault.Stroke) ↔ IsState state.now) }
        ensures given_back { IfErr result (λ refused. refused.strokes ≡ strokes) }
        ensures refused { OnErr result (self.new ≡ self.old) }
    {
        if let Some(fault) = state.fault_with(strokes.as_slice()) {
            return Err(GeneratorRefused { fault, strokes });
        }
        self.go_on(state, strokes);
        Ok(())
    }

    // Does what `resume` does, where `fault_with` finds no fault.
    pub(crate) fn go_on(&mut self, state: &GeneratorState, strokes: Vec<Stroke, A>)
        requires { CanResume (IsState state.now) strokes.items }
        ensures machine { self.new ≡ machine_of state.now strokes.items self.old.picture }
        ensures stands { (saved : Machine) (picture : List Stroke)
            (history : List Told) (low : Option ℕ)
            → saved ≡ machine_of state.now strokes.items picture → HasTaken saved history low
            → HasTaken self.new history low }
    {
        self.is_open = state.is_open;
        self.at = state.at;
        self.held = state.held;
        self.has_low = state.low.is_some();
        self.low = state.low.unwrap_or(0);
        self.stack = copied(state.return_addresses.as_slice());
        self.beam = Beam {
            x: state.x,
            y: state.y,
            scale: state.scale,
        };
        self.strokes = strokes;
    }

    // Returns the move of the instruction that the whole word `word` completes.
    fn move_of(&self, word: u16) -> Option<Move>
        ensures moves { CompletesMove self.now word (option_to_list result) }
        ensures in_range { IfSome result IsMove }
    {
        if let Some(first) = self.held {
            let code = of_two(first, word);
            return Move::of(&self.beam, &code, before(self.at));
        }
        if word < 0xB000 {
            return None;
        }
        let code = of_one(word);
        Move::of(&self.beam, &code, self.at)
    }

    // Takes the whole word `word`, as `feed` takes a high byte.
    #[inline(always)]
    fn take(&mut self, word: u16) -> Result<Step, OutOfMemory>
        requires { self.old.is_open ≡ true }
        ensures answers { IfOk result (λ step. (history : List Told) (low : Option ℕ)
            → HasTaken self.old history low
            → Answers history (Whole (Some word)) self.new (answer_by step self.new.picture)) }
        ensures picture { IfOk result (λ step. self.new.picture ≡ picture_after step self.old) }
        ensures strokes { IfOk result (λ step. step ≡ Step.Done → self.new.strokes ≡ []) }
        ensures goes_on { IfOk result (λ step. (self.new.is_open ≡ true)
            ↔ IsOnward (answer_by step self.new.picture)) }
        ensures stack { is_turn self.old.held word ≡ false → self.new.stack ≡ self.old.stack }
        ensures room { DrawsNothing self.old.held (Whole (Some word)) → IsOk result }
        ensures refused { OnErr result (self.new ≡ self.old) }
    {
        // The opcode says which instruction it is. To look at the decoded ones once more would take
        // time.
        if let Some(first) = self.held {
            return if first < 0xA000 {
                self.draw(of_two(first, word))
            } else {
                Ok(self.place(of_two(first, word)))
            };
        }
        if word < 0xB000 {
            self.at = after(self.at);
            self.held = Some(word);
            self.has_low = false;
            return Ok(Step::Word);
        }
        match word >> 12 {
            0xB => Ok(self.finish()),
            0xC => Ok(self.call(word % 4096)),
            0xD => Ok(self.come_back()),
            0xE => Ok(self.jump(word % 4096)),
            _ => self.draw(of_one(word)),
        }
    }

    // Places the beam by `code`, which is a LABS.
    #[inline(always)]
    fn place(&mut self, code: Code) -> Step
        requires open { self.old.is_open ≡ true }
        requires labs { IsLabs code }
        ensures obeyed { Obeyed self.old code self.new result }
        ensures stack { self.new.stack ≡ self.old.stack }
    {
        let Instr::Labs { x, y, scale } = code.instr() else {
            unreachable!()
        };
        self.beam = Beam::place(x, y, scale);
        self.jump(after(self.at))
    }

    // Draws the vector `code`. Returns `OutOfMemory` where an allocation fails, and then nothing
    // has changed.
    #[inline(always)]
    fn draw(&mut self, code: Code) -> Result<Step, OutOfMemory>
        requires open { self.old.is_open ≡ true }
        requires moves { act_of code ≡ Moves code }
        ensures obeyed { IfOk result (Obeyed self.old code self.new) }
        ensures stack { self.new.stack ≡ self.old.stack }
        ensures room { (IsSeen code → ⊥) → IsOk result }
        ensures refused { OnErr result (self.new ≡ self.old) }
    {
        // Field by field: a copy of the whole would move its unused bytes too.
        let Beam { x, y, scale } = self.beam;
        let mut beam = Beam { x, y, scale };
        if let Some(stroke) = beam.step(&code) {
            self.strokes.push(stroke)?;
        }
        self.beam = beam;
        Ok(self.jump(after(self.at)))
    }

    // Saves the address of the next word, and goes to `address`. Where four addresses are saved,
    // the run breaks.
    fn call(&mut self, address: u16) -> Step
        requires open { self.old.is_open ≡ true }
        requires in_range { address ≤ 4095 }
        ensures { Obeyed self.old (Instr.Jsrl address) self.new result }
    {
        if self.stack.is_full() {
            return self.break_off(GenFault::StackOver);
        }
        self.stack.push(after(self.at));
        self.jump(address)
    }

    // Goes to the address that was saved last. Where none is saved, the run breaks.
    fn come_back(&mut self) -> Step
        requires { self.old.is_open ≡ true }
        ensures { Obeyed self.old Instr.Rtsl self.new result }
    {
        match self.stack.pop() {
            Some(address) => self.jump(address),
            None => self.break_off(GenFault::StackUnder),
        }
    }

    // Returns the address after that of the next word.
    pub(crate) fn next_address(&self) -> u16
        ensures value { result ≡ spec.on self.now.at 1 }
        ensures in_range { result < 4096 }
    {
        after(self.at)
    }

    // Goes to `address`, where the next instruction begins.
    pub(crate) fn jump(&mut self, address: u16) -> Step
        requires in_range { address ≤ 4095 }
        ensures moved { self.new ≡ record self.old { at = address; held = None; low = None } }
        ensures goes_on { result ≡ Step.Word }
    {
        self.at = address;
        self.held = None;
        self.has_low = false;
        Step::Word
    }

    // Ends the run, and makes the picture of its strokes.
    fn finish(&mut self) -> Step
        ensures obeyed { Obeyed self.old Instr.Halt self.new result }
        ensures stack { self.new.stack ≡ self.old.stack }
    {
        self.has_low = false;
        self.is_open = false;
        mem::swap(&mut self.strokes, &mut self.picture);
        self.strokes.clear(); // Its memory is used again.
        Step::Done
    }

    // Breaks the run with `fault`.
    fn break_off(&mut self, fault: GenFault) -> Step
        ensures shut { self.new ≡ record self.old { low = None; is_open = false } }
        ensures fault { result ≡ Step.Broke fault }
    {
        self.has_low = false;
        self.is_open = false;
        Step::Broke(fault)
    }
}

// Returns the address one word after `address`, where 000 comes after FFF.
fn after(address: u16) -> u16
    requires { address ≤ 4095 }
    ensures { result ≡ spec.on address 1 }
{
    (address + 1) % 4096
}

// Returns a copy of `addresses`, which are at most four.
pub(crate) fn copied(addresses: &[u16]) -> ArrayVec<u16, STACK_DEPTH>
    requires { length addresses.now ≤ STACK_DEPTH }
    ensures { result.items ≡ addresses.now }
{
    let mut copies = ArrayVec::new();
    match copies.try_extend_from_slice(addresses) {
        Ok(()) => copies,
        Err(_) => unreachable!(),
    }
}

// Returns the address one word before `address`, where FFF comes before 000.
fn before(address: u16) -> u16
    requires { address ≤ 4095 }
    ensures value { result ≡ begins_at (Some address) address }
    ensures in_range { result < 4096 }
{
    (address + 4095) % 4096
}

// Returns the instruction of `word`, which has an opcode of B to F.
#[inline(always)]
#[tactic(auto, using(crate::proofs::Words::completes_one))]
fn of_one(word: u16) -> Code
    requires { 0xB000 ≤ word }
    ensures { Completes None word result }
{
    match decode(&[word]) {
        Ok(read) => read.0,
        Err(_) => unreachable!(),
    }
}

// Returns the instruction of `first`, which has an opcode of 0 to A, and `word`.
#[inline(always)]
fn of_two(first: u16, word: u16) -> Code
    requires { IsFirst first }
    ensures { Completes (Some first) word result }
{
    match decode(&[first, word]) {
        Ok(read) => read.0,
        Err(_) => unreachable!(),
    }
}
