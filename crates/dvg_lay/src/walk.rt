//! The run of a generator of which the time alone is kept: neither the beam nor a stroke.
ghost use Rattle.std.specs.Prelude.{◌≡◌, ◌≤◌, ◌<◌, IfSome, IsNone, None, Some, true};
ghost use Rattle.dvg_code.specs.Spelling.{IsFirst};
ghost use Rattle.dvg_code.specs.declared.instr.Instr.{Instr};
ghost use Rattle.dvg_mem.specs.Memory.{fetched};
ghost use Rattle.dvg_gen.specs.Completing.{Completes};
ghost use Rattle.dvg_gen.specs.Run as spec;
ghost use Rattle.dvg_lay.specs.Walks.{Does, IsRunTime, at_first};

use crate::time::{PictureTime, Spent};
use arrayvec::ArrayVec;
use dvg_code::{Code, Instr, decode};
use dvg_dump::MOST_WORDS;
use dvg_gen::STACK_DEPTH;
use dvg_mem::{Flat, Rom, fetch};
use std::alloc::Allocator;
use std::marker::Model;

/// Where a run is.
#[derive(Drop)]
pub(crate) struct Walk {
    // The address of the next word.
    at: u16,
    // The first word of an instruction that needs a second one.
    held: Option<u16>,
    // The addresses of calls that are open.
    stack: ArrayVec<u16, STACK_DEPTH>,
    // The global scale.
    scale: u8,
}

/// Contracts see a `Footing`.
impl Model for Walk {
    ghost use Rattle.std.specs.Prelude.{◌≤◌, reverse};
    ghost use Rattle.dvg_gen.specs.Machine.{IsKept};
    ghost use Rattle.dvg_lay.specs.Walks.{Footing};

    ghost Value = { Footing };

    ghost view = { λ walk. record {
      at = walk.at;
      held = walk.held;
      stack = reverse walk.stack.items;
      scale = walk.scale;
    } };

    ghost invariant = { λ walk. IsKept walk.at walk.held walk.stack.items × (walk.scale ≤ 15) };
}

impl Walk {
    // Returns where a new generator is once it is started.
    fn new() -> Walk
        ensures { result ≡ at_first }
    {
        Walk {
            at: 0,
            held: None,
            stack: ArrayVec::new(),
            scale: 0,
        }
    }

    // Returns the instruction that `word`, the next one, completes. Returns `None` where it needs a
    // second word, which is the next one then.
    #[inline(always)]
    fn read(&mut self, word: u16) -> Option<Code>
        ensures found { IfSome result (λ code. Completes self.old.held word code
            × (self.new ≡ self.old)) }
        ensures first { IsNone result → (self.old.held ≡ None) × IsFirst word
            × (self.new ≡ record self.old { at = spec.on self.old.at 1; held = Some word }) }
    {
        if let Some(first) = self.held {
            return Some(of_two(first, word));
        }
        if word < 0xB000 {
            self.at = after(self.at);
            self.held = Some(word);
            return None;
        }
        Some(of_one(word))
    }

    // Does `code`, which the next word completes. Returns whether the run goes on: it doesn't after
    // HALT, a fifth call, or a return without a call.
    #[inline(always)]
    fn obey(&mut self, code: Code) -> bool
        ensures { Does self.old code self.new result }
    {
        match code.instr() {
            Instr::Vctr { .. } | Instr::Svec { .. } => self.go(after(self.at)),
            Instr::Labs { scale, .. } => {
                self.scale = scale;
                self.go(after(self.at))
            }
            Instr::Halt => false,
            Instr::Jsrl(address) => self.call(address),
            Instr::Rtsl => self.come_back(),
            Instr::Jmpl(address) => self.go(address),
        }
    }

    // Goes to `address`, where the next instruction begins.
    fn go(&mut self, address: u16) -> bool
        requires in_range { address ≤ 4095 }
        ensures moved { self.new ≡ record self.old { at = address; held = None } }
        ensures goes_on { result ≡ true }
    {
        self.at = address;
        self.held = None;
        true
    }

    // Saves the address of the next word, and goes to `address`, if fewer than four are saved.
    fn call(&mut self, address: u16) -> bool
        requires in_range { address ≤ 4095 }
        ensures { Does self.old (Instr.Jsrl address) self.new result }
    {
        if self.stack.is_full() {
            return false;
        }
        self.stack.push(after(self.at));
        self.go(address)
    }

    // Goes to the address that was saved last, if one is saved.
    fn come_back(&mut self) -> bool
        ensures { Does self.old Instr.Rtsl self.new result }
    {
        match self.stack.pop() {
            Some(address) => self.go(address),
            None => false,
        }
    }
}

/// Returns how long the instructions of the run over `ram` and `rom` take together, up to
/// `MOST_WORDS` words.
pub(crate) fn time_over<A: Allocator + Copy>(ram: &Flat<A>, rom: &Rom<A>) -> PictureTime
    ensures { IsRunTime (fetched ram.now rom.now) result }
{
    let mut walk = Walk::new();
    let mut spent = Spent::nothing();
    for step in 0..MOST_WORDS {
        let Some(word) = fetch(ram, rom, walk.at) else {
            return spent.told();
        };
        if let Some(code) = walk.read(word) {
            spent.add(&code, walk.scale);
            if !walk.obey(code) {
                return spent.told();
            }
        }
    }
    spent.told()
}

// Returns the address one word after `address`, where 000 comes after FFF.
fn after(address: u16) -> u16
    requires { address ≤ 4095 }
    ensures { result ≡ spec.on address 1 }
{
    (address + 1) % 4096
}

// Returns the instruction of `word`, which has an opcode of B to F.
#[inline(always)]
fn of_one(word: u16) -> Code
    requires { 0xB000 ≤ word }
    ensures { Completes None word result }
{
    match decode(&[word]) {
        Ok(read) => read.0,
        Err(_) => unreachable!(),
    }
}

// Returns the instruction of `first`, which has an opcode of 0 to A, and `word`.
#[inline(always)]
fn of_two(first: u16, word: u16) -> Code
    requires { IsFirst first }
    ensures { Completes (Some first) word result }
{
    match decode(&[first, word]) {
        Ok(read) => read.0,
        Err(_) => unreachable!(),
    }
}
