//! What follows a generator from word to word and records its instructions.
ghost use Rattle.std.specs.Prelude.{◌≡◌, IfOk, IsOk, None, Some, false, length, nat_eq, true};
ghost use Rattle.std.specs.Cmp.Lexicographic.{pointwise};
ghost use Rattle.dvg_code.specs.Cutting.{Fronts, IsCut};
ghost use Rattle.dvg_code.specs.Spelling.{IsFirst, canon};
ghost use Rattle.dvg_code.specs.declared.instr.Instr.{Instr};
ghost use Rattle.dvg_gen.specs.Completing.{Completes};
ghost use Rattle.dvg_dump.specs.Tracing.{TracesWord, began, fresh, ran_by, recorded, words_by};

use crate::ran::Ran;
use dvg_code::{Code, OutOfMemory, decode, encode};
use dvg_gen::Beam;
use std::alloc::Allocator;
use std::marker::Model;

/// Follows a run beside its generator, and keeps what is recorded of its instructions, if that is
/// asked for.
#[derive(Drop)]
pub(crate) struct Tracer<A: Allocator> {
    traces: bool,
    /// The first word of an instruction that needs a second one.
    held: Option<u16>,
    /// The address where the newest instruction began.
    address: u16,
    beam: Beam,
    ran: Vec<Ran, A>,
}

/// Contracts see a `Trail`.
impl<A: Allocator> Model for Tracer<A> {
    ghost use Rattle.dvg_dump.specs.Tracing.{Trail};

    ghost Value = { Trail };

    ghost view = { λ tracer. record {
      traces = tracer.traces;
      held = tracer.held;
      address = tracer.address;
      beam = tracer.beam;
      ran = tracer.ran.items;
    } };
}

// An instruction that was read, and whether its words are canonical.
#[derive(Clone, Copy)]
struct Spelled {
    code: Code,
    canonical: bool,
}

// Returns what `words` spell, or `None` where they are one that needs a second one.
#[inline(always)]
fn read(words: &[u16]) -> Option<Spelled>
    ensures found { (code : Instr) → Fronts words.now code (length words.now)
        → result ≡ Some (record {
          code = code;
          canonical = pointwise nat_eq (canon code) words.now;
        }) }
    ensures cut { IsCut words.now → result ≡ None }
{
    match decode(words) {
        Ok(found) => Some(Spelled {
            code: found.0,
            canonical: encode(&found.0).as_slice() == words,
        }),
        Err(_) => None,
    }
}

// Returns what `word` completes, after `held`, the first word, if there is one. Returns `None`
// where `word` needs a second one.
#[inline(always)]
fn completed(held: Option<u16>, word: u16) -> Option<Spelled>
    ensures found { (code : Instr) → Completes held word code
        → result ≡ Some (record {
          code = code;
          canonical = pointwise nat_eq (canon code) (words_by held word);
        }) }
    ensures first { IsFirst word → held ≡ None → result ≡ None }
{
    match held {
        Some(first) => read(&[first, word]),
        None => read(&[word]),
    }
}

impl<A: Allocator> Tracer<A> {
    /// Returns a tracer of a run that begins. Where `traces` is true, it keeps the instructions, in
    /// memory of `alloc`.
    pub(crate) fn new(alloc: A, traces: bool) -> Tracer<A>
        ensures { result ≡ fresh traces }
    {
        Tracer {
            traces,
            held: None,
            address: 0,
            beam: Beam::place(0, 0, 0),
            ran: Vec::new(alloc),
        }
    }

    /// Returns what was recorded.
    pub(crate) fn into_ran(self) -> Vec<Ran, A>
        ensures { result.items ≡ self.ran }
    {
        self.ran
    }

    /// Notes that the run fetched `word` at `address`, or met a hole there. Returns `OutOfMemory`
    /// where an allocation fails.
    pub(crate) fn take(&mut self, address: u16, word: Option<u16>) -> Result<(), OutOfMemory>
        ensures traces { IfOk result (λ _. TracesWord address word self.old self.new) }
        ensures room { self.old.traces ≡ false → IsOk result }
    {
        let Some(word) = word else {
            return Ok(());
        };
        if !self.traces {
            return Ok(());
        }
        self.take_word(address, word)
    }

    // Notes that the run fetched `word` at `address`.
    #[inline(always)]
    fn take_word(&mut self, address: u16, word: u16) -> Result<(), OutOfMemory>
        requires { self.old.traces ≡ true }
        ensures { IfOk result (λ _. TracesWord address (Some word) self.old self.new) }
    {
        self.address = self.began(address);
        match completed(self.held, word) {
            Some(read) => self.tell(read),
            None => {
                self.held = Some(word);
                Ok(())
            }
        }
    }

    // Returns where the instruction began to which the word at `address` belongs.
    fn began(&self, address: u16) -> u16
        ensures { result ≡ began self.now.held address self.now.address }
    {
        match self.held {
            Some(_) => self.address,
            None => address,
        }
    }

    // Records the instruction `read`, which was run.
    #[inline(always)]
    fn tell(&mut self, read: Spelled) -> Result<(), OutOfMemory>
        ensures { IfOk result (λ _. self.new ≡ recorded self.old (ran_by self.old read)) }
    {
        let stroke = self.beam.step(&read.code);
        self.held = None;
        self.ran.push(Ran {
            address: self.address,
            code: read.code,
            canonical: read.canonical,
            beam: self.beam,
            stroke,
        })?;
        Ok(())
    }
}
