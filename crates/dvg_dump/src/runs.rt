//! Runs over dumps.
ghost use Rattle.std.specs.Prelude.{◌≡◌, ◌<◌, List, IfOk, IsOk, None, false, true};
ghost use Rattle.dvg_gen.specs.Bytes.{Whole};
ghost use Rattle.dvg_gen.specs.Completing.{DrawsNothing};
ghost use Rattle.dvg_gen.specs.Machine.{HasTaken, answer_by};
ghost use Rattle.dvg_gen.specs.Run.{Visit};
ghost use Rattle.dvg_gen.specs.Told.{Told};
ghost use Rattle.dvg_dump.specs.Endings.{end_of};
ghost use Rattle.dvg_dump.specs.Ends.{DrawsNoStroke, Ends};
ghost use Rattle.dvg_dump.specs.Following.{TakesWord, TellsRun};
ghost use Rattle.dvg_dump.specs.Memory.{memory_of};
ghost use Rattle.dvg_dump.specs.Tracing.{Steps, fresh};

use crate::dump::Dump;
use crate::ending::Ending;
use crate::ran::Ran;
use crate::tracer::Tracer;
use dvg_code::OutOfMemory;
use dvg_gen::{Generator, Step};
use dvg_mem::fetch;
use std::alloc::{Allocator, Global};

/// The most words that a run is followed (this project's own choice): all that an address of 12
/// bits names, sixteen times.
pub const MOST_WORDS: u32 = 65_536;

/// A run: its instructions, and how it ends.
#[derive(Debug, Drop)]
pub struct Traced<A: Allocator = Global> {
    /// The instructions, in the order in which they were run. One that broke the run is the last.
    pub ran: Vec<Ran, A>,
    /// How the run ends.
    pub ending: Ending<A>,
}

// Hands `word` to `generator`, its low byte first, where `None` is a hole. Returns what it led to,
// or `OutOfMemory` where an allocation fails.
fn take_word<A: Allocator + Copy>(
    generator: &mut Generator<A>,
    word: Option<u16>,
) -> Result<Step, OutOfMemory>
    requires open { generator.old.is_open ≡ true }
    requires stands { (history : List Told) × HasTaken generator.old history None }
    ensures takes { IfOk result (λ step. TakesWord generator.old word generator.new
        (answer_by step generator.new.picture)) }
    ensures room { DrawsNothing generator.old.held (Whole word) → IsOk result }
{
    let Some(word) = word else {
        return generator.feed(None);
    };
    let [low, high] = word.to_le_bytes();
    let Step::Low = generator.feed(Some(low))? else {
        unreachable!()
    };
    generator.feed(Some(high))
}

impl<A: Allocator + Copy> Dump<A> {
    /// Runs a new generator over this memory, and returns how the run ends.
    ///
    /// Returns `OutOfMemory` where an allocation fails. The strokes take memory, one by one; a run
    /// that draws none never fails.
    pub fn run(&self) -> Result<Ending<A>, OutOfMemory>
        ensures ends { IfOk result (λ ending. (visits : List Visit)
            × Ends (memory_of self.now) visits (end_of ending)) }
        ensures room { DrawsNoStroke (memory_of self.now) → IsOk result }
    {
        Ok(self.run_telling(false)?.ending)
    }

    /// Runs as `run` does. Returns also the instructions that were run, which take memory, too.
    pub fn run_traced(&self) -> Result<Traced<A>, OutOfMemory>
        ensures { IfOk result (λ traced. TellsRun true (memory_of self.now) traced.ran.items
            (end_of traced.ending)) }
    {
        self.run_telling(true)
    }

    /// Runs as `run` does. Where `traces` is true, returns also the instructions that were run,
    /// otherwise none.
    pub fn run_telling(&self, traces: bool) -> Result<Traced<A>, OutOfMemory>
        ensures tells { IfOk result (λ traced. TellsRun traces (memory_of self.now) traced.ran.items
            (end_of traced.ending)) }
        ensures room { traces ≡ false → DrawsNoStroke (memory_of self.now) → IsOk result }
    {
        let mut tracer = Tracer::new(self.alloc, traces);
        let ending = self.run_beside(&mut tracer)?;
        Ok(Traced {
            ran: tracer.into_ran(),
            ending,
        })
    }

    // Runs to the end, reports each word to `tracer`, and returns how the run ended.
    fn run_beside(&self, tracer: &mut Tracer<A>) -> Result<Ending<A>, OutOfMemory>
        requires { tracer.old ≡ fresh tracer.old.traces }
        ensures tells { IfOk result (λ ending. TellsRun tracer.old.traces
            (memory_of self.now) tracer.new.ran (end_of ending)) }
        ensures room { tracer.old.traces ≡ false → DrawsNoStroke (memory_of self.now)
            → IsOk result }
    {
        let mut generator = Generator::new(self.alloc);
        generator.start();
        for words in 0..MOST_WORDS {
            let Some(address) = generator.wants() else {
                unreachable!()
            };
            match self.step(address, &mut generator, tracer)? {
                Step::Low | Step::Word => {}
                Step::Done => {
                    return Ok(Ending::Finished {
                        words: words + 1,
                        strokes: generator.take_picture(),
                    });
                }
                Step::Broke(fault) => return Ok(Ending::Broke { address, fault }),
            }
        }
        Ok(Ending::Endless)
    }

    // Lets `generator` take the word at `address`, and reports it to `tracer`.
    fn step(
        &self,
        address: u16,
        generator: &mut Generator<A>,
        tracer: &mut Tracer<A>,
    ) -> Result<Step, OutOfMemory>
        requires address { address < 4096 }
        requires open { generator.old.is_open ≡ true }
        requires stands { (history : List Told) × HasTaken generator.old history None }
        ensures steps { IfOk result (λ step. Steps (memory_of self.now) address
            generator.old tracer.old generator.new tracer.new
            (answer_by step generator.new.picture)) }
        ensures room { tracer.old.traces ≡ false
            → DrawsNothing generator.old.held (Whole (memory_of self.now address)) → IsOk result }
    {
        let word = fetch(&self.ram, &self.rom, address);
        tracer.take(address, word)?;
        take_word(generator, word)
    }
}
