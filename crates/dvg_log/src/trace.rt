//! Lists of events that take little room.
ghost use Rattle.std.specs.Prelude.{◌≡◌, ◌+◌, ◌<◌, ◌≤◌, ◌↔◌, ◌++◌, ◌∷◌, [], length, replicate};
ghost use Rattle.std.specs.Prelude.{ℕ, List, IfOk, IsFalse, IsTrue, OnErr, OnOk};
ghost use Rattle.dvg_log.specs.Events.{happening_of, map_event, spelled_as};
ghost use Rattle.dvg_frame.specs.declared.op.OpKind.{OpKind};
ghost use Rattle.dvg_log.specs.declared.event.Event.TheVariants.{Offer, ResetAll};
ghost use Rattle.dvg_log.specs.Traces.{step_event};
ghost use Rattle.dvg_log.specs.declared.trace.TheConstants.{MOST_EVENTS};
ghost use Rattle.dvg_log.specs.own.Kept.{BringsNothing, IsLonger, IsWithin};
ghost use Rattle.dvg_mem.specs.declared.TheConstants.{MEMORY_BYTES};

use crate::event::{Event, OwnEvent, SpelledEvent};
use crate::runs::{Run, Runs, Step};
use dvg_code::OutOfMemory;
use dvg_frame::{Draft, Op};
use dvg_mem::{Image, MEMORY_BYTES};
use std::alloc::{Allocator, Global};
use std::marker::Model;

/// The most events of a trace (this project's own choice).
pub const MOST_EVENTS: usize = 65_536;

/// Events in order, at most 65,536 of them, in little room. What `push_times` adds is kept once,
/// with its number. Ticks, strobes and fetches join those of their kind before them. The operations
/// of all offers lie in one list, so an offer takes only what its own operations need, where a
/// `Draft` has room for 511. The images of resets lie in another.
#[derive(Drop)]
pub struct Trace<A: Allocator = Global> {
    runs: Vec<Run, A>,
    /// The number of events.
    count: usize,
    /// Where the operations of each offer begin among those of all, and how many they are.
    offers: Vec<(u32, u16), A>,
    /// The operations of all offers.
    ops: Vec<Op, A>,
    /// The images of the resets of the whole system.
    images: Vec<Image<A>, A>,
    /// For each byte the number of the image that has it everywhere, if one was made.
    filled: [Option<u16>; 256],
}

/// Contracts see the list of the events.
impl<A: Allocator> Model for Trace<A> {
    ghost use Rattle.std.specs.Prelude.{List, map};
    ghost use Rattle.dvg_log.specs.Events.{Happening};
    ghost use Rattle.dvg_log.specs.Traces.{all_events, ops_in};
    ghost use Rattle.dvg_log.specs.own.Kept.{IsTrace};

    ghost Value = { List Happening };

    ghost view = { λ trace. all_events trace.runs.items
        (map (ops_in trace.ops.items) trace.offers.items) trace.images.items };

    ghost invariant = { λ trace. IsTrace trace.count trace.runs.items trace.offers.items
        trace.ops.items trace.images.items trace.filled };
}

impl<A: Allocator + Copy> Trace<A> {
    /// Returns a trace without events. It will keep them in memory of `alloc`.
    pub fn new(alloc: A) -> Trace<A>
        ensures { result ≡ [] }
    {
        Trace {
            runs: Vec::new(alloc),
            count: 0,
            offers: Vec::new(alloc),
            ops: Vec::new(alloc),
            images: Vec::new(alloc),
            filled: [None; 256],
        }
    }

    /// Adds `event` at the end, `times` times in a row. `times` is at least 1, and the trace must
    /// have room for them. Of equal resets of the whole system the image is made only once. Returns
    /// `OutOfMemory` where an allocation fails, and then nothing has changed.
    #[inline(always)]
    pub fn push_times(&mut self, event: SpelledEvent, times: u16) -> Result<(), OutOfMemory>
        requires some { 1 ≤ times }
        requires room { length self.old + times ≤ MOST_EVENTS }
        ensures pushed { OnOk result (self.new ≡ self.old ++ replicate times (spelled_as event)) }
        ensures refused { OnErr result (self.new ≡ self.old) }
    {
        match event {
            Event::ResetAll(byte) => self.push_filled(byte, times),
            _ => self.push_step(step_of(&event), times),
        }
    }

    // Adds a reset of the whole system, after which each byte is `byte`, `times` times. The image
    // is made only for the first such reset.
    fn push_filled(&mut self, byte: u8, times: u16) -> Result<(), OutOfMemory>
        requires some { 1 ≤ times }
        requires room { length self.old + times ≤ MOST_EVENTS }
        ensures pushed { OnOk result (self.new
            ≡ self.old ++ replicate times (ResetAll (replicate MEMORY_BYTES byte))) }
        ensures refused { OnErr result (self.new ≡ self.old) }
    {
        if let Some(number) = self.filled[usize::from(byte)] {
            let step = Step::ResetAll(number);
            self.runs.push(Run { step, times })?;
            self.count += usize::from(times);
            return Ok(());
        }
        let alloc = *self.images.allocator();
        let Ok(image) = Image::new(alloc, &[byte; MEMORY_BYTES]) else {
            return Err(OutOfMemory);
        };
        let number = add_image(&mut self.images, &mut self.runs, image, times)?;
        self.count += usize::from(times);
        self.filled[usize::from(byte)] = Some(number);
        Ok(())
    }
}

impl<A: Allocator> Trace<A> {
    /// Returns the number of events, at most 65,536.
    #[tactic(auto, using(crate::proofs::Traces::count_of))]
    pub fn len(&self) -> usize
        ensures value { result ≡ length self.now }
        ensures most { result ≤ MOST_EVENTS }
    {
        self.count
    }

    /// Returns whether there is no event.
    pub fn is_empty(&self) -> bool
        ensures { IsTrue result ↔ (self.now ≡ []) }
    {
        self.count == 0
    }

    /// Returns an iterator over the events, from the first on, as runs of equal ones.
    pub fn runs(&self) -> Runs<'_, A>
        ensures { result ≡ self.now }
    {
        Runs::of(
            self.runs.as_slice(),
            self.offers.as_slice(),
            self.ops.as_slice(),
            self.images.as_slice(),
        )
    }

    /// Adds `event` at the end. There must be fewer than 65,536 events. Returns `OutOfMemory` where
    /// an allocation fails, and then nothing has changed.
    pub fn push(&mut self, event: OwnEvent<A>) -> Result<(), OutOfMemory>
        requires { length self.old < MOST_EVENTS }
        ensures pushed { OnOk result (self.new ≡ self.old ++ happening_of event ∷ []) }
        ensures refused { OnErr result (self.new ≡ self.old) }
    {
        match event {
            Event::Offer(draft) => self.push_offer(&draft),
            Event::ResetAll(image) => self.push_image(image),
            _ => self.push_step(step_of(&event), 1),
        }
    }

    /// Adds an offer of `draft`, which is copied, at the end. There must be fewer than 65,536
    /// events. Returns `OutOfMemory` where an allocation fails, and then nothing has changed.
    pub fn push_offer(&mut self, draft: &Draft) -> Result<(), OutOfMemory>
        requires { length self.old < MOST_EVENTS }
        ensures pushed { OnOk result (self.new ≡ self.old ++ Offer draft.now ∷ []) }
        ensures refused { OnErr result (self.new ≡ self.old) }
    {
        let first = self.ops.len() as u32;
        let count = draft.len();
        let number = self.offers.len() as u16;
        self.ops.reserve(count)?;
        self.offers.reserve(1)?;
        self.runs.reserve(1)?;
        self.ops.extend_from_slice(draft.ops()).unwrap();
        self.offers.push_reserved((first, count as u16));
        let step = Step::Offer(number);
        self.runs.push_reserved(Run { step, times: 1 });
        self.count += 1;
        Ok(())
    }

    // Adds `step`, which brings nothing, `times` times. It joins the last run where that is of the
    // same event.
    #[inline(always)]
    fn push_step(&mut self, step: Step, times: u16) -> Result<(), OutOfMemory>
        requires some { 1 ≤ times }
        requires room { length self.old + times ≤ MOST_EVENTS }
        requires simple { IsWithin 0 0 step }
        ensures pushed { OnOk result (self.new
            ≡ self.old ++ replicate times (step_event [] [] step)) }
        ensures refused { OnErr result (self.new ≡ self.old) }
    {
        if lengthen(&mut self.runs, step, times) {
            self.count += usize::from(times);
            return Ok(());
        }
        self.runs.push(Run { step, times })?;
        self.count += usize::from(times);
        Ok(())
    }

    // Adds a reset of the whole system to `image`, which is kept.
    fn push_image(&mut self, image: Image<A>) -> Result<(), OutOfMemory>
        requires { length self.old < MOST_EVENTS }
        ensures pushed { OnOk result (self.new ≡ self.old ++ ResetAll image ∷ []) }
        ensures refused { OnErr result (self.new ≡ self.old) }
    {
        add_image(&mut self.images, &mut self.runs, image, 1)?;
        self.count += 1;
        Ok(())
    }
}

// Returns the step of `event`, which brings neither a draft nor an image.
#[inline(always)]
fn step_of<D, I>(event: &Event<D, I>) -> Step
    requires { BringsNothing event.now }
    ensures simple { IsWithin 0 0 result }
    ensures value { (draft_of : D → List OpKind) (image_of : I → List ℕ)
        → step_event [] [] result ≡ map_event draft_of image_of event.now }
{
    match event {
        Event::Redraw => Step::Redraw,
        Event::Tick => Step::Tick,
        Event::Strobe => Step::Strobe,
        Event::Fetch => Step::Fetch,
        Event::ResetGen => Step::ResetGen,
        Event::ResetCpu => Step::ResetCpu,
        Event::Offer(_) | Event::ResetAll(_) => unreachable!(),
    }
}

// Adds `image` to `images`, and `times` resets with it to `runs`. Returns the number of the image.
// Returns `OutOfMemory` where an allocation fails, and then nothing is added.
fn add_image<A: Allocator>(
    images: &mut Vec<Image<A>, A>,
    runs: &mut Vec<Run, A>,
    image: Image<A>,
    times: u16,
) -> Result<u16, OutOfMemory>
    requires { length images.old.items < MOST_EVENTS }
    ensures number { IfOk result (λ number. number ≡ length images.old.items) }
    ensures images { OnOk result (images.new.items ≡ images.old.items ++ image ∷ []) }
    ensures runs { IfOk result (λ number. runs.new.items
        ≡ runs.old.items ++ record { step = ResetAll number; times = times } ∷ []) }
    ensures no_image { OnErr result (images.new.items ≡ images.old.items) }
    ensures no_run { OnErr result (runs.new.items ≡ runs.old.items) }
{
    let number = images.len() as u16;
    images.reserve(1)?;
    runs.reserve(1)?;
    images.push_reserved(image);
    let step = Step::ResetAll(number);
    runs.push_reserved(Run { step, times });
    Ok(number)
}

// Returns whether `step` joins `last`: they are the same event, which comes often.
#[inline(always)]
fn joins(last: Step, step: Step) -> bool
    ensures { IsTrue result → last ≡ step }
{
    match last {
        Step::Tick => matches!(step, Step::Tick),
        Step::Strobe => matches!(step, Step::Strobe),
        Step::Fetch => matches!(step, Step::Fetch),
        _ => false,
    }
}

// Makes the last of `runs` longer by `times`, if `step` joins it and there is room for the number.
// Returns whether it did.
#[inline(always)]
fn lengthen<A: Allocator>(runs: &mut Vec<Run, A>, step: Step, times: u16) -> bool
    ensures longer { IsTrue result → IsLonger runs.old.items runs.new.items step times }
    ensures same { IsFalse result → runs.new.items ≡ runs.old.items }
{
    let count = runs.len();
    if count == 0 {
        return false;
    }
    let last = runs[count - 1];
    if !joins(last.step, step) || last.times > u16::MAX - times {
        return false;
    }
    runs[count - 1] = Run {
        step,
        times: last.times + times,
    };
    true
}
