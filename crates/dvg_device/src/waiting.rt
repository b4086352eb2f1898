//! What was told of a generator's state, before one begins in it. An answer that tells a part is
//! the request that tells another device the same part. What was open stays until the whole state
//! is there; the first part begins anew.
ghost use Rattle.std.specs.Prelude.{◌≡◌, [], All, MatchOption, Some};
ghost use Rattle.dvg_gen.specs.Position.{IsStroke};
ghost use Rattle.dvg_gen.specs.Saved.{machine_of};
ghost use Rattle.dvg_device.specs.States.{CanStand, TakesPart, part_in, unbegun};
ghost use Rattle.dvg_device.specs.Wrappings.{CanWrap, wrapping_of};
ghost use Rattle.dvg_device.specs.declared.state.StatePart.TheVariants.{Line, ReturnAddress};

use crate::reply::Reply;
use crate::state::StatePart;
use arrayvec::ArrayVec;
use dvg_gen::{Generator, GeneratorState, Stroke, WrappingGenerator};
use dvg_log::Entry;
use std::alloc::Global;
use std::marker::Model;
use std::mem;

/// What came of a part that was taken.
const TAKEN: Reply = Reply::Came(Entry::Cleared);

/// The state of a generator, so far as its parts were told.
#[derive(Drop)]
pub(crate) struct Waiting {
    state: GeneratorState,
    strokes: Vec<Stroke>,
}

/// Contracts see the machine in that state.
impl Model for Waiting {
    ghost use Rattle.std.specs.Prelude.{[], All};
    ghost use Rattle.dvg_gen.specs.Machine.{Machine};
    ghost use Rattle.dvg_gen.specs.Position.{IsStroke};
    ghost use Rattle.dvg_gen.specs.Saved.{machine_of};

    ghost Value = { Machine };

    ghost view = { λ waiting. machine_of waiting.state waiting.strokes.items [] };

    ghost invariant = { λ waiting. All IsStroke waiting.strokes.items };
}

impl Waiting {
    // Returns the state of which no part was told: that of a new generator.
    pub(crate) fn new(alloc: Global) -> Waiting
        ensures { result ≡ unbegun }
    {
        Waiting {
            state: GeneratorState {
                is_open: false,
                at: 0,
                held: None,
                low: None,
                return_addresses: ArrayVec::new(),
                x: 0,
                y: 0,
                scale: 0,
            },
            strokes: Vec::new(alloc),
        }
    }

    // Takes the part that `word` is. Returns the reply. Strokes take memory of `alloc`.
    pub(crate) fn take(&mut self, alloc: Global, word: u64) -> Reply
        ensures { TakesPart (part_in word) self.old self.new result }
    {
        match StatePart::of(word) {
            Some(
                StatePart::Fields {
                    is_open,
                    at,
                    held,
                    low,
                    scale,
                },
            ) => {
                *self = Waiting::new(alloc);
                self.state.is_open = is_open;
                self.state.at = at;
                self.state.held = held;
                self.state.low = low;
                self.state.scale = scale;
                TAKEN
            }
            Some(StatePart::ReturnAddress(address)) => self.take_return_address(address),
            Some(StatePart::Place(x, y)) => {
                self.state.x = x;
                self.state.y = y;
                TAKEN
            }
            Some(StatePart::Line(x, y, z)) => self.take_line(x, y, z),
            None => Reply::NoState,
        }
    }

    // Takes one more return address.
    fn take_return_address(&mut self, address: u16) -> Reply
        ensures { TakesPart (Some (ReturnAddress address)) self.old self.new result }
    {
        match self.state.return_addresses.try_push(address) {
            Ok(()) => TAKEN,
            Err(_) => Reply::NoState,
        }
    }

    // Takes one more stroke, from the place to `x` and `y`, with the intensity `z`.
    fn take_line(&mut self, x: u32, y: u32, z: u8) -> Reply
        ensures { TakesPart (Some (Line x y z)) self.old self.new result }
    {
        let stroke = Stroke {
            x0: self.state.x,
            y0: self.state.y,
            x1: x,
            y1: y,
            z,
        };
        if !stroke.is_valid() {
            return Reply::NoState;
        }
        match self.strokes.push(stroke) {
            Ok(()) => TAKEN,
            Err(_) => Reply::NoMemory,
        }
    }

    // Takes the state and the strokes that were told, and forgets them.
    pub(crate) fn take_told(&mut self, alloc: Global) -> (GeneratorState, Vec<Stroke>)
        ensures told { self.old ≡ machine_of result.0 result.1.items [] }
        ensures strokes { All IsStroke result.1.items }
        ensures forgotten { self.new ≡ unbegun }
    {
        let Waiting { state, strokes } = mem::replace(self, Waiting::new(alloc));
        (state, strokes)
    }

    // Returns a generator in this state, and forgets the state, where a generator can be in it.
    // Otherwise it returns `None`, and nothing has changed.
    pub(crate) fn generator(&mut self, alloc: Global) -> Option<Generator<Global>>
        ensures { MatchOption result ((CanStand self.old → ⊥) × (self.new ≡ self.old))
            (λ generator. CanStand self.old × (self.old.picture ≡ []) × (generator ≡ self.old)
            × (self.new ≡ unbegun)) }
    {
        if !self.state.is_valid() {
            return None;
        }
        let (state, strokes) = self.take_told(alloc);
        let mut generator = Generator::new(alloc);
        match generator.resume(&state, strokes) {
            Ok(()) => Some(generator),
            Err(_) => unreachable!(),
        }
    }

    // Returns a generator whose stack wraps in this state, and forgets the state, where such a one
    // can be in it. Otherwise it returns `None`, and nothing has changed.
    pub(crate) fn wrapping(&mut self, alloc: Global) -> Option<WrappingGenerator<Global>>
        ensures { MatchOption result ((CanWrap self.old → ⊥) × (self.new ≡ self.old))
            (λ generator. CanWrap self.old × (self.old.picture ≡ [])
            × (generator ≡ wrapping_of self.old) × (self.new ≡ unbegun)) }
    {
        if !self.state.return_addresses.is_full() || !self.state.is_valid() {
            return None;
        }
        let (state, strokes) = self.take_told(alloc);
        let mut wrapping = WrappingGenerator::new(alloc);
        match wrapping.resume(&state, strokes) {
            Ok(()) => Some(wrapping),
            Err(_) => unreachable!(),
        }
    }
}
