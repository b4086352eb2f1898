//! A generator's state as a plain value. A generator is saved without its strokes, and resumed with
//! them: so each clause goes on after the same history.
ghost use Rattle.std.specs.Prelude.{◌≡◌, ◌↔◌, IfSome, IsNone, IsTrue};
ghost use Rattle.dvg_gen.specs.Saved.{CanResume, IsState};

use crate::STACK_DEPTH;
use crate::stroke::Stroke;
use arrayvec::ArrayVec;
use std::alloc::{Allocator, Global};
use thiserror::Error;

/// All that a generator keeps but its strokes, as a value that can be stored anywhere. Its fields
/// may hold anything: `is_valid` tells whether a generator can be in it. A `WrappingGenerator` can
/// where there are four return addresses, too: its registers.
#[derive(Debug, Drop)]
pub struct GeneratorState {
    /// Whether a run is open.
    pub is_open: bool,
    /// The address of the next word, below 4,096.
    pub at: u16,
    /// The first word of the next word's instruction, if it was fetched. Its opcode is 0 to A.
    pub held: Option<u16>,
    /// The low byte of the next word, if it was fetched. `None` where no run is open.
    pub low: Option<u8>,
    /// The return addresses, the newest last, below 4,096 each.
    pub return_addresses: ArrayVec<u16, STACK_DEPTH>,
    /// The beam's position along x, in 1/512 of a screen unit, below 2,097,152.
    pub x: u32,
    /// The beam's position along y, below 2,097,152.
    pub y: u32,
    /// The global scale, 0 to 15.
    pub scale: u8,
}

impl GeneratorState {
    /// Returns whether a generator can be in this state: each field is in the range that stands at
    /// it.
    pub fn is_valid(&self) -> bool
        ensures { IsTrue result ↔ IsState self.now }
    {
        self.at < 4096
            && self.held.is_none_or(|word| word < 0xB000)
            && (self.low.is_none() || self.is_open)
            && self.return_addresses.iter().all(|address| *address < 4096)
            && self.x < 2_097_152
            && self.y < 2_097_152
            && self.scale < 16
    }

    /// Returns why no generator goes on in this state, with `strokes` as what its run drew so far:
    /// `Fields` exactly where the state isn't valid, otherwise `Stroke` exactly where one of
    /// `strokes` isn't. `None` means that one can.
    pub fn fault_with(&self, strokes: &[Stroke]) -> Option<GeneratorStateFault>
        ensures none { IsNone result ↔ CanResume (IsState self.now) strokes.now }
        ensures stroke { IfSome result
            (λ fault. (fault ≡ GeneratorStateFault.Stroke) ↔ IsState self.now) }
    {
        if !self.is_valid() {
            return Some(GeneratorStateFault::Fields);
        }
        if !strokes.iter().all(|stroke| stroke.is_valid()) {
            return Some(GeneratorStateFault::Stroke);
        }
        None
    }
}

/// Why a generator isn't resumed.
#[derive(Clone, Copy, Debug, PartialEq, Eq, Error)]
pub enum GeneratorStateFault {
    /// No generator of this kind can be in that state.
    #[error("no generator can be in that state")]
    Fields,
    /// One of the strokes is none: a place isn't below 2,097,152, or the intensity isn't 1 to 15.
    #[error("a stroke that no generator draws")]
    Stroke,
}

/// A generator wasn't resumed: why, and the strokes that it was to go on with.
#[derive(Debug, Drop)]
pub struct GeneratorRefused<A: Allocator = Global> {
    /// Why it wasn't resumed.
    pub fault: GeneratorStateFault,
    /// What its run was to have drawn so far.
    pub strokes: Vec<Stroke, A>,
}
