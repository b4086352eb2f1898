//! The engine of what is made of a sketch.
ghost use Rattle.std.specs.Prelude.{◌≡◌, ℕ, List, All, IfErr, IfOk};
ghost use Rattle.dvg_io.specs.Watching.{Writes};
ghost use Rattle.dvg_named.specs.ReadSketches.{AreInside, IsReadOf};
ghost use Rattle.dvg_named.specs.SketchFaults.{HasSketchFault};
ghost use Rattle.dvg_named.specs.declared.meaning.NamedFrame.{NamedFrame as HeldFrame};
ghost use Rattle.dvg_named.specs.declared.meaning.RomName.{RomName as HeldName};
ghost use Rattle.dvg_blame.specs.Refusals.{IsLent};
ghost use Rattle.dvg_lay.specs.Sketches.{ComesOf};
ghost use Rattle.dvg_read.specs.declared.draft_text.TheConstants.{MOST_TEXT_BYTES};

use dvg_code::OutOfMemory;
use dvg_io::{Engine, StreamFailed, Watched};
use dvg_named::{NamedFrame, RomName, Sketch, read_sketch};
use dvg_read::{MOST_TEXT_BYTES, Unread};
use std::alloc::Allocator;
use std::io::Write;

/// What is made of a sketch, and written of that.
pub(crate) trait Making<A: Allocator> {
    /// What is made.
    type Made: Drop;

    /// What may be made of frames over a ROM with names.
    ghost Comes: { Self → (R : List ℕ) → List HeldName → List HeldFrame → Self.Made → Type 0 };

    /// The text of what is made.
    ghost text: { Self → Self.Made → List ℕ };

    /// Returns what comes of `frames` over the ROM of `bytes`, whose names are `names`. Returns
    /// `OutOfMemory` where an allocation fails.
    fn make(
        &self,
        alloc: A,
        bytes: &[u8],
        names: &[RomName],
        frames: &[NamedFrame],
    ) -> Result<Self::Made, OutOfMemory>
        requires { All IsLent frames.now }
        ensures { IfOk result (Comes self.now bytes.now names.now frames.now) };

    /// Writes the text of `made` to `writer`.
    fn write<W: Write>(
        &self,
        made: &Self::Made,
        writer: &mut Watched<W>,
    ) -> Result<(), StreamFailed>
        ensures { Writes W.contents (text self.now made.now) result writer.old writer.new };
}

// Returns what `making` makes of `sketch`, which was read. Returns `Memory` where an allocation
// fails.
fn make_read<A: Allocator + Copy, M: Making<A>>(
    making: &M,
    alloc: A,
    sketch: &Sketch<'_, A>,
) -> Result<M::Made, Unread>
    requires inside { AreInside sketch.now }
    requires read { (text : List ℕ) × IsReadOf text sketch.now }
    ensures made { IfOk result (λ made. (text : List ℕ) → IsReadOf text sketch.now
        → ComesOf (M.Comes making.now) text made) }
    ensures fault { IfErr result (λ fault. fault ≡ Unread.Memory) }
{
    let Ok(frames) = sketch.frames(alloc) else {
        return Err(Unread::Memory);
    };
    match making.make(
        alloc,
        sketch.rom.as_slice(),
        sketch.names.as_slice(),
        frames.as_slice(),
    ) {
        Ok(made) => Ok(made),
        Err(_) => Err(Unread::Memory),
    }
}

/// The engine that finds what is made of the sketch of a text.
#[derive(Drop)]
pub(crate) struct SketchEngine<M> {
    pub(crate) making: M,
}

impl<A: Allocator + Copy, M: Making<A>> Engine<A> for SketchEngine<M> {
    type Found = M::Made;

    const MOST: u32 = MOST_TEXT_BYTES as u32;

    ghost MOST = { MOST_TEXT_BYTES };

    ghost Finds = { λ engine. ComesOf (M.Comes engine.making) };

    ghost HasFault = { λ engine. HasSketchFault };

    ghost text = { λ engine. M.text engine.making };

    fn find(&self, alloc: A, read: &[u8]) -> Result<M::Made, Unread> {
        let Ok(small) = read.to_ascii_lowercase(alloc) else {
            return Err(Unread::Memory);
        };
        match read_sketch(alloc, small.as_slice()) {
            Ok(sketch) => make_read(&self.making, alloc, &sketch),
            Err(stop) => Err(stop),
        }
    }

    fn write<W: Write>(&self, made: &M::Made, writer: &mut Watched<W>) -> Result<(), StreamFailed> {
        self.making.write(made, writer)
    }
}
