//! The engine `render`.
ghost use Rattle.std.specs.Prelude.{All, IfOk};
ghost use Rattle.dvg_io.specs.Faults.{ComesBeforeText};
ghost use Rattle.dvg_io.specs.Serving.{AreFresh, Serves};
ghost use Rattle.dvg_lay.specs.DrawnSketches.{Draws, DrawsSketch, shown};
ghost use Rattle.dvg_blame.specs.Refusals.{IsLent};
ghost use Rattle.dvg_read.specs.declared.draft_text.TheConstants.{MOST_TEXT_BYTES};

use crate::frames::draw_frames;
use crate::making::{Making, SketchEngine};
use dvg_blame::{Refusal, Unlaid};
use dvg_code::OutOfMemory;
use dvg_gen::Stroke;
use dvg_io::{StreamFailed, ToolFault, Watched, serve};
use dvg_job::Show;
use dvg_named::{NamedFrame, RomName};
use dvg_svg::write_svgs;
use std::alloc::Allocator;
use std::io::{Read, Write};

/// What came of drawing a sketch: the pictures of its frames, in order, as the strokes of each, in
/// the order drawn. Or why a frame is refused.
pub type SketchPictures<A> = Result<Vec<Vec<Stroke, A>, A>, Refusal<A>>;

// Draws `frames` over the ROM of `bytes`, whose names are `names`, or returns why a frame is
// refused. Returns `OutOfMemory` where an allocation fails.
fn draw<A: Allocator + Copy>(
    alloc: A,
    bytes: &[u8],
    names: &[RomName],
    frames: &[NamedFrame],
) -> Result<SketchPictures<A>, OutOfMemory>
    requires { All IsLent frames.now }
    ensures { IfOk result (DrawsSketch bytes.now names.now frames.now) }
{
    match draw_frames(alloc, bytes, names, frames) {
        Ok(pictures) => Ok(Ok(pictures)),
        Err(Unlaid::Refused(refusal)) => Ok(Err(refusal)),
        Err(Unlaid::Memory) => Err(OutOfMemory),
    }
}

// What comes of drawing frames, and how that is shown.
#[derive(Drop)]
struct SvgMaking {
    show: Show,
}

impl<A: Allocator + Copy> Making<A> for SvgMaking {
    type Made = SketchPictures<A>;

    ghost Comes = { λ drawing. DrawsSketch };

    ghost text = { λ drawing. shown drawing.show };

    fn make(
        &self,
        alloc: A,
        bytes: &[u8],
        names: &[RomName],
        frames: &[NamedFrame],
    ) -> Result<SketchPictures<A>, OutOfMemory> {
        draw(alloc, bytes, names, frames)
    }

    fn write<W: Write>(
        &self,
        drawn: &SketchPictures<A>,
        writer: &mut Watched<W>,
    ) -> Result<(), StreamFailed> {
        match drawn {
            Ok(pictures) => write_svgs(self.show, pictures.as_slice(), writer),
            Err(_) => Ok(()),
        }
    }
}

/// Reads a sketch as text from `reader`: a draft with names, of one or more frames and with
/// operations of the ROM. Writes the pictures of its frames to `writer` as one SVG, in which they
/// are shown in turn, in the size and at the rate of `show`. Returns the pictures, or why a frame
/// is refused; of a refused one nothing is written (the formats are this project's own choice).
///
/// - A fault of the text: that of the first line at fault. `TooLong`, the text has more than
///   `MOST_TEXT_BYTES`, of which one more at most is taken, comes before all others, and
///   `UnknownName` after them.
/// - `Reader`, `Writer`: that stream failed. After `Writer` a beginning of the text went out.
/// - `Memory`: an allocation failed.
///
/// Where it stops before it writes, which is at any fault but `Writer`, the writer is as it was.
#[inline(never)]
pub fn draw_sketch<A: Allocator + Copy, R: Read, W: Write>(
    alloc: A,
    reader: &mut Watched<R>,
    writer: &mut Watched<W>,
    show: Show,
) -> Result<SketchPictures<A>, ToolFault>
    requires fresh { AreFresh reader.old writer.old }
    ensures { Serves R.remaining W.contents MOST_TEXT_BYTES ComesBeforeText (Draws show)
        result reader.old reader.new writer.old writer.new }
{
    let engine = SketchEngine {
        making: SvgMaking { show },
    };
    serve(&engine, alloc, reader, writer)
}
