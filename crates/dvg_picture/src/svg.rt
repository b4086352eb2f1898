//! The engine `picture_svg`.
ghost use Rattle.std.specs.Prelude.{◌≡◌, IfErr, IfOk, option_map};
ghost use Rattle.dvg_io.specs.Faults.{ComesBeforeText};
ghost use Rattle.dvg_io.specs.Serving.{AreFresh, Serves};
ghost use Rattle.dvg_io.specs.Watching.{Writes};
ghost use Rattle.dvg_picture.specs.Pictures.{HasDumpFault, IsDumpFault};
ghost use Rattle.dvg_picture.specs.Svgs.{DrawsDump, DrawsSvg, run_svg, strokes_of};
ghost use Rattle.dvg_dump.specs.declared.dump.TheConstants.{LARGE_DUMP_BYTES};

use crate::engine::run_dump;
use crate::undrawn::{Undrawn, reason_line, undrawn_by};
use dvg_code::OutOfMemory;
use dvg_dump::{LARGE_DUMP_BYTES, Ran};
use dvg_gen::Stroke;
use dvg_io::{Engine, StreamFailed, ToolFault, Watched, serve};
use dvg_read::Unread;
use dvg_svg::write_svg;
use std::alloc::Allocator;
use std::io::{Read, Write};

// What a run drew, and why that is no picture, if it isn't.
#[derive(Drop)]
struct DumpPicture<A: Allocator> {
    strokes: Vec<Stroke, A>,
    undrawn: Option<Undrawn>,
}

// Returns the strokes of `trace`, the instructions that were run. Returns `OutOfMemory` where an
// allocation fails.
fn collect_strokes<A: Allocator>(alloc: A, trace: &[Ran]) -> Result<Vec<Stroke, A>, OutOfMemory>
    ensures { IfOk result (λ strokes. strokes.items ≡ strokes_of trace.now) }
{
    let mut strokes = Vec::new(alloc);
    for ran in trace {
        if let Some(stroke) = ran.stroke {
            strokes.push(stroke)?;
        }
    }
    Ok(strokes)
}

// Returns what the run over the dump `bytes` draws.
fn draw_dump<A: Allocator + Copy>(alloc: A, bytes: &[u8]) -> Result<DumpPicture<A>, Unread>
    ensures drawn { IfOk result (λ drawn. DrawsDump bytes.now drawn.strokes.items drawn.undrawn) }
    ensures fault { IfErr result (IsDumpFault bytes.now) }
{
    let run = run_dump(alloc, bytes, true)?;
    let Ok(strokes) = collect_strokes(alloc, run.ran.as_slice()) else {
        return Err(Unread::Memory);
    };
    Ok(DumpPicture {
        strokes,
        undrawn: undrawn_by(&run.ending),
    })
}

// Writes `strokes`, which a run drew, to `writer`, in the size `percent`. `undrawn` says why they
// are no picture, if they aren't.
fn write_drawn<W: Write>(
    percent: u16,
    strokes: &[Stroke],
    undrawn: Option<Undrawn>,
    writer: &mut Watched<W>,
) -> Result<(), StreamFailed>
    ensures { Writes W.contents (run_svg percent undrawn strokes.now)
        result writer.old writer.new }
{
    match undrawn {
        Some(undrawn) => {
            let line = reason_line(undrawn);
            let text = line.as_bytes();
            write_svg(percent, Some(&text[..text.len() - 1]), strokes, writer)
        }
        None => write_svg(percent, None, strokes, writer),
    }
}

// The engine that finds what the run over a dump draws.
#[derive(Drop)]
struct DumpSvgEngine {
    percent: u16,
}

impl<A: Allocator + Copy> Engine<A> for DumpSvgEngine {
    type Found = DumpPicture<A>;

    const MOST: u32 = LARGE_DUMP_BYTES as u32;

    ghost MOST = { LARGE_DUMP_BYTES };

    ghost Finds = { λ engine input drawn. DrawsDump input drawn.strokes.items drawn.undrawn };

    ghost HasFault = { λ engine. HasDumpFault };

    ghost text = { λ engine drawn. run_svg engine.percent drawn.undrawn drawn.strokes.items };

    fn find(&self, alloc: A, read: &[u8]) -> Result<DumpPicture<A>, Unread> {
        draw_dump(alloc, read)
    }

    fn write<W: Write>(
        &self,
        drawn: &DumpPicture<A>,
        writer: &mut Watched<W>,
    ) -> Result<(), StreamFailed> {
        write_drawn(
            self.percent,
            drawn.strokes.as_slice(),
            drawn.undrawn,
            writer,
        )
    }
}

/// Reads a dump of vector memory from `reader` as `picture` does, and writes what its run draws to
/// `writer` as SVG, in the size `percent`. These are all strokes of a picture. Of a run that breaks
/// or isn't known to end within 65,536 words they are the strokes up to there. Returns why it drew
/// no picture, if it didn't; that is the title, too (the text is this project's own choice).
///
/// - `DumpSize`: the input has so many bytes, up to 6,144, and neither 4,096 nor 6,144.
/// - `LongDump`: it has more than 6,144, of which no more than 6,145 are taken.
/// - `Reader`, `Writer`: that stream failed. After `Writer` a beginning of the text went out.
/// - `Memory`: an allocation failed.
///
/// Where it stops before it writes, which is at any fault but `Writer`, the writer is as it was.
#[inline(never)]
pub fn picture_svg<A: Allocator + Copy, R: Read, W: Write>(
    alloc: A,
    reader: &mut Watched<R>,
    writer: &mut Watched<W>,
    percent: u16,
) -> Result<Option<Undrawn>, ToolFault>
    requires fresh { AreFresh reader.old writer.old }
    ensures { Serves R.remaining W.contents LARGE_DUMP_BYTES ComesBeforeText (DrawsSvg percent)
        result reader.old reader.new writer.old writer.new }
{
    let drawn = serve(&DumpSvgEngine { percent }, alloc, reader, writer)?;
    Ok(drawn.undrawn)
}
