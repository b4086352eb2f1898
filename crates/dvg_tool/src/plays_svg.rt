//! The engine of `play --svg`.
ghost use Rattle.std.specs.Prelude.{◌≡◌, ℕ, List, map, IfErr, IfOk};
ghost use Rattle.dvg_mem.specs.Memory.{IsRom};
ghost use Rattle.dvg_io.specs.Faults.{ComesBeforeText};
ghost use Rattle.dvg_io.specs.Serving.{AreFresh, Serves};
ghost use Rattle.dvg_svg.specs.Svg.{strokes_of, svgs_text};
ghost use Rattle.dvg_read.specs.TraceGives.{GivesTrace};
ghost use Rattle.dvg_read.specs.TraceTexts.{HasTraceFault};
ghost use Rattle.dvg_tool.specs.PlaysSvg.{PlaysSvg, ShowsPictures};
ghost use Rattle.dvg_read.specs.declared.draft_text.TheConstants.{MOST_TEXT_BYTES};

use crate::plays_pictures::draw_text;
use dvg_gen::Stroke;
use dvg_io::{Engine, StreamFailed, ToolFault, Watched, serve};
use dvg_job::Show;
use dvg_mem::Store;
use dvg_read::{MOST_TEXT_BYTES, TraceText, Unread, read_trace};
use dvg_svg::write_svgs;
use dvg_world::Picture;
use std::alloc::Allocator;
use std::io::{Read, Write};
use std::marker::PhantomData;

// Returns the strokes of each of `pictures`. Returns `Memory` where an allocation fails.
fn collect_strokes<A: Allocator + Copy>(
    alloc: A,
    pictures: Vec<Picture<A>, A>,
) -> Result<Vec<Vec<Stroke, A>, A>, Unread>
    ensures strokes { IfOk result (λ strokes.
        strokes_of strokes.items ≡ map (λ picture. picture.strokes.items) pictures.items) }
    ensures fault { IfErr result (λ fault. fault ≡ Unread.Memory) }
{
    let mut strokes = Vec::new(alloc);
    for picture in pictures {
        if strokes.push(picture.strokes).is_err() {
            return Err(Unread::Memory);
        }
    }
    Ok(strokes)
}

// Runs the events of `trace`, and returns the strokes of the runs that finished. Returns `Memory`
// where an allocation fails.
fn draw_whole<S: Store>(
    alloc: S::Alloc,
    trace: &TraceText<S::Alloc>,
) -> Result<Vec<Vec<Stroke, S::Alloc>, S::Alloc>, Unread>
    requires { IsRom trace.now.rom.items }
    ensures pictures { IfOk result (λ pictures. (text : List ℕ)
        → GivesTrace text trace.now.events trace.now.rom.items
        → ShowsPictures text (strokes_of pictures.items)) }
    ensures fault { IfErr result (λ fault. fault ≡ Unread.Memory) }
{
    let drawn = draw_text::<S>(alloc, trace);
    if !drawn.is_whole {
        return Err(Unread::Memory);
    }
    collect_strokes(alloc, drawn.pictures)
}

// The engine that finds the pictures of a trace, over a RAM that is kept in a store.
#[derive(Drop)]
struct SvgEngine<S> {
    show: Show,
    store: PhantomData<S>,
}

impl<S: Store> Engine<S::Alloc> for SvgEngine<S> {
    type Found = Vec<Vec<Stroke, S::Alloc>, S::Alloc>;

    const MOST: u32 = MOST_TEXT_BYTES as u32;

    ghost MOST = { MOST_TEXT_BYTES };

    ghost Finds = { λ engine input pictures. ShowsPictures input (strokes_of pictures.items) };

    ghost HasFault = { λ engine. HasTraceFault };

    ghost text = { λ engine pictures. svgs_text engine.show (strokes_of pictures.items) };

    fn find(&self, alloc: S::Alloc, read: &[u8]) -> Result<Self::Found, Unread> {
        let trace = read_trace(alloc, read)?;
        draw_whole::<S>(alloc, &trace)
    }

    fn write<W: Write>(
        &self,
        pictures: &Self::Found,
        writer: &mut Watched<W>,
    ) -> Result<(), StreamFailed> {
        write_svgs(self.show, pictures.as_slice(), writer)
    }
}

/// Reads a trace as text from `reader` and runs its events as `play` does. Writes the pictures of
/// all runs that finished to `writer` as one SVG, in which they are shown in turn, in the size and
/// at the rate of `show` (the text is this project's own choice).
///
/// - `TooLong`, `Syntax`, `Full`, `Many`, `Unended`: as `play_in` says.
/// - `Reader`, `Writer`: that stream failed. After `Writer` a beginning of the text went out.
/// - `Memory`: an allocation failed.
///
/// Where it stops before it writes, which is at any fault but `Writer`, the writer is as it was.
///
/// The RAM is kept in any store. All of this holds whichever it is, so what is written doesn't
/// depend on it.
#[inline(never)]
pub(crate) fn play_svg_in<S: Store, R: Read, W: Write>(
    alloc: S::Alloc,
    reader: &mut Watched<R>,
    writer: &mut Watched<W>,
    show: Show,
) -> Result<(), ToolFault>
    requires fresh { AreFresh reader.old writer.old }
    ensures { Serves R.remaining W.contents MOST_TEXT_BYTES ComesBeforeText (PlaysSvg show)
        result reader.old reader.new writer.old writer.new }
{
    let engine = SvgEngine::<S> {
        show,
        store: PhantomData,
    };
    serve(&engine, alloc, reader, writer)?;
    Ok(())
}
