//! The engine `play` without each entry: the pictures alone.
ghost use Rattle.std.specs.Prelude.{flat_map, map, false};
ghost use Rattle.dvg_mem.specs.Memory.{IsRom};
ghost use Rattle.dvg_world.specs.Kept.{Draws, picture_seen};
ghost use Rattle.dvg_io.specs.Serving.{AreFresh, Serves};
ghost use Rattle.dvg_io.specs.Watching.{Writes};
ghost use Rattle.dvg_read.specs.TraceTexts.{HasTraceFault};
ghost use Rattle.dvg_tool.specs.Plays.{ArePicturesShown, Plays, StopsBeforeShowing, drawn_shown};
ghost use Rattle.dvg_tool.specs.Plays.{picture_text, zeros};
ghost use Rattle.dvg_read.specs.declared.draft_text.TheConstants.{MOST_TEXT_BYTES};

use crate::plays::memory_of;
use dvg_io::{Engine, StreamFailed, ToolFault, Watched, serve, write_strokes, write_whole};
use dvg_mem::Store;
use dvg_print::Line;
use dvg_read::{MOST_TEXT_BYTES, TraceText, Unread, read_trace};
use dvg_world::{Drawn, Picture, draw_trace};
use std::alloc::Allocator;
use std::io::{Read, Write};
use std::marker::PhantomData;

/// Runs the events of `trace` over its ROM, from a RAM of zeros, and keeps the pictures.
pub(crate) fn draw_text<S: Store>(alloc: S::Alloc, trace: &TraceText<S::Alloc>) -> Drawn<S::Alloc>
    requires { IsRom trace.now.rom.items }
    ensures { Draws trace.now.rom.items zeros trace.now.events result }
{
    let Some((rom, image)) = memory_of(alloc, trace) else {
        return Drawn::unstarted(alloc);
    };
    draw_trace::<S>(alloc, rom, &image, &trace.events)
}

// Writes `picture` to `writer`: its line, and one for each of its strokes. The lines are made in
// `line`.
fn write_picture<A: Allocator, W: Write>(
    line: &mut Line,
    picture: &Picture<A>,
    writer: &mut Watched<W>,
) -> Result<(), StreamFailed>
    ensures { Writes W.contents (picture_text (picture_seen picture.now))
        result writer.old writer.new }
{
    line.become_picture(picture.event, picture.strokes.len());
    write_whole(writer, line.as_bytes())?;
    write_strokes(picture.strokes.as_slice(), writer)
}

// Writes `pictures` to `writer`, one after the other.
fn write_pictures<A: Allocator, W: Write>(
    pictures: &[Picture<A>],
    writer: &mut Watched<W>,
) -> Result<(), StreamFailed>
    ensures { Writes W.contents (flat_map picture_text (map picture_seen pictures.now))
        result writer.old writer.new }
{
    let mut line = Line::new();
    for picture in pictures {
        write_picture(&mut line, picture, writer)?;
    }
    Ok(())
}

// The engine that finds the pictures of a trace, over a RAM that is kept in a store.
#[derive(Drop)]
struct PicturesEngine<S> {
    store: PhantomData<S>,
}

impl<S: Store> Engine<S::Alloc> for PicturesEngine<S> {
    type Found = Drawn<S::Alloc>;

    const MOST: u32 = MOST_TEXT_BYTES as u32;

    ghost MOST = { MOST_TEXT_BYTES };

    ghost Finds = { λ engine. ArePicturesShown };

    ghost HasFault = { λ engine. HasTraceFault };

    ghost text = { λ engine. drawn_shown };

    fn find(&self, alloc: S::Alloc, read: &[u8]) -> Result<Self::Found, Unread> {
        let trace = read_trace(alloc, read)?;
        Ok(draw_text::<S>(alloc, &trace))
    }

    fn write<W: Write>(
        &self,
        drawn: &Self::Found,
        writer: &mut Watched<W>,
    ) -> Result<(), StreamFailed> {
        write_pictures(drawn.pictures.as_slice(), writer)
    }
}

/// Plays a trace from `reader`, and writes the pictures to `writer`.
pub(crate) fn play_pictures<S: Store, R: Read, W: Write>(
    alloc: S::Alloc,
    reader: &mut Watched<R>,
    writer: &mut Watched<W>,
) -> Result<(), ToolFault>
    requires fresh { AreFresh reader.old writer.old }
    ensures { Serves R.remaining W.contents MOST_TEXT_BYTES StopsBeforeShowing (Plays false)
        result reader.old reader.new writer.old writer.new }
{
    let engine = PicturesEngine::<S> { store: PhantomData };
    if serve(&engine, alloc, reader, writer)?.is_whole {
        Ok(())
    } else {
        Err(ToolFault::Memory)
    }
}
