//! What is written of a run.
ghost use Rattle.std.specs.Prelude.{◌≡◌, ◌++◌, [], cond, flat_map};
ghost use Rattle.dvg_gen.specs.Moving.{seen};
ghost use Rattle.dvg_dump.specs.Endings.{end_of};
ghost use Rattle.dvg_dump.specs.Ends.{Complete};
ghost use Rattle.dvg_io.specs.Watching.{Writes};
ghost use Rattle.dvg_print.specs.Shows.{stroke_line};
ghost use Rattle.dvg_dump.specs.Units.{moves_ahead, setting_out};
ghost use Rattle.dvg_picture.specs.Texts.{end_text, ran_text, recorded_text};

use crate::moves::write_moves;
use dvg_dump::{Ending, Ran, Traced};
use dvg_gen::Stroke;
use dvg_io::{StreamFailed, Watched, write_strokes, write_strokes_in, write_whole};
use dvg_job::PictureForm;
use dvg_print::{InstrLine, Line, StrokeLines};
use std::alloc::Allocator;
use std::io::Write;

// Writes `line` to `writer`, and after it a line for each of `strokes`. These are made in `lines`.
fn write_with_strokes<W: Write>(
    line: &[u8],
    lines: &mut StrokeLines,
    strokes: &[Stroke],
    writer: &mut Watched<W>,
) -> Result<(), StreamFailed>
    ensures { Writes W.contents (line.now ++ flat_map stroke_line strokes.now)
        result writer.old writer.new }
{
    write_whole(writer, line)?;
    write_strokes_in(lines, strokes, writer)
}

// Writes the lines of `ran`, an instruction that was run, to `writer`. They are made in `line` and
// `lines`.
fn write_ran<W: Write>(
    line: &mut InstrLine,
    lines: &mut StrokeLines,
    ran: &Ran,
    writer: &mut Watched<W>,
) -> Result<(), StreamFailed>
    ensures { Writes W.contents (ran_text ran.now) result writer.old writer.new }
{
    line.become_instruction(ran.address, &ran.code, ran.canonical, &ran.beam);
    write_with_strokes(line.as_bytes(), lines, ran.stroke.as_slice(), writer)
}

// Writes the lines of `trace`, the instructions that were run, to `writer`.
fn write_trace<W: Write>(trace: &[Ran], writer: &mut Watched<W>) -> Result<(), StreamFailed>
    ensures { Writes W.contents (flat_map ran_text trace.now) result writer.old writer.new }
{
    let mut line = InstrLine::new();
    let mut lines = StrokeLines::new();
    for ran in trace {
        write_ran(&mut line, &mut lines, ran, writer)?;
    }
    Ok(())
}

// Writes the lines of `strokes`, which a run drew, to `writer`, or with `units` those of the
// strokes of `trace`, its instructions, in whole units. These may be made in `line`.
fn write_drawn<W: Write>(
    line: &mut Line,
    trace: &[Ran],
    strokes: &[Stroke],
    units: bool,
    writer: &mut Watched<W>,
) -> Result<(), StreamFailed>
    ensures { Writes W.contents
        (flat_map stroke_line
        (cond units (seen (moves_ahead (setting_out units) trace.now)) strokes.now))
        result writer.old writer.new }
{
    if units {
        write_moves(line, trace, true, true, writer)
    } else {
        write_strokes(strokes, writer)
    }
}

// Writes the line of a picture of so many `words` to `writer`, and the lines of `strokes`, as
// `write_drawn` does. They may be made in `line`.
fn write_picture<W: Write>(
    line: &mut Line,
    words: u32,
    trace: &[Ran],
    strokes: &[Stroke],
    units: bool,
    writer: &mut Watched<W>,
) -> Result<(), StreamFailed>
    ensures { Writes W.contents (end_text units (moves_ahead (setting_out units) trace.now)
        (Complete words strokes.now)) result writer.old writer.new }
{
    line.become_picture(words as usize, strokes.len());
    write_whole(writer, line.as_bytes())?;
    write_drawn(line, trace, strokes, units, writer)
}

// Writes how `run` ends to `writer`, with `units` in whole units. The lines are made in `line`.
fn write_end<A: Allocator, W: Write>(
    line: &mut Line,
    run: &Traced<A>,
    units: bool,
    writer: &mut Watched<W>,
) -> Result<(), StreamFailed>
    ensures { Writes W.contents
        (end_text units (moves_ahead (setting_out units) run.now.ran.items) (end_of run.now.ending))
        result writer.old writer.new }
{
    match &run.ending {
        Ending::Finished { words, strokes } => {
            let trace = run.ran.as_slice();
            write_picture(line, *words, trace, strokes.as_slice(), units, writer)
        }
        Ending::Broke { address, fault } => {
            line.become_broke(*address, *fault);
            write_whole(writer, line.as_bytes())
        }
        Ending::Endless => {
            line.become_endless();
            write_whole(writer, line.as_bytes())
        }
    }
}

// Returns `ran` where it is `asked` for, else nothing.
fn if_asked(asked: bool, ran: &[Ran]) -> &[Ran]
    ensures { result.now ≡ cond asked ran.now [] }
{
    if asked { ran } else { &[] }
}

/// Writes what `form` asks for of `run`, and how it ends, to `writer`.
pub(crate) fn write_run<A: Allocator, W: Write>(
    run: &Traced<A>,
    form: PictureForm,
    writer: &mut Watched<W>,
) -> Result<(), StreamFailed>
    ensures { Writes W.contents (recorded_text form run.now.ran.items (end_of run.now.ending))
        result writer.old writer.new }
{
    let mut line = Line::new();
    let ran = run.ran.as_slice();
    write_trace(if_asked(form.all, ran), writer)?;
    write_moves(
        &mut line,
        if_asked(form.moves, ran),
        form.units,
        false,
        writer,
    )?;
    write_end(&mut line, run, form.units, writer)
}
