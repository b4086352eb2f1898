//! What is written of entries.
ghost use Rattle.std.specs.Prelude.{◌≡◌, ◌+◌, ◌-◌, ◌^◌, ◌<◌, ◌≤◌, length, replicate, true};
ghost use Rattle.std.specs.Prelude.{IsTrue, OnOk};
ghost use Rattle.dvg_log.specs.Entries.{map_entry};
ghost use Rattle.dvg_print.specs.Shows.{entry_line, shown, shown_entry};
ghost use Rattle.dvg_io.specs.Watching.{Writes};
ghost use Rattle.dvg_world.specs.Keeping.{entry_in, strokes_in};

use dvg_gen::Stroke;
use dvg_io::{StreamFailed, Watched, write_strokes, write_whole};
use dvg_log::Entry;
use dvg_print::EntryLines;
use dvg_world::{Entries, EntryRun};
use std::alloc::Allocator;
use std::io::Write;

// Makes the line of the next entry, `entry`, in `lines`. `drew` is how many strokes the run drew,
// if `entry` finished one. With `again` the line there is that of an equal entry before it.
#[inline(always)]
fn make_line(lines: &mut EntryLines, entry: &Entry<()>, drew: usize, again: bool)
    requires next { lines.old.next + 1 < 2 ^ 64 }
    requires equal { IsTrue again → lines.old.text
        ≡ entry_line (lines.old.next - 1) (map_entry (λ _. drew) entry.now) }
    ensures text { lines.new.text ≡ entry_line lines.old.next (map_entry (λ _. drew) entry.now) }
    ensures next { lines.new.next ≡ lines.old.next + 1 }
{
    if again {
        lines.become_again(entry, drew);
    } else {
        lines.become_next(entry, drew);
    }
}

// Writes what is shown of the next entry, `entry`, to `writer`. `strokes` are what its run drew, if
// it finished. The line is made in `lines`, where with `again` that of an equal entry before it is.
#[inline(always)]
fn write_next<W: Write>(
    lines: &mut EntryLines,
    entry: &Entry<()>,
    strokes: &[Stroke],
    again: bool,
    writer: &mut Watched<W>,
) -> Result<(), StreamFailed>
    requires next { lines.old.next + 1 < 2 ^ 64 }
    requires drawn { strokes.now ≡ strokes_in (map_entry (λ _. strokes.now) entry.now) }
    requires equal { IsTrue again → lines.old.text
        ≡ entry_line (lines.old.next - 1) (map_entry (λ _. length strokes.now) entry.now) }
    ensures written { Writes W.contents
        (shown_entry true lines.old.next (map_entry (λ _. strokes.now) entry.now))
        result writer.old writer.new }
    ensures text { lines.new.text
        ≡ entry_line lines.old.next (map_entry (λ _. length strokes.now) entry.now) }
    ensures next { lines.new.next ≡ lines.old.next + 1 }
{
    make_line(lines, entry, strokes.len(), again);
    write_whole(writer, lines.as_bytes())?;
    if strokes.is_empty() {
        return Ok(());
    }
    write_strokes(strokes, writer)
}

// Writes what is shown of the entries of `run` but the first one, whose line is in `lines`, to
// `writer`. It isn't inlined, as what writes other entries is faster without it.
#[inline(never)]
fn write_others<W: Write>(
    lines: &mut EntryLines,
    run: EntryRun<'_>,
    writer: &mut Watched<W>,
) -> Result<(), StreamFailed>
    requires some { 1 ≤ run.times }
    requires next { lines.old.next + (run.times - 1) < 2 ^ 64 }
    requires drawn { run.strokes.now ≡ strokes_in (entry_in run) }
    requires equal { lines.old.text ≡ entry_line (lines.old.next - 1)
        (map_entry (λ _. length run.strokes.now) run.entry.now) }
    ensures written { Writes W.contents
        (shown true lines.old.next (replicate (run.entry.times - 1) (entry_in run.entry)))
        result writer.old writer.new }
    ensures next { OnOk result (lines.new.next ≡ lines.old.next + (run.entry.times - 1)) }
{
    for _again in 1..run.times {
        write_next(lines, run.entry, run.strokes, true, writer)?;
    }
    Ok(())
}

// Writes what is shown of the next entries, which are `run`, equal ones in a row, to `writer`.
// Their lines are made in `lines`.
fn write_run<W: Write>(
    lines: &mut EntryLines,
    run: EntryRun<'_>,
    writer: &mut Watched<W>,
) -> Result<(), StreamFailed>
    requires some { 1 ≤ run.times }
    requires next { lines.old.next + run.times < 2 ^ 64 }
    requires drawn { run.strokes.now ≡ strokes_in (entry_in run) }
    ensures written { Writes W.contents
        (shown true lines.old.next (replicate run.entry.times (entry_in run.entry)))
        result writer.old writer.new }
    ensures next { OnOk result (lines.new.next ≡ lines.old.next + run.entry.times) }
{
    write_next(lines, run.entry, run.strokes, false, writer)?;
    if run.times == 1 {
        return Ok(());
    }
    write_others(lines, run, writer)
}

/// Writes what is shown of each of `entries` to `writer`. The first of them is that of event 0.
/// Each line is handed to `writer` by itself, which is tested.
pub fn write_entries<A: Allocator, W: Write>(
    entries: &Entries<A>,
    writer: &mut Watched<W>,
) -> Result<(), StreamFailed>
    ensures { Writes W.contents (shown true 0 entries.now) result writer.old writer.new }
{
    let mut lines = EntryLines::new(0);
    for run in entries.runs() {
        write_run(&mut lines, run, writer)?;
    }
    Ok(())
}
