//! What follows from the contract of `play`.
ghost use Rattle.std.specs.Prelude.{◌≡◌, IsTrue, Some};
ghost use Rattle.std.specs.Io.KnownBytes.{Appends};
ghost use Rattle.test_facts.specs.Facts.{peek_line, tick_text};
ghost use Rattle.dvg_io.specs.Watching.{failures_of, stream_of};

use dvg_tool::{Watched, play};
use std::alloc::Global;
use std::io::{Read, Write};

/// With a `reader` that has the text `tick`, `play --all` writes the line `0 peek` to `writer` and
/// nothing else, where it succeeds.
pub fn plays_a_tick<R: Read, W: Write>(
    alloc: Global,
    reader: &mut Watched<R>,
    writer: &mut Watched<W>,
) -> bool
    requires fresh_reader { failures_of reader.old ≡ 0 }
    requires fresh_writer { failures_of writer.old ≡ 0 }
    requires text { R.remaining (stream_of reader.old) ≡ Some tick_text }
    ensures { IsTrue result → Appends (W.contents (stream_of writer.old))
        (W.contents (stream_of writer.new)) peek_line }
{
    match play(alloc, reader, writer, true) {
        Ok(()) => true,
        Err(_) => false,
    }
}
