//! Texts that are written in parts.
ghost use Rattle.dvg_io.specs.Watching.{Writes};
ghost use Rattle.dvg_svg.specs.Parts.{joined};

use dvg_io::{StreamFailed, Watched, write_whole};
use std::io::Write;

/// Writes `parts` to `writer`, one after the other.
pub(crate) fn write_parts<W: Write>(
    parts: &[&[u8]],
    writer: &mut Watched<W>,
) -> Result<(), StreamFailed>
    ensures { Writes W.contents (joined parts.now) result writer.old writer.new }
{
    for part in parts {
        write_whole(writer, part)?;
    }
    Ok(())
}
