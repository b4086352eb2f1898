//! The engine `lay`.
ghost use Rattle.dvg_io.specs.Faults.{ComesBeforeText};
ghost use Rattle.dvg_io.specs.Serving.{AreFresh, Serves};
ghost use Rattle.dvg_lay.specs.Forms.{IsLaid, shown};
ghost use Rattle.dvg_lay.specs.Sketches.{Lays};
ghost use Rattle.dvg_read.specs.declared.draft_text.TheConstants.{MOST_TEXT_BYTES};

use crate::form::{Laid, lay};
use crate::making::{Making, SketchEngine};
use dvg_code::OutOfMemory;
use dvg_io::{StreamFailed, ToolFault, Watched, serve, write_lines, write_whole};
use dvg_job::LayForm;
use dvg_named::{NamedFrame, RomName};
use std::alloc::Allocator;
use std::io::{Read, Write};

// What comes of laying frames out in a form.
#[derive(Drop)]
struct Laying {
    form: LayForm,
}

impl<A: Allocator + Copy> Making<A> for Laying {
    type Made = Laid<A>;

    ghost Comes = { λ laying. IsLaid laying.form };

    ghost text = { λ laying. shown };

    fn make(
        &self,
        alloc: A,
        bytes: &[u8],
        names: &[RomName],
        frames: &[NamedFrame],
    ) -> Result<Laid<A>, OutOfMemory> {
        lay(alloc, bytes, names, frames, self.form)
    }

    fn write<W: Write>(&self, laid: &Laid<A>, writer: &mut Watched<W>) -> Result<(), StreamFailed> {
        let Ok(text) = laid else { return Ok(()) };
        match self.form {
            LayForm::Bytes(_) | LayForm::Rom => write_whole(writer, text.as_slice()),
            LayForm::Table | LayForm::Equates | LayForm::Draft => write_lines(
                writer,
                text.as_slice(),
            ),
        }
    }
}

/// Reads a sketch as text from `reader`: a draft with names, of one or more frames and with
/// operations of the ROM. Lays it out in this `form`, and writes that to `writer`. Returns what was
/// laid out, or why a frame is refused: then nothing is written (the format is this project's own
/// choice).
///
/// - A fault of the text: that of the first line with a mistake. `TooLong` (more than
///   `MOST_TEXT_BYTES`, of which at most one more is taken) comes before all others, and
///   `UnknownName` after them.
/// - `Reader`, `Writer`: that stream failed. After `Writer` a beginning of the text went out.
/// - `Memory`: an allocation failed.
///
/// Where it stops before it writes, which is at any fault but `Writer`, the writer is as it was.
#[inline(never)]
pub fn lay_sketch<A: Allocator + Copy, R: Read, W: Write>(
    alloc: A,
    reader: &mut Watched<R>,
    writer: &mut Watched<W>,
    form: LayForm,
) -> Result<Laid<A>, ToolFault>
    requires fresh { AreFresh reader.old writer.old }
    ensures { Serves R.remaining W.contents MOST_TEXT_BYTES ComesBeforeText (Lays form)
        result reader.old reader.new writer.old writer.new }
{
    let engine = SketchEngine {
        making: Laying { form },
    };
    serve(&engine, alloc, reader, writer)
}
