//! What the check says of the frames of a sketch: the engine `check_sketch`.
ghost use Rattle.std.specs.Prelude.{◌≡◌, ◌↔◌, ◌++◌, All, IfOk, IsTrue, OnOk};
ghost use Rattle.dvg_frame.specs.Faults.{IsChecked};
ghost use Rattle.dvg_io.specs.Faults.{ComesBeforeText};
ghost use Rattle.dvg_io.specs.Serving.{AreFresh, Serves};
ghost use Rattle.dvg_blame.specs.Refusals.{IsLent};
ghost use Rattle.dvg_lay.specs.Checks.{ChecksFrames, ChecksSketch};
ghost use Rattle.dvg_lay.specs.Checks.{IsGoodVerdict, IsVerdictOn, said_line};
ghost use Rattle.dvg_read.specs.declared.draft_text.TheConstants.{MOST_TEXT_BYTES};

use crate::making::{Making, SketchEngine};
use crate::picture::time_of;
use crate::text::put;
use crate::time::{PictureTime, put_time};
use dvg_code::OutOfMemory;
use dvg_dump::MOST_WORDS;
use dvg_frame::Checker;
use dvg_io::{StreamFailed, ToolFault, Watched, serve, write_lines};
use dvg_mem::Rom;
use dvg_named::{NamedFrame, RomName};
use dvg_print::{BoundedVerdict, Line};
use std::alloc::{AllocError, Allocator, Global};
use std::io::{Read, Write};

/// What is said of a frame.
#[derive(Clone, Copy, Debug, PartialEq, Eq)]
pub struct FrameVerdict {
    /// What the check says of it.
    pub verdict: BoundedVerdict,
    /// How long its picture takes, if it may be drawn and its run fetches at most 65,536 words.
    pub time: Option<PictureTime>,
}

/// What is said of the frames of a sketch.
#[derive(Debug, Drop)]
pub struct Said<A: Allocator = Global> {
    /// The verdict on each frame, in order.
    pub verdicts: Vec<FrameVerdict, A>,
    /// A line for each frame.
    pub text: Vec<u8, A>,
}

impl<A: Allocator> Said<A> {
    /// Whether the check accepts each frame.
    pub fn is_good(&self) -> bool
        ensures { IsTrue result ↔ All IsGoodVerdict self.now.verdicts.items }
    {
        self.verdicts.iter().all(
            |said|
                ensures { IsTrue result ↔ IsGoodVerdict said.now }
            { matches!(said.verdict, BoundedVerdict::Good { .. }) },
        )
    }
}

// Returns the verdict of `checker` on `frame` over the ROM of `bytes`, and the picture's time. The
// ROM is made for each frame, as the dump that is run owns it.
// Returns `OutOfMemory` where an allocation fails.
fn judge<A: Allocator + Copy>(
    alloc: A,
    checker: &mut Checker,
    bytes: &[u8],
    frame: &NamedFrame,
) -> Result<FrameVerdict, OutOfMemory>
    requires { IsLent frame.now }
    ensures { IfOk result (IsVerdictOn bytes.now frame.now) }
{
    let Ok(rom) = Rom::new(alloc, bytes) else {
        return Err(OutOfMemory);
    };
    let checked = match checker.check(frame.ops, &rom) {
        Ok(checked) => checked,
        Err(fault) => {
            return Ok(FrameVerdict {
                verdict: BoundedVerdict::Refused(fault),
                time: None,
            });
        }
    };
    let (words, bound) = (checked.len_words(), checked.bound());
    let time = if bound <= u64::from(MOST_WORDS) {
        Some(time_of(alloc, rom, &checked)?)
    } else {
        None
    };
    Ok(FrameVerdict {
        verdict: BoundedVerdict::Good { words, bound },
        time,
    })
}

// Appends the line of `frame` to `text`: its name, if it has one, and what is `said` of it. Returns
// `AllocError` where an allocation fails.
fn put_line<A: Allocator>(
    text: &mut Vec<u8, A>,
    frame: &NamedFrame,
    said: FrameVerdict,
) -> Result<(), AllocError>
    ensures { OnOk result (text.new.items ≡ text.old.items ++ said_line frame.now said) }
{
    if let Some(name) = frame.name {
        put(text, name)?;
        put(text, b": ")?;
    }
    let mut line = Line::new();
    line.become_bounded(said.verdict);
    let Some(time) = said.time else {
        return put(text, line.as_bytes());
    };
    let line = line.as_bytes();
    put(text, &line[..line.len().saturating_sub(1)])?;
    put_time(text, time)?;
    put(text, b"\n")
}

// Returns what is said of `frames` over the ROM of `bytes`. Returns `OutOfMemory` where an
// allocation fails.
fn check_frames<A: Allocator + Copy>(
    alloc: A,
    bytes: &[u8],
    frames: &[NamedFrame],
) -> Result<Said<A>, OutOfMemory>
    requires { All IsLent frames.now }
    ensures { IfOk result (ChecksFrames bytes.now frames.now) }
{
    let mut checker = Box::new(alloc, Checker::new())?;
    let mut verdicts = Vec::new(alloc);
    let mut text = Vec::new(alloc);
    for frame in frames {
        let said = judge(alloc, &mut checker, bytes, frame)?;
        put_line(&mut text, frame, said)?;
        verdicts.push(said)?;
    }
    Ok(Said { verdicts, text })
}

// What the check says of frames.
#[derive(Drop)]
struct Checking;

impl<A: Allocator + Copy> Making<A> for Checking {
    type Made = Said<A>;

    ghost Comes = { λ checking R names. ChecksFrames R };

    ghost text = { λ checking said. said.text.items };

    fn make(
        &self,
        alloc: A,
        bytes: &[u8],
        _names: &[RomName],
        frames: &[NamedFrame],
    ) -> Result<Said<A>, OutOfMemory> {
        check_frames(alloc, bytes, frames)
    }

    fn write<W: Write>(&self, said: &Said<A>, writer: &mut Watched<W>) -> Result<(), StreamFailed> {
        write_lines(writer, said.text.as_slice())
    }
}

/// Reads a sketch as text from `reader`, as `draw_sketch` does, and writes a line to `writer` for
/// each of its frames: its name and a colon, if it has a name, and what the check says of it over
/// the ROM, as `check --bound` writes that. Of a frame that may be drawn, and whose run fetches at
/// most 65,536 words, the line goes on with how many vectors and other instructions the run has,
/// and how many microseconds the generator of the arcade emulator takes for them (the format is
/// this project's own choice). Returns what was said.
///
/// - A fault of the text: that of the first line at fault. `TooLong`, the text has more than
///   `MOST_TEXT_BYTES`, of which one more at most is taken, comes before all others, and
///   `UnknownName` after them.
/// - `Reader`, `Writer`: that stream failed. After `Writer` a beginning of the text went out.
/// - `Memory`: an allocation failed.
///
/// Where it stops before it writes, which is at any fault but `Writer`, the writer is as it was.
#[inline(never)]
pub fn check_sketch<A: Allocator + Copy, R: Read, W: Write>(
    alloc: A,
    reader: &mut Watched<R>,
    writer: &mut Watched<W>,
) -> Result<Said<A>, ToolFault>
    requires fresh { AreFresh reader.old writer.old }
    ensures { Serves R.remaining W.contents MOST_TEXT_BYTES ComesBeforeText ChecksSketch
        result reader.old reader.new writer.old writer.new }
{
    serve(&SketchEngine { making: Checking }, alloc, reader, writer)
}
