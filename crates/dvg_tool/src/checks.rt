//! The engines `check_text` and `check_bound`.
ghost use Rattle.std.specs.Prelude.{IfErr, IfOk};
ghost use Rattle.dvg_io.specs.Faults.{ComesBeforeText};
ghost use Rattle.dvg_io.specs.Serving.{AreFresh, Serves};
ghost use Rattle.dvg_print.specs.Verdicts.{bounded_line, verdict_line};
ghost use Rattle.dvg_read.specs.DraftTexts.{HasDraftFault};
ghost use Rattle.dvg_tool.specs.Checks.{Checks, ChecksBound, IsJudgingFault, Judges, JudgesBound};
ghost use Rattle.dvg_read.specs.declared.draft_text.TheConstants.{MOST_TEXT_BYTES};

use dvg_frame::Checker;
use dvg_io::{Engine, StreamFailed, ToolFault, Watched, serve, write_whole};
use dvg_mem::Rom;
use dvg_print::{BoundedVerdict, Line, Verdict};
use dvg_read::{MOST_TEXT_BYTES, Unread, read_draft};
use std::alloc::Allocator;
use std::io::{Read, Write};

// Returns what the check says of the draft that `text` denotes, over the ROM that it denotes.
#[inline(never)]
fn judge<A: Allocator>(alloc: A, text: &[u8]) -> Result<BoundedVerdict, Unread>
    ensures said { IfOk result (JudgesBound text.now) }
    ensures fault { IfErr result (IsJudgingFault text.now) }
{
    let drafted = match read_draft(text) {
        Ok(drafted) => drafted,
        Err(fault) => return Err(Unread::Text(fault)),
    };
    let Ok(rom) = Rom::new(alloc, drafted.rom.as_slice()) else {
        return Err(Unread::Memory);
    };
    match Checker::new().check(drafted.draft.ops(), &rom) {
        Ok(checked) => Ok(BoundedVerdict::Good {
            words: checked.len_words(),
            bound: checked.bound(),
        }),
        Err(fault) => Ok(BoundedVerdict::Refused(fault)),
    }
}

// The engine `check_text`: it finds what the check says of a draft.
#[derive(Drop)]
struct CheckEngine;

impl<A: Allocator + Copy> Engine<A> for CheckEngine {
    type Found = Verdict;

    const MOST: u32 = MOST_TEXT_BYTES as u32;

    ghost MOST = { MOST_TEXT_BYTES };

    ghost Finds = { λ engine. Judges };

    ghost HasFault = { λ engine. HasDraftFault };

    ghost text = { λ engine. verdict_line };

    fn find(&self, alloc: A, read: &[u8]) -> Result<Verdict, Unread> {
        let bounded = judge(alloc, read)?;
        Ok(bounded.verdict())
    }

    fn write<W: Write>(
        &self,
        verdict: &Verdict,
        writer: &mut Watched<W>,
    ) -> Result<(), StreamFailed> {
        let mut line = Line::new();
        line.become_verdict(*verdict);
        write_whole(writer, line.as_bytes())
    }
}

// The engine `check_bound`: it finds the bound of a good draft, too.
#[derive(Drop)]
struct BoundEngine;

impl<A: Allocator + Copy> Engine<A> for BoundEngine {
    type Found = BoundedVerdict;

    const MOST: u32 = MOST_TEXT_BYTES as u32;

    ghost MOST = { MOST_TEXT_BYTES };

    ghost Finds = { λ engine. JudgesBound };

    ghost HasFault = { λ engine. HasDraftFault };

    ghost text = { λ engine. bounded_line };

    fn find(&self, alloc: A, read: &[u8]) -> Result<BoundedVerdict, Unread> {
        judge(alloc, read)
    }

    fn write<W: Write>(
        &self,
        verdict: &BoundedVerdict,
        writer: &mut Watched<W>,
    ) -> Result<(), StreamFailed> {
        let mut line = Line::new();
        line.become_bounded(*verdict);
        write_whole(writer, line.as_bytes())
    }
}

/// Reads a draft as text from `reader`, with the lines of a memory map and of a ROM before it.
/// Writes what the check says of the draft over that ROM to `writer`, in one line: `ok` and its
/// number of words, or `fault` and the fault's number, name and place (the texts are this project's
/// own choice). Its memory comes from `alloc`. Returns what it wrote.
///
/// - `TooLong`: the text has more than 1,048,576 bytes, of which no more than 1,048,577 are taken.
///   This is decided before all others.
/// - `Syntax`, `Full`: this line is the first at fault. It spells nothing that may stand at its
///   place, or it spells operation number 511.
/// - `Reader`, `Writer`: that stream failed. After `Writer` a beginning of the line went out.
/// - `Memory`: an allocation failed.
///
/// Where it stops before it writes, which is at any fault but `Writer`, the writer is as it was.
#[inline(never)]
pub fn check_text<A: Allocator, R: Read, W: Write>(
    alloc: A,
    reader: &mut Watched<R>,
    writer: &mut Watched<W>,
) -> Result<Verdict, ToolFault>
    requires fresh { AreFresh reader.old writer.old }
    ensures { Serves R.remaining W.contents MOST_TEXT_BYTES ComesBeforeText Checks
        result reader.old reader.new writer.old writer.new }
{
    serve(&CheckEngine, &alloc, reader, writer)
}

/// Reads a draft from `reader` and writes what the check says of it to `writer`, like `check_text`,
/// but the line of a good draft gives its bound, too: `ok`, its number of words, and how many words
/// the generator fetches in its whole run, word zero included. Its memory comes from `alloc`.
#[inline(never)]
pub fn check_bound<A: Allocator, R: Read, W: Write>(
    alloc: A,
    reader: &mut Watched<R>,
    writer: &mut Watched<W>,
) -> Result<BoundedVerdict, ToolFault>
    requires fresh { AreFresh reader.old writer.old }
    ensures { Serves R.remaining W.contents MOST_TEXT_BYTES ComesBeforeText ChecksBound
        result reader.old reader.new writer.old writer.new }
{
    serve(&BoundEngine, &alloc, reader, writer)
}
