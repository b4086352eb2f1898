//! How the program ends.
ghost use Rattle.std.specs.Prelude.{◌≡◌};
ghost use Rattle.std.specs.Io.KnownBytes.{Keeps};
ghost use Rattle.dvg_tool.specs.Outcomes.{FinishesAs, status_of};
ghost use Rattle.dvg_io.specs.Watching.{failures_of, stream_of};

use dvg_blame::Refusal;
use dvg_io::{ToolFault, Watched};
use dvg_picture::Undrawn;
use std::alloc::{Allocator, Global};
use std::io::Write;

/// What a job that is done reports.
#[derive(Debug, PartialEq, Eq, Drop)]
pub enum Done<A: Allocator = Global> {
    /// What was asked for was written, and what was asked about is good: the draft, each frame of
    /// the sketch, the log, the game, or the run over the dump, which drew a picture.
    Good,
    /// What was asked about isn't good, and what was written says why.
    Bad,
    /// A game keeps to the rules, but what was written says what of it isn't seen.
    Unseen,
    /// The run over a dump drew no picture, for this reason. What it drew was written as SVG.
    Undrawn(Undrawn),
    /// A frame of a sketch is refused, and nothing was written.
    Refused(Refusal<A>),
}

/// Flushes `writer` after an engine is done, which returned `answer`. A flush that fails is
/// `Writer`, whatever `answer` is. Else `answer` is returned.
pub fn finish<A: Allocator, W: Write>(
    answer: Result<Done<A>, ToolFault>,
    writer: &mut Watched<W>,
) -> Result<Done<A>, ToolFault>
    ensures bytes { Keeps (W.contents (stream_of writer.old)) (W.contents (stream_of writer.new)) }
    ensures answer { FinishesAs answer result (failures_of writer.old) (failures_of writer.new) }
{
    match writer.flush() {
        Ok(()) => answer,
        Err(_) => Err(ToolFault::Writer),
    }
}

/// Returns the program's exit status for `answer` (this project's own choice):
///
/// - 0: the job is done.
/// - 1: a fault of the text, or the answer is no: a draft that `check` refuses, also in a sketch, a
///   dump that draws no picture, a log with a torn picture, one that contradicts itself, or one
///   that has nothing to judge, a game that is refused.
/// - 2: a stream or an allocation failed.
/// - 3: a game keeps to the rules, but not all that it offers and puts is seen.
///
/// Arguments that ask for no job are 64, which no engine returns.
pub fn status<A: Allocator>(answer: &Result<Done<A>, ToolFault>) -> u8
    ensures { result ≡ status_of answer.now }
{
    match answer {
        Ok(Done::Good) => 0,
        Ok(Done::Unseen) => 3,
        Ok(Done::Bad | Done::Undrawn(_) | Done::Refused(_)) | Err(ToolFault::Text(_)) => 1,
        Err(ToolFault::Reader | ToolFault::Writer | ToolFault::Memory) => 2,
    }
}
