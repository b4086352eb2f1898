//! The engine `torn --moments --all`. By halves there is no such engine: one write that tears is
//! followed by others of the same kind.
ghost use Rattle.std.specs.Prelude.{◌≡◌, ◌↔◌, ◌≤◌, IfSome, IsErrOf, IsTrue};
ghost use Rattle.dvg_io.specs.Watching.{failures_of, stream_of};
ghost use Rattle.dvg_logs.specs.AllTears.{AllTakes, AllTears, IsTear, TellsAs, of_all};

use crate::judging::PIECE;
use crate::log_reading::{LogReading, LogStop};
use crate::moment_lines::MomentLines;
use crate::tears_moments::write_verdict;
use dvg_io::{ToolFault, Watched};
use dvg_print::MomentVerdict;
use dvg_read::TextFault;
use std::io::{Read, Write};

// Returns whether `verdict` is of a torn run.
fn is_tear(verdict: MomentVerdict) -> bool
    ensures { IsTrue result ↔ IsTear verdict }
{
    matches!(verdict, MomentVerdict::Torn { .. })
}

// Returns what is said at the end of a log in which so many runs are `torn`. `said` is what is said
// of it where none is.
fn of_all(torn: usize, said: MomentVerdict) -> MomentVerdict
    ensures { result ≡ of_all torn said }
{
    if torn == 0 {
        return said;
    }
    match said {
        MomentVerdict::Whole { runs, halted, .. } | MomentVerdict::NoRun { runs, halted } => {
            MomentVerdict::SomeTorn { runs, halted, torn }
        }
        _ => said,
    }
}

/// What was read of a log's text, and how many of its torn runs were told.
#[derive(Drop)]
pub struct Telling {
    reading: LogReading<MomentLines>,
    torn: usize,
}

impl Telling {
    ghost use Rattle.std.specs.Prelude.{◌≡◌, ◌⊎◌, ◌+◌, ◌%◌, ◌^◌, ◌<◌, ◌++◌, List, ℕ, IfSome};
    ghost use Rattle.std.specs.Prelude.{IsNone, Option, Some, length};
    ghost use Rattle.dvg_read.specs.Texts.{lines};
    ghost use Rattle.dvg_io.specs.Watching.{failures_of, stream_of};
    ghost use Rattle.dvg_logs.specs.LogReading.{place_of};
    ghost use Rattle.dvg_logs.specs.Telling.{EndsSo, EndsWhole, HasTold, HasToldAll, IsToldAnswer};
    ghost use Rattle.dvg_logs.specs.Telling.{TellsLast, TellsTear, failed_by};

    // Writes the line of `one`, which was found, to `writer`, and counts a torn run. Returns the
    // answer, unless the reading goes on.
    fn tell_found<W: Write>(
        &mut self,
        one: MomentVerdict,
        writer: &mut Watched<W>,
    ) -> Option<Result<MomentVerdict, ToolFault>>
        ensures reading { self.new.reading ≡ self.old.reading }
        ensures torn { IsNone result → self.new.torn ≡ (self.old.torn + 1) % 2 ^ 64 }
        ensures tear { (n : ℕ) → IsNone result → TellsTear (LogStop.Found n one)
            (W.contents (stream_of writer.old)) (W.contents (stream_of writer.new)) }
        ensures last { (n : ℕ) → IfSome result (λ answer. TellsLast (LogStop.Found n one) answer
            (W.contents (stream_of writer.old)) (W.contents (stream_of writer.new))) }
        ensures kind { IfSome result IsToldAnswer }
        ensures failed { failures_of writer.new ≡ failed_by result (failures_of writer.old) }
    {
        if write_verdict(writer, one).is_err() {
            return Some(Err(ToolFault::Writer));
        }
        if !is_tear(one) {
            return Some(Ok(one));
        }
        self.torn = self.torn.wrapping_add(1);
        None
    }

    // Tells why the reading stops, by `stop`, to `writer`. Returns the answer, unless the reading
    // goes on, as it is a torn run.
    fn tell<W: Write>(
        &mut self,
        stop: LogStop<MomentVerdict>,
        writer: &mut Watched<W>,
    ) -> Option<Result<MomentVerdict, ToolFault>>
        ensures reading { self.new.reading ≡ self.old.reading }
        ensures torn { IsNone result → self.new.torn ≡ (self.old.torn + 1) % 2 ^ 64 }
        ensures tear { IsNone result → TellsTear stop
            (W.contents (stream_of writer.old)) (W.contents (stream_of writer.new)) }
        ensures last { IfSome result (λ answer. TellsLast stop answer
            (W.contents (stream_of writer.old)) (W.contents (stream_of writer.new))) }
        ensures kind { IfSome result IsToldAnswer }
        ensures failed { failures_of writer.new ≡ failed_by result (failures_of writer.old) }
    {
        match stop {
            LogStop::Found(_, one) => self.tell_found(one, writer),
            LogStop::Syntax(line) => Some(Err(ToolFault::Text(TextFault::Syntax(line)))),
            LogStop::TooLong => Some(Err(ToolFault::Text(TextFault::TooLong))),
        }
    }

    // Takes `piece`, the next piece of the text, and tells its torn runs to `writer`. Returns the
    // answer, if the reading ends there.
    fn take_piece<W: Write>(
        &mut self,
        piece: &[u8],
        writer: &mut Watched<W>,
    ) -> Option<Result<MomentVerdict, ToolFault>>
        ensures told { IsNone result
            → (base : Option ℕ) (old : Option (List ℕ)) (text : List ℕ)
            → HasTold base old (W.contents (stream_of writer.old)) self.old text
            → HasTold base old (W.contents (stream_of writer.new)) self.new (text ++ piece.now) }
        ensures ends { IfSome result (λ answer.
            (base : Option ℕ) (old : Option (List ℕ)) (text more : List ℕ)
            → HasTold base old (W.contents (stream_of writer.old)) self.old text
            → EndsSo base old (W.contents (stream_of writer.new)) answer
            (lines (text ++ (piece.now ++ more))) self.old.reading.judged.count) }
        ensures kind { IfSome result IsToldAnswer }
        ensures farther { IsNone result → 0 < length piece.now
            → place_of self.old.reading < place_of self.new.reading }
        ensures failed { failures_of writer.new ≡ failed_by result (failures_of writer.old) }
    {
        let mut rest = piece;
        while !rest.is_empty() {
            let stopped = match self.reading.take_piece(rest) {
                Ok(()) => return None,
                Err(stopped) => stopped,
            };
            if let Some(answer) = self.tell(stopped.stop, writer) {
                return Some(answer);
            }
            rest = stopped.rest;
        }
        None
    }

    // Takes the end of the text, which ends a line that has begun, and tells a torn run that comes
    // to its HALT by that line to `writer`. Returns the answer, if the reading ends there.
    fn end_lines<W: Write>(
        &mut self,
        writer: &mut Watched<W>,
    ) -> Option<Result<MomentVerdict, ToolFault>>
        ensures told { IsNone result
            → (base : Option ℕ) (old : Option (List ℕ)) (text : List ℕ)
            → HasTold base old (W.contents (stream_of writer.old)) self.old text
            → HasToldAll base old (W.contents (stream_of writer.new)) self.new text }
        ensures ends { IfSome result (λ answer.
            (base : Option ℕ) (old : Option (List ℕ)) (text : List ℕ)
            → HasTold base old (W.contents (stream_of writer.old)) self.old text
            → EndsSo base old (W.contents (stream_of writer.new)) answer (lines text)
            self.old.reading.judged.count) }
        ensures kind { IfSome result IsToldAnswer }
        ensures failed { failures_of writer.new ≡ failed_by result (failures_of writer.old) }
    {
        match self.reading.finish() {
            Ok(()) => None,
            Err(stop) => self.tell(stop, writer),
        }
    }

    // Tells what is said at the end of the log of all lines to `writer`. Returns the answer.
    fn tell_end<W: Write>(&self, writer: &mut Watched<W>) -> Result<MomentVerdict, ToolFault>
        ensures ends { (base : Option ℕ) (old : Option (List ℕ)) (text : List ℕ)
            → HasToldAll base old (W.contents (stream_of writer.old)) self.now text
            → EndsWhole base old (W.contents (stream_of writer.new)) result text }
        ensures kind { IsToldAnswer result }
        ensures failed { failures_of writer.new
            ≡ failed_by (Some result) (failures_of writer.old) }
    {
        let verdict = of_all(self.torn, self.reading.at_end());
        if write_verdict(writer, verdict).is_err() {
            return Err(ToolFault::Writer);
        }
        Ok(verdict)
    }

    // Takes the end of the text, and tells what is said then to `writer`. Returns the answer.
    fn finish<W: Write>(&mut self, writer: &mut Watched<W>) -> Result<MomentVerdict, ToolFault>
        ensures ends { (base : Option ℕ) (old : Option (List ℕ)) (text : List ℕ)
            → HasTold base old (W.contents (stream_of writer.old)) self.old text
            → EndsSo base old (W.contents (stream_of writer.new)) result (lines text)
            self.old.reading.judged.count
            ⊎ EndsWhole base old (W.contents (stream_of writer.new)) result text }
        ensures kind { IsToldAnswer result }
        ensures failed { failures_of writer.new
            ≡ failed_by (Some result) (failures_of writer.old) }
    {
        match self.end_lines(writer) {
            Some(answer) => answer,
            None => self.tell_end(writer),
        }
    }
}

/// Reads the text of a log from `reader`, of any length and of any system, up to the first line
/// that contradicts or is at fault, and writes to `writer` (the text is this project's own choice):
///
/// - `torn at line N: ..`, as `torn_moments` does, for each run that is mixed and comes to
///   its HALT, in the order of these;
/// - and then `in all: R runs, H halted, T torn`: R runs began, H of them came to their HALT, and T
///   of these are torn; where none is, what `torn_moments` writes then;
/// - or, in place of that, `line N reads what was not written: ..`.
///
/// It takes no memory. At a fault of the text, or of the reader, the lines of the torn runs before
/// it were written. Its faults are those of `torn`, and a `base` means the same.
#[inline(never)]
pub fn torn_all<R: Read, W: Write>(
    reader: &mut Watched<R>,
    writer: &mut Watched<W>,
    base: Option<u16>,
) -> Result<MomentVerdict, ToolFault>
    requires fresh_reader { failures_of reader.old ≡ 0 }
    requires fresh_writer { failures_of writer.old ≡ 0 }

    // Where the reader's bytes are known: what is said, what went out, when each fault of the text
    // comes, what was taken.
    ensures tears { IfSome (R.remaining (stream_of reader.old)) (λ input.
        AllTears base result input (W.contents (stream_of writer.old))
        (W.contents (stream_of writer.new))) }
    ensures took { IfSome (R.remaining (stream_of reader.old)) (λ input.
        AllTakes base result input (R.remaining (stream_of reader.old))
        (R.remaining (stream_of reader.new))) }

    // Both at once: what went out and what was taken are of the same torn runs.
    ensures tells { IfSome (R.remaining (stream_of reader.old)) (λ input.
        TellsAs base result input (R.remaining (stream_of reader.old))
        (R.remaining (stream_of reader.new)) (W.contents (stream_of writer.old))
        (W.contents (stream_of writer.new))) }

    // Whatever the reader and the writer are.
    ensures no_memory { ¬ IsErrOf result ToolFault.Memory }
    ensures reader { IsErrOf result ToolFault.Reader ↔ (failures_of reader.new ≡ 1) }
    ensures writer { IsErrOf result ToolFault.Writer ↔ (failures_of writer.new ≡ 1) }
    ensures stops { (failures_of reader.new ≤ 1) × (failures_of writer.new ≤ 1) }
{
    let mut telling = Telling {
        reading: LogReading::new(MomentLines::new(), base),
        torn: 0,
    };
    let mut piece = [0u8; PIECE];
    loop {
        let Ok(count) = reader.read(&mut piece) else {
            return Err(ToolFault::Reader);
        };
        if count == 0 {
            return telling.finish(writer);
        }
        if let Some(answer) = telling.take_piece(&piece[..count], writer) {
            return answer;
        }
    }
}
