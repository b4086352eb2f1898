//! The engine `torn --moments`.
ghost use Rattle.std.specs.Prelude.{◌≡◌, ◌↔◌, ◌≤◌, IfErr, IfSome, IsErrOf, OnErr, OnOk};
ghost use Rattle.std.specs.Io.KnownBytes.{Appends};
ghost use Rattle.dvg_io.specs.Faults.{StopsBeforeWriting};
ghost use Rattle.dvg_io.specs.Watching.{BeginsToWrite, CountsErrors, failures_of, stream_of};
ghost use Rattle.dvg_print.specs.MomentVerdicts.{moment_verdict_text};
ghost use Rattle.dvg_logs.specs.MomentTears.{MomentTakes, MomentTears};

use crate::judging::judge_text;
use crate::moment_lines::MomentLines;
use dvg_io::{StreamFailed, ToolFault, Watched, write_lines};
use dvg_print::{Line, MomentVerdict};
use std::io::{Read, Write};

/// Writes `verdict`, what is said of a log, or of a torn run in it, to `writer`.
pub(crate) fn write_verdict<W: Write>(
    writer: &mut Watched<W>,
    verdict: MomentVerdict,
) -> Result<(), StreamFailed>
    ensures ok { OnOk result (Appends (W.contents (stream_of writer.old))
        (W.contents (stream_of writer.new)) (moment_verdict_text verdict)) }
    ensures err { OnErr result (BeginsToWrite (moment_verdict_text verdict)
        (W.contents (stream_of writer.old)) (W.contents (stream_of writer.new))) }
    ensures counts { CountsErrors result (failures_of writer.old) (failures_of writer.new) }
{
    let mut line = Line::new();
    line.become_moment_verdict(verdict);
    write_lines(writer, line.as_bytes())
}

/// Reads the text of a log from `reader`, of any length and of any system, up to the first line
/// that decides or is at fault, and writes what is said of it to `writer` (the text is this
/// project's own choice):
///
/// - `torn at line N: ..`, where a mixed run comes to its HALT: after line N, which is
///   shown, no moment of it was left. No byte that a run reads may change between its moment and
///   its reading;
/// - `line N reads what was not written: ..`, where a line reads another byte than the log told
///   last of it, of the RAM, of the ROM, or of the low byte that was told of this very word;
/// - `whole: R runs, H halted, J judged`, where no line does either: R runs began, H of them came
///   to their HALT, and J of these, one or more, had fetched past word zero, so they are judged;
/// - `no run to judge: R runs, H halted`, where none of these had.
///
/// `halted` tells no word, so the log before it is judged. `reset` may be one of the whole system:
/// after it nothing is known of memory. It takes no memory. Its faults are those of `torn`, and a
/// `base` means the same.
#[inline(never)]
pub fn torn_moments<R: Read, W: Write>(
    reader: &mut Watched<R>,
    writer: &mut Watched<W>,
    base: Option<u16>,
) -> Result<MomentVerdict, ToolFault>
    requires fresh_reader { failures_of reader.old ≡ 0 }
    requires fresh_writer { failures_of writer.old ≡ 0 }

    // Where the reader's bytes are known: what is said, what went out, when each fault of the text
    // comes, what was taken.
    ensures tears { IfSome (R.remaining (stream_of reader.old)) (λ input.
        MomentTears base result input (W.contents (stream_of writer.old))
        (W.contents (stream_of writer.new))) }
    ensures took { IfSome (R.remaining (stream_of reader.old)) (λ input.
        MomentTakes base result input (R.remaining (stream_of reader.old))
        (R.remaining (stream_of reader.new))) }

    // Whatever the reader and the writer are.
    ensures no_memory { ¬ IsErrOf result ToolFault.Memory }
    ensures unwritten { IfErr result (λ fault. StopsBeforeWriting fault → writer.new ≡ writer.old) }
    ensures reader { IsErrOf result ToolFault.Reader ↔ (failures_of reader.new ≡ 1) }
    ensures writer { IsErrOf result ToolFault.Writer ↔ (failures_of writer.new ≡ 1) }
    ensures stops { (failures_of reader.new ≤ 1) × (failures_of writer.new ≤ 1) }
{
    let verdict = match judge_text(MomentLines::new(), base, reader) {
        Ok(verdict) => verdict,
        Err(fault) => return Err(fault),
    };
    if write_verdict(writer, verdict).is_err() {
        return Err(ToolFault::Writer);
    }
    Ok(verdict)
}
