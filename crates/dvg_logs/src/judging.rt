//! How the text of a log is read, from a reader.
ghost use Rattle.std.specs.Prelude.{◌≡◌, ◌↔◌, ◌≤◌, [], IfErr, IfSome, IsErrOf};
ghost use Rattle.dvg_io.specs.Watching.{failures_of, stream_of};
ghost use Rattle.dvg_logs.specs.Judging.{IsReadingFault, ReadsAs, answer_of};

use crate::line_judge::LineJudge;
use crate::log_reading::{LogReading, LogStop};
use dvg_io::{ToolFault, Watched};
use dvg_read::TextFault;
use std::io::Read;

/// The most bytes that one read takes.
pub(crate) const PIECE: usize = 32_768;

// Returns the verdict or the fault of a log whose reading stops by `stop`.
fn answer<V>(stop: LogStop<V>) -> Result<V, ToolFault>
    ensures { result ≡ answer_of stop }
{
    match stop {
        LogStop::Found(_, verdict) => Ok(verdict),
        LogStop::Syntax(line) => Err(ToolFault::Text(TextFault::Syntax(line))),
        LogStop::TooLong => Err(ToolFault::Text(TextFault::TooLong)),
    }
}

/// Returns what `judge`, which was told no line, says of the text of a log, which comes from
/// `reader`. With a `base`, lines `wrote` have addresses of the processor.
pub(crate) fn judge_text<J: LineJudge, R: Read>(
    judge: J,
    base: Option<u16>,
    reader: &mut Watched<R>,
) -> Result<J::Verdict, ToolFault>
    requires fresh { failures_of reader.old ≡ 0 }
    requires stands { J.Stands judge [] }
    requires passes { J.Passes [] [] }
    ensures reads { IfSome (R.remaining (stream_of reader.old))
        (λ input. ReadsAs base (J.Passes []) J.Finds J.Ends result input
        (R.remaining (stream_of reader.old)) (R.remaining (stream_of reader.new))) }
    ensures fault { IfErr result IsReadingFault }
    ensures reader { IsErrOf result ToolFault.Reader ↔ (failures_of reader.new ≡ 1) }
    ensures stops { failures_of reader.new ≤ 1 }
{
    let mut reading = LogReading::new(judge, base);
    let mut piece = [0u8; PIECE];
    loop {
        let Ok(count) = reader.read(&mut piece) else {
            return Err(ToolFault::Reader);
        };
        if count == 0 {
            break;
        }
        match reading.take_piece(&piece[..count]) {
            Ok(()) => {}
            Err(stopped) => return answer(stopped.stop),
        }
    }
    match reading.finish() {
        Ok(()) => Ok(reading.at_end()),
        Err(stop) => answer(stop),
    }
}
