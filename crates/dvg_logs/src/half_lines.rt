//! The lines of a log by the rule of halves: none is written while it is drawn.
ghost use Rattle.std.specs.Prelude.{◌≡◌, ◌-◌, ◌^◌, ◌<◌, ◌∷◌, [], length, IfSome, IsNone, ◌&&◌, not};
ghost use Rattle.dvg_driver.specs.declared.action.Action.TheVariants.{Wrote};
ghost use Rattle.dvg_log.specs.declared.entry.Entry.TheVariants.{Acted};
ghost use Rattle.dvg_log.specs.declared.event.Event.TheVariants.{Tick};
ghost use Rattle.dvg_world.specs.Judging.{StandsAfter};
ghost use Rattle.dvg_log.specs.Log.{Log, ◌⟼◌};
ghost use Rattle.dvg_logs.specs.LogCounts.{counts_of, draws_from, found_in};
ghost use Rattle.dvg_logs.specs.LogLineTells.{line_of};
ghost use Rattle.dvg_logs.specs.LogTexts.{IsTornLine};

use crate::line_judge::LineJudge;
use crate::log_line::LogLine;
use dvg_print::{LogCounts, LogFinding, LogVerdict};
use dvg_world::Judge;

// Returns the finding for a log that has these `counts` and no torn line.
fn found(counts: LogCounts) -> LogFinding
    ensures { result ≡ found_in counts }
{
    if counts.drew == 0 {
        LogFinding::NoRunDrew
    } else {
        LogFinding::NotTorn
    }
}

/// What is known of the lines that were told.
#[derive(Clone, Copy, Debug, PartialEq, Eq)]
pub struct HalfLines {
    judge: Judge,
    counts: LogCounts,
}

// Feeds what a line says, `logged`, to `judge`. Returns the byte address and the byte of the write,
// if it tears a picture.
#[inline(always)]
fn tell(judge: &mut Judge, logged: LogLine) -> Option<(u16, u8)>
    ensures stands { (log : Log) → StandsAfter judge.old log
        → StandsAfter judge.new (line_of logged ∷ log) }
    ensures torn { (log : Log) → StandsAfter judge.old log
        → IfSome result (λ wrote. (line_of logged ≡ Tick ⟼ Acted (Wrote wrote.0 wrote.1))
        × IsTornLine log (line_of logged)) }
    ensures untorn { (log : Log) → StandsAfter judge.old log → IsNone result
        → ¬ IsTornLine log (line_of logged) }
{
    match logged {
        LogLine::Started => judge.started(),
        LogLine::Fetched(address, word) => judge.fetched(address, word),
        LogLine::Wrote(address, byte) => {
            if judge.wrote(address) {
                return Some((address, byte));
            }
        }
        LogLine::Halted => judge.halted(),
        LogLine::Reset => judge.reset(),
        LogLine::Passed | LogLine::Low(..) => {}
    }
    None
}

// Whether a half is drawn after a line (`after`), and none before it (`before`).
#[inline(always)]
fn begins(before: bool, after: bool) -> bool
    ensures { result ≡ (after && not before) }
{
    after && !before
}

// Counts one line more in `counts`, which says `logged`. With `draws` a run begins to draw a half
// by it. None of the numbers is greater than that of the lines, so none wraps.
#[inline(always)]
fn count(counts: &mut LogCounts, logged: LogLine, draws: bool)
    ensures { (log : Log) → counts.old ≡ counts_of log → length log < 2 ^ 64 - 1
        → draws ≡ draws_from (line_of logged) log → counts.new ≡ counts_of (line_of logged ∷ log) }
{
    if draws {
        counts.drew = counts.drew.wrapping_add(1);
    }
    match logged {
        LogLine::Started => counts.runs = counts.runs.wrapping_add(1),
        LogLine::Wrote(..) => counts.writes = counts.writes.wrapping_add(1),
        LogLine::Halted => counts.halted = counts.halted.wrapping_add(1),
        _ => {}
    }
}

impl HalfLines {
    ghost use Rattle.std.specs.Prelude.{◌≡◌, ◌-◌, ◌^◌, ◌<◌, ◌∷◌, [], length, IfSome, IsNone};
    ghost use Rattle.dvg_driver.specs.declared.action.Action.TheVariants.{Wrote};
    ghost use Rattle.dvg_log.specs.declared.entry.Entry.TheVariants.{Acted};
    ghost use Rattle.dvg_log.specs.declared.event.Event.TheVariants.{Tick};
    ghost use Rattle.dvg_log.specs.Log.{Log, ◌⟼◌};
    ghost use Rattle.dvg_logs.specs.LogLineTells.{line_of};
    ghost use Rattle.dvg_logs.specs.HalfLines.{StandsSo};
    ghost use Rattle.dvg_logs.specs.LogTexts.{IsTornLine};

    /// Returns what is known before the first line.
    pub fn new() -> HalfLines
        ensures { StandsSo result [] }
    {
        HalfLines {
            judge: Judge::new(),
            counts: LogCounts {
                runs: 0,
                drew: 0,
                halted: 0,
                writes: 0,
            },
        }
    }

    // Takes one line more, which says `logged`. Returns the byte address and the byte of the write,
    // if it tears a picture.
    #[inline(always)]
    fn hear(&mut self, logged: LogLine) -> Option<(u16, u8)>
        ensures stands { (log : Log) → StandsSo self.old log → length log < 2 ^ 64 - 1
            → StandsSo self.new (line_of logged ∷ log) }
        ensures torn { (log : Log) → StandsSo self.old log
            → IfSome result (λ wrote. (line_of logged ≡ Tick ⟼ Acted (Wrote wrote.0 wrote.1))
            × IsTornLine log (line_of logged)) }
        ensures untorn { (log : Log) → StandsSo self.old log → IsNone result
            → ¬ IsTornLine log (line_of logged) }
    {
        let drew = self.judge.is_drawing();
        let torn = tell(&mut self.judge, logged);
        let draws = begins(drew, self.judge.is_drawing());
        count(&mut self.counts, logged, draws);
        torn
    }
}

impl LineJudge for HalfLines {
    ghost use Rattle.dvg_logs.specs.HalfLines.{PassesUntorn, StandsSo};
    ghost use Rattle.dvg_logs.specs.LogTexts.{EndsUntorn, FindsTorn};

    type Verdict = LogVerdict;

    ghost Stands = { StandsSo };

    ghost Passes = { PassesUntorn };

    ghost Finds = { FindsTorn };

    ghost Ends = { EndsUntorn };

    #[inline(always)]
    fn find(&self, number: usize, logged: LogLine) -> Option<LogVerdict> {
        let mut lines = *self;
        match lines.hear(logged) {
            Some((address, byte)) => Some(LogVerdict {
                finding: LogFinding::Torn {
                    line: number,
                    address,
                    byte,
                },
                counts: lines.counts,
            }),
            None => None,
        }
    }

    #[inline(always)]
    fn take(&mut self, _number: usize, logged: LogLine) {
        self.hear(logged);
    }

    fn at_end(&self) -> LogVerdict {
        LogVerdict {
            finding: found(self.counts),
            counts: self.counts,
        }
    }
}
