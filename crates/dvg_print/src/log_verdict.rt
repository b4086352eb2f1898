//! What `torn` says of a log.
ghost use Rattle.std.specs.Prelude.{◌≡◌, ◌≤◌, ◌+◌, ◌++◌, length};
ghost use Rattle.dvg_print.specs.LogVerdicts.{finding_text, halts_text, log_verdict_text};
ghost use Rattle.dvg_print.specs.LogVerdicts.{runs_text};
ghost use Rattle.dvg_print.specs.declared.line.TheConstants.{MOST_BYTES};

use crate::line::Line;
use dvg_driver::Action;

/// What was counted in the lines of a log, up to the one that decided.
#[derive(Clone, Copy, Debug, PartialEq, Eq)]
pub struct LogCounts {
    /// Strobes that began a run.
    pub runs: usize,
    /// Runs that drew a half.
    pub drew: usize,
    /// Lines that say that a run ended by a HALT.
    pub halted: usize,
    /// Bytes that the driver wrote.
    pub writes: usize,
}

/// What the judge finds in a log.
#[derive(Clone, Copy, Debug, PartialEq, Eq)]
pub enum LogFinding {
    /// No byte was written in the half that the open run draws.
    NotTorn,
    /// No such byte was written either, but no run drew a half.
    NoRunDrew,
    /// The first write in such a half: the number of its line, counted from 1, its byte address and
    /// its byte.
    Torn { line: usize, address: u16, byte: u8 },
}

/// What the judge says of a log.
#[derive(Clone, Copy, Debug, PartialEq, Eq)]
pub struct LogVerdict {
    /// What it finds.
    pub finding: LogFinding,
    /// What it counted: of a torn log up to the line that tears a picture, that one included.
    pub counts: LogCounts,
}

impl Line {
    /// Becomes what `torn` writes of `verdict`: one line, or two for a torn log.
    pub fn become_log_verdict(&mut self, verdict: LogVerdict)
        ensures { self.new ≡ log_verdict_text verdict }
    {
        self.clear();
        self.finding(verdict.finding);
        self.runs(verdict.counts);
        self.halts(verdict.counts);
    }

    // Appends `finding`, what was found in a log.
    fn finding(&mut self, finding: LogFinding)
        requires { length self.old + 64 ≤ MOST_BYTES }
        ensures text { self.new ≡ self.old ++ finding_text finding }
        ensures grew { length self.new ≤ length self.old + 64 }
    {
        match finding {
            LogFinding::NotTorn => self.text(b"not torn:"),
            LogFinding::NoRunDrew => self.text(b"no run drew a half:"),
            LogFinding::Torn {
                line,
                address,
                byte,
            } => {
                self.text(b"torn at line");
                self.number(line);
                self.text(b":");
                self.action(Action::Wrote(address, byte));
                self.text(b"\nso far:");
            }
        }
    }

    // Appends, from `counts`, how many runs began and how many of them drew a half.
    fn runs(&mut self, counts: LogCounts)
        requires { length self.old + 64 ≤ MOST_BYTES }
        ensures text { self.new ≡ self.old ++ runs_text counts }
        ensures grew { length self.new ≤ length self.old + 64 }
    {
        self.number(counts.runs);
        self.text(b" runs,");
        self.number(counts.drew);
        self.text(b" drew a half,");
    }

    // Appends, from `counts`, how many lines say `halted` and how many bytes were written, and the
    // line's end.
    fn halts(&mut self, counts: LogCounts)
        requires { length self.old + 64 ≤ MOST_BYTES }
        ensures text { self.new ≡ self.old ++ halts_text counts }
    {
        self.number(counts.halted);
        self.text(b" halted,");
        self.number(counts.writes);
        self.text(b" writes\n");
    }
}
