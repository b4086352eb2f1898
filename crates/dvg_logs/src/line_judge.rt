//! What the lines of a log are told. One reader serves all rules of `torn`, by a trait: what is
//! found at a line is asked first, and then the line is taken, so no copy of a judge is needed.
//! What was said before is a list, at first empty.
ghost use Rattle.std.specs.Prelude.{◌≡◌, ◌+◌, ◌-◌, ◌^◌, ◌<◌, ◌∷◌, List, length, IfSome, IsNone};
ghost use Rattle.dvg_log.specs.Log.{Line, Log};
ghost use Rattle.dvg_logs.specs.LogLineTells.{line_of};

use crate::log_line::LogLine;

/// A judge of logs, which is told their lines in order.
pub trait LineJudge: Copy {
    /// What is said of a log.
    type Verdict: Copy;

    /// The judge was told this log.
    ghost Stands: { Self → Log → Type 0 };

    /// This was said of the lines of a log that decide, the newest first.
    ghost Passes: { List Self.Verdict → Log → Type 0 };

    /// A line decides, after the log before it: this is said then.
    ghost Finds: { Self.Verdict → Line → Log → Type 0 };

    /// This is said at the end of a log.
    ghost Ends: { Self.Verdict → Log → Type 0 };

    /// Returns what is said where the next line decides. That is the line number `number`, counted
    /// from 1, and says `logged`.
    fn find(&self, number: usize, logged: LogLine) -> Option<Self::Verdict>
        ensures found { (log : Log) → Stands self.now log → number ≡ length log + 1
            → length log < 2 ^ 64 - 1 → IfSome result (λ said. Finds said (line_of logged) log) }
        ensures none { (said : List Self.Verdict) (log : Log) → Stands self.now log
            → Passes said log → IsNone result → Passes said (line_of logged ∷ log) }
        ensures some { (said : List Self.Verdict) (log : Log) → Stands self.now log
            → number ≡ length log + 1 → length log < 2 ^ 64 - 1 → Passes said log
            → IfSome result (λ one. Passes (one ∷ said) (line_of logged ∷ log)) };

    /// Takes the next line, the line number `number`, counted from 1, which says `logged`.
    fn take(&mut self, number: usize, logged: LogLine)
        ensures { (log : Log) → Stands self.old log → number ≡ length log + 1
            → length log < 2 ^ 64 - 1 → Stands self.new (line_of logged ∷ log) };

    /// Returns what is said at the end of a log.
    fn at_end(&self) -> Self::Verdict
        ensures { (log : Log) → Stands self.now log → Ends result log };
}
