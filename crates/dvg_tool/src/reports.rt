//! What a job reports of what its engine returns.
ghost use Rattle.std.specs.Prelude.{◌≡◌};
ghost use Rattle.dvg_tool.specs.Reports.{IsReported, of_bounded, of_explained, of_frames, of_log};
ghost use Rattle.dvg_tool.specs.Reports.{of_made, of_told};
ghost use Rattle.dvg_tool.specs.Reports.{of_moments, of_outcome, of_undrawn, of_verdict, written};
ghost use Rattle.dvg_tool.specs.declared.outcome.Done.{Done as HeldDone};

use crate::outcome::Done;
use dvg_blame::Refusal;
use dvg_explain::Finding;
use dvg_game::Told;
use dvg_game_check::Verdict as GameVerdict;
use dvg_io::ToolFault;
use dvg_lay::Said;
use dvg_logs::{LogFinding, LogVerdict, MomentVerdict};
use dvg_picture::{Outcome, Undrawn};
use dvg_print::{BoundedVerdict, Verdict};
use std::alloc::Allocator;

/// What an engine returns, of which something is reported.
pub(crate) trait Answer<A: Allocator> {
    /// What is reported of it.
    ghost reported: { Self → HeldDone A };

    /// Returns what is reported of it.
    fn done(self) -> Done<A>
        ensures { result ≡ reported self };
}

impl<A: Allocator> Answer<A> for () {
    ghost reported = { written };

    fn done(self) -> Done<A> {
        Done::Good
    }
}

impl<A: Allocator> Answer<A> for Verdict {
    ghost reported = { of_verdict };

    fn done(self) -> Done<A> {
        match self {
            Verdict::Good(_) => Done::Good,
            Verdict::Refused(_) => Done::Bad,
        }
    }
}

impl<A: Allocator> Answer<A> for BoundedVerdict {
    ghost reported = { of_bounded };

    fn done(self) -> Done<A> {
        match self {
            BoundedVerdict::Good { .. } => Done::Good,
            BoundedVerdict::Refused(_) => Done::Bad,
        }
    }
}

impl<A: Allocator> Answer<A> for Outcome {
    ghost reported = { of_outcome };

    fn done(self) -> Done<A> {
        match self {
            Outcome::Picture => Done::Good,
            Outcome::Broke | Outcome::Endless => Done::Bad,
        }
    }
}

impl<A: Allocator> Answer<A> for Option<Undrawn> {
    ghost reported = { of_undrawn };

    fn done(self) -> Done<A> {
        match self {
            None => Done::Good,
            Some(undrawn) => Done::Undrawn(undrawn),
        }
    }
}

impl<A: Allocator> Answer<A> for LogVerdict {
    ghost reported = { of_log };

    fn done(self) -> Done<A> {
        match self.finding {
            LogFinding::NotTorn => Done::Good,
            LogFinding::NoRunDrew | LogFinding::Torn { .. } => Done::Bad,
        }
    }
}

impl<A: Allocator> Answer<A> for MomentVerdict {
    ghost reported = { of_moments };

    fn done(self) -> Done<A> {
        match self {
            MomentVerdict::Whole { .. } => Done::Good,
            MomentVerdict::NoRun { .. }
            | MomentVerdict::Torn { .. }
            | MomentVerdict::Contradicts { .. }
            | MomentVerdict::SomeTorn { .. } => Done::Bad,
        }
    }
}

impl<T: Drop, A: Allocator> Answer<A> for Result<T, Refusal<A>> {
    ghost reported = { of_made };

    fn done(self) -> Done<A> {
        match self {
            Ok(_) => Done::Good,
            Err(refusal) => Done::Refused(refusal),
        }
    }
}

impl<A: Allocator> Answer<A> for Said<A> {
    ghost reported = { λ said. of_frames said.verdicts.items };

    fn done(self) -> Done<A> {
        if self.is_good() {
            Done::Good
        } else {
            Done::Bad
        }
    }
}

impl<A: Allocator> Answer<A> for Finding<A> {
    ghost reported = { of_explained };

    fn done(self) -> Done<A> {
        if self.is_good { Done::Good } else { Done::Bad }
    }
}

impl<A: Allocator> Answer<A> for Told<A> {
    ghost reported = { of_told };

    fn done(self) -> Done<A> {
        match self.verdict {
            GameVerdict::Keeps(_) => Done::Good,
            GameVerdict::Unseen(_, _) => Done::Unseen,
            GameVerdict::Refused(_) | GameVerdict::Unsettled(_) => Done::Bad,
        }
    }
}

/// Returns what is reported of an engine's `answer`: a fault stays as it is.
pub(crate) fn reported<A: Allocator, V: Answer<A>>(
    answer: Result<V, ToolFault>,
) -> Result<Done<A>, ToolFault>
    ensures { IsReported V.reported answer result }
{
    match answer {
        Ok(found) => Ok(found.done()),
        Err(fault) => Err(fault),
    }
}
