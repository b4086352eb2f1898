//! A judge of moments. It is told a reply as it is, which doesn't say which reset was done: of that
//! it is told by the request. It says after each line how the run stands, and keeps no number of a
//! line, as its caller counts them. A judge of halves isn't here: its rule fits in 20 lines of each
//! language.
ghost use Rattle.dvg_log.specs.Log.{Log};
ghost use Rattle.dvg_moment.specs.Judging.{StandsAfter};
ghost use Rattle.dvg_device.specs.Judges.{IsJudged, JudgeAnswers, JudgesLine, line_of};

use crate::reply::{Reply, RunState};
use crate::request::Request;
use dvg_moment::MomentJudge;

/// A line of a log, as a judge of moments is told it.
#[derive(Clone, Copy, Debug, PartialEq, Eq)]
pub enum JudgeLine {
    /// It says nothing of memory or of a run.
    Passed,
    /// A strobe began a run.
    Started,
    /// A fetch brought the low byte of the word at this word address.
    Low(u16, u8),
    /// A fetch completed the word at this word address. The second number is the word. The run goes
    /// on.
    Fetched(u16, u16),
    /// The same, and the word is a HALT that ended the run.
    Done(u16, u16),
    /// This byte was written at this byte address. Outside the RAM, from 800 on, that changes
    /// nothing.
    Wrote(u16, u8),
    /// The run ended without a picture: by a fault, or by a reset of the generator.
    Ended,
    /// The whole system was reset. What was told of memory is void.
    Reset,
}

// Lets `judge` do `request`. Returns the reply.
#[inline(always)]
pub(crate) fn ask_judge(judge: &mut MomentJudge, request: Request) -> Reply
    ensures { JudgeAnswers request judge.old judge.new result }
{
    match request {
        Request::Tell(line) => tell(judge, line),
        Request::ResetGenerator => tell(judge, JudgeLine::Ended),
        Request::ResetProcessor => tell(judge, JudgeLine::Passed),
        Request::ResetAll => tell(judge, JudgeLine::Reset),
        _ => Reply::Unknown,
    }
}

// Tells `judge` of `line`. Returns the reply.
#[inline(never)]
fn tell(judge: &mut MomentJudge, line: JudgeLine) -> Reply
    ensures { JudgesLine (line_of line) judge.old judge.new result }
{
    match line {
        JudgeLine::Passed => {
            judge.passed();
            standing(judge, false)
        }
        JudgeLine::Started => {
            judge.started();
            standing(judge, false)
        }
        JudgeLine::Low(address, byte) => {
            let wrong = judge.contradicts_low(address, byte);
            judge.low(address, byte);
            standing(judge, wrong)
        }
        JudgeLine::Fetched(address, word) => {
            let wrong = judge.contradicts_word(address, word);
            judge.fetched(address, word);
            standing(judge, wrong)
        }
        JudgeLine::Done(address, word) => halt(judge, address, word),
        JudgeLine::Wrote(address, byte) => {
            judge.wrote(address, byte);
            standing(judge, false)
        }
        JudgeLine::Ended => {
            judge.ended();
            standing(judge, false)
        }
        JudgeLine::Reset => {
            judge.reset();
            standing(judge, false)
        }
    }
}

// Returns the reply to a line that is no HALT, which `judge` was told. `wrong` is whether the line
// reads what was not written.
fn standing(judge: &MomentJudge, wrong: bool) -> Reply
    ensures { (log : Log) → StandsAfter judge.now log → IsJudged log wrong result }
{
    if judge.is_torn() {
        Reply::Judged(RunState::NoMoment, wrong)
    } else if judge.is_open() {
        Reply::Judged(RunState::OneMoment, wrong)
    } else {
        Reply::Judged(RunState::NoRun, wrong)
    }
}

// Tells `judge` of a HALT, the word `word` at the word address `address`. Returns the reply.
fn halt(judge: &mut MomentJudge, address: u16, word: u16) -> Reply
    ensures { JudgesLine (line_of (JudgeLine.Done address word)) judge.old judge.new result }
{
    let is_open = judge.is_open();
    let wrong = judge.contradicts_word(address, word);
    if judge.done(address, word) {
        Reply::Judged(RunState::Torn, wrong)
    } else if is_open {
        Reply::Judged(RunState::Whole, wrong)
    } else {
        Reply::Judged(RunState::NoRun, wrong)
    }
}
