//! Laws of the texts of logs. Each is the contract of a function that does nothing, but two, which
//! read the text.
ghost use Rattle.dvg_logs.specs.LogLaws.{IsJudged, IsJudgedByMoments, NoVerdictBesideFault};
ghost use Rattle.dvg_logs.specs.LogLaws.{OneAllVerdict, OneLogFault, OneLogVerdict};
ghost use Rattle.dvg_logs.specs.LogLaws.{OneMomentVerdict};

use crate::half_lines::HalfLines;
use crate::log_reading::LogReading;
use crate::moment_lines::MomentLines;

/// At most one verdict is given of the text of a log.
pub fn one_verdict()
    ensures { OneLogVerdict }
{}

/// At most one line is the first that says nothing that a line may say.
pub fn one_fault()
    ensures { OneLogFault }
{}

/// No verdict is given of a text with such a line.
pub fn no_verdict_beside_fault()
    ensures { NoVerdictBesideFault }
{}

/// A verdict is given of each `text`, or it has a fault. That one of them holds is shown by what a
/// reading of it comes to.
#[tactic(auto, using(crate::proofs::OneVerdict::judged_whole))]
pub fn each_is_judged(text: &[u8], base: Option<u16>)
    ensures { IsJudged base text.now }
{
    let mut reading = LogReading::new(HalfLines::new(), base);
    match reading.take_piece(text) {
        Ok(()) => match reading.finish() {
            Ok(()) => {
                let _end = reading.at_end();
            }
            Err(_stop) => {}
        },
        Err(_stopped) => {}
    }
}

/// At most one verdict is given of the text of a log by moments.
pub fn one_moment_verdict()
    ensures { OneMomentVerdict }
{}

/// Of the text of a log one list of torn runs is told at most, and one verdict after them.
pub fn one_all_verdict()
    ensures { OneAllVerdict }
{}

/// Like `each_is_judged`, by moments.
pub fn each_is_judged_by_moments(text: &[u8], base: Option<u16>)
    ensures { IsJudgedByMoments base text.now }
{
    let mut reading = LogReading::new(MomentLines::new(), base);
    match reading.take_piece(text) {
        Ok(()) => match reading.finish() {
            Ok(()) => {
                let _end = reading.at_end();
            }
            Err(_stop) => {}
        },
        Err(_stopped) => {}
    }
}
