//! The text of a log, as it is read in pieces. A log has at most 2^64 - 1 lines, as their numbers
//! have 64 bits: so reading is proved to end, whatever the reader.
ghost use Rattle.std.specs.Prelude.{◌≡◌, ◌+◌, ◌-◌, ◌^◌, ◌<◌, ◌≤◌, [], ◌∷◌, ◌++◌, ℕ, List, Option};
ghost use Rattle.std.specs.Prelude.{IfErr, IsTrue, OnOk, length};
ghost use Rattle.dvg_log.specs.Log.{Line, Log};
ghost use Rattle.dvg_read.specs.Texts.{lines};
ghost use Rattle.dvg_logs.specs.LogLines.{IsLineOf};
ghost use Rattle.dvg_logs.specs.LogTexts.{IsWhole};
ghost use Rattle.dvg_logs.specs.LogLineTells.{line_of};
ghost use Rattle.dvg_logs.specs.LogReading.{HasJudged, HasRead, IfDecided, IsOpen, JudgesOn};
ghost use Rattle.dvg_logs.specs.LogReading.{ReadsOn, StopsAt, number_of, place_of};

use crate::line_judge::LineJudge;
use crate::log_line::{LogLine, MOST_LINE_BYTES, read_log_line};
use arrayvec::ArrayVec;
use memchr::memchr;

/// Why the reading of a log stops before its text ends.
#[derive(Clone, Copy, Debug, PartialEq, Eq)]
pub enum LogStop<V> {
    /// The line of this number, counted from 1, decides: this is said of the log.
    Found(usize, V),
    /// The line of this number, counted from 1, says nothing that a line may say.
    Syntax(usize),
    /// There are more lines than are counted.
    TooLong,
}

/// Why the reading stops in a piece of a text, and what of the piece comes after the line by which
/// it does.
#[derive(Clone, Copy)]
pub struct Stopped<'a, V> {
    pub stop: LogStop<V>,
    pub rest: &'a [u8],
}

/// The lines that have ended. None of them is at fault.
#[derive(Clone, Copy)]
pub struct JudgedLines<J> {
    judge: J,
    /// Where the processor has the RAM, if lines `wrote` have its addresses.
    pub base: Option<u16>,
    /// How many there are.
    pub count: usize,
}

impl<J: LineJudge> JudgedLines<J> {
    // Returns why the next line stops the reading, where it says nothing that a line may say.
    fn wrong(&self) -> LogStop<J::Verdict>
        ensures stop { (base : Option ℕ) (said : List J.Verdict) (before : List (List ℕ))
            (line : List ℕ) (after : List (List ℕ))
            → HasJudged base J.Stands (J.Passes said) self.now before
            → ((logged : Line) → ¬ IsLineOf base logged line)
            → StopsAt base (J.Passes said) J.Finds result (before ++ line ∷ after) }
        ensures on { IfDecided result (λ one. ⊥) }
        ensures next { number_of result ≡ self.now.count + 1 }
    {
        if self.count == usize::MAX {
            return LogStop::TooLong;
        }
        LogStop::Syntax(self.count + 1)
    }

    // Takes the next line, `line`. Returns why the reading stops there, if it does. A line that
    // decides is taken, too, so the reading may go on after it.
    fn take(&mut self, line: &[u8]) -> Result<(), LogStop<J::Verdict>>
        ensures taken { (base : Option ℕ) (said : List J.Verdict) (before : List (List ℕ))
            → HasJudged base J.Stands (J.Passes said) self.old before
            → OnOk result
            (HasJudged base J.Stands (J.Passes said) self.new (before ++ line.now ∷ [])) }
        ensures stop { IfErr result (λ stop. (base : Option ℕ) (said : List J.Verdict)
            (before after : List (List ℕ))
            → HasJudged base J.Stands (J.Passes said) self.old before
            → StopsAt base (J.Passes said) J.Finds stop (before ++ line.now ∷ after)) }
        ensures on { IfErr result (λ stop.
            IfDecided stop (JudgesOn J.Stands J.Passes self.old self.new line.now)) }
        ensures next { IfErr result (λ stop. number_of stop ≡ self.old.count + 1) }
        ensures count { OnOk result (self.new.count ≡ self.old.count + 1) }
    {
        if self.count == usize::MAX {
            return Err(LogStop::TooLong);
        }
        let number = self.count + 1;
        let Some(logged) = read_log_line(line, self.base) else {
            return Err(LogStop::Syntax(number));
        };
        let found = self.judge.find(number, logged);
        self.judge.take(number, logged);
        self.count = number;
        match found {
            Some(verdict) => Err(LogStop::Found(number, verdict)),
            None => Ok(()),
        }
    }

    /// Takes a line that says `logged`, unless it decides. Returns whether it is taken. Else
    /// nothing changes.
    #[inline(always)]
    pub fn take_logged(&mut self, logged: LogLine) -> bool
        requires room { self.old.count < 2 ^ 64 - 1 }
        ensures taken { IsTrue result → (base : Option ℕ) (said : List J.Verdict)
            (before : List (List ℕ)) (line : List ℕ)
            → HasJudged base J.Stands (J.Passes said) self.old before
            → IsLineOf base (line_of logged) line
            → HasJudged base J.Stands (J.Passes said) self.new (before ++ line ∷ []) }
        ensures count { IsTrue result → self.new.count ≡ self.old.count + 1 }
        ensures found { ¬ IsTrue result → self.new ≡ self.old }
    {
        let number = self.count + 1;
        if self.judge.find(number, logged).is_some() {
            return false;
        }
        self.judge.take(number, logged);
        self.count = number;
        true
    }
}

/// What was read of a log's text.
#[derive(Drop)]
pub struct LogReading<J> {
    judged: JudgedLines<J>,
    // The bytes of a line that has not ended.
    unfinished: ArrayVec<u8, MOST_LINE_BYTES>,
}

impl<J: LineJudge> LogReading<J> {
    /// Returns the reading before the first piece, whose lines `judge` is told. It was told none.
    /// With a `base`, lines `wrote` have addresses of the processor.
    pub fn new(judge: J, base: Option<u16>) -> LogReading<J>
        ensures { J.Stands judge [] → J.Passes [] []
            → HasRead base J.Stands (J.Passes []) result [] }
    {
        LogReading {
            judged: JudgedLines {
                judge,
                base,
                count: 0,
            },
            unfinished: ArrayVec::new(),
        }
    }

    // Takes `bytes` of a line, without its end.
    fn begin_line(&mut self, bytes: &[u8]) -> Result<(), LogStop<J::Verdict>>
        requires { IsOpen bytes.now }
        ensures read { (base : Option ℕ) (said : List J.Verdict) (text : List ℕ)
            → HasRead base J.Stands (J.Passes said) self.old text
            → OnOk result (HasRead base J.Stands (J.Passes said) self.new (text ++ bytes.now)) }
        ensures stop { IfErr result (λ stop. (base : Option ℕ) (said : List J.Verdict)
            (text more : List ℕ)
            → HasRead base J.Stands (J.Passes said) self.old text
            → StopsAt base (J.Passes said) J.Finds stop (lines (text ++ (bytes.now ++ more)))) }
        ensures on { IfErr result (λ stop. IfDecided stop (λ one. ⊥)) }
        ensures next { IfErr result (λ stop. number_of stop ≡ self.old.judged.count + 1) }
        ensures bytes { OnOk result (self.new.unfinished.items
            ≡ self.old.unfinished.items ++ bytes.now) }
        ensures judged { OnOk result (self.new.judged ≡ self.old.judged) }
        ensures fits { OnOk result (length self.new.unfinished.items ≤ 64) }
    {
        match self.unfinished.try_extend_from_slice(bytes) {
            Ok(()) => Ok(()),
            Err(_) => Err(self.judged.wrong()),
        }
    }

    // Takes `bytes`, the last ones of a line, and its end.
    fn end_line(&mut self, bytes: &[u8]) -> Result<(), LogStop<J::Verdict>>
        requires { IsOpen bytes.now }
        ensures read { (base : Option ℕ) (said : List J.Verdict) (text : List ℕ)
            → HasRead base J.Stands (J.Passes said) self.old text → OnOk result
            (HasRead base J.Stands (J.Passes said) self.new (text ++ (bytes.now ++ 10 ∷ []))) }
        ensures stop { IfErr result (λ stop. (base : Option ℕ) (said : List J.Verdict)
            (text more : List ℕ)
            → HasRead base J.Stands (J.Passes said) self.old text
            → StopsAt base (J.Passes said) J.Finds stop
            (lines (text ++ (bytes.now ++ 10 ∷ more)))) }
        ensures on { IfErr result (λ stop. IfDecided stop
            (ReadsOn J.Stands J.Passes self.old self.new (bytes.now ++ 10 ∷ []) [])) }
        ensures next { IfErr result (λ stop. number_of stop ≡ self.old.judged.count + 1) }
        ensures count { OnOk result (self.new.judged.count ≡ self.old.judged.count + 1) }
        ensures farther { OnOk result (place_of self.old < place_of self.new) }
        ensures ended { OnOk result (self.new.unfinished.items ≡ []) }
    {
        if self.unfinished.is_empty() {
            return self.judged.take(bytes);
        }
        match self.begin_line(bytes) {
            Ok(()) => {}
            Err(stop) => return Err(stop),
        }
        let taken = self.judged.take(self.unfinished.as_slice());
        self.unfinished.clear();
        taken
    }

    /// Takes `piece`, the next piece of the text. Returns where the reading stops, if it does: at
    /// the first line that decides or that is at fault. After one that decides it may go on, with
    /// the rest of the piece.
    pub fn take_piece<'a>(&mut self, piece: &'a [u8]) -> Result<(), Stopped<'a, J::Verdict>>
        ensures read { (base : Option ℕ) (said : List J.Verdict) (text : List ℕ)
            → HasRead base J.Stands (J.Passes said) self.old text
            → OnOk result (HasRead base J.Stands (J.Passes said) self.new (text ++ piece.now)) }
        ensures stop { IfErr result (λ stopped. (base : Option ℕ) (said : List J.Verdict)
            (text more : List ℕ)
            → HasRead base J.Stands (J.Passes said) self.old text
            → StopsAt base (J.Passes said) J.Finds stopped.stop
            (lines (text ++ (piece.now ++ more)))) }
        ensures on { IfErr result (λ stopped. IfDecided stopped.stop
            (ReadsOn J.Stands J.Passes self.old self.new piece.now stopped.rest.now)) }
        ensures later { IfErr result (λ stopped.
            self.old.judged.count < number_of stopped.stop) }
        ensures farther { 0 < length piece.now
            → OnOk result (place_of self.old < place_of self.new) }
    {
        let mut rest = piece;
        while let Some(end) = memchr(b'\n', rest) {
            let after = &rest[end + 1..];
            match self.end_line(&rest[..end]) {
                Ok(()) => {}
                Err(stop) => return Err(Stopped { stop, rest: after }),
            }
            rest = self.judged.take_usual_lines(after);
        }
        match self.begin_line(rest) {
            Ok(()) => Ok(()),
            Err(stop) => Err(Stopped { stop, rest }),
        }
    }

    /// Takes the end of the text, which ends a line that has begun. Returns why the reading stops
    /// at this last line, if it does.
    pub fn finish(&mut self) -> Result<(), LogStop<J::Verdict>>
        ensures read { (base : Option ℕ) (said : List J.Verdict) (text : List ℕ)
            → HasRead base J.Stands (J.Passes said) self.old text
            → OnOk result (HasJudged base J.Stands (J.Passes said) self.new.judged (lines text)) }
        ensures stop { IfErr result (λ stop. (base : Option ℕ) (said : List J.Verdict)
            (text : List ℕ) → HasRead base J.Stands (J.Passes said) self.old text
            → StopsAt base (J.Passes said) J.Finds stop (lines text)) }
        ensures on { IfErr result (λ stop. IfDecided stop (λ one.
            (base : Option ℕ) (said : List J.Verdict) (text : List ℕ)
            → HasRead base J.Stands (J.Passes said) self.old text
            → HasJudged base J.Stands (J.Passes (one ∷ said)) self.new.judged (lines text))) }
        ensures next { IfErr result (λ stop. number_of stop ≡ self.old.judged.count + 1) }
    {
        if self.unfinished.is_empty() {
            return Ok(());
        }
        self.judged.take(self.unfinished.as_slice())
    }

    /// Returns what is said of the log of all lines, once the text has ended.
    pub fn at_end(&self) -> J::Verdict
        ensures { (base : Option ℕ) (said : List J.Verdict) (texts : List (List ℕ))
            → HasJudged base J.Stands (J.Passes said) self.now.judged texts
            → (log : Log) × IsWhole base (J.Passes said) texts log × J.Ends result log }
    {
        self.judged.judge.at_end()
    }
}
