//! What is told of an input.
use crate::asking::Answers;
use crate::choosing::line_of;
use crate::explained::{Expected, Explained, LineText};
use crate::faults::advice_for;
use crate::forms::{EVENTS, FULL, Openings, form_in, form_of, operations};
use crate::frames::RefusedFrame;
use crate::hints::{begins_operation, hint_of, plain_hint};
use crate::kind::Kind;
use crate::lines::{before_line, first_said, is_unended, last_line, line_at, word_at};
use crate::looks::{file_look, text_look};
use crate::mistakes::{Mistake, mistake_in};
use crate::raw::{MOST_WORD_BYTES, is_text};
use crate::remarks::Remark;
use crate::sketch_line::explain_line;
use crate::unread_log::{Logged, UNENDED, logged_for};
use dvg_blame::{Blamed, Reason};
use dvg_dump::{LARGE_DUMP_BYTES, SMALL_DUMP_BYTES};
use dvg_io::Text;
use dvg_logs::{LogFinding, LogVerdict};
use dvg_mem::{LARGE_ROM_BYTES, MEMORY_BYTES};
use dvg_print::Line;
use dvg_read::{MOST_TEXT_BYTES, TextFault, Unread, read_trace};
use std::alloc::Allocator;
use std::fmt::{self, Write};

/// An input, and what was found of it.
#[derive(Drop)]
pub(crate) struct Examined<'a, A: Allocator> {
    /// The input.
    pub text: &'a [u8],
    /// The same in small letters.
    pub small: &'a [u8],
    /// What the readers of texts answer.
    pub answers: Answers<A>,
    /// The kind for which it is taken.
    pub kind: Kind,
    /// The place at which words are cut.
    pub cut: Option<usize>,
}

// Tells `line`, which is line `number`.
fn tell_line<A: Allocator>(out: &mut Text<A>, number: usize, line: &[u8]) -> fmt::Result {
    let shown = LineText { bytes: line };
    write!(out, "line {number}: {shown}\n")
}

// Tells what is expected, `expected`.
fn tell_expected<A: Allocator, D: fmt::Display + Drop>(
    out: &mut Text<A>,
    expected: D,
) -> fmt::Result {
    write!(out, "expected {expected}\n")
}

// Tells `hint`, unless it is empty.
fn tell_hint<A: Allocator>(out: &mut Text<A>, hint: &str) -> fmt::Result {
    if hint.is_empty() {
        return Ok(());
    }
    write!(out, "hint: {hint}\n")
}

// Tells whether the words of `bytes` are a ROM, too, and which sizes a ROM and a dump have.
fn tell_sizes<A: Allocator>(out: &mut Text<A>, bytes: &[u8]) -> fmt::Result {
    let count = bytes.len();
    if count == MEMORY_BYTES {
        return write!(out, "dvg rom takes it as a ROM\n");
    }
    if count == MOST_WORD_BYTES {
        return write!(
            out,
            "dvg game takes it as a game, a vector ROM of {MEMORY_BYTES} bytes and a program\n"
        );
    }
    write!(
        out,
        "it is no ROM and no dump: dvg rom takes {MEMORY_BYTES} or {LARGE_ROM_BYTES} bytes, dvg \
         picture {SMALL_DUMP_BYTES} or {LARGE_DUMP_BYTES}, and it has {count}\n"
    )
}

// Tells that the words of `bytes` are cut at `place`.
fn tell_cut<A: Allocator>(out: &mut Text<A>, bytes: &[u8], place: usize) -> fmt::Result {
    write!(out, "the last word begins an instruction of two words\n")?;
    tell_sizes(out, bytes)?;
    let fault = TextFault::Cut(place);
    write!(out, "{fault}\n")
}

// Tells which commands take the dump `bytes`.
fn tell_dump<A: Allocator>(out: &mut Text<A>, bytes: &[u8]) -> fmt::Result {
    write!(out, "dvg picture takes it\n")?;
    if bytes.len() == LARGE_ROM_BYTES {
        write!(out, "dvg rom takes it as a ROM, and dvg list as words\n")?;
    }
    Ok(())
}

impl<A: Allocator + Copy> Examined<'_, A> {
    // Returns the fault that the reader of its kind has, if that is one of texts and has one.
    fn fault(&self) -> Option<TextFault> {
        match self.kind {
            Kind::Draft => self.answers.draft,
            Kind::Trace => self.answers.trace,
            Kind::Sketch => self.answers.sketch,
            Kind::Log => self.answers.log,
            Kind::Words | Kind::Dump | Kind::Other => None,
        }
    }

    // Returns the first frame that the check refuses, of a draft or a sketch.
    fn refused(&self) -> Option<&RefusedFrame<A>> {
        match self.kind {
            Kind::Draft | Kind::Sketch => self.answers.refused.as_ref(),
            _ => None,
        }
    }

    // Returns line `number`, and the same in small letters.
    fn line(&self, number: usize) -> (&[u8], &[u8]) {
        (line_at(self.text, number), line_at(self.small, number))
    }

    // Tells what was expected of line `number` of a draft or a sketch. A list of all words that may
    // begin it is left out if its mistake `is_told`.
    fn expect_row(&self, out: &mut Text<A>, number: usize, is_told: bool) -> fmt::Result {
        let fault = self.answers.sketch.unwrap_or(TextFault::Syntax(number));
        match explain_line(fault, self.text, self.small) {
            Some(
                Explained {
                    expected: Expected::Beginning,
                    ..
                },
            ) if is_told => Ok(()),
            Some(Explained { expected, .. }) => tell_expected(out, expected),
            None => Ok(()),
        }
    }

    // Whether line `number` of a trace stands in an offer. Fails where memory is refused.
    fn is_in_offer(&self, alloc: A, number: usize) -> Result<bool, fmt::Error> {
        match read_trace(alloc, before_line(self.text, number)) {
            Err(Unread::Text(TextFault::Unended)) => Ok(true),
            Err(Unread::Memory) => Err(fmt::Error),
            _ => Ok(false),
        }
    }

    // Tells what was expected of line `number` of a trace. A list is left out if `is_told`.
    fn expect_event(
        &self,
        alloc: A,
        out: &mut Text<A>,
        number: usize,
        is_told: bool,
    ) -> fmt::Result {
        let word = word_at(self.line(number).1, 0);
        if self.is_in_offer(alloc, number)? {
            return expect_operation(out, word, is_told);
        }
        match form_in(EVENTS.as_slice(), word) {
            "" => {}
            form => return tell_expected(out, form),
        }
        let forms = EVENTS.as_slice();
        match form_of(word) {
            "" if is_told => Ok(()),
            "" => write!(
                out,
                "expected a line that begins with {}, map, rom or #\n",
                Openings { forms }
            ),
            _ if begins_operation(word) => {
                tell_expected(
                    out,
                    "an operation only after a line offer, and before its end",
                )
            }
            form => tell_expected(out, form),
        }
    }

    // Tells what was expected of line `number` of a log. A list is left out if `is_told`.
    fn expect_logged(&self, out: &mut Text<A>, number: usize, is_told: bool) -> fmt::Result {
        match logged_for(word_at(self.line(number).1, 0)) {
            Logged::Beginning if is_told => Ok(()),
            expected => tell_expected(out, expected),
        }
    }

    // Tells what was expected of line `number`, at which `fault` is. A list of all words that may
    // begin it is left out if its mistake `is_told`.
    fn expect(
        &self,
        alloc: A,
        out: &mut Text<A>,
        fault: TextFault,
        number: usize,
        is_told: bool,
    ) -> fmt::Result {
        match (fault, self.kind) {
            (TextFault::Many(_), _) => {
                tell_expected(out, "at most 65536 events: tick N counts as N of them")
            }
            (TextFault::Full(_), Kind::Trace) => tell_expected(out, FULL),
            (_, Kind::Trace) => self.expect_event(alloc, out, number, is_told),
            (_, Kind::Log) => self.expect_logged(out, number, is_told),
            _ => self.expect_row(out, number, is_told),
        }
    }

    // Tells what is wrong with line `number`, where that is seen in it, and returns that. `fault`
    // is there. Fails where memory is refused.
    fn tell_mistake(
        &self,
        alloc: A,
        out: &mut Text<A>,
        fault: TextFault,
        number: usize,
    ) -> Result<Option<Mistake<'_>>, fmt::Error> {
        let TextFault::Syntax(_) = fault else {
            return Ok(None);
        };
        let Ok(found) = mistake_in(alloc, self.kind, self.text, self.small, number) else {
            return Err(fmt::Error);
        };
        if let Some(mistake) = found {
            write!(out, "{mistake}\n")?;
        }
        Ok(found)
    }

    // Tells of `fault`, which is at line `number`. Of a line that looks like none of its kind it
    // isn't told what was expected.
    fn tell_at(&self, alloc: A, out: &mut Text<A>, fault: TextFault, number: usize) -> fmt::Result {
        tell_line(out, number, self.line(number).0)?;
        match self.tell_mistake(alloc, out, fault, number)? {
            Some(Mistake::Look(_)) => {}
            found => self.expect(alloc, out, fault, number, found.is_some())?,
        }
        if is_unended(self.text, number) {
            write!(out, "{UNENDED}\n")?;
        }
        Ok(())
    }

    // Tells of `fault`, which the text has for its kind.
    fn tell_fault(&self, alloc: A, out: &mut Text<A>, fault: TextFault) -> fmt::Result {
        match shown_line(fault) {
            Some(number) => self.tell_at(alloc, out, fault, number)?,
            None if fault == TextFault::Unended => {
                let number = last_line(self.text, b"offer");
                tell_line(out, number, self.line(number).0)?;
                write!(out, "expected end after the operations of this offer\n")?;
            }
            None => {}
        }
        write!(out, "{fault}\n")
    }

    // Returns what `torn` says of a log, if it doesn't say that it isn't torn.
    fn torn(&self) -> Option<LogVerdict> {
        match (self.kind, self.answers.judged) {
            (Kind::Log, Ok(verdict)) if verdict.finding != LogFinding::NotTorn => Some(verdict),
            _ => None,
        }
    }

    // Tells of a log of which `torn` says `verdict`.
    fn tell_torn(&self, out: &mut Text<A>, verdict: LogVerdict) -> fmt::Result {
        match verdict.finding {
            LogFinding::NotTorn => {}
            LogFinding::Torn { line, .. } => {
                tell_line(out, line, self.line(line).0)?;
                write!(
                    out,
                    "it writes in the half that is being drawn, so the picture is torn\n"
                )?;
            }
            LogFinding::NoRunDrew if verdict.counts.runs == 0 => {
                write!(out, "no line says started, as each begins a run\n")?;
                write!(out, "do: log started where a strobe begins a run\n")?;
            }
            LogFinding::NoRunDrew => {
                write!(out, "no run fetches the jump to a half, at word 000\n")?;
                write!(out, "do: log each word that is fetched after started\n")?;
            }
        }
        tell_verdict(out, verdict)
    }

    // Tells at which line of the sketch `dvg check` stops, and why.
    fn tell_plain(&self, out: &mut Text<A>) -> fmt::Result {
        let Some(number) = self.answers.draft.and_then(line_of) else {
            return Ok(());
        };
        let (line, _) = self.line(number);
        let shown = LineText { bytes: line };
        write!(out, "dvg check stops at line {number}: {shown}\n")?;
        tell_hint(out, plain_hint(line))?;
        write!(
            out,
            "dvg lay --draft writes it as dvg check and dvg play take it\n"
        )
    }

    // Tells what is odd about the frames of a draft or of a sketch, if something is.
    fn tell_remark(&self, out: &mut Text<A>) -> fmt::Result {
        match (self.kind, self.answers.remark) {
            (Kind::Draft | Kind::Sketch, Some(Remark { number, oddity })) => {
                tell_line(out, number, self.line(number).0)?;
                write!(out, "{oddity}\n")
            }
            _ => Ok(()),
        }
    }

    // Tells which commands take the input, which they accept.
    fn tell_commands(&self, out: &mut Text<A>) -> fmt::Result {
        match self.kind {
            Kind::Words => {
                write!(out, "dvg list takes it\n")?;
                tell_sizes(out, self.text)
            }
            Kind::Dump => tell_dump(out, self.text),
            Kind::Draft => write!(out, "dvg check, dvg lay and dvg render take it\n"),
            Kind::Sketch => {
                write!(out, "dvg lay and dvg render take it\n")?;
                self.tell_plain(out)
            }
            Kind::Trace => write!(
                out,
                "dvg play takes it; where there is no picture, dvg play --all shows why\n"
            ),
            Kind::Log => {
                if let Ok(verdict) = self.answers.judged {
                    tell_verdict(out, verdict)?;
                }
                write!(
                    out,
                    "dvg torn says so; dvg torn --moments also asks if each run reads one frame\n"
                )
            }
            Kind::Other => Ok(()),
        }
    }

    // Tells what the input looks like, of which no command reads a line.
    fn tell_other(&self, out: &mut Text<A>) -> fmt::Result {
        if !is_text(self.text) {
            return tell_bytes(out, self.text);
        }
        let number = first_said(self.text);
        if number == 0 {
            return write!(out, "it is empty, or has empty lines and comments alone\n");
        }
        let (line, small) = self.line(number);
        tell_line(out, number, line)?;
        match (hint_of(small), text_look(self.small)) {
            ("", "") => write!(
                out,
                "no line of an input begins so: dvg help shows which there are\n"
            ),
            ("", look) => write!(out, "this looks like {look}\n"),
            (hint, _) => tell_hint(out, hint),
        }
    }

    /// Tells all but the last line. Whatever is asked for comes from `alloc`.
    pub(crate) fn tell(&self, alloc: A, out: &mut Text<A>) -> fmt::Result {
        if self.kind == Kind::Other {
            return self.tell_other(out);
        }
        if let Some(verdict) = self.torn() {
            return self.tell_torn(out, verdict);
        }
        if let Some(fault) = self.fault() {
            return self.tell_fault(alloc, out, fault);
        }
        if let Some(refused) = self.refused() {
            return tell_refused(out, refused, self.text);
        }
        if let Some(place) = self.cut {
            return tell_cut(out, self.text, place);
        }
        self.tell_remark(out)?;
        self.tell_commands(out)
    }
}

// Tells what `torn` writes of `verdict`.
fn tell_verdict<A: Allocator>(out: &mut Text<A>, verdict: LogVerdict) -> fmt::Result {
    let mut line = Line::new();
    line.become_log_verdict(verdict);
    out.add(line.as_bytes())
}

// Returns the number of the line that is shown of `fault`, if it has one.
fn shown_line(fault: TextFault) -> Option<usize> {
    match fault {
        TextFault::UnknownName(number) => Some(number),
        _ => line_of(fault),
    }
}

/// Tells of an input that is too long.
pub(crate) fn tell_long<A: Allocator>(out: &mut Text<A>) -> fmt::Result {
    write!(
        out,
        "it has more than {MOST_TEXT_BYTES} bytes: dvg torn alone reads longer inputs, logs\n"
    )
}

// Tells what `bytes` look like, which are neither text nor words nor a dump.
fn tell_bytes<A: Allocator>(out: &mut Text<A>, bytes: &[u8]) -> fmt::Result {
    let count = bytes.len();
    match file_look(bytes) {
        "" => write!(
            out,
            "it is no text, and has {count} bytes: dvg list takes an even number up to \
             {MOST_WORD_BYTES}, dvg rom {MEMORY_BYTES} or {LARGE_ROM_BYTES}, dvg picture \
             {SMALL_DUMP_BYTES} or {LARGE_DUMP_BYTES}\n"
        ),
        look => write!(out, "this looks like {look}\n"),
    }
}

// Tells what was expected of a line in an offer, which begins with `word`. A list is left out if
// `is_told`.
fn expect_operation<A: Allocator>(out: &mut Text<A>, word: &[u8], is_told: bool) -> fmt::Result {
    match form_in(operations(), word) {
        "" if is_told => Ok(()),
        "" => write!(
            out,
            "expected an operation or end: a line that begins with {}, end or #\n",
            Openings {
                forms: operations()
            }
        ),
        form => tell_expected(out, form),
    }
}

// Tells what `refusal` blames in `text`.
fn tell_blamed<A: Allocator>(
    out: &mut Text<A>,
    refused: &RefusedFrame<A>,
    text: &[u8],
) -> fmt::Result {
    if let Some(number) = refused.back {
        return tell_line(out, number, line_at(text, number));
    }
    match &refused.refusal.blamed {
        Blamed::Line { number, .. } => tell_line(out, *number, line_at(text, *number)),
        blamed => write!(out, "at {blamed}\n"),
    }
}

// Tells of `refused`, a frame of `text`.
fn tell_refused<A: Allocator>(
    out: &mut Text<A>,
    refused: &RefusedFrame<A>,
    text: &[u8],
) -> fmt::Result {
    tell_blamed(out, refused, text)?;
    let reason = &refused.refusal.reason;
    if let Reason::Fault(fault) = reason {
        let advice = advice_for(*fault, refused.back.is_some());
        write!(out, "{}\n", advice.means)?;
        write!(out, "do: {}\n", advice.cure)?;
    }
    write!(out, "{reason}\n")
}
