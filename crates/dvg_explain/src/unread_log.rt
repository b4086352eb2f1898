//! What is printed of a log beside the name of its fault: the line that isn't read, and what to do
//! about it.

use crate::explained::LineText;
use crate::forms::{LOG_LINES, Openings, form_in};
use crate::hints::hint_of;
use crate::lines::word_at;
use crate::looks::file_look;
use arrayvec::ArrayVec;
use dvg_logs::{MOST_LINE_BYTES, read_log_line};
use std::fmt;

/// What is said of a last line that has no end.
pub const UNENDED: &str = "it is the last line, and has no line end: is the input cut?";

/// What is expected of a write, in a log that has addresses of the processor.
const BASED: &str = "wrote HHHH HH: an address of the processor of four digits, in the 2,048 bytes \
                     from --base on; a byte of two digits";

/// What was expected of a line of a log.
#[derive(Clone, Copy)]
pub(crate) enum Logged {
    /// This.
    This(&'static str),
    /// A word that may begin a line.
    Beginning,
}

/// Returns what was expected of a line that begins with `word`, in small letters.
pub(crate) fn logged_for(word: &[u8]) -> Logged {
    match form_in(LOG_LINES.as_slice(), word) {
        "" => Logged::Beginning,
        form => Logged::This(form),
    }
}

impl fmt::Display for Logged {
    fn fmt<W: fmt::Write>(&self, f: &mut fmt::Formatter<W>) -> fmt::Result {
        match self {
            Logged::This(text) => write!(f, "{text}"),
            Logged::Beginning => {
                let forms = LOG_LINES.as_slice();
                write!(f, "a line that begins with {} or #", Openings { forms })
            }
        }
    }
}

/// What to do about a line that isn't read.
#[derive(Clone, Copy)]
enum Advice {
    /// The input is another kind of file, which looks like this.
    File(&'static str),
    /// The line is too long.
    Long,
    /// A hint, printed as it is.
    Hint(&'static str),
    /// To write what was expected.
    Expected(Logged),
}

/// The line of a log that isn't read, and what to do about it.
#[derive(Clone, Copy)]
pub struct UnreadLog<'t> {
    line: &'t [u8],
    // Whether the bytes of the log end with the line, without a line end.
    is_unended: bool,
    advice: Advice,
}

// Returns what to do about a line that isn't read: `small`, in small letters. It is one of a log
// with addresses of the processor, or not (`is_based`).
fn advice_of(small: &[u8], is_based: bool) -> Advice {
    match (hint_of(small), word_at(small, 0)) {
        ("", b"wrote") if is_based => Advice::Expected(Logged::This(BASED)),
        ("", word) => Advice::Expected(logged_for(word)),
        (hint, _) => Advice::Hint(hint),
    }
}

// Returns what to do about `line`, which isn't read. `is_based` says the same.
fn advice_for(line: &[u8], is_based: bool) -> Advice {
    let mut small = ArrayVec::<u8, MOST_LINE_BYTES>::new();
    for byte in line {
        if small.try_push(byte.to_ascii_lowercase()).is_err() {
            return Advice::Long;
        }
    }
    advice_of(small.as_slice(), is_based)
}

impl<'t> UnreadLog<'t> {
    /// Returns the first line of `bytes` that isn't read, the line `number` of a log, of which
    /// `bytes` are a part that begins with a line. With a `base`, lines `wrote` have addresses of
    /// the processor. Returns `None` if each line is read.
    pub fn of(bytes: &'t [u8], number: usize, base: Option<u16>) -> Option<UnreadLog<'t>> {
        let is_unread = |line: &&[u8]| read_log_line(line, base).is_none();
        let mut lines = bytes.split(|byte| *byte == b'\n');
        let line = lines.find(is_unread)?;
        let advice = match file_look(bytes) {
            look if number == 1 && !look.is_empty() => Advice::File(look),
            _ => advice_for(line, base.is_some()),
        };
        Some(UnreadLog {
            line,
            is_unended: lines.next().is_none(),
            advice,
        })
    }

    /// Returns the text of the line.
    pub fn line(&self) -> LineText<'t> {
        LineText { bytes: self.line }
    }

    /// Whether the bytes of the log end with the line, which has no line end. It is a line of a
    /// log, not of a file of another kind.
    pub fn is_unended(&self) -> bool {
        match self.advice {
            Advice::File(_) => false,
            _ => self.is_unended,
        }
    }
}

impl fmt::Display for UnreadLog<'_> {
    fn fmt<W: fmt::Write>(&self, f: &mut fmt::Formatter<W>) -> fmt::Result {
        match self.advice {
            Advice::File(look) => write!(f, "this looks like {look}"),
            Advice::Long => write!(f, "a line of a log has at most {MOST_LINE_BYTES} bytes"),
            Advice::Hint(hint) => write!(f, "{hint}"),
            Advice::Expected(expected) => write!(f, "expected {expected}"),
        }
    }
}
