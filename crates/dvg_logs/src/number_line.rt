//! Lines of logs that have numbers, as most do, and comments. Each is taken from the head of a
//! text, one that has numbers with no search for its end.
ghost use Rattle.std.specs.Prelude.{◌≡◌, ◌+◌, ◌*◌, ◌<◌, IfSome};
ghost use Rattle.dvg_logs.specs.LogLineTells.{BeginsWithNumbers};

use crate::line_judge::LineJudge;
use crate::log_line::{LogLine, MOST_LINE_BYTES, RAM_BYTES};
use crate::log_reading::JudgedLines;
use dvg_read::digit_of;
use memchr::memchr;

/// The most bytes of a line that has numbers, with its end. A text with fewer bytes left is read
/// otherwise.
const MOST_NUMBER_BYTES: usize = 17;

// Returns the number of two hexadecimal digits, whose values are `a` and `b`.
#[inline(always)]
fn of_two(a: u8, b: u8) -> u8
    requires { (a < 16) × (b < 16) }
    ensures { result ≡ 16 * a + b }
{
    16 * a + b
}

// Returns the number of three hexadecimal digits, whose values are `a`, `b` and `c`.
#[inline(always)]
fn of_three(a: u8, b: u8, c: u8) -> u16
    requires { (a < 16) × (b < 16) × (c < 16) }
    ensures { result ≡ 256 * a + (16 * b + c) }
{
    256 * u16::from(a) + u16::from(of_two(b, c))
}

// Returns the address (three digits) and the byte (two) on the first line of `text`, and the text
// after that line; else `None`. All digits are tested at once.
#[inline(always)]
fn address_and_byte(text: &[u8]) -> Option<(u16, u8, &[u8])>
    ensures { IfSome result (λ found. BeginsWithNumbers 2 found.0 found.1 text.now found.2.now) }
{
    let [a, b, c, b' ', d, e, b'\n', rest @ ..] = text else {
        return None;
    };
    let (a, b, c) = (digit_of(*a), digit_of(*b), digit_of(*c));
    let (d, e) = (digit_of(*d), digit_of(*e));
    let all = a | b | c | d | e;
    if all >= 16 {
        return None;
    }
    Some((of_three(a, b, c), of_two(d, e), rest))
}

// Returns the address and the word that `text` begins with, and what comes after the line's end.
#[inline(always)]
fn address_and_word(text: &[u8]) -> Option<(u16, u16, &[u8])>
    ensures { IfSome result (λ found. BeginsWithNumbers 4 found.0 found.1 text.now found.2.now) }
{
    let [a, b, c, b' ', d, e, f, g, b'\n', rest @ ..] = text else {
        return None;
    };
    let (a, b, c) = (digit_of(*a), digit_of(*b), digit_of(*c));
    let (d, e, f, g) = (digit_of(*d), digit_of(*e), digit_of(*f), digit_of(*g));
    let all = a | b | c | d | e | f | g;
    if all >= 16 {
        return None;
    }
    let word = 256 * u16::from(of_two(d, e)) + u16::from(of_two(f, g));
    Some((of_three(a, b, c), word, rest))
}

// Each line is taken from the head of a text, if it ends there and doesn't decide. What comes after
// it is returned.
impl<J: LineJudge> JudgedLines<J> {
    ghost use Rattle.std.specs.Prelude.{◌≡◌, ◌+◌, ◌-◌, ◌^◌, ◌<◌, ◌++◌, IfSome, IsNone, IsSome};
    ghost use Rattle.std.specs.Prelude.{codes};
    ghost use Rattle.dvg_logs.specs.LogReading.{TakesLine, TakesLines};

    // Takes the rest of a line `wrote` from `text`, after `wrot`: four letters are compared as one
    // number, and six are not. Returns what comes after the line. One with an address of the
    // processor isn't taken here.
    #[inline(always)]
    fn take_wrote<'a>(&mut self, text: &'a [u8]) -> Option<&'a [u8]>
        requires room { self.old.count < 2 ^ 64 - 1 }
        ensures taken { IfSome result (λ rest.
            TakesLine J.Stands J.Passes self.old self.new (codes "wrot" ++ text.now) rest.now) }
        ensures count { IsSome result → self.new.count ≡ self.old.count + 1 }
        ensures none { IsNone result → self.new ≡ self.old }
    {
        if self.base.is_some() {
            return None;
        }
        let [b'e', b' ', numbers @ ..] = text else {
            return None;
        };
        let (address, byte, rest) = address_and_byte(numbers)?;
        if address < RAM_BYTES && self.take_logged(LogLine::Wrote(address, byte)) {
            Some(rest)
        } else {
            None
        }
    }

    // Takes the rest of a line `low` from `text`, after its name and a space. Returns what comes
    // after the line.
    #[inline(always)]
    fn take_low<'a>(&mut self, text: &'a [u8]) -> Option<&'a [u8]>
        requires room { self.old.count < 2 ^ 64 - 1 }
        ensures taken { IfSome result (λ rest.
            TakesLine J.Stands J.Passes self.old self.new (codes "low " ++ text.now) rest.now) }
        ensures count { IsSome result → self.new.count ≡ self.old.count + 1 }
        ensures none { IsNone result → self.new ≡ self.old }
    {
        let (address, byte, rest) = address_and_byte(text)?;
        if self.take_logged(LogLine::Low(address, byte)) {
            Some(rest)
        } else {
            None
        }
    }

    // Takes the rest of a line `fetched` from `text`, after its name and a space. Returns what
    // comes after the line.
    #[inline(always)]
    fn take_fetched<'a>(&mut self, text: &'a [u8]) -> Option<&'a [u8]>
        requires room { self.old.count < 2 ^ 64 - 1 }
        ensures taken { IfSome result (λ rest.
            TakesLine J.Stands J.Passes self.old self.new (codes "fetched " ++ text.now) rest.now) }
        ensures count { IsSome result → self.new.count ≡ self.old.count + 1 }
        ensures none { IsNone result → self.new ≡ self.old }
    {
        let (address, word, rest) = address_and_word(text)?;
        if self.take_logged(LogLine::Fetched(address, word)) {
            Some(rest)
        } else {
            None
        }
    }

    // Takes a line that begins with `#` from the head of `text`. Returns what comes after it.
    #[inline(always)]
    fn take_comment<'a>(&mut self, text: &'a [u8]) -> Option<&'a [u8]>
        requires room { self.old.count < 2 ^ 64 - 1 }
        ensures taken { IfSome result (λ rest.
            TakesLine J.Stands J.Passes self.old self.new text.now rest.now) }
        ensures count { IsSome result → self.new.count ≡ self.old.count + 1 }
        ensures none { IsNone result → self.new ≡ self.old }
    {
        let [b'#', ..] = text else {
            return None;
        };
        let end = memchr(b'\n', text)?;
        if end <= MOST_LINE_BYTES && self.take_logged(LogLine::Passed) {
            Some(&text[end + 1..])
        } else {
            None
        }
    }

    // Takes a line that has numbers, or begins with `#`, from the head of `text`. Returns what
    // comes after it. The name that comes most often is looked for first.
    #[inline(always)]
    fn take_usual_line<'a>(&mut self, text: &'a [u8]) -> Option<&'a [u8]>
        requires room { self.old.count < 2 ^ 64 - 1 }
        ensures taken { IfSome result (λ rest.
            TakesLine J.Stands J.Passes self.old self.new text.now rest.now) }
        ensures count { IsSome result → self.new.count ≡ self.old.count + 1 }
        ensures none { IsNone result → self.new ≡ self.old }
    {
        if text.len() < MOST_NUMBER_BYTES {
            return None;
        }
        if let Some(rest) = text.strip_prefix(b"wrot") {
            self.take_wrote(rest)
        } else if let Some(rest) = text.strip_prefix(b"fetched ") {
            self.take_fetched(rest)
        } else if let Some(rest) = text.strip_prefix(b"low ") {
            self.take_low(rest)
        } else {
            self.take_comment(text)
        }
    }

    /// Takes lines that have numbers, or begin with `#`, from the head of `text`. It stops before
    /// the first line that is of another kind, that decides or that doesn't end, and where fewer
    /// bytes are left than the longest line with numbers has. Returns what comes after the lines.
    #[inline(never)]
    pub fn take_usual_lines<'a>(&mut self, text: &'a [u8]) -> &'a [u8]
        ensures { TakesLines J.Stands J.Passes self.old self.new text.now result.now }
    {
        let mut rest = text;
        while self.count < usize::MAX {
            let Some(after) = self.take_usual_line(rest) else {
                break;
            };
            rest = after;
        }
        rest
    }
}
