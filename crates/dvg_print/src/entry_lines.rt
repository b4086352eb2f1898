//! Lines of entries, which are numbered.
ghost use Rattle.std.specs.Prelude.{◌≡◌, ◌+◌, ◌-◌, ◌%◌, ◌^◌, ◌<◌, ◌≤◌, ◌++◌, ◌∷◌, []};
ghost use Rattle.std.specs.Prelude.{decimal, take};
ghost use Rattle.dvg_log.specs.Entries.{map_entry};
ghost use Rattle.dvg_print.specs.Shows.{entry_line};

use crate::digits::{NUMBER_BYTES, add_one};
use crate::line::Line;
use dvg_log::Entry;
use itoa::Buffer;
use std::marker::Model;

/// The lines that `play --all` writes of entries, one at a time. The digits of the next event's
/// number are kept and counted up in place, the last one apart from the others.
#[derive(Drop)]
pub struct EntryLines {
    line: Line,
    // The first `count` of these bytes are the digits of the next entry's number before its last
    // one. Nine lines in ten leave them: bytes just written are slow to read together.
    tens: [u8; NUMBER_BYTES],
    count: usize,
    ones: u8,
    // The number of the next entry's event.
    next: usize,
}

/// Contracts see the bytes of the line, and the number of the next one.
impl Model for EntryLines {
    ghost use Rattle.std.specs.Prelude.{◌≡◌, ◌≤◌, ◌++◌, ◌∷◌, [], decimal, take};
    ghost use Rattle.dvg_print.specs.Numbering.{Numbered};

    ghost Value = { Numbered };

    ghost view = { λ entry_lines. record { text = entry_lines.line; next = entry_lines.next } };

    ghost invariant = { λ entry_lines. (entry_lines.count ≤ 20)
        × (take entry_lines.count entry_lines.tens ++ entry_lines.ones ∷ []
        ≡ decimal entry_lines.next) };
}

// Returns the digits of `number` at the front of an array, and how many they are.
fn digits_of(number: usize) -> ([u8; NUMBER_BYTES], usize)
    ensures digits { take result.1 result.0 ≡ decimal number }
    ensures few { result.1 ≤ 20 }
{
    let mut buffer = Buffer::new();
    let text = buffer.format(number).as_bytes();
    let mut bytes = [0; NUMBER_BYTES];
    bytes[..text.len()].copy_from_slice(text);
    (bytes, text.len())
}

// Returns the digits of `number` before its last one, and how many they are.
fn tens_of(number: usize) -> ([u8; NUMBER_BYTES], usize)
    ensures digits { take result.1 result.0 ++ (48 + number % 10) ∷ [] ≡ decimal number }
    ensures few { result.1 ≤ 20 }
{
    if number < 10 {
        return ([0; NUMBER_BYTES], 0);
    }
    digits_of(number / 10)
}

impl EntryLines {
    /// Returns a line with no bytes, where `next` is the number of the next entry's event.
    pub fn new(next: usize) -> EntryLines
        ensures text { result.text ≡ [] }
        ensures next { result.next ≡ next }
    {
        let (tens, count) = tens_of(next);
        EntryLines {
            line: Line::new(),
            tens,
            count,
            ones: b'0' + (next % 10) as u8,
            next,
        }
    }

    /// Returns the bytes of the line.
    #[inline(always)]
    pub fn as_bytes(&self) -> &[u8]
        ensures { result.now ≡ self.now.text }
    {
        self.line.as_bytes()
    }

    /// Becomes the line of `entry`, the next entry. `drew` is how many strokes the run drew, if
    /// `entry` finished one.
    #[inline(always)]
    pub fn become_next<S>(&mut self, entry: &Entry<S>, drew: usize)
        requires { self.old.next + 1 < 2 ^ 64 }
        ensures text { self.new.text ≡ entry_line self.old.next (map_entry (λ _. drew) entry.now) }
        ensures next { self.new.next ≡ self.old.next + 1 }
    {
        self.line.clear();
        self.line.front(&self.tens, self.count);
        self.line.text(&[self.ones]);
        self.line.entry(entry, drew);
        self.line.text(b"\n");
        self.count_on();
    }

    /// Becomes the line of `entry`, the next entry, as `become_next` does. The line is that of an
    /// equal entry before it, so nine times in ten only the last digit changes.
    #[inline(always)]
    pub fn become_again<S>(&mut self, entry: &Entry<S>, drew: usize)
        requires next { self.old.next + 1 < 2 ^ 64 }
        requires equal { self.old.text
            ≡ entry_line (self.old.next - 1) (map_entry (λ _. drew) entry.now) }
        ensures text { self.new.text ≡ entry_line self.old.next (map_entry (λ _. drew) entry.now) }
        ensures next { self.new.next ≡ self.old.next + 1 }
    {
        if self.ones > b'0' {
            self.line.put(self.count, self.ones);
            self.count_on();
            return;
        }
        self.become_tenth(entry, drew);
    }

    // Becomes the line of `entry`, the next entry, as `become_next` does. It isn't inlined, as it
    // is wanted for one equal entry in ten.
    #[inline(never)]
    fn become_tenth<S>(&mut self, entry: &Entry<S>, drew: usize)
        requires { self.old.next + 1 < 2 ^ 64 }
        ensures text { self.new.text ≡ entry_line self.old.next (map_entry (λ _. drew) entry.now) }
        ensures next { self.new.next ≡ self.old.next + 1 }
    {
        self.become_next(entry, drew);
    }

    // Goes on to the next number. Nine times in ten only the last digit changes.
    #[inline(always)]
    fn count_on(&mut self)
        requires { self.old.next + 1 < 2 ^ 64 }
        ensures text { self.new.text ≡ self.old.text }
        ensures next { self.new.next ≡ self.old.next + 1 }
    {
        if self.ones < b'9' {
            self.next += 1;
            self.ones += 1;
            return;
        }
        self.next_ten();
    }

    // Goes on to the next number from one that ends with a nine. It isn't inlined, as its caller is
    // faster without it.
    #[inline(never)]
    fn next_ten(&mut self)
        requires nine { self.old.next % 10 ≡ 9 }
        requires next { self.old.next + 1 < 2 ^ 64 }
        ensures text { self.new.text ≡ self.old.text }
        ensures next { self.new.next ≡ self.old.next + 1 }
    {
        self.next += 1;
        self.ones = b'0';
        if !add_one(&mut self.tens, self.count) {
            (self.tens, self.count) = tens_of(self.next);
        }
    }
}
