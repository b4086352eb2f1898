//! Cursors: the bytes of a frame, one after the other.
ghost use Rattle.std.specs.Prelude.{◌<◌, length};
ghost use Rattle.dvg_frame.specs.Steps.{IsWellFormed};
ghost use Rattle.dvg_frame.specs.own.Counting.{IsCounted};
ghost use Rattle.dvg_frame.specs.own.Frames.{AreBytesOf};

use crate::checked::Checked;
use crate::counted::{COUNTS, Counted, put_words_before};
use crate::draft::Draft;
use crate::frame::{Frame, spelling};
use crate::word_bytes::WordBytes;
use arrayvec::ArrayVec;
use dvg_mem::Half;
use std::iter::FusedIterator;
use std::marker::Model;

/// An iterator over the bytes of a checked draft that is laid out for a half, each with its byte
/// address in the RAM: from the low byte of the half's first word on, in rising order.
///
/// A cursor keeps the draft, its place in it, and how many words stand before each operation, so
/// that an item takes constant time.
#[derive(Drop)]
pub struct Cursor {
    draft: Draft,
    /// For each operation of the draft the number of words before it, and then the number of all
    /// words.
    words_before: ArrayVec<u16, COUNTS>,
    half: Half,
    /// The bytes at hand: those still to come of the operation before number `op`.
    at_hand: WordBytes,
    /// The number of the operation that comes after the bytes at hand.
    op: u16,
    /// The address after the last byte.
    end: u16,
    /// The number of bytes that are still to come.
    left: u16,
}

/// Contracts see the draft, the half, and how many bytes are still to come: `items_in` makes of
/// them the items, pairs of a byte address and a byte.
impl Model for Cursor {
    ghost use Rattle.dvg_frame.specs.Left.{CursorState};

    ghost Value = { CursorState };

    ghost use Rattle.dvg_frame.specs.Cursors.{IsCursor};

    ghost view = { λ cursor. record {
      draft = cursor.draft;
      half = cursor.half;
      left = cursor.left;
    } };

    ghost invariant = { IsCursor };
}

impl Cursor {
    ghost use Rattle.std.specs.Prelude.{◌≡◌, ◌≤◌, ◌*◌, All, length};
    ghost use Rattle.dvg_mem.specs.Areas.{base};
    ghost use Rattle.dvg_frame.specs.Bytes.{IsBehindWordZero, addressed, bytes};
    ghost use Rattle.dvg_frame.specs.Layout.{laid, size};
    ghost use Rattle.dvg_frame.specs.Left.{IsOf, items_in};
    ghost use Rattle.dvg_frame.specs.Steps.{IsWellFormed};

    /// Returns a cursor over the bytes of `frame`, laid out for `half`.
    pub fn new(frame: Frame, half: Half) -> Cursor
        ensures items { items_in result
            ≡ addressed (2 * base half) (bytes (laid half frame.operations)) }
        ensures in_ram { All IsBehindWordZero (items_in result) }
        ensures source { IsOf result frame.operations half }
    {
        Cursor::of(&frame.as_checked(), half)
    }

    /// Returns a cursor over the bytes of `checked`, laid out for `half`. The operations are
    /// copied: so a draft that is checked where it lies is copied once, into its cursor.
    pub fn of(checked: &Checked, half: Half) -> Cursor
        ensures items { items_in result
            ≡ addressed (2 * base half) (bytes (laid half checked.now.operations)) }
        ensures in_ram { All IsBehindWordZero (items_in result) }
        ensures source { IsOf result checked.now.operations half }
    {
        let left = 2 * checked.len_words();
        Cursor {
            draft: checked.to_draft(),
            words_before: checked.words_before_each(),
            half,
            at_hand: WordBytes::new(),
            op: 0,
            end: 2 * half.base() + left,
            left,
        }
    }

    /// Returns a cursor over the last `left` bytes of `checked`, laid out for `half`. So it goes on
    /// as a cursor that gave the bytes before them. `left` must be at most twice the number of
    /// words. The time is linear in the bytes that are passed over.
    pub fn with_left(checked: &Checked, half: Half, left: u16) -> Cursor
        requires { left ≤ 2 * size checked.now.operations }
        ensures cursor { result
            ≡ record { draft = checked.now.operations; half = half; left = left } }
        ensures in_ram { All IsBehindWordZero (items_in result) }
    {
        let mut cursor = Cursor::of(checked, half);
        for _ in 0..cursor.left() - left {
            cursor.next();
        }
        cursor
    }

    /// Begins anew, with the bytes of `checked`, laid out for `half`. The operations are copied
    /// into the memory that the cursor has: the time is linear in them, and in those that it kept.
    pub fn restart(&mut self, checked: &Checked, half: Half)
        ensures items { items_in self.new ≡ addressed (2 * base half)
            (bytes (laid half checked.now.operations)) }
        ensures in_ram { All IsBehindWordZero (items_in self.new) }
        ensures source { IsOf self.new checked.now.operations half }
    {
        self.draft.clear();
        self.draft.try_extend_from_slice(checked.ops()).unwrap();
        put_words_before(&mut self.words_before, checked.ops());
        self.half = half;
        self.at_hand = WordBytes::new();
        self.op = 0;
        self.left = 2 * checked.len_words();
        self.end = 2 * half.base() + self.left;
    }

    /// Returns the draft whose bytes the cursor gives, and the half that it is laid out for.
    pub fn source(&self) -> (&Draft, Half)
        ensures source { IsOf self.now result.0.now result.1 }
        ensures left { self.now.left ≤ 2 * size result.0.now }
        ensures begins { IsWellFormed result.0.now }
    {
        (&self.draft, self.half)
    }

    /// Returns the number of items that are still to come.
    pub fn left(&self) -> u16
        ensures value { result ≡ self.now.left }
        ensures items { result ≡ length (items_in self.now) }
    {
        self.left
    }
}

impl Iterator for Cursor {
    ghost use Rattle.std.specs.Iterator.{item_count};
    ghost use Rattle.dvg_frame.specs.Left.{GivesItem, items_in};

    type Item = (u16, u8);

    ghost next_gives = { GivesItem };

    ghost remaining = { item_count items_in };

    #[inline(always)]
    fn next(&mut self) -> Option<(u16, u8)> {
        if self.left == 0 {
            return None;
        }
        if self.at_hand.is_empty() {
            self.at_hand = bytes_of(&self.draft, &self.words_before, self.half, self.op);
            self.op += 1;
        }
        let address = self.end - self.left;
        self.left -= 1;
        Some((address, self.at_hand.take()))
    }
}

impl FusedIterator for Cursor {}

// Returns the bytes of operation `op` of `draft`, laid out for `half`. In `words_before` stands how
// many words come before each operation. It isn't inlined: most ticks find a byte at hand.
#[inline(never)]
fn bytes_of(draft: &Draft, words_before: &ArrayVec<u16, COUNTS>, half: Half, op: u16) -> WordBytes
    requires begins { IsWellFormed draft.now }
    requires counted { IsCounted draft.now words_before.now.items }
    requires within { op < length draft.now }
    ensures { AreBytesOf half draft.now op result }
{
    let counted = Counted::of(draft.ops(), words_before.as_slice());
    WordBytes::of(spelling(&counted, half, usize::from(op)).as_slice())
}
