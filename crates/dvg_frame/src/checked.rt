//! Checked drafts, where they lie.
ghost use Rattle.std.specs.Prelude.{◌≡◌, ◌*◌, ◌<◌, ◌≤◌, ◌^◌, Some, length, slice_get};
ghost use Rattle.dvg_frame.specs.Bytes.{bytes};
ghost use Rattle.dvg_frame.specs.Faults.{FrameState};
ghost use Rattle.dvg_frame.specs.Layout.{laid, size};
ghost use Rattle.dvg_frame.specs.Ops.{IsDraft};
ghost use Rattle.dvg_frame.specs.Steps.{IsWellFormed};
ghost use Rattle.dvg_frame.specs.own.Counting.{IsCounted};
ghost use Rattle.dvg_frame.specs.own.Frames.{IsMeasured};
ghost use Rattle.dvg_mem.specs.declared.half.Half.{Half};

use crate::counted::{COUNTS, Counted, words_before_each};
use crate::draft::Draft;
use crate::frame::{Frame, byte_of, word_at};
use crate::op::Op;
use arrayvec::ArrayVec;
use dvg_mem::Half;
use std::marker::Model;

/// A draft that was checked, borrowed: its operations lie elsewhere, and none is copied before
/// `to_frame`. All that a frame tells is told by this.
#[derive(Drop)]
pub struct Checked<'a> {
    ops: &'a [Op],
    words: u16,
    bound: u64,
}

/// Contracts see the operations of its draft, and its bound.
impl<'a> Model for Checked<'a> {
    ghost Value = { FrameState };

    ghost view = { λ checked. record { operations = checked.ops.now; bound = checked.bound } };

    ghost invariant = { λ checked. IsMeasured checked.ops.now checked.words checked.bound };
}

impl<'a> Checked<'a> {
    // Returns the draft of `ops` as a checked one. It has none of the faults 1 to 4, `words` words
    // and the bound `bound`.
    pub(crate) fn of(ops: &'a [Op], words: u16, bound: u64) -> Checked<'a>
        requires { IsMeasured ops.now words bound }
        ensures { result ≡ record { operations = ops.now; bound = bound } }
    {
        Checked { ops, words, bound }
    }

    /// Returns its operations, in order.
    pub fn ops(&self) -> &'a [Op]
        ensures value { result.now ≡ self.now.operations }
        ensures draft { IsDraft self.now.operations }
        ensures begins { IsWellFormed self.now.operations }
    {
        self.ops
    }

    /// Returns the number of words that it has in a half, at most 511.
    pub fn len_words(&self) -> u16
        ensures value { result ≡ size self.now.operations }
        ensures laid { (half : Half) → length (laid half self.now.operations) ≡ result }
        ensures bound { result ≤ 511 }
        ensures draft { IsDraft self.now.operations }
    {
        self.words
    }

    /// Returns the number of words that its whole run fetches, from word zero to its HALT. It is
    /// below 2^63. This holds for any run of it that nobody interrupts, over the ROM that it was
    /// checked with.
    pub fn bound(&self) -> u64
        ensures value { result ≡ self.now.bound }
        ensures small { result < 2 ^ 63 }
    {
        self.bound
    }

    /// Returns byte `k` of its words in `half`, the low byte of each word first. Byte 0 stands at
    /// twice the word address of the half's first word. `k` must be below twice the number of
    /// words. The time is linear in the operations; a `Cursor` gives all bytes, each in constant
    /// time.
    pub fn byte(&self, half: Half, k: u16) -> u8
        requires { k < 2 * size self.now.operations }
        ensures { slice_get (bytes (laid half self.now.operations)) k ≡ Some result }
    {
        let words_before = words_before_each(self.ops);
        let counted = Counted::of(self.ops, words_before.as_slice());
        byte_of(word_at(&counted, half, k / 2), k)
    }

    /// Returns a frame of the draft, whose operations are copied.
    pub fn to_frame(&self) -> Frame
        ensures { result ≡ self.now }
    {
        Frame::of(self.to_draft(), self.words, self.bound)
    }

    // Returns the draft, whose operations are copied.
    pub(crate) fn to_draft(&self) -> Draft
        ensures draft { result ≡ self.now.operations }
        ensures begins { IsWellFormed self.now.operations }
    {
        let mut draft = Draft::new();
        draft.try_extend_from_slice(self.ops).unwrap();
        draft
    }

    // Returns for each operation the number of words before it, and then the number of all words.
    pub(crate) fn words_before_each(&self) -> ArrayVec<u16, COUNTS>
        ensures { IsCounted self.now.operations result.items }
    {
        words_before_each(self.ops)
    }
}
