//! Frames: drafts that were checked.
ghost use Rattle.std.specs.Prelude.{◌≡◌, ◌*◌, ◌%◌, ◌^◌, ◌<◌, ◌≤◌, [], ◌∷◌, Some, length, slice_get};
ghost use Rattle.dvg_code.specs.Spelling.{canon};
ghost use Rattle.dvg_frame.specs.Bytes.{bytes};
ghost use Rattle.dvg_frame.specs.Steps.{IsWellFormed};
ghost use Rattle.dvg_frame.specs.Faults.{FrameState};
ghost use Rattle.dvg_frame.specs.own.Firsts.{NamesNone};
ghost use Rattle.dvg_frame.specs.own.Frames.{IsMeasured, IsSpelling};
ghost use Rattle.dvg_frame.specs.Layout as layout;
ghost use Rattle.dvg_frame.specs.Ops.{IsDraft, IsOp};
ghost use Rattle.dvg_frame.specs.declared.op.OpKind.{OpKind};
ghost use Rattle.dvg_mem.specs.declared.half.Half.{Half};

use crate::checked::Checked;
use crate::counted::Counted;
use crate::draft::{Draft, words_of};
use crate::op::OpKind;
use dvg_code::{Code, Instr, Words, encode};
use dvg_mem::Half;
use std::marker::Model;

/// The most words that a frame has: those of a half of the RAM.
pub(crate) const MAX_WORDS: u16 = 511;

/// A checked draft that owns its operations. It keeps its number of words and its bound, and no
/// laid words.
#[derive(Drop)]
pub struct Frame {
    draft: Draft,
    words: u16,
    bound: u64,
}

/// Contracts see the operations of its draft, and its bound.
impl Model for Frame {
    ghost Value = { FrameState };

    ghost view = { λ frame. record { operations = frame.draft; bound = frame.bound } };

    ghost invariant = { λ frame. IsMeasured frame.draft frame.words frame.bound };
}

impl Frame {
    // Returns `draft` as a frame. It has none of the faults 1 to 4, `words` words and the bound
    // `bound`.
    pub(crate) fn of(draft: Draft, words: u16, bound: u64) -> Frame
        requires { IsMeasured draft words bound }
        ensures { result ≡ record { operations = draft; bound = bound } }
    {
        Frame {
            draft,
            words,
            bound,
        }
    }

    /// Returns the frame as a checked draft that lies where the frame does.
    pub fn as_checked(&self) -> Checked<'_>
        ensures { result ≡ self.now }
    {
        Checked::of(self.draft.ops(), self.words, self.bound)
    }

    /// Returns the number of words that the frame has in a half, at most 511.
    pub fn len_words(&self) -> u16
        ensures value { result ≡ layout.size self.now.operations }
        ensures laid { (half : Half) → length (layout.laid half self.now.operations) ≡ result }
        ensures bound { result ≤ 511 }
        ensures draft { IsDraft self.now.operations }
    {
        self.as_checked().len_words()
    }

    /// Returns the number of words that the whole run of the frame fetches, as `Checked::bound`
    /// does.
    pub fn bound(&self) -> u64
        ensures value { result ≡ self.now.bound }
        ensures small { result < 2 ^ 63 }
    {
        self.as_checked().bound()
    }

    /// Returns byte `k` of the frame's words in `half`, as `Checked::byte` does.
    pub fn byte(&self, half: Half, k: u16) -> u8
        requires { k < 2 * layout.size self.now.operations }
        ensures { slice_get (bytes (layout.laid half self.now.operations)) k ≡ Some result }
    {
        self.as_checked().byte(half, k)
    }
}

// Returns the byte of `word` that is byte `k` of a list of words: the low one where `k` is even,
// otherwise the high one.
pub(crate) fn byte_of(word: u16, k: u16) -> u8
    ensures { slice_get (bytes (word ∷ [])) (k % 2) ≡ Some result }
{
    word.to_le_bytes()[usize::from(k % 2)]
}

// Returns word `n` of the layout of `draft` for `half`.
pub(crate) fn word_at(draft: &Counted, half: Half, n: u16) -> u16
    requires begins { IsWellFormed draft.now }
    requires within { n < layout.size draft.now }
    ensures { slice_get (layout.laid half draft.now) n ≡ Some result }
{
    let mut before = 0;
    for i in 0..draft.len() {
        let count = words_of(draft.op(i).kind());
        if n < before + count {
            return spelling(draft, half, i)[usize::from(n - before)];
        }
        before += count;
    }
    unreachable!()
}

// Returns the words of operation `i` of `draft`, laid out for `half`.
#[tactic(auto, using(crate::proofs::Firsts::names_some))]
pub(crate) fn spelling(draft: &Counted, half: Half, i: usize) -> Words
    requires begins { IsWellFormed draft.now }
    requires within { i < length draft.now }
    ensures { IsSpelling half draft.now i result.items }
{
    encode(&code_of(draft, half, draft.op(i).kind()))
}

// Returns the instruction of the operation `kind` of `draft`, laid out for `half`.
fn code_of(draft: &Counted, half: Half, kind: OpKind) -> Code
    requires op { IsOp kind }
    requires names { ¬ NamesNone (length draft.now) kind }
    requires fits { layout.size draft.now ≤ 511 }
    ensures { result ≡ layout.op_code half draft.now kind }
{
    match kind {
        OpKind::Draw(code) => code,
        OpKind::CallRom(a) => Code::within(Instr::Jsrl(a)),
        OpKind::JumpRom(a) => Code::within(Instr::Jmpl(a)),
        OpKind::Call(j) => Code::within(Instr::Jsrl(address(draft, half, j))),
        OpKind::Jump(j) => Code::within(Instr::Jmpl(address(draft, half, j))),
        OpKind::Return => Code::within(Instr::Rtsl),
        OpKind::Halt => Code::within(Instr::Halt),
    }
}

// Returns the word address of operation `j` of `draft`, laid out for `half`.
fn address(draft: &Counted, half: Half, j: u16) -> u16
    requires { j < length draft.now }
    ensures value { result ≡ layout.at half draft.now j }
    ensures bound { result ≤ 4095 }
{
    half.base() + draft.words_before(usize::from(j))
}
