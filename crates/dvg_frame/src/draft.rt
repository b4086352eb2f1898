//! Drafts.
ghost use Rattle.std.specs.Prelude.{All, ◌≡◌, ◌+◌, ◌<◌, ◌≤◌, ◌↔◌, List, [], ◌∷◌, ◌++◌, length};
ghost use Rattle.std.specs.Prelude.{IfOk, IsOk, IsTrue, OnErr, OnOk, Some, slice_get};
ghost use Rattle.dvg_frame.specs.Layout.{op_words};
ghost use Rattle.dvg_frame.specs.Ops.{IsDraft, IsOp};
ghost use Rattle.dvg_frame.specs.declared.draft.TheConstants.{MAX_OPS};
ghost use Rattle.dvg_frame.specs.declared.op.OpKind.{OpKind};

use crate::op::{Op, OpKind};
use arrayvec::ArrayVec;
use std::marker::Model;
use thiserror::Error;

/// The most operations that a draft holds. One word each is as much as a half of the RAM has.
pub const MAX_OPS: usize = 511;

/// There is no room: a draft has at most 511 operations.
#[derive(Clone, Copy, Debug, PartialEq, Eq, Error)]
#[error("the draft has its 511 operations already")]
pub struct DraftFull;

/// A list of at most 511 operations, numbered from 0.
#[derive(Clone, Debug, PartialEq, Eq, Drop)]
pub struct Draft {
    ops: ArrayVec<Op, MAX_OPS>,
}

/// Contracts see the list of the operations.
impl Model for Draft {
    ghost Value = { List OpKind };

    ghost view = { λ draft. draft.ops.items };

    ghost invariant = { λ draft. IsDraft draft.ops.items };

    ghost inverse = { λ ops. record { ops = record { items = ops } } };
}

impl Draft {
    /// Returns a draft with no operation.
    pub fn new() -> Draft
        ensures { result ≡ [] }
    {
        Draft {
            ops: ArrayVec::new(),
        }
    }

    /// Returns the number of operations, at most 511.
    pub fn len(&self) -> usize
        ensures value { result ≡ length self.now }
        ensures draft { IsDraft self.now }
    {
        self.ops.len()
    }

    /// Returns whether there is no operation.
    pub fn is_empty(&self) -> bool
        ensures { IsTrue result ↔ (self.now ≡ []) }
    {
        self.ops.is_empty()
    }

    /// Adds `op` at the end, and returns its number. Returns `DraftFull` exactly where there are
    /// 511 operations, and then nothing has changed.
    pub fn push(&mut self, op: Op) -> Result<u16, DraftFull>
        ensures room { IsOk result ↔ (length self.old < MAX_OPS) }
        ensures number { IfOk result (λ number. number ≡ length self.old) }
        ensures pushed { OnOk result (self.new ≡ self.old ++ op ∷ []) }
        ensures refused { OnErr result (self.new ≡ self.old) }
    {
        if self.ops.is_full() {
            return Err(DraftFull);
        }
        let number = self.ops.len() as u16;
        self.ops.push(op);
        Ok(number)
    }

    /// Adds `ops` at the end. Returns `DraftFull` exactly where there would be more than 511
    /// operations, and then nothing has changed.
    pub fn try_extend_from_slice(&mut self, ops: &[Op]) -> Result<(), DraftFull>
        ensures room { IsOk result ↔ (length self.old + length ops.now ≤ MAX_OPS) }
        ensures pushed { OnOk result (self.new ≡ self.old ++ ops.now) }
        ensures refused { OnErr result (self.new ≡ self.old) }
    {
        if self.ops.remaining_capacity() < ops.len() {
            return Err(DraftFull);
        }
        are_ops(ops);
        self.ops.try_extend_from_slice(ops).unwrap();
        Ok(())
    }

    /// Returns a draft of the same operations. It is what `clone` returns, which needs no memory
    /// here.
    pub fn copy(&self) -> Draft
        ensures { result ≡ self.now }
    {
        let mut draft = Draft::new();
        draft.try_extend_from_slice(self.ops()).unwrap();
        draft
    }

    /// Removes all operations.
    pub fn clear(&mut self)
        ensures { self.new ≡ [] }
    {
        self.ops.clear();
    }

    /// Returns operation `i`, which must be below the number of operations.
    pub fn op(&self, i: usize) -> Op
        requires { i < length self.now }
        ensures { slice_get self.now i ≡ Some result }
    {
        self.ops[i]
    }

    /// Returns all operations, in order.
    pub fn ops(&self) -> &[Op]
        ensures value { result.now ≡ self.now }
        ensures draft { IsDraft self.now }
    {
        self.ops.as_slice()
    }
}

// For the proof alone: each of `ops` satisfies `IsOp`, as its type says. Nothing is done.
pub(crate) fn are_ops(ops: &[Op])
    ensures { All IsOp ops.now }
{
    for op in ops {
        let _ = op.kind();
    }
}

// Returns the number of words of the operation `kind`: 1 or 2.
pub(crate) fn words_of(kind: OpKind) -> u16
    ensures value { result ≡ op_words kind }
    ensures bound { result ≤ 2 }
{
    match kind {
        OpKind::Draw(code) => code.word_count(),
        _ => 1,
    }
}
