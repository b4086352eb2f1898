//! How many words a draft has, and whether it runs straight to its end.
ghost use Rattle.std.specs.Prelude.{◌≡◌, ◌<◌, ◌≤◌, ◌↔◌, IsTrue, length};
ghost use Rattle.dvg_frame.specs.declared.op.OpKind.TheVariants.{Halt};
ghost use Rattle.dvg_frame.specs.own.Straight.{IsMeasure, draw_of};

use crate::draft::{MAX_OPS, words_of};
use crate::op::{Op, OpKind};

/// What one pass over a draft tells: how many words it has, and whether it has vectors and LABS
/// alone before its only HALT. Nothing need be noted of the places of such a draft: each is
/// reached once, at depth 0.
#[derive(Clone, Copy)]
pub(crate) struct Measure {
    pub words: u16,
    pub is_straight: bool,
}

// Returns 1 where `kind` is a vector or a LABS, otherwise 0.
fn draws_of(kind: OpKind) -> u16
    ensures { result ≡ draw_of kind }
{
    match kind {
        OpKind::Draw(_) => 1,
        _ => 0,
    }
}

// Returns whether `kind` is a HALT.
fn is_halt(kind: OpKind) -> bool
    ensures { IsTrue result ↔ (kind ≡ Halt) }
{
    matches!(kind, OpKind::Halt)
}

/// Returns what `draft` measures, which must have 1 to 511 operations. All are looked at, and none
/// is told apart from others by a branch: so a processor takes several at once.
pub(crate) fn measured(draft: &[Op]) -> Measure
    requires some { 0 < length draft.now }
    requires few { length draft.now ≤ MAX_OPS }
    ensures { IsMeasure draft.now result }
{
    let mut words = 0;
    let mut draws = 0;
    for op in draft {
        let kind = op.kind();
        words += words_of(kind);
        draws += draws_of(kind);
    }
    let before = draft.len() - 1;
    Measure {
        words,
        is_straight: usize::from(draws) == before && is_halt(draft[before].kind()),
    }
}
