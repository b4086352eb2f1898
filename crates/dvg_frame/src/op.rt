//! The operations of a draft.
ghost use Rattle.std.specs.Prelude.{◌≡◌, ◌↔◌, IfSome, IsSome, IsTrue};
ghost use Rattle.dvg_frame.specs.Ops.{IsOp};
ghost use Rattle.dvg_frame.specs.declared.op.OpKind.{OpKind};

use dvg_code::{Code, Instr};
use std::marker::Model;

/// What an operation does. An operation of the draft is named by its number, counted from 0.
#[derive(Clone, Copy, Debug, PartialEq, Eq)]
pub enum OpKind {
    /// Executes a VCTR, an SVEC or a LABS.
    Draw(Code),
    /// Calls the subroutine at this word address of the ROM.
    CallRom(u16),
    /// Jumps to this word address of the ROM.
    JumpRom(u16),
    /// Calls the subroutine that begins at this operation of the draft.
    Call(u16),
    /// Jumps to this operation of the draft.
    Jump(u16),
    /// Returns from the newest call.
    Return,
    /// Ends the run.
    Halt,
}

/// An operation of a draft.
#[derive(Clone, Copy, Debug, PartialEq, Eq)]
pub struct Op {
    kind: OpKind,
}

/// Contracts see what the operation does.
impl Model for Op {
    ghost Value = { OpKind };

    ghost view = { λ op. op.kind };

    ghost invariant = { λ op. IsOp op.kind };

    ghost inverse = { λ kind. record { kind = kind } };
}

/// A halt.
impl Default for Op {
    ghost use Rattle.std.specs.Prelude.{◌≡◌};
    ghost use Rattle.dvg_frame.specs.declared.op.OpKind.TheVariants.{Halt};

    ghost is_default = { λ op. op ≡ Halt };

    fn default() -> Op {
        Op { kind: OpKind::Halt }
    }
}

impl Op {
    /// Returns `kind` as an operation. Returns `None` exactly for a `Draw` of an instruction other
    /// than VCTR, SVEC or LABS, and for a `CallRom` or `JumpRom` whose address is over FFF.
    pub fn new(kind: OpKind) -> Option<Op>
        ensures made { IsSome result ↔ IsOp kind }
        ensures value { IfSome result (λ op. op ≡ kind) }
    {
        if is_op(&kind) {
            Some(Op { kind })
        } else {
            None
        }
    }

    /// Returns what the operation does.
    pub fn kind(&self) -> OpKind
        ensures value { result ≡ self.now }
        ensures valid { IsOp result }
    {
        self.kind
    }
}

// Returns whether a draft may hold `kind`.
fn is_op(kind: &OpKind) -> bool
    ensures { IsTrue result ↔ IsOp kind.now }
{
    match *kind {
        OpKind::Draw(code) => matches!(
            code.instr(),
            Instr::Vctr { .. } | Instr::Svec { .. } | Instr::Labs { .. }
        ),
        OpKind::CallRom(address) | OpKind::JumpRom(address) => address <= 0xFFF,
        OpKind::Call(_) | OpKind::Jump(_) | OpKind::Return | OpKind::Halt => true,
    }
}
