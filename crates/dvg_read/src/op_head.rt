//! Operations at the head of a text, each read in one pass with the end of its line.
ghost use Rattle.std.specs.Prelude.{◌++◌, codes, IfSome};
ghost use Rattle.dvg_read.specs.TextLines.{HasOp};

use crate::letters::letters_at_head;
use crate::number::{
    after_byte, digit_before, integer_before_space, natural_before, nibble_before,
    tiny_before_space,
};
use dvg_code::{Code, Instr};
use dvg_frame::{Op, OpKind};

/// How many bytes the longest line that is read here has, with its end. A shorter text is read
/// otherwise.
const HEAD: usize = 24;

/// The letters `svec`, as a number.
const SVEC_LETTERS: u32 = 0x6365_7673;

/// The letters `vctr`, as a number.
const VCTR_LETTERS: u32 = 0x7274_6376;

/// The letters `labs`, as a number.
const LABS_LETTERS: u32 = 0x7362_616C;

/// The letters `call`, as a number.
const CALL_LETTERS: u32 = 0x6C6C_6163;

/// The letters `jump`, as a number.
const JUMP_LETTERS: u32 = 0x706D_756A;

/// The letters `halt`, as a number.
const HALT_LETTERS: u32 = 0x746C_6168;

/// Fast path for the operations that come most often. Returns the one that the first line of `text`
/// spells, and what stands after that line. `None` says nothing of `text`.
#[inline(always)]
pub(crate) fn op_at_head(text: &[u8]) -> Option<(Op, &[u8])>
    ensures { IfSome result (λ head. HasOp text.now head.0 head.1.now) }
{
    let (letters, rest) = letters_at_head(text, HEAD)?;
    match letters {
        SVEC_LETTERS => svec(after_byte(rest, b' ')?),
        VCTR_LETTERS => vctr(after_byte(rest, b' ')?),
        LABS_LETTERS => labs(after_byte(rest, b' ')?),
        CALL_LETTERS => call(after_byte(rest, b' ')?),
        JUMP_LETTERS => jump(after_byte(rest, b' ')?),
        HALT_LETTERS => halt(rest),
        _ => None,
    }
}

// Reads the rest of the line of an SVEC from `text`, after its name and a space. Returns the
// operation, and what stands after the line.
#[inline(always)]
fn svec(text: &[u8]) -> Option<(Op, &[u8])>
    ensures { IfSome result (λ head. HasOp (codes "svec " ++ text.now) head.0 head.1.now) }
{
    let (scale, rest) = digit_before(text, b' ')?;
    if scale < 2 || scale > 5 {
        return None;
    }
    let (dx, rest) = tiny_before_space(rest)?;
    let (dy, rest) = tiny_before_space(rest)?;
    let (z, rest) = nibble_before(rest, b'\n')?;
    let code = Code::within(Instr::Svec { scale, dx, dy, z });
    Some((Op::new(OpKind::Draw(code))?, rest))
}

// Reads the rest of the line of a VCTR from `text`, after its name and a space. Returns the
// operation, and what stands after the line.
#[inline(always)]
fn vctr(text: &[u8]) -> Option<(Op, &[u8])>
    ensures { IfSome result (λ head. HasOp (codes "vctr " ++ text.now) head.0 head.1.now) }
{
    let (scale, rest) = digit_before(text, b' ')?;
    let (dx, rest) = integer_before_space(rest, 1023)?;
    let (dy, rest) = integer_before_space(rest, 1023)?;
    let (z, rest) = nibble_before(rest, b'\n')?;
    let code = Code::within(Instr::Vctr { scale, dx, dy, z });
    Some((Op::new(OpKind::Draw(code))?, rest))
}

// Reads the rest of the line of a LABS from `text`, after its name and a space. Returns the
// operation, and what stands after the line.
#[inline(always)]
fn labs(text: &[u8]) -> Option<(Op, &[u8])>
    ensures { IfSome result (λ head. HasOp (codes "labs " ++ text.now) head.0 head.1.now) }
{
    let (x, rest) = natural_before(text, b' ', 4095)?;
    let (y, rest) = natural_before(rest, b' ', 4095)?;
    let (scale, rest) = nibble_before(rest, b'\n')?;
    let code = Code::within(Instr::Labs { x, y, scale });
    Some((Op::new(OpKind::Draw(code))?, rest))
}

// Reads the rest of the line of a call from `text`, after its name and a space. Returns the
// operation, and what stands after the line.
#[inline(always)]
#[tactic(auto, using(crate::proofs::Heads::call_head))]
fn call(text: &[u8]) -> Option<(Op, &[u8])>
    ensures { IfSome result (λ head. HasOp (codes "call " ++ text.now) head.0 head.1.now) }
{
    let (target, rest) = natural_before(text, b'\n', u16::MAX)?;
    Some((Op::new(OpKind::Call(target))?, rest))
}

// Reads the rest of the line of a jump from `text`, after its name and a space. Returns the
// operation, and what stands after the line.
#[inline(always)]
#[tactic(auto, using(crate::proofs::Heads::jump_head))]
fn jump(text: &[u8]) -> Option<(Op, &[u8])>
    ensures { IfSome result (λ head. HasOp (codes "jump " ++ text.now) head.0 head.1.now) }
{
    let (target, rest) = natural_before(text, b'\n', u16::MAX)?;
    Some((Op::new(OpKind::Jump(target))?, rest))
}

// Reads the rest of the line of a halt from `text`, after its name. Returns the operation, and what
// stands after the line.
#[inline(always)]
fn halt(text: &[u8]) -> Option<(Op, &[u8])>
    ensures { IfSome result (λ head. HasOp (codes "halt" ++ text.now) head.0 head.1.now) }
{
    match text {
        [b'\n', rest @ ..] => Some((Op::new(OpKind::Halt)?, rest)),
        _ => None,
    }
}
