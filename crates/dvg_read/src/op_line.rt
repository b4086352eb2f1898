//! Lines of operations.
ghost use Rattle.std.specs.Prelude.{◌≡◌, [], ◌∷◌, codes, IfSome, Some};
ghost use Rattle.dvg_code.specs.Ranges.{InRange};
ghost use Rattle.dvg_code.specs.declared.instr.Instr.{Instr};
ghost use Rattle.dvg_frame.specs.declared.op.OpKind.{OpKind};
ghost use Rattle.dvg_read.specs.LineParts.{bytes_of};
ghost use Rattle.dvg_read.specs.OpLines.{IsOpLine, OpParts};
ghost use Rattle.dvg_read.specs.Texts.{parts};

use crate::line_parts::parts_of;
use crate::number::{hex, integer, natural, small_integer, small_natural};
use dvg_code::{Code, Instr};
use dvg_frame::{Op, OpKind};

/// Returns the operation that `line` spells, or `None` exactly where it spells none.
pub fn read_op(line: &[u8]) -> Option<Op>
    ensures found { IfSome result (λ op. IsOpLine op line.now) }
    ensures only { (op : OpKind) → IsOpLine op line.now → result ≡ Some op }
{
    let parts = parts_of(line)?;
    read_op_parts(parts.as_slice())
}

/// Returns the operation that `parts`, the parts of a line, spell, or `None` exactly where they
/// spell none.
#[tactic(auto, using(crate::proofs::OpRows::is_op))]
pub fn read_op_parts(parts: &[&[u8]]) -> Option<Op>
    ensures found { IfSome result (λ op. OpParts op (bytes_of parts.now)) }
    ensures only { (op : OpKind) → OpParts op (bytes_of parts.now) → result ≡ Some op }
{
    Op::new(kind(parts)?)
}

// Returns the kind of operation that `parts` spell.
fn kind(parts: &[&[u8]]) -> Option<OpKind>
    ensures found { IfSome result (λ op. OpParts op (bytes_of parts.now)) }
    ensures only { (op : OpKind) → OpParts op (bytes_of parts.now) → result ≡ Some op }
{
    match parts {
        [name] => bare(name),
        [name, target] => targeting(name, target),
        [name, x, y, scale] => labs(name, x, y, scale),
        [name, scale, dx, dy, z] => vector(name, scale, dx, dy, z),
        _ => None,
    }
}

// Returns the operation that `name` alone spells.
fn bare(name: &[u8]) -> Option<OpKind>
    ensures found { IfSome result (λ op. OpParts op (name.now ∷ [])) }
    ensures only { (op : OpKind) → OpParts op (name.now ∷ []) → result ≡ Some op }
{
    match name {
        b"return" => Some(OpKind::Return),
        b"halt" => Some(OpKind::Halt),
        _ => None,
    }
}

// Returns the operation that `name` and `target` spell.
fn targeting(name: &[u8], target: &[u8]) -> Option<OpKind>
    ensures found { IfSome result (λ op. OpParts op (name.now ∷ target.now ∷ [])) }
    ensures only { (op : OpKind) → OpParts op (name.now ∷ target.now ∷ []) → result ≡ Some op }
{
    match name {
        b"callrom" => Some(OpKind::CallRom(hex(target, 3)?)),
        b"jumprom" => Some(OpKind::JumpRom(hex(target, 3)?)),
        b"call" => Some(OpKind::Call(natural(target)?)),
        b"jump" => Some(OpKind::Jump(natural(target)?)),
        _ => None,
    }
}

// Returns the operation that `name`, the position `x` and `y`, and `scale` spell.
fn labs(name: &[u8], x: &[u8], y: &[u8], scale: &[u8]) -> Option<OpKind>
    ensures found { IfSome result (λ op. OpParts op (name.now ∷ x.now ∷ y.now ∷ scale.now ∷ [])) }
    ensures only { (op : OpKind) → OpParts op (name.now ∷ x.now ∷ y.now ∷ scale.now ∷ [])
        → result ≡ Some op }
{
    if name != b"labs".as_slice() {
        return None;
    }
    let x = natural(x)?;
    let y = natural(y)?;
    let scale = small_natural(scale)?;
    draw(Instr::Labs { x, y, scale })
}

// Returns the operation that `name` and the numbers of a vector spell: `scale`, `dx`, `dy` and `z`.
fn vector(name: &[u8], scale: &[u8], dx: &[u8], dy: &[u8], z: &[u8]) -> Option<OpKind>
    ensures found { IfSome result (λ op. OpParts op
        (name.now ∷ scale.now ∷ dx.now ∷ dy.now ∷ z.now ∷ [])) }
    ensures only { (op : OpKind) → OpParts op (name.now ∷ scale.now ∷ dx.now ∷ dy.now ∷ z.now ∷ [])
        → result ≡ Some op }
{
    match name {
        b"vctr" => vctr(scale, dx, dy, z),
        b"svec" => svec(scale, dx, dy, z),
        _ => None,
    }
}

// Returns the VCTR that the numbers `scale`, `dx`, `dy` and `z` spell.
fn vctr(scale: &[u8], dx: &[u8], dy: &[u8], z: &[u8]) -> Option<OpKind>
    ensures found { IfSome result (λ op. OpParts op
        (codes "vctr" ∷ scale.now ∷ dx.now ∷ dy.now ∷ z.now ∷ [])) }
    ensures only { (op : OpKind) → OpParts op
        (codes "vctr" ∷ scale.now ∷ dx.now ∷ dy.now ∷ z.now ∷ []) → result ≡ Some op }
{
    let scale = small_natural(scale)?;
    let dx = integer(dx)?;
    let dy = integer(dy)?;
    let z = small_natural(z)?;
    draw(Instr::Vctr { scale, dx, dy, z })
}

// Returns the SVEC that the numbers `scale`, `dx`, `dy` and `z` spell.
fn svec(scale: &[u8], dx: &[u8], dy: &[u8], z: &[u8]) -> Option<OpKind>
    ensures found { IfSome result (λ op. OpParts op
        (codes "svec" ∷ scale.now ∷ dx.now ∷ dy.now ∷ z.now ∷ [])) }
    ensures only { (op : OpKind) → OpParts op
        (codes "svec" ∷ scale.now ∷ dx.now ∷ dy.now ∷ z.now ∷ []) → result ≡ Some op }
{
    let scale = small_natural(scale)?;
    let dx = small_integer(dx)?;
    let dy = small_integer(dy)?;
    let z = small_natural(z)?;
    draw(Instr::Svec { scale, dx, dy, z })
}

// Returns the operation that draws by `instr`, if that is in range.
fn draw(instr: Instr) -> Option<OpKind>
    ensures found { IfSome result (λ op. (op ≡ OpKind.Draw instr) × InRange instr) }
    ensures only { InRange instr → result ≡ Some (OpKind.Draw instr) }
{
    Some(OpKind::Draw(Code::new(instr)?))
}
