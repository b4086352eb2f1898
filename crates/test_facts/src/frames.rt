//! What follows from the contracts of the check and of cursors.
ghost use Rattle.std.specs.Prelude.{◌≡◌, ◌*◌, ◌<◌, ◌∷◌, [], Err, Some, length, slice_get, true};
ghost use Rattle.dvg_mem.specs.Areas.{base};
ghost use Rattle.dvg_frame.specs.Bytes.{addressed};
ghost use Rattle.dvg_frame.specs.Left.{items_in};
ghost use Rattle.dvg_frame.specs.Steps.{BeginsWithLabs};
ghost use Rattle.test_facts.specs.Facts.{blank_frame, jump_bytes, jump_frame};

use dvg_frame::{Checked, Checker, Cursor, Draft, Frame, FrameFault, Op, OpKind, check};
use dvg_mem::{Half, Rom};
use std::alloc::Global;

/// A draft without operations is refused for fault 1, over each `rom`.
pub fn empty_draft_is_refused(rom: &Rom<Global>) -> Result<Frame, FrameFault>
    ensures { result ≡ Err FrameFault.Empty }
{
    check(&Draft::new(), rom)
}

/// A checker that has checked a draft judges the next one, `draft`, as if it were its first.
pub fn checker_answers_anew(draft: &Draft, rom: &Rom<Global>) -> bool
    requires { draft.now ≡ OpKind.Halt ∷ [] }
    ensures { result ≡ true }
{
    let mut checker = Checker::new();
    let _ = checker.check(&[], rom);
    match checker.check(draft.ops(), rom) {
        Ok(_) => false,
        Err(fault) => matches!(fault, FrameFault::NoLabs),
    }
}

/// A list of 512 operations that begins with a LABS is refused for fault 3, over each `rom`.
pub fn long_list_is_refused(ops: &[Op], rom: &Rom<Global>) -> bool
    requires labs { BeginsWithLabs ops.now }
    requires long { length ops.now ≡ 512 }
    ensures { result ≡ true }
{
    match Checker::new().check(ops, rom) {
        Ok(_) => false,
        Err(fault) => matches!(fault, FrameFault::TooLong),
    }
}

/// The second byte of a `frame` that begins with LABS 512 400 0 goes to 403 in half 1, and is A1.
pub fn second_byte(frame: &Checked) -> Option<(u16, u8)>
    requires { frame.now.operations ≡ blank_frame }
    ensures { result ≡ Some (0x403, 0xA1) }
{
    let mut cursor = Cursor::of(frame, Half::H1);
    let _ = cursor.next();
    cursor.next()
}

/// Returns byte `k` of the `frame` `labs 0 0 0; jump 2; halt` in `half`.
pub fn byte_of_a_jump(frame: &Frame, half: Half, k: u16) -> u8
    requires frame { frame.now.operations ≡ jump_frame }
    requires number { k < 8 }
    ensures { slice_get (jump_bytes half) k ≡ Some result }
{
    frame.byte(half, k)
}

/// A cursor over that `frame` in `half` gives all its bytes, each with its address.
pub fn bytes_of_a_jump(frame: Frame, half: Half) -> Cursor
    requires { frame.operations ≡ jump_frame }
    ensures { items_in result ≡ addressed (2 * base half) (jump_bytes half) }
{
    Cursor::new(frame, half)
}

/// Eight bytes of that `frame` are left before the first is given, in either `half`.
pub fn left_of_a_jump(frame: &Checked, half: Half) -> u16
    requires { frame.now.operations ≡ jump_frame }
    ensures { result ≡ 8 }
{
    Cursor::of(frame, half).left()
}
