//! The draft of a frame.
ghost use Rattle.std.specs.Prelude.{◌≡◌, ◌≤◌, length, IfNone, IfSome};
ghost use Rattle.dvg_rows.specs.HeldRows.{rows_of};
ghost use Rattle.dvg_named.specs.LaidValues.{AreLow, laid_sections};
ghost use Rattle.dvg_named.specs.Meanings.{IsDrafted};
ghost use Rattle.dvg_named.specs.SketchFaults.{IsUngiven};
ghost use Rattle.dvg_rows.specs.RowPlaces.{doings};
ghost use Rattle.dvg_rows.specs.RowValues.{doing_of};
ghost use Rattle.dvg_named.specs.FirstUnknown.{WantsNone};
ghost use Rattle.dvg_named.specs.Ungiven.{Drafts, framed};
ghost use Rattle.dvg_frame.specs.declared.draft.TheConstants.{MAX_OPS};

use crate::laid::{LaidNames, address_of};
use dvg_frame::{Draft, Op, OpKind};
use dvg_rows::{Doing, NamedRows, number_of};
use std::alloc::Allocator;

/// Returns the draft of a frame: what its `rows` do, in order. A name is that of an operation of
/// the frame, and after `callrom` and `jumprom` that of a word of `rom`. Returns `None` where a row
/// needs a name that isn't given. No memory is taken. The time grows with the number of rows of the
/// frame.
pub(crate) fn draft_of<A: Allocator + Copy>(
    rows: &NamedRows<'_, '_, A>,
    rom: &LaidNames<'_, '_, '_, A>,
) -> Option<Draft>
    requires few { length (doings (rows_of rows.now)) ≤ MAX_OPS }
    requires low { AreLow (laid_sections rom.now) }
    ensures draft { IfSome result (Drafts rom.now rows.now) }
    ensures unknown { IfNone result
        (¬ WantsNone (laid_sections rom.now) (framed (rows_of rows.now))) }
{
    let mut draft = Draft::new();
    for row in rows.rows() {
        if let Some(doing) = &row.doing {
            let Some(op) = op_of(rows, rom, doing) else {
                return None;
            };
            draft.push(op).unwrap();
        }
    }
    Some(draft)
}

// Returns the operation of `doing`, which a row of the frame of `rows` does. Returns `None` where
// it needs a name that isn't given, in the frame or in `rom`.
fn op_of<A: Allocator + Copy>(
    rows: &NamedRows<'_, '_, A>,
    rom: &LaidNames<'_, '_, '_, A>,
    doing: &Doing,
) -> Option<Op>
    requires few { length (doings (rows_of rows.now)) ≤ MAX_OPS }
    requires low { AreLow (laid_sections rom.now) }
    ensures drafted { let laid = laid_sections rom.now in
        IfSome result (IsDrafted laid (rows_of rows.now) (doing_of doing.now)) }
    ensures ungiven { let laid = laid_sections rom.now in
        IfNone result (IsUngiven laid (framed (rows_of rows.now)) (doing_of doing.now)) }
{
    match doing {
        Doing::Plainly(op) => Some(*op),
        Doing::Calls(name) => match number_of(rows, name) {
            Some(number) => Op::new(OpKind::Call(number as u16)),
            None => None,
        },
        Doing::Jumps(name) => match number_of(rows, name) {
            Some(number) => Op::new(OpKind::Jump(number as u16)),
            None => None,
        },
        Doing::CallsRom(name) => match address_of(rom, name) {
            Some(address) => Op::new(OpKind::CallRom(address)),
            None => None,
        },
        Doing::JumpsRom(name) => match address_of(rom, name) {
            Some(address) => Op::new(OpKind::JumpRom(address)),
            None => None,
        },
    }
}
