//! What follows from the contracts of tables and of the machine code that reads them.
ghost use Rattle.std.specs.Prelude.{◌≤◌, ◌≡◌, length, OnOk};
ghost use Rattle.dvg_blame.specs.Refusals.{IsLent};
ghost use Rattle.dvg_calls_6502.specs.Tables.{AreExpressible};

use dvg_blame::Unlaid;
use dvg_calls_6502::checked_tables;
use dvg_frame::Draft;
use dvg_lay::lay_tables;
use dvg_mem::Rom;
use dvg_named::{NamedFrame, RomName};
use std::alloc::Global;
use std::slice;

/// A table of `frame` over `rom` is written only if a table can express it for the driver's machine
/// code: what its operations name of the ROM stands from 400 on, and what they name of the frame
/// in half 0. So the law `dvg_calls_6502::tables` speaks of it: the code writes the frame as it is
/// laid for either half.
pub fn tables_fit_boards(
    alloc: Global,
    rom: &Rom<Global>,
    names: &[RomName],
    frame: &NamedFrame,
) -> Result<Vec<u8, Global>, Unlaid<Global>>
    requires { IsLent frame.now }
    ensures { OnOk result (AreExpressible frame.now.ops.now frame.now.ops.now) }
{
    checked_tables();
    // The operations of a frame are operations, as their type says.
    let mut draft = Draft::new();
    draft.try_extend_from_slice(frame.ops).unwrap();
    let _ = draft.len();
    lay_tables(alloc, rom, names, slice::from_ref(frame))
}
