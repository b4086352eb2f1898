//! The operations of frames in one list.
ghost use Rattle.std.specs.Prelude.{◌≡◌, ◌≤◌, length, IfErr, OnErr, OnOk};
ghost use Rattle.dvg_named.specs.FlatDrafts.{PushesDraft, StopsDraft};
ghost use Rattle.dvg_rows.specs.HeldRows.{rows_of};
ghost use Rattle.dvg_named.specs.LaidValues.{AreLow, laid_sections};
ghost use Rattle.dvg_rows.specs.RowPlaces.{doings};
ghost use Rattle.dvg_frame.specs.declared.draft.TheConstants.{MAX_OPS};

use crate::drafting::draft_of;
use crate::laid::LaidNames;
use dvg_frame::Op;
use dvg_rows::{GivenNames, NamedRows, Row};
use std::alloc::Allocator;

/// Why the operations of a frame aren't added.
#[derive(Clone, Copy)]
pub(crate) enum DraftFault {
    /// A row needs a name that isn't given.
    UnknownName,
    /// An allocation failed.
    Memory,
}

/// Adds the operations of the frame of `rows` to `ops`, in order. The names of the ROM are those of
/// `rom`. Where those of the frame are `given`, in order, no table is made of them. At an error
/// `ops` stays as it was.
pub(crate) fn push_draft<'a, A: Allocator + Copy>(
    alloc: A,
    ops: &mut Vec<Op, A>,
    rows: &[Row<'a>],
    rom: &LaidNames<'_, '_, '_, A>,
    given: &GivenNames<'a, A>,
) -> Result<(), DraftFault>
    requires few { length (doings (rows_of rows.now)) ≤ MAX_OPS }
    requires low { AreLow (laid_sections rom.now) }
    ensures pushed { OnOk result (PushesDraft rom.now rows.now ops.old.items ops.new.items) }
    ensures kept { OnErr result (ops.new.items ≡ ops.old.items) }
    ensures fault { IfErr result (StopsDraft (laid_sections rom.now) rows.now) }
{
    let Ok(named) = NamedRows::new(alloc, rows, given) else {
        return Err(DraftFault::Memory);
    };
    let Some(draft) = draft_of(&named, rom) else {
        return Err(DraftFault::UnknownName);
    };
    if ops.extend_from_slice(draft.ops()).is_err() {
        return Err(DraftFault::Memory);
    }
    Ok(())
}
