//! The sections of the ROM among those of a sketch.
ghost use Rattle.std.specs.Prelude.{◌≡◌, ◌++◌, ◌<◌, ◌^◌, IfOk, List, OnOk, map};
ghost use Rattle.std.specs.List.{filter_map};
ghost use Rattle.dvg_rows.specs.HeldRows.{rows_of};
ghost use Rattle.dvg_named.specs.LaidValues.{sections_of};
ghost use Rattle.dvg_named.specs.ReadParts.{front_roms};
ghost use Rattle.dvg_named.specs.RomParts.{rom_in, rom_list};
ghost use Rattle.dvg_named.specs.SketchReading.{head_in, section_in};

use crate::laid::RomRows;
use dvg_code::OutOfMemory;
use dvg_rows::{Head, Part};
use std::alloc::Allocator;

/// Returns the sections of the ROM, in order: those among the sections `closed`, and the section
/// `last` if it is one. Returns `OutOfMemory` where an allocation fails.
pub(crate) fn rom_rows<'r, 'a, A: Allocator + Copy>(
    alloc: A,
    closed: &'r [Part<'a, A>],
    last: &'r Part<'a, A>,
) -> Result<Vec<RomRows<'r, 'a>, A>, OutOfMemory>
    ensures { IfOk result (λ found. sections_of found.items ≡ front_roms (map section_in closed.now)
        ++ rom_list (head_in last.now.head) (rows_of last.now.rows.items)) }
{
    let mut found = match closed {
        [] => Vec::new(alloc),
        [_, others @ ..] => later_rows(alloc, others)?,
    };
    push_rom(&mut found, last)?;
    Ok(found)
}

// Returns the sections of the ROM among `others`.
fn later_rows<'r, 'a, A: Allocator + Copy>(
    alloc: A,
    others: &'r [Part<'a, A>],
) -> Result<Vec<RomRows<'r, 'a>, A>, OutOfMemory>
    ensures { IfOk result (λ found. sections_of found.items
        ≡ filter_map rom_in (map section_in others.now)) }
{
    let mut found = Vec::new(alloc);
    for part in others {
        push_rom(&mut found, part)?;
    }
    Ok(found)
}

// Adds the section `part` to `found`, if it is of the ROM.
fn push_rom<'r, 'a, A: Allocator + Copy>(
    found: &mut Vec<RomRows<'r, 'a>, A>,
    part: &'r Part<'a, A>,
) -> Result<(), OutOfMemory>
    ensures { OnOk result (sections_of found.new.items ≡ sections_of found.old.items
        ++ rom_list (head_in part.now.head) (rows_of part.now.rows.items)) }
{
    if let Some(Head::Rom(address)) = part.head {
        found.push(RomRows {
            address,
            rows: part.rows.as_slice(),
        })?;
    }
    Ok(())
}
