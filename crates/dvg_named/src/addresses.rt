//! The names of the ROM, and their word addresses.
ghost use Rattle.std.specs.Prelude.{◌≡◌, ◌≤◌, ◌++◌, All, IfOk, IfSome, List, OnOk};
ghost use Rattle.std.specs.Option.{option_to_list};
ghost use Rattle.dvg_mem.specs.declared.TheConstants.{ROM_END};
ghost use Rattle.dvg_rows.specs.HeldRows.{rows_of};
ghost use Rattle.dvg_named.specs.LaidValues.{AreLow, laid_section, laid_sections, rows_laid};
ghost use Rattle.dvg_rows.specs.RowPlaces.{names_of};
ghost use Rattle.dvg_named.specs.Places.{IsAddress, Laid, laid_end};
ghost use Rattle.dvg_named.specs.RomNames.{IsNamedIn, StandsIn, names_listed};
ghost use Rattle.dvg_rows.specs.RowValues.{name_of};

use crate::laid::LaidRows;
use crate::meaning::RomName;
use dvg_code::OutOfMemory;
use dvg_rows::words_of_row;
use std::alloc::Allocator;

/// Returns all names that the laid `sections` give, in the order of the text, each with its word
/// address. Returns `OutOfMemory` where an allocation fails. The time grows with the number of
/// rows.
pub(crate) fn rom_names<'a, A: Allocator>(
    alloc: A,
    sections: &[LaidRows<'_, 'a>],
) -> Result<Vec<RomName<'a>, A>, OutOfMemory>
    requires { AreLow (laid_sections sections.now) }
    ensures names { IfOk result (λ found. names_listed found.items
        ≡ names_of (rows_laid (laid_sections sections.now))) }
    ensures addresses { IfOk result (λ found.
        All (IsNamedIn (laid_sections sections.now)) found.items) }
{
    let mut found = Vec::new(alloc);
    for section in sections {
        push_names(&mut found, section)?;
    }
    Ok(found)
}

// Adds the names of `section` to `found`.
fn push_names<'a, A: Allocator>(
    found: &mut Vec<RomName<'a>, A>,
    section: &LaidRows<'_, 'a>,
) -> Result<(), OutOfMemory>
    requires { laid_end (laid_section section.now) ≤ ROM_END }
    ensures names { OnOk result (names_listed found.new.items
        ≡ names_listed found.old.items ++ names_of (rows_of section.now.rows.now)) }
    ensures addresses { OnOk result ((laid : List Laid) → StandsIn laid (laid_section section.now)
        → All (IsNamedIn laid) found.old.items → All (IsNamedIn laid) found.new.items) }
{
    let mut next = section.start;
    for row in section.rows {
        push_name(found, row.name, next as u16)?;
        next += words_of_row(row);
    }
    Ok(())
}

// Adds `name` at the word address `address` to `found`, if there is a name.
fn push_name<'a, A: Allocator>(
    found: &mut Vec<RomName<'a>, A>,
    name: Option<&'a [u8]>,
    address: u16,
) -> Result<(), OutOfMemory>
    ensures names { OnOk result (names_listed found.new.items
        ≡ names_listed found.old.items ++ option_to_list (name_of name.entry)) }
    ensures addresses { OnOk result ((laid : List Laid)
        → IfSome (name_of name.entry) (λ name. IsAddress laid name address)
        → All (IsNamedIn laid) found.old.items → All (IsNamedIn laid) found.new.items) }
{
    if let Some(name) = name {
        found.push(RomName { name, address })?;
    }
    Ok(())
}
