//! Where sections of the ROM are laid. A section may overwrite words of `rom` lines, so one can
//! change a shape of an old ROM. The first free word is the one after the highest, so none lands in
//! a gap too small for it.
ghost use Rattle.std.specs.Prelude.{◌≡◌, ◌≤◌, ◌<◌, ◌+◌, ◌^◌, ℕ, List, [], ◌∷◌, ◌++◌, length, max};
ghost use Rattle.std.specs.Prelude.{unwrap_or, IfNone, IfOk, IfSome, Some};
ghost use Rattle.dvg_mem.specs.declared.TheConstants.{ROM_END};
ghost use Rattle.dvg_read.specs.RomTexts.{RomLine};
ghost use Rattle.dvg_named.specs.RomNames.{address_listed};
ghost use Rattle.dvg_named.specs.LaidValues.{AreLaid, AreLow, NoneNames, laid_sections, rows_in};
ghost use Rattle.dvg_named.specs.LaidValues.{rows_laid, sections_of};
ghost use Rattle.dvg_rows.specs.RowPlaces.{AreDistinct, names_of};
ghost use Rattle.dvg_named.specs.Places.{IsAddress, free_after};
ghost use Rattle.dvg_rows.specs.RowPlaces.{size as words_of_rows};

use crate::meaning::RomName;
use dvg_code::OutOfMemory;
use dvg_rows::{GivenNames, Row, size};
use std::alloc::Allocator;
use std::marker::Model;

/// The rows of a section of the ROM, and the word address that its line `.rom` gives, if it gives
/// one.
#[derive(Clone, Copy)]
pub(crate) struct RomRows<'r, 'a> {
    /// The word address that is given.
    pub address: Option<u16>,
    /// The rows, in order.
    pub rows: &'r [Row<'a>],
}

/// The rows of a section of the ROM, and the word address from which on they are laid.
#[derive(Clone, Copy)]
pub(crate) struct LaidRows<'r, 'a> {
    /// The word address of the first word.
    pub start: usize,
    /// The rows, in order.
    pub rows: &'r [Row<'a>],
}

/// Laid sections, and all names that they give.
#[derive(Drop)]
pub(crate) struct LaidNames<'s, 'r, 'a, A: Allocator + Copy> {
    sections: &'s [LaidRows<'r, 'a>],
    // The names, in order, by which one is found; and the same with their addresses.
    given: &'s GivenNames<'a, A>,
    names: &'s [RomName<'a>],
}

impl<'s, 'r, 'a, A: Allocator + Copy> Model for LaidNames<'s, 'r, 'a, A> {
    ghost use Rattle.std.specs.Prelude.{List};
    ghost use Rattle.dvg_named.specs.declared.laid.LaidRows.{LaidRows as HeldLaid};
    ghost use Rattle.dvg_named.specs.LaidValues.{laid_sections};
    ghost use Rattle.dvg_named.specs.Places.{IsAddress};
    ghost use Rattle.dvg_named.specs.RomNames.{TellsListed};

    ghost Value = { List HeldLaid };

    ghost view = { λ named. named.sections.now };

    ghost invariant = { λ named. TellsListed (IsAddress (laid_sections named.sections.now))
        named.given.now.given.keys named.names.now };
}

impl<'s, 'r, 'a, A: Allocator + Copy> LaidNames<'s, 'r, 'a, A> {
    ghost use Rattle.std.specs.Prelude.{◌≡◌, All};
    ghost use Rattle.dvg_read.specs.LineParts.{bytes_of};
    ghost use Rattle.dvg_named.specs.LaidValues.{laid_sections, rows_laid};
    ghost use Rattle.dvg_named.specs.RomNames.{IsNamedIn, names_listed};
    ghost use Rattle.dvg_rows.specs.RowPlaces.{names_of};

    /// Returns `sections` with the names that they give, which are `names`. These are `given`, in
    /// order. No memory is taken.
    pub fn new(
        sections: &'s [LaidRows<'r, 'a>],
        given: &'s GivenNames<'a, A>,
        names: &'s [RomName<'a>],
    ) -> LaidNames<'s, 'r, 'a, A>
        requires listed { names_listed names.now
            ≡ names_of (rows_laid (laid_sections sections.now)) }
        requires addresses { All (IsNamedIn (laid_sections sections.now)) names.now }
        requires given { bytes_of given.now.given.keys ≡ names_listed names.now }
        ensures { result ≡ sections.now }
    {
        LaidNames {
            sections,
            given,
            names,
        }
    }

    /// Returns the sections, in order.
    pub fn sections(&self) -> &'s [LaidRows<'r, 'a>]
        ensures { result.now ≡ self.now }
    {
        self.sections
    }
}

/// Returns `sections` as they are laid, in order. Each is laid from its address on, or else from
/// the first word after all that were laid before, which for the first section is `free` (this
/// project's own choice). Returns `OutOfMemory` where an allocation fails. The time grows with the
/// number of rows.
pub(crate) fn lay<'r, 'a, A: Allocator>(
    alloc: A,
    free: usize,
    sections: &[RomRows<'r, 'a>],
) -> Result<Vec<LaidRows<'r, 'a>, A>, OutOfMemory>
    requires low { free < 2 ^ 32 }
    requires few { words_of_rows (rows_in (sections_of sections.now)) < 2 ^ 32 }
    ensures { IfOk result (λ laid. AreLaid free sections.now laid.items) }
{
    let mut laid = Vec::new(alloc);
    let mut next = free;
    for section in sections {
        let start = start_of(section.address, next);
        laid.push(LaidRows {
            start,
            rows: section.rows,
        })?;
        next = next.max(start + size(section.rows));
    }
    Ok(laid)
}

/// Returns the first word address that is free after one more line `rom`, where `free` was it
/// before and `end` is the address after the line's words. Before the first line it is that of the
/// ROM's first word.
pub(crate) fn free_with(free: u16, end: u16) -> u16
    ensures { (first : ℕ) (given : List RomLine) (line : RomLine) → free ≡ free_after first given
        → end ≡ line.address + length line.words → result ≡ free_after first (given ++ line ∷ []) }
{
    free.max(end)
}

// Returns `address`, or `next` where none is given.
fn start_of(address: Option<u16>, next: usize) -> usize
    ensures value { result ≡ unwrap_or address next }
    ensures most { result ≤ max 65535 next }
{
    match address {
        Some(given) => usize::from(given),
        None => next,
    }
}

/// Returns the word address that `name` names in the ROM of `sections`. Returns `None` exactly
/// where no row of them gives it. The time doesn't grow with the number of rows.
///
/// Where each name is given once, no other address is that of `name`. A name after the last
/// operation of its section is the address after the section (this project's own choice).
pub(crate) fn address_of<A: Allocator + Copy>(
    sections: &LaidNames<'_, '_, '_, A>,
    name: &[u8],
) -> Option<u16>
    requires { AreLow (laid_sections sections.now) }
    ensures found { IfSome result (IsAddress (laid_sections sections.now) name.now) }
    ensures low { IfSome result (λ address. address ≤ ROM_END) }
    ensures none { IfNone result (NoneNames sections.now name.now) }
    ensures only { AreDistinct (names_of (rows_laid (laid_sections sections.now))) → (address : ℕ)
        → IsAddress (laid_sections sections.now) name.now address → result ≡ Some address }
{
    listed_address(sections.given, sections.names, name)
}

// Returns the address of `name`, if it is one of `given`. `names` are the same with their
// addresses.
fn listed_address<A: Allocator + Copy>(
    given: &GivenNames<'_, A>,
    names: &[RomName],
    name: &[u8],
) -> Option<u16>
    ensures { result ≡ address_listed given.now.given.keys names.now name.entry }
{
    let place = given.place_of(name)?;
    let named = names.get(place)?;
    Some(named.address)
}
