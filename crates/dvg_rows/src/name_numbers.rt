//! The numbers of the names of a section.
ghost use Rattle.std.specs.Prelude.{◌≡◌, ◌<◌, ◌^◌, ◌++◌, ◌↔◌, IfNone, IfOk, IfSome, IsTrue, OnOk};
ghost use Rattle.std.specs.List.{AllZip};
ghost use Rattle.dvg_read.specs.LineParts.{bytes_of};
ghost use Rattle.dvg_rows.specs.HeldRows.{rows_of};
ghost use Rattle.dvg_rows.specs.NameNumbers.{IsOther, PassesName, number_kept};
ghost use Rattle.dvg_rows.specs.RowPlaces.{AreDistinct, IsNumber, names_of};
ghost use Rattle.dvg_rows.specs.RowValues.{name_of};

use crate::given_names::GivenNames;
use crate::name_table::NameTable;
use crate::number::op_count;
use crate::row::Row;
use dvg_code::OutOfMemory;
use std::alloc::Allocator;

/// The number of each name.
#[derive(Drop)]
pub(crate) enum NameNumbers<'r, 'a, A: Allocator + Copy> {
    /// A table has them.
    Told(NameTable<'a, A>),
    /// They are listed, in the order in which the names were given.
    Listed(&'r GivenNames<'a, A>, Vec<usize, A>),
}

impl<'r, 'a, A: Allocator + Copy> NameNumbers<'r, 'a, A> {
    ghost use Rattle.std.specs.Prelude.{◌≡◌};
    ghost use Rattle.dvg_rows.specs.NameNumbers.{number_told};

    /// Returns the number of `name`, if it has one.
    pub fn get(&self, name: &[u8]) -> Option<usize>
        ensures { result ≡ number_told self.now name.entry }
    {
        match self {
            NameNumbers::Told(table) => table.get(name),
            NameNumbers::Listed(given, numbers) => match given.place_of(name) {
                Some(place) => numbers.get(place).copied(),
                None => None,
            },
        }
    }
}

/// Whether the names that `rows` give are `given`, in order.
pub(crate) fn are_given<A: Allocator + Copy>(rows: &[Row], given: &GivenNames<'_, A>) -> bool
    ensures same { IsTrue result ↔ (names_of (rows_of rows.now) ≡ bytes_of given.now.given.keys) }
    ensures once { AreDistinct (bytes_of given.now.given.keys) }
{
    let all = given.len();
    let mut count = 0;
    for row in rows {
        let Some(next) = place_after(given, count, row.name) else {
            return false;
        };
        count = next;
    }
    count == all
}

// Returns the place after `name`, if there is a name and it was given at this `place`; `place`, if
// there is none; and else `None`.
fn place_after<A: Allocator + Copy>(
    given: &GivenNames<'_, A>,
    place: usize,
    name: Option<&[u8]>,
) -> Option<usize>
    requires { place < 2 ^ 63 }
    ensures after { IfSome result
        (PassesName (bytes_of given.now.given.keys) place (name_of name.entry)) }
    ensures other { IfNone result
        (IsOther (bytes_of given.now.given.keys) place (name_of name.entry)) }
{
    match name {
        Some(name) => {
            if given.has_at(place, name) {
                Some(place + 1)
            } else {
                None
            }
        }
        None => Some(place),
    }
}

/// Returns the number of each name that `rows` give, in order: as many operations stand before its
/// row. Returns `OutOfMemory` where an allocation fails.
pub(crate) fn list_numbers<A: Allocator>(
    alloc: A,
    rows: &[Row],
) -> Result<Vec<usize, A>, OutOfMemory>
    ensures { IfOk result (λ numbers.
        AllZip (IsNumber (rows_of rows.now)) (names_of (rows_of rows.now)) numbers.items) }
{
    let mut numbers = Vec::new(alloc);
    let mut count = 0;
    for row in rows {
        push_number(&mut numbers, row.name, count)?;
        count += op_count(row);
    }
    Ok(numbers)
}

// Adds `number` to `numbers`, if it is that of a `name`.
fn push_number<A: Allocator>(
    numbers: &mut Vec<usize, A>,
    name: Option<&[u8]>,
    number: usize,
) -> Result<(), OutOfMemory>
    ensures { OnOk result (numbers.new.items
        ≡ numbers.old.items ++ number_kept (name_of name.entry) number) }
{
    if name.is_some() {
        numbers.push(number)?;
    }
    Ok(())
}
