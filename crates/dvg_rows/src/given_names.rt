//! Names that were given.

use dvg_read::LineFault;
use indexmap::IndexSet;
use std::alloc::Allocator;
use std::hash::{BuildHasherDefault, FoldHasher};

/// The names that were given, in order, each once.
#[derive(Drop)]
pub struct GivenNames<'a, A: Allocator + Copy> {
    /// The names.
    pub given: IndexSet<&'a [u8], BuildHasherDefault<FoldHasher>, A>,
}

impl<'a, A: Allocator + Copy> GivenNames<'a, A> {
    ghost use Rattle.std.specs.Prelude.{◌≡◌, ◌↔◌, ◌++◌, [], IfErr, IsTrue, OnOk, Some, length};
    ghost use Rattle.std.specs.Prelude.{slice_get};
    ghost use Rattle.std.specs.Option.{option_to_list};
    ghost use Rattle.dvg_read.specs.LineParts.{bytes_of};
    ghost use Rattle.dvg_rows.specs.RowValues.{name_of};
    ghost use Rattle.dvg_rows.specs.FreshNames.{IsFresh, StopsNames};
    ghost use Rattle.dvg_rows.specs.NameTables.{place_in};
    ghost use Rattle.dvg_rows.specs.RowPlaces.{AreDistinct};

    /// Returns a list of no names, with its memory from `alloc`.
    pub fn new(alloc: A) -> GivenNames<'a, A>
        ensures { bytes_of result.given.keys ≡ [] }
    {
        GivenNames {
            given: IndexSet::new(alloc),
        }
    }

    /// Removes all names, and keeps their room.
    pub fn clear(&mut self)
        ensures { bytes_of self.new.given.keys ≡ [] }
    {
        self.given.clear();
    }

    /// Adds `name`, if there is one. Returns `NameGivenAgain` where it was given before, and
    /// `Memory` where an allocation fails.
    pub fn give(&mut self, name: Option<&'a [u8]>) -> Result<(), LineFault>
        ensures given { OnOk result (bytes_of self.new.given.keys
            ≡ bytes_of self.old.given.keys ++ option_to_list (name_of name.entry)) }
        ensures fresh { OnOk result (IsFresh (bytes_of self.old.given.keys) (name_of name.entry)) }
        ensures fault { IfErr result
            (StopsNames (bytes_of self.old.given.keys) (name_of name.entry)) }
    {
        let Some(name) = name else {
            return Ok(());
        };
        match self.given.insert(name) {
            Ok(true) => Ok(()),
            Ok(false) => Err(LineFault::NameGivenAgain),
            Err(_) => Err(LineFault::Memory),
        }
    }

    /// Returns how many names were given.
    pub fn len(&self) -> usize
        ensures count { result ≡ length self.now.given.keys }
        ensures once { AreDistinct (bytes_of self.now.given.keys) }
    {
        self.given.len()
    }

    /// Whether `name` was given, after so many others as `place` says.
    pub fn has_at(&self, place: usize, name: &[u8]) -> bool
        ensures { IsTrue result
            ↔ (slice_get (bytes_of self.now.given.keys) place ≡ Some name.now) }
    {
        match self.given.get_index(place) {
            Some(given) => *given == name,
            None => false,
        }
    }

    /// Returns how many names were given before `name`, if it was given. The time doesn't grow with
    /// how many there are.
    pub fn place_of(&self, name: &[u8]) -> Option<usize>
        ensures { result ≡ place_in self.now.given.keys name.entry }
    {
        self.given.get_index_of(name)
    }
}
