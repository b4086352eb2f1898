//! Names with numbers.
ghost use Rattle.std.specs.Prelude.{◌≡◌, List, None, OnOk, ℕ};
ghost use Rattle.std.specs.Borrow.{Bor};
ghost use Rattle.dvg_rows.specs.NameTables.{number_in, number_with};

use dvg_code::OutOfMemory;
use indexmap::IndexMap;
use std::alloc::Allocator;
use std::hash::{BuildHasherDefault, FoldHasher};

/// Names, each with a number. The time to find one doesn't grow with how many there are.
#[derive(Drop)]
pub(crate) struct NameTable<'a, A: Allocator + Copy> {
    numbers: IndexMap<&'a [u8], usize, BuildHasherDefault<FoldHasher>, A>,
}

impl<'a, A: Allocator + Copy> NameTable<'a, A> {
    ghost use Rattle.std.specs.Prelude.{◌≡◌, List, None, OnOk, ℕ};
    ghost use Rattle.std.specs.Borrow.{Bor};
    ghost use Rattle.dvg_rows.specs.NameTables.{number_in, number_with};

    /// Returns a table of no names, with its memory from `alloc`.
    pub fn new(alloc: A) -> NameTable<'a, A>
        ensures { (name : Bor (List ℕ)) → number_in result name ≡ None }
    {
        NameTable {
            numbers: IndexMap::new(alloc),
        }
    }

    /// Gives `name` the number `number`, if there is a name and it has none yet. Returns
    /// `OutOfMemory` where an allocation fails.
    pub fn put(&mut self, name: Option<&'a [u8]>, number: usize) -> Result<(), OutOfMemory>
        ensures { OnOk result ((other : Bor (List ℕ)) → number_in self.new other
            ≡ number_with self.old name.entry number other) }
    {
        if let Some(name) = name {
            if self.numbers.get(name).is_none() {
                self.numbers.insert(name, number)?;
            }
        }
        Ok(())
    }

    /// Returns the number of `name`, if it has one.
    pub fn get(&self, name: &[u8]) -> Option<usize>
        ensures { result ≡ number_in self.now name.entry }
    {
        self.numbers.get(name).copied()
    }
}
