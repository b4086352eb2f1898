//! A section of a sketch that was read.

use crate::row::{Head, Row};
use crate::source::Source;
use dvg_read::LineFault;
use std::alloc::Allocator;
use std::slice;

/// A section that was read.
#[derive(Drop)]
pub struct Part<'a, A: Allocator> {
    /// How its line begins it. The section at the top has none.
    pub head: Option<Head<'a>>,
    /// The line that begins it. The section at the top begins with the text's first line.
    pub begin: Source<'a>,
    /// Its rows, in order.
    pub rows: Vec<Row<'a>, A>,
    /// The line of each row.
    pub sources: Vec<Source<'a>, A>,
}

impl<'a, A: Allocator + Copy> Part<'a, A> {
    ghost use Rattle.std.specs.Prelude.{◌≡◌, ◌++◌, ◌∷◌, [], IfErr, OnOk};

    /// Returns a section without rows, which `begin`, the line of `head`, begins. Its memory comes
    /// from `alloc`.
    pub fn new(alloc: A, head: Option<Head<'a>>, begin: Source<'a>) -> Part<'a, A>
        ensures head { result.head ≡ head.entry }
        ensures begin { result.begin ≡ begin.entry }
        ensures rows { result.rows.items ≡ [] }
        ensures sources { result.sources.items ≡ [] }
    {
        Part {
            head,
            begin,
            rows: Vec::new(alloc),
            sources: Vec::new(alloc),
        }
    }

    /// Adds `row`, which stands in the line `source`. Returns `Memory` where an allocation fails.
    pub fn push(&mut self, row: &Row<'a>, source: Source<'a>) -> Result<(), LineFault>
        ensures head { self.new.head ≡ self.old.head }
        ensures begin { self.new.begin ≡ self.old.begin }
        ensures rows { OnOk result (self.new.rows.items ≡ self.old.rows.items ++ row.now ∷ []) }
        ensures sources { OnOk result (self.new.sources.items
            ≡ self.old.sources.items ++ source.entry ∷ []) }
        ensures fault { IfErr result (λ fault. fault ≡ LineFault.Memory) }
    {
        if self.rows.extend_from_slice(slice::from_ref(row)).is_err() {
            return Err(LineFault::Memory);
        }
        if self.sources.push(source).is_err() {
            return Err(LineFault::Memory);
        }
        Ok(())
    }

    /// Gives back the unused room of the rows and their lines.
    pub fn fit(&mut self)
        ensures head { self.new.head ≡ self.old.head }
        ensures begin { self.new.begin ≡ self.old.begin }
        ensures rows { self.new.rows.items ≡ self.old.rows.items }
        ensures sources { self.new.sources.items ≡ self.old.sources.items }
    {
        self.rows.shrink_to_fit();
        self.sources.shrink_to_fit();
    }
}
