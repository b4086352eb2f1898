//! The entries of events, in little room. Others call this a run-length encoding.
ghost use Rattle.std.specs.Prelude.{◌≡◌, ◌≤◌, length};
ghost use Rattle.dvg_log.specs.declared.trace.TheConstants.{MOST_EVENTS};

use dvg_gen::Stroke;
use dvg_log::Entry;
use std::alloc::{Allocator, Global};
use std::marker::Model;

/// A run-length encoded entry: `entry`, `again + 1` times in a row. It has eight bytes.
#[derive(Clone, Copy)]
pub(crate) struct Alike {
    pub(crate) entry: Entry<()>,
    pub(crate) again: u16,
}

/// The entries of events, in little room: equal ones may be kept as one, and the strokes of all
/// pictures lie in a list of their own. The nth entry that finished a run has the nth of these.
#[derive(Drop)]
pub struct Entries<A: Allocator = Global> {
    pub(crate) kept: Vec<Alike, A>,
    pub(crate) drawn: Vec<Vec<Stroke, A>, A>,
}

/// Contracts see the list of the entries.
impl<A: Allocator> Model for Entries<A> {
    ghost use Rattle.std.specs.Prelude.{List, length, map};
    ghost use Rattle.dvg_log.specs.Entries.{Shown};
    ghost use Rattle.dvg_world.specs.Keeping.{all_entries};
    ghost use Rattle.dvg_world.specs.own.Entries.{AreEntries};

    ghost Value = { List Shown };

    ghost view = { λ entries. all_entries
        (map (λ strokes. strokes.items) entries.drawn.items) entries.kept.items };

    ghost invariant = { λ entries. AreEntries entries.kept.items (length entries.drawn.items) };
}

impl<A: Allocator> Entries<A> {
    /// Returns an iterator over the entries, as runs of equal ones. There are as many entries as a
    /// trace has events, or fewer.
    pub fn runs(&self) -> EntryRuns<'_, A>
        ensures entries { result ≡ self.now }
        ensures most { length result ≤ MOST_EVENTS }
    {
        EntryRuns {
            kept: self.kept.as_slice(),
            drawn: self.drawn.as_slice(),
        }
    }
}

/// An entry, and how many times in a row it comes: a run of equal entries.
#[derive(Clone, Copy)]
pub struct EntryRun<'a> {
    /// The entry, without its strokes.
    pub entry: &'a Entry<()>,
    /// The number of times that it comes in a row.
    pub times: usize,
    /// What the generator's run drew, if the entry finished one; otherwise nothing.
    pub strokes: &'a [Stroke],
}

/// An iterator over entries, as runs of equal ones. The entries of two runs in a row may be equal.
#[derive(Drop)]
pub struct EntryRuns<'a, A: Allocator = Global> {
    kept: &'a [Alike],
    drawn: &'a [Vec<Stroke, A>],
}

/// Contracts see the list of the entries that are still to come.
impl<'a, A: Allocator> Model for EntryRuns<'a, A> {
    ghost use Rattle.std.specs.Prelude.{◌≡◌, List, length, map};
    ghost use Rattle.dvg_log.specs.Entries.{Shown};
    ghost use Rattle.dvg_world.specs.Keeping.{all_entries};
    ghost use Rattle.dvg_world.specs.own.Entries.{finished_count};

    ghost Value = { List Shown };

    ghost view = { λ left. all_entries
        (map (λ strokes. strokes.items) left.drawn.now) left.kept.now };

    ghost invariant = { λ left. finished_count left.kept.now ≡ length left.drawn.now };
}

impl<'a, A: Allocator> Iterator for EntryRuns<'a, A> {
    ghost use Rattle.std.specs.Prelude.{length};
    ghost use Rattle.std.specs.Iterator.{at_most};
    ghost use Rattle.dvg_world.specs.Keeping.{NextEntries};

    type Item = EntryRun<'a>;

    ghost next_gives = { NextEntries };

    ghost remaining = { λ left. at_most (length left) };

    #[inline(always)]
    fn next(&mut self) -> Option<EntryRun<'a>> {
        let kept = self.kept;
        if kept.is_empty() {
            return None;
        }
        let entry = &kept[0].entry;
        let times = usize::from(kept[0].again) + 1;
        self.kept = &kept[1..];
        let drawn = self.drawn;
        let mut strokes: &'a [Stroke] = &[];
        if let Entry::Done(..) = entry {
            strokes = drawn[0].as_slice();
            self.drawn = &drawn[1..];
        }
        Some(EntryRun {
            entry,
            times,
            strokes,
        })
    }
}
