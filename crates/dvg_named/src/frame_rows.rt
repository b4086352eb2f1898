//! The frames among the sections of a sketch.
ghost use Rattle.std.specs.Prelude.{◌≡◌, ◌≢◌, ◌<◌, ◌++◌, ◌∷◌, [], ℕ, All, AllPairs, IfOk, List};
ghost use Rattle.std.specs.Prelude.{None, OnOk, map};
ghost use Rattle.std.specs.List.{filter_map};
ghost use Rattle.dvg_read.specs.RomTexts.{RomText};
ghost use Rattle.dvg_named.specs.FrameValues.{BeginsBefore, BeginsFirst, IsBegunAt, IsFrameAt};
ghost use Rattle.dvg_named.specs.FrameValues.{frame_in, frame_list, frames_of, rows_at_top};
ghost use Rattle.dvg_named.specs.FrameValues.{sketch_held};
ghost use Rattle.dvg_named.specs.LineNumbers.{first_head};
ghost use Rattle.dvg_rows.specs.HeldRows.{rows_of};
ghost use Rattle.dvg_named.specs.Sections.{HasTop, Spelled, frames};
ghost use Rattle.dvg_named.specs.SketchReading.{head_in, section_in};
ghost use Rattle.dvg_named.specs.SourcedRows.{AreInOrder, IsPartAt, StandsBefore};

use dvg_code::OutOfMemory;
use dvg_rows::{Head, Part, Row, Source};
use std::alloc::Allocator;

/// The rows of a frame, and the lines that they stand in.
#[derive(Clone, Copy)]
pub(crate) struct FrameRows<'r, 'a> {
    /// Its name, if it has one.
    pub name: Option<&'a [u8]>,
    /// The line that begins it. A frame at the top begins with the text's first line.
    pub begin: Source<'a>,
    /// Its rows, in order.
    pub rows: &'r [Row<'a>],
    /// The line of each row.
    pub sources: &'r [Source<'a>],
}

/// Returns the frames, in order: those of the sections `closed`, and of the section `last` after
/// them. The first section of all is the one at the top. Returns `OutOfMemory` where an allocation
/// fails.
pub(crate) fn frame_rows<'r, 'a, A: Allocator + Copy>(
    alloc: A,
    closed: &'r [Part<'a, A>],
    last: &'r Part<'a, A>,
) -> Result<Vec<FrameRows<'r, 'a>, A>, OutOfMemory>
    ensures frames { IfOk result (λ found. (stated : RomText) → frames_of found.items
        ≡ frames (sketch_held stated closed.now last.now)) }
    ensures sources { IfOk result (λ found. (small : List ℕ) → All (IsPartAt small) closed.now
        → IsPartAt small last.now → All (IsFrameAt small) found.items) }
    ensures begins { IfOk result (λ found. (stated : RomText) (small : List ℕ)
        → All (IsPartAt small) closed.now → IsPartAt small last.now
        → first_head closed.now last.now ≡ None
        → All (IsBegunAt small (sketch_held stated closed.now last.now)) found.items) }
    ensures rise { IfOk result (λ found. (small : List ℕ) → All (IsPartAt small) closed.now
        → AreInOrder closed.now → All (StandsBefore last.now.begin.number) closed.now
        → AllPairs BeginsFirst found.items) }
{
    let [top, others @ ..] = closed else {
        let mut found = Vec::new(alloc);
        push_top(&mut found, last)?;
        return Ok(found);
    };
    let mut found = later_frames(alloc, top, others)?;
    push_frame(&mut found, last)?;
    Ok(found)
}

// Returns the frames among `top`, the section at the top, and `others`, the sections between it and
// the last one.
fn later_frames<'r, 'a, A: Allocator + Copy>(
    alloc: A,
    top: &'r Part<'a, A>,
    others: &'r [Part<'a, A>],
) -> Result<Vec<FrameRows<'r, 'a>, A>, OutOfMemory>
    ensures frames { IfOk result (λ found. frames_of found.items
        ≡ rows_at_top (rows_of top.now.rows.items)
        ++ filter_map frame_in (map section_in others.now)) }
    ensures sources { IfOk result (λ found. (small : List ℕ) → IsPartAt small top.now
        → All (IsPartAt small) others.now → All (IsFrameAt small) found.items) }
    ensures begins { IfOk result (λ found. (small : List ℕ) (sketch : Spelled)
        → (top.now.rows.items ≢ [] → HasTop sketch) → IsPartAt small top.now
        → top.now.head ≡ None → All (IsPartAt small) others.now
        → All (IsBegunAt small sketch) found.items) }
    ensures before { IfOk result (λ found. (small : List ℕ) (number : ℕ) → IsPartAt small top.now
        → StandsBefore number top.now → All (StandsBefore number) others.now
        → All (BeginsBefore number) found.items) }
    ensures rise { IfOk result (λ found. (small : List ℕ) → IsPartAt small top.now
        → AreInOrder (top.now ∷ others.now) → AllPairs BeginsFirst found.items) }
{
    let mut found = Vec::new(alloc);
    if !top.rows.is_empty() {
        push_top(&mut found, top)?;
    }
    for part in others {
        push_frame(&mut found, part)?;
    }
    Ok(found)
}

// Adds `top`, the section at the top, to `found`.
fn push_top<'r, 'a, A: Allocator + Copy>(
    found: &mut Vec<FrameRows<'r, 'a>, A>,
    top: &'r Part<'a, A>,
) -> Result<(), OutOfMemory>
    ensures frames { OnOk result (frames_of found.new.items ≡ frames_of found.old.items
        ++ record { name = None; rows = rows_of top.now.rows.items } ∷ []) }
    ensures sources { OnOk result ((small : List ℕ) → IsPartAt small top.now
        → All (IsFrameAt small) found.old.items → All (IsFrameAt small) found.new.items) }
    ensures begins { OnOk result ((small : List ℕ) (sketch : Spelled) → HasTop sketch
        → IsPartAt small top.now → top.now.head ≡ None
        → All (IsBegunAt small sketch) found.old.items
        → All (IsBegunAt small sketch) found.new.items) }
    ensures before { OnOk result ((number : ℕ) → top.now.begin.number < number
        → All (BeginsBefore number) found.old.items → All (BeginsBefore number) found.new.items) }
    ensures rise { OnOk result (All (BeginsBefore top.now.begin.number) found.old.items
        → AllPairs BeginsFirst found.old.items → AllPairs BeginsFirst found.new.items) }
{
    found.push(FrameRows {
        name: None,
        begin: top.begin,
        rows: top.rows.as_slice(),
        sources: top.sources.as_slice(),
    })?;
    Ok(())
}

// Adds the section `part` to `found`, if it is a frame.
fn push_frame<'r, 'a, A: Allocator + Copy>(
    found: &mut Vec<FrameRows<'r, 'a>, A>,
    part: &'r Part<'a, A>,
) -> Result<(), OutOfMemory>
    ensures frames { OnOk result (frames_of found.new.items ≡ frames_of found.old.items
        ++ frame_list (head_in part.now.head) (rows_of part.now.rows.items)) }
    ensures sources { OnOk result ((small : List ℕ) → IsPartAt small part.now
        → All (IsFrameAt small) found.old.items → All (IsFrameAt small) found.new.items) }
    ensures begins { OnOk result ((small : List ℕ) (sketch : Spelled) → IsPartAt small part.now
        → All (IsBegunAt small sketch) found.old.items
        → All (IsBegunAt small sketch) found.new.items) }
    ensures before { OnOk result ((number : ℕ) → StandsBefore number part.now
        → All (BeginsBefore number) found.old.items → All (BeginsBefore number) found.new.items) }
    ensures rise { OnOk result (All (BeginsBefore part.now.begin.number) found.old.items
        → AllPairs BeginsFirst found.old.items → AllPairs BeginsFirst found.new.items) }
{
    if let Some(Head::Frame(name)) = part.head {
        found.push(FrameRows {
            name,
            begin: part.begin,
            rows: part.rows.as_slice(),
            sources: part.sources.as_slice(),
        })?;
    }
    Ok(())
}
