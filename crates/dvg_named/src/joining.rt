//! The drafts of all frames, with their operations in one list.
ghost use Rattle.std.specs.Prelude.{◌≡◌, ◌≤◌, ◌++◌, ◌-◌, ◌^◌, All, IfErr, IfOk, List, OnOk};
ghost use Rattle.std.specs.Prelude.{length, min};
ghost use Rattle.std.specs.List.{AllZip, sum_by};
ghost use Rattle.dvg_frame.specs.declared.op.OpKind.{OpKind as Kind};
ghost use Rattle.dvg_named.specs.FlatDrafts.{StopsDraft};
ghost use Rattle.dvg_named.specs.FlatFrames.{HasFewOps, IsSpanOf, StopsFrames};
ghost use Rattle.dvg_named.specs.LaidValues.{AreLow, laid_sections};
ghost use Rattle.dvg_named.specs.OpSources.{AreLinesOf, HasRowLines, line_kept};
ghost use Rattle.dvg_named.specs.OpSources.{op_sources};

use crate::flat_draft::{DraftFault, push_draft};
use crate::frame_rows::FrameRows;
use crate::laid::LaidNames;
use dvg_code::OutOfMemory;
use dvg_frame::Op;
use dvg_rows::{GivenNames, Row, Source};
use std::alloc::Allocator;

/// Where the operations of a frame stand in the list of those of all frames.
#[derive(Clone, Copy)]
pub struct FrameSpan<'a> {
    /// The name of the frame, if it has one.
    pub name: Option<&'a [u8]>,
    /// The line that begins it.
    pub begin: Source<'a>,
    /// The number of its first operation.
    pub start: usize,
    /// The number after that of its last one.
    pub end: usize,
}

/// The operations of all frames, in order, each with its line, and where those of each frame stand.
#[derive(Drop)]
pub struct JoinedFrames<'a, A: Allocator> {
    /// All operations.
    pub ops: Vec<Op, A>,
    /// The line of each operation.
    pub sources: Vec<Source<'a>, A>,
    /// Where those of each frame stand.
    pub spans: Vec<FrameSpan<'a>, A>,
}

/// Returns the drafts of `frames`, with the names of the ROM from `rom`. Of a frame whose names are
/// `given`, in order, no table is made. Returns `UnknownName` where one needs a name that isn't
/// given, and `Memory` where an allocation fails.
pub(crate) fn join_frames<'a, A: Allocator + Copy>(
    alloc: A,
    frames: &[FrameRows<'_, 'a>],
    rom: &LaidNames<'_, '_, '_, A>,
    given: &GivenNames<'a, A>,
) -> Result<JoinedFrames<'a, A>, DraftFault>
    requires few { All HasFewOps frames.now }
    requires lines { All HasRowLines frames.now }
    requires low { AreLow (laid_sections rom.now) }
    ensures spans { IfOk result (λ joined.
        AllZip (IsSpanOf (laid_sections rom.now) joined.ops.items) frames.now joined.spans.items) }
    ensures lines { IfOk result (λ joined.
        AllZip (AreLinesOf joined.sources.items) frames.now joined.spans.items) }
    ensures fault { IfErr result (StopsFrames (laid_sections rom.now) frames.now) }
{
    let room = row_count(frames);
    let Ok(mut ops) = Vec::with_capacity(alloc, room) else {
        return Err(DraftFault::Memory);
    };
    let Ok(mut sources) = Vec::with_capacity(alloc, room) else {
        return Err(DraftFault::Memory);
    };
    let mut spans = Vec::new(alloc);
    for frame in frames {
        if push_sources(&mut sources, frame).is_err() {
            return Err(DraftFault::Memory);
        }
        let span = match push_frame(alloc, &mut ops, frame, rom, given) {
            Ok(span) => span,
            Err(fault) => return Err(fault),
        };
        if spans.push(span).is_err() {
            return Err(DraftFault::Memory);
        }
    }
    Ok(JoinedFrames {
        ops,
        sources,
        spans,
    })
}

// Returns how many rows `frames` have, or the greatest `usize` where that is less.
fn row_count(frames: &[FrameRows]) -> usize
    ensures { result ≡ min (sum_by (λ frame. length frame.rows.now) frames.now) (2 ^ 64 - 1) }
{
    let mut count: usize = 0;
    for frame in frames {
        count = count.saturating_add(frame.rows.len());
    }
    count
}

// Adds the lines of the operations of `frame` to `sources`.
fn push_sources<'a, A: Allocator + Copy>(
    sources: &mut Vec<Source<'a>, A>,
    frame: &FrameRows<'_, 'a>,
) -> Result<(), OutOfMemory>
    requires lines { HasRowLines frame.now }
    ensures { OnOk result (sources.new.items
        ≡ sources.old.items ++ op_sources frame.now.rows.now frame.now.sources.now) }
{
    for (place, row) in frame.rows.iter().enumerate() {
        push_line(sources, row, &frame.sources[place])?;
    }
    Ok(())
}

// Adds the line `source` of `row` to `sources`, if the row does something.
fn push_line<'a, A: Allocator + Copy>(
    sources: &mut Vec<Source<'a>, A>,
    row: &Row,
    source: &Source<'a>,
) -> Result<(), OutOfMemory>
    ensures { OnOk result (sources.new.items
        ≡ sources.old.items ++ line_kept row.now.doing source.now) }
{
    if row.doing.is_some() {
        sources.push(*source)?;
    }
    Ok(())
}

// Adds the operations of `frame` to `ops`, with the names of the ROM from `rom`. Returns where they
// stand. Where its names are `given`, in order, no table is made of them.
fn push_frame<'a, A: Allocator + Copy>(
    alloc: A,
    ops: &mut Vec<Op, A>,
    frame: &FrameRows<'_, 'a>,
    rom: &LaidNames<'_, '_, '_, A>,
    given: &GivenNames<'a, A>,
) -> Result<FrameSpan<'a>, DraftFault>
    requires few { HasFewOps frame.now }
    requires low { AreLow (laid_sections rom.now) }
    ensures span { IfOk result (IsSpanOf (laid_sections rom.now) ops.new.items frame.now) }
    ensures place { IfOk result (λ span.
        (span.start ≡ length ops.old.items) × (span.end ≡ length ops.new.items)) }
    ensures grown { OnOk result ((more : List Kind) × (ops.new.items ≡ ops.old.items ++ more)) }
    ensures fault { IfErr result (StopsDraft (laid_sections rom.now) frame.now.rows.now) }
{
    let start = ops.len();
    match push_draft(alloc, ops, frame.rows, rom, given) {
        Ok(()) => Ok(FrameSpan {
            name: frame.name,
            begin: frame.begin,
            start,
            end: ops.len(),
        }),
        Err(fault) => Err(fault),
    }
}
