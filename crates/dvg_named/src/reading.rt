//! What the lines of a sketch spell that were read.
ghost use Rattle.std.specs.Prelude.{◌↔◌, IfNone, IfSome, IsTrue};
ghost use Rattle.dvg_named.specs.RowMoves.{IsCounted, IsFull};
ghost use Rattle.dvg_named.specs.RomBytes.{MayBeEncoded};
ghost use Rattle.dvg_rows.specs.RowValues.{doing_of, row_of};
ghost use Rattle.dvg_rows.specs.Rows.{plainly, rom};
ghost use Rattle.dvg_named.specs.Sections.{MayStand};

use crate::flat_draft::DraftFault;
use crate::frame_rows::{FrameRows, frame_rows};
use crate::joining::{JoinedFrames, join_frames};
use crate::laid::{LaidNames, LaidRows, lay};
use crate::rom_sections::rom_rows;
use crate::rom_words::put_sections;
use crate::stated_rom::StatedRom;
use crate::unknown::first_unknown;
use arrayvec::ArrayVec;
use dvg_code::OutOfMemory;
use dvg_frame::{MAX_OPS, OpKind};
use dvg_mem::LARGE_ROM_BYTES;
use dvg_read::LineFault;
use dvg_rows::{
    Doing, GivenNames, Head, Part, RomArea, Row, Source, read_head, read_row, words_of_row,
};
use std::alloc::Allocator;
use std::mem;

/// What the lines spell that were read. After a fault no more is read.
#[derive(Drop)]
pub(crate) struct Reading<'a, A: Allocator + Copy> {
    alloc: A,
    rom: StatedRom,
    // The sections before the last one.
    closed: Vec<Part<'a, A>, A>,
    // The last section.
    last: Part<'a, A>,
    frame_names: GivenNames<'a, A>,
    rom_names: GivenNames<'a, A>,
    // The names and the number of operations of the last section, where it is a frame.
    names: GivenNames<'a, A>,
    count: usize,
    area: RomArea,
}

impl<'a, A: Allocator + Copy> Reading<'a, A> {
    ghost use Rattle.std.specs.Prelude.{◌≡◌, ◌<◌, ◌+◌, ◌++◌, ◌∷◌, [], ◌↔◌, ℕ, All, AllPairs, List};
    ghost use Rattle.std.specs.Prelude.{IfErr, IfOk, IsTrue};
    ghost use Rattle.std.specs.Prelude.{IsFalse, OnOk};
    ghost use Rattle.dvg_named.specs.FrameValues.{BeginsFirst, IsBegunAt, IsFrameAt, frames_of};
    ghost use Rattle.dvg_named.specs.Sections.{frames};
    ghost use Rattle.dvg_read.specs.LineParts.{bytes_of};
    ghost use Rattle.dvg_read.specs.RomReading.{unstated};
    ghost use Rattle.dvg_read.specs.RomTexts.{RomText};
    ghost use Rattle.dvg_read.specs.RomReading.{TellsRom};
    ghost use Rattle.dvg_rows.specs.RowValues.{head_of, name_of, row_of};
    ghost use Rattle.dvg_rows.specs.Rows.{Head as SpelledHead, IsHeadLine, IsRowLine};
    ghost use Rattle.dvg_rows.specs.Rows.{Row as SpelledRow, frame, rom};
    ghost use Rattle.dvg_named.specs.RowMoves.{IsFrameHead, IsRomHead};
    ghost use Rattle.dvg_named.specs.SketchReading.{AddsLine, IsBare, Opens, Reads, ReadsMore};
    ghost use Rattle.dvg_named.specs.SketchReading.{StopsLine, StopsSketch};
    ghost use Rattle.dvg_named.specs.SketchReading.{head_in, spelled_in};
    ghost use Rattle.dvg_named.specs.GivenRoms.{GivesRom, IsLaidText};
    ghost use Rattle.dvg_named.specs.LaidValues.{laid_sections};
    ghost use Rattle.dvg_named.specs.SketchFaults.{laid_of};
    ghost use Rattle.dvg_rows.specs.PlainLines.{plain};
    ghost use Rattle.dvg_named.specs.TextReading.{ReadsText};
    ghost use Rattle.dvg_named.specs.SketchSteps.{AreParts, line_of};
    ghost use Rattle.dvg_named.specs.SourcedRows.{AreSourced, BeginsFrame, BeginsIn, IsHeadAt};
    ghost use Rattle.dvg_named.specs.SourcedRows.{IsLineAt, IsRowAt, SourcesLine};
    ghost use Rattle.dvg_named.specs.LineNumbers.{EntersRow, KeepsEntries, Numbers, entries_in};
    ghost use Rattle.dvg_named.specs.LineNumbers.{head_at_top};
    ghost use Rattle.std.specs.Prelude.{None, IfNone, IfSome, map};
    ghost use Rattle.std.specs.Char.{to_ascii_lowercase};
    ghost use Rattle.dvg_read.specs.declared.fault.TextFault.TheVariants.{UnknownName};
    ghost use Rattle.dvg_named.specs.FirstUnknown.{StopsDrafts, WantsNone, sections_in};
    ghost use Rattle.dvg_named.specs.FlatFrames.{frame_at};
    ghost use Rattle.dvg_named.specs.Meanings.{IsFrameOf};
    ghost use Rattle.std.specs.List.{AllZip};
    ghost use Rattle.dvg_named.specs.SketchFaults.{HasSketchFault};
    ghost use Rattle.dvg_named.specs.ReadSketches.{IsInside, StandsIn, joined_at};

    /// Returns the reading before the line `first`, which is the text's first. Its memory comes
    /// from `alloc`.
    pub fn new(alloc: A, first: Source<'a>) -> Reading<'a, A>
        ensures reads { Reads unstated result }
        ensures bare { IsBare result }
        ensures sources { (small : List ℕ) → BeginsIn small None first.entry
            → AreSourced small 1 result }
        ensures top { head_at_top result ≡ None }
        ensures entries { entries_in result ≡ [] }
    {
        Reading {
            alloc,
            rom: StatedRom::new(),
            closed: Vec::new(alloc),
            last: Part::new(alloc, None, first),
            frame_names: GivenNames::new(alloc),
            rom_names: GivenNames::new(alloc),
            names: GivenNames::new(alloc),
            count: 0,
            area: RomArea::new(),
        }
    }

    /// Reads the line `source`, whose tokens are `tokens`.
    pub fn add(&mut self, source: Source<'a>, tokens: &[&'a [u8]]) -> Result<(), LineFault>
        requires { AreParts (bytes_of tokens.now) }
        ensures added { OnOk result ((stated : RomText) → Reads stated self.old
            → ReadsMore stated self.old (line_of (bytes_of tokens.now)) self.new) }
        ensures fault { IfErr result (λ fault. (stated : RomText) → Reads stated self.old
            → StopsSketch fault (spelled_in stated self.old) (line_of (bytes_of tokens.now))) }
        ensures sources { OnOk result ((small : List ℕ)
            → AreSourced small source.entry.number self.old → IsLineAt small source.entry
            → plain source.entry.line.now ≡ line_of (bytes_of tokens.now)
            → (stated : RomText) → Reads stated self.old
            → AreSourced small (source.entry.number + 1) self.new) }
        ensures numbers { OnOk result ((stated : RomText) (small : List ℕ) (next : ℕ)
            → Reads stated self.old → AreSourced small next self.old
            → Numbers self.old (line_of (bytes_of tokens.now)) source.entry.number self.new) }
    {
        if self.is_bare() && self.tell(tokens) {
            return Ok(());
        }
        if let Some(head) = read_head(tokens) {
            return self.begin_section(head, source);
        }
        let Some(row) = read_row(tokens) else {
            return Err(LineFault::Syntax);
        };
        self.add_row(&row, source)
    }

    // Whether no line has stated a row and no section has begun.
    fn is_bare(&self) -> bool
        ensures { IsTrue result ↔ IsBare self.now }
    {
        self.closed.is_empty() && self.last.rows.is_empty()
    }

    // Reads a line of `tokens` if it describes the ROM. Returns whether it does. Else nothing
    // changes.
    fn tell(&mut self, tokens: &[&[u8]]) -> bool
        requires { AreParts (bytes_of tokens.now) }
        ensures stated { IsTrue result → IsBare self.old → (stated : RomText)
            → Reads stated self.old
            → ReadsMore stated self.old (line_of (bytes_of tokens.now)) self.new }
        ensures refused { IsFalse result → (stated now : RomText) → Reads stated self.old
            → ¬ TellsRom stated (line_of (bytes_of tokens.now)) now }
        ensures kept { IsFalse result → self.new ≡ self.old }
        ensures sources { IsTrue result → (small : List ℕ) (next : ℕ)
            → AreSourced small next self.old → AreSourced small next self.new }
        ensures entries { IsTrue result → KeepsEntries self.old self.new }
        ensures no_row { IsTrue result → (stated : RomText) → Reads stated self.old
            → (row : SpelledRow) → ¬ IsRowLine row (line_of (bytes_of tokens.now)) }
        ensures no_head { IsTrue result → (stated : RomText) → Reads stated self.old
            → (head : SpelledHead) → ¬ IsHeadLine head (line_of (bytes_of tokens.now)) }
    {
        if !self.rom.take(tokens) {
            return false;
        }
        self.area.set_free(self.rom.free());
        true
    }

    // Begins a section with `head`, in the line `source`.
    fn begin_section(&mut self, head: Head<'a>, source: Source<'a>) -> Result<(), LineFault>
        ensures added { OnOk result (AddsLine (IsHeadLine (head_of head.entry)) self.old self.new) }
        ensures fault { IfErr result (StopsLine (IsHeadLine (head_of head.entry)) self.old) }
        ensures sources { OnOk result (SourcesLine (λ small. IsHeadAt small head.entry)
            source.entry self.old self.new) }
        ensures entries { OnOk result (KeepsEntries self.old self.new) }
    {
        match head {
            Head::Frame(name) => self.begin_frame(name, source),
            Head::Rom(address) => self.begin_rom(address, source),
        }
    }

    // Begins a frame with `name`, if there is one, in the line `source`.
    fn begin_frame(&mut self, name: Option<&'a [u8]>, source: Source<'a>) -> Result<(), LineFault>
        ensures added { OnOk result (AddsLine (IsHeadLine (frame (name_of name.entry)))
            self.old self.new) }
        ensures fault { IfErr result (StopsLine (IsHeadLine (frame (name_of name.entry)))
            self.old) }
        ensures sources { OnOk result (SourcesLine (λ small. IsHeadAt small (Head.Frame name.entry))
            source.entry self.old self.new) }
        ensures entries { OnOk result (KeepsEntries self.old self.new) }
    {
        if let Err(fault) = self.frame_names.give(name) {
            return Err(fault);
        }
        self.open_part(Head::Frame(name), source)
    }

    // Begins a section of the ROM in the line `source`, at the word address `address`, or else at
    // the first free word.
    fn begin_rom(&mut self, address: Option<u16>, source: Source<'a>) -> Result<(), LineFault>
        ensures added { OnOk result (AddsLine (IsHeadLine (rom address)) self.old self.new) }
        ensures fault { IfErr result (StopsLine (IsHeadLine (rom address)) self.old) }
        ensures sources { OnOk result (SourcesLine (λ small. IsHeadAt small (Head.Rom address))
            source.entry self.old self.new) }
        ensures entries { OnOk result (KeepsEntries self.old self.new) }
    {
        let first = self.rom.first();
        if let Err(fault) = self.area.begin(first, address) {
            return Err(fault);
        }
        self.open_part(Head::Rom(address), source)
    }

    // Closes the last section, and opens another one with `head`, in the line `source`. Returns
    // `Memory` where an allocation fails.
    fn open_part(&mut self, head: Head<'a>, source: Source<'a>) -> Result<(), LineFault>
        ensures opened { OnOk result (Opens self.old (head_of head.entry) self.new) }
        ensures sources { OnOk result (SourcesLine (λ small. IsHeadAt small head.entry)
            source.entry self.old self.new) }
        ensures fault { IfErr result (λ fault. fault ≡ LineFault.Memory) }
        ensures entries { OnOk result (KeepsEntries self.old self.new) }
    {
        self.last.fit();
        let part = Part::new(self.alloc, Some(head), source);
        let closed = mem::replace(&mut self.last, part);
        if self.closed.push(closed).is_err() {
            return Err(LineFault::Memory);
        }
        self.names.clear();
        self.count = 0;
        Ok(())
    }

    // Adds `row`, which stands in the line `source`, to the last section.
    fn add_row(&mut self, row: &Row<'a>, source: Source<'a>) -> Result<(), LineFault>
        ensures added { OnOk result (AddsLine (IsRowLine (row_of row.now)) self.old self.new) }
        ensures fault { IfErr result (StopsLine (IsRowLine (row_of row.now)) self.old) }
        ensures sources { OnOk result (SourcesLine (λ small. IsRowAt small row.now)
            source.entry self.old self.new) }
        ensures entries { OnOk result (EntersRow (row_of row.now) source.entry.number
            self.old self.new) }
    {
        match self.last.head {
            Some(Head::Rom(_)) => self.add_rom_row(row, source),
            _ => self.add_frame_row(row, source),
        }
    }

    // Adds `row`, which stands in the line `source`, to the last section, which is a frame.
    fn add_frame_row(&mut self, row: &Row<'a>, source: Source<'a>) -> Result<(), LineFault>
        requires { IsFrameHead (head_in self.old.last.head) }
        ensures added { OnOk result (AddsLine (IsRowLine (row_of row.now)) self.old self.new) }
        ensures fault { IfErr result (StopsLine (IsRowLine (row_of row.now)) self.old) }
        ensures sources { OnOk result (SourcesLine (λ small. IsRowAt small row.now)
            source.entry self.old self.new) }
        ensures entries { OnOk result (EntersRow (row_of row.now) source.entry.number
            self.old self.new) }
    {
        if let Err(fault) = self.names.give(row.name) {
            return Err(fault);
        }
        let Some(count) = counted(self.count, row) else {
            return Err(LineFault::Full);
        };
        self.count = count;
        self.last.push(row, source)
    }

    // Adds `row`, which stands in the line `source`, to the last section, which is of the ROM.
    fn add_rom_row(&mut self, row: &Row<'a>, source: Source<'a>) -> Result<(), LineFault>
        requires { IsRomHead (head_in self.old.last.head) }
        ensures added { OnOk result (AddsLine (IsRowLine (row_of row.now)) self.old self.new) }
        ensures fault { IfErr result (StopsLine (IsRowLine (row_of row.now)) self.old) }
        ensures sources { OnOk result (SourcesLine (λ small. IsRowAt small row.now)
            source.entry self.old self.new) }
        ensures entries { OnOk result (EntersRow (row_of row.now) source.entry.number
            self.old self.new) }
    {
        if !may_stand_in_rom(row) {
            return Err(LineFault::Syntax);
        }
        if let Err(fault) = self.rom_names.give(row.name) {
            return Err(fault);
        }
        if let Err(fault) = self.area.take(words_of_row(row)) {
            return Err(fault);
        }
        self.last.push(row, source)
    }

    /// Returns the sections of the ROM as they are laid, after all lines of a text. Returns
    /// `OutOfMemory` where an allocation fails.
    pub fn lay(&self) -> Result<Vec<LaidRows<'_, 'a>, A>, OutOfMemory>
        requires { (small : List ℕ) × ReadsText small self.now }
        ensures { IfOk result (λ laid_rows. (stated : RomText) → Reads stated self.now
            → laid_sections laid_rows.items ≡ laid_of (spelled_in stated self.now)) }
    {
        let sections = rom_rows(self.alloc, self.closed.as_slice(), &self.last)?;
        lay(
            self.alloc,
            usize::from(self.rom.free()),
            sections.as_slice(),
        )
    }

    /// Returns the names that the sections of the ROM gave, in order.
    pub fn given_in_rom(&self) -> &GivenNames<'a, A>
        ensures { result.now ≡ self.now.rom_names }
    {
        &self.rom_names
    }

    /// Returns the bytes of the ROM, with the words of its sections as they are `laid`, after all
    /// lines of a text. Returns `None` where a row of the ROM needs a name that isn't given. No
    /// memory is taken.
    pub fn rom(&self, laid: &LaidNames<'_, '_, '_, A>) -> Option<ArrayVec<u8, LARGE_ROM_BYTES>>
        requires { IsLaidText self.now laid.now }
        ensures rom { IfSome result (λ bytes. (stated : RomText) → Reads stated self.now
            → laid_sections laid.now ≡ laid_of (spelled_in stated self.now)
            → GivesRom (spelled_in stated self.now) bytes.items) }
        ensures unknown { IfNone result
            (¬ All (WantsNone (laid_sections laid.now)) (sections_in self.now)) }
    {
        let mut bytes = self.rom.bytes();
        match put_sections(bytes.as_mut_slice(), laid) {
            Some(()) => Some(bytes),
            None => None,
        }
    }

    /// Returns the number of the first line that needs a name which isn't given, after all lines of
    /// a text, where `laid` has the names of the ROM. Returns `OutOfMemory` where an allocation
    /// fails. The time grows with the number of rows.
    pub fn first_unknown(
        &self,
        laid: &LaidNames<'_, '_, '_, A>,
    ) -> Result<Option<usize>, OutOfMemory>
        requires { IsLaidText self.now laid.now }
        ensures unknown { IfOk result (λ found. IfSome found (λ number. (small text : List ℕ)
            → (read : ReadsText small self.now)
            → laid_sections laid.now ≡ laid_of (spelled_in read.rom self.now)
            → map to_ascii_lowercase text ≡ small → HasSketchFault text (UnknownName number))) }
        ensures known { IfOk result (λ found. IfNone found
            (All (WantsNone (laid_sections laid.now)) (sections_in self.now))) }
    {
        first_unknown(
            self.alloc,
            self.closed.as_slice(),
            &self.last,
            laid,
            &self.names,
        )
    }

    /// Returns the frames, in order, after the lines that were read. Returns `OutOfMemory` where an
    /// allocation fails.
    pub fn frames(&self) -> Result<Vec<FrameRows<'_, 'a>, A>, OutOfMemory>
        ensures frames { IfOk result (λ found. (stated : RomText)
            → frames_of found.items ≡ frames (spelled_in stated self.now)) }
        ensures sources { IfOk result (λ found. (small : List ℕ) (next : ℕ)
            → AreSourced small next self.now
            → All (IsFrameAt small) found.items) }
        ensures begins { IfOk result (λ found. (stated : RomText) (small : List ℕ) (next : ℕ)
            → AreSourced small next self.now → head_at_top self.now ≡ None
            → All (IsBegunAt small (spelled_in stated self.now)) found.items) }
        ensures rise { IfOk result (λ found. (small : List ℕ) (next : ℕ)
            → AreSourced small next self.now → AllPairs BeginsFirst found.items) }
    {
        frame_rows(self.alloc, self.closed.as_slice(), &self.last)
    }

    /// Returns the drafts of the frames, in order, after all lines of a text. The names of the ROM
    /// are those of `laid`. Returns `UnknownName` where a frame needs a name that isn't given, and
    /// `Memory` where an allocation fails.
    pub fn drafts(&self, laid: &LaidNames<'_, '_, '_, A>) -> Result<JoinedFrames<'a, A>, DraftFault>
        requires text { IsLaidText self.now laid.now }
        ensures drafts { IfOk result (λ joined. (stated : RomText)
            → AllZip (IsFrameOf (laid_sections laid.now)) (frames (spelled_in stated self.now))
            (map (frame_at joined.ops.items) joined.spans.items)) }
        ensures lines { IfOk result (λ joined. (stated : RomText) (small : List ℕ)
            (next : ℕ) → AreSourced small next self.now
            → AllZip (StandsIn small) (frames (spelled_in stated self.now))
            (map (joined_at joined.ops.items joined.sources.items) joined.spans.items)) }
        ensures begins { IfOk result (λ joined. (stated : RomText) (small : List ℕ) (next : ℕ)
            → AreSourced small next self.now → head_at_top self.now ≡ None
            → All (λ span. BeginsFrame small (spelled_in stated self.now) (name_of span.name)
            span.begin) joined.spans.items) }
        ensures rise { IfOk result (λ joined. (small : List ℕ) (next : ℕ)
            → AreSourced small next self.now
            → AllPairs (λ span next. span.begin.number < next.begin.number) joined.spans.items) }
        ensures inside { IfOk result (λ joined.
            All (IsInside joined.ops.items joined.sources.items) joined.spans.items) }
        ensures fault { IfErr result (StopsDrafts (laid_sections laid.now) self.now) }
    {
        let Ok(found) = self.frames() else {
            return Err(DraftFault::Memory);
        };
        join_frames(self.alloc, found.as_slice(), laid, &self.names)
    }
}

// Returns how many operations a frame has that had `count` of them, with `row` added. Returns
// `None` where a draft can't hold that many.
fn counted(count: usize, row: &Row) -> Option<usize>
    ensures counted { IfSome result (IsCounted count (row_of row.now).doing) }
    ensures full { IfNone result (IsFull count (row_of row.now).doing) }
{
    if row.doing.is_none() {
        return Some(count);
    }
    if count >= MAX_OPS {
        return None;
    }
    Some(count + 1)
}

// Whether `row` may stand in the ROM: it neither calls nor jumps by the number of an operation.
fn may_stand_in_rom(row: &Row) -> bool
    ensures { IsTrue result ↔ MayStand (rom None) (row_of row.now) }
{
    match &row.doing {
        Some(doing) => may_be_encoded(doing),
        None => true,
    }
}

// Whether `doing`, what a row does, may be done in the ROM.
fn may_be_encoded(doing: &Doing) -> bool
    ensures { IsTrue result ↔ MayBeEncoded (doing_of doing.now) }
{
    match doing {
        Doing::Plainly(op) => is_without_number(op.kind()),
        Doing::Calls(_) | Doing::Jumps(_) | Doing::CallsRom(_) | Doing::JumpsRom(_) => true,
    }
}

// Whether an operation of this `kind` neither calls nor jumps by a number.
fn is_without_number(kind: OpKind) -> bool
    ensures { IsTrue result ↔ MayBeEncoded (plainly kind) }
{
    !matches!(kind, OpKind::Call(_) | OpKind::Jump(_))
}
