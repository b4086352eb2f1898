//! Texts of traces.
ghost use Rattle.std.specs.Prelude.{◌≡◌, ◌↔◌, ◌+◌, ◌^◌, ◌<◌, ◌≤◌, ◌∷◌, [], ◌++◌, ℕ, List, codes};
ghost use Rattle.std.specs.Prelude.{length, IfErr, IfNone, IfOk, IfSome, IsFalse, IsTrue};
ghost use Rattle.std.specs.Prelude.{OnErr, OnOk};
ghost use Rattle.dvg_frame.specs.declared.op.OpKind.{OpKind};
ghost use Rattle.dvg_read.specs.EventLines.{happenings};
ghost use Rattle.dvg_read.specs.FirstFaults.{IsShort};
ghost use Rattle.dvg_read.specs.OpLines.{IsOpLine};
ghost use Rattle.dvg_read.specs.TextLines.{lines_left};
ghost use Rattle.dvg_read.specs.TraceGives.{GivesTrace, IsHeld, ReadsAhead, ReadsLine, ReadsText};
ghost use Rattle.dvg_read.specs.TraceGives.{StopsEvents, WantsMemory};
ghost use Rattle.dvg_read.specs.TraceGives.{StopsLine, StopsOperation, StopsReading, events_read};
ghost use Rattle.dvg_read.specs.TraceGives.{opened_of};
ghost use Rattle.dvg_log.specs.declared.trace.TheConstants.{MOST_EVENTS};
ghost use Rattle.dvg_frame.specs.declared.draft.TheConstants.{MAX_OPS};

use crate::draft_text::MOST_TEXT_BYTES;
use crate::event_line::{EventLine, read_event_line};
use crate::fault::{LineFault, TextFault, Unread};
use crate::op_line::read_op;
use crate::rom_text::RomReading;
use crate::text_lines::{TextLines, is_passed};
use crate::trace_events::take_events;
use arrayvec::ArrayVec;
use dvg_code::OutOfMemory;
use dvg_frame::{Draft, Op};
use dvg_log::{MOST_EVENTS, Trace};
use dvg_mem::LARGE_ROM_BYTES;
use std::alloc::{Allocator, Global};

/// What the text of a trace denotes.
#[derive(Drop)]
pub struct TraceText<A: Allocator = Global> {
    /// Its events, in order.
    pub events: Trace<A>,
    /// The bytes of the ROM, 2,048 or 4,096: the words that its ROM lines give, and D000, an RTSL,
    /// for each other.
    pub rom: ArrayVec<u8, LARGE_ROM_BYTES>,
}

/// Reads `text`, the text of a trace, in one pass over its lines. The events are kept in memory
/// from `alloc` (the format is this project's own choice).
///
/// - `TooLong`: `text` has more than `MOST_TEXT_BYTES`. This is decided before all others.
/// - `Syntax`: this line is the first that spells nothing that may stand at its place.
/// - `Full`: this line spells operation number 511 of its offer, and the lines before it are
///   without fault.
/// - `Many`: this line brings the number of events above `MOST_EVENTS`, and the lines before it are
///   without fault. An offer is an event with its `end`.
/// - `Unended`: no line is at fault, and the text ends inside an offer.
/// - `Memory`: an allocation failed, at a line that brings events or ends an offer.
pub fn read_trace<A: Allocator + Copy>(alloc: A, text: &[u8]) -> Result<TraceText<A>, Unread>
    ensures gives { IfOk result (λ trace. GivesTrace text.now trace.events trace.rom.items) }
    ensures fault { IfErr result (λ fault. StopsReading fault text.now) }
{
    if text.len() > MOST_TEXT_BYTES {
        return Err(Unread::Text(TextFault::TooLong));
    }
    let reading = read_lines(alloc, text)?;
    if reading.is_open {
        return Err(Unread::Text(TextFault::Unended));
    }
    Ok(TraceText {
        events: reading.events,
        rom: reading.rom.into_bytes(),
    })
}

// Reads all lines of `text`. The last of them may leave an offer open.
#[inline(always)]
fn read_lines<A: Allocator + Copy>(alloc: A, text: &[u8]) -> Result<TraceReading<A>, Unread>
    requires { IsShort text.now }
    ensures read { IfOk result (λ reading. ReadsText text.now reading) }
    ensures fault { IfErr result (λ fault. StopsReading fault text.now) }
{
    let mut reading = TraceReading {
        rom: RomReading::new(),
        events: Trace::new(alloc),
        draft: Draft::new(),
        is_open: false,
    };
    let mut lines = TextLines::new(text);
    let mut number = 0;
    loop {
        let Ok(count) = reading.take_ahead(&mut lines) else {
            return Err(Unread::Memory);
        };
        number += usize::from(count) + 1;
        let Some(line) = lines.next() else {
            return Ok(reading);
        };
        if is_passed(line) {
            continue;
        }
        match reading.take(line) {
            Ok(()) => {}
            Err(fault) => return Err(fault.at_line(number)),
        }
    }
}

// What was read of a trace's text. After a fault it is read no further.
#[derive(Drop)]
struct TraceReading<A: Allocator> {
    rom: RomReading,
    events: Trace<A>,
    // The draft of the newest offer.
    draft: Draft,
    // Whether that offer isn't ended.
    is_open: bool,
}

impl<A: Allocator + Copy> TraceReading<A> {
    // Reads the next of `lines`: lines of operations where an offer is open, else lines that spell
    // an event each. Returns how many it read, or `OutOfMemory` where an allocation fails.
    #[inline(always)]
    fn take_ahead(&mut self, lines: &mut TextLines) -> Result<u16, OutOfMemory>
        requires held { IsHeld self.old }
        ensures taken { IfOk result (λ count. ReadsAhead self.old (lines_left lines.old) count
            self.new (lines_left lines.new)) }
        ensures held { OnOk result (IsHeld self.new) }
        ensures fault { OnErr result (WantsMemory self.old (lines_left lines.old)) }
    {
        if self.is_open {
            return Ok(lines.take_ops(&mut self.draft));
        }
        take_events(lines, &mut self.events)
    }

    // Reads one more line, `line`, which isn't passed over.
    fn take(&mut self, line: &[u8]) -> Result<(), LineFault>
        requires held { IsHeld self.old }
        ensures taken { OnOk result (ReadsLine self.old line.now self.new) }
        ensures held { OnOk result (IsHeld self.new) }
        ensures fault { IfErr result (λ fault. StopsLine fault (events_read self.old)
            (opened_of self.old) self.old.rom line.now) }
    {
        if !self.is_open {
            return self.take_outside(line);
        }
        if line == b"end".as_slice() {
            return self.end_offer();
        }
        add_op(&mut self.draft, line)
    }

    // Reads one more line, `line`, where no offer is open.
    fn take_outside(&mut self, line: &[u8]) -> Result<(), LineFault>
        requires outside { IsFalse self.old.is_open }
        requires held { IsHeld self.old }
        ensures taken { OnOk result (ReadsLine self.old line.now self.new) }
        ensures held { OnOk result (IsHeld self.new) }
        ensures fault { IfErr result (λ fault. StopsLine fault (events_read self.old)
            (opened_of self.old) self.old.rom line.now) }
    {
        if is_offer(line) {
            self.draft.clear();
            self.is_open = true;
            return Ok(());
        }
        if let Some(repeated) = read_event_line(line) {
            return add_events(repeated, &mut self.events);
        }
        if self.events.is_empty() && self.rom.take(line) {
            return Ok(());
        }
        Err(LineFault::Syntax)
    }

    // Ends the offer that is open.
    fn end_offer(&mut self) -> Result<(), LineFault>
        requires inside { IsTrue self.old.is_open }
        requires held { IsHeld self.old }
        ensures taken { OnOk result (ReadsLine self.old (codes "end") self.new) }
        ensures held { OnOk result (IsHeld self.new) }
        ensures fault { IfErr result (λ fault. StopsLine fault (events_read self.old)
            (opened_of self.old) self.old.rom (codes "end")) }
    {
        if self.events.len() == MOST_EVENTS {
            return Err(LineFault::Many);
        }
        if self.events.push_offer(&self.draft).is_err() {
            return Err(LineFault::Memory);
        }
        self.is_open = false;
        Ok(())
    }
}

// Whether an offer begins with `line`. Each line outside of offers is asked, so its bytes are
// matched one by one: a comparison of slices is a call.
#[inline(always)]
fn is_offer(line: &[u8]) -> bool
    ensures { IsTrue result ↔ (line.now ≡ codes "offer") }
{
    matches!(line, b"offer")
}

// Adds the operation that `line` spells to `draft`. Returns `Syntax` where it spells none, and
// `Full` where `draft` has 511 already.
fn add_op(draft: &mut Draft, line: &[u8]) -> Result<(), LineFault>
    ensures added { OnOk result ((op : OpKind) × IsOpLine op line.now
        × (draft.new ≡ draft.old ++ op ∷ [])) }
    ensures room { OnOk result (length draft.old < MAX_OPS) }
    ensures fault { IfErr result (λ fault. StopsOperation fault draft.old line.now) }
{
    let Some(op) = read_op(line) else {
        return Err(LineFault::Syntax);
    };
    push_op(draft, op)
}

// Adds `op` to `draft`. Returns `Full` where that has 511 operations already.
#[inline(always)]
fn push_op(draft: &mut Draft, op: Op) -> Result<(), LineFault>
    ensures added { OnOk result (draft.new ≡ draft.old ++ op ∷ []) }
    ensures room { OnOk result (length draft.old < MAX_OPS) }
    ensures fault { (line : List ℕ) → IsOpLine op line
        → IfErr result (λ fault. StopsOperation fault draft.old line) }
{
    match draft.push(op) {
        Ok(_) => Ok(()),
        Err(_) => Err(LineFault::Full),
    }
}

// Adds the events of a line, `repeated`, to `events`. Returns `Many` where there would be more than
// 65,536, and `Memory` where an allocation fails.
#[inline(always)]
fn add_events<A: Allocator + Copy>(
    repeated: EventLine,
    events: &mut Trace<A>,
) -> Result<(), LineFault>
    requires { 1 ≤ length (happenings repeated) }
    ensures added { OnOk result (events.new ≡ events.old ++ happenings repeated) }
    ensures room { OnOk result (length events.new ≤ MOST_EVENTS) }
    ensures fault { IfErr result (λ fault. StopsEvents fault events.old (happenings repeated)) }
{
    if events.len() + count(&repeated) > MOST_EVENTS {
        return Err(LineFault::Many);
    }
    if events.push_times(repeated.event, repeated.count).is_err() {
        return Err(LineFault::Memory);
    }
    Ok(())
}

// Returns how many events a line has, which `repeated` holds.
fn count(repeated: &EventLine) -> usize
    ensures value { result ≡ length (happenings repeated.now) }
    ensures bound { result < 2 ^ 16 }
{
    usize::from(repeated.count)
}
