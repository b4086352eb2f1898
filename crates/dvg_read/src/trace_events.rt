//! Events at the head of a trace's text, of which many lines are taken at once.
ghost use Rattle.std.specs.Prelude.{◌+◌, ◌<◌, ◌≤◌, length, IfOk, OnErr, OnOk};
ghost use Rattle.dvg_log.specs.Events.{spelled_as};
ghost use Rattle.dvg_read.specs.TextLines.{lines_left};
ghost use Rattle.dvg_read.specs.TraceEvents.{AddsEvents, BeginsWithEvent, IsNameLine, name_bytes};
ghost use Rattle.dvg_log.specs.declared.trace.TheConstants.{MOST_EVENTS};

use crate::event_head::{FETCH, Name, REDRAW, RESETALL, RESETCPU, RESETGEN, STROBE, TICK};
use crate::text_lines::TextLines;
use dvg_code::OutOfMemory;
use dvg_log::{Event, MOST_EVENTS, SpelledEvent, Trace};
use std::alloc::Allocator;

/// Takes the next of `lines` as long as each is the name of an event or a reset of the whole
/// system, and adds their events to `events`. Returns how many lines it took: at most 65,535, and
/// as many as there is room for. The only error is a failed allocation.
#[inline(always)]
pub(crate) fn take_events<A: Allocator + Copy>(
    lines: &mut TextLines,
    events: &mut Trace<A>,
) -> Result<u16, OutOfMemory>
    requires { length events.old ≤ MOST_EVENTS }
    ensures taken { IfOk result (λ count. AddsEvents (lines_left lines.old) events.old count
        (lines_left lines.new) events.new) }
    ensures room { OnOk result (length events.new ≤ MOST_EVENTS) }
    ensures fault { OnErr result (BeginsWithEvent (lines_left lines.old)) }
    ensures wanted { OnErr result (length events.old < MOST_EVENTS) }
{
    let most = u16::try_from(MOST_EVENTS - events.len()).unwrap_or(u16::MAX);
    let mut room = most;
    while room > 0 {
        let count = take_run(room, lines, events)?;
        if count == 0 {
            break;
        }
        room -= count;
    }
    Ok(most - room)
}

// Takes the next of `lines` as long as they are the name of one event, at most `most`, or else one
// reset of the whole system, and adds their events to `events`. Returns how many lines it took.
#[inline(always)]
fn take_run<A: Allocator + Copy>(
    most: u16,
    lines: &mut TextLines,
    events: &mut Trace<A>,
) -> Result<u16, OutOfMemory>
    requires some { 1 ≤ most }
    requires room { length events.old + most ≤ MOST_EVENTS }
    ensures taken { IfOk result (λ count. AddsEvents (lines_left lines.old) events.old count
        (lines_left lines.new) events.new) }
    ensures most { IfOk result (λ count. count ≤ most) }
    ensures fault { OnErr result (BeginsWithEvent (lines_left lines.old)) }
{
    let Some(letters) = lines.letters() else {
        return Ok(0);
    };
    if letters == TICK.letters {
        take_names(Event::Tick, TICK, most, lines, events)
    } else if letters == FETCH.letters {
        take_names(Event::Fetch, FETCH, most, lines, events)
    } else if letters == STROBE.letters {
        take_names(Event::Strobe, STROBE, most, lines, events)
    } else if letters == REDRAW.letters {
        take_names(Event::Redraw, REDRAW, most, lines, events)
    } else if letters == RESETALL.letters {
        take_resets(most, lines, events)
    } else {
        Ok(0)
    }
}

// Like `take_run`, where the next of `lines` begins with `rese`.
#[inline(always)]
fn take_resets<A: Allocator + Copy>(
    most: u16,
    lines: &mut TextLines,
    events: &mut Trace<A>,
) -> Result<u16, OutOfMemory>
    requires some { 1 ≤ most }
    requires room { length events.old + most ≤ MOST_EVENTS }
    ensures taken { IfOk result (λ count. AddsEvents (lines_left lines.old) events.old count
        (lines_left lines.new) events.new) }
    ensures most { IfOk result (λ count. count ≤ most) }
    ensures fault { OnErr result (BeginsWithEvent (lines_left lines.old)) }
{
    if let Some(event) = lines.take_reset() {
        events.push_times(event, 1)?;
        return Ok(1);
    }
    let count = take_names(Event::ResetGen, RESETGEN, most, lines, events)?;
    if count > 0 {
        return Ok(count);
    }
    take_names(Event::ResetCpu, RESETCPU, most, lines, events)
}

// Like `take_run`, for lines that are `name`, the name of `event`.
#[inline(always)]
fn take_names<A: Allocator + Copy>(
    event: SpelledEvent,
    name: Name,
    most: u16,
    lines: &mut TextLines,
    events: &mut Trace<A>,
) -> Result<u16, OutOfMemory>
    requires named { IsNameLine (spelled_as event) (name_bytes name) }
    requires room { length events.old + most ≤ MOST_EVENTS }
    ensures taken { IfOk result (λ count. AddsEvents (lines_left lines.old) events.old count
        (lines_left lines.new) events.new) }
    ensures most { IfOk result (λ count. count ≤ most) }
    ensures fault { OnErr result (BeginsWithEvent (lines_left lines.old)) }
{
    let count = lines.take_names(name, most);
    if count > 0 {
        events.push_times(event, count)?;
    }
    Ok(count)
}
