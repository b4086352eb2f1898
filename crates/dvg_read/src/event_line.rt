//! Lines that spell events by themselves.
ghost use Rattle.std.specs.Prelude.{◌≡◌, ◌↔◌, ℕ, ◌≤◌, List, [], ◌∷◌, decimal, length, IfSome};
ghost use Rattle.std.specs.Prelude.{IsSomeAnd, IsTrue, Some};
ghost use Rattle.dvg_log.specs.Events.{Happening, spelled_as};
ghost use Rattle.dvg_read.specs.Texts.{IsHex, parts};
ghost use Rattle.dvg_read.specs.EventLines.{TakesCount, IsNamed, happenings};
ghost use Rattle.dvg_read.specs.TraceTexts.{EventParts};

use crate::number::{hex, natural};
use dvg_log::{Event, SpelledEvent};
use memchr::memchr;

/// The most events of one line.
const MAX_TIMES: u16 = 9999;

/// The events of a line: `event`, `count` times in a row.
#[derive(Clone, Copy)]
pub struct EventLine {
    pub(crate) event: SpelledEvent,
    pub(crate) count: u16,
}

/// Returns the events that `line` spells by itself, or `None` exactly where it spells none.
#[inline(always)]
pub fn read_event_line(line: &[u8]) -> Option<EventLine>
    ensures found { IfSome result (λ repeated. EventParts (happenings repeated) (parts line.now)) }
    ensures only { (events : List Happening) → EventParts events (parts line.now)
        → IsSomeAnd result (λ repeated. happenings repeated ≡ events) }
{
    if let Some(event) = event_named(line) {
        return Some(EventLine { event, count: 1 });
    }
    let space = memchr(b' ', line)?;
    with_operand(&line[..space], &line[space + 1..])
}

// Returns the events of the event's `name` with `operand` after it.
fn with_operand(name: &[u8], operand: &[u8]) -> Option<EventLine>
    ensures found { IfSome result (λ repeated. EventParts (happenings repeated)
        (name.now ∷ operand.now ∷ [])) }
    ensures only { (events : List Happening) → EventParts events (name.now ∷ operand.now ∷ [])
        → IsSomeAnd result (λ repeated. happenings repeated ≡ events) }
{
    if name == b"resetall".as_slice() {
        return Some(EventLine {
            event: Event::ResetAll(byte(operand)?),
            count: 1,
        });
    }
    let event = event_named(name)?;
    if !is_counted(&event) {
        return None;
    }
    Some(EventLine {
        event,
        count: times(operand)?,
    })
}

// Returns the event that `name` alone spells.
#[inline(always)]
fn event_named(name: &[u8]) -> Option<SpelledEvent>
    ensures found { IfSome result (λ event. IsNamed (spelled_as event) name.now) }
    ensures only { (event : Happening) → IsNamed event name.now
        → IsSomeAnd result (λ found. spelled_as found ≡ event) }
{
    match name {
        b"tick" => Some(Event::Tick),
        b"fetch" => Some(Event::Fetch),
        b"strobe" => Some(Event::Strobe),
        b"redraw" => Some(Event::Redraw),
        b"resetgen" => Some(Event::ResetGen),
        b"resetcpu" => Some(Event::ResetCpu),
        _ => None,
    }
}

// Whether a count may follow the name of `event`.
fn is_counted(event: &SpelledEvent) -> bool
    ensures { IsTrue result ↔ TakesCount (spelled_as event.now) }
{
    matches!(event, Event::Tick | Event::Strobe | Event::Fetch)
}

// Returns the number that `count` spells, 1 to 9,999.
fn times(count: &[u8]) -> Option<u16>
    ensures found { IfSome result (λ n. count.now ≡ decimal n) }
    ensures least { IfSome result (λ n. 1 ≤ n) }
    ensures most { IfSome result (λ n. n ≤ 9999) }
    ensures only { (n : ℕ) → 1 ≤ n → n ≤ 9999 → count.now ≡ decimal n → result ≡ Some n }
{
    let count = natural(count)?;
    if count == 0 || count > MAX_TIMES {
        return None;
    }
    Some(count)
}

// Returns the byte that two hexadecimal `digits` spell.
fn byte(digits: &[u8]) -> Option<u8>
    ensures found { IfSome result (λ n. IsHex 2 n digits.now) }
    ensures only { (n : ℕ) → IsHex 2 n digits.now → result ≡ Some n }
{
    u8::try_from(hex(digits, 2)?).ok()
}
