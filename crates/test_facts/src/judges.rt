//! What follows from the contracts of `first_torn` and of a judge that is given a log line by line.
ghost use Rattle.std.specs.Prelude.{◌≡◌, IsTrue, Some, true};

use dvg_driver::Action;
use dvg_mem::{Image, Rom, Store};
use dvg_world::{Entry, Event, Judge, OwnEntry, OwnEvent, first_torn, run};
use std::alloc::Global;

/// The judge finds nothing in the log of any run of `events`, over each `rom` and `image` and
/// whichever store.
pub fn finds_nothing_in_a_run<S: Store>(
    alloc: S::Alloc,
    rom: Rom<S::Alloc>,
    image: &Image<S::Alloc>,
    events: &[OwnEvent<S::Alloc>],
) -> bool
    ensures { IsTrue result }
{
    match run::<S>(alloc, rom, image, events) {
        Ok(entries) => first_torn(events, entries.as_slice()).is_none(),
        Err(stopped) => first_torn(events, stopped.entries.as_slice()).is_none(),
    }
}

/// A run that begins with a jump to half 1 is torn by a write of byte 402: by entry 2 of these
/// three.
pub fn finds_a_torn_write() -> Option<usize>
    ensures { result ≡ Some 2 }
{
    let events: [OwnEvent<Global>; 3] = [Event::Strobe, Event::Fetch, Event::Tick];
    let entries: [OwnEntry<Global>; 3] = [
        Entry::Started,
        Entry::Fetched(0x000, 0xE201),
        Entry::Acted(Action::Wrote(0x402, 0x00)),
    ];
    first_torn(&events, &entries)
}

/// A judge that is given the same, line by line, says at once that the write tears.
pub fn tells_a_torn_write() -> bool
    ensures { IsTrue result }
{
    let mut judge = Judge::new();
    judge.started();
    judge.fetched(0x000, 0xE201);
    judge.wrote(0x402)
}
