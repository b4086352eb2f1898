//! What follows from the contracts of worlds, traces and whole runs.
ghost use Rattle.std.specs.Prelude.{◌≡◌, ◌∷◌, [], IfSome, map, true};
ghost use Rattle.test_facts.specs.Facts.{first_picture, first_picture_events, two_ticks};
ghost use Rattle.test_facts.specs.Facts.{two_ticks_shown, vector_strokes};
ghost use Rattle.dvg_world.specs.Kept.{picture_seen};
ghost use Rattle.dvg_tool.specs.Plays.{zeros};
ghost use Rattle.dvg_log.specs.Entries.{shown_of};
ghost use Rattle.dvg_log.specs.declared.entry.Entry.TheVariants.{Acted};
ghost use Rattle.dvg_log.specs.declared.event.Event.TheVariants.{Strobe, Tick};
ghost use Rattle.dvg_log.specs.Events.{happening_of};

use dvg_driver::Action;
use dvg_mem::{Flat, Image, Rom};
use dvg_world::{
    Entries, Event, OwnEntry, OwnEvent, Picture, Trace, TraceEvent, World, draw_trace, log_trace,
    run, run_trace,
};
use std::alloc::Global;

/// The first tick of a new world is the driver's peek, over each `rom` and `image`. Returns `None`
/// where there is no memory for a world.
pub fn first_tick(
    alloc: Global,
    rom: Rom<Global>,
    image: &Image<Global>,
) -> Option<OwnEntry<Global>>
    ensures { IfSome result (λ entry. shown_of entry ≡ Acted Action.Peek) }
{
    let Ok(mut world) = World::<Flat<Global>>::new(alloc, rom, image) else {
        return None;
    };
    match world.apply(&Event::Tick) {
        Ok(entry) => Some(entry),
        Err(_) => None,
    }
}

/// No allocation fails at a tick, over each `rom` and `image`.
pub fn tick_takes_no_memory(alloc: Global, rom: Rom<Global>, image: &Image<Global>) -> bool
    ensures { result ≡ true }
{
    let Ok(mut world) = World::<Flat<Global>>::new(alloc, rom, image) else {
        return true;
    };
    match world.apply(&Event::Tick) {
        Ok(_) => true,
        Err(_) => false,
    }
}

/// Two ticks have these two entries, over each `rom` and `image`. Returns `None` where an
/// allocation fails.
pub fn runs_two_ticks(
    alloc: Global,
    rom: Rom<Global>,
    image: &Image<Global>,
) -> Option<Vec<OwnEntry<Global>, Global>>
    ensures { IfSome result (λ entries. map shown_of entries.items ≡ two_ticks_shown) }
{
    match run::<Flat<Global>>(alloc, rom, image, &[Event::Tick, Event::Tick]) {
        Ok(entries) => Some(entries),
        Err(_) => None,
    }
}

/// The same holds of a `trace` of two ticks.
pub fn runs_a_trace_of_two_ticks(
    alloc: Global,
    rom: Rom<Global>,
    image: &Image<Global>,
    trace: &Trace<Global>,
) -> Option<Vec<OwnEntry<Global>, Global>>
    requires { trace.now ≡ two_ticks }
    ensures { IfSome result (λ entries. map shown_of entries.items ≡ two_ticks_shown) }
{
    match run_trace::<Flat<Global>>(alloc, rom, image, trace) {
        Ok(entries) => Some(entries),
        Err(_) => None,
    }
}

/// A trace keeps its events in order. Returns `None` where an allocation fails.
pub fn trace_keeps_its_events(alloc: Global) -> Option<Trace<Global>>
    ensures { IfSome result (λ trace. trace ≡ Tick ∷ Strobe ∷ Strobe ∷ []) }
{
    let mut trace = Trace::new(alloc);
    trace.push(Event::Tick).ok()?;
    trace.push_times(Event::Strobe, 2).ok()?;
    Some(trace)
}

/// The first run of a trace is of its first event. Returns `None` where an allocation fails.
pub fn trace_begins_with_its_first_event(alloc: Global) -> Option<bool>
    ensures { IfSome result (λ is_strobe. is_strobe ≡ true) }
{
    let mut trace = Trace::new(alloc);
    trace.push(Event::Strobe).ok()?;
    trace.push(Event::Tick).ok()?;
    let run = trace.runs().next()?;
    Some(matches!(run.0, TraceEvent::Strobe))
}

/// The first picture: over a `rom` and an `image` of zeros a frame of one vector is offered,
/// written, published and drawn, and each of the `events` has exactly this entry. Returns `None`
/// where an allocation fails.
pub fn runs_the_first_picture(
    alloc: Global,
    rom: Rom<Global>,
    image: &Image<Global>,
    events: &[OwnEvent<Global>],
) -> Option<Vec<OwnEntry<Global>, Global>>
    requires rom { rom ≡ zeros }
    requires image { image.now ≡ zeros }
    requires events { map happening_of events.now ≡ first_picture_events }
    ensures { IfSome result (λ entries. map shown_of entries.items ≡ first_picture) }
{
    match run::<Flat<Global>>(alloc, rom, image, events) {
        Ok(entries) => Some(entries),
        Err(_) => None,
    }
}

/// The same events as a `trace`, of which the pictures alone are kept: there is one picture, which
/// event 29 finished. Returns `None` where an allocation fails.
pub fn draws_the_first_picture(
    alloc: Global,
    rom: Rom<Global>,
    image: &Image<Global>,
    trace: &Trace<Global>,
) -> Option<Vec<Picture<Global>, Global>>
    requires rom { rom ≡ zeros }
    requires image { image.now ≡ zeros }
    requires events { trace.now ≡ first_picture_events }
    ensures { IfSome result (λ pictures.
        map picture_seen pictures.items ≡ (29, vector_strokes) ∷ []) }
{
    let drawn = draw_trace::<Flat<Global>>(alloc, rom, image, trace);
    if drawn.is_whole {
        Some(drawn.pictures)
    } else {
        None
    }
}

/// The same `trace`, of which all entries are kept in little room. Returns `None` where an
/// allocation fails.
pub fn logs_the_first_picture(
    alloc: Global,
    rom: Rom<Global>,
    image: &Image<Global>,
    trace: &Trace<Global>,
) -> Option<Entries<Global>>
    requires rom { rom ≡ zeros }
    requires image { image.now ≡ zeros }
    requires events { trace.now ≡ first_picture_events }
    ensures { IfSome result (λ entries. entries ≡ first_picture) }
{
    let logged = log_trace::<Flat<Global>>(alloc, rom, image, trace);
    if logged.is_whole {
        Some(logged.entries)
    } else {
        None
    }
}
