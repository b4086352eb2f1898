//! Whole runs.
ghost use Rattle.std.specs.Prelude.{◌≡◌, [], length, map, IfErr, IfOk};
ghost use Rattle.dvg_log.specs.Events.{happening_of};
ghost use Rattle.dvg_log.specs.Headline.{KeepsHeadline};
ghost use Rattle.dvg_log.specs.Legal.{IsLegal};
ghost use Rattle.dvg_log.specs.Log.{Throughout};
ghost use Rattle.dvg_world.specs.Runs.{IsStop, log_by};

use crate::keeping::{Keeper, happen_all};
use crate::stopped::Stopped;
use crate::world::World;
use dvg_log::{Entry, OwnEntry, OwnEvent, Trace, TraceEvent};
use dvg_mem::{Image, Rom, Store};
use std::alloc::Allocator;

/// Lets `events` happen to a new world of `rom` and `image`, one after the other, and returns the
/// entry of each, in their order. Memory is taken from `alloc`.
///
/// For every ROM, first image of the RAM and list of events, whatever they are, each line of the
/// log keeps the headline (`KeepsHeadline`, of which each part has a name): no byte is written in
/// the half being drawn, the generator never faults, and every run that reaches HALT drew exactly
/// the picture of the frame newest published when it fetched word zero, so no picture is older than
/// the one before. What a run shows has a picture: the run is finished at the picture's last fetch,
/// and fetches at most two bytes for each word of the frame's bound. A run that has fetched word
/// zero is drawing a half, and the half holds the frame that the run shows. The log has one entry
/// for each event, and each entry is the one that its event gets over the log before it: the log is
/// legal, so driver and generator really act.
///
/// This rests on three premises. The log ends early only where an allocation fails: before the
/// first event, or at a fetch that completes a vector with an intensity of at least 1. `Stopped`
/// then has the entries of the events before, and all this holds of their log. A strobe arrives
/// only after the driver sent one since the last reset of the whole system, or the beginning; it
/// may arrive never, once or often. One access of memory is whole: one byte written, or one byte
/// fetched.
///
/// That an allocation really failed, and that a failure at such a fetch keeps what came before, is
/// tested: by its contract alone this might always stop at once, with nothing kept.
///
/// It isn't said that a strobe, a tick or a fetch ever comes, that a picture is ever drawn, or that
/// a frame that was accepted is: a later one may replace it. Nothing is said of real hardware.
///
/// The log is grown once, for all events, before the first happens.
pub fn run<S: Store>(
    alloc: S::Alloc,
    rom: Rom<S::Alloc>,
    image: &Image<S::Alloc>,
    events: &[OwnEvent<S::Alloc>],
) -> Result<Vec<OwnEntry<S::Alloc>, S::Alloc>, Stopped<S::Alloc>>
    // The log is legal: each entry is the one that its event gets over the log before it.
    ensures legal { IsLegal rom image.now (log_by (map happening_of events.now) result) }

    // Each line keeps the headline: never torn, never faulting, the published picture, no older
    // one, in time, within the bound, undisturbed, and drawing a half that holds what is shown.
    ensures headline { Throughout (KeepsHeadline rom image.now)
        (log_by (map happening_of events.now) result) }

    // Every event has an entry, or else those before the one at which the run stopped because an
    // allocation failed.
    ensures whole { IfOk result (λ entries. length entries.items ≡ length events.now) }
    ensures stopped { IfErr result (λ stopped. length stopped.entries.items ≡ stopped.event) }
    ensures early { IfErr result (IsStop rom image.now (map happening_of events.now)) }
{
    let Ok(mut world) = World::<S>::new(alloc, rom, image) else {
        return Err(unstarted(alloc));
    };
    let Ok(mut entries) = Vec::with_capacity(alloc, events.len()) else {
        return Err(unstarted(alloc));
    };
    for number in 0..events.len() {
        match world.apply(&events[number]) {
            Ok(entry) => entries.push_reserved(entry),
            Err(_) => {
                return Err(Stopped {
                    entries,
                    event: number,
                });
            }
        }
    }
    Ok(entries)
}

/// Lets the events of `trace` happen to a new world of `rom` and `image`, as `run` does with a list
/// of them: each line of the log keeps the headline, and the log is the one legal log of these
/// events. Memory is taken from `alloc`. The clauses are those of `run`.
pub fn run_trace<S: Store>(
    alloc: S::Alloc,
    rom: Rom<S::Alloc>,
    image: &Image<S::Alloc>,
    trace: &Trace<S::Alloc>,
) -> Result<Vec<OwnEntry<S::Alloc>, S::Alloc>, Stopped<S::Alloc>>
    ensures legal { IsLegal rom image.now (log_by trace.now result) }
    ensures headline { Throughout (KeepsHeadline rom image.now) (log_by trace.now result) }

    ensures whole { IfOk result (λ entries. length entries.items ≡ length trace.now) }
    ensures stopped { IfErr result (λ stopped. length stopped.entries.items ≡ stopped.event) }
    ensures early { IfErr result (IsStop rom image.now trace.now) }
{
    let Ok(mut world) = World::<S>::new(alloc, rom, image) else {
        return Err(unstarted(alloc));
    };
    let Ok(entries) = Vec::with_capacity(alloc, trace.len()) else {
        return Err(unstarted(alloc));
    };
    let mut kept = OwnEntries { alloc, entries };
    if happen_all(trace, &mut kept, &mut world) {
        return Ok(kept.entries);
    }
    let event = kept.entries.len();
    Err(Stopped {
        entries: kept.entries,
        event,
    })
}

// The entries of a log, each of which owns its strokes.
#[derive(Drop)]
struct OwnEntries<A: Allocator> {
    alloc: A,
    entries: Vec<OwnEntry<A>, A>,
}

impl<S: Store> Keeper<S> for OwnEntries<S::Alloc> {
    ghost use Rattle.std.specs.Prelude.{◌-◌, vec_capacity, vec_len};
    ghost use Rattle.dvg_world.specs.own.Running.{AreOwned};

    ghost IsKept = { λ kept log. AreOwned kept.entries.items log };

    ghost room = { λ kept. vec_capacity kept.entries - vec_len kept.entries };

    fn passes_over(&self, _event: TraceEvent<'_, S::Alloc>) -> bool {
        false
    }

    fn keep(&mut self, _number: usize, entry: Entry<()>, world: &mut World<S>) {
        self.entries.push_reserved(world.own(entry));
    }

    fn keep_alike(&mut self, entry: Entry<()>, times: usize) {
        for _again in 0..times {
            self.entries.push_reserved(entry.with(Vec::new(self.alloc)));
        }
    }
}

// Returns a run that stopped before its first event. Its list is empty, with the allocator `alloc`.
fn unstarted<A: Allocator + Copy>(alloc: A) -> Stopped<A>
    ensures entries { result.entries.items ≡ [] }
    ensures event { result.event ≡ 0 }
{
    Stopped {
        entries: Vec::new(alloc),
        event: 0,
    }
}
