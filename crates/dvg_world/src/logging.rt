//! The entries of a trace.
ghost use Rattle.std.specs.Prelude.{◌≡◌, ◌+◌, ◌≤◌, List, [], false, length, map};
ghost use Rattle.dvg_gen.specs.declared.stroke.Stroke.{Stroke};
ghost use Rattle.dvg_log.specs.Entries.{map_entry};
ghost use Rattle.dvg_world.specs.Keeping.{all_entries};
ghost use Rattle.dvg_world.specs.Kept.{Logs};
ghost use Rattle.dvg_world.specs.own.Entries.{AreEntries};
ghost use Rattle.dvg_world.specs.own.Logging.{KeepsAlike, room_left};
ghost use Rattle.dvg_world.specs.own.Stepping.{IsDrawnBy};

use crate::entries::{Alike, Entries};
use crate::keeping::{Keeper, happen_all};
use crate::world::World;
use dvg_gen::Stroke;
use dvg_log::{Entry, Trace, TraceEvent};
use dvg_mem::{Image, Rom, Store};
use std::alloc::{Allocator, Global};

/// The entries of the events that happened.
#[derive(Drop)]
pub struct Logged<A: Allocator = Global> {
    /// The entries, in the order of their events.
    pub entries: Entries<A>,
    /// Whether all events happened. Where not, an allocation failed (which is tested).
    pub is_whole: bool,
}

impl<A: Allocator + Copy> Logged<A> {
    /// Returns what is kept of a run that stopped before its first event: empty lists, with the
    /// allocator `alloc`.
    pub fn unstarted(alloc: A) -> Logged<A>
        ensures entries { result.entries ≡ [] }
        ensures whole { result.is_whole ≡ false }
    {
        Logged {
            entries: Entries {
                kept: Vec::new(alloc),
                drawn: Vec::new(alloc),
            },
            is_whole: false,
        }
    }
}

// What is kept where all entries are.
#[derive(Drop)]
struct EntriesKept<A: Allocator> {
    kept: Vec<Alike, A>,
    drawn: Vec<Vec<Stroke, A>, A>,
}

impl<A: Allocator> EntriesKept<A> {
    // Keeps `entry`, `times` times in a row. `drew` has the strokes, if its run finished.
    #[inline(always)]
    fn add(&mut self, entry: Entry<()>, drew: Option<Vec<Stroke, A>>, times: usize)
        requires some { 1 ≤ times }
        requires room { times ≤ room_left self.old }
        ensures kept { (picture : List Stroke)
            → IsDrawnBy (map_entry (λ _. picture) entry) drew
            → KeepsAlike self.old (map_entry (λ _. picture) entry) times self.new }
        ensures left { room_left self.old ≤ room_left self.new + times }
    {
        if let Some(strokes) = drew {
            self.drawn.push_reserved(strokes);
        }
        let again = (times - 1) as u16;
        self.kept.push_reserved(Alike { entry, again });
    }

    // Returns what is kept. `is_whole` says whether all events happened.
    fn logged(self, is_whole: bool) -> Logged<A>
        requires { AreEntries self.kept.items (length self.drawn.items) }
        ensures entries { result.entries ≡ all_entries
            (map (λ strokes. strokes.items) self.drawn.items) self.kept.items }
        ensures whole { result.is_whole ≡ is_whole }
    {
        Logged {
            entries: Entries {
                kept: self.kept,
                drawn: self.drawn,
            },
            is_whole,
        }
    }
}

impl<S: Store> Keeper<S> for EntriesKept<S::Alloc> {
    ghost use Rattle.dvg_world.specs.own.Logging.{AreKept, room_left};

    ghost IsKept = { AreKept };

    ghost room = { room_left };

    #[inline(always)]
    fn passes_over(&self, _event: TraceEvent<'_, S::Alloc>) -> bool {
        false
    }

    #[inline(always)]
    fn keep(&mut self, _number: usize, entry: Entry<()>, world: &mut World<S>) {
        self.add(entry, world.take_drawn(entry), 1);
    }

    #[inline(always)]
    fn keep_alike(&mut self, entry: Entry<()>, times: usize) {
        self.add(entry, None, times);
    }
}

/// Lets the events of `trace` happen to a new world of `rom` and `image`, as `run_trace` does.
/// Keeps their entries in little room, in memory of `alloc`: those of the one legal log of these
/// events, of which each line keeps the headline.
///
/// It stops where an allocation fails, as `run_trace` does: before the first event, or at a fetch
/// that completes a vector with an intensity of at least 1. The entries are then those of the
/// events before. That an allocation really failed, and that a failure at such a fetch keeps what
/// came before, is tested: by its contract alone this might always stop at once, with nothing kept.
///
/// The lists are grown once, for as many as there are events, before the first happens.
pub fn log_trace<S: Store>(
    alloc: S::Alloc,
    rom: Rom<S::Alloc>,
    image: &Image<S::Alloc>,
    trace: &Trace<S::Alloc>,
) -> Logged<S::Alloc>
    ensures { Logs rom image.now trace.now result }
{
    let Ok(mut world) = World::<S>::new(alloc, rom, image) else {
        return Logged::unstarted(alloc);
    };
    let Ok(kept) = Vec::with_capacity(alloc, trace.len()) else {
        return Logged::unstarted(alloc);
    };
    let Ok(drawn) = Vec::with_capacity(alloc, trace.len()) else {
        return Logged::unstarted(alloc);
    };
    let mut entries = EntriesKept { kept, drawn };
    let is_whole = happen_all(trace, &mut entries, &mut world);
    entries.logged(is_whole)
}
