//! Traces that happen to a world, and what is kept of them. One loop lets a trace happen, and a
//! `Keeper` has what is kept of it. It is lent the world, as a contract can't speak of what was
//! moved into a method of a trait.
ghost use Rattle.std.specs.Prelude.{◌≡◌, ◌+◌, ◌^◌, ◌<◌, ◌≤◌, ◌∷◌, ◌++◌, [], List, ℕ, length};
ghost use Rattle.std.specs.Prelude.{IsTrue, None, OnErr, OnOk, replicate};
ghost use Rattle.dvg_gen.specs.declared.stroke.Stroke.{Stroke};
ghost use Rattle.dvg_log.specs.Entries.{drew_in, map_entry};
ghost use Rattle.dvg_log.specs.Events.{Happening};
ghost use Rattle.dvg_log.specs.Log.{Log, ◌⟼◌};
ghost use Rattle.dvg_log.specs.declared.trace.TheConstants.{MOST_EVENTS};
ghost use Rattle.dvg_log.specs.Traces.{BringsDraft, seen_as};
ghost use Rattle.dvg_world.specs.Keeping.{Happened};
ghost use Rattle.dvg_world.specs.Standing.{ChangesNothing, KeepsLogs, WorldAfter, shown_in};
ghost use Rattle.dvg_world.specs.own.Running.{IsPassedOver, KeepsRun, StopsKeeping};

use crate::world::World;
use dvg_code::OutOfMemory;
use dvg_driver::Action;
use dvg_log::{Entry, Trace, TraceEvent};
use dvg_mem::Store;

// What is kept of the lines of a log, in their order.
pub(crate) trait Keeper<S: Store> {
    // This is kept of a log.
    ghost IsKept: { Self → Log → Type 0 };

    // For how many lines more there is room.
    ghost room: { Self → ℕ };

    // Returns whether `event` may be passed over where the driver isn't idle: it is an offer, and
    // the keeper keeps nothing of one that isn't taken.
    fn passes_over(&self, event: TraceEvent<'_, S::Alloc>) -> bool
        ensures { IsTrue result → IsPassedOver (IsKept self.now) (seen_as event.entry) };

    // Records line `number` of the log: `entry`, which `world` just returned. The picture may be
    // taken out. There must be room.
    fn keep(&mut self, number: usize, entry: Entry<()>, world: &mut World<S>)
        requires { 1 ≤ room self.old }
        ensures kept { (event : Happening) (log : Log) → IsKept self.old log → length log ≡ number
            → IsKept self.new ((event ⟼ shown_in world.old entry) ∷ log) }
        ensures left { room self.old ≤ room self.new + 1 }
        ensures stands { KeepsLogs world.old world.new };

    // Keeps the next `times` lines, which are all of `entry`, where no run is finished. There must
    // be room.
    fn keep_alike(&mut self, entry: Entry<()>, times: usize)
        requires undrawn { drew_in entry ≡ None }
        requires some { 1 ≤ times }
        requires room { times ≤ room self.old }
        ensures kept { (picture : List Stroke) (event : Happening) (log : Log) → IsKept self.old log
            → IsKept self.new
            (replicate times (event ⟼ map_entry (λ _. picture) entry) ++ log) }
        ensures left { room self.old ≤ room self.new + times };
}

// Returns whether `entry` is one that changes nothing, so that the same event has it again.
#[inline(always)]
fn changes_nothing(entry: Entry<()>) -> bool
    ensures { IsTrue result → ChangesNothing entry }
{
    matches!(
        entry,
        Entry::Still
            | Entry::Acted(Action::Idle)
            | Entry::Refused(_)
            | Entry::Busy
            | Entry::NothingPublished
            | Entry::NoStrobe
    )
}

// Lets `event` happen to `world` `times` times, the first time as event number `number`, and has
// `keeper` keep the lines. The rest is kept at once after an entry that changes nothing, and passed
// over where the keeper says so.
#[inline(always)]
fn happen_times<S: Store, K: Keeper<S>>(
    event: TraceEvent<'_, S::Alloc>,
    number: usize,
    times: usize,
    keeper: &mut K,
    world: &mut World<S>,
) -> Result<(), OutOfMemory>
    requires brings { BringsDraft event }
    requires numbers { number + times < 2 ^ 64 }
    requires room { times ≤ K.room keeper.old }
    ensures kept { OnOk result (KeepsRun world.old (K.IsKept keeper.old) number
        (seen_as event.entry) times world.new (K.IsKept keeper.new)) }
    ensures stops { OnErr result (StopsKeeping world.old (K.IsKept keeper.old) number
        (seen_as event.entry) times world.new (K.IsKept keeper.new)) }
    ensures left { K.room keeper.old ≤ K.room keeper.new + times }
{
    if keeper.passes_over(event) && !world.is_idle() {
        return Ok(());
    }
    for done in 0..times {
        match world.happen(event) {
            Ok(entry) => {
                if changes_nothing(entry) {
                    keeper.keep_alike(entry, times - done);
                    return Ok(());
                }
                keeper.keep(number + done, entry, world);
            }
            Err(refused) => return Err(refused),
        }
    }
    Ok(())
}

// Does what `happen_times` does. Ticks and fetches come most often: by this they have a loop of
// their own.
#[inline(always)]
fn happen_run<'a, S: Store, K: Keeper<S>>(
    event: TraceEvent<'a, S::Alloc>,
    number: usize,
    times: usize,
    keeper: &mut K,
    world: &mut World<S>,
) -> Result<(), OutOfMemory>
    requires brings { BringsDraft event }
    requires numbers { number + times < 2 ^ 64 }
    requires room { times ≤ K.room keeper.old }
    ensures kept { OnOk result (KeepsRun world.old (K.IsKept keeper.old) number
        (seen_as event.entry) times world.new (K.IsKept keeper.new)) }
    ensures stops { OnErr result (StopsKeeping world.old (K.IsKept keeper.old) number
        (seen_as event.entry) times world.new (K.IsKept keeper.new)) }
    ensures left { K.room keeper.old ≤ K.room keeper.new + times }
{
    let tick: TraceEvent<'a, S::Alloc> = TraceEvent::Tick;
    let fetch: TraceEvent<'a, S::Alloc> = TraceEvent::Fetch;
    match event {
        TraceEvent::Tick => happen_times(tick, number, times, keeper, world),
        TraceEvent::Fetch => happen_times(fetch, number, times, keeper, world),
        _ => happen_times(event, number, times, keeper, world),
    }
}

// Lets the events of `trace` happen to `world`, and has `keeper` keep the lines, for which there
// must be room. Returns whether all happened: it stops where an allocation fails.
pub(crate) fn happen_all<S: Store, K: Keeper<S>>(
    trace: &Trace<S::Alloc>,
    keeper: &mut K,
    world: &mut World<S>,
) -> bool
    requires most { length trace.now ≤ MOST_EVENTS }
    requires room { length trace.now ≤ K.room keeper.old }
    ensures { (R image : List ℕ) → WorldAfter R image [] world.old → K.IsKept keeper.old []
        → Happened R image trace.now result (K.IsKept keeper.new) }
{
    let mut number = 0;
    for run in trace.runs() {
        let times = run.1;
        match happen_run(run.0, number, times, keeper, world) {
            Ok(()) => number += times,
            Err(_) => return false,
        }
    }
    true
}
