//! A judge of logs, whoever made them.
ghost use Rattle.std.specs.Prelude.{◌≡◌, ◌↔◌, ◌∷◌, [], List, ℕ, map, IfSome, IsNone, IsTrue, None};
ghost use Rattle.std.specs.Prelude.{Option, Some};
ghost use Rattle.dvg_driver.specs.declared.action.Action.TheVariants.{Wrote};
ghost use Rattle.dvg_gen.specs.declared.stroke.Stroke.{Stroke};
ghost use Rattle.dvg_log.specs.Entries.{shown_of};
ghost use Rattle.dvg_log.specs.declared.entry.Entry.TheVariants.{Acted, Cleared, Done, Fetched};
ghost use Rattle.dvg_log.specs.declared.entry.Entry.TheVariants.{Started};
ghost use Rattle.dvg_log.specs.Events.{Happening, happening_of};
ghost use Rattle.dvg_log.specs.declared.event.Event.TheVariants.{Fetch, ResetGen, Strobe, Tick};
ghost use Rattle.dvg_log.specs.Legal.{IsLegal};
ghost use Rattle.dvg_log.specs.Log.{IsBeingDrawn, Log, Throughout, open_run, ◌⟼◌};
ghost use Rattle.dvg_world.specs.Runs.{log_of};
ghost use Rattle.dvg_log.specs.Torn.{IsFirstTorn, IsTorn, IsUntorn};
ghost use Rattle.dvg_mem.specs.declared.half.Half.{Half};
ghost use Rattle.dvg_world.specs.Judging.{FitsRun, StandsAfter, draws_half};
ghost use Rattle.dvg_world.specs.own.Leaving.{run_after, left_by};

use dvg_driver::Action;
use dvg_log::{Entry, Event, OwnEntry, OwnEvent};
use dvg_mem::Half;
use std::alloc::Allocator;

// What the open run of a log draws.
#[derive(Clone, Copy, Debug, PartialEq, Eq)]
enum Drawing {
    // No half: there is no open run, or it began with no jump to one.
    Nothing,
    // Nothing yet: the run is about to fetch word zero.
    Begun,
    // This half.
    Within(Half),
}

impl Drawing {
    // Returns what a run draws whose first word is `word`, at `address`.
    #[tactic(auto, using(crate::proofs::Judging::first_within))]
    fn from_first(address: u16, word: u16) -> Drawing
        ensures { FitsRun result (Some ((address, word) ∷ [])) }
    {
        if address != 0 || word / 0x1000 != 0xE {
            return Drawing::Nothing;
        }
        let Some(half) = Half::of_word(word % 0x1000) else {
            return Drawing::Nothing;
        };
        Drawing::Within(half)
    }

    // Returns what is drawn once `event` has happened, before its entry counts.
    fn after_event<A: Allocator>(self, event: &OwnEvent<A>) -> Drawing
        ensures { (run : Option (List (ℕ × ℕ))) → FitsRun self run
            → FitsRun result (left_by (happening_of event.now) run) }
    {
        match event {
            Event::ResetGen | Event::ResetAll(_) => Drawing::Nothing,
            _ => self,
        }
    }

    // Returns what is drawn after the fetch of `word` at `address`.
    fn after_fetch(self, address: u16, word: u16) -> Drawing
        ensures { (run : Option (List (ℕ × ℕ))) → FitsRun self run
            → FitsRun result (run_after (Fetched address word) run) }
    {
        match self {
            Drawing::Begun => Drawing::from_first(address, word),
            _ => self,
        }
    }

    // Returns what is drawn after `entry`.
    fn after_entry<A: Allocator>(self, entry: &OwnEntry<A>) -> Drawing
        ensures { (run : Option (List (ℕ × ℕ))) → FitsRun self run
            → FitsRun result (run_after (shown_of entry.now) run) }
    {
        match entry {
            Entry::Started => Drawing::Begun,
            Entry::Fetched(address, word) => self.after_fetch(*address, *word),
            Entry::Done(..) | Entry::Broke(..) => Drawing::Nothing,
            _ => self,
        }
    }

    // Returns whether the byte at `address` of the RAM lies in the half that is drawn, so that
    // writing it tears the picture.
    fn is_torn_at(self, address: u16) -> bool
        ensures { (log : Log) (event : Happening) (byte : ℕ)
            → FitsRun self (open_run ((event ⟼ Acted (Wrote address byte)) ∷ log))
            → IsTrue result ↔ IsTorn log event (Acted (Wrote address byte)) }
    {
        let Drawing::Within(half) = self else {
            return false;
        };
        Half::of_word(address / 2) == Some(half)
    }

    // Returns whether `entry`, after which this is drawn, tears the picture.
    fn is_torn_by<A: Allocator>(self, entry: &OwnEntry<A>) -> bool
        ensures { (log : Log) (event : Happening)
            → FitsRun self (open_run ((event ⟼ shown_of entry.now) ∷ log))
            → IsTrue result ↔ IsTorn log event (shown_of entry.now) }
    {
        match entry {
            Entry::Acted(Action::Wrote(address, _)) => self.is_torn_at(*address),
            _ => false,
        }
    }
}

/// A judge of one log, whoever made it. It is handed the log's lines in order: each by its event
/// and its entry, or by what it shows. It keeps no more than which half the open run draws, and
/// takes no memory.
#[derive(Clone, Copy, Debug, PartialEq, Eq)]
pub struct Judge {
    drawing: Drawing,
}

impl Judge {
    /// Returns a judge that stands before the first line.
    pub fn new() -> Judge
        ensures { StandsAfter result [] }
    {
        Judge {
            drawing: Drawing::Nothing,
        }
    }

    /// Takes one more line, of `event` and `entry`. Returns whether that line tears a picture.
    pub fn take<A: Allocator>(&mut self, event: &OwnEvent<A>, entry: &OwnEntry<A>) -> bool
        ensures stands { (log : Log) → StandsAfter self.old log
            → StandsAfter self.new ((happening_of event.now ⟼ shown_of entry.now) ∷ log) }
        ensures torn { (log : Log) → StandsAfter self.old log
            → IsTrue result ↔ IsTorn log (happening_of event.now) (shown_of entry.now) }
    {
        self.drawing = self.drawing.after_event(event).after_entry(entry);
        self.drawing.is_torn_by(entry)
    }

    /// Notes that a strobe began a run.
    pub fn started(&mut self)
        ensures { (log : Log) → StandsAfter self.old log
            → StandsAfter self.new ((Strobe ⟼ Started) ∷ log) }
    {
        self.drawing = Drawing::Begun;
    }

    /// Notes that a fetch completed the word `word` at the word address `address`, and the run goes
    /// on.
    #[inline(always)]
    pub fn fetched(&mut self, address: u16, word: u16)
        ensures { (log : Log) → StandsAfter self.old log
            → StandsAfter self.new ((Fetch ⟼ Fetched address word) ∷ log) }
    {
        self.drawing = self.drawing.after_fetch(address, word);
    }

    /// Notes that a fetch ended the run by a HALT, whatever its word address, its word and what it
    /// drew. The caller notes a run that broke in the same way.
    pub fn halted(&mut self)
        ensures { (address word : ℕ) (strokes : List Stroke) (log : Log) → StandsAfter self.old log
            → StandsAfter self.new ((Fetch ⟼ Done address word strokes) ∷ log) }
    {
        self.drawing = Drawing::Nothing;
    }

    /// Notes a reset of the generator.
    pub fn reset(&mut self)
        ensures { (log : Log) → StandsAfter self.old log
            → StandsAfter self.new ((ResetGen ⟼ Cleared) ∷ log) }
    {
        self.drawing = Drawing::Nothing;
    }

    /// Returns whether the open run draws a half: its first word was that at 000, a jump to one.
    #[inline(always)]
    pub fn is_drawing(&self) -> bool
        ensures drawn { (log : Log) → StandsAfter self.now log
            → IsTrue result ↔ ((half : Half) × IsBeingDrawn log half) }
        ensures counted { (log : Log) → StandsAfter self.now log
            → result ≡ draws_half (open_run log) }
    {
        matches!(self.drawing, Drawing::Within(_))
    }

    /// Returns whether a byte that the driver wrote at the byte address `address` of the RAM tears
    /// a picture.
    pub fn wrote(&self, address: u16) -> bool
        ensures stands { (byte : ℕ) (log : Log) → StandsAfter self.now log
            → StandsAfter self.now ((Tick ⟼ Acted (Wrote address byte)) ∷ log) }
        ensures torn { (byte : ℕ) (log : Log) → StandsAfter self.now log
            → IsTrue result ↔ IsTorn log Tick (Acted (Wrote address byte)) }
    {
        self.drawing.is_torn_at(address)
    }
}

/// Returns the number of the first of `entries` that tears a picture: a byte written in the half
/// that the open run draws. Returns `None` exactly where there is none. `events` has the event of
/// each entry. The log may be any one, legal or not, such as that of another driver or of a test
/// program. Where one list is longer than the other, the rest of it is passed over.
///
/// A strobe that began a run opens it, and a HALT, a fault, and a reset of the generator or of the
/// whole system end it; such a reset ends it before its own entry counts. It draws a half where the
/// first word that it fetched is the one at 000, a jump to a word of that half: from that entry on.
/// No memory is taken, and each entry is looked at once.
pub fn first_torn<A: Allocator>(events: &[OwnEvent<A>], entries: &[OwnEntry<A>]) -> Option<usize>
    ensures torn { IfSome result (IsFirstTorn (log_of (map happening_of events.now) entries.now)) }
    ensures untorn { IsNone result
        → Throughout IsUntorn (log_of (map happening_of events.now) entries.now) }

    // No legal log is torn.
    ensures legal { (R image : List ℕ)
        → IsLegal R image (log_of (map happening_of events.now) entries.now) → result ≡ None }
{
    let mut judge = Judge::new();
    for number in 0..events.len().min(entries.len()) {
        if judge.take(&events[number], &entries[number]) {
            return Some(number);
        }
    }
    None
}
