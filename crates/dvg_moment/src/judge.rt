//! A judge of logs, whoever made them: is each run consistent? It has a call for each kind of line.
//! Whoever has lines in another form chooses the call by one match: `take` here by event and entry,
//! dvg_logs by texts, in which a HALT has no word, and dvg_device by numbers. One type of line for
//! all three would be one match more for each.
ghost use Rattle.std.specs.Prelude.{◌≡◌, ◌≢◌, ◌<◌, ◌↔◌, ◌∷◌, [], List, ℕ, IsTrue, None};
ghost use Rattle.std.specs.Prelude.{Some, false, slice_index_or};
ghost use Rattle.dvg_driver.specs.declared.action.Action.TheVariants.{Idle, Wrote};
ghost use Rattle.dvg_gen.specs.declared.stroke.Stroke.{Stroke};
ghost use Rattle.dvg_log.specs.declared.entry.Entry.TheVariants.{Acted, Cleared, Done, Fetched};
ghost use Rattle.dvg_log.specs.declared.entry.Entry.TheVariants.{Low, Started};
ghost use Rattle.dvg_log.specs.declared.event.Event.TheVariants.{Fetch, ResetAll, ResetGen};
ghost use Rattle.dvg_log.specs.declared.event.Event.TheVariants.{Strobe, Tick};
ghost use Rattle.dvg_log.specs.Entries.{shown_of};
ghost use Rattle.dvg_log.specs.Events.{Happening, happening_of};
ghost use Rattle.dvg_log.specs.Legal.{IsLegal};
ghost use Rattle.dvg_log.specs.Log.{Log, ◌⟼◌, open_run};
ghost use Rattle.dvg_moment.specs.Judging.{IsTorn, StandsAfter, is_marked};
ghost use Rattle.dvg_moment.specs.declared.judge.Phase.TheVariants.{Closed, Torn};
ghost use Rattle.dvg_moment.specs.Moment.{Contradicts, IsOfOneMoment, WaitsAsAnother, told, waits};
ghost use Rattle.dvg_moment.specs.own.Steps.{after_change, after_end, after_event, after_read};
ghost use Rattle.dvg_moment.specs.own.Steps.{after_reset, after_word};
ghost use Rattle.dvg_moment.specs.own.Steps.{after_write, is_some_of, void};

use dvg_driver::Action;
use dvg_log::{Entry, Event, OwnEntry, OwnEvent};
use dvg_mem::MEMORY_BYTES;
use std::alloc::Allocator;

// The byte addresses of the words that have an address of 12 bits.
const TOLD_BYTES: usize = 0x2000;

// How the open run stands.
#[derive(Clone, Copy, Debug, PartialEq, Eq)]
enum Phase {
    // No run is open.
    Closed,
    // No byte changed since the run read it: the moment is now.
    Whole,
    // One did, and none of those that changed since was read: the moment was before that.
    Past,
    // There is no moment.
    Torn,
}

/// A judge of one log, whoever made it: of an emulator, of a core in a simulator, of a logic
/// analyser. It is told the log's lines in order, and whether a run is torn: whether there is no
/// moment of it at which all that it reads stands in memory, since of what it reads a byte changes
/// between any moment and its reading.
///
/// A byte changes where one is written that isn't what the log told of it last. So a byte that
/// comes back to what it was has changed twice. Of a byte that nothing was told of, each write is a
/// change: if just that was there already, a run may be called torn that is consistent.
///
/// It takes no memory, and counts nothing, so a log may be of any length. A call takes constant
/// time.
#[derive(Clone, Copy, Debug)]
pub struct MomentJudge {
    // What the log told of each byte that is at an address.
    told: [Option<u8>; TOLD_BYTES],
    // Which bytes of the RAM the newest run has read.
    read: [bool; MEMORY_BYTES],
    // Which of them changed since the moment, where that is past.
    changed: [bool; MEMORY_BYTES],
    // The low byte that waits for its high byte, after its word address.
    low: Option<(u16, u8)>,
    phase: Phase,
}

impl MomentJudge {
    /// Returns a judge that was told no line.
    pub fn new() -> MomentJudge
        ensures { StandsAfter result [] }
    {
        MomentJudge {
            told: [None; TOLD_BYTES],
            read: [false; MEMORY_BYTES],
            changed: [false; MEMORY_BYTES],
            low: None,
            phase: Phase::Closed,
        }
    }

    // Returns what was told of the byte at the byte address `at`. `None` from 2000 on, too.
    fn known(&self, at: usize) -> Option<u8>
        ensures { result ≡ slice_index_or self.now.told at None }
    {
        if at < TOLD_BYTES { self.told[at] } else { None }
    }

    // Returns whether the low byte of the word at `address` waits for its high byte.
    fn waits(&self, address: u16) -> bool
        ensures { result ≡ waits self.now.low address }
    {
        match self.low {
            Some(low) => low.0 == address,
            None => false,
        }
    }

    // Returns whether the low byte of the word at `address` waits, and isn't `byte`.
    fn waits_as_another(&self, address: u16, byte: u8) -> bool
        ensures { IsTrue result ↔ WaitsAsAnother self.now.low address byte }
    {
        match self.low {
            Some(low) => low.0 == address && low.1 != byte,
            None => false,
        }
    }

    // Keeps that `byte` stood at the byte address `at`, and marks it as read, if it is of the RAM.
    // From 2000 on nothing changes.
    fn read_byte(&mut self, at: usize, byte: u8)
        ensures { self.new ≡ after_read self.old at byte }
    {
        if at >= TOLD_BYTES {
            return;
        }
        self.told[at] = Some(byte);
        if at >= MEMORY_BYTES {
            return;
        }
        if self.phase == Phase::Past && self.changed[at] {
            self.phase = Phase::Torn;
        }
        self.read[at] = true;
    }

    // Reads the high byte of `word`, at the word address `address`, and the low one, if that
    // doesn't wait.
    fn read_word(&mut self, address: u16, word: u16)
        ensures { self.new ≡ after_word (waits self.old.low address) self.old address word }
    {
        let low = 2 * usize::from(address);
        if !self.waits(address) {
            self.read_byte(low, (word % 0x100) as u8);
        }
        self.read_byte(low + 1, (word / 0x100) as u8);
    }

    // Has the byte of the RAM at `at` change.
    fn change(&mut self, at: usize)
        requires { at < 0x800 }
        ensures { self.new
            ≡ after_change self.old.phase (is_marked self.old.read at) self.old at }
    {
        match self.phase {
            Phase::Whole if self.read[at] => {
                self.phase = Phase::Past;
                self.changed = [false; MEMORY_BYTES];
                self.changed[at] = true;
            }
            Phase::Past => self.changed[at] = true,
            _ => {}
        }
    }

    // Writes `byte` in the RAM at `at`: a change, unless just that was told of it.
    fn write_byte(&mut self, at: usize, byte: u8)
        requires { at < 0x800 }
        ensures { self.new ≡ after_write
            (is_some_of (slice_index_or self.old.told at None) byte) self.old at byte }
    {
        match self.known(at) {
            Some(known) if known == byte => {}
            _ => self.change(at),
        }
        self.told[at] = Some(byte);
    }

    // Ends the run.
    fn end(&mut self)
        ensures { self.new ≡ after_end self.old }
    {
        self.phase = Phase::Closed;
        self.low = None;
    }

    // Makes void what was told.
    fn forget(&mut self)
        ensures { self.new ≡ void self.old }
    {
        self.told = [None; TOLD_BYTES];
    }

    // Returns whether the run is known to be mixed.
    fn has_no_moment(&self) -> bool
        ensures { IsTrue result ↔ (self.now.phase ≡ Torn) }
    {
        self.phase == Phase::Torn
    }

    // Returns whether no run is open.
    fn has_no_run(&self) -> bool
        ensures { IsTrue result ↔ (self.now.phase ≡ Closed) }
    {
        self.phase == Phase::Closed
    }

    /// Returns whether a run is open.
    #[tactic(auto, using(crate::proofs::JudgeAfterLog::open_answer))]
    pub fn is_open(&self) -> bool
        ensures { (log : Log) → StandsAfter self.now log → IsTrue result ↔ (open_run log ≢ None) }
    {
        !self.has_no_run()
    }

    /// Returns whether a run is open that is mixed.
    #[tactic(auto, using(crate::proofs::JudgeAfterLog::torn_answer))]
    pub fn is_torn(&self) -> bool
        ensures { (log : Log) → StandsAfter self.now log → IsTrue result ↔ IsTorn log }
    {
        self.has_no_moment()
    }

    /// Takes a line that says that a strobe began a run.
    #[tactic(auto, using(crate::proofs::JudgeAfterLog::started_stands))]
    pub fn started(&mut self)
        ensures { (log : Log) → StandsAfter self.old log
            → StandsAfter self.new ((Strobe ⟼ Started) ∷ log) }
    {
        self.read = [false; MEMORY_BYTES];
        self.low = None;
        self.phase = Phase::Whole;
    }

    /// Takes a line that says that a fetch brought `byte`, the low byte of the word at the word
    /// address `address`.
    pub fn low(&mut self, address: u16, byte: u8)
        ensures { (log : Log) → StandsAfter self.old log
            → StandsAfter self.new ((Fetch ⟼ Low address byte) ∷ log) }
    {
        self.read_byte(2 * usize::from(address), byte);
        self.low = Some((address, byte));
    }

    /// Takes a line that says that a fetch completed `word`, at the word address `address`, and the
    /// run goes on. Its low byte was read by that fetch, too, unless it was told before.
    pub fn fetched(&mut self, address: u16, word: u16)
        ensures { (log : Log) → StandsAfter self.old log
            → StandsAfter self.new ((Fetch ⟼ Fetched address word) ∷ log) }
    {
        self.read_word(address, word);
        self.low = None;
    }

    /// Takes a line that says that a fetch completed `word`, at the word address `address`, a HALT
    /// that ended the run. Returns whether that run is mixed.
    pub fn done(&mut self, address: u16, word: u16) -> bool
        ensures stands { (strokes : List Stroke) (log : Log) → StandsAfter self.old log
            → StandsAfter self.new ((Fetch ⟼ Done address word strokes) ∷ log) }
        ensures torn { (strokes : List Stroke) (log : Log) → StandsAfter self.old log
            → IsTrue result ↔ ¬ IsOfOneMoment told log Fetch (Done address word strokes) }

        // No run of a legal log is torn.
        ensures legal { (R image : List ℕ) (strokes : List Stroke) (log : Log)
            → StandsAfter self.old log
            → IsLegal R image ((Fetch ⟼ Done address word strokes) ∷ log) → result ≡ false }
    {
        self.read_word(address, word);
        let torn = self.has_no_moment();
        self.end();
        torn
    }

    /// Takes a line that says no more than that the run ended: by a HALT whose word isn't told, by
    /// a fault, or by a reset of the generator. Ask `is_torn` before.
    pub fn ended(&mut self)
        ensures { (log : Log) → StandsAfter self.old log
            → StandsAfter self.new ((ResetGen ⟼ Cleared) ∷ log) }
    {
        self.end();
    }

    /// Takes a line that says that `byte` was written at the byte address `address`. Outside the
    /// RAM, from 800 on, it changes nothing.
    pub fn wrote(&mut self, address: u16, byte: u8)
        ensures { (log : Log) → StandsAfter self.old log
            → StandsAfter self.new ((Tick ⟼ Acted (Wrote address byte)) ∷ log) }
    {
        let at = usize::from(address);
        if at < MEMORY_BYTES {
            self.write_byte(at, byte);
        }
    }

    /// Takes a line that says that the whole system was reset. What was told of memory is void.
    pub fn reset(&mut self)
        ensures { (bytes : List ℕ) (log : Log) → StandsAfter self.old log
            → StandsAfter self.new ((ResetAll bytes ⟼ Cleared) ∷ log) }
    {
        self.forget();
        self.end();
    }

    /// Takes a line that says nothing of memory or of a run.
    #[tactic(auto, using(crate::proofs::JudgeAfterLog::passed_stands))]
    pub fn passed(&self)
        ensures { (log : Log) → StandsAfter self.now log
            → StandsAfter self.now ((Tick ⟼ Acted Idle) ∷ log) }
    {}

    /// Returns whether the log told of the byte at the byte address `address`. `false` outside the
    /// RAM. Where it didn't, a write is a change, whatever stood there.
    pub fn is_told(&self, address: u16) -> bool
        ensures { (log : Log) → StandsAfter self.now log
            → IsTrue result ↔ ((address < 0x800) × (told log address ≢ None)) }
    {
        let at = usize::from(address);
        if at >= MEMORY_BYTES {
            return false;
        }
        match self.known(at) {
            Some(_) => true,
            None => false,
        }
    }

    // Ends the run, unless `starts`: then a new one began.
    fn reset_run(&mut self, starts: bool)
        ensures { self.new ≡ after_reset starts self.old }
    {
        if !starts {
            self.end();
        }
    }

    // Takes the event of a line whose entry was taken as that of a tick. `starts` is whether the
    // entry is that of a run's beginning.
    fn take_event<A: Allocator>(&mut self, event: &OwnEvent<A>, starts: bool)
        ensures { self.new ≡ after_event (happening_of event.now) starts self.old }
    {
        match event {
            Event::ResetGen => self.reset_run(starts),
            Event::ResetAll(_) => {
                self.forget();
                self.reset_run(starts);
            }
            _ => {}
        }
    }

    // Takes what the driver did.
    #[tactic(auto, using(crate::proofs::LinesByEntry::action_stands))]
    fn take_action(&mut self, action: Action)
        ensures { (log : Log) → StandsAfter self.old log
            → StandsAfter self.new ((Tick ⟼ Acted action) ∷ log) }
    {
        if let Action::Wrote(address, byte) = action {
            self.wrote(address, byte);
        }
    }

    // Takes `entry` as that of a tick. Returns whether it ends a run that is mixed.
    fn take_entry<A: Allocator>(&mut self, entry: &OwnEntry<A>) -> bool
        ensures stands { (log : Log) → StandsAfter self.old log
            → StandsAfter self.new ((Tick ⟼ shown_of entry.now) ∷ log) }
        ensures torn { (event : Happening) (log : Log) → StandsAfter self.old log
            → IsTrue result ↔ ¬ IsOfOneMoment told log event (shown_of entry.now) }
    {
        match entry {
            Entry::Started => {
                self.started();
                false
            }
            Entry::Low(address, byte) => {
                self.low(*address, *byte);
                false
            }
            Entry::Fetched(address, word) => {
                self.fetched(*address, *word);
                false
            }
            Entry::Done(address, word, _) => self.done(*address, *word),
            Entry::Broke(..) => {
                self.end();
                false
            }
            Entry::Acted(action) => {
                self.take_action(*action);
                false
            }
            _ => false,
        }
    }

    /// Takes one more line, by its `event` and its `entry`. Returns whether it is the HALT of a run
    /// that is mixed.
    pub fn take<A: Allocator>(&mut self, event: &OwnEvent<A>, entry: &OwnEntry<A>) -> bool
        ensures stands { (log : Log) → StandsAfter self.old log
            → StandsAfter self.new ((happening_of event.now ⟼ shown_of entry.now) ∷ log) }
        ensures torn { (log : Log) → StandsAfter self.old log → IsTrue result
            ↔ ¬ IsOfOneMoment told log (happening_of event.now) (shown_of entry.now) }
    {
        let torn = self.take_entry(entry);
        self.take_event(event, matches!(entry, Entry::Started));
        torn
    }

    // Returns whether another byte than `byte` was told at the byte address `at`.
    fn is_told_as_another(&self, at: usize, byte: u8) -> bool
        ensures { IsTrue result
            ↔ ((other : ℕ) × (slice_index_or self.now.told at None ≡ Some other) × (byte ≢ other)) }
    {
        match self.known(at) {
            Some(other) => other != byte,
            None => false,
        }
    }

    /// Returns whether a fetch that brings `byte`, the low byte of the word at the word address
    /// `address`, contradicts what was told of that byte last, be it of the RAM or of the ROM: then
    /// something unlogged wrote that byte, or the log is wrong. `false` from the word address 1000
    /// on, which no word has.
    pub fn contradicts_low(&self, address: u16, byte: u8) -> bool
        ensures { (log : Log) → StandsAfter self.now log
            → IsTrue result ↔ Contradicts log (Low address byte) }
    {
        self.is_told_as_another(2 * usize::from(address), byte)
    }

    /// Like `contradicts_low`, for a fetch that completes `word`, at the word address `address`,
    /// whether or not it ends the run. If the low byte was told before, by `low`, it is that one
    /// which the word has to have, also where another was written since: a generator keeps what it
    /// fetched.
    pub fn contradicts_word(&self, address: u16, word: u16) -> bool
        ensures fetched { (log : Log) → StandsAfter self.now log
            → IsTrue result ↔ Contradicts log (Fetched address word) }
        ensures done { (strokes : List Stroke) (log : Log) → StandsAfter self.now log
            → IsTrue result ↔ Contradicts log (Done address word strokes) }
    {
        let low = (word % 0x100) as u8;
        if self.waits_as_another(address, low) {
            return true;
        }
        let at = 2 * usize::from(address);
        if !self.waits(address) && self.is_told_as_another(at, low) {
            return true;
        }
        self.is_told_as_another(at + 1, (word / 0x100) as u8)
    }
}
