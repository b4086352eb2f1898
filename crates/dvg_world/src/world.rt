//! The world: both ends of the vector RAM, one event at a time. It keeps the picture, and its
//! entries have none: so memory is used again. Who needs the strokes takes them out, as `apply`
//! does.
ghost use Rattle.std.specs.Prelude.{◌≡◌, ◌≢◌, ◌↔◌, ◌<◌, ℕ, List, [], length, IfErr, IfOk};
ghost use Rattle.std.specs.Prelude.{IsErrOf, IsOk, IsSome, IsTrue, None, OnErr, OnOk, slice_index};
ghost use Rattle.dvg_mem.specs.Memory.{IsImage};
ghost use Rattle.dvg_mem.specs.declared.TheConstants.{LARGE_ROM_BYTES, MEMORY_BYTES};
ghost use Rattle.dvg_gen.specs.Machine.{HasTaken};
ghost use Rattle.dvg_driver.specs.Saved.{IsState as IsDriverState, driving_in};
ghost use Rattle.dvg_driver.specs.Script.{IsWhole};
ghost use Rattle.dvg_driver.specs.Stands.{IsInRam};
ghost use Rattle.dvg_frame.specs.Ops.{IsDraft};
ghost use Rattle.dvg_log.specs.Entries.{drew_in, shown_of};
ghost use Rattle.dvg_log.specs.Events.{happening_of};
ghost use Rattle.dvg_log.specs.declared.event.Event.TheVariants.{Offer, Redraw, Tick, Strobe};
ghost use Rattle.dvg_log.specs.declared.event.Event.TheVariants.{Fetch, ResetGen, ResetCpu};
ghost use Rattle.dvg_log.specs.declared.event.Event.TheVariants.{ResetAll};
ghost use Rattle.dvg_log.specs.declared.entry.Entry.TheVariants.{Acted, Cleared};
ghost use Rattle.dvg_log.specs.Legal.{IsLegal};
ghost use Rattle.dvg_log.specs.Log.{Log};
ghost use Rattle.dvg_log.specs.Traces.{BringsDraft, seen_as};
ghost use Rattle.dvg_world.specs.Desks.{OfLives};
ghost use Rattle.dvg_world.specs.Saved.{GoesOnAs, IsState, IsUnfit, world_in};
ghost use Rattle.dvg_world.specs.Standing.{AddsLine, ChangesNothing, DrawsNow};
ghost use Rattle.dvg_world.specs.Standing.{KeepsHeadlineAfter, KeepsLogs, OfBeam, OfHistory, OfRam};
ghost use Rattle.dvg_world.specs.Standing.{WorldAfter, picture_left, shown_in};
ghost use Rattle.dvg_world.specs.own.Stepping.{IsDrawnBy, WantsMemory, ram_by, sent_by};
ghost use Rattle.dvg_world.specs.Wanting.{TakesMemory};

use crate::desk::Desk;
use crate::state::{WorldRefused, WorldState, WorldStateFault};
use dvg_code::OutOfMemory;
use dvg_driver::{Action, DriverState};
use dvg_frame::{Draft, Op};
use dvg_gen::{Beam, Generator, Stroke};
use dvg_log::{Entry, Event, OwnEntry, OwnEvent, TraceEvent};
use dvg_mem::{Image, MEMORY_BYTES, MemFault, Rom, Store, fetch_byte};
use std::marker::Model;

/// Both ends of the vector RAM: the driver that writes frames into it, and the generator that draws
/// out of it and out of the ROM.
///
/// `apply` lets any event happen, and the calls beside it one each. If the world stands after a
/// legal log, each returns the entry that its event gets over that log. The world then stands after
/// the log with this line (`stands`), and the line keeps the headline (`headline`).
///
/// A strobe that the driver has sent is under way until the next reset of the whole system, and may
/// arrive never, once or often (this project's own choice, as a strobe that the hardware passes
/// over is one that never arrives).
#[derive(Drop)]
pub struct World<S: Store> {
    desk: Desk<S::Alloc>,
    store: S,
    generator: Generator<S::Alloc>,
    strobe_sent: bool,
    // What the strokes of an entry lie in, where it has none.
    alloc: S::Alloc,
}

/// Contracts see a `State`.
impl<S: Store> Model for World<S> {
    ghost use Rattle.dvg_world.specs.Standing.{State};

    ghost Value = { State };

    ghost view = { λ world. record {
      rom = world.desk.rom;
      ram = S.content world.store;
      machine = world.generator;
      driver = world.desk.driver;
      sent = world.strobe_sent;
    } };
}

impl<S: Store> World<S> {
    /// Returns a world at its beginning, over `rom`: the RAM holds `image`, the generator is halted
    /// with the beam at 0, 0 and scale 0, the driver boots, and no strobe is under way.
    ///
    /// The world takes its memory from `alloc`: that of its store, and then some 67 KB for the
    /// tables of the check. Returns `OutOfMemory` where an allocation fails. A fetch takes memory
    /// later on, for the list of a run's strokes, and nothing else does.
    pub fn new(
        alloc: S::Alloc,
        rom: Rom<S::Alloc>,
        image: &Image<S::Alloc>,
    ) -> Result<World<S>, OutOfMemory>
        ensures legal { IsLegal rom image.now [] }
        ensures stands { IfOk result (WorldAfter rom image.now []) }
        ensures picture { IfOk result (λ world. world.machine.picture ≡ []) }
    {
        // An image is one of 2,048 bytes, as its type says.
        let _ = image.bytes();
        let store = S::make(alloc, image)?;
        let desk = Desk::new(alloc, rom)?;
        Ok(World {
            desk,
            store,
            generator: Generator::new(alloc),
            strobe_sent: false,
            alloc,
        })
    }

    /// Begins anew, as the world that `new` makes of `image` and a ROM of the bytes `rom`, in the
    /// memory that it has. This is for callers that open one world after another. Memory is taken,
    /// from `alloc`, only for a ROM of another size.
    ///
    /// Returns `Size` exactly where the length of `rom` is neither 2,048 nor 4,096, and
    /// `OutOfMemory` where an allocation fails. After an error the world is as it was.
    pub fn begin_anew(
        &mut self,
        alloc: S::Alloc,
        rom: &[u8],
        image: &Image<S::Alloc>,
    ) -> Result<(), MemFault>
        ensures stands { OnOk result (WorldAfter rom.now image.now [] self.new) }
        ensures picture { OnOk result (self.new.machine.picture ≡ []) }
        ensures size { IsErrOf result MemFault.Size
            ↔ ((length rom.now ≢ MEMORY_BYTES) × (length rom.now ≢ LARGE_ROM_BYTES)) }
        ensures room { length rom.now ≡ length self.old.rom → IsOk result }
        ensures refused { OnErr result (self.new ≡ self.old) }
    {
        match self.desk.begin_anew(alloc, rom) {
            Ok(()) => {
                self.power_up(alloc, image);
                Ok(())
            }
            Err(fault) => Err(fault),
        }
    }

    // Makes all but the ROM as in a new world, whose RAM holds `image` and whose strokes will be in
    // memory of `alloc`.
    fn power_up(&mut self, alloc: S::Alloc, image: &Image<S::Alloc>)
        ensures stands { WorldAfter self.old.rom image.now [] self.new }
        ensures picture { self.new.machine.picture ≡ [] }
    {
        // An image is one of 2,048 bytes, and a ROM has 2,048 or 4,096, as their types say.
        let _ = image.bytes();
        let _ = self.desk.rom().len_words();
        self.store.load(image);
        self.generator = Generator::new(alloc);
        self.desk.reset();
        self.strobe_sent = false;
        self.alloc = alloc;
    }

    /// Lets `event` happen, by the call that does it, and returns its entry. The strokes of a run
    /// that it finishes are taken out of the world.
    ///
    /// Returns `OutOfMemory` where an allocation fails, and then the world is as it was. That comes
    /// only for a fetch that completes a vector with an intensity of at least 1.
    pub fn apply(&mut self, event: &OwnEvent<S::Alloc>) -> Result<OwnEntry<S::Alloc>, OutOfMemory>
        ensures stands { IfOk result (λ entry. AddsLine self.old (happening_of event.now)
            (shown_of entry) self.new) }
        ensures headline { IfOk result
            (λ entry. KeepsHeadlineAfter self.old (happening_of event.now) (shown_of entry)) }
        ensures picture { IfOk result (λ entry. self.new.machine.picture
            ≡ picture_left (shown_of entry) self.old.machine.picture) }
        ensures refused { OnErr result (self.new ≡ self.old) }
        ensures room { (R image : List ℕ) (log : Log) → WorldAfter R image log self.old
            → OnErr result (TakesMemory R image log (happening_of event.now)) }
    {
        match self.happen(event.lent()) {
            Ok(entry) => Ok(self.own(entry)),
            Err(refused) => Err(refused),
        }
    }

    // Lets `event` happen, by the call that does it, and returns its entry. Returns `OutOfMemory`
    // where an allocation fails, and then the world is as it was.
    #[inline(always)]
    pub(crate) fn happen(
        &mut self,
        event: TraceEvent<'_, S::Alloc>,
    ) -> Result<Entry<()>, OutOfMemory>
        requires { BringsDraft event }
        ensures stands { IfOk result (λ entry. AddsLine self.old (seen_as event.entry)
            (shown_in self.new entry) self.new) }
        ensures picture { IfOk result (λ entry. drew_in entry ≡ None
            → self.new.machine.picture ≡ self.old.machine.picture) }
        ensures same { IfOk result (λ entry. ChangesNothing entry → self.new ≡ self.old) }
        ensures room { OnErr result (WantsMemory (seen_as event.entry) self.old) }
        ensures refused { OnErr result (self.new ≡ self.old) }
    {
        match event {
            Event::Offer(ops) => Ok(self.offer_ops(ops)),
            Event::Redraw => Ok(self.redraw()),
            Event::Tick => Ok(self.tick()),
            Event::Strobe => Ok(self.strobe()),
            Event::Fetch => self.fetch(),
            Event::ResetGen => Ok(self.reset_generator()),
            Event::ResetCpu => Ok(self.reset_processor()),
            Event::ResetAll(image) => Ok(self.reset_all(image)),
        }
    }

    // Returns `entry`, the newest one, with the strokes of the run that it finished, if it did.
    // They are taken out of the world.
    pub(crate) fn own(&mut self, entry: Entry<()>) -> OwnEntry<S::Alloc>
        ensures shown { shown_of result ≡ shown_in self.old entry }
        ensures left { self.new.machine.picture ≡ picture_left entry self.old.machine.picture }
        ensures stands { KeepsLogs self.old self.new }
    {
        let Some(drew) = self.take_drawn(entry) else {
            return entry.with(Vec::new(self.alloc));
        };
        entry.with(drew)
    }

    // Returns whether the driver is idle, and so would take a draft that the check accepts.
    pub(crate) fn is_idle(&self) -> bool
        ensures { OfLives self.now.driver (λ peeked life. IsTrue result ↔ IsWhole life) }
    {
        self.desk.is_idle()
    }

    /// Hands `draft` to the driver to show, as by `Event::Offer`. Returns the entry.
    #[inline(always)]
    pub fn offer(&mut self, draft: &Draft) -> Entry<()>
        ensures stands { AddsLine self.old (Offer draft.now) (shown_in self.new result) self.new }
        ensures headline { KeepsHeadlineAfter self.old (Offer draft.now)
            (shown_in self.new result) }
        ensures picture { self.new.machine.picture ≡ self.old.machine.picture }
        ensures same { ChangesNothing result → self.new ≡ self.old }
    {
        self.offer_ops(draft.ops())
    }

    // Hands the draft of the operations `ops` to the driver to show, as `offer` does. Returns the
    // entry.
    #[inline(always)]
    pub(crate) fn offer_ops(&mut self, ops: &[Op]) -> Entry<()>
        requires { IsDraft ops.now }
        ensures stands { AddsLine self.old (Offer ops.now) (shown_in self.new result) self.new }
        ensures picture { self.new.machine.picture ≡ self.old.machine.picture }
        ensures same { ChangesNothing result → self.new ≡ self.old }
    {
        self.desk.offer(ops)
    }

    /// Asks the driver to have the published frame drawn again, as by `Event::Redraw`. Returns the
    /// entry.
    #[inline(always)]
    pub fn redraw(&mut self) -> Entry<()>
        ensures stands { AddsLine self.old Redraw (shown_in self.new result) self.new }
        ensures headline { KeepsHeadlineAfter self.old Redraw (shown_in self.new result) }
        ensures picture { self.new.machine.picture ≡ self.old.machine.picture }
        ensures same { ChangesNothing result → self.new ≡ self.old }
    {
        self.desk.redraw()
    }

    /// Lets the driver do one action, as by `Event::Tick`. Returns the entry.
    #[inline(always)]
    #[tactic(auto, using(crate::proofs::EventsAddLines::acts_idle))]
    pub fn tick(&mut self) -> Entry<()>
        ensures stands { AddsLine self.old Tick (shown_in self.new result) self.new }
        ensures headline { KeepsHeadlineAfter self.old Tick (shown_in self.new result) }
        ensures picture { self.new.machine.picture ≡ self.old.machine.picture }
        ensures same { ChangesNothing result → self.new ≡ self.old }
    {
        Entry::Acted(self.act())
    }

    /// Lets the driver do one action, as `tick` does, and returns the action. Where it is idle,
    /// nothing changes.
    #[inline(always)]
    pub fn act(&mut self) -> Action
        ensures stands { AddsLine self.old Tick (Acted result) self.new }
        ensures headline { KeepsHeadlineAfter self.old Tick (Acted result) }
        ensures picture { self.new.machine.picture ≡ self.old.machine.picture }
        ensures idle { result ≡ Action.Idle → self.new ≡ self.old }
    {
        let byte1 = self.store.read(1);
        let action = self.desk.tick(self.generator.halted(), byte1);
        self.perform(action);
        action
    }

    // Does the write of `action` in the store, or puts its strobe under way.
    #[inline(always)]
    fn perform(&mut self, action: Action)
        requires { IsInRam action }
        ensures { self.new ≡ record self.old
            { ram = ram_by action self.old.ram; sent = sent_by action self.old.sent } }
    {
        match action {
            Action::Wrote(a, byte) => self.store.write(a, byte),
            Action::Sent => self.strobe_sent = true,
            Action::Peek | Action::Read(_) | Action::Idle => {}
        }
    }

    /// Lets a strobe reach the generator, if the driver has sent one, as by `Event::Strobe`.
    /// Returns the entry.
    #[inline(always)]
    pub fn strobe(&mut self) -> Entry<()>
        ensures stands { AddsLine self.old Strobe (shown_in self.new result) self.new }
        ensures headline { KeepsHeadlineAfter self.old Strobe (shown_in self.new result) }
        ensures picture { self.new.machine.picture ≡ self.old.machine.picture }
        ensures same { ChangesNothing result → self.new ≡ self.old }
    {
        if !self.strobe_sent {
            return Entry::NoStrobe;
        }
        self.generator.start();
        Entry::Started
    }

    /// Lets the generator fetch one byte, as by `Event::Fetch`. Returns the entry. Where it is
    /// `Done`, the run's strokes are the new picture; otherwise the picture stays as it was.
    ///
    /// This is the one event that takes memory, for the stroke of a vector with an intensity of at
    /// least 1. Returns `OutOfMemory` where an allocation fails, and then the world is as it was.
    #[inline(always)]
    pub fn fetch(&mut self) -> Result<Entry<()>, OutOfMemory>
        ensures stands { IfOk result (λ entry. AddsLine self.old Fetch (shown_in self.new entry)
            self.new) }
        ensures headline { IfOk result
            (λ entry. KeepsHeadlineAfter self.old Fetch (shown_in self.new entry)) }
        ensures picture { IfOk result (λ entry. drew_in entry ≡ None
            → self.new.machine.picture ≡ self.old.machine.picture) }
        ensures same { IfOk result (λ entry. ChangesNothing entry → self.new ≡ self.old) }
        ensures refused { OnErr result (self.new ≡ self.old) }
        ensures room { OnErr result (DrawsNow self.old) }
    {
        let Some(address) = self.generator.wants() else {
            return Ok(Entry::Still);
        };
        let low = self.generator.low_byte();
        let byte = fetch_byte(&self.store, self.desk.rom(), address, low.is_some());
        let step = self.generator.feed(byte)?;
        Ok(Entry::of_fetch(address, low, byte, step, ()))
    }

    /// Returns whether the next byte that the generator fetches is the high one of its word: the
    /// last fetch of the open run was of the low byte.
    #[inline(always)]
    pub fn wants_high(&self) -> bool
        ensures { IsTrue result ↔ IsSome self.now.machine.low }
    {
        self.generator.low_byte().is_some()
    }

    /// Returns the byte of the RAM at `address`, a byte address below 2,048.
    pub fn byte(&self, address: u16) -> u8
        requires { address < 2048 }
        ensures value { result ≡ slice_index self.now.ram address }
        ensures ram { OfRam self.now (λ ram. result ≡ slice_index ram address) }
        ensures image { IsImage self.now.ram }
    {
        self.store.read(address)
    }

    /// Returns all bytes of the RAM, from address 000 on.
    pub fn ram(&self) -> [u8; MEMORY_BYTES]
        ensures value { result ≡ self.now.ram }
        ensures ram { OfRam self.now (λ ram. result ≡ ram) }
    {
        bytes_in(&self.store)
    }

    /// Returns the beam: where the instructions of all runs so far have left it, with the global
    /// scale.
    pub fn beam(&self) -> Beam
        ensures value { result ≡ self.now.machine.beam }
        ensures runs { OfBeam self.now (λ beam. result ≡ beam) }
    {
        self.generator.beam()
    }

    /// Returns the generator, to be asked what it holds.
    pub fn generator(&self) -> &Generator<S::Alloc>
        ensures value { result.now ≡ self.now.machine }
        ensures stands { OfHistory self.now (HasTaken result.now) }
    {
        &self.generator
    }

    /// Returns all that the driver keeps, as a driver over the same ROM takes it.
    pub fn driver(&self) -> DriverState
        ensures driver { self.now.driver ≡ driving_in result }
        ensures taken { IsDriverState self.now.rom result }
    {
        self.desk.state()
    }

    /// Returns whether a strobe is under way: the driver has sent one since the newest reset of the
    /// whole system.
    pub fn strobe_sent(&self) -> bool
        ensures { result ≡ self.now.sent }
    {
        self.strobe_sent
    }

    /// Returns the picture: the strokes of the newest run that came to a HALT, in the order drawn.
    /// There are none before the first HALT, and after the picture was taken.
    pub fn picture(&self) -> &[Stroke]
        ensures { result.now ≡ self.now.machine.picture }
    {
        self.generator.picture()
    }

    /// Takes the picture out, and leaves an empty one. No event happens, so the log stays as it is.
    #[inline(always)]
    pub fn take_picture(&mut self) -> Vec<Stroke, S::Alloc>
        ensures taken { result.items ≡ self.old.machine.picture }
        ensures stands { KeepsLogs self.old self.new }
        ensures state { self.new ≡ record self.old
            { machine = record self.old.machine { picture = [] } } }
    {
        self.generator.take_picture()
    }

    // Takes the picture out, if `entry`, the newest one, finished the run that drew it.
    #[inline(always)]
    pub(crate) fn take_drawn(&mut self, entry: Entry<()>) -> Option<Vec<Stroke, S::Alloc>>
        ensures drawn { IsDrawnBy (shown_in self.old entry) result }
        ensures left { self.new.machine.picture ≡ picture_left entry self.old.machine.picture }
        ensures stands { KeepsLogs self.old self.new }
    {
        match entry {
            Entry::Done(..) => Some(self.take_picture()),
            _ => None,
        }
    }

    /// Returns all that the world keeps but its ROM and its picture, as a value that `resume` takes
    /// over the same ROM (`taken`). It is copied into memory of the world's allocator. Returns
    /// `OutOfMemory` where an allocation fails.
    pub fn state(&self) -> Result<WorldState<S::Alloc>, OutOfMemory>
        ensures state { IfOk result (λ state. self.now
            ≡ world_in self.now.rom state self.now.machine.picture) }
        ensures taken { IfOk result (λ state. IsState self.now.rom state) }
    {
        let mut strokes = Vec::new(self.alloc);
        strokes.extend_from_slice(self.generator.strokes())?;
        Ok(WorldState {
            ram: self.image()?,
            generator: self.generator.state(),
            strokes,
            driver: self.desk.state(),
            strobe_sent: self.strobe_sent,
        })
    }

    // Returns a copy of the RAM. Returns `OutOfMemory` where an allocation fails.
    fn image(&self) -> Result<Image<S::Alloc>, OutOfMemory>
        ensures { IfOk result (λ image. image ≡ self.now.ram) }
    {
        let Ok(image) = Image::new(self.alloc, &self.ram()) else {
            return Err(OutOfMemory);
        };
        Ok(image)
    }

    /// Brings the world into `state`: it goes on as each world over this ROM that was in `state`
    /// (`stands`). The ROM stays, and so does the picture. Returns `state`, and why its parts don't
    /// fit, exactly where no generator goes on in its state with the strokes, or else the driver's
    /// parts don't fit together; then nothing has changed. So it takes all that `state` returned
    /// over this ROM. No claim is made about parts that fit, and that no world had at once.
    pub fn resume(&mut self, state: WorldState<S::Alloc>) -> Result<(), WorldRefused<S::Alloc>>
        ensures taken { IsOk result ↔ IsState self.old.rom state }
        ensures state { OnOk result
            (self.new ≡ world_in self.old.rom state self.old.machine.picture) }
        ensures stands { OnOk result (GoesOnAs self.old.rom state self.new) }
        ensures fault { IfErr result (λ refused. IsUnfit self.old.rom state refused.fault) }
        ensures given_back { IfErr result (λ refused. refused.state ≡ state) }
        ensures refused { OnErr result (self.new ≡ self.old) }
    {
        if let Some(fault) = state.generator.fault_with(state.strokes.as_slice()) {
            let fault = WorldStateFault::Generator(fault);
            return Err(WorldRefused { fault, state });
        }
        if let Err(fault) = self.desk.resume(&state.driver) {
            let fault = WorldStateFault::Driver(fault);
            return Err(WorldRefused { fault, state });
        }
        let WorldState {
            ram,
            generator,
            strokes,
            driver: _,
            strobe_sent,
        } = state;
        let Ok(()) = self.generator.resume(&generator, strokes) else {
            unreachable!()
        };
        self.store.load(&ram);
        self.strobe_sent = strobe_sent;
        Ok(())
    }

    /// Resets the generator, as by `Event::ResetGen`. Returns the entry.
    #[inline(always)]
    pub fn reset_generator(&mut self) -> Entry<()>
        ensures stands { AddsLine self.old ResetGen (shown_in self.new result) self.new }
        ensures headline { KeepsHeadlineAfter self.old ResetGen (shown_in self.new result) }
        ensures picture { self.new.machine.picture ≡ self.old.machine.picture }
        ensures entry { result ≡ Cleared }
    {
        self.generator.reset(); // The open run is over.
        Entry::Cleared
    }

    /// Resets the driver, as by `Event::ResetCpu`. Returns the entry.
    #[inline(always)]
    pub fn reset_processor(&mut self) -> Entry<()>
        ensures stands { AddsLine self.old ResetCpu (shown_in self.new result) self.new }
        ensures headline { KeepsHeadlineAfter self.old ResetCpu (shown_in self.new result) }
        ensures picture { self.new.machine.picture ≡ self.old.machine.picture }
        ensures entry { result ≡ Cleared }
    {
        self.desk.reset();
        Entry::Cleared
    }

    /// Resets the whole system, after which the RAM holds `image`, as by `Event::ResetAll`. Returns
    /// the entry.
    #[inline(always)]
    pub fn reset_all(&mut self, image: &Image<S::Alloc>) -> Entry<()>
        ensures stands { AddsLine self.old (ResetAll image.now)
            (shown_in self.new result) self.new }
        ensures headline { KeepsHeadlineAfter self.old (ResetAll image.now)
            (shown_in self.new result) }
        ensures picture { self.new.machine.picture ≡ self.old.machine.picture }
        ensures entry { result ≡ Cleared }
    {
        self.store.load(image);
        self.generator.reset();
        self.desk.reset();
        self.strobe_sent = false; // No strobe is under way any more.
        Entry::Cleared
    }
}

// Returns the bytes that `store` holds, from address 000 on.
fn bytes_in<S: Store>(store: &S) -> [u8; MEMORY_BYTES]
    ensures { result ≡ S.content store.now }
{
    let mut bytes = [store.read(0); MEMORY_BYTES];
    for a in 0..MEMORY_BYTES {
        bytes[a] = store.read(a as u16);
    }
    bytes
}
