//! The driver.
ghost use Rattle.std.specs.Prelude.{◌≡◌, ◌↔◌, ◌≤◌, ℕ, ◌*◌, true, false, not, All, List, [], ◌∷◌};
ghost use Rattle.std.specs.Prelude.{IfErr, IfNone, IfOk, IfSome, IsOk, IsSome, IsSomeAnd, IsTrue};
ghost use Rattle.std.specs.Prelude.{None, OnErr, OnOk, Some, option_map};
ghost use Rattle.dvg_frame.specs.Bytes.{IsBehindWordZero, addressed, bytes};
ghost use Rattle.dvg_frame.specs.Layout.{laid, size};
ghost use Rattle.dvg_frame.specs.Left.{IsOf, after_item, items_in};
ghost use Rattle.dvg_frame.specs.Steps.{IsWellFormed};
ghost use Rattle.dvg_driver.specs.declared.state.Phase.TheVariants as phase;
ghost use Rattle.dvg_mem.specs.Areas.{base, half_of_high, high, other};
ghost use Rattle.dvg_driver.specs.Phases.{items_of};
ghost use Rattle.dvg_driver.specs.Place.{Waiting, Writing};
ghost use Rattle.dvg_driver.specs.Saved.{IsState, IsUnfit, IsUnwritable, IsWritable};
ghost use Rattle.dvg_driver.specs.Saved.{KeepsAccepted, cursor_in, driving_in};
ghost use Rattle.dvg_driver.specs.Script.{Item, Offered, Asked, Did, IsLife, IsWhole, has_flip};
ghost use Rattle.dvg_driver.specs.Script.{word_zero};
ghost use Rattle.dvg_driver.specs.Stands.{IsInRam, KeepsNoOther, ShowsFlag, StandsAfter};
ghost use Rattle.dvg_driver.specs.Stands.{WritesNext, WritesNoByte, WritesWordZero, byte1_of};
ghost use Rattle.dvg_driver.specs.Stands.{peeked_after};

use crate::action::Action;
use crate::fault::{DriverFault, DriverStateFault};
use crate::state::{DriverState, Phase};
use dvg_frame::{Checked, Checker, Cursor, Draft, Frame};
use dvg_mem::{Half, Rom};
use std::alloc::Allocator;
use std::marker::Model;

/// The driver of the vector generator, from one reset to the next and beyond. It keeps at most one
/// frame: the one that it writes.
#[derive(Drop)]
pub struct Driver {
    phase: Phase,
    /// Gives the bytes of the newest frame. It counts only while the driver writes.
    cursor: Option<Cursor>,
    /// The current half, once the driver has looked at byte 001.
    half: Half,
    /// Whether it has flipped since its reset.
    flipped: bool,
}

/// Contracts see how far the driver is in its script, the current half, whether it has flipped, and
/// the frame that it keeps while it writes it.
impl Model for Driver {
    ghost use Rattle.dvg_driver.specs.Stands.{Driving};

    ghost Value = { Driving };

    ghost use Rattle.dvg_driver.specs.Phases.{IsSound, driving_of};

    ghost view = { driving_of };

    ghost invariant = { IsSound };
}

impl Driver {
    /// Returns a driver that was just reset.
    pub fn new() -> Driver
        ensures stands { (peeked : ℕ) → StandsAfter result.stage peeked [] }
        ensures frame { result.frame ≡ None }
    {
        Driver {
            phase: Phase::Start,
            cursor: None,
            half: Half::H0,
            flipped: false,
        }
    }

    /// Resets the driver: it forgets everything, even a frame that is being written.
    pub fn reset(&mut self)
        ensures stands { (peeked : ℕ) → StandsAfter self.new.stage peeked [] }
        ensures frame { self.new.frame ≡ None }
    {
        // The half and the cursor no longer count: the peek and the next frame set them.
        self.phase = Phase::Start;
        self.flipped = false;
    }

    /// Returns whether the driver is idle, and so would take a frame.
    pub fn is_idle(&self) -> bool
        ensures { (peeked : ℕ) (life : List Item) → StandsAfter self.now.stage peeked life
            → (IsTrue result ↔ IsWhole life) }
    {
        match self.phase {
            Phase::Resting => true,
            _ => false,
        }
    }

    /// Takes `frame`, as `offer_checked` takes a checked draft; either way it is dropped. Returns
    /// `Busy` exactly where the driver isn't idle, and then nothing else has changed.
    pub fn offer(&mut self, frame: Frame) -> Result<(), DriverFault>
        ensures accepted { (peeked : ℕ) (life : List Item) → StandsAfter self.old.stage peeked life
            → (IsOk result ↔ IsWhole life) }
        ensures busy { IfErr result (λ fault. fault ≡ DriverFault.Busy) }
        ensures stands { (peeked : ℕ) (life : List Item) → StandsAfter self.old.stage peeked life →
            OnOk result (StandsAfter self.new.stage peeked
            (Offered (other (half_of_high (byte1_of peeked life))) frame.operations ∷ life)) }
        ensures frame { OnOk result (self.new.frame ≡ Some frame.operations) }
        ensures refused { OnErr result (self.new ≡ self.old) }
    {
        self.offer_checked(&frame.as_checked())
    }

    /// Takes `checked`, which the next ticks write into the free half and publish. Its operations
    /// are copied only where it is taken, into the memory that the driver has. Returns `Busy`
    /// exactly where the driver isn't idle, and then nothing has changed.
    pub fn offer_checked(&mut self, checked: &Checked) -> Result<(), DriverFault>
        ensures accepted { (peeked : ℕ) (life : List Item) → StandsAfter self.old.stage peeked life
            → (IsOk result ↔ IsWhole life) }
        ensures busy { IfErr result (λ fault. fault ≡ DriverFault.Busy) }
        ensures stands { (peeked : ℕ) (life : List Item) → StandsAfter self.old.stage peeked life →
            OnOk result (StandsAfter self.new.stage peeked
            (Offered (other (half_of_high (byte1_of peeked life))) checked.now.operations ∷ life)) }
        ensures frame { OnOk result (self.new.frame ≡ Some checked.now.operations) }
        ensures refused { OnErr result (self.new ≡ self.old) }
    {
        match self.phase {
            Phase::Resting => {
                begin(&mut self.cursor, checked, self.half.other());
                self.phase = Phase::Writing;
                Ok(())
            }
            _ => Err(DriverFault::Busy),
        }
    }

    /// Asks for the published frame once more. Returns `NothingPublished` exactly where the driver
    /// hasn't flipped since its reset, otherwise `Busy` exactly where it isn't idle. After an error
    /// nothing has changed.
    pub fn redraw(&mut self) -> Result<(), DriverFault>
        ensures accepted { (peeked : ℕ) (life : List Item) → StandsAfter self.old.stage peeked life
            → (IsOk result ↔ ((has_flip life ≡ true) × IsWhole life)) }
        ensures nothing { (peeked : ℕ) (life : List Item) → StandsAfter self.old.stage peeked life →
            ((result ≡ Err DriverFault.NothingPublished) ↔ (has_flip life ≡ false)) }
        ensures stands { (peeked : ℕ) (life : List Item) → StandsAfter self.old.stage peeked life →
            OnOk result (StandsAfter self.new.stage peeked (Asked ∷ life)) }
        ensures frame { OnOk result (self.new.frame ≡ None) }
        ensures refused { OnErr result (self.new ≡ self.old) }
    {
        if !self.flipped {
            return Err(DriverFault::NothingPublished);
        }
        match self.phase {
            Phase::Resting => {
                self.phase = Phase::Waiting;
                Ok(())
            }
            _ => Err(DriverFault::Busy),
        }
    }

    /// Does the next action of the script, and returns it. `halted` is the HALT flag, and `byte1`
    /// is byte 001 of the RAM; what isn't read has no effect. The caller does the write of a
    /// `Wrote`, and sends the strobe of a `Sent`.
    #[inline(always)]
    pub fn tick(&mut self, halted: bool, byte1: u8) -> Action
        ensures stands { (peeked : ℕ) (life : List Item) → StandsAfter self.old.stage peeked life →
            StandsAfter self.new.stage (peeked_after result byte1 peeked) (Did result ∷ life) }
        ensures scripted { (peeked : ℕ) (life : List Item) → StandsAfter self.old.stage peeked life
            → IsLife (Did result ∷ life) }
        ensures told { ShowsFlag result halted }
        ensures in_ram { IsInRam result }
        ensures frame { KeepsNoOther self.old self.new }
        ensures idle { result ≡ Action.Idle → self.new ≡ self.old }
    {
        match self.next_byte() {
            Some((address, byte)) => Action::Wrote(address, byte),
            None => self.act(halted, byte1),
        }
    }

    /// Returns all that the driver keeps, as a value that `resume` takes over each ROM over which
    /// the check accepts the frame that is being written. That is copied.
    pub fn state(&self) -> DriverState
        ensures driver { self.now ≡ driving_in result }
        ensures begins { result.phase ≡ phase.Writing → IsWellFormed result.frame }
        ensures taken { (R : List ℕ) → KeepsAccepted R self.now → IsState R result }
    {
        let written = match (self.phase, &self.cursor) {
            (Phase::Writing, Some(cursor)) => written_by(cursor),
            _ => (Draft::new(), self.half.other(), 0),
        };
        DriverState {
            phase: self.phase,
            half: self.half,
            flipped: self.flipped,
            frame: written.0,
            frame_half: written.1,
            left: written.2,
        }
    }

    /// Brings the driver into `state`: it goes on as the one whose state this is. A frame that is
    /// being written is checked by `checker`, over `rom`. Returns why the parts of `state` don't
    /// fit together over that ROM exactly where they don't, and then nothing has changed.
    pub fn resume<A: Allocator>(
        &mut self,
        state: &DriverState,
        checker: &mut Checker,
        rom: &Rom<A>,
    ) -> Result<(), DriverStateFault>
        ensures taken { IsOk result ↔ IsState rom.now state.now }
        ensures driver { OnOk result (self.new ≡ driving_in state.now) }
        ensures fault { IfErr result (IsUnfit rom.now state.now) }
        ensures refused { OnErr result (self.new ≡ self.old) }
    {
        match state.phase {
            Phase::Start | Phase::Booting | Phase::Flipping if state.flipped => {
                return Err(DriverStateFault::Flipped);
            }
            Phase::Waiting | Phase::Sending if !state.flipped => {
                return Err(DriverStateFault::Flipped);
            }
            Phase::Writing => match cursor_of(state, checker, rom) {
                Ok(cursor) => self.cursor = Some(cursor),
                Err(fault) => return Err(fault),
            },
            _ => {}
        }
        self.phase = state.phase;
        self.half = state.half;
        self.flipped = state.flipped;
        Ok(())
    }

    // Returns the next byte of a frame that the driver writes, with its address before it: it is
    // written now. Returns `None` where no byte of a frame comes next, and then nothing has
    // changed.
    #[inline(always)]
    fn next_byte(&mut self) -> Option<(u16, u8)>
        ensures given { IfSome result (WritesNext self.old.stage self.new.stage) }
        ensures in_ram { IfSome result IsBehindWordZero }
        ensures frame { self.new.frame ≡ self.old.frame }
        ensures none { IfNone result ((self.new ≡ self.old) × WritesNoByte self.old.stage) }
    {
        match self.phase {
            Phase::Writing => next_of(&mut self.cursor),
            _ => None,
        }
    }

    // Does the next action where no byte of a frame comes next, and returns it. `halted` and
    // `byte1` are those of `tick`. It isn't inlined, as most ticks write such a byte.
    #[inline(never)]
    fn act(&mut self, halted: bool, byte1: u8) -> Action
        requires { WritesNoByte self.old.stage }
        ensures stands { (peeked : ℕ) (life : List Item) → StandsAfter self.old.stage peeked life →
            StandsAfter self.new.stage (peeked_after result byte1 peeked) (Did result ∷ life) }
        ensures told { ShowsFlag result halted }
        ensures in_ram { IsInRam result }
        ensures frame { self.new.frame ≡ None }
        ensures idle { result ≡ Action.Idle → self.new ≡ self.old }
    {
        match self.phase {
            Phase::Start => {
                self.half = Half::of_high(byte1);
                self.phase = Phase::Booting;
                Action::Peek
            }
            Phase::Booting => {
                if halted {
                    self.phase = Phase::Resting;
                }
                Action::Read(halted)
            }
            Phase::Resting => Action::Idle,
            Phase::Writing => self.end_frame(),
            Phase::Flipping => self.flip(),
            Phase::Waiting => {
                if halted {
                    self.phase = Phase::Sending;
                }
                Action::Read(halted)
            }
            Phase::Sending => {
                self.phase = Phase::Resting;
                Action::Sent
            }
        }
    }

    // Goes on after the last byte of a frame, and returns what it did: it writes byte 000 where it
    // hasn't flipped since its reset, and otherwise it flips.
    fn end_frame(&mut self) -> Action
        requires { self.old.stage.place
            ≡ Writing (word_zero (other self.old.stage.half) (not self.old.stage.flipped)) }
        ensures stands { (peeked : ℕ) (life : List Item) → StandsAfter self.old.stage peeked life →
            StandsAfter self.new.stage peeked (Did result ∷ life) }
        ensures frame { self.new.frame ≡ None }
        ensures wrote { WritesWordZero result }
    {
        if self.flipped {
            return self.flip();
        }
        self.phase = Phase::Flipping;
        Action::Wrote(0, 0x01)
    }

    // Publishes the frame in the free half, which is the current one from now on.
    fn flip(&mut self) -> Action
        requires { self.old.stage.place
            ≡ Writing (word_zero (other self.old.stage.half) false) }
        ensures action { result ≡ Action.Wrote 1 (high (other self.old.stage.half)) }
        ensures flipped { self.new.stage ≡ record
            { place = Waiting false; half = other self.old.stage.half; flipped = true } }
        ensures frame { self.new.frame ≡ None }
    {
        self.half = self.half.other();
        self.flipped = true;
        self.phase = Phase::Waiting;
        Action::Wrote(1, self.half.high())
    }
}

// Returns the draft whose bytes `cursor` gives, the half that it is laid out for, and how many of
// them are still to come.
fn written_by(cursor: &Cursor) -> (Draft, Half, u16)
    ensures source { cursor.now ≡ record { draft = result.0; half = result.1; left = result.2 } }
    ensures left { result.2 ≤ 2 * size result.0 }
    ensures begins { IsWellFormed result.0 }
{
    let source = cursor.source();
    (source.0.copy(), source.1, cursor.left())
}

// Returns a cursor over those bytes of the frame in `state` that are still to come. Returns a fault
// exactly where the check by `checker` over `rom` refuses that frame, it isn't laid out for the
// half that is free, or it has fewer bytes: the first of these.
fn cursor_of<A: Allocator>(
    state: &DriverState,
    checker: &mut Checker,
    rom: &Rom<A>,
) -> Result<Cursor, DriverStateFault>
    ensures taken { IsOk result ↔ IsWritable rom.now state.now }
    ensures cursor { IfOk result (λ cursor. cursor ≡ cursor_in state.now) }
    ensures in_ram { IfOk result (λ cursor. All IsBehindWordZero (items_in cursor)) }
    ensures fault { IfErr result (IsUnwritable rom.now state.now) }
{
    let checked = match checker.check(state.frame.ops(), rom) {
        Ok(checked) => checked,
        Err(fault) => return Err(DriverStateFault::Frame(fault)),
    };
    if state.frame_half != state.half.other() {
        return Err(DriverStateFault::Half);
    }
    if state.left > 2 * checked.len_words() {
        return Err(DriverStateFault::Left);
    }
    Ok(Cursor::with_left(&checked, state.frame_half, state.left))
}

// Makes `cursor` begin with the bytes of `checked`, laid out for `half`.
fn begin(cursor: &mut Option<Cursor>, checked: &Checked, half: Half)
    ensures items { items_of cursor.new
        ≡ addressed (2 * base half) (bytes (laid half checked.now.operations)) }
    ensures cursor { IsSomeAnd cursor.new (λ new. All IsBehindWordZero (items_in new)
        × IsOf new checked.now.operations half) }
{
    match cursor {
        Some(cursor) => cursor.restart(checked, half),
        None => begin_first(cursor, checked, half),
    }
}

// Does what `begin` does, for a `cursor` that is `None`. It isn't inlined: otherwise the room for a
// new cursor would be cleared for each frame.
#[inline(never)]
fn begin_first(cursor: &mut Option<Cursor>, checked: &Checked, half: Half)
    ensures items { items_of cursor.new
        ≡ addressed (2 * base half) (bytes (laid half checked.now.operations)) }
    ensures cursor { IsSomeAnd cursor.new (λ new. All IsBehindWordZero (items_in new)
        × IsOf new checked.now.operations half) }
{
    *cursor = Some(Cursor::of(checked, half));
}

// Returns the next byte of `cursor`, which there must be, with its address before it, if one is
// still to come.
#[inline(always)]
fn next_of(cursor: &mut Option<Cursor>) -> Option<(u16, u8)>
    requires { IsSome cursor.old }
    ensures given { IfSome result (λ item. items_of cursor.old ≡ item ∷ items_of cursor.new) }
    ensures ended { IfNone result ((items_of cursor.old ≡ []) × (items_of cursor.new ≡ [])) }
    ensures kept { cursor.new ≡ option_map after_item cursor.old }
{
    match cursor {
        Some(cursor) => cursor.next(),
        None => unreachable!(), // While the driver writes there is a frame.
    }
}
