//! A driver at its desk. Others call it a checked driver.
ghost use Rattle.std.specs.Prelude.{◌≡◌, ◌≢◌, ◌↔◌, length, IfErr, IfOk, IsErrOf, IsOk, IsTrue};
ghost use Rattle.std.specs.Prelude.{OnErr, OnOk};
ghost use Rattle.dvg_mem.specs.declared.TheConstants.{LARGE_ROM_BYTES, MEMORY_BYTES};
ghost use Rattle.dvg_driver.specs.Saved.{IsState, IsUnfit, driving_in};
ghost use Rattle.dvg_driver.specs.Script.{IsWhole};
ghost use Rattle.dvg_world.specs.Desks.{IsFresh, OfferAnswers, OfLives, RedrawAnswers, TickAnswers};

use dvg_code::OutOfMemory;
use dvg_driver::{Action, Driver, DriverFault, DriverState, DriverStateFault};
use dvg_frame::{Checker, Op};
use dvg_log::Entry;
use dvg_mem::{MemFault, Rom};
use std::alloc::{Allocator, Global};
use std::marker::Model;

/// A driver with the ROM over which its drafts are checked, and what they are checked by. It knows
/// no RAM: what it returns says what it does.
#[derive(Drop)]
pub struct Desk<A: Allocator = Global> {
    rom: Rom<A>,
    driver: Driver,
    checker: Box<Checker, A>,
}

/// Contracts see the ROM and the driver. The check accepts the frame that is being written.
impl<A: Allocator> Model for Desk<A> {
    ghost use Rattle.dvg_driver.specs.Saved.{KeepsAccepted};
    ghost use Rattle.dvg_world.specs.Desks.{Driven};

    ghost Value = { Driven };

    ghost view = { λ desk. record { rom = desk.rom; driver = desk.driver } };

    ghost invariant = { λ desk. KeepsAccepted desk.rom desk.driver };
}

impl<A: Allocator> Desk<A> {
    /// Returns a driver that was just reset, over `rom`. It takes some 67 KB from `alloc`, for the
    /// tables of the check. Returns `OutOfMemory` where an allocation fails.
    pub fn new(alloc: A, rom: Rom<A>) -> Result<Desk<A>, OutOfMemory>
        ensures { IfOk result (IsFresh rom) }
    {
        Ok(Desk {
            rom,
            driver: Driver::new(),
            checker: Box::new(alloc, Checker::new())?,
        })
    }

    /// Resets the driver, over a ROM of the bytes `rom`. Memory is taken, from `alloc`, only for a
    /// ROM of another size. Returns `Size` exactly where the length of `rom` is neither 2,048 nor
    /// 4,096, and `OutOfMemory` where an allocation fails. After an error all is as it was.
    pub fn begin_anew(&mut self, alloc: A, rom: &[u8]) -> Result<(), MemFault>
        ensures fresh { OnOk result (IsFresh rom.now self.new) }
        ensures size { IsErrOf result MemFault.Size
            ↔ ((length rom.now ≢ MEMORY_BYTES) × (length rom.now ≢ LARGE_ROM_BYTES)) }
        ensures room { length rom.now ≡ length self.old.rom → IsOk result }
        ensures refused { OnErr result (self.new ≡ self.old) }
    {
        match self.rom.copy_from(alloc, rom) {
            Ok(()) => {
                self.driver.reset();
                Ok(())
            }
            Err(fault) => Err(fault),
        }
    }

    /// Returns the ROM.
    pub fn rom(&self) -> &Rom<A>
        ensures { result.now ≡ self.now.rom }
    {
        &self.rom
    }

    /// Returns whether the driver is idle, and so would take a draft that the check accepts.
    pub(crate) fn is_idle(&self) -> bool
        ensures { OfLives self.now.driver (λ peeked life. IsTrue result ↔ IsWhole life) }
    {
        self.driver.is_idle()
    }

    /// Hands the draft of the operations `ops` to the driver to show, if the check accepts it.
    /// Returns the entry.
    pub fn offer(&mut self, ops: &[Op]) -> Entry<()>
        ensures rom { self.new.rom ≡ self.old.rom }
        ensures answers { OfferAnswers self.old.rom ops.now self.old.driver self.new.driver result }
    {
        let checked = match self.checker.check(ops, &self.rom) {
            Ok(checked) => checked,
            Err(fault) => return Entry::Refused(fault),
        };
        match self.driver.offer_checked(&checked) {
            Ok(()) => Entry::Offered,
            Err(_) => Entry::Busy,
        }
    }

    /// Asks the driver to have the published frame drawn again. Returns the entry.
    pub fn redraw(&mut self) -> Entry<()>
        ensures rom { self.new.rom ≡ self.old.rom }
        ensures answers { RedrawAnswers self.old.driver self.new.driver result }
    {
        match self.driver.redraw() {
            Ok(()) => Entry::Asked,
            Err(DriverFault::NothingPublished) => Entry::NothingPublished,
            Err(DriverFault::Busy) => Entry::Busy,
        }
    }

    /// Lets the driver do one action, and returns it. `halted` says whether the generator is
    /// halted, and `byte1` is the byte at 001 of the RAM.
    #[inline(always)]
    pub fn tick(&mut self, halted: bool, byte1: u8) -> Action
        ensures rom { self.new.rom ≡ self.old.rom }
        ensures answers { TickAnswers halted byte1 self.old.driver self.new.driver result }
        ensures idle { result ≡ Action.Idle → self.new ≡ self.old }
    {
        self.driver.tick(halted, byte1)
    }

    /// Returns all that the driver keeps, as a value that `resume` takes over the same ROM.
    pub fn state(&self) -> DriverState
        ensures driver { self.now.driver ≡ driving_in result }
        ensures taken { IsState self.now.rom result }
    {
        self.driver.state()
    }

    /// Brings the driver into `state`: it goes on as the one whose state this is. Returns why the
    /// parts of `state` don't fit together over this ROM exactly where they don't, and then nothing
    /// has changed.
    pub fn resume(&mut self, state: &DriverState) -> Result<(), DriverStateFault>
        ensures taken { IsOk result ↔ IsState self.old.rom state.now }
        ensures driver { OnOk result
            (self.new ≡ record { rom = self.old.rom; driver = driving_in state.now }) }
        ensures fault { IfErr result (IsUnfit self.old.rom state.now) }
        ensures refused { OnErr result (self.new ≡ self.old) }
    {
        match self.driver.resume(state, &mut self.checker, &self.rom) {
            Ok(()) => Ok(()),
            Err(fault) => Err(fault),
        }
    }

    /// Resets the driver.
    pub fn reset(&mut self)
        ensures { IsFresh self.old.rom self.new }
    {
        self.driver.reset();
    }
}
