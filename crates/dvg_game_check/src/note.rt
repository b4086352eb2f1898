//! Notes of what holds at an instruction.
use crate::kind::Register;
use arrayvec::ArrayVec;

/// How many bytes of the stack a note knows of.
pub const SLOTS: usize = 32;

/// Code of the program, of a subroutine, and of the NMI.
#[derive(Clone, Copy, Debug)]
pub enum Level {
    Main,
    Sub,
    Nmi,
}

/// What a byte is known to be: anything, or what A, X or Y was where the NMI came.
#[derive(Clone, Copy, Debug, PartialEq, Eq)]
pub enum Slot {
    Any,
    Was(Register),
}

impl Default for Slot {
    ghost use Rattle.std.specs.Prelude.{◌≡◌};
    ghost use Rattle.dvg_game_check.specs.declared.note.Slot.TheVariants.{Any};

    ghost is_default = { λ slot. slot ≡ Any };

    fn default() -> Slot {
        Slot::Any
    }
}

/// What A, X and Y hold.
#[derive(Clone, Copy, Debug, PartialEq, Eq)]
pub struct Held {
    pub a: Slot,
    pub x: Slot,
    pub y: Slot,
}

/// What holds at an instruction.
#[derive(Drop)]
pub struct Note {
    pub level: Level,
    /// How many bytes were pushed since the level began.
    pub depth: u16,
    /// What A, X and Y hold, and the bytes that were pushed last, the newest first.
    pub held: Held,
    pub slots: ArrayVec<Slot, SLOTS>,
    /// How many bytes it may still push, with all that it calls.
    pub room: u16,
    /// How many instructions the NMI may still do.
    pub fuel: u16,
    /// `dvg_reset` was called.
    pub awake: bool,
    /// A frame may be blank, here and where it returns.
    pub blank: bool,
    pub ends: bool,
}

/// What an instruction changes of what holds.
#[derive(Clone, Copy)]
pub enum Change {
    Same,
    /// What A, X and Y hold.
    Holds(Held),
    /// Whether `dvg_reset` was called.
    Leaves(bool),
    /// It pushes this byte.
    Pushes(Slot),
    /// It pulls a byte, and A, X and Y hold this.
    Pulls(Held),
    /// A call returns, and the driver is awake, and a frame blank, or not.
    Returns(bool, bool),
    /// A subroutine begins. Whether a frame may be blank where it returns.
    Begins(bool),
}
