//! A driver's state as a plain value.
use dvg_frame::Draft;
use dvg_mem::Half;

/// How far a driver is in its script. What it writes of a frame stands beside it, so that a change
/// of the phase moves no frame.
#[derive(Clone, Copy, Debug, PartialEq, Eq)]
pub enum Phase {
    /// It has done nothing since its reset.
    Start,
    /// It waits for the first time until the generator is halted.
    Booting,
    /// It is idle.
    Resting,
    /// It writes a frame into the free half, and then word zero.
    Writing,
    /// It has written byte 000, and flips next.
    Flipping,
    /// It waits until the generator is halted.
    Waiting,
    /// It sends the strobe next.
    Sending,
}

/// All that a driver keeps, as a value that can be stored anywhere. Its fields may hold anything:
/// `Driver::resume` tells whether they fit together.
#[derive(Clone, Debug, PartialEq, Eq, Drop)]
pub struct DriverState {
    /// How far it is.
    pub phase: Phase,
    /// The current half, which byte 001 names. It is unknown, and doesn't count, in `Start`.
    pub half: Half,
    /// Whether it has flipped since its reset: never in `Start`, `Booting` and `Flipping`, and
    /// always in `Waiting` and `Sending`.
    pub flipped: bool,
    /// The frame that it writes. It counts only in `Writing`, and the check has to accept it.
    pub frame: Draft,
    /// The half that the frame is laid out for: in `Writing` the one that isn't the current one.
    pub frame_half: Half,
    /// How many bytes of the frame are still to be written: at most twice its words.
    pub left: u16,
}
