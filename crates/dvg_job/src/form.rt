//! The forms in which commands write.
use dvg_mem::Half;

/// What `picture` writes of a run beside how it ends, and in which unit.
#[derive(Clone, Copy, Debug, PartialEq, Eq)]
pub struct PictureForm {
    /// Whether each instruction that is run is told, with the beam after it and its stroke, always
    /// in 1/512 of a screen unit.
    pub all: bool,
    /// Whether each move is written, blank moves and those of a LABS included.
    pub moves: bool,
    /// Whether moves, and the strokes of a picture, are in whole units, as the counters of
    /// `dvg_gen` have them, and not in 1/512.
    pub units: bool,
}

impl PictureForm {
    /// How the run ends alone, in 1/512 of a unit: what is written without an option.
    pub const PLAIN: PictureForm = PictureForm {
        all: false,
        moves: false,
        units: false,
    };
}

/// How large pictures are shown, and how fast. The program `dvg` takes 10 to 400 percent and rates
/// of 1 to 60; what is written is defined for all values.
#[derive(Clone, Copy, Debug, PartialEq, Eq)]
pub struct Show {
    /// The size in percent. At 100 a screen unit is a pixel.
    pub percent: u16,
    /// How many pictures are shown a second, where there are several.
    pub rate: u16,
}

/// What is laid out of a sketch.
#[derive(Clone, Copy, Debug, PartialEq, Eq)]
pub enum LayForm {
    /// The bytes of each frame as it lies in this half.
    Bytes(Half),
    /// The words of each frame as it lies in half 0, as text for an assembler.
    Table,
    /// The bytes of the ROM.
    Rom,
    /// The names of the ROM with their word addresses.
    Equates,
    /// The frames as drafts without names, after the lines of the ROM. They aren't checked.
    Draft,
}

/// How a log is judged.
#[derive(Clone, Copy, Debug, PartialEq, Eq)]
pub enum LogRule {
    /// By the halves of the RAM, up to the first write that tears a picture.
    Halves,
    /// By whether each run is consistent, up to the first that isn't.
    Moments,
    /// The same, and each run that isn't is told.
    AllMoments,
}
