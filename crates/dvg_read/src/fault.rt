//! What can be wrong with a text.
ghost use Rattle.std.specs.Prelude.{◌≡◌};
ghost use Rattle.dvg_read.specs.LineFaults.{fault_at};

use thiserror::Error;

/// A fault of an input. Its text is what `dvg` prints of it (this project's own choice).
#[derive(Clone, Copy, Debug, PartialEq, Eq, Error)]
pub enum TextFault {
    /// The input has more bytes, or a log more lines, than are allowed.
    #[error("too long")]
    TooLong,
    /// The input has an odd number of bytes.
    #[error("odd length")]
    Odd,
    /// The word at this place, counted in words from 0, needs a second word, which is missing.
    #[error("cut at {0:03X}")]
    Cut(usize),
    /// A ROM has neither 2,048 nor 4,096 bytes.
    #[error("rom size")]
    RomSize,
    /// A dump of vector memory has this many bytes, fewer than 6,144 and not 4,096.
    #[error("dump size {0}: wanted are 4096 or 6144 bytes")]
    DumpSize(usize),
    /// A dump of vector memory has more than 6,144 bytes.
    #[error("dump size 6145 or more: wanted are 4096 or 6144 bytes")]
    LongDump,
    /// A game has this many bytes, fewer than 8,192.
    #[error("game size {0}: wanted are 8192 bytes, 2048 of the vector ROM and 6144 of the program")]
    GameSize(usize),
    /// A game has more than 8,192 bytes.
    #[error("game size 8193 or more: wanted are 8192 bytes, 2048 of the vector ROM and 6144 of the program")]
    LongGame,
    /// The line of this number, counted from 1, spells nothing that may stand at its place.
    #[error("syntax at line {0}")]
    Syntax(usize),
    /// The line of this number, counted from 1, spells operation number 511 of a draft, which can't
    /// hold it.
    #[error("full at line {0}")]
    Full(usize),
    /// The line of this number, counted from 1, brings the number of a trace's events above 65,536.
    #[error("too many events at line {0}")]
    Many(usize),
    /// The text ends inside an offer.
    #[error("offer without end")]
    Unended,
    /// The line of this number, counted from 1, gives a name that a line before it gave.
    #[error("name given again at line {0}")]
    NameGivenAgain(usize),
    /// The line of this number, counted from 1, begins a section before the ROM or past C00, its
    /// end, or lays an operation past that.
    #[error("out of rom at line {0}")]
    OutOfRom(usize),
    /// The line of this number, counted from 1, lays an operation on a word of another section of
    /// the ROM.
    #[error("overlap at line {0}")]
    Overlap(usize),
    /// The line of this number, counted from 1, needs a name that isn't given where it is looked
    /// for: in its own frame, or in the ROM.
    #[error("unknown name at line {0}")]
    UnknownName(usize),
}

/// Why a text isn't read, by a reader that takes memory.
#[derive(Clone, Copy, Debug, PartialEq, Eq, Error)]
pub enum Unread {
    /// The text is at fault.
    #[error(transparent)]
    Text(TextFault),
    /// An allocation failed.
    #[error("out of memory")]
    Memory,
}

/// Why a line isn't taken. What takes one line at a time doesn't know its number.
#[derive(Clone, Copy, Debug, PartialEq, Eq, Error)]
pub enum LineFault {
    /// It spells nothing that may stand at its place.
    #[error("the line spells nothing that may stand at its place")]
    Syntax,
    /// The draft has its 511 operations already.
    #[error("the draft has its 511 operations already")]
    Full,
    /// There would be more events than a trace has.
    #[error("there would be more than 65536 events")]
    Many,
    /// It gives a name that was given before.
    #[error("the line gives a name that was given before")]
    NameGivenAgain,
    /// It begins a section before the ROM or past its end, or lays an operation past that.
    #[error("the line lays nothing at a word of the ROM")]
    OutOfRom,
    /// It lays an operation on a word on which another section lies.
    #[error("the line lays an operation on another section")]
    Overlap,
    /// An allocation failed.
    #[error("out of memory")]
    Memory,
}

impl LineFault {
    /// Returns this fault as that of the line of this `number`, counted from 1.
    pub fn at_line(self, number: usize) -> Unread
        ensures { result ≡ fault_at self number }
    {
        match self {
            LineFault::Syntax => Unread::Text(TextFault::Syntax(number)),
            LineFault::Full => Unread::Text(TextFault::Full(number)),
            LineFault::Many => Unread::Text(TextFault::Many(number)),
            LineFault::NameGivenAgain => Unread::Text(TextFault::NameGivenAgain(number)),
            LineFault::OutOfRom => Unread::Text(TextFault::OutOfRom(number)),
            LineFault::Overlap => Unread::Text(TextFault::Overlap(number)),
            LineFault::Memory => Unread::Memory,
        }
    }
}
