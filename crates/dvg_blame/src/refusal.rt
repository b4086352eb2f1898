//! Why a sketch isn't laid out.
use dvg_frame::FrameFault;
use dvg_print::{Line, Verdict};
use std::alloc::{AllocFailed, Allocator, Global};
use std::fmt;

/// What is blamed for a refusal.
#[derive(Debug, PartialEq, Eq, Drop)]
pub enum Blamed<A: Allocator = Global> {
    /// A line of the sketch.
    Line {
        /// Its number, counted from 1.
        number: usize,
        /// Its tokens after the name that it gives, with a space between each two.
        said: Vec<u8, A>,
    },
    /// A word of the ROM.
    Word {
        /// The name that stands there or before it, if there is one.
        name: Option<Vec<u8, A>>,
        /// Its word address.
        address: u16,
    },
}

/// Why a frame is refused.
#[derive(Clone, Copy, Debug, PartialEq, Eq)]
pub enum Reason {
    /// The check picks this fault.
    Fault(FrameFault),
    /// A call or a jump to the ROM names a word below 400, which in a table is one of the frame.
    NamesNoWord,
    /// The picture has so many words, more than are drawn.
    ManyWords(u64),
}

/// A frame that is refused. Its text is what `dvg` prints of it (this project's own choice).
#[derive(Debug, PartialEq, Eq, Drop)]
pub struct Refusal<A: Allocator = Global> {
    /// What is blamed.
    pub blamed: Blamed<A>,
    /// Why.
    pub reason: Reason,
}

/// Why nothing is laid out.
#[derive(Debug, Drop)]
pub enum Unlaid<A: Allocator = Global> {
    /// A frame is refused.
    Refused(Refusal<A>),
    /// An allocation failed.
    Memory,
}

impl<T: Drop, A: Allocator> From<AllocFailed<T>> for Unlaid<A> {
    ghost use Rattle.std.specs.Prelude.{◌≡◌};
    ghost use Rattle.dvg_blame.specs.declared.refusal.Unlaid.TheVariants.{Memory};

    ghost from_gives = { λ _ unlaid. unlaid ≡ Memory };

    fn from(_refused: AllocFailed<T>) -> Unlaid<A> {
        Unlaid::Memory
    }
}

// Writes `text`, which is ASCII.
fn write_text<W: fmt::Write>(f: &mut fmt::Formatter<W>, text: &[u8]) -> fmt::Result {
    for byte in text {
        write!(f, "{}", char::from(*byte))?;
    }
    Ok(())
}

impl<A: Allocator> fmt::Display for Blamed<A> {
    fn fmt<W: fmt::Write>(&self, f: &mut fmt::Formatter<W>) -> fmt::Result {
        match self {
            Blamed::Line { number, said } => {
                write!(f, "line {number}")?;
                if said.is_empty() {
                    return Ok(());
                }
                write!(f, ": ")?;
                write_text(f, said.as_slice())
            }
            Blamed::Word { name, address } => {
                if let Some(name) = name {
                    write!(f, "rom ")?;
                    write_text(f, name.as_slice())?;
                    write!(f, " ")?;
                }
                write!(f, "word {address:03X}")
            }
        }
    }
}

impl fmt::Display for Reason {
    fn fmt<W: fmt::Write>(&self, f: &mut fmt::Formatter<W>) -> fmt::Result {
        match self {
            Reason::Fault(fault) => {
                let mut line = Line::new();
                line.become_verdict(Verdict::Refused(*fault));
                write_text(f, line.as_bytes().trim_ascii_end())
            }
            Reason::NamesNoWord => write!(f, "names no word from 400 on"),
            Reason::ManyWords(words) => {
                write!(f, "fetches {words} words, and at most 65536 are drawn")
            }
        }
    }
}

impl<A: Allocator> fmt::Display for Refusal<A> {
    fn fmt<W: fmt::Write>(&self, f: &mut fmt::Formatter<W>) -> fmt::Result {
        write!(f, "{}: {}", self.blamed, self.reason)
    }
}
