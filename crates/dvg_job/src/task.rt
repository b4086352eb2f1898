//! The jobs.
use crate::form::{LayForm, LogRule, PictureForm, Show};

/// What the program has to do.
#[derive(Clone, Copy, Debug, PartialEq, Eq)]
pub enum Job {
    /// List the instructions of words.
    List,
    /// List the instructions of words. The first stands at the word address `address`, 000 to FFF.
    ListAt { address: u16 },
    /// Write a ROM as text.
    Rom,
    /// Show what a dump of the memory draws, as `form` says.
    Picture { form: PictureForm },
    /// Draw what a dump of the memory draws as SVG, in the size `percent`, 10 to 400.
    PictureSvg { percent: u16 },
    /// Check the draft of a text. With `bound`, the bound of a good one is printed, too.
    Check { bound: bool },
    /// Play a trace, with every entry where `all` is set, else its pictures alone. With `banked`
    /// the RAM is kept in banks, else in one array.
    Play { all: bool, banked: bool },
    /// Play a trace, and draw its pictures as SVG, in the size and at the rate of `show`. With
    /// `banked` the RAM is kept in banks, else in one array.
    PlaySvg { banked: bool, show: Show },
    /// Say whether a log tears a picture, by `rule`. With a `base`, 0000 to FFFF, bytes are written
    /// at addresses of the processor, of which this is the RAM's first.
    Torn { rule: LogRule, base: Option<u16> },
    /// Draw the frames of a sketch as SVG, in the size and at the rate of `show`.
    Render { show: Show },
    /// Check the frames of a sketch.
    RenderCheck,
    /// Lay out the frames, the ROM or the names of a sketch, as `form` says.
    Lay { form: LayForm },
    /// Say for which kind an input is taken, and what is wrong with it first.
    Explain,
    /// Say whether a run of a game's bytes may tear a picture. With `notes` what was noted of its
    /// instructions is told, too.
    Game { notes: bool },
}
