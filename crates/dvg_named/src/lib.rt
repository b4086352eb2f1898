//! Sketches as texts: drafts with names, of one or more frames, and the shapes of their ROM (the
//! format is this project's own choice). All lines of a text are read, each within the limits, or
//! up to the first line at fault. Of all lines come the frames, with the line of each operation,
//! the bytes of the ROM and its names, or the first line that needs a name which no line gives.
//! Each text has one meaning at most, and one fault, and never both.
#![tactic(auto)]

mod addresses;
mod drafting;
pub mod examples;
mod flat_draft;
mod frame_rows;
mod joining;
mod laid;
pub mod laws;
mod meaning;
mod reading;
mod rom_sections;
mod rom_words;
mod sketch;
mod stated_rom;
mod text_reading;
mod unknown;

pub use dvg_rows::{Doing, Head, MAX_TOKENS, Row, Source, read_head, read_row, tokens_of};
pub use joining::{FrameSpan, JoinedFrames};
pub use meaning::{NamedFrame, RomName};
pub use sketch::{Sketch, read_sketch};
