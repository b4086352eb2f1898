//! What is made of a sketch. Its frames are laid out: as their bytes in a half of the vector RAM,
//! or as tables for an assembler; so are the bytes of its ROM, and the names of that. Or its frames
//! are written as drafts without names, or drawn, as SVG. Or the check tells of each, and its
//! picture's time (all formats are this project's own choice).
//!
//! But for drafts, each frame is checked first. A refused one is named by its line of the sketch,
//! or by a word of the ROM. What is laid out is made in memory, so that it can be written whole. A
//! frame is drawn by a run of the generator over a memory that has it.
#![tactic(auto)]

mod drafts;
mod drawing;
mod engine;
mod form;
mod frames;
mod laid;
pub mod laws;
mod laying;
mod making;
mod memory;
mod names;
mod picture;
mod table;
mod text;
mod time;
mod verdicts;
mod walk;

pub use drawing::{SketchPictures, draw_sketch};
pub use engine::lay_sketch;
pub use form::Laid;
pub use laying::lay_tables;
pub use time::PictureTime;
pub use verdicts::{FrameVerdict, Said, check_sketch};
