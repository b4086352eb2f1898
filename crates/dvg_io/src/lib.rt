//! Readers and writers whose failures are counted, whole reads and writes through them, and why an
//! engine stops: what all engines of the program `dvg` stand on.
#![tactic(auto)]

mod engine;
mod fault;
mod strokes;
mod text;
mod transfer;
mod watched;

pub use engine::{Engine, serve};
pub use fault::ToolFault;
pub use strokes::{write_strokes, write_strokes_in};
pub use text::Text;
pub use transfer::{collect_words, read_up_to, write_lines, write_whole};
pub use watched::{StreamFailed, Watched};
