//! Frames: drafts, their layout, and the check.
//!
//! A draft is a list of operations: instructions that draw, jumps and calls to operations of the
//! draft and to words of the vector ROM, returns and halts. Laid out for a half of the vector RAM
//! it is the concatenation of the canonical words of its operations, from the half's first word on.
//! A frame is a draft that was checked: whatever is drawn of it, its run stays in its words and in
//! the ROM's, never opens more than four calls, and never returns without a call.
//!
//! Drafts and their check are this project's own; the words are those of Atari's DVG documentation
//! and of Margolin's *The Secret Life of Vector Generators*. No call of this crate takes memory.
#![tactic(auto)]

mod checked;
mod checking;
mod counted;
mod cursor;
mod draft;
mod fault;
mod frame;
pub mod laws;
mod op;
mod place;
mod word_bytes;

pub use checked::Checked;
pub use checking::{Checker, check};
pub use cursor::Cursor;
pub use draft::{Draft, DraftFull, MAX_OPS};
pub use fault::FrameFault;
pub use frame::Frame;
pub use op::{Op, OpKind};
pub use place::Place;
