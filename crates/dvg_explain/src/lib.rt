//! What an input of `dvg` is, and what is wrong with it, told for people. The readers of each kind
//! are asked, so nothing is found that a command doesn't find. Of the texts nothing is proved but
//! that they are written whole: they are tested.
//!
//! This is a command, as faults have fixed texts. No definition has its sentences, nor which of the
//! nearest kinds a text is that no reader takes whole: both can be made better without a proof.
#![tactic(auto)]

mod alike;
mod asking;
mod choosing;
mod engine;
mod explained;
mod faults;
mod forms;
mod frames;
mod hints;
mod kind;
mod lines;
mod looks;
mod mistakes;
mod numbers;
mod places;
mod raw;
mod remarks;
mod sketch_line;
mod telling;
mod unread_log;

pub use engine::explain;
pub use explained::{Explained, LineText};
pub use kind::{Finding, Kind};
pub use sketch_line::explain_line;
pub use unread_log::{UNENDED, UnreadLog};
