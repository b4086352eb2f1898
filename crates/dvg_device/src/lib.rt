//! Both ends of the vector RAM, and each end alone, asked by plain numbers: for callers whose code
//! isn't proved, in other languages too.
//!
//! A `Device` is asked by a number of 64 bits, and returns one (`turn`). Nothing is required of a
//! caller: each number is a request, in each order, and each has a reply. What opens in a device is
//! one of four:
//!
//! - a *world*: both ends, over a RAM and a ROM that it holds. All that it keeps is told, and
//!   another one over that ROM goes on so;
//! - a *driver* alone: it is handed the HALT flag and byte 001 of a RAM, and returns what is to be
//!   written there;
//! - a *generator* alone: it says which byte is wanted next, is handed it, and returns the
//!   strokes of a whole run. Its state is told in parts, and another one begins in it. There is one
//!   whose stack wraps, too;
//! - a *judge* of moments: it is told the log of any system, a line at a time, and says of each run
//!   whether it is consistent.
//!
//! `Request` and `Reply` say the same by types, with the numbers of each; a caller in Rattle asks
//! by `answer`. That requests and replies are numbers, and which, is this project's own choice.
//!
//! One number asks and one answers: so one function is proved down to the memory that its pointer
//! names, and no struct crosses. Bits of a number without a meaning may be any.
#![tactic(auto)]

mod cabinet;
mod desk;
mod device;
mod driver;
mod happening;
mod judging;
pub mod laws;
mod lone;
mod operation;
mod reply;
mod request;
mod state;
mod waiting;
mod wrapping;

pub use device::{Device, MOST_STAGED};
pub use driver::DriverFields;
pub use judging::JudgeLine;
pub use operation::Operation;
pub use reply::{Reply, RunState};
pub use request::{Question, Request};
pub use state::StatePart;
