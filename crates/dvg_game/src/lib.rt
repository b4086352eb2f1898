//! The engine `game` of the program `dvg`: what the checker of games says of a program, and of each
//! instruction that it refuses why, for people.
#![tactic(auto)]

mod alone;
mod asks;
mod bringer;
mod early;
mod engine;
mod hints;
mod instruction;
mod notes;
mod order;
mod places;
mod program;
mod reasons;
mod search;
mod summary;
mod telling;
mod told;
mod unseen;
mod vectors;

pub use engine::{GAME_BYTES, game};
pub use told::{PlaceLine, Told};
