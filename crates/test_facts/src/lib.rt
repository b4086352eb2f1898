//! What the contracts are worth. Each function here makes public calls of the other crates, and
//! proves a concrete fact of what comes out, from the contracts of those calls and the laws of
//! definitions alone: no body is looked at. A contract that lost its meaning would leave its client
//! unproved, and a fact that is wrong is refused (those of `wrong-bodies.edits`).
#![tactic(auto)]

pub mod boards;
pub mod command_line;
pub mod driver;
pub mod dumps;
pub mod engines;
pub mod frames;
pub mod generator;
pub mod instructions;
pub mod judges;
pub mod limits;
pub mod memories;
pub mod numbered;
pub mod steps;
pub mod texts;
pub mod undisturbed;
pub mod worlds;
