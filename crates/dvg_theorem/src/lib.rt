//! The theorem: what every legal log shows, whoever made it, and what is drawn of a checked frame
//! that nobody writes to. It stands on definitions alone, and no code is in it.
#![tactic(auto)]

pub mod laws;
