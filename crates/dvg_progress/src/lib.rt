//! What comes, comes in time: what follows of every legal log if ticks, strobes and fetches come.
//!
//! That they come is said nowhere. The functions here carry the laws, and do nothing: there is no
//! code.
#![tactic(auto)]

pub mod laws;
