//! What a dump of vector memory draws, or why that has no end: the run of the generator over a RAM
//! and a ROM that don't change.
//!
//! The run is that of a new generator, which is started once. It ends at HALT or at a fault, and
//! isn't followed past 65,536 words (this project's own choice). A memory that doesn't change has
//! exactly one such end, as the law `one_end` says.
#![tactic(auto)]

mod dump;
mod ending;
mod follower;
pub mod laws;
mod ran;
mod runs;
mod tracer;

pub use dump::{Dump, DumpFault, LARGE_DUMP_BYTES, SMALL_DUMP_BYTES};
pub use ending::{Ending, Outcome};
pub use follower::Follower;
pub use ran::Ran;
pub use runs::{MOST_WORDS, Traced};
