//! Both ends of the vector RAM together: the driver that writes frames, and the generator that
//! draws them.
//!
//! What happens is a list of events, in any order and number. `run` lets them happen to a new
//! `World`, one after the other, and returns its log, which has one entry for each of them. The
//! crate `dvg_log` has the events, the entries, and the definitions of the logs that the rules
//! allow: `run` returns no other log. The laws, of the crate `dvg_theorem`, say what holds of every
//! such log, and what is drawn of a checked frame that nobody writes to.
#![tactic(auto)]

mod desk;
mod entries;
mod judge;
mod keeping;
mod logging;
mod pictures;
mod runs;
mod state;
mod stopped;
mod world;

pub use desk::Desk;
pub use dvg_log::{Entry, Event, MOST_EVENTS, OwnEntry, OwnEvent, Trace, TraceEvent};
pub use dvg_theorem::laws;
pub use entries::{Entries, EntryRun, EntryRuns};
pub use judge::{Judge, first_torn};
pub use logging::{Logged, log_trace};
pub use pictures::{Drawn, Picture, draw_trace};
pub use runs::{run, run_trace};
pub use state::{WorldRefused, WorldState, WorldStateFault};
pub use stopped::Stopped;
pub use world::World;
