//! The checker of games.
#![tactic(auto)]

mod follow;
mod forced;
mod gather;
mod judging;
mod kind;
mod known;
mod maker;
mod note;
mod offered;
mod program;
mod reach;
mod reason;
mod rules;
mod state;
mod step;
mod work;

pub use follow::{FIRST, PLACES, leads, suits};
pub use judging::{Judged, Verdict, judge};
pub use kind::{Kind, Operand, Register, Sets, kind_of, size};
pub use known::{FAR, Fact, Gap, Known, Unseen, brings_gap, known_at, value};
pub use maker::make;
pub use note::{Change, Held, Level, Note, Slot};
pub use offered::{bad_table, bad_word};
pub use program::{Refusal, boot, check_rules, stands};
pub use reach::{Test, reached};
pub use reason::{Ask, Broken, Rule, all_broken, why};
pub use rules::{BYTES, byte_at, fine, is_driver, word_at};
pub use work::{length_of, target_of};
