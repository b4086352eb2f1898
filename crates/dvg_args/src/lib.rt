//! The arguments of the program `dvg`: its subcommands and options, their help texts, and what the
//! arguments ask for, which is a job of `dvg_job`.
//!
//! The arguments are read by `clap`, with a command that `specs/Arguments.antt` shows whole. A job
//! is returned only where clap's own matching gives it, and an error only of a kind that the
//! arguments can come to; help that was asked for is such an error, too. That options exclude each
//! other, which needs which, and which values they take, are this crate's own rules, after the
//! matching.
//!
//! Of `help` clap says only that it is help or an unknown subcommand, so tests show which. This is
//! a crate apart, as to check what clap says costs much memory.
#![tactic(auto)]

mod arguments;
mod command;
mod common;
mod drawing;
mod help;
pub mod laws;
mod laying;
mod listing;
mod logging;
mod misuse;
mod options;
mod refusal;
mod showing;

pub use arguments::job;
pub use refusal::{MISUSE, arguments_status};
