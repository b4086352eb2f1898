//! The error of options that are refused after the matching.
ghost use Rattle.std.specs.Prelude.{◌≡◌, ◌⊎◌};
ghost use Rattle.clap.specs.Words.{kind_of};

use crate::help;
use crate::laying::HALF_TAKES;
use crate::listing::AT_TAKES;
use crate::logging::BASE_TAKES;
use crate::showing::{RATE_TAKES, SCALE_TAKES, has_scale};
use clap::error::ErrorKind;
use clap::{ArgMatches, Command, Error};
use std::alloc::Global;

// Returns how the subcommand `name` is called. For any other name it is how the program is called.
fn usage_of(name: &str) -> &'static str {
    if name == "list" {
        help::LIST_USAGE
    } else if name == "picture" {
        help::PICTURE_USAGE
    } else if name == "play" {
        help::PLAY_USAGE
    } else if name == "render" {
        help::RENDER_USAGE
    } else if name == "lay" {
        help::LAY_USAGE
    } else if name == "torn" {
        help::TORN_USAGE
    } else {
        help::USAGE
    }
}

// Returns which options of the subcommand `name` exclude each other.
fn clash_of(name: &str) -> &'static str {
    if name == "lay" {
        "one of '--half', '--table', '--rom', '--equates' and '--draft' may be given"
    } else if name == "picture" {
        "'--all', '--svg', and '--moves' or '--units' exclude each other"
    } else {
        "'--all' and '--svg' exclude each other"
    }
}

// Returns which values the option takes by which those in `found`, of the subcommand `name`, are
// refused.
fn range_of(name: &str, found: Option<&ArgMatches>) -> &'static str {
    if name == "list" {
        return AT_TAKES;
    }
    if name == "torn" {
        return BASE_TAKES;
    }
    if name == "lay" {
        return HALF_TAKES;
    }
    match found {
        Some(found) if has_scale(found) => RATE_TAKES,
        _ => SCALE_TAKES,
    }
}

// Returns the text for the `kind` of error by which the options in `found`, of the subcommand
// `name`, are refused.
fn described(name: &str, found: Option<&ArgMatches>, kind: ErrorKind) -> &'static str {
    match kind {
        ErrorKind::ArgumentConflict => clash_of(name),
        ErrorKind::MissingRequiredArgument if name == "torn" => "'--all' wants '--moments'",
        ErrorKind::MissingRequiredArgument => "'--scale' and '--rate' want '--svg'",
        _ => range_of(name, found),
    }
}

/// Returns the error of this `kind`, which says why the options in `matches` are refused. Where an
/// allocation fails, it is `OutOfMemory` instead.
pub(crate) fn misuse(alloc: Global, matches: &ArgMatches, kind: ErrorKind) -> Error
    ensures { (kind_of result ≡ kind) ⊎ (kind_of result ≡ ErrorKind.OutOfMemory) }
{
    let (name, found) = match matches.subcommand() {
        Some(entered) => (entered.0, Some(entered.1)),
        None => ("", None),
    };
    let mut command = Command::new(alloc, "dvg").override_usage(usage_of(name));
    match command.error(kind, described(name, found, kind)) {
        Ok(error) => error,
        Err(want) => Error::from(want),
    }
}
