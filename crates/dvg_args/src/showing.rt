//! The options `--scale` and `--rate`, how large pictures are shown, and how fast: their names,
//! helps and ranges (this project's own choice).
ghost use Rattle.std.specs.Prelude.{◌≡◌, IfNone, IfOk, IfSome, codes, false};
ghost use Rattle.clap.specs.Words.{app_of, found_of, rows_of};
ghost use Rattle.clap.specs.declared.builder.command.Command.TheViews.{out-Command as fields_of};
ghost use Rattle.dvg_args.specs.Arguments as spec;
ghost use Rattle.dvg_args.specs.Options.{Shows, percent_of, shows_well};

use crate::command::with_value;
use crate::options::number_of;
use clap::{ArgMatches, Command};
use dvg_job::Show;
use std::alloc::{AllocError, Global};

/// The least size, in percent.
pub(crate) const LEAST_PERCENT: u16 = 10;

/// The greatest size.
pub(crate) const MOST_PERCENT: u16 = 400;

/// The size where none is given.
pub(crate) const USUAL_PERCENT: u16 = 100;

/// Which sizes are taken.
pub(crate) const SCALE_TAKES: &str = "'--scale' takes a number from 10 to 400";

/// The help of `--scale`.
const SCALE: &str = "Show pictures in this size in percent, 10 to 400 [default: 100]";

/// The least rate, in pictures a second.
pub(crate) const LEAST_RATE: u16 = 1;

/// The greatest rate.
pub(crate) const MOST_RATE: u16 = 60;

/// The rate where none is given.
pub(crate) const USUAL_RATE: u16 = 30;

/// Which rates are taken.
pub(crate) const RATE_TAKES: &str = "'--rate' takes a number from 1 to 60";

/// The help of `--rate`.
const RATE: &str = "Show so many pictures a second, 1 to 60 [default: 30]";

/// Returns the command `part` with the size of pictures as one more option.
pub(crate) fn with_scale<'a>(alloc: Global, part: Command<'a>) -> Result<Command<'a>, AllocError>
    requires { (fields_of part).has_globals ≡ false }
    ensures app { IfOk result (λ c.
        app_of c ≡ spec.with_value (app_of part.entry) (codes "scale")) }
    ensures local { IfOk result (λ c. (fields_of c).has_globals ≡ false) }
{
    with_value(alloc, part, "scale", "N", SCALE)
}

/// Returns the command `part` with the size and the rate of pictures as further options.
pub(crate) fn with_show<'a>(alloc: Global, part: Command<'a>) -> Result<Command<'a>, AllocError>
    requires { (fields_of part).has_globals ≡ false }
    ensures app { IfOk result (λ c. app_of c ≡ spec.showing (app_of part.entry)) }
    ensures local { IfOk result (λ c. (fields_of c).has_globals ≡ false) }
{
    let scaled = with_scale(alloc, part)?;
    with_value(alloc, scaled, "rate", "N", RATE)
}

// Returns the size that `found` gives, or else the usual one. Returns `None` where it is none.
fn read_percent(found: &ArgMatches) -> Option<u16>
    ensures { result ≡ percent_of (rows_of (found_of found.now)) }
{
    number_of(found, "scale", LEAST_PERCENT, MOST_PERCENT, USUAL_PERCENT)
}

/// Whether the size that `found` gives is in range, or none is given.
pub(crate) fn has_scale(found: &ArgMatches) -> bool {
    read_percent(found).is_some()
}

/// Returns the size and the rate that `found` gives, or else the usual ones. Returns `None` where
/// one of them is out of range.
pub(crate) fn read_show(found: &ArgMatches) -> Option<Show>
    ensures some { IfSome result (Shows (rows_of (found_of found.now))) }
    ensures none { IfNone result (shows_well (rows_of (found_of found.now)) ≡ false) }
{
    let Some(percent) = read_percent(found) else {
        return None;
    };
    let Some(rate) = number_of(found, "rate", LEAST_RATE, MOST_RATE, USUAL_RATE) else {
        return None;
    };
    Some(Show { percent, rate })
}
