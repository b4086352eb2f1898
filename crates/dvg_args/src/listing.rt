//! The subcommand `list`, and what its option asks for.
ghost use Rattle.std.specs.Prelude.{◌≡◌, IfOk, Some, codes, false};
ghost use Rattle.clap.specs.Words.{app_of, found_of, rows_of};
ghost use Rattle.clap.specs.declared.builder.command.Command.TheViews.{out-Command as fields_of};
ghost use Rattle.dvg_args.specs.Options.{Refuses, list_fault};
ghost use Rattle.dvg_args.specs.Arguments.{IsJob, list_app};

use crate::command::{helped, with_value};
use crate::help;
use crate::options::hex_in;
use clap::error::ErrorKind;
use clap::{ArgMatches, Command};
use dvg_job::Job;
use std::alloc::{AllocError, Global};

/// Which values `--at` takes.
pub(crate) const AT_TAKES: &str = "'--at' takes an address of three hexadecimal digits";

/// Returns the subcommand `list`.
pub(crate) fn list_command<'a>(alloc: Global) -> Result<Command<'a>, AllocError>
    ensures app { IfOk result (λ c. app_of c ≡ list_app) }
    ensures local { IfOk result (λ c. (fields_of c).has_globals ≡ false) }
{
    let about = "List the instructions of words";
    let list = helped(alloc, "list", about, help::LIST_USAGE, help::LIST);
    let at = "Count addresses from this one, three hexadecimal digits";
    with_value(alloc, list, "at", "HHH", at)
}

/// Returns what the option of `list` in `found` asks for. A value that isn't three hexadecimal
/// digits is refused (`InvalidValue`).
pub(crate) fn list_job(found: &ArgMatches) -> Result<Job, ErrorKind>
    ensures ok { IfOk result (λ j. IsJob j (Some (codes "list", rows_of (found_of found.now)))) }
    ensures kinds { Refuses result (list_fault (rows_of (found_of found.now))) }
{
    let Some(text) = found.get_str("at") else {
        return Ok(Job::List);
    };
    match hex_in(3, text) {
        Some(address) => Ok(Job::ListAt { address }),
        None => Err(ErrorKind::InvalidValue),
    }
}
