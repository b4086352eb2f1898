//! What the arguments of the program ask for.
ghost use Rattle.std.specs.Prelude.{◌≡◌, IfErr, IfOk, IfSome, IsNone, Some, map, true};
ghost use Rattle.dvg_args.specs.Options.{Refuses};
ghost use Rattle.dvg_args.specs.Arguments.{IsJob, IsJobName, IsPlainName, TakesArguments};
ghost use Rattle.dvg_args.specs.Arguments.{arguments_fault, dvg_app, options_fault};
ghost use Rattle.clap.specs.Words.{FailsBy, fault_of, found_of, has_subcommand, kind_of, rows_of};
ghost use Rattle.clap.specs.Words.{subcommand_name_of, subcommand_of, subcommand_rows_of, takes};

use crate::command::command;
use crate::common::common_job;
use crate::drawing::{picture_job, play_job, render_job};
use crate::laying::lay_job;
use crate::listing::list_job;
use crate::logging::torn_job;
use crate::misuse::misuse;
use crate::options::is_set;
use clap::error::ErrorKind;
use clap::{ArgMatches, Error};
use dvg_job::Job;
use std::alloc::Global;

// Returns the job of the subcommand `name`, whose options in `found` can't be refused. Returns
// `None` where `name` is none of these subcommands.
fn plain_job(name: &str, found: &ArgMatches) -> Option<Job>
    ensures some { IfSome result (λ j. IsJob j (Some (name.now, rows_of (found_of found.now)))) }
    ensures none { IsNone result → ¬ IsPlainName name.now }
{
    if name == "rom" {
        Some(Job::Rom)
    } else if name == "check" {
        Some(Job::Check {
            bound: is_set(found, "bound"),
        })
    } else if name == "explain" {
        Some(Job::Explain)
    } else if name == "game" {
        Some(Job::Game {
            notes: is_set(found, "notes"),
        })
    } else {
        None
    }
}

// Returns the job that the subcommand `name` asks for with the options in `found`, or the kind of
// error by which they are refused.
fn asked(name: &str, found: &ArgMatches) -> Result<Job, ErrorKind>
    requires { IsJobName name.now }
    ensures ok { IfOk result (λ j. IsJob j (Some (name.now, rows_of (found_of found.now)))) }
    ensures kinds { Refuses result (options_fault (Some (name.now, rows_of (found_of found.now)))) }
{
    if name == "list" {
        return list_job(found);
    }
    if name == "picture" {
        return picture_job(found);
    }
    if name == "play" {
        return play_job(found);
    }
    if name == "render" {
        return render_job(found);
    }
    if name == "lay" {
        return lay_job(found);
    }
    if name == "torn" {
        return torn_job(found);
    }
    match plain_job(name, found) {
        Some(job) => Ok(job),
        None => unreachable!(),
    }
}

// Returns the job of the subcommand that `matches` entered, or the kind of error by which its
// options are refused.
fn entered(matches: &ArgMatches) -> Result<Job, ErrorKind>
    requires some { has_subcommand matches.now ≡ true }
    requires name { IfSome (subcommand_name_of matches.now) IsJobName }
    ensures ok { IfOk result (λ j. IsJob j (subcommand_rows_of matches.now)) }
    ensures kinds { Refuses result (options_fault (subcommand_rows_of matches.now)) }
{
    let Some(entered) = matches.subcommand() else {
        unreachable!()
    };
    asked(entered.0, entered.1)
}

// Matches `arguments`. Arguments that are taken enter a subcommand.
fn matched<'a>(alloc: Global, arguments: &'a [&'a str]) -> Result<ArgMatches<'a>, Error>
    ensures some { IfOk result (λ m. has_subcommand m ≡ true) }
    ensures rows { IfOk result (λ m.
        subcommand_rows_of m ≡ subcommand_of dvg_app (map (λ w. w.now) arguments.entry.now)) }
    ensures err { IfErr result (λ e. takes dvg_app (map (λ w. w.now) arguments.entry.now) ≡ true
        → kind_of e ≡ ErrorKind.OutOfMemory) }
    ensures kinds { FailsBy (fault_of dvg_app (map (λ w. w.now) arguments.entry.now)) result }
{
    command(alloc)?.try_get_matches_from(arguments)
}

/// Returns what `arguments` ask for: the subcommand and the options that they match. The first
/// argument is the program's name, and may be anything.
///
/// An error is help or the version that `arguments` ask for (`DisplayHelp`, `DisplayVersion`), a
/// refusal of arguments that ask for nothing the program can do, or a failed allocation
/// (`OutOfMemory`). Its text is its `Display`.
pub fn job<'a>(alloc: Global, arguments: &'a [&'a str]) -> Result<Job, Error>
    ensures ok { IfOk result (λ j.
        IsJob j (subcommand_of dvg_app (map (λ w. w.now) arguments.entry.now))) }

    // Arguments that are taken fail only where an allocation fails.
    ensures err { IfErr result (λ e. TakesArguments (map (λ w. w.now) arguments.entry.now)
        → kind_of e ≡ ErrorKind.OutOfMemory) }

    // A job is returned only where the arguments come to no kind of error. An error has one of the
    // kinds that they come to, or an allocation failed.
    ensures kinds { FailsBy (arguments_fault (map (λ w. w.now) arguments.entry.now)) result }
{
    if let Some(job) = common_job(arguments) {
        return Ok(job);
    }
    let matches = match matched(alloc, arguments) {
        Ok(matches) => matches,
        Err(error) => return Err(error),
    };
    match entered(&matches) {
        Ok(job) => Ok(job),
        Err(kind) => Err(misuse(alloc, &matches, kind)),
    }
}
