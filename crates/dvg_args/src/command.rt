//! The program's command, as `clap` reads it. A subcommand whose options may be refused stands in a
//! file with what its options ask for. `render`, `lay`, `explain` and `--svg` are for authors of
//! pictures, and `game` for those of games; there is no `draw`.
ghost use Rattle.std.specs.Prelude.{◌≡◌, IfOk, codes, false};
ghost use Rattle.clap.specs.Words.{app_of, new_app, rule_of, with_rule, with_subcommand};
ghost use Rattle.clap.specs.declared.builder.command.Command.TheViews.{out-Command as fields_of};
ghost use Rattle.dvg_args.specs.Arguments as spec;
ghost use Rattle.dvg_args.specs.Arguments.{check_app, dvg_app, flag, game_app, program_app, valued};

use crate::drawing::{picture_command, play_command, render_command};
use crate::help;
use crate::laying::lay_command;
use crate::listing::list_command;
use crate::logging::torn_command;
use clap::{Arg, ArgAction, Command};
use std::alloc::{AllocError, Global};

/// Returns the command `name` with its help: `about` says what it does, `usage` how it is called,
/// and `details` what it reads and writes.
pub(crate) fn helped<'a>(
    alloc: Global,
    name: &'a str,
    about: &'a str,
    usage: &'a str,
    details: &'a str,
) -> Command<'a>
    ensures app { app_of result ≡ new_app name.entry.now }
    ensures local { (fields_of result).has_globals ≡ false }
{
    Command::new(alloc, name)
        .about(about)
        .override_usage(usage)
        .after_help(details)
}

// Returns the option `--option`, which is given or not. `details` is its help.
fn flag<'a>(alloc: Global, option: &'a str, details: &'a str) -> Arg<'a>
    ensures rule { rule_of result ≡ flag option.entry.now }
    ensures local { result.global ≡ false }
{
    Arg::new(alloc, option)
        .long(option)
        .help(details)
        .action(ArgAction::SetTrue)
}

// Returns the option `--option`, which takes a value. The help calls that `value`, and says
// `details`.
fn valued<'a>(alloc: Global, option: &'a str, value: &'a str, details: &'a str) -> Arg<'a>
    ensures rule { rule_of result ≡ valued option.entry.now }
    ensures local { result.global ≡ false }
{
    Arg::new(alloc, option)
        .long(option)
        .value_name(value)
        .help(details)
        .action(ArgAction::Set)
}

/// Returns the command `part` with one more option, `--option`, which is given or not. Returns
/// `AllocError` where an allocation fails.
pub(crate) fn with_flag<'a>(
    alloc: Global,
    part: Command<'a>,
    option: &'a str,
    details: &'a str,
) -> Result<Command<'a>, AllocError>
    requires { (fields_of part).has_globals ≡ false }
    ensures app { IfOk result (λ c.
        app_of c ≡ spec.with_flag (app_of part.entry) option.entry.now) }
    ensures local { IfOk result (λ c. (fields_of c).has_globals ≡ false) }
{
    part.arg(flag(alloc, option, details))
}

/// Returns the command `part` with one more option, `--option`, which takes a value. Returns
/// `AllocError` where an allocation fails.
pub(crate) fn with_value<'a>(
    alloc: Global,
    part: Command<'a>,
    option: &'a str,
    value: &'a str,
    details: &'a str,
) -> Result<Command<'a>, AllocError>
    requires { (fields_of part).has_globals ≡ false }
    ensures app { IfOk result (λ c.
        app_of c ≡ spec.with_value (app_of part.entry) option.entry.now) }
    ensures local { IfOk result (λ c. (fields_of c).has_globals ≡ false) }
{
    part.arg(valued(alloc, option, value, details))
}

// Returns the subcommand `check`.
fn check_command<'a>(alloc: Global) -> Result<Command<'a>, AllocError>
    ensures app { IfOk result (λ c. app_of c ≡ check_app) }
    ensures local { IfOk result (λ c. (fields_of c).has_globals ≡ false) }
{
    let about = "Say whether a draft may be drawn";
    let usage = "dvg check [--bound] < DRAFT";
    let check = helped(alloc, "check", about, usage, help::CHECK);
    let bound = "Also tell how many words the whole run of a good draft fetches";
    with_flag(alloc, check, "bound", bound)
}

// Returns the subcommand `game`.
fn game_command<'a>(alloc: Global) -> Result<Command<'a>, AllocError>
    ensures app { IfOk result (λ c. app_of c ≡ game_app) }
    ensures local { IfOk result (λ c. (fields_of c).has_globals ≡ false) }
{
    let about = "Say whether a run of a game's bytes may tear a picture";
    let game = helped(alloc, "game", about, help::GAME_USAGE, help::GAME);
    let notes = "Also tell what was noted of each instruction";
    with_flag(alloc, game, "notes", notes)
}

// Returns the program's command without its subcommands.
fn program<'a>(alloc: Global) -> Command<'a>
    ensures app { app_of result ≡ program_app }
    ensures local { (fields_of result).has_globals ≡ false }
{
    let about = "List, check, draw and play display lists of the Digital Vector Generator (DVG)";
    helped(alloc, "dvg", about, help::USAGE, help::PROGRAM)
        .version(help::VERSION)
        .subcommand_required(true)
}

// Returns the command `program` with `part` as one more subcommand.
fn with_part<'a>(program: Command<'a>, part: Command<'a>) -> Result<Command<'a>, AllocError>
    requires program { (fields_of program).has_globals ≡ false }
    requires part { (fields_of part).has_globals ≡ false }
    ensures app { IfOk result (λ c.
        app_of c ≡ with_subcommand (app_of program.entry) (app_of part.entry).top) }
    ensures local { IfOk result (λ c. (fields_of c).has_globals ≡ false) }
{
    program.subcommand(part)
}

/// Returns the program's command, with its memory from `alloc`. Returns `AllocError` where an
/// allocation fails.
pub(crate) fn command<'a>(alloc: Global) -> Result<Command<'a>, AllocError>
    ensures app { IfOk result (λ c. app_of c ≡ dvg_app) }
    ensures local { IfOk result (λ c. (fields_of c).has_globals ≡ false) }
{
    let rom_usage = "dvg rom < ROM";
    let rom = helped(alloc, "rom", "Write a ROM as text", rom_usage, help::ROM);
    let with_list = with_part(program(alloc), list_command(alloc)?)?;
    let with_rom = with_part(with_list, rom)?;
    let with_picture = with_part(with_rom, picture_command(alloc)?)?;
    let with_check = with_part(with_picture, check_command(alloc)?)?;
    let with_play = with_part(with_check, play_command(alloc)?)?;
    let with_torn = with_part(with_play, torn_command(alloc)?)?;
    let with_render = with_part(with_torn, render_command(alloc)?)?;
    let with_lay = with_part(with_render, lay_command(alloc)?)?;
    let about = "Say what an input is, what is wrong with it, and what to do";
    let explain_usage = "dvg explain < INPUT";
    let explain = helped(alloc, "explain", about, explain_usage, help::EXPLAIN);
    let with_explain = with_part(with_lay, explain)?;
    with_part(with_explain, game_command(alloc)?)
}
