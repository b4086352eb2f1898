//! How the program ends where its arguments give no job.
ghost use Rattle.std.specs.Prelude.{◌≡◌};
ghost use Rattle.clap.specs.Words.{kind_of};
ghost use Rattle.dvg_args.specs.Arguments.{error_status};

use clap::Error;
use clap::error::ErrorKind;

/// The exit status of arguments that ask for nothing the program can do.
pub const MISUSE: u8 = 64;

/// Returns the exit status for the `error` of arguments that give no job: 0 where they ask for help
/// or the version, 2 where an allocation failed, and `MISUSE` where they ask for nothing that the
/// program can do (this project's own choice).
pub fn arguments_status(error: &Error) -> u8
    ensures { result ≡ error_status (kind_of error.now) }
{
    match error.kind() {
        ErrorKind::DisplayHelp | ErrorKind::DisplayVersion => 0,
        ErrorKind::OutOfMemory => 2,
        _ => MISUSE,
    }
}
