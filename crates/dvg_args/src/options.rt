//! What the options of a subcommand say.
ghost use Rattle.std.specs.Prelude.{◌≡◌, ◌<◌, ◌≤◌};
ghost use Rattle.clap.specs.Words.{found_of, rows_of};
ghost use Rattle.dvg_args.specs.Options as spec;
ghost use Rattle.dvg_args.specs.Options.{gives, sets};

use clap::ArgMatches;

/// Whether `found` sets the flag `id`.
pub(crate) fn is_set(found: &ArgMatches, id: &str) -> bool
    ensures { result ≡ sets id.now (rows_of (found_of found.now)) }
{
    match found.get_str(id) {
        Some(text) => text == "true",
        None => false,
    }
}

/// Whether `found` gives the option `id` a value.
pub(crate) fn is_given(found: &ArgMatches, id: &str) -> bool
    ensures { result ≡ gives id.now (rows_of (found_of found.now)) }
{
    found.get_str(id).is_some()
}

// Returns the number that `text` writes in decimal, if it is from `least` to `most`.
fn number_in(least: u16, most: u16, text: &str) -> Option<u16>
    ensures { result ≡ spec.number_in least most text.now }
{
    let Ok(number) = text.parse::<u16>() else {
        return None;
    };
    if number < least || most < number {
        return None;
    }
    Some(number)
}

/// Returns the number that `found` gives for the option `id`, or `default` where it isn't given.
/// Returns `None` where the value isn't a number from `least` to `most`.
pub(crate) fn number_of(
    found: &ArgMatches,
    id: &str,
    least: u16,
    most: u16,
    default: u16,
) -> Option<u16>
    ensures { result ≡ spec.number_of id.now least most default (rows_of (found_of found.now)) }
{
    match found.get_str(id) {
        Some(text) => number_in(least, most, text),
        None => Some(default),
    }
}

/// Returns the number that `text` writes, if it is so many hexadecimal `digits` of either case, 1
/// to 4.
pub(crate) fn hex_in(digits: usize, text: &str) -> Option<u16>
    requires { (0 < digits) × (digits ≤ 4) }
    ensures { result ≡ spec.hex_in digits text.now }
{
    let bytes = text.as_bytes();
    if bytes.len() != digits || bytes[0] == b'+' {
        return None;
    }
    match u16::from_str_radix(text, 16) {
        Ok(address) => Some(address),
        Err(_) => None,
    }
}
