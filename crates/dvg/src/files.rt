//! Arguments that are perhaps the names of files.

use arrayvec::ArrayVec;
use clap::Error;
use std::fmt::{self, Write};

/// How the refusal of an argument begins that no subcommand takes. The argument follows.
const UNEXPECTED: &[u8] = b"error: unexpected argument '";

/// The first bytes of a text: as many as tell how an argument begins.
#[derive(Drop)]
struct Front {
    bytes: ArrayVec<u8, 32>,
}

impl fmt::Write for Front {
    fn write_str(&mut self, part: &str) -> fmt::Result {
        for byte in part.as_bytes() {
            if self.bytes.try_push(*byte).is_err() {
                return Ok(());
            }
        }
        Ok(())
    }
}

/// Returns whether `error` is of an argument that is no option, such as the name of a file.
pub(crate) fn is_of_a_word(error: &Error) -> bool {
    let mut front = Front {
        bytes: ArrayVec::new(),
    };
    if write!(front, "{error}").is_err() {
        return false;
    }
    match front.bytes.as_slice().strip_prefix(UNEXPECTED) {
        Some([first, ..]) => *first != b'-' && *first != b'\'',
        _ => false,
    }
}
