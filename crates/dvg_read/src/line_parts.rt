//! The parts of a line of a text.
ghost use Rattle.std.specs.Prelude.{◌≡◌, ◌<◌, length, IfNone, IfSome};
ghost use Rattle.dvg_read.specs.LineParts.{bytes_of};
ghost use Rattle.dvg_read.specs.Texts.{parts};

use arrayvec::ArrayVec;

/// The most parts that a line of a text has: a ROM line of eight words has so many.
pub const MAX_PARTS: usize = 10;

/// Returns the parts of `line`, which is cut at each space. Returns `None` where there are more
/// than ten.
pub fn parts_of(line: &[u8]) -> Option<ArrayVec<&[u8], MAX_PARTS>>
    ensures found { IfSome result (λ found. bytes_of found.items ≡ parts line.now) }
    ensures many { IfNone result (MAX_PARTS < length (parts line.now)) }
{
    let mut found = ArrayVec::new();
    match found.extend(line.split(|byte| *byte == b' ')) {
        Ok(()) => Some(found),
        Err(_) => None,
    }
}
