//! Frames as they lie in a half.
ghost use Rattle.std.specs.Prelude.{◌≡◌, ◌++◌, OnOk};
ghost use Rattle.dvg_frame.specs.Bytes.{bytes};
ghost use Rattle.dvg_frame.specs.Layout.{laid};

use dvg_frame::{Checked, Cursor};
use dvg_mem::Half;
use std::alloc::{AllocError, Allocator};

/// Appends the bytes of `frame` as it lies in `half` to `text`, the low byte of each word first.
/// Returns `AllocError` where an allocation fails.
pub(crate) fn put_laid<A: Allocator>(
    text: &mut Vec<u8, A>,
    frame: &Checked,
    half: Half,
) -> Result<(), AllocError>
    ensures { OnOk result (text.new.items
        ≡ text.old.items ++ bytes (laid half frame.now.operations)) }
{
    for item in Cursor::of(frame, half) {
        text.push(item.1)?;
    }
    Ok(())
}
