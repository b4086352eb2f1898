//! The laws of what is said of drafts, and the limits of texts as numbers. Clauses cite a limit by
//! its name, so a wrong number in a source would change what they say: here it is refused.
ghost use Rattle.std.specs.Prelude.{◌≡◌};
ghost use Rattle.dvg_tool.specs.CheckLaws.{OneBoundedVerdict, OneVerdict};

use crate::lists::MOST_LIST_BYTES;
use dvg_frame::MAX_OPS;
use dvg_log::MOST_EVENTS;
use dvg_read::MOST_TEXT_BYTES;

/// At most one verdict is given of a text.
pub fn one_verdict()
    ensures { OneVerdict }
{}

/// At most one verdict with its bound is given of a text.
pub fn one_bounded_verdict()
    ensures { OneBoundedVerdict }
{}

/// The operations of a draft: at most 511.
pub fn most_operations() -> usize
    ensures { result ≡ 511 }
{
    MAX_OPS
}

/// The bytes of a text: at most 1,048,576.
pub fn longest_text() -> usize
    ensures { result ≡ 1048576 }
{
    MOST_TEXT_BYTES
}

/// The events of a trace: at most 65,536.
pub fn most_events() -> usize
    ensures { result ≡ 65536 }
{
    MOST_EVENTS
}

/// The bytes of `list`: at most 8,192.
pub fn most_listed() -> usize
    ensures { result ≡ 8192 }
{
    MOST_LIST_BYTES
}
