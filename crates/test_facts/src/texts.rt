//! What follows from the contract of the reader of traces.
ghost use Rattle.std.specs.Prelude.{◌≡◌, IfErr, IfSome};
ghost use Rattle.test_facts.specs.Facts.{one_tick, tick_text};

use dvg_log::Trace;
use dvg_read::{TraceText, Unread, read_trace};
use std::alloc::Global;

/// A `text` that is `tick` denotes one tick. Returns `None` where an allocation fails.
pub fn reads_a_tick(alloc: Global, text: &[u8]) -> Option<Trace<Global>>
    requires { text.now ≡ tick_text }
    ensures { IfSome result (λ events. events ≡ one_tick) }
{
    match read_trace(alloc, text) {
        Ok(trace) => Some(trace.events),
        Err(_) => None,
    }
}

/// The same `text` has no fault.
pub fn tick_has_no_fault(alloc: Global, text: &[u8]) -> Result<TraceText<Global>, Unread>
    requires { text.now ≡ tick_text }
    ensures { IfErr result (λ fault. fault ≡ Unread.Memory) }
{
    read_trace(alloc, text)
}
