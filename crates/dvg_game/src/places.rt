//! What is at an address that a game must not write, and what to write in place of such a store.
use dvg_io::Text;
use std::alloc::Allocator;
use std::fmt::{self, Write};

/// Tells what is at an address.
pub(crate) fn tell_place<A: Allocator>(out: &mut Text<A>, a: u16) -> fmt::Result {
    match a {
        0x10..=0x20 => write!(out, "the driver's byte {a:02X}"),
        0x100..=0x1FF => write!(out, "the stack"),
        0x2000..=0x2FFF => write!(out, "an input, or the flag"),
        0x3000..=0x31FF => write!(out, "the strobe"),
        0x3200..=0x3FFF => write!(out, "no output that asteroids.inc names"),
        0x4000..=0x47FF => write!(out, "the vector RAM"),
        0x4800..=0x7FFF => write!(out, "ROM"),
        0x8000..=0xFFFF => {
            let mirror = a % 0x8000;
            write!(out, "which the board takes for {mirror:04X}")
        }
        _ => write!(out, "no RAM"),
    }
}

// Returns what to write in place of a store to an address below 8000, behind a colon.
fn cure_of(a: u16) -> &'static str {
    match a {
        0x100..=0x1FF => ": push it, or keep it in page 2",
        0x3200..=0x3FFF => ": an output is written by its name, as WATCHDOG, without an index",
        0x4000..=0x47FF => {
            ": only the driver writes there. Draw by its calls, as dvg_put; if this is a \
             memory test, remove it"
        }
        0x4800..=0x7FFF => ": what changes stands in RAM (.segment \"BSS\")",
        _ => "",
    }
}

/// Returns what to write in place of a store to any address, behind a colon.
pub(crate) fn cure_of_any(a: u16) -> &'static str {
    match a % 0x8000 {
        0x3200..=0x3FFF if 0x8000 <= a => ": write that one, by its name",
        place => cure_of(place),
    }
}

/// The driver's routines that a game may call.
const ROUTINES: [(u16, &str); 12] = [
    (0x6800, "dvg_reset"),
    (0x6809, "dvg_run"),
    (0x6860, "dvg_ticks"),
    (0x686A, "dvg_tick"),
    (0x68FE, "dvg_offer"),
    (0x6924, "dvg_open"),
    (0x6943, "dvg_redraw"),
    (0x6957, "dvg_put"),
    (0x6979, "dvg_labs"),
    (0x6989, "dvg_pair"),
    (0x6A00, "dvg_close"),
    (0x6A17, "dvg_vector"),
];

/// Returns the name of a routine of the driver, or nothing.
pub(crate) fn routine(a: u16) -> &'static str {
    for (at, name) in ROUTINES {
        if at == a {
            return name;
        }
    }
    ""
}
