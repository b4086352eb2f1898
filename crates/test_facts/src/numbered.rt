//! What follows from the contracts of a device's calls.
ghost use Rattle.std.specs.Prelude.{◌≡◌, ◌+◌, ◌^◌, IfSome};
ghost use Rattle.dvg_device.specs.declared.reply.Reply.TheVariants.{Came};
ghost use Rattle.dvg_log.specs.declared.entry.Entry.TheVariants.{Acted};

use dvg_device::{Device, Reply, Request};
use dvg_driver::Action;
use std::alloc::Global;

/// A generator alone opens (22), begins a run (10, and bit 60 says that the byte at address 0 is
/// wanted), and needs the low byte of word zero (25).
pub fn wants_word_zero(alloc: Global) -> (u64, u64, u64)
    ensures { result ≡ (22, 10 + 2 ^ 60, 25) }
{
    let mut device = Device::new(alloc);
    let opened = device.turn(14);
    let started = device.turn(3);
    (opened, started, device.turn(16))
}

/// Handed the low byte 0 of word zero, a generator alone answers that (12), and that it wants the
/// byte at address 1 next.
pub fn wants_the_high_byte(alloc: Global) -> u64
    ensures { result ≡ 12 + 2 ^ 60 + 2 ^ 40 }
{
    let mut device = Device::new(alloc);
    let _ = device.turn(14);
    let _ = device.turn(3);
    device.turn(4)
}

/// A world that opens in a device, over a RAM and a ROM of zeros, peeks at its first tick. Returns
/// `None` where an allocation fails.
pub fn peeks_in_a_world(alloc: Global) -> Option<Reply>
    ensures { IfSome result (λ reply. reply ≡ Came (Acted Action.Peek)) }
{
    let mut device = Device::new(alloc);
    let _ = device.answer(Request::Stage {
        byte: 0,
        count: 4096,
    });
    match device.answer(Request::OpenWorld) {
        Reply::Opened => Some(device.answer(Request::Tick {
            halted: false,
            byte1: 0,
        })),
        _ => None,
    }
}
