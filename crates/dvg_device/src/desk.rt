//! A driver alone. It has a ROM, over which drafts are checked: the headline is of one ROM, that of
//! the generator.
ghost use Rattle.std.specs.Prelude.{◌≡◌};
ghost use Rattle.dvg_device.specs.Drivers.{DriverAnswers, OfAction};
ghost use Rattle.dvg_world.specs.Desks.{TickAnswers};

use crate::reply::Reply;
use crate::request::Request;
use dvg_frame::Draft;
use dvg_log::Entry;
use dvg_world::Desk;

// Lets the driver of `desk` do one action. Returns the reply. `halted` is the HALT flag, and
// `byte1` is byte 001 of the RAM.
#[inline(always)]
pub(crate) fn tick_driver(desk: &mut Desk, halted: bool, byte1: u8) -> Reply
    ensures rom { desk.new.rom ≡ desk.old.rom }
    ensures answers { OfAction (TickAnswers halted byte1 desk.old.driver desk.new.driver) result }
{
    Reply::Came(Entry::Acted(desk.tick(halted, byte1)))
}

// Lets the driver of `desk` do `request`, with `draft`. Returns the reply.
#[inline(always)]
pub(crate) fn ask_driver(desk: &mut Desk, request: Request, draft: &Draft) -> Reply
    ensures rom { desk.new.rom ≡ desk.old.rom }
    ensures answers { DriverAnswers desk.old.rom draft.now request desk.old.driver desk.new.driver
        result }
{
    match request {
        Request::Offer => Reply::Came(desk.offer(draft.ops())),
        Request::Redraw => Reply::Came(desk.redraw()),
        Request::Tick { halted, byte1 } => tick_driver(desk, halted, byte1),
        Request::ResetProcessor => {
            desk.reset();
            Reply::Came(Entry::Cleared)
        }
        _ => Reply::Unknown,
    }
}
