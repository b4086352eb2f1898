//! What happens in a world.
ghost use Rattle.std.specs.Prelude.{◌≡◌, ◌⊎◌, [], slice_get};
ghost use Rattle.dvg_log.specs.declared.event.Event.TheVariants.{Tick, Fetch};
ghost use Rattle.dvg_device.specs.Devices.{Numbered};
ghost use Rattle.dvg_device.specs.Generators.{IsAnswerTo};
ghost use Rattle.dvg_device.specs.Worlds.{Happens, Lacks, TellsWorld, WorldAnswers, told_byte};

use crate::driver::DriverFields;
use crate::lone::tell;
use crate::operation::Operation;
use crate::reply::Reply;
use crate::request::{Question, Request};
use dvg_frame::Draft;
use dvg_log::Entry;
use dvg_mem::{Flat, Image, MEMORY_BYTES};
use dvg_world::World;

// Lets `world` do `request`, with `draft` and the staged bytes `staged`. Returns the reply. `image`
// is the room for that of a reset of the whole system.
#[inline(always)]
pub(crate) fn ask_world(
    world: &mut World<Flat>,
    image: &mut Image,
    request: Request,
    draft: &Draft,
    staged: &[u8],
) -> Reply
    ensures { WorldAnswers draft.now staged.now request world.old world.new result }
{
    match request {
        Request::Offer => Reply::Came(world.offer(draft)),
        Request::Redraw => Reply::Came(world.redraw()),
        Request::Tick { .. } => tick_world(world),
        Request::Strobe => Reply::Came(world.strobe()),
        Request::Fetch(_) => fetch_in_world(world),
        Request::ResetGenerator => Reply::Came(world.reset_generator()),
        Request::ResetProcessor => Reply::Came(world.reset_processor()),
        Request::ResetAll => reset_all(world, image, staged),
        Request::Ask(question) => tell_world(world, question),
        _ => Reply::Unknown,
    }
}

// Returns the reply of `world` to `question`.
pub(crate) fn tell_world(world: &World<Flat>, question: Question) -> Reply
    ensures { TellsWorld question world.now result }
{
    match question {
        Question::Byte(address) => byte_of(world, address),
        Question::Driver => driver_of(world),
        Question::Operation(i) => operation_of(world, i),
        question => tell_generator(world, question),
    }
}

// Returns the reply of the generator of `world` to `question`.
fn tell_generator(world: &World<Flat>, question: Question) -> Reply
    ensures { IsAnswerTo question world.now.machine result }
{
    tell(world.generator(), question)
}

// Returns the reply that says which byte the RAM of `world` holds at `address`, if there is one.
fn byte_of(world: &World<Flat>, address: u64) -> Reply
    ensures { result ≡ told_byte address (slice_get world.now.ram address) }
{
    let _ = world.byte(0); // The RAM is an image, so it has 2,048 bytes.
    if address < MEMORY_BYTES as u64 {
        Reply::Byte(address as u16, world.byte(address as u16))
    } else {
        Reply::Nothing
    }
}

// Returns the reply that says what `world` keeps of its driver, and whether a strobe is under way.
fn driver_of(world: &World<Flat>) -> Reply
    ensures { TellsWorld Question.Driver world.now result }
{
    Reply::Driver(DriverFields::of(&world.driver(), world.strobe_sent()))
}

// Returns the reply that says which operation has the number `i` in the frame that the driver of
// `world` writes, if there is one.
fn operation_of(world: &World<Flat>, i: u64) -> Reply
    ensures { TellsWorld (Question.Operation i) world.now result }
{
    let frame = world.driver().frame;
    if i < frame.len() as u64 {
        Reply::Operation(Operation::of(frame.op(i as usize)))
    } else {
        Reply::Nothing
    }
}

// Lets the driver of `world` do one action. Returns the reply.
#[inline(always)]
pub(crate) fn tick_world(world: &mut World<Flat>) -> Reply
    ensures { Happens Tick world.old world.new result }
{
    Reply::Came(Entry::Acted(world.act()))
}

// Lets the generator of `world` fetch one byte. Returns the reply.
#[inline(always)]
pub(crate) fn fetch_in_world(world: &mut World<Flat>) -> Reply
    ensures { Happens Fetch world.old world.new result ⊎ Lacks Fetch world.old world.new result }
{
    match world.fetch() {
        Ok(entry) => Reply::Came(entry),
        Err(_) => Reply::NoMemory,
    }
}

// Lets the generator of `world` fetch one byte. Returns the number of the reply. A low byte is only
// kept, which needs few registers; a high byte takes more, and goes to `fetch_world_high`.
#[inline(always)]
pub(crate) fn fetch_world(world: &mut World<Flat>) -> u64
    ensures { Numbered (λ answer. Happens Fetch world.old world.new answer
        ⊎ Lacks Fetch world.old world.new answer) result }
{
    if world.wants_high() {
        return fetch_world_high(world);
    }
    fetch_in_world(world).number()
}

// Lets the generator of `world` fetch one byte. Returns the number of the reply. It is made for
// high bytes.
#[inline(never)]
pub(crate) fn fetch_world_high(world: &mut World<Flat>) -> u64
    ensures { Numbered (λ answer. Happens Fetch world.old world.new answer
        ⊎ Lacks Fetch world.old world.new answer) result }
{
    fetch_in_world(world).number()
}

// Resets the whole system of `world`, where the bytes `staged` are those of an image, which is made
// in `image`. Returns the reply.
fn reset_all(world: &mut World<Flat>, image: &mut Image, staged: &[u8]) -> Reply
    ensures { WorldAnswers [] staged.now Request.ResetAll world.old world.new result }
{
    if staged.len() != MEMORY_BYTES {
        return Reply::WrongSize;
    }
    image.copy_from(staged);
    Reply::Came(world.reset_all(image))
}
