//! A generator alone whose stack wraps. A request of its own opens it: else a run breaks where
//! documents have no rule.
ghost use Rattle.std.specs.Prelude.{◌≡◌, ◌⊎◌, [], slice_get};
ghost use Rattle.dvg_gen.specs.Told.{wants};
ghost use Rattle.dvg_device.specs.Generators.{told_return, wanting};
ghost use Rattle.dvg_device.specs.Wrappings.{FetchesWrapped, LacksRoomWrapped, OfWraps};
ghost use Rattle.dvg_device.specs.States.{CanBeSaved, parts_of, told_part};
ghost use Rattle.dvg_device.specs.Wrappings.{StaysStillWrapped, TellsWrapped, WrappingAnswers};
ghost use Rattle.dvg_device.specs.Wrappings.{saved_of};

use crate::lone::{held, is_saved, onward, part, tell, told_part, wanted};
use crate::reply::Reply;
use crate::request::{Question, Request};
use dvg_gen::{STACK_DEPTH, WrappingGenerator};
use dvg_log::Entry;
use std::alloc::Global;

// Lets `generator` do `request`. Returns the reply.
#[inline(never)]
pub(crate) fn ask_wrapping(generator: &mut WrappingGenerator<Global>, request: Request) -> Reply
    ensures { WrappingAnswers request generator.old generator.new result }
{
    match request {
        Request::Strobe => {
            generator.start();
            Reply::Onward(Entry::Started, 0, false)
        }
        Request::ResetGenerator => {
            generator.reset();
            Reply::Came(Entry::Cleared)
        }
        Request::Wants => wanted_wrapping(generator),
        Request::Fetch(byte) => fetch_wrapping(generator, byte),
        Request::Ask(question) => tell_wrapping(generator, question),
        _ => Reply::Unknown,
    }
}

// Returns the reply of `generator` that says which byte is wanted next.
#[inline(always)]
pub(crate) fn wanted_wrapping(generator: &WrappingGenerator<Global>) -> Reply
    ensures { OfWraps generator.now (λ history low run. result ≡ wanting (wants run) low) }
{
    wanted(generator.generator())
}

// Returns the reply of `generator` to `question`.
pub(crate) fn tell_wrapping(generator: &WrappingGenerator<Global>, question: Question) -> Reply
    ensures { TellsWrapped question generator.now result }
{
    match question {
        Question::Holds => held(generator.generator(), STACK_DEPTH as u16, true),
        Question::ReturnTo(i) => register(generator, i),
        Question::State(i) => state(generator, i),
        question => tell(generator.generator(), question),
    }
}

// Returns the reply that says what register `i` of `generator` has, from 0, the newest one.
fn register(generator: &WrappingGenerator<Global>, i: u64) -> Reply
    ensures { result ≡ told_return (slice_get generator.now.registers i) }
{
    let registers: &[u16] = generator.registers();
    if i < registers.len() as u64 {
        Reply::ReturnsTo(registers[i as usize])
    } else {
        Reply::Nothing
    }
}

// Returns the reply that says what part `i` of the state of `generator` is, from 0.
fn state(generator: &WrappingGenerator<Global>, i: u64) -> Reply
    ensures stack { generator.now.machine.stack ≡ [] }
    ensures saved { OfWraps generator.now (λ history low run. CanBeSaved (saved_of generator.now)) }
    ensures told { result ≡ told_part (slice_get (parts_of (saved_of generator.now)) i) }
{
    let state = generator.state();
    is_saved(&state);
    told_part(part(&state, generator.generator(), i))
}

// Hands `byte` to `generator`, where `None` is a hole. Returns the reply.
pub(crate) fn fetch_wrapping(generator: &mut WrappingGenerator<Global>, byte: Option<u8>) -> Reply
    ensures { FetchesWrapped byte generator.old generator.new result
        ⊎ (LacksRoomWrapped byte generator.old generator.new result
        ⊎ StaysStillWrapped generator.old generator.new result) }
{
    let Some(address) = generator.generator().wants() else {
        return Reply::Came(Entry::Still);
    };
    let low = generator.generator().low_byte();
    match generator.feed(byte) {
        Ok(step) => onward(
            Entry::of_fetch(address, low, byte, step, ()),
            generator.generator(),
        ),
        Err(_) => Reply::NoMemory,
    }
}
