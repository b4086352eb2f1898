//! A generator alone.
ghost use Rattle.std.specs.Prelude.{◌≡◌, ◌⊎◌, ◌<◌, ◌≤◌, length, reverse, slice_get, IfSome};
ghost use Rattle.dvg_gen.specs.Saved.{machine_of};
ghost use Rattle.dvg_gen.specs.Told.{wants};
ghost use Rattle.dvg_gen.specs.declared.TheConstants.{STACK_DEPTH};
ghost use Rattle.dvg_device.specs.Devices.{Numbered};
ghost use Rattle.dvg_device.specs.Generators.{Fetches, GeneratorAnswers, IsAnswerTo, LacksRoom};
ghost use Rattle.dvg_device.specs.Generators.{OfHistories, StaysStill, WantsNext, told_end};
ghost use Rattle.dvg_device.specs.Generators.{told_held, told_move};
ghost use Rattle.dvg_device.specs.States.{CanBeSaved, drawing_parts, drawn_so_far, part_of_stroke};
ghost use Rattle.dvg_device.specs.States.{parts_of, told_part, with_stack};
ghost use Rattle.dvg_device.specs.declared.state.StatePart.TheVariants.{Fields};
ghost use Rattle.dvg_device.specs.Generators.{onward, told_return, wanting};

use crate::reply::{Reply, bit};
use crate::request::{Question, Request};
use crate::state::StatePart;
use dvg_gen::{Generator, GeneratorState, Move, Stroke};
use dvg_log::Entry;
use std::alloc::Global;

// Lets `generator` do `request`. Returns the reply.
#[inline(always)]
pub(crate) fn ask_generator(generator: &mut Generator<Global>, request: Request) -> Reply
    ensures { GeneratorAnswers request generator.old generator.new result }
{
    match request {
        Request::Strobe => {
            generator.start();
            Reply::Onward(Entry::Started, 0, false)
        }
        Request::ResetGenerator => {
            generator.reset();
            Reply::Came(Entry::Cleared)
        }
        Request::Wants => wanted(generator),
        Request::Fetch(byte) => fetch(generator, byte),
        Request::Ask(question) => tell(generator, question),
        _ => Reply::Unknown,
    }
}

// Returns the reply of `generator` to `question`.
pub(crate) fn tell(generator: &Generator<Global>, question: Question) -> Reply
    ensures { IsAnswerTo question generator.now result }
{
    match question {
        Question::Move(byte) => move_of(generator.move_by(byte)),
        Question::MoveTo(byte) => end_of(generator.move_by(byte), generator),
        Question::Beam => place_of(generator),
        Question::Holds => held(generator, generator.return_addresses().len() as u16, false),
        Question::ReturnTo(i) => return_address(generator, i),
        Question::State(i) => state(generator, i),
        Question::Byte(_) | Question::Driver | Question::Operation(_) => Reply::Unknown,
    }
}

// Returns the reply of `generator` that says which byte is wanted next.
pub(crate) fn wanted(generator: &Generator<Global>) -> Reply
    ensures { OfHistories generator.now (λ history low run. result ≡ wanting (wants run) low) }
{
    match generator.wants() {
        Some(address) => Reply::Wants(address, generator.wants_high()),
        None => Reply::Came(Entry::Still),
    }
}

// Returns the reply that says which move `made` is, if any.
fn move_of(made: Option<Move>) -> Reply
    ensures { result ≡ told_move made }
{
    match made {
        Some(made) => Reply::Moves(made.address, made.z, made.placed),
        None => Reply::Nothing,
    }
}

// Returns the reply that says where the beam of `generator` is after the move `made`, if any.
fn end_of(made: Option<Move>, generator: &Generator<Global>) -> Reply
    ensures { result ≡ told_end made generator.now.beam }
{
    match made {
        Some(made) => Reply::Point(made.x1, made.y1),
        None => place_of(generator),
    }
}

// Returns the reply that says where the beam of `generator` is.
fn place_of(generator: &Generator<Global>) -> Reply
    ensures { result ≡ Reply.Point generator.now.beam.x generator.now.beam.y }
{
    let beam = generator.beam();
    Reply::Point(beam.x, beam.y)
}

// Returns the reply `Holds` of `generator`: its first word, or 0, its scale, whether it has a low
// byte and a first word, whether its stack `wraps`, and `returns`, the number of return addresses.
pub(crate) fn held(generator: &Generator<Global>, returns: u16, wraps: bool) -> Reply
    requires { returns ≤ STACK_DEPTH }
    ensures { result ≡ told_held generator.now returns wraps }
{
    let first = generator.first_word();
    let scale = u16::from(generator.beam().scale);
    let flags = 0x10 * bit(generator.low_byte().is_some())
        + 0x20 * bit(first.is_some())
        + 0x40 * bit(wraps);
    Reply::Holds(first.unwrap_or(0), scale + flags + 0x100 * returns)
}

// Returns the reply that says what return address `i` of `generator` is, from 0, the newest one.
fn return_address(generator: &Generator<Global>, i: u64) -> Reply
    ensures { result ≡ told_return (slice_get generator.now.stack i) }
{
    let addresses = generator.return_addresses();
    let count = addresses.len();
    if i < count as u64 {
        Reply::ReturnsTo(addresses[count - 1 - i as usize])
    } else {
        Reply::Nothing
    }
}

// Returns the reply that says what part `i` of the state of `generator` is, from 0.
fn state(generator: &Generator<Global>, i: u64) -> Reply
    ensures saved { OfHistories generator.now (λ history low run. CanBeSaved generator.now) }
    ensures told { result ≡ told_part (slice_get (parts_of generator.now) i) }
{
    let state = generator.state();
    is_saved(&state);
    told_part(part(&state, generator, i))
}

// Returns the reply that says what `part` is, if there is one.
pub(crate) fn told_part(part: Option<StatePart>) -> Reply
    ensures { result ≡ told_part part }
{
    match part {
        Some(part) => Reply::State(part.word()),
        None => Reply::Nothing,
    }
}

// Returns part `i` of `state`, which is that of `generator`, but for the return addresses, if there
// is one.
pub(crate) fn part(
    state: &GeneratorState,
    generator: &Generator<Global>,
    i: u64,
) -> Option<StatePart>
    requires { with_stack (reverse state.now.return_addresses.items) generator.now
        ≡ machine_of state.now generator.now.strokes generator.now.picture }
    ensures { result ≡ slice_get (parts_of (machine_of state.now generator.now.strokes
        generator.now.picture)) i }
{
    let addresses = state.return_addresses.as_slice();
    let returns = addresses.len() as u64;
    if i == 0 {
        Some(fields(state))
    } else if i <= returns {
        Some(StatePart::ReturnAddress(addresses[(i - 1) as usize]))
    } else {
        drawing_part(generator, i - 1 - returns)
    }
}

// For the proof alone: a low byte that waits in `state` is below 256, and there are four return
// addresses at most, as their types say. Nothing is done.
pub(crate) fn is_saved(state: &GeneratorState)
    ensures byte { IfSome state.now.low (λ byte. byte < 0x100) }
    ensures four { length state.now.return_addresses.items ≤ 4 }
{
    let _ = state.return_addresses.as_slice();
    if let Some(byte) = state.low {
        let _ = u16::from(byte);
    }
}

// Returns the first part of `state`.
fn fields(state: &GeneratorState) -> StatePart
    ensures { result ≡ Fields state.now.is_open state.now.at state.now.held state.now.low
        state.now.scale }
{
    StatePart::Fields {
        is_open: state.is_open,
        at: state.at,
        held: state.held,
        low: state.low,
        scale: state.scale,
    }
}

// Returns part `i` of those that say what the open run of `generator` drew, and where its beam is.
// Part 2k is where stroke k begins, part 2k + 1 where it ends; after all strokes comes the beam.
fn drawing_part(generator: &Generator<Global>, i: u64) -> Option<StatePart>
    ensures { result ≡ slice_get (drawing_parts generator.now) i }
{
    let strokes = strokes_so_far(generator);
    let count = strokes.len() as u64;
    let stroke = i / 2;
    if stroke < count {
        Some(part_of_stroke(strokes[stroke as usize], i % 2 == 1))
    } else if stroke == count && i % 2 == 0 {
        let beam = generator.beam();
        Some(StatePart::Place(beam.x, beam.y))
    } else {
        None
    }
}

// Returns the strokes that the open run of `generator` drew so far, or none where no run is open.
fn strokes_so_far(generator: &Generator<Global>) -> &[Stroke]
    ensures { result.now ≡ drawn_so_far generator.now }
{
    if generator.halted() {
        &[]
    } else {
        generator.strokes()
    }
}

// Returns where `stroke` leads, where `leads`, or else where it begins.
fn part_of_stroke(stroke: Stroke, leads: bool) -> StatePart
    ensures { result ≡ part_of_stroke stroke leads }
{
    if leads {
        StatePart::Line(stroke.x1, stroke.y1, stroke.z)
    } else {
        StatePart::Place(stroke.x0, stroke.y0)
    }
}

// Hands `byte` to `generator`, where `None` is a hole. Returns the reply.
#[inline(always)]
pub(crate) fn fetch(generator: &mut Generator<Global>, byte: Option<u8>) -> Reply
    ensures { Fetches byte generator.old generator.new result
        ⊎ (LacksRoom byte generator.old generator.new result
        ⊎ StaysStill generator.old generator.new result) }
{
    let Some(address) = generator.wants() else {
        return Reply::Came(Entry::Still);
    };
    let low = generator.low_byte();
    match generator.feed(byte) {
        Ok(step) => onward(Entry::of_fetch(address, low, byte, step, ()), generator),
        Err(_) => Reply::NoMemory,
    }
}

// Hands `byte` to `generator`, as `fetch` does. Returns the number of the reply. A low byte is only
// kept, which needs few registers; a high byte takes more, and goes to `fetch_high`.
#[inline(always)]
pub(crate) fn fetch_number(generator: &mut Generator<Global>, byte: Option<u8>) -> u64
    ensures { Numbered (GeneratorAnswers (Request.Fetch byte) generator.old generator.new) result }
{
    if generator.wants_high() {
        return fetch_high(generator, byte);
    }
    fetch(generator, byte).number()
}

// Hands `byte` to `generator`, as `fetch` does. Returns the number of the reply. It is made for
// high bytes.
#[inline(never)]
pub(crate) fn fetch_high(generator: &mut Generator<Global>, byte: Option<u8>) -> u64
    ensures { Numbered (GeneratorAnswers (Request.Fetch byte) generator.old generator.new) result }
{
    fetch(generator, byte).number()
}

// Returns the reply that `entry` came of `generator`, and which byte is wanted next, if any.
#[inline(always)]
pub(crate) fn onward(entry: Entry<()>, generator: &Generator<Global>) -> Reply
    ensures histories { OfHistories generator.now
        (λ history low run. result ≡ onward entry (wants run) low) }
    ensures any_state { WantsNext entry generator.now result }
{
    match generator.wants() {
        Some(address) => Reply::Onward(entry, address, generator.low_byte().is_some()),
        None => Reply::Came(entry),
    }
}
