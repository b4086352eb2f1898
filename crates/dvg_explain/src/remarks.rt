//! What is odd about frames that the check accepts. This is tested: nothing is proved of it but
//! that it can't panic, and comes to an end.
use dvg_code::OutOfMemory;
use dvg_driver::Action;
use dvg_frame::{Draft, MAX_OPS, Op, OpKind};
use dvg_gen::Stroke;
use dvg_log::Entry;
use dvg_mem::{Flat, Image, MEMORY_BYTES, Rom};
use dvg_named::NamedFrame;
use dvg_world::World;
use std::alloc::Allocator;
use std::fmt;

/// The first place along an axis that isn't on the screen, in 1/512 of a unit: 1,024 units.
const SCREEN_END: u32 = 1024 * 512;

/// The most ticks and fetches by which a picture is drawn. That is enough for one of 65,536 words,
/// which is the most that `dvg render` draws, and for a frame of 511 words before it.
const MOST_STEPS: usize = 132_100;

/// What is odd about a frame.
#[derive(Clone, Copy)]
pub(crate) enum Oddity {
    /// No run gets to an operation of it.
    Unreached,
    /// It draws no stroke.
    Empty,
    /// It draws strokes, and none of them is on the screen.
    Dark,
}

impl fmt::Display for Oddity {
    fn fmt<W: fmt::Write>(&self, f: &mut fmt::Formatter<W>) -> fmt::Result {
        f.write_str(match self {
            Oddity::Unreached => {
                "no run gets here: the operation before it doesn't go on, and nothing leads here"
            }
            Oddity::Empty =>
                "the frame that begins here draws no stroke: it needs a vector with a Z above 0",
            Oddity::Dark => {
                "the frame that begins here draws nothing on the screen: X and Y 0 to 1023"
            }
        })
    }
}

/// What is odd about the frames of a sketch, and the line where it is seen.
#[derive(Clone, Copy)]
pub(crate) struct Remark {
    /// The number of the line.
    pub number: usize,
    /// What is odd.
    pub oddity: Oddity,
}

// Marks operation `number` of a frame as `reached`, if it has one of this number.
fn mark(reached: &mut [bool; MAX_OPS], number: usize) {
    if let Some(place) = reached.get_mut(number) {
        *place = true;
    }
}

// Whether operation `number` is marked as `reached`.
fn is_marked(reached: &[bool; MAX_OPS], number: usize) -> bool {
    matches!(reached.get(number), Some(true))
}

// Marks as `reached` what comes after operation `number`, which is `op`. After a call come what it
// calls and, when that returns, the next operation.
fn mark_after(reached: &mut [bool; MAX_OPS], number: usize, op: &Op) {
    let next = number.saturating_add(1);
    match op.kind() {
        OpKind::Draw(_) | OpKind::CallRom(_) => mark(reached, next),
        OpKind::Call(target) => {
            mark(reached, usize::from(target));
            mark(reached, next);
        }
        OpKind::Jump(target) => mark(reached, usize::from(target)),
        OpKind::JumpRom(_) | OpKind::Return | OpKind::Halt => {}
    }
}

// Marks as `reached` what comes after the marked ones of `ops`.
fn mark_once(reached: &mut [bool; MAX_OPS], ops: &[Op]) {
    for (number, op) in ops.iter().enumerate() {
        if is_marked(reached, number) {
            mark_after(reached, number, op);
        }
    }
}

// Returns the number of the first of `ops` to which no run gets.
fn first_unreached(ops: &[Op]) -> Option<usize> {
    let mut reached = [false; MAX_OPS];
    mark(&mut reached, 0);
    for _ in ops {
        mark_once(&mut reached, ops);
    }
    for number in 0..ops.len() {
        if !is_marked(&reached, number) {
            return Some(number);
        }
    }
    None
}

// Whether `stroke` may be seen, as far as the box around it tells.
fn may_be_seen(stroke: &Stroke) -> bool {
    stroke.x0.min(stroke.x1) < SCREEN_END && stroke.y0.min(stroke.y1) < SCREEN_END
}

// Returns the line of operation `number` of `frame`. It is 0 where there is none.
fn line_of(frame: &NamedFrame, number: usize) -> usize {
    match frame.sources.get(number) {
        Some(source) => source.number,
        None => 0,
    }
}

// Returns what is odd about `frame`, which draws these `strokes`.
fn remark_on_frame(frame: &NamedFrame, strokes: &[Stroke]) -> Option<Remark> {
    if let Some(number) = first_unreached(frame.ops) {
        return Some(Remark {
            number: line_of(frame, number),
            oddity: Oddity::Unreached,
        });
    }
    let oddity = if strokes.is_empty() {
        Oddity::Empty
    } else if strokes.iter().any(may_be_seen) {
        return None;
    } else {
        Oddity::Dark
    };
    Some(Remark {
        number: line_of(frame, 0),
        oddity,
    })
}

// Returns the picture that `world`, which is at its beginning, draws of `ops`, a frame that the
// check accepts. There is none of a picture that is too long. Returns `OutOfMemory` where an
// allocation fails.
fn picture_of<A: Allocator + Copy>(
    world: &mut World<Flat<A>>,
    ops: &[Op],
) -> Result<Option<Vec<Stroke, A>>, OutOfMemory> {
    let mut draft = Draft::new();
    if draft.try_extend_from_slice(ops).is_err() {
        return Ok(None);
    }
    world.tick();
    world.tick();
    world.offer(&draft);
    for _ in 0..MOST_STEPS {
        if world.act() == Action::Sent {
            world.strobe();
        }
        if let Entry::Done(..) = world.fetch()? {
            return Ok(Some(world.take_picture()));
        }
    }
    Ok(None)
}

/// Returns what is odd about the first of `frames` over the ROM of `bytes` that is odd. The check
/// accepts them. Returns `OutOfMemory` where an allocation fails.
pub(crate) fn remark_on<A: Allocator + Copy>(
    alloc: A,
    bytes: &[u8],
    frames: &[NamedFrame],
) -> Result<Option<Remark>, OutOfMemory> {
    let (Ok(rom), Ok(image)) = (
        Rom::new(alloc, bytes),
        Image::new(alloc, &[0; MEMORY_BYTES]),
    ) else {
        return Err(OutOfMemory);
    };
    let mut world = World::<Flat<A>>::new(alloc, rom, &image)?;
    for frame in frames {
        if world.begin_anew(alloc, bytes, &image).is_err() {
            return Err(OutOfMemory);
        }
        let Some(strokes) = picture_of(&mut world, frame.ops)? else {
            return Ok(None);
        };
        if let Some(remark) = remark_on_frame(frame, strokes.as_slice()) {
            return Ok(Some(remark));
        }
    }
    Ok(None)
}
