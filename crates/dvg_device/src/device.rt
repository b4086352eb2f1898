//! The device.
ghost use Rattle.std.specs.Prelude.{◌≡◌, ◌↔◌, ◌<◌, ◌+◌, ◌++◌, [], ◌∷◌, length, drop, take};
ghost use Rattle.std.specs.Prelude.{slice_get, vec_capacity, All, IfSome, IsSome, IsTrue};
ghost use Rattle.std.specs.Prelude.{MatchOption};
ghost use Rattle.dvg_gen.specs.Position.{IsStroke};
ghost use Rattle.dvg_gen.specs.Saved.{machine_of};
ghost use Rattle.dvg_mem.specs.declared.TheConstants.{MEMORY_BYTES};
ghost use Rattle.dvg_device.specs.Devices.{Answered, Driver, IsNewDriver, IsOneOf, Numbered};
ghost use Rattle.dvg_device.specs.Devices.{PartAnswers, PushAnswers, StageAnswers, ToldBy, Turned};
ghost use Rattle.dvg_device.specs.Devices.{closed, picture_in, unopened};
ghost use Rattle.dvg_device.specs.Operations.{Names};
ghost use Rattle.dvg_device.specs.Parts.{open_of};
ghost use Rattle.dvg_device.specs.Replies.{begins, ends, shines};
ghost use Rattle.dvg_device.specs.Worlds.{IsBegun, Resumes};
ghost use Rattle.dvg_device.specs.declared.device.TheConstants.{MOST_STAGED};
ghost use Rattle.dvg_device.specs.declared.operation.Operation.{Operation};

use crate::cabinet::Cabinet;
use crate::desk::{ask_driver, tick_driver};
use crate::driver::DriverFields;
use crate::happening::{ask_world, fetch_world, fetch_world_high, tell_world, tick_world};
use crate::judging::ask_judge;
use crate::lone::{ask_generator, fetch_high, fetch_number, tell, wanted};
use crate::operation::Operation;
use crate::reply::Reply;
use crate::request::{Question, Request};
use crate::waiting::Waiting;
use crate::wrapping::{ask_wrapping, fetch_wrapping, tell_wrapping, wanted_wrapping};
use dvg_frame::{Draft, Op};
use dvg_gen::{Generator, GeneratorState, Stroke, WrappingGenerator};
use dvg_log::Entry;
use dvg_mem::{Flat, Image, LARGE_ROM_BYTES, MEMORY_BYTES, Rom};
use dvg_moment::MomentJudge;
use dvg_world::{Desk, World, WorldState};
use std::alloc::Global;
use std::marker::Model;
use std::mem;

/// The most bytes that are staged: those of a RAM, and of the larger ROM.
pub const MOST_STAGED: usize = MEMORY_BYTES + LARGE_ROM_BYTES;

/// What is open.
#[derive(Drop)]
pub(crate) enum Part {
    Nothing,
    World(Box<Cabinet>),
    Driver(Box<Desk>),
    Generator(Generator<Global>),
    Wrapping(WrappingGenerator<Global>),
    Judge(Box<MomentJudge>),
}

/// A device, in which a world, a driver alone, a generator alone or a judge may be open. It has a
/// draft, which requests make and an offer hands to the driver; bytes that are staged for what is
/// opened, and for a reset of the whole system; and the state of a generator alone, as far as it
/// was told, in which one may begin.
#[derive(Drop)]
pub struct Device {
    alloc: Global,
    staged: Vec<u8>,
    draft: Draft,
    waiting: Waiting,
    part: Part,
    // Blocks of memory of what was open before, for what is opened next.
    spare_world: Option<Box<Cabinet>>,
    spare_desk: Option<Box<Desk>>,
}

/// Contracts see a `Held`.
impl Model for Device {
    ghost use Rattle.dvg_device.specs.Devices.{Held};
    ghost use Rattle.dvg_device.specs.Parts.{open_of};

    ghost Value = { Held };

    ghost view = { λ device. record {
      staged = device.staged.items;
      draft = device.draft;
      waiting = device.waiting;
      open_part = open_of device.part;
    } };
}

impl Device {
    /// Returns a device in which nothing is open. It will take its memory from `alloc`.
    pub fn new(alloc: Global) -> Device
        ensures { result ≡ closed }
    {
        Device {
            alloc,
            staged: Vec::new(alloc),
            draft: Draft::new(),
            waiting: Waiting::new(alloc),
            part: Part::Nothing,
            spare_world: None,
            spare_desk: None,
        }
    }

    /// Does `request`, a number of 64 bits, and returns the number of the reply. `Request` says
    /// which requests there are, and `Reply` which replies.
    pub fn turn(&mut self, request: u64) -> u64
        ensures turned { Turned self.old request self.new result }
    {
        // The most frequent requests have branches of their own. Each of these functions takes the
        // number, and reads there what the request brings, so nothing passes through memory here.
        // What is inlined calls nothing but at its end, so no register is saved here. One match,
        // in which each request is decoded once, would be 155 lines shorter. As plain Rust it takes
        // 1.1 times as long for ticks and fetches, 1.7 for staging, 3 for pushes, 3.6 for strokes.
        match Request::of(request) {
            Request::Tick { .. } => self.turn_tick(request),
            Request::Fetch(_) => self.turn_fetch(request),
            Request::Wants => self.wants().number(),
            Request::Ask(_) => self.turn_ask(request),
            Request::Push(_) => self.turn_push(request),
            Request::Stage { .. } => self.turn_stage(request),
            Request::StrokeFrom(_) => self.turn_stroke_from(request),
            Request::StrokeTo(_) => self.turn_stroke_to(request),
            Request::StrokeIntensity(_) => self.turn_stroke_intensity(request),
            _ => self.turn_seldom(request),
        }
    }

    // Does `request` as `turn` does.
    #[inline(never)]
    fn turn_seldom(&mut self, request: u64) -> u64
        ensures { Turned self.old request self.new result }
    {
        self.answer(Request::of(request)).number()
    }

    // Does `request` as `turn` does. It is made for ticks: others go to `turn_seldom`.
    #[inline(never)]
    fn turn_tick(&mut self, request: u64) -> u64
        ensures { Turned self.old request self.new result }
    {
        let Request::Tick { halted, byte1 } = Request::of(request) else {
            return self.turn_seldom(request);
        };
        self.tick(halted, byte1)
    }

    // Does `request` as `turn` does. It is made for fetches: others go to `turn_seldom`.
    #[inline(never)]
    fn turn_fetch(&mut self, request: u64) -> u64
        ensures { Turned self.old request self.new result }
    {
        let Request::Fetch(byte) = Request::of(request) else {
            return self.turn_seldom(request);
        };
        self.fetch(byte)
    }

    // Does `request` as `turn` does. It is made for vectors that are pushed: others go to
    // `turn_push_any`.
    #[inline(never)]
    fn turn_push(&mut self, request: u64) -> u64
        ensures { Turned self.old request self.new result }
    {
        match Request::of(request) {
            Request::Push(operation) if operation.kind == 0 => self.push_vctr(operation).number(),
            _ => self.turn_push_any(request),
        }
    }

    // Does `request` as `turn` does. It is made for operations that are pushed: others go to
    // `turn_seldom`.
    #[inline(never)]
    fn turn_push_any(&mut self, request: u64) -> u64
        ensures { Turned self.old request self.new result }
    {
        let Request::Push(operation) = Request::of(request) else {
            return self.turn_seldom(request);
        };
        self.push(operation).number()
    }

    // Does `request` as `turn` does. It is made for a byte that is staged once, where there is room
    // for it: others go to `turn_stage_any`.
    #[inline(always)]
    fn turn_stage(&mut self, request: u64) -> u64
        ensures { Turned self.old request self.new result }
    {
        let Request::Stage { byte, count: 1 } = Request::of(request) else {
            return self.turn_stage_any(request);
        };
        match stage_one(&mut self.staged, byte) {
            Some(length) => Reply::Staged(length).number(),
            None => self.turn_stage_any(request),
        }
    }

    // Does `request` as `turn` does. It is made for bytes that are staged: others go to
    // `turn_seldom`.
    #[inline(never)]
    fn turn_stage_any(&mut self, request: u64) -> u64
        ensures { Turned self.old request self.new result }
    {
        let Request::Stage { byte, count } = Request::of(request) else {
            return self.turn_seldom(request);
        };
        self.stage(byte, count).number()
    }

    // Does `request` as `turn` does. It is made for the beginnings of a world's strokes: others go
    // to `turn_stroke`.
    #[inline(always)]
    fn turn_stroke_from(&mut self, request: u64) -> u64
        ensures { Turned self.old request self.new result }
    {
        match (Request::of(request), &self.part) {
            (Request::StrokeFrom(i), Part::World(cabinet)) => {
                stroke_from(cabinet.world.picture(), i).number()
            }
            _ => self.turn_stroke(request),
        }
    }

    // Does `request` as `turn` does. It is made for the ends of a world's strokes: others go to
    // `turn_stroke`.
    #[inline(always)]
    fn turn_stroke_to(&mut self, request: u64) -> u64
        ensures { Turned self.old request self.new result }
    {
        match (Request::of(request), &self.part) {
            (Request::StrokeTo(i), Part::World(cabinet)) => {
                stroke_to(cabinet.world.picture(), i).number()
            }
            _ => self.turn_stroke(request),
        }
    }

    // Does `request` as `turn` does. It is made for the intensities of a world's strokes: others go
    // to `turn_stroke`.
    #[inline(always)]
    fn turn_stroke_intensity(&mut self, request: u64) -> u64
        ensures { Turned self.old request self.new result }
    {
        match (Request::of(request), &self.part) {
            (Request::StrokeIntensity(i), Part::World(cabinet)) => {
                stroke_intensity(cabinet.world.picture(), i).number()
            }
            _ => self.turn_stroke(request),
        }
    }

    // Does `request` as `turn` does. It is made for strokes: others go to `turn_seldom`.
    #[inline(never)]
    fn turn_stroke(&mut self, request: u64) -> u64
        ensures { Turned self.old request self.new result }
    {
        match Request::of(request) {
            Request::StrokeFrom(i) => stroke_from(self.picture(), i).number(),
            Request::StrokeTo(i) => stroke_to(self.picture(), i).number(),
            Request::StrokeIntensity(i) => stroke_intensity(self.picture(), i).number(),
            _ => self.turn_seldom(request),
        }
    }

    // Does `request` as `turn` does. It is made for questions: others go to `turn_seldom`.
    #[inline(never)]
    fn turn_ask(&mut self, request: u64) -> u64
        ensures { Turned self.old request self.new result }
    {
        let Request::Ask(question) = Request::of(request) else {
            return self.turn_seldom(request);
        };
        self.told(question)
    }

    // Returns the number of the reply to `question`.
    fn told(&mut self, question: Question) -> u64
        ensures same { self.new ≡ self.old }
        ensures told { ToldBy question self.old.open_part result }
    {
        match &self.part {
            Part::Nothing => Reply::Closed.number(),
            Part::Generator(generator) => tell(generator, question).number(),
            Part::Wrapping(generator) => tell_wrapping(generator, question).number(),
            Part::World(cabinet) => tell_world(&cabinet.world, question).number(),
            Part::Driver(_) | Part::Judge(_) => Reply::Unknown.number(),
        }
    }

    /// Does `request`, and returns the reply.
    #[inline(always)]
    pub fn answer(&mut self, request: Request) -> Reply
        ensures answered { Answered request self.old self.new result }
    {
        match request {
            Request::Push(operation) => self.push(operation),
            Request::ClearDraft => self.clear_draft(),
            Request::Stage { byte, count } => self.stage(byte, count),
            Request::Unstage => self.unstage(),
            Request::OpenWorld => self.open_world(),
            Request::OpenDriver => self.open_driver(),
            Request::OpenGenerator => self.open_generator(),
            Request::OpenWrapping => self.open_wrapping(),
            Request::OpenJudge => self.open_judge(),
            Request::Resume => self.resume(),
            Request::ResumeWrapping => self.resume_wrapping(),
            Request::TellState(word) => self.tell_state(word),
            Request::ResumeWorld(fields) => self.resume_world(fields),
            Request::Close => self.close(),
            Request::CountStrokes => Reply::Count(self.picture().len() as u64),
            Request::StrokeFrom(i) => stroke_from(self.picture(), i),
            Request::StrokeTo(i) => stroke_to(self.picture(), i),
            Request::StrokeIntensity(i) => stroke_intensity(self.picture(), i),
            _ => self.ask(request),
        }
    }

    // Adds `operation` to the draft.
    fn push(&mut self, operation: Operation) -> Reply
        ensures { PushAnswers operation self.old self.new result }
    {
        let Some(op) = operation.op() else {
            return Reply::NoOperation;
        };
        self.push_op(op)
    }

    // Adds `operation` to the draft, as `push` does.
    #[inline(always)]
    fn push_vctr(&mut self, operation: Operation) -> Reply
        requires { operation.kind ≡ 0 }
        ensures { PushAnswers operation self.old self.new result }
    {
        let Some(op) = operation.vctr_op() else {
            return Reply::NoOperation;
        };
        self.push_op(op)
    }

    // Adds `op` to the draft. Returns the reply to each operation that names it.
    #[inline(always)]
    fn push_op(&mut self, op: Op) -> Reply
        ensures { (operation : Operation) → Names operation op
            → PushAnswers operation self.old self.new result }
    {
        match self.draft.push(op) {
            Ok(i) => Reply::Pushed(i),
            Err(_) => Reply::Full,
        }
    }

    // Removes the operations of the draft.
    fn clear_draft(&mut self) -> Reply
        ensures { Answered Request.ClearDraft self.old self.new result }
    {
        self.draft.clear();
        Reply::Came(Entry::Cleared)
    }

    // Stages `byte` `count` times.
    fn stage(&mut self, byte: u8, count: u16) -> Reply
        ensures { StageAnswers byte count self.old self.new result }
    {
        let length = self.staged.len() + usize::from(count);
        if MOST_STAGED < length {
            return Reply::Full;
        }
        match self.staged.resize(length, byte) {
            Ok(()) => Reply::Staged(length as u16),
            Err(_) => Reply::NoMemory,
        }
    }

    // Removes the staged bytes, with their memory.
    fn unstage(&mut self) -> Reply
        ensures { Answered Request.Unstage self.old self.new result }
    {
        self.staged = Vec::new(self.alloc);
        Reply::Came(Entry::Cleared)
    }

    // Takes the memory of a world that was open before, if there is some.
    fn take_spare_world(&mut self) -> Option<Box<Cabinet>>
        ensures { self.new ≡ self.old }
    {
        self.spare_world.take()
    }

    // Takes the memory of a driver that was open before, if there is some.
    fn take_spare_desk(&mut self) -> Option<Box<Desk>>
        ensures { self.new ≡ self.old }
    {
        self.spare_desk.take()
    }

    // Opens a world over the staged bytes.
    #[inline(never)]
    fn open_world(&mut self) -> Reply
        ensures { Answered Request.OpenWorld self.old self.new result }
    {
        if !is_one_of(self.staged.len(), 2 * MEMORY_BYTES, MOST_STAGED) {
            return Reply::WrongSize;
        }
        let spare = self.take_spare_world();
        match new_world(self.alloc, self.staged.as_slice(), spare) {
            Some(cabinet) => self.open(Part::World(cabinet)),
            None => Reply::NoMemory,
        }
    }

    // Opens a driver over the staged bytes.
    #[inline(never)]
    fn open_driver(&mut self) -> Reply
        ensures { Answered Request.OpenDriver self.old self.new result }
    {
        if !is_one_of(self.staged.len(), MEMORY_BYTES, LARGE_ROM_BYTES) {
            return Reply::WrongSize;
        }
        let spare = self.take_spare_desk();
        match new_desk(self.alloc, self.staged.as_slice(), spare) {
            Some(desk) => self.open(Part::Driver(desk)),
            None => Reply::NoMemory,
        }
    }

    // Opens a generator.
    fn open_generator(&mut self) -> Reply
        ensures { Answered Request.OpenGenerator self.old self.new result }
    {
        self.open(Part::Generator(Generator::new(self.alloc)))
    }

    // Opens a generator whose stack wraps.
    #[inline(never)]
    fn open_wrapping(&mut self) -> Reply
        ensures { Answered Request.OpenWrapping self.old self.new result }
    {
        self.open(Part::Wrapping(WrappingGenerator::new(self.alloc)))
    }

    // Opens a judge.
    #[inline(never)]
    fn open_judge(&mut self) -> Reply
        ensures { Answered Request.OpenJudge self.old self.new result }
    {
        match Box::new(self.alloc, MomentJudge::new()) {
            Ok(judge) => self.open(Part::Judge(judge)),
            Err(_) => Reply::NoMemory,
        }
    }

    // Opens a generator in the state that was told.
    #[inline(never)]
    fn resume(&mut self) -> Reply
        ensures { Answered Request.Resume self.old self.new result }
    {
        match self.waiting.generator(self.alloc) {
            Some(generator) => self.open(Part::Generator(generator)),
            None => Reply::NoState,
        }
    }

    // Opens a generator whose stack wraps in the state that was told.
    #[inline(never)]
    fn resume_wrapping(&mut self) -> Reply
        ensures { Answered Request.ResumeWrapping self.old self.new result }
    {
        match self.waiting.wrapping(self.alloc) {
            Some(generator) => self.open(Part::Wrapping(generator)),
            None => Reply::NoState,
        }
    }

    // Has the world that is open go on in the state that was told, with `fields` of its driver.
    #[inline(never)]
    fn resume_world(&mut self, fields: DriverFields) -> Reply
        ensures { Answered (Request.ResumeWorld fields) self.old self.new result }
    {
        match &mut self.part {
            Part::World(cabinet) => {
                if self.staged.len() != MEMORY_BYTES {
                    return Reply::WrongSize;
                }
                let Ok(ram) = Image::new(self.alloc, self.staged.as_slice()) else {
                    return Reply::NoMemory;
                };
                let told = self.waiting.take_told(self.alloc);
                resumed(&mut cabinet.world, ram, told, fields, &self.draft)
            }
            _ => self.ask(Request::ResumeWorld(fields)),
        }
    }

    // Takes the part of a state that `word` is.
    #[inline(never)]
    fn tell_state(&mut self, word: u64) -> Reply
        ensures { Answered (Request.TellState word) self.old self.new result }
    {
        self.waiting.take(self.alloc, word)
    }

    // Opens `part`. The memory of what was open stays, for the next one of its kind.
    fn open(&mut self, part: Part) -> Reply
        ensures opened { result ≡ Reply.Opened }
        ensures device { self.new ≡ record self.old { open_part = open_of part } }
    {
        let before = mem::replace(&mut self.part, part);
        self.keep(before);
        Reply::Opened
    }

    // Keeps the memory of `before`, which was open.
    fn keep(&mut self, before: Part)
        ensures { self.new ≡ self.old }
    {
        match before {
            Part::World(cabinet) => self.spare_world = Some(cabinet),
            Part::Driver(desk) => self.spare_desk = Some(desk),
            Part::Nothing | Part::Generator(_) | Part::Wrapping(_) | Part::Judge(_) => {}
        }
    }

    // Ends what is open, and gives its memory back.
    #[inline(never)]
    fn close(&mut self) -> Reply
        ensures { Answered Request.Close self.old self.new result }
    {
        *self = Device::new(self.alloc);
        Reply::Closed
    }

    // Returns the strokes of the newest run of what is open that came to a HALT.
    #[inline(never)]
    fn picture(&self) -> &[Stroke]
        ensures { result.now ≡ picture_in self.now.open_part }
    {
        match &self.part {
            Part::World(cabinet) => cabinet.world.picture(),
            Part::Generator(generator) => generator.picture(),
            Part::Wrapping(generator) => generator.generator().picture(),
            Part::Nothing | Part::Driver(_) | Part::Judge(_) => &[],
        }
    }

    // Lets what is open do a tick. A driver alone reads `halted`, the HALT flag, and `byte1`, byte
    // 001 of a RAM. Returns the number of the reply.
    #[inline(always)]
    fn tick(&mut self, halted: bool, byte1: u8) -> u64
        ensures { Numbered (PartAnswers self.old.open_part (Request.Tick halted byte1) self.old
            self.new) result }
    {
        match &mut self.part {
            Part::Nothing => Reply::Closed.number(),
            Part::World(cabinet) => tick_world(&mut cabinet.world).number(),
            Part::Driver(desk) => tick_driver(desk, halted, byte1).number(),
            Part::Generator(_) => Reply::Unknown.number(),
            Part::Wrapping(_) => Reply::Unknown.number(),
            Part::Judge(_) => Reply::Unknown.number(),
        }
    }

    // Lets what is open fetch a byte. A generator alone is handed `byte`, where `None` is a hole.
    // Returns the number of the reply. It is made for worlds: others go to `fetch_alone`, which
    // alone looks at `byte`.
    #[inline(always)]
    fn fetch(&mut self, byte: Option<u8>) -> u64
        ensures { Numbered (PartAnswers self.old.open_part (Request.Fetch byte) self.old self.new)
            result }
    {
        match &mut self.part {
            Part::World(cabinet) => fetch_world(&mut cabinet.world),
            _ => self.fetch_alone(byte),
        }
    }

    // Lets what is open fetch a byte, as `fetch` does. It is made for generators alone: others go
    // to `fetch_seldom`.
    #[inline(never)]
    fn fetch_alone(&mut self, byte: Option<u8>) -> u64
        ensures { Numbered (PartAnswers self.old.open_part (Request.Fetch byte) self.old self.new)
            result }
    {
        match &mut self.part {
            Part::Generator(generator) => fetch_number(generator, byte),
            _ => self.fetch_seldom(byte),
        }
    }

    // Lets what is open fetch a byte, as `fetch` does.
    #[inline(never)]
    fn fetch_seldom(&mut self, byte: Option<u8>) -> u64
        ensures { Numbered (PartAnswers self.old.open_part (Request.Fetch byte) self.old self.new)
            result }
    {
        match &mut self.part {
            Part::Nothing => Reply::Closed.number(),
            Part::World(cabinet) => fetch_world_high(&mut cabinet.world),
            Part::Driver(_) => Reply::Unknown.number(),
            Part::Generator(generator) => fetch_high(generator, byte),
            Part::Wrapping(generator) => fetch_wrapping(generator, byte).number(),
            Part::Judge(_) => Reply::Unknown.number(),
        }
    }

    // Returns the reply that says which byte is wanted next.
    #[inline(always)]
    fn wants(&self) -> Reply
        ensures { PartAnswers self.now.open_part Request.Wants self.now self.now result }
    {
        match &self.part {
            Part::Nothing => Reply::Closed,
            Part::Generator(generator) => wanted(generator),
            Part::Wrapping(generator) => wanted_wrapping(generator),
            Part::World(_) => Reply::Unknown,
            Part::Driver(_) => Reply::Unknown,
            Part::Judge(_) => Reply::Unknown,
        }
    }

    // Lets what is open do `request`.
    #[inline(always)]
    fn ask(&mut self, request: Request) -> Reply
        ensures { PartAnswers self.old.open_part request self.old self.new result }
    {
        match &mut self.part {
            Part::Nothing => unopened(request),
            Part::World(cabinet) => {
                let Cabinet { world, image } = &mut **cabinet;
                ask_world(world, image, request, &self.draft, self.staged.as_slice())
            }
            Part::Driver(desk) => ask_driver(desk, request, &self.draft),
            Part::Generator(generator) => ask_generator(generator, request),
            Part::Wrapping(generator) => ask_wrapping(generator, request),
            Part::Judge(judge) => ask_judge(judge, request),
        }
    }
}

// Adds `byte` to `staged`, where these are fewer than may be staged and there is room for one more.
// Returns how many they are then. Else returns `None`, and nothing has changed.
#[inline(always)]
fn stage_one(staged: &mut Vec<u8>, byte: u8) -> Option<u16>
    ensures room { IsSome result ↔ (length staged.old.items < MOST_STAGED)
        × (length staged.old.items < vec_capacity staged.old) }
    ensures staged { MatchOption result (staged.new ≡ staged.old)
        (λ n. (n ≡ length staged.old.items + 1)
        × (staged.new.items ≡ staged.old.items ++ byte ∷ [])) }
{
    let length = staged.len();
    if MOST_STAGED <= length || staged.capacity() <= length {
        return None;
    }
    staged.push_reserved(byte);
    Some(length as u16 + 1)
}

// Returns stroke `i` of `picture`, if there is one.
#[inline(always)]
fn stroke(picture: &[Stroke], i: u64) -> Option<Stroke>
    ensures { result ≡ slice_get picture.now i }
{
    if i < picture.len() as u64 {
        Some(picture[i as usize])
    } else {
        None
    }
}

// Returns where stroke `i` of `picture` begins, or 0, 0 where there is none.
#[inline(always)]
fn stroke_from(picture: &[Stroke], i: u64) -> Reply
    ensures { result ≡ begins (slice_get picture.now i) }
{
    match stroke(picture, i) {
        Some(stroke) => Reply::Point(stroke.x0, stroke.y0),
        None => Reply::Point(0, 0),
    }
}

// Returns where stroke `i` of `picture` ends, or 0, 0 where there is none.
#[inline(always)]
fn stroke_to(picture: &[Stroke], i: u64) -> Reply
    ensures { result ≡ ends (slice_get picture.now i) }
{
    match stroke(picture, i) {
        Some(stroke) => Reply::Point(stroke.x1, stroke.y1),
        None => Reply::Point(0, 0),
    }
}

// Returns the intensity of stroke `i` of `picture`, or 0 where there is none.
#[inline(always)]
fn stroke_intensity(picture: &[Stroke], i: u64) -> Reply
    ensures { result ≡ shines (slice_get picture.now i) }
{
    match stroke(picture, i) {
        Some(stroke) => Reply::Intensity(stroke.z),
        None => Reply::Intensity(0),
    }
}

// Has `world` go on with a RAM that holds `ram`, with the generator's state and strokes `told`, of
// which each is one, and with `fields` of its driver, whose frame is `draft`. Returns the reply.
fn resumed(
    world: &mut World<Flat>,
    ram: Image,
    told: (GeneratorState, Vec<Stroke>),
    fields: DriverFields,
    draft: &Draft,
) -> Reply
    requires { All IsStroke told.1.items }
    ensures { Resumes ram (machine_of told.0 told.1.items []) fields draft.now world.old world.new
        result }
{
    let (generator, strokes) = told;
    let state = WorldState {
        ram,
        generator,
        strokes,
        driver: fields.state(draft.copy()),
        strobe_sent: fields.strobe_sent,
    };
    match world.resume(state) {
        Ok(()) => Reply::Opened,
        Err(_) => Reply::NoState,
    }
}

// Returns the reply to `request` where nothing is open.
fn unopened(request: Request) -> Reply
    ensures { result ≡ unopened request }
{
    match request {
        Request::Unknown => Reply::Unknown,
        _ => Reply::Closed,
    }
}

// Returns whether `n` is `small` or `large`.
fn is_one_of(n: usize, small: usize, large: usize) -> bool
    ensures { IsTrue result ↔ IsOneOf n small large }
{
    n == small || n == large
}

// Returns a world whose RAM first holds the first 2,048 of `staged`, over a ROM of the others. It
// lies in the memory of `spare` where there is some, otherwise in memory of `alloc`. Returns `None`
// where an allocation fails, or `staged` has a wrong length.
fn new_world(alloc: Global, staged: &[u8], spare: Option<Box<Cabinet>>) -> Option<Box<Cabinet>>
    ensures { IfSome result (λ cabinet. IsBegun (drop MEMORY_BYTES staged.now)
        (take MEMORY_BYTES staged.now) cabinet.value.world) }
{
    let (image, rom) = staged.split_at_checked(MEMORY_BYTES)?;
    let Some(mut cabinet) = spare else {
        return Box::new(alloc, Cabinet::new(alloc, image, rom)?).ok();
    };
    if cabinet.begin_anew(alloc, image, rom) {
        Some(cabinet)
    } else {
        None
    }
}

// Returns a driver alone over a ROM of the bytes `rom`. It lies in the memory of `spare` where
// there is some, otherwise in memory of `alloc`. Returns `None` where an allocation fails, or `rom`
// has a wrong length.
fn new_desk(alloc: Global, rom: &[u8], spare: Option<Box<Desk>>) -> Option<Box<Desk>>
    ensures { IfSome result (λ desk. IsNewDriver rom.now (Driver desk.value)) }
{
    match spare {
        Some(desk) => renewed_desk(alloc, rom, desk),
        None => boxed_desk(alloc, rom),
    }
}

// Like `new_desk`, in the memory of `desk`. A ROM of the bytes `rom` takes memory from `alloc` only
// where it has another size.
fn renewed_desk(alloc: Global, rom: &[u8], mut desk: Box<Desk>) -> Option<Box<Desk>>
    ensures { IfSome result (λ desk. IsNewDriver rom.now (Driver desk.value)) }
{
    match desk.begin_anew(alloc, rom) {
        Ok(()) => Some(desk),
        Err(_) => None,
    }
}

// Like `new_desk`, in new memory of `alloc`, over a ROM of the bytes `rom`.
fn boxed_desk(alloc: Global, rom: &[u8]) -> Option<Box<Desk>>
    ensures { IfSome result (λ desk. IsNewDriver rom.now (Driver desk.value)) }
{
    let rom = Rom::new(alloc, rom).ok()?;
    let desk = Desk::new(alloc, rom).ok()?;
    Box::new(alloc, desk).ok()
}
