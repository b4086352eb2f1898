//! The check of frames, and what is said of a refused one.
ghost use Rattle.std.specs.Prelude.{◌≡◌, ◌<◌, ◌↔◌, All, IfErr, IfOk, IsTrue, MatchOption, OnOk};
ghost use Rattle.std.specs.Prelude.{option_map};
ghost use Rattle.dvg_frame.specs.Picture.{IsBound};
ghost use Rattle.dvg_blame.specs.Refusals.{Blames, IsFault, IsFirst, IsFirstLow, IsGood, IsLent};
ghost use Rattle.dvg_blame.specs.Refusals.{IsNameBefore, IsNearer, IsUnlaid, NamesBefore};
ghost use Rattle.dvg_blame.specs.Refusals.{NamesHighRom, NamesHighWord, TellsFault, TellsLow};
ghost use Rattle.dvg_blame.specs.Refusals.{line_of, place_of};

use crate::refusal::{Blamed, Reason, Refusal, Unlaid};
use crate::said::said;
use dvg_frame::{Checked, Checker, FrameFault, Op, OpKind, Place};
use dvg_mem::Rom;
use dvg_named::{NamedFrame, RomName, Source};
use std::alloc::{AllocError, Allocator};

/// How many words the RAM has, which begins at word address 0.
const RAM_WORDS: u16 = 0x400;

// Returns the place that `fault` names. For a fault of the whole draft it is operation 0.
fn place_of(fault: FrameFault) -> Place
    ensures { result ≡ place_of fault }
{
    match fault {
        FrameFault::Target(i) | FrameFault::RunsOff(i) => Place::InFrame(i),
        FrameFault::OutOfRom(place) | FrameFault::TooDeep(place) | FrameFault::NoCaller(place) =>
            place,
        FrameFault::Empty | FrameFault::NoLabs | FrameFault::TooLong | FrameFault::Loops =>
            Place::InFrame(0),
    }
}

// Returns the line of operation `i` of `frame`, or the line that begins the frame where there is
// none.
fn line_of<'a>(frame: &NamedFrame<'a>, i: usize) -> Source<'a>
    ensures { result ≡ line_of frame.now i }
{
    match frame.sources.get(i) {
        Some(source) => *source,
        None => frame.begin,
    }
}

// Whether `name` is at or before `address` and at least as near to it as `found`, if there is one.
fn is_nearer(found: Option<RomName>, name: &RomName, address: u16) -> bool
    ensures { IsTrue result ↔ IsNearer address found.entry name.now }
{
    match found {
        Some(found) => found.address <= name.address && name.address <= address,
        None => name.address <= address,
    }
}

// Returns the one of `names` that is nearest to `address`, at or before it, and of several the
// last.
fn name_before<'a>(names: &[RomName<'a>], address: u16) -> Option<RomName<'a>>
    ensures { MatchOption result (All (λ name. address < name.address) names.now)
        (IsNameBefore names.now address) }
{
    let mut found = None;
    for name in names {
        if is_nearer(found, name, address) {
            found = Some(*name);
        }
    }
    found
}

// Returns the text of the name that `name_before` finds in `names` for `address`, if there is one.
// Returns `AllocError` where an allocation fails.
fn name_text<A: Allocator + Copy>(
    alloc: A,
    names: &[RomName],
    address: u16,
) -> Result<Option<Vec<u8, A>>, AllocError>
    ensures { IfOk result (λ name.
        NamesBefore names.now address (option_map (λ text. text.items) name)) }
{
    match name_before(names, address) {
        Some(found) => Ok(Some(Vec::from_slice(alloc, found.name)?)),
        None => Ok(None),
    }
}

// Returns what is blamed for a fault at `place` of `frame`: a line, or a word of the ROM with one
// of `names`. Returns `AllocError` where an allocation fails.
fn blame<A: Allocator + Copy>(
    alloc: A,
    names: &[RomName],
    frame: &NamedFrame,
    place: Place,
) -> Result<Blamed<A>, AllocError>
    ensures { IfOk result (Blames names.now frame.now place) }
{
    match place {
        Place::InFrame(i) => {
            let source = line_of(frame, usize::from(i));
            Ok(Blamed::Line {
                number: source.number,
                said: said(alloc, source.line)?,
            })
        }
        Place::InRom(address) => Ok(Blamed::Word {
            name: name_text(alloc, names, address)?,
            address,
        }),
    }
}

// Returns the refusal of `frame` for `reason`, at `place`. Returns `Memory` where an allocation
// fails.
fn tell<A: Allocator + Copy>(
    alloc: A,
    names: &[RomName],
    frame: &NamedFrame,
    place: Place,
    reason: Reason,
) -> Unlaid<A>
    ensures { IsUnlaid (λ refusal.
        (refusal.reason ≡ reason) × Blames names.now frame.now place refusal.blamed) result }
{
    match blame(alloc, names, frame, place) {
        Ok(blamed) => Unlaid::Refused(Refusal { blamed, reason }),
        Err(_) => Unlaid::Memory,
    }
}

/// Returns the refusal of `frame` with the reason `ManyWords(words)`, and blames the line of
/// operation 0. Returns `Memory` where an allocation fails.
pub fn tell_long<A: Allocator + Copy>(
    alloc: A,
    names: &[RomName],
    frame: &NamedFrame,
    words: u64,
) -> Unlaid<A>
    ensures { IsUnlaid (λ refusal. (refusal.reason ≡ Reason.ManyWords words)
        × Blames names.now frame.now (Place.InFrame 0) refusal.blamed) result }
{
    tell(
        alloc,
        names,
        frame,
        Place::InFrame(0),
        Reason::ManyWords(words),
    )
}

/// Returns `frame` checked, where `checker` accepts it over `rom`. Else returns its fault and the
/// line or the word at fault, with one of `names`, as `lay_bytes` does.
pub fn good_frame<'a, A: Allocator + Copy>(
    alloc: A,
    checker: &mut Checker,
    rom: &Rom<A>,
    names: &[RomName],
    frame: &NamedFrame<'a>,
) -> Result<Checked<'a>, Unlaid<A>>
    requires { IsLent frame.now }
    ensures good { IfOk result (λ checked.
        IsGood rom.now frame.now × (checked.operations ≡ frame.now.ops.now)) }
    ensures bound { IfOk result (λ checked. IsBound frame.now.ops.now rom.now checked.bound) }
    ensures refused { IfErr result (IsUnlaid (λ refusal.
        TellsFault rom.now names.now refusal frame.now)) }
{
    match checker.check(frame.ops, rom) {
        Ok(checked) => Ok(checked),
        Err(fault) => Err(tell(alloc, names, frame, place_of(fault), Reason::Fault(fault))),
    }
}

/// Checks all `frames` over `rom`. Returns the refusal of the first that the check doesn't accept.
/// `names` are the names of the ROM. Returns `Memory` where an allocation fails.
pub fn check_all<A: Allocator + Copy>(
    alloc: A,
    rom: &Rom<A>,
    names: &[RomName],
    frames: &[NamedFrame],
) -> Result<(), Unlaid<A>>
    requires { All IsLent frames.now }
    ensures good { OnOk result (All (IsGood rom.now) frames.now) }
    ensures refused { IfErr result (IsUnlaid (IsFault rom.now names.now frames.now)) }
{
    let mut checker = Box::new(alloc, Checker::new())?;
    for frame in frames {
        if let Err(unlaid) = good_frame(alloc, &mut checker, rom, names, frame) {
            return Err(unlaid);
        }
    }
    Ok(())
}

// Whether what `op` names of the ROM stands from word 400 on.
fn names_high_word(op: &Op) -> bool
    ensures { IsTrue result ↔ NamesHighWord op.now }
{
    match op.kind() {
        OpKind::CallRom(address) | OpKind::JumpRom(address) => RAM_WORDS <= address,
        OpKind::Draw(_) | OpKind::Call(_) | OpKind::Jump(_) | OpKind::Return | OpKind::Halt => true,
    }
}

// Returns the number of the first of `ops` that names a word of the ROM below 400.
fn first_low(ops: &[Op]) -> Option<usize>
    ensures { MatchOption result (All NamesHighWord ops.now) (IsFirstLow ops.now) }
{
    for (i, op) in ops.iter().enumerate() {
        if !names_high_word(op) {
            return Some(i);
        }
    }
    None
}

/// Returns the refusal of the first of `frames` with an operation that names a word of the ROM
/// below 400. `names` are the names of the ROM. Returns `Memory` where an allocation fails.
pub fn check_low_words<A: Allocator + Copy>(
    alloc: A,
    names: &[RomName],
    frames: &[NamedFrame],
) -> Result<(), Unlaid<A>>
    requires { All IsLent frames.now }
    ensures expressible { OnOk result (All NamesHighRom frames.now) }
    ensures refused { IfErr result (IsUnlaid (λ refusal.
        IsFirst NamesHighRom (TellsLow names.now refusal) frames.now)) }
{
    for frame in frames {
        if let Some(i) = first_low(frame.ops) {
            let place = Place::InFrame(i as u16);
            return Err(tell(alloc, names, frame, place, Reason::NamesNoWord));
        }
    }
    Ok(())
}
