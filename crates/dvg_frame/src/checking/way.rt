//! Where a place leads: the successors of the operation or instruction there.
ghost use Rattle.std.specs.Prelude.{◌≡◌, ◌<◌, ◌≤◌, ◌↔◌, List, IsTrue, MatchOption};
ghost use Rattle.dvg_mem.specs.Memory.{IsRom, first_word};
ghost use Rattle.dvg_frame.specs.Steps.{op_act};
ghost use Rattle.dvg_frame.specs.own.Ways.{EndsWithin, IsPlaceOf};
ghost use Rattle.dvg_frame.specs.own.Ways.{Outside, StandsSo, span, way};
ghost use Rattle.dvg_frame.specs.declared.checking.way.Way.{Way};
ghost use Rattle.dvg_frame.specs.declared.op.OpKind.{OpKind};
ghost use Rattle.dvg_frame.specs.declared.place.Place.{Place};

use crate::draft::words_of;
use crate::op::{Op, OpKind};
use crate::place::Place;
use dvg_mem::{ROM_END, Rom};
use std::alloc::Allocator;

/// Where the instruction at a place leads on: its successors.
#[derive(Clone, Copy)]
pub(crate) enum Way {
    /// Over this many words to the place after it.
    Move(Place, u64),
    /// To a target.
    Jump(Place),
    /// To the subroutine at a target, and from there to the place after it.
    Call(Place, Place),
    /// Back to the newest call.
    Return,
    /// Nowhere: the run ends.
    Halt,
}

/// What is fetched from a place to where it leads on at its own depth.
#[derive(Clone, Copy)]
pub(crate) enum Span {
    /// This many words.
    Over(u64),
    /// A call of the subroutine at a target, and all that is drawn from there.
    Into(Place),
}

// Returns whether `place` is at an address outside `rom`.
pub(crate) fn is_outside<A: Allocator>(rom: &Rom<A>, place: Place) -> bool
    ensures { IsTrue result ↔ Outside rom.now place }
{
    match place {
        Place::InFrame(_) => false,
        Place::InRom(a) => a < rom.first() || ROM_END <= a,
    }
}

// Returns the way of the operation `kind`, where `after` is the place after it.
#[inline(always)]
fn way_of_op(kind: OpKind, after: Place) -> Way
    ensures { result ≡ way (op_act kind) after }
{
    match kind {
        OpKind::Draw(_) => Way::Move(after, u64::from(words_of(kind))),
        OpKind::CallRom(a) => Way::Call(Place::InRom(a), after),
        OpKind::JumpRom(a) => Way::Jump(Place::InRom(a)),
        OpKind::Call(j) => Way::Call(Place::InFrame(j), after),
        OpKind::Jump(j) => Way::Jump(Place::InFrame(j)),
        OpKind::Return => Way::Return,
        OpKind::Halt => Way::Halt,
    }
}

// Returns the span of `way`.
fn span_of(way: Way) -> Span
    ensures { result ≡ span way }
{
    match way {
        Way::Move(_, words) => Span::Over(words),
        Way::Call(to, _) => Span::Into(to),
        Way::Jump(_) | Way::Return | Way::Halt => Span::Over(1),
    }
}

// Returns the span of the operation `kind`.
fn span_of_op(kind: OpKind) -> Span
    ensures { (after : Place) → result ≡ span (way (op_act kind) after) }
{
    match kind {
        OpKind::CallRom(a) => Span::Into(Place::InRom(a)),
        OpKind::Call(j) => Span::Into(Place::InFrame(j)),
        _ => Span::Over(u64::from(words_of(kind))),
    }
}

// Returns the way on from the word at `a` of `rom`, by its opcode, or `None` where the ROM ends
// within the instruction.
fn rom_way<A: Allocator>(rom: &Rom<A>, a: u16) -> Option<Way>
    requires rom { IsRom rom.now }
    requires low { first_word rom.now ≤ a }
    requires high { a < ROM_END }
    ensures { MatchOption result (EndsWithin rom.now (Place.InRom a))
        (λ seen. (F : List OpKind) → StandsSo F rom.now (Place.InRom a) seen) }
{
    let word = rom.word(a);
    if word < 0xB000 {
        return if a + 1 == ROM_END {
            None
        } else {
            Some(Way::Move(Place::InRom(a + 2), 2))
        };
    }
    let target = Place::InRom(word % 0x1000);
    let after = Place::InRom(a + 1);
    let way = match word >> 12 {
        0xB => Way::Halt,
        0xC => Way::Call(target, after),
        0xD => Way::Return,
        0xE => Way::Jump(target),
        _ => Way::Move(after, 1),
    };
    Some(way)
}

// Returns the way on from `place`, of `draft` over `rom`, or `None` where the ROM ends within the
// instruction there.
#[inline(always)]
pub(crate) fn way_at<A: Allocator>(draft: &[Op], rom: &Rom<A>, place: Place) -> Option<Way>
    requires rom { IsRom rom.now }
    requires inside { IsPlaceOf draft.now rom.now place }
    ensures { MatchOption result (EndsWithin rom.now place)
        (λ seen. StandsSo draft.now rom.now place seen) }
{
    match place {
        Place::InFrame(i) => {
            let op = draft[usize::from(i)];
            let after = Place::InFrame(i + 1);
            Some(way_of_op(op.kind(), after))
        }
        Place::InRom(a) => rom_way(rom, a),
    }
}

// Returns the span of the way on from `place`, of `draft` over `rom`, by fewer branches than
// `way_at` takes. Returns `None` where the ROM ends within the instruction there.
#[inline(always)]
pub(crate) fn span_at<A: Allocator>(draft: &[Op], rom: &Rom<A>, place: Place) -> Option<Span>
    requires rom { IsRom rom.now }
    requires inside { IsPlaceOf draft.now rom.now place }
    ensures { MatchOption result (EndsWithin rom.now place)
        (λ found. (seen : Way) × StandsSo draft.now rom.now place seen × (found ≡ span seen)) }
{
    match place {
        Place::InFrame(i) => Some(span_of_op(draft[usize::from(i)].kind())),
        Place::InRom(a) => Some(span_of(rom_way(rom, a)?)),
    }
}
