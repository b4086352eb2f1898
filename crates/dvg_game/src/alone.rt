//! Why an instruction isn't allowed, whatever comes after it.
use crate::asks::{level_name, tell_bytes};
use crate::instruction::{Instruction, Mode};
use crate::places::{cure_of_any, routine, tell_place};
use dvg_game_check::{Kind, Level, Note, Operand, Register, Slot, Test, kind_of, reached};
use dvg_io::Text;
use std::alloc::Allocator;
use std::fmt::{self, Write};

/// The address of `dvg_copy`.
const COPY: u16 = 0x69C0;

/// Tells why an instruction isn't one that the checker takes.
pub(crate) fn tell_wild<A: Allocator>(
    out: &mut Text<A>,
    i: &Instruction,
    boots: bool,
) -> fmt::Result {
    let opcode = i.opcode;
    match i.mode {
        Mode::Unknown => write!(
            out,
            "{opcode:02X} is no opcode: does the program run on into data, as an RTS or JMP is \
             missing before it? Write JMP for a branch that is always taken, and keep text away \
             from behind a JSR"
        ),
        Mode::Indirect => write!(
            out,
            "a jump by a table leads nobody knows where: compare, and JMP"
        ),
        Mode::IndirectX | Mode::IndirectY => write!(
            out,
            "it stores through a pointer, which may lead anywhere: store by an index, into an \
             array for each field (sta FIELD,x)"
        ),
        _ if opcode == 0 => write!(
            out,
            "the checker doesn't take BRK: it goes where an IRQ does"
        ),
        _ if boots => write!(
            out,
            "the NMI's vector leads there, where S is set as a reset does: VECTORS has .word nmi, \
             reset, irq, in this order"
        ),
        _ => write!(
            out,
            "S is set at a reset alone: LDX #$FF, TXS behind one another, before any call"
        ),
    }
}

// Returns the first address that an instruction may reach and that doesn't pass a test.
fn first_failing(i: &Instruction, place: Operand, test: Test) -> Option<u16> {
    let (from, count) = match place {
        Operand::ZeroPage => (u16::from(i.low), 1),
        Operand::ZeroPageIndexed => (0, 256u16),
        Operand::Absolute => (i.word, 1),
        Operand::AbsoluteIndexed => (i.word, 256),
    };
    for k in 0..count {
        let a = from.wrapping_add(k);
        if !reached(Operand::Absolute, 0, a, test) {
            return Some(a);
        }
    }
    None
}

// Returns the address that a store may reach and of which an author most wants to know, of those
// that don't pass: one of the strobe or of the vector RAM, or else the first.
fn worst_failing(i: &Instruction, place: Operand, test: Test) -> Option<u16> {
    let first = first_failing(i, place, test);
    if let Operand::AbsoluteIndexed = place {
        for k in 0..256u16 {
            let a = i.word.wrapping_add(k);
            let is_worst = matches!(a, 0x3000..=0x31FF | 0x4000..=0x47FF);
            if is_worst && !reached(Operand::Absolute, 0, a, test) {
                return Some(a);
            }
        }
    }
    first
}

// Returns which byte an instruction reads or writes.
fn operand_of(i: &Instruction) -> Option<Operand> {
    match kind_of(i.opcode) {
        Kind::Reads(_, place) | Kind::Stores(place) => Some(place),
        _ => None,
    }
}

/// Tells that an instruction may read the strobe.
pub(crate) fn tell_read<A: Allocator>(out: &mut Text<A>, i: &Instruction) -> fmt::Result {
    if let Some(place) = operand_of(i) {
        if let Some(a) = first_failing(i, place, Test::NoStrobe) {
            return write!(out, "it may read {a:04X}, the strobe");
        }
    }
    write!(out, "it may read the strobe")
}

// Tells what a store may reach, and what to write in its place.
fn tell_reached<A: Allocator>(
    out: &mut Text<A>,
    i: &Instruction,
    level: Level,
    a: u16,
) -> fmt::Result {
    let in_nmi = if matches!(level, Level::Nmi) {
        ", in the NMI"
    } else {
        ""
    };
    let indexed = matches!(
        i.mode,
        Mode::ZeroPageX | Mode::ZeroPageY | Mode::AbsoluteX | Mode::AbsoluteY
    );
    if !indexed {
        write!(out, "it writes {a:04X}, ")?;
        tell_place(out, a)?;
        return write!(out, "{in_nmi}{}", cure_of_any(a));
    }
    write!(out, "by its index it may reach {a:04X}, ")?;
    tell_place(out, a)?;
    if 0x100 <= i.operand() && i.operand() < 0x200 {
        return write!(
            out,
            ": the stack is written by pushes alone; where RAM is cleared, leave out page 1"
        );
    }
    if i.operand() < 0x400 {
        return write!(
            out,
            ": let the array stand from 0200 on, and begin at 0300 or before (.segment \"BSS\")"
        );
    }
    write!(out, "{in_nmi}{}", cure_of_any(a))
}

/// Tells where a store may write that its level may not.
pub(crate) fn tell_store<A: Allocator>(
    out: &mut Text<A>,
    i: &Instruction,
    level: Level,
) -> fmt::Result {
    if let Some(place) = operand_of(i) {
        if let Some(a) = worst_failing(i, place, Test::Writable(level)) {
            return tell_reached(out, i, level, a);
        }
    }
    write!(out, "it may write where code of its level may not")
}

/// Tells that what an instruction calls or jumps to of the driver is no routine of it.
pub(crate) fn tell_entry<A: Allocator>(out: &mut Text<A>, i: &Instruction) -> fmt::Result {
    let to = i.operand();
    if to == COPY {
        return write!(out, "dvg_copy isn't proved: put its words by dvg_put");
    }
    write!(
        out,
        "it goes to {to:04X}, which is no routine that is proved"
    )
}

/// Tells that the NMI calls a routine of the driver.
pub(crate) fn tell_nmi_drives<A: Allocator>(out: &mut Text<A>, i: &Instruction) -> fmt::Result {
    let name = routine(i.operand());
    write!(out, "the NMI calls {name}: let the program call it")
}

/// Tells that a routine is called where a frame may be empty yet.
pub(crate) fn tell_blank<A: Allocator>(out: &mut Text<A>, i: &Instruction) -> fmt::Result {
    let name = routine(i.operand());
    write!(
        out,
        "{name} comes where the frame may be empty yet: begin it with dvg_labs"
    )
}

/// Tells why a return isn't allowed at its level.
pub(crate) fn tell_return_level<A: Allocator>(out: &mut Text<A>, now: &Note) -> fmt::Result {
    match now.level {
        Level::Nmi => write!(out, "it returns from level nmi: the NMI ends with RTI"),
        level => {
            let level = level_name(level);
            write!(out, "it returns from level {level}, where no call is open")
        }
    }
}

/// Tells why a return isn't allowed with these bytes on the stack.
pub(crate) fn tell_return_depth<A: Allocator>(out: &mut Text<A>, now: &Note) -> fmt::Result {
    write!(out, "it returns with ")?;
    tell_bytes(out, now.depth)?;
    write!(out, " more on the stack: pull what was pushed, on each way")?;
    if now.depth == 2 {
        write!(out, "; in place of a jump by two bytes, compare, and JMP")?;
    }
    Ok(())
}

// Whether a slot holds what a register was where the NMI came.
fn is_kept(slot: Slot, register: Register) -> bool {
    match slot {
        Slot::Any => false,
        Slot::Was(was) => was == register,
    }
}

/// Tells which register the NMI doesn't give back.
pub(crate) fn tell_lost<A: Allocator>(out: &mut Text<A>, now: &Note) -> fmt::Result {
    let name = if !is_kept(now.held.a, Register::A) {
        "A"
    } else if !is_kept(now.held.x, Register::X) {
        "X"
    } else {
        "Y"
    };
    write!(
        out,
        "the NMI does not give back {name}: push it first of all, and pull it before RTI"
    )
}

/// Tells why an RTI isn't allowed, at its level, or with these bytes on the stack.
pub(crate) fn tell_finish<A: Allocator>(out: &mut Text<A>, now: &Note) -> fmt::Result {
    if !matches!(now.level, Level::Nmi) {
        let level = level_name(now.level);
        return write!(out, "RTI from level {level}: the NMI alone ends with it");
    }
    write!(out, "RTI with ")?;
    tell_bytes(out, now.depth)?;
    write!(out, " more on the stack: pull what was pushed")
}
