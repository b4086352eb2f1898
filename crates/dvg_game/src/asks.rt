//! Why an instruction may not lead to a place.
use crate::instruction::Instruction;
use crate::program::{NMI_VECTOR, Program};
use dvg_game_check::{Ask, FIRST, Kind, Level, Note, PLACES};
use dvg_io::Text;
use std::alloc::Allocator;
use std::fmt::{self, Write};

/// Returns the name of a level.
pub(crate) fn level_name(level: Level) -> &'static str {
    match level {
        Level::Main => "main",
        Level::Sub => "sub",
        Level::Nmi => "nmi",
    }
}

/// Tells a number of bytes.
pub(crate) fn tell_bytes<A: Allocator>(out: &mut Text<A>, count: u16) -> fmt::Result {
    if count == 1 {
        return write!(out, "1 byte");
    }
    write!(out, "{count} bytes")
}

/// A way from an instruction to the address `to`: behind itself, or elsewhere.
#[derive(Clone, Copy)]
pub(crate) struct Way {
    pub to: u32,
    pub is_behind: bool,
    /// The level that it leads to, and how many bytes are pushed there.
    pub level: Level,
    pub depth: u16,
}

/// Returns the first JSR to an address, if there is one.
pub(crate) fn call_of(program: &Program<'_>, to: u32) -> Option<u32> {
    for k in 0..PLACES {
        let at = FIRST + k;
        if let Some(step) = program.step(at) {
            if step.calls == Some(to) {
                return Some(at);
            }
        }
    }
    None
}

// Tells what to do where a way of the program or of a subroutine leads to the other level.
fn tell_shared<A: Allocator>(
    out: &mut Text<A>,
    program: &Program<'_>,
    to: u32,
    new: Level,
) -> fmt::Result {
    if matches!(new, Level::Main) {
        return write!(
            out,
            "a subroutine ends with RTS, and doesn't lead into the program's loop"
        );
    }
    match call_of(program, to) {
        Some(at) => write!(
            out,
            "it is called at {at:04X}, and ends with RTS: call it here, too"
        ),
        None => write!(out, "it is in a subroutine, which is called by JSR"),
    }
}

// Tells what to do where a way leads to a place of another level.
fn tell_cure<A: Allocator>(
    out: &mut Text<A>,
    program: &Program<'_>,
    way: &Way,
    new: Level,
) -> fmt::Result {
    let is_nmi = matches!(new, Level::Nmi);
    if way.is_behind && (!is_nmi || way.to == u32::from(program.word(NMI_VECTOR))) {
        let missing = if matches!(way.level, Level::Nmi) {
            "RTI"
        } else {
            "RTS or JMP"
        };
        return write!(out, "is an {missing} missing before it?");
    }
    if is_nmi || matches!(way.level, Level::Nmi) {
        return write!(
            out,
            "the NMI leads there, too: it ends with RTI, and shares no instruction with the program"
        );
    }
    tell_shared(out, program, way.to, new)
}

// Tells of a way to a place of another level.
fn tell_level<A: Allocator>(out: &mut Text<A>, program: &Program<'_>, way: &Way) -> fmt::Result {
    let (to, now) = (way.to, level_name(way.level));
    let Some(new) = program.note(to) else {
        return Ok(());
    };
    let next = level_name(new.level);
    if way.is_behind {
        write!(
            out,
            "it runs on into {to:04X}, which is {next}, not {now}: "
        )?;
    } else {
        write!(out, "it goes on at {to:04X}, which is {next}, not {now}: ")?;
    }
    tell_cure(out, program, way, new.level)
}

// Tells of a way to a place with another depth.
fn tell_depth<A: Allocator>(out: &mut Text<A>, program: &Program<'_>, way: &Way) -> fmt::Result {
    let to = way.to;
    let depth = match program.note(to) {
        Some(new) => new.depth,
        None => 0,
    };
    tell_bytes(out, way.depth)?;
    write!(
        out,
        " on the stack, and at {to:04X} {depth}: push and pull as much on each way"
    )
}

/// Tells what the place at the end of a way asks for that isn't so.
pub(crate) fn tell_ask<A: Allocator>(
    out: &mut Text<A>,
    program: &Program<'_>,
    way: &Way,
    ask: Ask,
) -> fmt::Result {
    let to = way.to;
    match ask {
        Ask::Noted => write!(
            out,
            "it goes on at {to:04X}, where no instruction of the game is known"
        ),
        Ask::Level => tell_level(out, program, way),
        Ask::Depth => tell_depth(out, program, way),
        Ask::Room => write!(
            out,
            "it needs more of the stack than there is: does a subroutine call itself, or a loop \
             push? Let it keep in RAM what it would push"
        ),
        Ask::Fuel => write!(
            out,
            "the NMI may loop, or lasts too long: write each round of a loop for itself"
        ),
        Ask::Awake => write!(
            out,
            "dvg_reset may not have been called, or a byte of 10 to 20 was stored since"
        ),
        Ask::Held => write!(out, "a register is not what it is taken for"),
        Ask::Slots => write!(out, "a byte of the stack is not what it is taken for"),
        Ask::Blank => write!(out, "the frame may be empty"),
        Ask::Ends => write!(out, "its RTS may leave an empty frame"),
    }
}

// Returns how many bytes are pushed behind an instruction.
fn depth_behind(program: &Program<'_>, at: u32, now: &Note) -> u16 {
    match program.kind(at) {
        Kind::Push | Kind::PushFlags => now.depth.saturating_add(1),
        Kind::Pull | Kind::PullFlags => now.depth.saturating_sub(1),
        _ => now.depth,
    }
}

/// Returns the way behind an instruction.
pub(crate) fn way_behind(program: &Program<'_>, i: &Instruction, now: &Note) -> Way {
    Way {
        to: i.next(),
        is_behind: true,
        level: now.level,
        depth: depth_behind(program, i.at, now),
    }
}

/// Returns the way to where an instruction leads.
pub(crate) fn way_there(program: &Program<'_>, i: &Instruction, now: &Note) -> Way {
    let calls = matches!(program.kind(i.at), Kind::Call);
    Way {
        to: u32::from(i.operand()),
        is_behind: false,
        level: if calls { Level::Sub } else { now.level },
        depth: if calls { 0 } else { now.depth },
    }
}
