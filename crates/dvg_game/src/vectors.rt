//! What is told of the reset and of the vectors.
use crate::alone::{tell_store, tell_wild};
use crate::asks::level_name;
use crate::instruction::Instruction;
use crate::program::{NMI_VECTOR, Program};
use dvg_game_check::{FIRST, Kind, Level, PLACES, Test, reached};
use dvg_io::Text;
use std::alloc::Allocator;
use std::fmt::{self, Write};

/// The most instructions of the NMI before its RTI, the most bytes that it may push, and those that
/// the program may.
const MOST_FUEL: u16 = 800;

const MOST_ROOM_OF_NMI: u16 = 29;

const MOST_ROOM: u16 = 223;

/// Whether a place is one of the game's code.
fn is_code(at: u32) -> bool {
    FIRST <= at && at < FIRST + PLACES
}

/// Tells why a reset doesn't come to LDX #$FF and TXS, because of what is at this address.
pub(crate) fn tell_boot<A: Allocator>(
    out: &mut Text<A>,
    program: &Program<'_>,
    at: u32,
) -> fmt::Result {
    if !is_code(at) {
        let mirror = at.wrapping_sub(0x8000);
        write!(out, "the reset leads out of the game")?;
        if is_code(mirror) {
            write!(out, ": let its vector be {mirror:04X}")?;
        }
        return Ok(());
    }
    let i = Instruction::new(program, at);
    write!(out, "{i}: ")?;
    match program.kind(at) {
        Kind::Wild => return tell_wild(out, &i, false),
        Kind::Stores(place) if !reached(place, i.low, i.word, Test::Writable(Level::Main)) => {
            return tell_store(out, &i, Level::Main);
        }
        _ => {}
    }
    let is_nmi = matches!(
        program.kind(at),
        Kind::Finish | Kind::Push | Kind::PushFlags
    );
    write!(
        out,
        "a reset begins with LDX #$FF, TXS, after 31 instructions at most; before it come loads \
         and stores alone: "
    )?;
    if is_nmi {
        return write!(out, "VECTORS has .word nmi, reset, irq, in this order");
    }
    write!(out, "let this follow it")
}

// Tells what is wrong with the note of the NMI's first instruction.
fn tell_nmi<A: Allocator>(out: &mut Text<A>, program: &Program<'_>) -> fmt::Result {
    let nmi = u32::from(program.word(NMI_VECTOR));
    let Some(note) = program.note(nmi) else {
        return write!(out, "the vectors: the NMI's vector leads nowhere\n");
    };
    if !matches!(note.level, Level::Nmi) {
        return write!(
            out,
            "the vectors: the NMI's vector leads to {nmi:04X}, where the program comes, too\n"
        );
    }
    if MOST_FUEL < note.fuel {
        let most = MOST_FUEL + 1;
        return write!(
            out,
            "the vectors: the NMI may loop, or does more than {most} instructions\n"
        );
    }
    let room = note.room;
    if MOST_ROOM_OF_NMI < room {
        return write!(
            out,
            "the vectors: the NMI may push {room} bytes: {MOST_ROOM_OF_NMI} are left for it\n"
        );
    }
    Ok(())
}

/// Tells what is wrong with the notes of the first instructions, of the program and of the NMI.
pub(crate) fn tell_vectors<A: Allocator>(out: &mut Text<A>, program: &Program<'_>) -> fmt::Result {
    match program.note(program.start) {
        None => write!(out, "the vectors: no instruction follows TXS\n")?,
        Some(note) if !matches!(note.level, Level::Main) => {
            let level = level_name(note.level);
            write!(
                out,
                "the vectors: the instruction behind TXS is {level}, not main\n"
            )?;
        }
        Some(note) if MOST_ROOM < note.room => {
            write!(
                out,
                "the vectors: the program may push more than {MOST_ROOM} bytes: does a subroutine \
                 call itself?\n"
            )?;
        }
        Some(_) => {}
    }
    tell_nmi(out, program)
}
