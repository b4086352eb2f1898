//! The notes of a program, and what it offers and puts, as lines.
use crate::asks::level_name;
use crate::bringer::{OFFER, bringer};
use crate::instruction::Instruction;
use crate::program::Program;
use dvg_game_check::{FIRST, Note, PLACES, Register, Slot};
use dvg_io::Text;
use std::alloc::Allocator;
use std::fmt::{self, Write};

// Returns a letter for what a byte is known to be: what A, X or Y was where the NMI came, or a dot.
fn letter_of(slot: Slot) -> char {
    match slot {
        Slot::Any => '.',
        Slot::Was(Register::A) => 'a',
        Slot::Was(Register::X) => 'x',
        Slot::Was(Register::Y) => 'y',
    }
}

// Tells whether something is so, by a name.
fn tell_flag<A: Allocator>(out: &mut Text<A>, name: &'static str, is: bool) -> fmt::Result {
    if is { write!(out, " {name}") } else { Ok(()) }
}

// Tells a note.
fn tell_note<A: Allocator>(out: &mut Text<A>, note: &Note) -> fmt::Result {
    let (level, depth) = (level_name(note.level), note.depth);
    let (room, fuel) = (note.room, note.fuel);
    write!(out, "{level} depth {depth} room {room} fuel {fuel} held ")?;
    let held = note.held;
    let (a, x, y) = (letter_of(held.a), letter_of(held.x), letter_of(held.y));
    write!(out, "{a}{x}{y} pushed ")?;
    if note.slots.as_slice().is_empty() {
        write!(out, "-")?;
    }
    for slot in note.slots.as_slice() {
        let letter = letter_of(*slot);
        write!(out, "{letter}")?;
    }
    tell_flag(out, "awake", note.awake)?;
    tell_flag(out, "blank", note.blank)?;
    tell_flag(out, "ends", note.ends)?;
    write!(out, "\n")
}

/// Tells the note of each place that has one, in a line, behind its address and its instruction.
pub(crate) fn tell_notes<A: Allocator>(out: &mut Text<A>, program: &Program<'_>) -> fmt::Result {
    for k in 0..PLACES {
        let at = FIRST + k;
        if let Some(note) = program.note(at) {
            let i = Instruction::new(program, at);
            write!(out, "note {at:04X}: {i}: ")?;
            tell_note(out, note)?;
        }
    }
    Ok(())
}

/// Tells each of these words, in a line, and the first instruction that brings it to a routine.
pub(crate) fn tell_brought<A: Allocator>(
    out: &mut Text<A>,
    program: &Program<'_>,
    ways: &[u8],
    entry: u16,
    words: &[u16],
) -> fmt::Result {
    let what = if entry == OFFER { "offered" } else { "put" };
    for word in words {
        let word = *word;
        write!(out, "{what} {word:04X}")?;
        if let Some(at) = bringer(program, ways, entry, word) {
            write!(out, " at {at:04X}")?;
        }
        write!(out, "\n")?;
    }
    Ok(())
}
