//! What is told of a program that isn't refused.
use crate::program::{NMI_VECTOR, Program};
use crate::search::Search;
use dvg_game_check::{FIRST, Kind, PLACES};
use dvg_io::Text;
use std::alloc::{AllocError, Allocator};
use std::fmt::{self, Write};

/// How much there is of a program.
#[derive(Clone, Copy)]
pub(crate) struct Counts {
    /// Instructions behind TXS, and subroutines that are called.
    pub instructions: u32,
    pub subroutines: u32,
    /// Bytes of the stack, at most, and instructions of the NMI.
    pub stack: u32,
    pub fuel: u32,
}

/// Counts what there is of a program.
pub(crate) fn count<A: Allocator + Copy>(
    alloc: A,
    program: &Program<'_>,
) -> Result<Counts, AllocError> {
    let mut counts = Counts {
        instructions: 0,
        subroutines: 0,
        stack: 3,
        fuel: 0,
    };
    let mut called = Search::new(alloc)?;
    let mut last = None;
    for k in 0..PLACES {
        if let Some(step) = program.step(FIRST + k) {
            counts.instructions = counts.instructions.wrapping_add(1);
            if matches!(step.kind, Kind::Finish) {
                last = program.note(FIRST + k);
            }
            if let Some(sub) = step.calls {
                if !called.is_marked(sub) {
                    counts.subroutines = counts.subroutines.wrapping_add(1);
                    called.mark(sub)?;
                }
            }
        }
    }
    if let Some(first) = program.note(program.start) {
        counts.stack = counts.stack.wrapping_add(u32::from(first.room));
    }
    if let Some(nmi) = program.note(u32::from(program.word(NMI_VECTOR))) {
        counts.stack = counts.stack.wrapping_add(u32::from(nmi.room));
        let left = match last {
            Some(note) => note.fuel,
            None => 0,
        };
        counts.fuel = u32::from(nmi.fuel.saturating_sub(left)).wrapping_add(1);
    }
    Ok(counts)
}

/// Tells how much there is of a program, and how many tables and words were looked at.
pub(crate) fn tell_counts<A: Allocator>(
    out: &mut Text<A>,
    counts: Counts,
    tables: usize,
    words: usize,
) -> fmt::Result {
    let (instructions, subroutines) = (counts.instructions, counts.subroutines);
    let (stack, fuel) = (counts.stack, counts.fuel);
    write!(
        out,
        "{instructions} instructions behind TXS, {subroutines} subroutines; at most {stack} bytes \
         of the stack, and {fuel} instructions of the NMI\n"
    )?;
    write!(out, "{tables} tables checked, {words} words checked\n")
}
