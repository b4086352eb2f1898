//! What is told of what isn't seen.
ghost use Rattle.dvg_game.specs.Telling.{IsPlaceOf};

use crate::bringer::{OFFER, PUT, bringer};
use crate::instruction::Instruction;
use crate::program::Program;
use dvg_game_check::{Gap, Unseen};
use dvg_io::Text;
use std::alloc::Allocator;
use std::fmt::{self, Write};

// Returns what an instruction does with what isn't seen.
fn what_of(i: &Instruction) -> &'static str {
    if i.operand() == OFFER {
        "offers"
    } else {
        "puts"
    }
}

// Tells of an instruction why what it offers or puts isn't seen.
fn tell_gap<A: Allocator>(
    out: &mut Text<A>,
    program: &Program<'_>,
    at: u32,
    gap: Gap,
) -> fmt::Result {
    let i = Instruction::new(program, at);
    let what = what_of(&i);
    write!(out, "{i}: ")?;
    match gap {
        Gap::Pair => write!(out, "what dvg_pair puts isn't seen"),
        Gap::Ways => write!(out, "it leads amid a way on which something is known"),
        Gap::Unknown => write!(
            out,
            "what it {what} isn't seen: it is seen where lda LIST,y and ldx LIST,y stand right \
             before the call, and before these cpy #LENGTH and bcs, or and #MASK and tay; or where \
             lda # and ldx # do"
        ),
        Gap::Outside => write!(
            out,
            "what it {what} isn't seen: it is of a list that isn't all in the program's ROM"
        ),
        Gap::Missing(word) => write!(out, "it {what} {word:04X}, which isn't seen to be good"),
    }
}

/// Returns the instruction of which not all that it offers or puts is seen to be good, if one is
/// found.
pub(crate) fn place_of(program: &Program<'_>, ways: &[u8], why: Unseen) -> Option<u32>
    ensures { IsPlaceOf why result }
{
    match why {
        Unseen::At(at, _) => Some(at),
        Unseen::Start => None,
        Unseen::Table(table) => bringer(program, ways, OFFER, table),
        Unseen::Word(word) => bringer(program, ways, PUT, word),
    }
}

/// Tells of an instruction what isn't seen to be good.
pub(crate) fn tell_unseen<A: Allocator>(
    out: &mut Text<A>,
    program: &Program<'_>,
    at: u32,
    why: Unseen,
) -> fmt::Result {
    let i = Instruction::new(program, at);
    match why {
        Unseen::At(_, gap) => tell_gap(out, program, at, gap),
        Unseen::Start => write!(out, "{i}: it is the first one, and follows another one"),
        Unseen::Table(table) => write!(
            out,
            "{i}: it offers {table:04X}, where no table stands that may be drawn: dvg lay --table \
             writes one"
        ),
        Unseen::Word(word) => write!(
            out,
            "{i}: it puts {word:04X}, which is no call of a shape, nor a short vector: dvg_call \
             NAME"
        ),
    }
}
