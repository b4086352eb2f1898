//! Which instruction offers a table, or puts a word.
use crate::program::Program;
use dvg_game_check::{BYTES, FAR, FIRST, PLACES, known_at, value};

/// The routines to which a table is offered, and a word put.
pub(crate) const OFFER: u16 = 0x68FE;

pub(crate) const PUT: u16 = 0x6957;

// Whether A and X are known to be this word at a place, for some Y.
fn brings(rom: &[u8], ways: &[u8], at: u32, word: u16) -> bool {
    if rom.len() != BYTES || ways.len() != PLACES as usize || FIRST + PLACES <= at {
        return false;
    }
    let fact = known_at(rom, ways, FAR, at);
    for y in 0..fact.most {
        if let (Some(a), Some(x)) = (value(rom, fact.a, y), value(rom, fact.x, y)) {
            if u16::from(a) + 256 * u16::from(x) == word {
                return true;
            }
        }
    }
    false
}

/// Returns the first instruction that calls or jumps to a routine, and brings this word to it.
pub(crate) fn bringer(program: &Program<'_>, ways: &[u8], entry: u16, word: u16) -> Option<u32> {
    for k in 0..PLACES {
        let at = FIRST + k;
        if let Some(step) = program.step(at) {
            if step.drives == Some(entry) && brings(program.rom, ways, at, word) {
                return Some(at);
            }
        }
    }
    None
}
