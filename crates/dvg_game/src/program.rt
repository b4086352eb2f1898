//! A program that is told of.
use dvg_game_check::{
    BYTES, FIRST, Kind, Note, PLACES, boot, is_driver, kind_of, length_of, target_of,
};

/// Where the program's bytes begin.
const ROM: u32 = 0x6800;

/// The address of the NMI's vector.
pub(crate) const NMI_VECTOR: u32 = 0x7FFA;

/// The address of the reset's vector.
pub(crate) const RESET_VECTOR: u32 = 0x7FFC;

/// Where an instruction leads.
#[derive(Clone, Copy)]
pub(crate) struct Step {
    pub kind: Kind,
    /// Behind itself, and where it branches or jumps to.
    pub next: Option<u32>,
    pub to: Option<u32>,
    /// The subroutine that it calls, or the routine of the driver that it calls or jumps to.
    pub calls: Option<u32>,
    pub drives: Option<u16>,
}

/// The bytes of a program from 6800 to 7FFF, its notes, and where it starts behind TXS.
#[derive(Clone, Copy)]
pub(crate) struct Program<'a> {
    pub rom: &'a [u8],
    pub notes: &'a [Option<Note>],
    pub start: u32,
}

// Returns where a program starts, or 0.
fn start_of(rom: &[u8]) -> u32 {
    if rom.len() != BYTES {
        return 0;
    }
    match boot(rom) {
        Ok(start) => start,
        Err(_) => 0,
    }
}

impl<'a> Program<'a> {
    /// Returns the program of these bytes, with these notes.
    pub(crate) fn new(rom: &'a [u8], notes: &'a [Option<Note>]) -> Program<'a> {
        Program {
            rom,
            notes,
            start: start_of(rom),
        }
    }

    /// Returns the byte at an address, or 0 outside of the program.
    pub(crate) fn byte(&self, at: u32) -> u8 {
        match self.rom.get(at.wrapping_sub(ROM) as usize) {
            Some(byte) => *byte,
            None => 0,
        }
    }

    /// Returns the word at an address, its low byte first.
    pub(crate) fn word(&self, at: u32) -> u16 {
        u16::from(self.byte(at)) + 256 * u16::from(self.byte(at.wrapping_add(1)))
    }

    /// Returns the note of a place, if code is there.
    pub(crate) fn note(&self, at: u32) -> Option<&'a Note> {
        match self.notes.get(at.wrapping_sub(FIRST) as usize) {
            Some(Some(note)) => Some(note),
            _ => None,
        }
    }

    /// Returns the kind of the instruction at an address.
    pub(crate) fn kind(&self, at: u32) -> Kind {
        kind_of(self.byte(at))
    }

    // Returns the routine of the driver that a JSR or a JMP at a place leads to.
    fn driven(&self, at: u32, kind: Kind) -> Option<u16> {
        let word = self.word(at.wrapping_add(1));
        match kind {
            Kind::Call if is_driver(word) => Some(word),
            Kind::Jump if is_driver(word) && word != self.word(RESET_VECTOR) => Some(word),
            _ => None,
        }
    }

    /// Returns where the instruction at an address leads, if code is there.
    pub(crate) fn step(&self, at: u32) -> Option<Step> {
        if self.rom.len() != BYTES || at < FIRST || FIRST + PLACES <= at {
            return None;
        }
        if self.note(at).is_none() {
            return None;
        }
        let kind = self.kind(at);
        let target = target_of(self.rom, at);
        let is_call = matches!(kind, Kind::Call);
        let length = length_of(kind);
        Some(Step {
            kind,
            next: if length == 0 { None } else { Some(at + length) },
            to: if is_call { None } else { target },
            calls: if is_call { target } else { None },
            drives: self.driven(at, kind),
        })
    }
}
