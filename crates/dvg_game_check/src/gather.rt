//! Makes notes of what a program brings. Nothing is promised of them but how many there are: the
//! check refuses what is wrong.
ghost use Rattle.std.specs.Prelude.{◌≡◌, ◌+◌, ◌<◌, ◌≤◌, IfOk, length};

use crate::follow::{FIRST, PLACES};
use crate::kind::{Kind, kind_of};
use crate::known::{FAR, contains, known_at, value};
use crate::note::Note;
use crate::rules::{BYTES, byte_at, word_at};
use crate::work::{filled, length_of, number_of, target_of};
use std::alloc::{AllocError, Allocator};

/// More tables, or more words, than any program has.
const MOST: usize = 4096;

/// From where a place is come to.
#[derive(Clone, Copy)]
struct Before {
    /// How many instructions go on there behind themselves, and how many bytes the last one has.
    count: u32,
    size: u32,
    /// It is come to otherwise, too.
    entered: bool,
}

fn enter(places: &mut [Before], at: u32) {
    if let Some(place) = places.get_mut(number_of(at)) {
        place.entered = true;
    }
}

fn is_noted(notes: &[Option<Note>], at: u32) -> bool {
    match notes.get(number_of(at)) {
        Some(Some(_)) => true,
        _ => false,
    }
}

// Returns whether a JSR or a JMP there brings something to the driver.
fn brings(rom: &[u8], at: u32) -> bool
    requires bytes { length rom.now ≡ BYTES }
    requires first { FIRST ≤ at }
    requires last { at < FIRST + PLACES }
{
    let word = word_at(rom, at + 1);
    match kind_of(byte_at(rom, at)) {
        Kind::Jump | Kind::Call => word == 0x68FE || word == 0x6957,
        _ => false,
    }
}

// Returns from where each place is come to.
fn befores<A: Allocator>(
    alloc: A,
    rom: &[u8],
    notes: &[Option<Note>],
    start: u32,
) -> Result<Vec<Before, A>, AllocError>
    requires { length rom.now ≡ BYTES }
{
    let none = Before {
        count: 0,
        size: 0,
        entered: false,
    };
    let mut places = filled(alloc, none)?;
    enter(&mut places, start);
    enter(&mut places, u32::from(word_at(rom, 0x7FFA)));
    enter(&mut places, u32::from(word_at(rom, 0x7FFC)));
    for i in 0..PLACES {
        let at = FIRST + i;
        if is_noted(notes, at) {
            if let Some(to) = target_of(rom, at) {
                enter(&mut places, to);
            }
            let kind = kind_of(byte_at(rom, at));
            let size = length_of(kind);
            if matches!(kind, Kind::Call) {
                enter(&mut places, at + 3);
            } else if let Some(place) = places.get_mut(number_of(at + size)) {
                if size != 0 {
                    place.count = place.count.saturating_add(1);
                    place.size = size;
                }
            }
        }
    }
    Ok(places)
}

/// Returns how many bytes the instruction has from which alone a place is come to, for the places
/// on straight ways to calls that bring something, and else 0.
pub fn ways<A: Allocator + Copy>(
    alloc: A,
    rom: &[u8],
    notes: &[Option<Note>],
    start: u32,
) -> Result<Vec<u8, A>, AllocError>
    requires { length rom.now ≡ BYTES }
    ensures { IfOk result (λ ways. length ways.items ≡ PLACES) }
{
    let places = befores(alloc, rom, notes, start)?;
    let mut found: Vec<u8, A> = filled(alloc, 0)?;
    for i in 0..PLACES {
        let first = FIRST + i;
        if is_noted(notes, first) && brings(rom, first) {
            let mut at = first;
            for _ in 0..FAR {
                if let Some(place) = places.get(number_of(at)) {
                    if place.entered || place.count != 1 || 3 < place.size {
                        break;
                    }
                    if let Some(way) = found.get_mut(number_of(at)) {
                        *way = (place.size % 256) as u8;
                    }
                    at = at.wrapping_sub(place.size);
                }
            }
        }
    }
    let mut ways = Vec::new(alloc);
    for i in 0..PLACES {
        match found.get(i as usize) {
            Some(way) => ways.push(*way)?,
            None => ways.push(0)?,
        }
    }
    Ok(ways)
}

/// Returns the words that A and X may be at the program's calls of a routine.
pub fn brought_to<A: Allocator>(
    alloc: A,
    rom: &[u8],
    notes: &[Option<Note>],
    ways: &[u8],
    entry: u16,
) -> Result<Vec<u16, A>, AllocError>
    requires bytes { length rom.now ≡ BYTES }
    requires ways { length ways.now ≡ PLACES }
{
    let mut list = Vec::new(alloc);
    for i in 0..PLACES {
        let at = FIRST + i;
        if is_noted(notes, at) && brings(rom, at) && word_at(rom, at + 1) == entry {
            let fact = known_at(rom, ways, FAR, at);
            for y in 0..fact.most {
                if let (Some(a), Some(x)) = (value(rom, fact.a, y), value(rom, fact.x, y)) {
                    let word = u16::from(a) + 256 * u16::from(x);
                    if list.len() < MOST && !contains(&list, word) {
                        list.push(word)?;
                    }
                }
            }
        }
    }
    Ok(list)
}
