//! The places that are still to be looked at.
ghost use Rattle.std.specs.Prelude.{◌≡◌, ◌+◌, ◌<◌, ◌≤◌, IfOk, length};

use crate::follow::{FIRST, PLACES};
use crate::kind::{Kind, kind_of, size};
use crate::rules::{BYTES, byte_at, is_driver, target, word_at};
use std::alloc::{AllocError, Allocator};

/// Returns as many of a value as there are places.
pub fn filled<A: Allocator, T: Copy>(alloc: A, value: T) -> Result<Vec<T, A>, AllocError>
    ensures { IfOk result (λ all. length all.items ≡ PLACES) }
{
    let mut all = Vec::new(alloc);
    for _ in 0..PLACES {
        all.push(value)?;
    }
    Ok(all)
}

/// Returns the number of a place, or one that no place has.
pub fn number_of(at: u32) -> usize {
    at.wrapping_sub(FIRST) as usize
}

/// Returns how many bytes an instruction has that goes on behind itself, or 0.
pub fn length_of(kind: Kind) -> u32
    ensures { result < 256 }
{
    match kind {
        Kind::Quiet(_, bytes) => u32::from(bytes),
        Kind::Reads(_, place) | Kind::Stores(place) => u32::from(size(place)),
        Kind::Transfer(_, _) | Kind::Push | Kind::PushFlags | Kind::Pull | Kind::PullFlags => 1,
        Kind::Branch => 2,
        Kind::Call => 3,
        Kind::Jump | Kind::Return | Kind::Finish | Kind::Wild => 0,
    }
}

/// Returns where an instruction branches, jumps or calls to in the program.
pub fn target_of(rom: &[u8], at: u32) -> Option<u32>
    requires bytes { length rom.now ≡ BYTES }
    requires first { FIRST ≤ at }
    requires last { at < FIRST + PLACES }
{
    let word = word_at(rom, at + 1);
    match kind_of(byte_at(rom, at)) {
        Kind::Branch => Some(target(at, byte_at(rom, at + 1))),
        Kind::Jump => {
            if is_driver(word) || word == word_at(rom, 0x7FFC) {
                return None;
            }
            Some(u32::from(word))
        }
        Kind::Call => {
            if is_driver(word) {
                return None;
            }
            Some(u32::from(word))
        }
        _ => None,
    }
}

// The place of a list, or 0.
fn place_in(list: &[u32], at: u32) -> u32 {
    match list.get(number_of(at)) {
        Some(place) => *place,
        None => 0,
    }
}

fn put_in(list: &mut [u32], at: u32, place: u32) {
    if let Some(known) = list.get_mut(number_of(at)) {
        *known = place;
    }
}

/// From where each place is branched, jumped or called to: a list for each.
#[derive(Drop)]
pub struct Callers<A: Allocator> {
    first: Vec<u32, A>,
    next: Vec<u32, A>,
}

impl<A: Allocator + Copy> Callers<A> {
    /// Returns the callers of all places of a program.
    pub fn of(alloc: A, rom: &[u8]) -> Result<Callers<A>, AllocError>
        requires { length rom.now ≡ BYTES }
    {
        let mut first = filled(alloc, 0)?;
        let mut next = filled(alloc, 0)?;
        for i in 0..PLACES {
            let from = FIRST + i;
            if let Some(to) = target_of(rom, from) {
                let old = place_in(&first, to);
                put_in(&mut next, from, old);
                put_in(&mut first, to, from);
            }
        }
        Ok(Callers { first, next })
    }

    /// Returns the first caller of a place, or 0.
    pub fn first_of(&self, to: u32) -> u32 {
        place_in(&self.first, to)
    }

    /// Returns the caller behind one, of the same place, or 0.
    pub fn next_of(&self, from: u32) -> u32 {
        place_in(&self.next, from)
    }
}

/// Places that wait to be looked at: the one that came last is the first one.
#[derive(Drop)]
pub struct Work<A: Allocator> {
    waiting: Vec<bool, A>,
    below: Vec<u32, A>,
    top: u32,
}

impl<A: Allocator + Copy> Work<A> {
    pub fn new(alloc: A) -> Result<Work<A>, AllocError> {
        let waiting = filled(alloc, false)?;
        let below = filled(alloc, 0)?;
        Ok(Work {
            waiting,
            below,
            top: 0,
        })
    }

    /// Puts a place on top, if it isn't waiting already.
    pub fn push(&mut self, at: u32) {
        if let Some(waits) = self.waiting.get_mut(number_of(at)) {
            if *waits {
                return;
            }
            *waits = true;
            put_in(&mut self.below, at, self.top);
            self.top = at;
        }
    }

    /// Takes the place on top.
    pub fn pop(&mut self) -> Option<u32> {
        let at = self.top;
        if at == 0 {
            return None;
        }
        self.top = place_in(&self.below, at);
        if let Some(waits) = self.waiting.get_mut(number_of(at)) {
            *waits = false;
        }
        Some(at)
    }
}

/// The places whose ways are still to be followed, and those whose needs are to be counted again.
#[derive(Drop)]
pub struct Todo<A: Allocator> {
    pub ahead: Work<A>,
    pub back: Work<A>,
}

impl<A: Allocator + Copy> Todo<A> {
    pub fn new(alloc: A) -> Result<Todo<A>, AllocError> {
        let ahead = Work::new(alloc)?;
        let back = Work::new(alloc)?;
        Ok(Todo { ahead, back })
    }
}
