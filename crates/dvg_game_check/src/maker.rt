//! Makes notes of a program.
ghost use Rattle.std.specs.Prelude.{◌≡◌, ◌+◌, ◌<◌, ◌≤◌, ℕ, IfOk, IfSome, Option, Some, length};
ghost use Rattle.dvg_game_words.specs.Checker as rules;
ghost use Rattle.dvg_game_words.specs.Checker.{Notes, noted};
ghost use Rattle.dvg_game_check.specs.Least.{AreUnder, Comes, ComesAt, IsGame, IsLeast, IsNeeded};
ghost use Rattle.dvg_game_check.specs.Least.{IsOnward, IsUnder, NeededAt, UnderAt, found_meant};
ghost use Rattle.dvg_game_check.specs.Least.{state_meant, states_in};
ghost use Rattle.dvg_game_check.specs.Rules.{HasBytes, notes_in, option_meant};

use crate::follow::{FIRST, PLACES, same_level};
use crate::kind::kind_of;
use crate::note::{Level, Note};
use crate::rules::{BYTES, byte_at, word_at};
use crate::state::{State, after, at_nmi, at_start, is_same, joined, note_of, state_at};
use crate::step::{Needs, Onward, needs_of, step_at};
use crate::work::{Callers, Todo, Work, length_of};
use std::alloc::{AllocError, Allocator};

/// One more byte than the program may push, and one more instruction than the NMI may do.
const TOO_MUCH_ROOM: u16 = 224;

const TOO_MUCH_FUEL: u16 = 801;

// Puts what is found of a place.
fn put(states: &mut [Option<State>], at: u32, state: State)
    requires states { length states.old ≡ PLACES }
    requires first { FIRST ≤ at }
    requires last { at < FIRST + PLACES }
    ensures { (notes : Notes) → AreUnder (states_in states.old) notes
        → UnderAt (Some (state_meant state)) (noted notes at)
        → AreUnder (states_in states.new) notes }
{
    states[(at - FIRST) as usize] = Some(state);
}

// Returns a state of which no needs are known.
fn begun(state: State) -> State
    ensures { (n : rules.Note) → Comes (state_meant state) n → IsUnder (state_meant result) n }
{
    let mut new = state;
    new.room = 0;
    new.fuel = 0;
    new.ends = false;
    new
}

// Returns a state that has these needs, too.
fn raised(state: State, needs: Needs) -> State
    ensures { (n : rules.Note) → IsUnder (state_meant state) n
        → IsNeeded needs.room needs.fuel needs.ends n → IsUnder (state_meant result) n }
{
    let mut new = state;
    new.room = state.room.max(needs.room.min(TOO_MUCH_ROOM));
    if same_level(state.level, Level::Nmi) {
        new.fuel = state.fuel.max(needs.fuel.min(TOO_MUCH_FUEL));
    }
    new.ends = state.ends || needs.ends;
    new
}

// Returns what is found of a place where one more way leads, unless nothing changes.
fn met(old: Option<State>, new: State) -> Option<State>
    ensures { (n : rules.Note) → UnderAt (found_meant old) (Some n) → Comes (state_meant new) n
        → UnderAt (found_meant result) (Some n) }
{
    let Some(known) = old else {
        return Some(begun(new));
    };
    if !same_level(known.level, new.level) || known.depth != new.depth {
        return None;
    }
    let both = joined(known, new);
    if is_same(known, both) {
        return None;
    }
    Some(both)
}

// A way leads to a place, with this known.
fn go<A: Allocator + Copy>(states: &mut [Option<State>], todo: &mut Todo<A>, to: u32, new: State)
    requires { length states.old ≡ PLACES }
    ensures { (notes : Notes) → AreUnder (states_in states.old) notes
        → ComesAt (state_meant new) (noted notes to) → AreUnder (states_in states.new) notes }
{
    if to < FIRST || FIRST + PLACES <= to {
        return;
    }
    let Some(found) = met(state_at(states, to), new) else {
        return;
    };
    put(states, to, found);
    todo.ahead.push(to);
    todo.back.push(to);
}

// An instruction goes on there, with this found of it.
fn go_on<A: Allocator + Copy>(
    states: &mut [Option<State>],
    todo: &mut Todo<A>,
    state: State,
    onward: Option<Onward>,
)
    requires { length states.old ≡ PLACES }
    ensures { (n : rules.Note) (notes : Notes) → AreUnder (states_in states.old) notes
        → IfSome onward (λ one. IsOnward one (state_meant state) n notes)
        → AreUnder (states_in states.new) notes }
{
    let Some(one) = onward else {
        return;
    };
    go(states, todo, one.to, after(state, one.change));
}

// Raises what a place needs; whether anything changed.
fn raise(states: &mut [Option<State>], at: u32, needs: Needs) -> bool
    requires states { length states.old ≡ PLACES }
    requires first { FIRST ≤ at }
    requires last { at < FIRST + PLACES }
    ensures { (notes : Notes) → AreUnder (states_in states.old) notes
        → NeededAt needs (noted notes at)
        → AreUnder (states_in states.new) notes }
{
    let Some(old) = state_at(states, at) else {
        return false;
    };
    let new = raised(old, needs);
    if new.room == old.room && new.fuel == old.fuel && new.ends == old.ends {
        return false;
    }
    put(states, at, new);
    true
}

// Puts a place into the work if anything is found of it.
fn wake_at<A: Allocator + Copy>(states: &[Option<State>], work: &mut Work<A>, at: u32)
    requires { length states.now ≡ PLACES }
{
    if state_at(states, at).is_some() {
        work.push(at);
    }
}

// Has the needs of those counted again that lead to a place, and the ways of those that call it
// followed.
fn wake<A: Allocator + Copy>(
    rom: &[u8],
    states: &[Option<State>],
    callers: &Callers<A>,
    todo: &mut Todo<A>,
    at: u32,
)
    requires bytes { length rom.now ≡ BYTES }
    requires states { length states.now ≡ PLACES }
{
    if at < FIRST || FIRST + PLACES <= at {
        return;
    }
    for back in 1..4u32 {
        if length_of(kind_of(byte_at(rom, at - back))) == back {
            wake_at(states, &mut todo.back, at - back);
        }
    }
    let mut from = callers.first_of(at);
    for _ in 0..PLACES {
        if from == 0 {
            break;
        }
        wake_at(states, &mut todo.back, from);
        wake_at(states, &mut todo.ahead, from);
        from = callers.next_of(from);
    }
}

// Follows the ways of the instruction at a place.
fn follow<A: Allocator + Copy>(
    rom: &[u8],
    states: &mut [Option<State>],
    todo: &mut Todo<A>,
    at: u32,
)
    requires bytes { length rom.now ≡ BYTES }
    requires states { length states.old ≡ PLACES }
    ensures { (f : ℕ → ℕ) (start : ℕ) (notes : Notes) → HasBytes rom.now f → IsGame f start notes
        → AreUnder (states_in states.old) notes → AreUnder (states_in states.new) notes }
{
    if at < FIRST || FIRST + PLACES <= at {
        return;
    }
    let Some(state) = state_at(states, at) else {
        return;
    };
    let step = step_at(rom, states, at, state);
    go_on(states, todo, state, step.next);
    go_on(states, todo, state, step.to);
}

// Counts what the instruction at a place needs; whether that is more than was known.
fn count(rom: &[u8], states: &mut [Option<State>], at: u32) -> bool
    requires bytes { length rom.now ≡ BYTES }
    requires states { length states.old ≡ PLACES }
    ensures { (f : ℕ → ℕ) (start : ℕ) (notes : Notes) → HasBytes rom.now f → IsGame f start notes
        → AreUnder (states_in states.old) notes → AreUnder (states_in states.new) notes }
{
    if at < FIRST || FIRST + PLACES <= at {
        return false;
    }
    let Some(state) = state_at(states, at) else {
        return false;
    };
    let step = step_at(rom, states, at, state);
    let needs = needs_of(states, step);
    raise(states, at, needs)
}

// Does what is to be done next; whether there was anything.
fn work_on<A: Allocator + Copy>(
    rom: &[u8],
    states: &mut [Option<State>],
    callers: &Callers<A>,
    todo: &mut Todo<A>,
) -> bool
    requires bytes { length rom.now ≡ BYTES }
    requires states { length states.old ≡ PLACES }
    ensures { (f : ℕ → ℕ) (start : ℕ) (notes : Notes) → HasBytes rom.now f → IsGame f start notes
        → AreUnder (states_in states.old) notes → AreUnder (states_in states.new) notes }
{
    if let Some(at) = todo.ahead.pop() {
        follow(rom, states, todo, at);
        return true;
    }
    let Some(at) = todo.back.pop() else {
        return false;
    };
    if count(rom, states, at) {
        wake(rom, states, callers, todo, at);
    }
    true
}

// Returns that nothing is found of any place.
fn nothing_found<A: Allocator>(alloc: A) -> Result<Vec<Option<State>, A>, AllocError>
    ensures { IfOk result (λ states. (length states.items ≡ PLACES) × ((notes : Notes)
        → AreUnder (states_in states.items) notes)) }
{
    let mut states = Vec::new(alloc);
    for _ in 0..PLACES {
        states.push(None)?;
    }
    Ok(states)
}

/// Returns no note for each place.
pub fn unnoted<A: Allocator>(alloc: A) -> Result<Vec<Option<Note>, A>, AllocError>
    ensures { IfOk result (λ notes. length notes.items ≡ PLACES) }
{
    let mut notes = Vec::new(alloc);
    for _ in 0..PLACES {
        notes.push(None)?;
    }
    Ok(notes)
}

// Returns the note of a place, if anything is found of it.
fn noted_of(found: Option<State>) -> Option<Note>
    ensures { (note : Option rules.Note) → UnderAt (found_meant found) note
        → UnderAt (option_meant result) note }
{
    match found {
        Some(state) => Some(note_of(state)),
        None => None,
    }
}

// Returns the notes of all places.
fn notes_of<A: Allocator>(
    alloc: A,
    states: &[Option<State>],
) -> Result<Vec<Option<Note>, A>, AllocError>
    requires { length states.now ≡ PLACES }
    ensures { IfOk result (λ made. (length made.items ≡ PLACES) × ((notes : Notes)
        → AreUnder (states_in states.now) notes → AreUnder (notes_in made.items) notes)) }
{
    let mut notes = Vec::new(alloc);
    for i in 0..PLACES {
        notes.push(noted_of(states[i as usize]))?;
    }
    Ok(notes)
}

// Finds all that comes from the start and from the NMI's vector, and returns the notes of it.
fn find_all<A: Allocator + Copy>(
    alloc: A,
    rom: &[u8],
    start: u32,
    states: &mut [Option<State>],
    callers: &Callers<A>,
    todo: &mut Todo<A>,
) -> Result<Vec<Option<Note>, A>, AllocError>
    requires bytes { length rom.now ≡ BYTES }
    requires states { length states.old ≡ PLACES }
    requires found { (notes : Notes) → AreUnder (states_in states.old) notes }
    ensures { IfOk result (λ made. (length made.items ≡ PLACES) × ((f : ℕ → ℕ) (notes : Notes)
        → HasBytes rom.now f → IsGame f start notes → AreUnder (notes_in made.items) notes)) }
{
    let nmi = u32::from(word_at(rom, 0x7FFA));
    go(states, todo, nmi, at_nmi());
    go(states, todo, start, at_start());
    for _ in 0..u64::MAX {
        if !work_on(rom, states, callers, todo) {
            break;
        }
    }
    notes_of(alloc, states)
}

/// Returns notes of a program that starts at `start`: they say no more than any that are accepted.
pub fn make<A: Allocator + Copy>(
    alloc: A,
    rom: &[u8],
    start: u32,
) -> Result<Vec<Option<Note>, A>, AllocError>
    requires { length rom.now ≡ BYTES }
    ensures { IfOk result (λ made. (length made.items ≡ PLACES)
        × IsLeast rom.now made.items start) }
{
    let callers = Callers::of(alloc, rom)?;
    let mut todo = Todo::new(alloc)?;
    let mut states = nothing_found(alloc)?;
    find_all(alloc, rom, start, &mut states, &callers, &mut todo)
}
