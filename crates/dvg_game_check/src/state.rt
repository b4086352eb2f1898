//! What is found of a place while notes are made, and what an instruction makes of it.
ghost use Rattle.std.specs.Prelude.{◌≡◌, ◌≤◌, ◌&&◌, ◌||◌, ℕ, List, Option, [], false, length, map};
ghost use Rattle.std.specs.Prelude.{true};
ghost use Rattle.dvg_game_words.specs.Checker as rules;
ghost use Rattle.dvg_game_words.specs.Checker.{noted, starts, interrupts};
ghost use Rattle.dvg_game_check.specs.Least.{Comes, ComesAt, IsUnder, found_meant, stacked};
ghost use Rattle.dvg_game_check.specs.Least.{state_meant, states_in};
ghost use Rattle.dvg_game_check.specs.Rules.{changed, held_meant, level_meant, note_meant};
ghost use Rattle.dvg_game_check.specs.Rules.{slot_meant};

use crate::follow::{FIRST, PLACES, same_level};
use crate::note::{Change, Held, Level, Note, SLOTS, Slot};
use crate::rules::UNCHANGED;
use arrayvec::ArrayVec;

/// What is found of a place.
#[derive(Clone, Copy)]
pub struct State {
    pub level: Level,
    /// How many bytes were pushed since the level began.
    pub depth: u16,
    pub held: Held,
    /// Of the NMI: the bytes that were pushed, the newest last.
    pub slots: [Slot; SLOTS],
    pub room: u16,
    pub fuel: u16,
    pub awake: bool,
    pub blank: bool,
    pub ends: bool,
}

/// What holds where a level begins with nothing but what A, X and Y hold.
fn begins(level: Level, held: Held) -> State
    ensures { state_meant result ≡ record {
      level = level_meant level;
      depth = 0;
      held = held_meant held;
      slots = [];
      room = 0;
      fuel = 0;
      awake = false;
      blank = false;
      ends = false;
    } }
{
    State {
        level,
        depth: 0,
        held,
        slots: [Slot::Any; SLOTS],
        room: 0,
        fuel: 0,
        awake: false,
        blank: false,
        ends: false,
    }
}

/// Returns what holds where the program starts.
pub fn at_start() -> State
    ensures { (note : Option rules.Note) → starts note ≡ true → ComesAt (state_meant result) note }
{
    let any = Held {
        a: Slot::Any,
        x: Slot::Any,
        y: Slot::Any,
    };
    begins(Level::Main, any)
}

/// Returns what holds where the NMI comes.
pub fn at_nmi() -> State
    ensures { (note : Option rules.Note) → interrupts note ≡ true
        → ComesAt (state_meant result) note }
{
    begins(Level::Nmi, UNCHANGED)
}

/// Returns what is found of a place, if anything is.
#[tactic(auto, unfolding(dvg_game_words::specs::Checker::places))]
pub fn state_at(states: &[Option<State>], at: u32) -> Option<State>
    requires { length states.now ≡ PLACES }
    ensures { found_meant result ≡ noted (states_in states.now) at }
{
    if at < FIRST || FIRST + PLACES <= at {
        return None;
    }
    states[(at - FIRST) as usize]
}

/// Returns the byte that was pushed last.
pub fn top(state: State) -> Slot
    ensures { slot_meant result ≡ rules.newest (stacked state.slots state.depth) }
{
    let depth = usize::from(state.depth);
    if depth == 0 || SLOTS < depth {
        return Slot::Any;
    }
    state.slots[depth - 1]
}

// Returns what is found behind an instruction that pushes this byte.
fn pushed(state: State, slot: Slot) -> State
    ensures { (n : rules.Note) → Comes (changed (Change.Pushes slot) (state_meant state)) n
        → Comes (state_meant result) n }
{
    let depth = usize::from(state.depth);
    let mut new = state;
    new.depth = state.depth.saturating_add(1);
    if depth < SLOTS {
        new.slots[depth] = slot;
    }
    new
}

// Returns what is found behind one that pulls a byte, where A, X and Y hold this.
fn pulled(state: State, held: Held) -> State
    ensures { (n : rules.Note) → Comes (changed (Change.Pulls held) (state_meant state)) n
        → Comes (state_meant result) n }
{
    let mut new = state;
    new.depth = state.depth.saturating_sub(1);
    new.held = held;
    new
}

/// Returns what is found behind an instruction that changes this.
pub fn after(state: State, change: Change) -> State
    ensures { (n : rules.Note) → Comes (changed change (state_meant state)) n
        → Comes (state_meant result) n }
{
    let mut new = state;
    match change {
        Change::Same => new,
        Change::Holds(held) => {
            new.held = held;
            new
        }
        Change::Leaves(awake) => {
            new.awake = awake;
            new
        }
        Change::Pushes(slot) => pushed(state, slot),
        Change::Pulls(held) => pulled(state, held),
        Change::Returns(awake, blank) => {
            new.awake = awake;
            new.blank = blank;
            new
        }
        Change::Begins(_) => {
            new.level = Level::Sub;
            new.depth = 0;
            new
        }
    }
}

// Returns what a byte holds whichever of two ways leads to a place.
fn joined_slot(one: Slot, other: Slot) -> Slot
    ensures { (asked : rules.Slot) → rules.serves asked (slot_meant one) ≡ true
        → rules.serves asked (slot_meant other) ≡ true
        → rules.serves asked (slot_meant result) ≡ true }
{
    if one == other { one } else { Slot::Any }
}

// Returns what two ways leave on the stack.
fn joined_slots(one: [Slot; SLOTS], other: [Slot; SLOTS]) -> [Slot; SLOTS]
    ensures { (asked : List rules.Slot) (depth : ℕ) → depth ≤ SLOTS
        → rules.serve asked (stacked one depth) ≡ true
        → rules.serve asked (stacked other depth) ≡ true
        → rules.serve asked (stacked result depth) ≡ true }
{
    let mut joined = one;
    for i in 0..SLOTS {
        joined[i] = joined_slot(one[i], other[i]);
    }
    joined
}

// Returns what A, X and Y hold whichever of two ways leads to a place.
fn joined_held(one: Held, other: Held) -> Held
    ensures { (asked : rules.Held) → rules.all_serve asked (held_meant one) ≡ true
        → rules.all_serve asked (held_meant other) ≡ true
        → rules.all_serve asked (held_meant result) ≡ true }
{
    Held {
        a: joined_slot(one.a, other.a),
        x: joined_slot(one.x, other.x),
        y: joined_slot(one.y, other.y),
    }
}

// Returns what two ways leave on the stack, if that is of the NMI.
fn met_slots(old: State, new: State) -> [Slot; SLOTS]
    ensures { rules.same_level (level_meant old.level) rules.Nmi ≡ true
        → (asked : List rules.Slot) (depth : ℕ)
        → depth ≤ SLOTS → rules.serve asked (stacked old.slots depth) ≡ true
        → rules.serve asked (stacked new.slots depth) ≡ true
        → rules.serve asked (stacked result depth) ≡ true }
{
    if !same_level(old.level, Level::Nmi) {
        return old.slots;
    }
    joined_slots(old.slots, new.slots)
}

/// Returns whether both hold.
pub fn both(one: bool, other: bool) -> bool
    ensures { result ≡ (one && other) }
{
    one && other
}

/// Returns whether one of two holds.
pub fn either(one: bool, other: bool) -> bool
    ensures { result ≡ (one || other) }
{
    one || other
}

/// Returns what holds whichever of two ways leads to a place.
pub fn joined(old: State, new: State) -> State
    ensures { (n : rules.Note) → IsUnder (state_meant old) n → Comes (state_meant new) n
        → IsUnder (state_meant result) n }
{
    let held = joined_held(old.held, new.held);
    let slots = met_slots(old, new);
    let awake = both(old.awake, new.awake);
    let blank = either(old.blank, new.blank);
    State {
        level: old.level,
        depth: old.depth,
        held,
        slots,
        room: old.room,
        fuel: old.fuel,
        awake,
        blank,
        ends: old.ends,
    }
}

/// Returns whether two ways leave the same but for room, fuel and ends.
pub fn is_same(one: State, other: State) -> bool {
    one.held == other.held
        && one.slots == other.slots
        && one.awake == other.awake
        && one.blank == other.blank
}

// Returns the slots of the NMI's stack, the newest first.
fn slots_of(state: State) -> ArrayVec<Slot, SLOTS>
    ensures { rules.same_level (level_meant state.level) rules.Nmi ≡ true → state.depth ≤ SLOTS
        → map slot_meant result.items ≡ stacked state.slots state.depth }
{
    let mut slots: ArrayVec<Slot, SLOTS> = ArrayVec::new();
    let depth = usize::from(state.depth);
    if SLOTS < depth || !same_level(state.level, Level::Nmi) {
        return slots;
    }
    for i in 0..depth {
        slots.push(state.slots[depth - 1 - i]);
    }
    slots
}

/// Returns the note of a place.
pub fn note_of(state: State) -> Note
    ensures { (n : rules.Note) → IsUnder (state_meant state) n → IsUnder (note_meant result) n }
{
    Note {
        level: state.level,
        depth: state.depth,
        held: state.held,
        slots: slots_of(state),
        room: state.room,
        fuel: state.fuel,
        awake: state.awake,
        blank: state.blank,
        ends: state.ends,
    }
}
