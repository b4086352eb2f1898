//! Whether what an instruction leaves is what the note of the next one asks for.
ghost use Rattle.std.specs.Prelude.{◌≡◌, ◌∷◌, map, length};
ghost use Rattle.dvg_game_words.specs.Checker as rules;
ghost use Rattle.dvg_game_check.specs.Meant.{register_meant, sets_meant};
ghost use Rattle.dvg_game_check.specs.Rules.{changed, held_meant, level_meant, note_meant};
ghost use Rattle.dvg_game_check.specs.Rules.{notes_in, option_meant, slot_meant};
ghost use Rattle.std.specs.Prelude.{Some};

use crate::kind::{Register, Sets};
use crate::note::{Change, Held, Level, Note, Slot};

/// Where a game's code begins, and how many places it has.
pub const FIRST: u32 = 0x6A87;

pub const PLACES: u32 = 5491;

/// Returns whether two levels are the same.
pub fn same_level(one: Level, other: Level) -> bool
    ensures { result ≡ rules.same_level (level_meant one) (level_meant other) }
{
    match one {
        Level::Main => matches!(other, Level::Main),
        Level::Sub => matches!(other, Level::Sub),
        Level::Nmi => matches!(other, Level::Nmi),
    }
}

fn same_register(one: Register, other: Register) -> bool
    ensures { result ≡ rules.same_register (register_meant one) (register_meant other) }
{
    match one {
        Register::A => matches!(other, Register::A),
        Register::X => matches!(other, Register::X),
        Register::Y => matches!(other, Register::Y),
    }
}

// Returns whether a slot is as the first one asks.
fn serves(one: Slot, known: Slot) -> bool
    ensures { result ≡ rules.serves (slot_meant one) (slot_meant known) }
{
    match one {
        Slot::Any => true,
        Slot::Was(register) => match known {
            Slot::Any => false,
            Slot::Was(other) => same_register(register, other),
        },
    }
}

/// Returns whether A, X and Y are as the first one asks.
pub fn all_serve(one: Held, known: Held) -> bool
    ensures { result ≡ rules.all_serve (held_meant one) (held_meant known) }
{
    serves(one.a, known.a) && (serves(one.x, known.x) && serves(one.y, known.y))
}

/// Returns what a register holds.
pub fn of_held(register: Register, held: Held) -> Slot
    ensures { slot_meant result ≡ rules.of_held (register_meant register) (held_meant held) }
{
    match register {
        Register::A => held.a,
        Register::X => held.x,
        Register::Y => held.y,
    }
}

/// Returns what A, X and Y hold where a register holds something else.
pub fn holding(register: Register, slot: Slot, held: Held) -> Held
    ensures { held_meant result
        ≡ rules.holding (register_meant register) (slot_meant slot) (held_meant held) }
{
    match register {
        Register::A => Held {
            a: slot,
            x: held.x,
            y: held.y,
        },
        Register::X => Held {
            a: held.a,
            x: slot,
            y: held.y,
        },
        Register::Y => Held {
            a: held.a,
            x: held.x,
            y: slot,
        },
    }
}

/// Returns what A, X and Y hold where one of them is set.
pub fn set(sets: Sets, held: Held) -> Held
    ensures { held_meant result ≡ rules.set (sets_meant sets) (held_meant held) }
{
    match sets {
        Sets::Nothing => held,
        Sets::Only(register) => holding(register, Slot::Any, held),
    }
}

/// Returns the slot that was pushed last.
pub fn newest(slots: &[Slot]) -> Slot
    ensures { slot_meant result ≡ rules.newest (map slot_meant slots.now) }
{
    if slots.is_empty() {
        Slot::Any
    } else {
        slots[0]
    }
}

// Returns whether slots are as the first ones ask.
pub fn serve(new: &[Slot], known: &[Slot]) -> bool
    ensures { result ≡ rules.serve (map slot_meant new.now) (map slot_meant known.now) }
{
    for i in 0..new.len() {
        if known.len() <= i || !serves(new[i], known[i]) {
            return false;
        }
    }
    true
}

// Returns whether slots are as the first ones ask, of which this one was pushed last.
fn serve_pushed(new: &[Slot], top: Slot, known: &[Slot]) -> bool
    ensures { result
        ≡ rules.serve (map slot_meant new.now) (slot_meant top ∷ map slot_meant known.now) }
{
    if new.is_empty() {
        return true;
    }
    serves(new[0], top) && serve(&new[1..], known)
}

// Returns whether slots are as the first ones ask, once the newest of them is pulled.
fn serve_pulled(new: &[Slot], known: &[Slot]) -> bool
    ensures { result
        ≡ rules.serve (map slot_meant new.now) (rules.older (map slot_meant known.now)) }
{
    if known.is_empty() {
        return serve(new, known);
    }
    serve(new, &known[1..])
}

pub fn level_after(change: Change, now: &Note) -> Level
    ensures { level_meant result ≡ (changed change (note_meant now.now)).level }
{
    match change {
        Change::Begins(_) => Level::Sub,
        _ => now.level,
    }
}

pub fn depth_after(change: Change, now: &Note) -> u32
    ensures { result ≡ (changed change (note_meant now.now)).depth }
{
    match change {
        Change::Pushes(_) => u32::from(now.depth) + 1,
        Change::Pulls(_) => u32::from(now.depth).saturating_sub(1),
        Change::Begins(_) => 0,
        _ => u32::from(now.depth),
    }
}

pub fn room_after(change: Change, now: &Note) -> u32
    ensures { result ≡ (changed change (note_meant now.now)).room }
{
    match change {
        Change::Pushes(_) => u32::from(now.room).saturating_sub(1),
        Change::Pulls(_) => u32::from(now.room) + 1,
        Change::Begins(_) => u32::from(now.room).saturating_sub(2),
        _ => u32::from(now.room),
    }
}

pub fn awake_after(change: Change, now: &Note) -> bool
    ensures { result ≡ (changed change (note_meant now.now)).awake }
{
    match change {
        Change::Leaves(awake) | Change::Returns(awake, _) => awake,
        _ => now.awake,
    }
}

pub fn blank_after(change: Change, now: &Note) -> bool
    ensures { result ≡ (changed change (note_meant now.now)).blank }
{
    match change {
        Change::Returns(_, blank) => blank,
        _ => now.blank,
    }
}

pub fn ends_after(change: Change, now: &Note) -> bool
    ensures { result ≡ (changed change (note_meant now.now)).ends }
{
    match change {
        Change::Begins(ends) => ends,
        _ => now.ends,
    }
}

pub fn held_after(change: Change, now: &Note) -> Held
    ensures { held_meant result ≡ (changed change (note_meant now.now)).held }
{
    match change {
        Change::Holds(held) | Change::Pulls(held) => held,
        _ => now.held,
    }
}

pub fn slots_serve(change: Change, now: &Note, new: &Note) -> bool
    ensures { result ≡ rules.serve (note_meant new.now).slots (changed change
        (note_meant now.now)).slots }
{
    let (asked, known) = (new.slots.as_slice(), now.slots.as_slice());
    match change {
        Change::Pushes(slot) => serve_pushed(asked, slot, known),
        Change::Pulls(_) => serve_pulled(asked, known),
        Change::Begins(_) => serve(asked, &[]),
        _ => serve(asked, known),
    }
}

// Returns whether the second holds if the first one does.
pub fn implies(one: bool, other: bool) -> bool
    ensures { result ≡ rules.implies one other }
{
    !one || other
}

/// Returns whether what an instruction with the note `now` leaves is what `new` asks for.
pub fn suits(change: Change, now: &Note, new: &Note) -> bool
    ensures { result
        ≡ rules.suits (changed change (note_meant now.now)) (Some (note_meant new.now)) }
{
    let level = level_after(change, now);
    same_level(new.level, level)
        && (u32::from(new.depth) == depth_after(change, now)
            && (u32::from(new.room) <= room_after(change, now)
                && (implies(same_level(level, Level::Nmi), new.fuel < now.fuel)
                    && (implies(new.awake, awake_after(change, now))
                        && (all_serve(new.held, held_after(change, now))
                            && (slots_serve(change, now, new)
                                && (implies(blank_after(change, now), new.blank)
                                    && implies(new.ends, ends_after(change, now)))))))))
}

/// Returns whether an instruction with the note `now` may lead to this address.
#[tactic(auto, unfolding(dvg_game_words::specs::Checker::places))]
pub fn leads(notes: &[Option<Note>], to: u32, change: Change, now: &Note) -> bool
    requires { length notes.now ≡ PLACES }
    ensures { result ≡ rules.leads (notes_in notes.now) to (changed change (note_meant now.now)) }
{
    if to < FIRST || FIRST + PLACES <= to {
        return false;
    }
    match &notes[(to - FIRST) as usize] {
        None => false,
        Some(new) => suits(change, now, new),
    }
}
