//! Where an instruction goes on, and what it needs.
ghost use Rattle.std.specs.Prelude.{◌≡◌, ◌+◌, ◌<◌, ◌≤◌, ◌&&◌, ◌||◌, ℕ, Option, Some, IfSome};
ghost use Rattle.std.specs.Prelude.{length, true};
ghost use Rattle.dvg_game_words.specs.Checker as rules;
ghost use Rattle.dvg_game_words.specs.Checker.{Notes, ends_of, fine_at, implies, noted};
ghost use Rattle.dvg_game_words.specs.Kinds as kinds;
ghost use Rattle.dvg_game_words.specs.Machine.{is_reset};
ghost use Rattle.dvg_game_check.specs.Least as least;
ghost use Rattle.dvg_game_check.specs.Least.{AreUnder, Comes, IsNeeded, IsOnward, IsStep, IsUnder};
ghost use Rattle.dvg_game_check.specs.Least.{UnderAt, passes, state_meant, states_in};
ghost use Rattle.dvg_game_check.specs.Meant.{kind_meant};
ghost use Rattle.dvg_game_check.specs.Rules.{HasBytes, calls_fine, fine_with, jumps_fine};

use crate::follow::{FIRST, PLACES, holding, of_held, set};
use crate::kind::{Kind, Register, kind_of, size};
use crate::note::{Change, Slot};
use crate::rules::{BYTES, blank_after, byte_at, is_driver, still_awake, target, word_at};
use crate::state::{State, either, state_at, top};

/// A place where an instruction goes on, and what it changes.
#[derive(Clone, Copy)]
pub struct Onward {
    pub to: u32,
    pub change: Change,
}

/// What an instruction does.
#[derive(Clone, Copy)]
pub struct Step {
    /// It goes on behind itself, and where it branches, jumps or calls to.
    pub next: Option<Onward>,
    pub to: Option<Onward>,
    /// How many bytes the driver pushes that it calls.
    pub room: u16,
    /// It returns, and a frame may be blank.
    pub ends: bool,
}

/// What an instruction needs, by all that comes after it.
#[derive(Clone, Copy)]
pub struct Needs {
    /// How many bytes it may push, with all that it calls.
    pub room: u16,
    /// How many instructions the NMI does behind it.
    pub fuel: u16,
    /// A frame may be blank where it returns.
    pub ends: bool,
}

// Returns the step of an instruction that goes nowhere.
fn nowhere(room: u16, ends: bool) -> Step
    ensures { (m n : rules.Note) (notes : Notes) → room ≤ n.room → implies ends n.ends ≡ true
        → IsStep result m n notes }
{
    Step {
        next: None,
        to: None,
        room,
        ends,
    }
}

// Returns the step of one that goes on in one place.
fn straight(to: u32, change: Change, room: u16) -> Step
    ensures { (m n : rules.Note) (notes : Notes) → room ≤ n.room
        → IsOnward (record { to = to; change = change }) m n notes → IsStep result m n notes }
{
    Step {
        next: Some(Onward { to, change }),
        to: None,
        room,
        ends: false,
    }
}

// Returns the step of a jump.
fn jump(word: u16, reset: u16, state: State) -> Step
    ensures { (n : rules.Note) (notes : Notes) → Comes (state_meant state) n
        → jumps_fine notes word reset n ≡ true → IsStep result (state_meant state) n notes }
{
    if word == reset {
        return nowhere(0, false);
    }
    if is_driver(word) {
        return nowhere(4, blank_after(word, state.blank));
    }
    straight(u32::from(word), Change::Same, 0)
}

// Returns whether the driver is awake after a call of a routine.
fn woken(entry: u16, awake: bool) -> bool
    ensures { result ≡ (is_reset entry || awake) }
{
    entry == 0x6800 || awake
}

// Returns the step of a call, where a frame may be blank that its subroutine leaves, if `ends`.
fn call(word: u16, at: u32, state: State, ends: bool) -> Step
    requires { at < 65536 }
    ensures { (n : rules.Note) (notes : Notes) → Comes (state_meant state) n
        → implies ends (ends_of (noted notes word)) ≡ true → calls_fine notes word at n ≡ true
        → IsStep result (state_meant state) n notes }
{
    if is_driver(word) {
        let awake = woken(word, state.awake);
        let blank = blank_after(word, state.blank);
        return straight(at + 3, Change::Returns(awake, blank), 4);
    }
    Step {
        next: Some(Onward {
            to: at + 3,
            change: Change::Returns(state.awake, ends),
        }),
        to: Some(Onward {
            to: u32::from(word),
            change: Change::Begins(ends),
        }),
        room: 0,
        ends: false,
    }
}

// Returns the step of a branch.
fn branch(at: u32, low: u8) -> Step
    requires { at < 65536 }
    ensures { (m n : rules.Note) (notes : Notes) → Comes m n
        → fine_with kinds.Branch notes low 0 0 at n ≡ true → IsStep result m n notes }
{
    Step {
        next: Some(Onward {
            to: at + 2,
            change: Change::Same,
        }),
        to: Some(Onward {
            to: target(at, low),
            change: Change::Same,
        }),
        room: 0,
        ends: false,
    }
}

// Returns what an instruction does, by its kind and the bytes behind its opcode.
fn step_with(kind: Kind, low: u8, word: u16, reset: u16, at: u32, state: State, ends: bool) -> Step
    requires { at < 65536 }
    ensures { (n : rules.Note) (notes : Notes) → Comes (state_meant state) n
        → implies ends (ends_of (noted notes word)) ≡ true
        → fine_with (kind_meant kind) notes low word reset at n ≡ true
        → IsStep result (state_meant state) n notes }
{
    let held = state.held;
    match kind {
        Kind::Quiet(sets, bytes) => {
            straight(at + u32::from(bytes), Change::Holds(set(sets, held)), 0)
        }
        Kind::Reads(sets, place) => {
            straight(
                at + u32::from(size(place)),
                Change::Holds(set(sets, held)),
                0,
            )
        }
        Kind::Transfer(from, to) => {
            straight(
                at + 1,
                Change::Holds(holding(to, of_held(from, held), held)),
                0,
            )
        }
        Kind::Stores(place) => {
            let awake = still_awake(state.awake, place, low, word);
            straight(at + u32::from(size(place)), Change::Leaves(awake), 0)
        }
        Kind::Push => straight(at + 1, Change::Pushes(held.a), 0),
        Kind::PushFlags => straight(at + 1, Change::Pushes(Slot::Any), 0),
        Kind::Pull => {
            straight(
                at + 1,
                Change::Pulls(holding(Register::A, top(state), held)),
                0,
            )
        }
        Kind::PullFlags => straight(at + 1, Change::Pulls(held), 0),
        Kind::Branch => branch(at, low),
        Kind::Jump => jump(word, reset, state),
        Kind::Call => call(word, at, state, ends),
        Kind::Return => nowhere(0, state.blank),
        Kind::Finish | Kind::Wild => nowhere(0, false),
    }
}

// Returns whether a frame may be blank where what begins at a place returns.
fn ends_at(states: &[Option<State>], at: u32) -> bool
    requires { length states.now ≡ PLACES }
    ensures { (notes : Notes) → AreUnder (states_in states.now) notes
        → implies result (ends_of (noted notes at)) ≡ true }
{
    match state_at(states, at) {
        Some(state) => state.ends,
        None => false,
    }
}

/// Returns what the instruction at a place does.
pub fn step_at(rom: &[u8], states: &[Option<State>], at: u32, state: State) -> Step
    requires bytes { length rom.now ≡ BYTES }
    requires states { length states.now ≡ PLACES }
    requires first { FIRST ≤ at }
    requires last { at < FIRST + PLACES }
    ensures { (f : ℕ → ℕ) (n : rules.Note) (notes : Notes) → HasBytes rom.now f
        → AreUnder (states_in states.now) notes → Comes (state_meant state) n
        → fine_at notes f at (Some n) ≡ true → IsStep result (state_meant state) n notes }
{
    let kind = kind_of(byte_at(rom, at));
    let low = byte_at(rom, at + 1);
    let word = word_at(rom, at + 1);
    let reset = word_at(rom, 0x7FFC);
    let ends = ends_at(states, u32::from(word));
    step_with(kind, low, word, reset, at, state, ends)
}

// Returns how many bytes an instruction may push where so many may be pushed behind it.
fn room_before(change: Change, room: u16) -> u16
    ensures { result ≤ least.room_before change room }
{
    match change {
        Change::Pushes(_) => room.saturating_add(1),
        Change::Pulls(_) => room.saturating_sub(1),
        Change::Begins(_) => room.saturating_add(2),
        _ => room,
    }
}

// Returns whether what returns behind an instruction returns from its own subroutine.
fn ends_before(change: Change, ends: bool) -> bool
    ensures { result ≡ (passes change && ends) }
{
    match change {
        Change::Begins(_) => false,
        _ => ends,
    }
}

// Returns what is needed before an instruction that goes on where this is found.
fn needs_before(one: Onward, next: State) -> Needs
    ensures { (m n : rules.Note) (notes : Notes) → IsOnward one m n notes
        → UnderAt (Some (state_meant next)) (noted notes one.to)
        → IsNeeded result.room result.fuel result.ends n }
{
    Needs {
        room: room_before(one.change, next.room),
        fuel: next.fuel.saturating_add(1),
        ends: ends_before(one.change, next.ends),
    }
}

// Returns what is needed where both are.
fn most(one: Needs, other: Needs) -> Needs
    ensures { (n : rules.Note) → IsNeeded one.room one.fuel one.ends n
        → IsNeeded other.room other.fuel other.ends n
        → IsNeeded result.room result.fuel result.ends n }
{
    let ends = either(one.ends, other.ends);
    Needs {
        room: one.room.max(other.room),
        fuel: one.fuel.max(other.fuel),
        ends,
    }
}

// Returns what is needed before it goes on there, too.
fn with_onward(states: &[Option<State>], onward: Option<Onward>, needs: Needs) -> Needs
    requires { length states.now ≡ PLACES }
    ensures { (m n : rules.Note) (notes : Notes) → AreUnder (states_in states.now) notes
        → IfSome onward (λ one. IsOnward one m n notes)
        → IsNeeded needs.room needs.fuel needs.ends n
        → IsNeeded result.room result.fuel result.ends n }
{
    let Some(one) = onward else {
        return needs;
    };
    let Some(next) = state_at(states, one.to) else {
        return needs;
    };
    most(needs, needs_before(one, next))
}

/// Returns what an instruction needs, by what is found where it goes on.
pub fn needs_of(states: &[Option<State>], step: Step) -> Needs
    requires { length states.now ≡ PLACES }
    ensures { (m n : rules.Note) (notes : Notes) → AreUnder (states_in states.now) notes
        → IsStep step m n notes → IsNeeded result.room result.fuel result.ends n }
{
    let own = Needs {
        room: step.room,
        fuel: 0,
        ends: step.ends,
    };
    with_onward(states, step.to, with_onward(states, step.next, own))
}
