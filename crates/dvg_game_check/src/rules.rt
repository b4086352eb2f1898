//! The rules: what is asked of each instruction of a program, and of its reset.
ghost use Rattle.std.specs.Prelude.{◌≡◌, ℕ, ◌+◌, ◌-◌, ◌<◌, ◌≤◌, ◌&&◌, Some, None, false, length};
ghost use Rattle.std.specs.Prelude.{not, true};
ghost use Rattle.std.specs.Prelude.{MatchOption, MatchResult};
ghost use Rattle.dvg_game_words.specs.Processor as processor;
ghost use Rattle.dvg_game_words.specs.Checker as rules;
ghost use Rattle.dvg_game_words.specs.Checker.{ends_of, fine_at, noted, starts, interrupts};
ghost use Rattle.dvg_game_words.specs.Machine as machine;
ghost use Rattle.dvg_game_words.specs.Machine.{is_own};
ghost use Rattle.dvg_game_check.specs.Meant.{kind_meant, place_meant};
ghost use Rattle.dvg_game_check.specs.Rules.{HasBytes, boots_with, calls_fine, fine_with};
ghost use Rattle.dvg_game_check.specs.Rules.{jumps_fine, note_meant, notes_in, reached_by};

use crate::follow::{
    FIRST, PLACES, all_serve, holding, implies, leads, newest, of_held, same_level, set,
};
use crate::kind::{Kind, Operand, Register, kind_of, size};
use crate::note::{Change, Held, Level, Note, Slot};
use crate::reach::{Test, reached};

/// How many bytes a program has, from 6800 on.
pub const BYTES: usize = 6144;

/// Returns whether the driver's code is there.
pub fn is_driver(a: u16) -> bool
    ensures { result ≡ machine.is_driver a }
{
    0x6800 <= a && a < 0x6A87
}

// Returns whether a routine of the driver begins there.
pub fn is_entry(a: u16) -> bool
    ensures { result ≡ rules.is_entry a }
{
    a == 0x6800
        || (a == 0x6809
            || (a == 0x6860
                || (a == 0x686A
                    || (a == 0x68FE
                        || (a == 0x6924
                            || (a == 0x6943
                                || (a == 0x6957
                                    || (a == 0x6979
                                        || (a == 0x6989 || (a == 0x6A00 || a == 0x6A17))))))))))
}

// Returns whether a routine goes on with a frame, which has to begin with a LABS.
pub fn goes_on(a: u16) -> bool
    ensures { result ≡ rules.goes_on a }
{
    a == 0x6957 || (a == 0x6989 || (a == 0x6A17 || a == 0x6A00))
}

// Returns whether a frame may be blank after a call of a routine.
pub fn blank_after(entry: u16, old: bool) -> bool
    ensures { result ≡ machine.blank_after entry old }
{
    if entry == 0x6924 {
        true
    } else if entry == 0x6979 || entry == 0x6800 {
        false
    } else {
        old
    }
}

// Returns whether an instruction with the note `now` may call the driver there.
fn enters(to: u16, now: &Note) -> bool
    ensures { result ≡ rules.enters to (note_meant now.now) }
{
    is_entry(to)
        && (4 <= now.room
            && (!same_level(now.level, Level::Nmi)
                && ((to == 0x6800 || now.awake) && implies(goes_on(to), !now.blank))))
}

// Returns whether a frame may be blank where the subroutine there returns.
#[tactic(auto, unfolding(dvg_game_words::specs::Checker::places))]
pub fn ends_at(notes: &[Option<Note>], to: u32) -> bool
    requires { length notes.now ≡ PLACES }
    ensures { result ≡ ends_of (noted (notes_in notes.now) to) }
{
    if to < FIRST || FIRST + PLACES <= to {
        return true;
    }
    match &notes[(to - FIRST) as usize] {
        None => true,
        Some(new) => new.ends,
    }
}

fn jumps_fine(notes: &[Option<Note>], word: u16, reset: u16, now: &Note) -> bool
    requires { length notes.now ≡ PLACES }
    ensures { result ≡ jumps_fine (notes_in notes.now) word reset (note_meant now.now) }
{
    if word == reset {
        !same_level(now.level, Level::Nmi)
    } else if is_driver(word) {
        enters(word, now)
            && (same_level(now.level, Level::Sub)
                && (now.depth == 0 && implies(blank_after(word, now.blank), now.ends)))
    } else {
        leads(notes, u32::from(word), Change::Same, now)
    }
}

fn calls_fine(notes: &[Option<Note>], word: u16, at: u32, now: &Note) -> bool
    requires notes { length notes.now ≡ PLACES }
    requires place { at < 65536 }
    ensures { result ≡ calls_fine (notes_in notes.now) word at (note_meant now.now) }
{
    if is_driver(word) {
        let awake = word == 0x6800 || now.awake;
        let blank = blank_after(word, now.blank);
        enters(word, now) && leads(notes, at + 3, Change::Returns(awake, blank), now)
    } else {
        let ends = ends_at(notes, u32::from(word));
        2 <= now.room
            && (!same_level(now.level, Level::Nmi)
                && (leads(notes, u32::from(word), Change::Begins(ends), now)
                    && leads(notes, at + 3, Change::Returns(now.awake, ends), now)))
    }
}

// Returns whether a subroutine may return.
fn returns_fine(now: &Note) -> bool
    ensures { result
        ≡ fine_with (kind_meant Kind.Return) (λ at. None) 0 0 0 0 (note_meant now.now) }
{
    same_level(now.level, Level::Sub) && (now.depth == 0 && implies(now.blank, now.ends))
}

// Returns whether the NMI's routine may end.
fn finishes_fine(now: &Note) -> bool
    ensures { result
        ≡ fine_with (kind_meant Kind.Finish) (λ at. None) 0 0 0 0 (note_meant now.now) }
{
    same_level(now.level, Level::Nmi) && (now.depth == 0 && all_serve(UNCHANGED, now.held))
}

/// What A, X and Y hold where the NMI comes.
pub const UNCHANGED: Held = Held {
    a: Slot::Was(Register::A),
    x: Slot::Was(Register::X),
    y: Slot::Was(Register::Y),
};

// Returns where a branch leads.
pub fn target(at: u32, low: u8) -> u32
    requires { at < 65536 }
    ensures { result ≡ processor.target at low }
{
    let back = if 128 <= low { 65280 } else { 0 };
    (at + 2 + u32::from(low) + back) % 65536
}

// Returns whether the driver is awake after a store, which may have been to its own bytes.
pub fn still_awake(awake: bool, place: Operand, low: u8, word: u16) -> bool
    ensures { result ≡ (awake && reached_by (place_meant place) low word (λ a. not (is_own a))) }
{
    awake && reached(place, low, word, Test::NotOwn)
}

// Returns whether an instruction is fine, by its kind and the bytes behind its opcode.
fn fine_with(
    kind: Kind,
    notes: &[Option<Note>],
    low: u8,
    word: u16,
    reset: u16,
    at: u32,
    now: &Note,
) -> bool
    requires notes { length notes.now ≡ PLACES }
    requires place { at < 65536 }
    ensures { result
        ≡ fine_with (kind_meant kind) (notes_in notes.now) low word reset at (note_meant now.now) }
{
    match kind {
        Kind::Quiet(sets, bytes) => {
            leads(
                notes,
                at + u32::from(bytes),
                Change::Holds(set(sets, now.held)),
                now,
            )
        }
        Kind::Reads(sets, place) => {
            let next = at + u32::from(size(place));
            reached(place, low, word, Test::NoStrobe)
                && leads(notes, next, Change::Holds(set(sets, now.held)), now)
        }
        Kind::Transfer(from, to) => {
            let held = holding(to, of_held(from, now.held), now.held);
            leads(notes, at + 1, Change::Holds(held), now)
        }
        Kind::Stores(place) => {
            let next = at + u32::from(size(place));
            let awake = still_awake(now.awake, place, low, word);
            reached(place, low, word, Test::Writable(now.level))
                && leads(notes, next, Change::Leaves(awake), now)
        }
        Kind::Push => 1 <= now.room && leads(notes, at + 1, Change::Pushes(now.held.a), now),
        Kind::PushFlags => 1 <= now.room && leads(notes, at + 1, Change::Pushes(Slot::Any), now),
        Kind::Pull => {
            let held = holding(Register::A, newest(now.slots.as_slice()), now.held);
            1 <= now.depth && leads(notes, at + 1, Change::Pulls(held), now)
        }
        Kind::PullFlags => 1 <= now.depth && leads(notes, at + 1, Change::Pulls(now.held), now),
        Kind::Branch => {
            leads(notes, target(at, low), Change::Same, now)
                && leads(notes, at + 2, Change::Same, now)
        }
        Kind::Jump => jumps_fine(notes, word, reset, now),
        Kind::Call => calls_fine(notes, word, at, now),
        Kind::Return => returns_fine(now),
        Kind::Finish => finishes_fine(now),
        Kind::Wild => false,
    }
}

// Returns whether an instruction may come before the reset's TXS.
pub fn may_boot(kind: Kind, low: u8, word: u16) -> bool
    ensures { result ≡ boots_with (kind_meant kind) low word }
{
    match kind {
        Kind::Quiet(_, _) => true,
        Kind::Reads(_, place) => reached(place, low, word, Test::NoStrobe),
        Kind::Stores(Operand::AbsoluteIndexed) => false,
        Kind::Stores(place) => reached(place, low, word, Test::Writable(Level::Main)),
        _ => false,
    }
}

// Returns how many bytes such an instruction has.
pub fn bytes_of(kind: Kind) -> u8
    ensures { result ≡ rules.bytes_of (kind_meant kind) }
{
    match kind {
        Kind::Quiet(_, bytes) => bytes,
        Kind::Reads(_, place) | Kind::Stores(place) => size(place),
        _ => 0,
    }
}

/// Returns a byte of the program.
pub fn byte_at(rom: &[u8], a: u32) -> u8
    requires bytes { length rom.now ≡ BYTES }
    requires first { 0x6800 ≤ a }
    requires last { a < 0x8000 }
    ensures { (f : ℕ → ℕ) → HasBytes rom.now f → result ≡ f a }
{
    rom[(a - 0x6800) as usize]
}

/// Returns the word of two bytes of the program.
pub fn word_at(rom: &[u8], a: u32) -> u16
    requires bytes { length rom.now ≡ BYTES }
    requires first { 0x6800 ≤ a }
    requires last { a + 1 < 0x8000 }
    ensures { (f : ℕ → ℕ) → HasBytes rom.now f → result ≡ machine.word_at f a }
{
    u16::from(byte_at(rom, a)) + 256 * u16::from(byte_at(rom, a + 1))
}

/// Returns whether the instruction there is fine, whose note is `now`.
pub fn fine(rom: &[u8], notes: &[Option<Note>], at: u32, now: &Note) -> bool
    requires bytes { length rom.now ≡ BYTES }
    requires notes { length notes.now ≡ PLACES }
    requires first { FIRST ≤ at }
    requires last { at < FIRST + PLACES }
    ensures { (f : ℕ → ℕ) → HasBytes rom.now f
        → result ≡ fine_at (notes_in notes.now) f at (Some (note_meant now.now)) }
{
    let kind = kind_of(byte_at(rom, at));
    let low = byte_at(rom, at + 1);
    let word = word_at(rom, at + 1);
    let reset = word_at(rom, 0x7FFC);
    fine_with(kind, notes, low, word, reset, at, now)
}
