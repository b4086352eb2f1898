//! Whether a program is refused whatever its notes: by what is found of all that are accepted.
ghost use Rattle.std.specs.Prelude.{◌≡◌, ◌+◌, ◌<◌, ◌≤◌, ℕ, Option, Some, false, length, true};
ghost use Rattle.dvg_game_words.specs.Checker as rules;
ghost use Rattle.dvg_game_words.specs.Checker.{Notes, enters, fine_at, noted};
ghost use Rattle.dvg_game_words.specs.Kinds as kinds;
ghost use Rattle.dvg_game_check.specs.Least.{AreUnder, Comes, IsGame, IsUnder};
ghost use Rattle.dvg_game_check.specs.Meant.{kind_meant};
ghost use Rattle.dvg_game_check.specs.Rules.{HasBytes, calls_fine, fine_with, jumps_fine};
ghost use Rattle.dvg_game_check.specs.Rules.{level_meant, note_meant, notes_in};

use crate::follow::{FIRST, PLACES, all_serve, implies, same_level};
use crate::kind::{Kind, Operand, Sets, kind_of, size};
use crate::note::{Level, Note};
use crate::reach::{Test, reached};
use crate::rules::{BYTES, UNCHANGED, byte_at, goes_on, is_driver, is_entry, target, word_at};

// Returns whether no code may stand there, or what is found there is of another level or depth.
#[tactic(auto, unfolding(dvg_game_words::specs::Checker::places))]
fn is_barred(notes: &[Option<Note>], to: u32, level: Level, depth: u32) -> bool
    requires { length notes.now ≡ PLACES }
    ensures { result ≡ true → (all : Notes) (new : rules.Note) → AreUnder (notes_in notes.now) all
        → noted all to ≡ Some new → new.level ≡ level_meant level → new.depth ≡ depth → ⊥ }
{
    if to < FIRST || FIRST + PLACES <= to {
        return true;
    }
    match &notes[(to - FIRST) as usize] {
        None => false,
        Some(new) => !(same_level(new.level, level) && u32::from(new.depth) == depth),
    }
}

// Returns whether more bytes are pushed than may be, or the NMI does more instructions.
fn exceeds(now: &Note) -> bool
    ensures { result ≡ true → (n : rules.Note) → IsUnder (note_meant now.now) n → ⊥ }
{
    let pushed = u32::from(now.room) + u32::from(now.depth);
    match now.level {
        Level::Nmi => 29 < pushed || 800 < now.fuel,
        Level::Main | Level::Sub => 223 < pushed,
    }
}

// Returns whether the driver may be called there, for all but the room.
fn may_enter(to: u16, now: &Note) -> bool
    ensures { result ≡ false → (n : rules.Note) → Comes (note_meant now.now) n
        → enters to n ≡ false }
{
    is_entry(to)
        && (!same_level(now.level, Level::Nmi)
            && ((to == 0x6800 || now.awake) && implies(goes_on(to), !now.blank)))
}

// Returns whether no jump like this is fine.
fn jump_forced(notes: &[Option<Note>], word: u16, reset: u16, now: &Note) -> bool
    requires { length notes.now ≡ PLACES }
    ensures { result ≡ true → (all : Notes) (n : rules.Note) → AreUnder (notes_in notes.now) all
        → Comes (note_meant now.now) n → jumps_fine all word reset n ≡ false }
{
    if word == reset {
        return same_level(now.level, Level::Nmi);
    }
    if is_driver(word) {
        if !may_enter(word, now) {
            return true;
        }
        return !(same_level(now.level, Level::Sub) && now.depth == 0);
    }
    is_barred(notes, u32::from(word), now.level, u32::from(now.depth))
}

// Returns whether no call like this is fine.
fn call_forced(notes: &[Option<Note>], word: u16, at: u32, now: &Note) -> bool
    requires notes { length notes.now ≡ PLACES }
    requires place { at < 65536 }
    ensures { result ≡ true → (all : Notes) (n : rules.Note) → AreUnder (notes_in notes.now) all
        → Comes (note_meant now.now) n → calls_fine all word at n ≡ false }
{
    let depth = u32::from(now.depth);
    if is_driver(word) {
        if !may_enter(word, now) {
            return true;
        }
        return is_barred(notes, at + 3, now.level, depth);
    }
    if same_level(now.level, Level::Nmi) {
        return true;
    }
    if is_barred(notes, u32::from(word), Level::Sub, 0) {
        return true;
    }
    is_barred(notes, at + 3, now.level, depth)
}

// Returns whether no branch like this is fine.
fn branch_forced(notes: &[Option<Note>], low: u8, at: u32, now: &Note) -> bool
    requires notes { length notes.now ≡ PLACES }
    requires place { at < 65536 }
    ensures { result ≡ true → (all : Notes) (n : rules.Note) → AreUnder (notes_in notes.now) all
        → Comes (note_meant now.now) n → fine_with kinds.Branch all low 0 0 at n ≡ false }
{
    let depth = u32::from(now.depth);
    if is_barred(notes, target(at, low), now.level, depth) {
        return true;
    }
    is_barred(notes, at + 2, now.level, depth)
}

// Returns whether no read like this is fine.
fn read_forced(
    notes: &[Option<Note>],
    sets: Sets,
    place: Operand,
    low: u8,
    word: u16,
    at: u32,
    now: &Note,
) -> bool
    requires notes { length notes.now ≡ PLACES }
    requires place { at < 65536 }
    ensures { result ≡ true → (all : Notes) (n : rules.Note) → AreUnder (notes_in notes.now) all
        → Comes (note_meant now.now) n
        → fine_with (kind_meant (Kind.Reads sets place)) all low word 0 at n ≡ false }
{
    let _ = sets;
    if !reached(place, low, word, Test::NoStrobe) {
        return true;
    }
    is_barred(
        notes,
        at + u32::from(size(place)),
        now.level,
        u32::from(now.depth),
    )
}

// Returns whether no store like this is fine.
fn store_forced(
    notes: &[Option<Note>],
    place: Operand,
    low: u8,
    word: u16,
    at: u32,
    now: &Note,
) -> bool
    requires notes { length notes.now ≡ PLACES }
    requires place { at < 65536 }
    ensures { result ≡ true → (all : Notes) (n : rules.Note) → AreUnder (notes_in notes.now) all
        → Comes (note_meant now.now) n
        → fine_with (kind_meant (Kind.Stores place)) all low word 0 at n ≡ false }
{
    if !reached(place, low, word, Test::Writable(now.level)) {
        return true;
    }
    is_barred(
        notes,
        at + u32::from(size(place)),
        now.level,
        u32::from(now.depth),
    )
}

// Returns whether an instruction isn't fine, whatever its notes, by its kind and the bytes behind
// its opcode.
fn forced_with(
    kind: Kind,
    notes: &[Option<Note>],
    low: u8,
    word: u16,
    reset: u16,
    at: u32,
    now: &Note,
) -> bool
    requires notes { length notes.now ≡ PLACES }
    requires place { at < 65536 }
    ensures { result ≡ true → (all : Notes) (n : rules.Note) → AreUnder (notes_in notes.now) all
        → Comes (note_meant now.now) n → fine_with (kind_meant kind) all low word reset at n
        ≡ false }
{
    let (level, depth) = (now.level, u32::from(now.depth));
    match kind {
        Kind::Quiet(_, bytes) => is_barred(notes, at + u32::from(bytes), level, depth),
        Kind::Reads(sets, place) => read_forced(notes, sets, place, low, word, at, now),
        Kind::Transfer(_, _) => is_barred(notes, at + 1, level, depth),
        Kind::Stores(place) => store_forced(notes, place, low, word, at, now),
        Kind::Push | Kind::PushFlags => is_barred(notes, at + 1, level, depth + 1),
        Kind::Pull | Kind::PullFlags => depth == 0 || is_barred(notes, at + 1, level, depth - 1),
        Kind::Branch => branch_forced(notes, low, at, now),
        Kind::Jump => jump_forced(notes, word, reset, now),
        Kind::Call => call_forced(notes, word, at, now),
        Kind::Return => !(same_level(level, Level::Sub) && depth == 0),
        Kind::Finish => {
            !(same_level(level, Level::Nmi) && (depth == 0 && all_serve(UNCHANGED, now.held)))
        }
        Kind::Wild => true,
    }
}

// Returns whether nothing that is accepted has a note at a place for which this one was made.
fn note_forced(rom: &[u8], notes: &[Option<Note>], at: u32, now: &Note) -> bool
    requires bytes { length rom.now ≡ BYTES }
    requires notes { length notes.now ≡ PLACES }
    requires first { FIRST ≤ at }
    requires last { at < FIRST + PLACES }
    ensures { result ≡ true → (f : ℕ → ℕ) (all : Notes) (n : rules.Note) → HasBytes rom.now f
        → AreUnder (notes_in notes.now) all → IsUnder (note_meant now.now) n
        → fine_at all f at (Some n) ≡ true → ⊥ }
{
    if exceeds(now) {
        return true;
    }
    let kind = kind_of(byte_at(rom, at));
    let low = byte_at(rom, at + 1);
    let word = word_at(rom, at + 1);
    let reset = word_at(rom, 0x7FFC);
    forced_with(kind, notes, low, word, reset, at, now)
}

// Returns whether nothing that is accepted has a note at a place for which one was made.
#[tactic(auto, unfolding(dvg_game_words::specs::Checker::places))]
fn place_forced(rom: &[u8], notes: &[Option<Note>], at: u32) -> bool
    requires bytes { length rom.now ≡ BYTES }
    requires notes { length notes.now ≡ PLACES }
    requires first { FIRST ≤ at }
    requires last { at < FIRST + PLACES }
    ensures { result ≡ true → (f : ℕ → ℕ) (all : Notes) → HasBytes rom.now f
        → AreUnder (notes_in notes.now) all → fine_at all f at (noted all at) ≡ true → ⊥ }
{
    match &notes[(at - FIRST) as usize] {
        None => false,
        Some(now) => note_forced(rom, notes, at, now),
    }
}

/// Returns whether no notes of a program that starts at `start` are accepted, by what is found of
/// all that are.
pub fn is_forced(rom: &[u8], notes: &[Option<Note>], start: u32) -> bool
    requires bytes { length rom.now ≡ BYTES }
    requires notes { length notes.now ≡ PLACES }
    ensures { result ≡ true → (f : ℕ → ℕ) (all : Notes) → HasBytes rom.now f → IsGame f start all
        → AreUnder (notes_in notes.now) all → ⊥ }
{
    if is_barred(notes, start, Level::Main, 0) {
        return true;
    }
    if is_barred(notes, u32::from(word_at(rom, 0x7FFA)), Level::Nmi, 0) {
        return true;
    }
    for i in 0..PLACES {
        if place_forced(rom, notes, FIRST + i) {
            return true;
        }
    }
    false
}
