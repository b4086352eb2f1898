//! Which rule an instruction breaks.
ghost use Rattle.std.specs.Prelude.{◌≡◌, ℕ, ◌+◌, ◌<◌, ◌≤◌, IfOk, MatchOption, None, Some, false};
ghost use Rattle.std.specs.Prelude.{length, true};
ghost use Rattle.dvg_game_words.specs.Checker.{enters, leads, noted, suits};
ghost use Rattle.dvg_game_check.specs.Meant.{kind_meant};
ghost use Rattle.dvg_game_check.specs.Rules.{HasBytes, calls_fine, changed, fine_with, jumps_fine};
ghost use Rattle.dvg_game_check.specs.Rules.{note_meant, notes_in};
ghost use Rattle.dvg_game_check.specs.Why.{AreBroken, BreaksBy, asked, asks, call_asks, entry_asks};
ghost use Rattle.dvg_game_check.specs.Why.{finish_asks, jump_asks, return_asks, returns};

use crate::follow::{
    FIRST, PLACES, all_serve, awake_after, blank_after as blank_left, depth_after, ends_after,
    held_after, holding, implies, level_after, newest, of_held, room_after, same_level, set,
    slots_serve,
};
use crate::kind::{Kind, Operand, Register, Sets, kind_of, size};
use crate::note::{Change, Level, Note, Slot};
use crate::program::fine_place;
use crate::reach::{Test, reached};
use crate::rules::{
    BYTES, UNCHANGED, blank_after, byte_at, ends_at, goes_on, is_driver, is_entry, still_awake,
    target, word_at,
};
use std::alloc::{AllocError, Allocator};

/// What the note of a place asks of the instructions that lead there.
#[derive(Clone, Copy, Debug, PartialEq, Eq)]
pub enum Ask {
    /// That there is one: code may be there, and comes there.
    Noted,
    /// Code of the program, of a subroutine, or of the NMI.
    Level,
    /// So many bytes pushed.
    Depth,
    /// Room on the stack.
    Room,
    /// That the NMI ends soon.
    Fuel,
    /// That `dvg_reset` was called.
    Awake,
    /// What A, X and Y hold.
    Held,
    /// Which bytes were pushed.
    Slots,
    /// That a frame may be blank, if it may be.
    Blank,
    Ends,
}

/// A rule that an instruction may break.
#[derive(Clone, Copy, Debug, PartialEq, Eq)]
pub enum Rule {
    /// It isn't one that the checker knows.
    Wild,
    /// It reads no strobe of the generator.
    Strobe,
    /// It writes where code of its level may.
    Writes,
    /// There is room for what it pushes.
    Pushes,
    /// It pulls no more than was pushed.
    Pulls,
    /// The NMI doesn't jump to the reset.
    Resets,
    /// What it calls of the driver is a routine.
    Entry,
    /// There is room for what the driver pushes.
    EntryRoom,
    /// The NMI doesn't call the driver.
    EntryNmi,
    /// `dvg_reset` was called.
    Asleep,
    /// The frame begins with `dvg_labs`.
    Blank,
    /// There is room for a return address.
    CallRoom,
    /// The NMI calls no subroutine.
    CallNmi,
    /// Only a subroutine returns.
    ReturnLevel,
    /// It returns with nothing of its own on the stack.
    ReturnDepth,
    /// It leaves no frame blank, unless its note says so.
    ReturnBlank,
    /// Only the NMI's routine ends by RTI.
    FinishLevel,
    FinishDepth,
    /// The NMI leaves A, X and Y as they were.
    FinishHeld,
    /// What it leaves is what the note of the place behind it asks for.
    Next(Ask),
    /// Or that of the place where it leads.
    Target(Ask),
}

// Returns what `new` asks for that an instruction with the note `now` doesn't leave.
fn unsuited(change: Change, now: &Note, new: &Note) -> Option<Ask>
    ensures { MatchOption result (suits (changed change (note_meant now.now)) (Some
        (note_meant new.now)) ≡ true)
        (λ ask. asked ask (changed change (note_meant now.now)) (Some (note_meant new.now))
        ≡ false) }
{
    let level = level_after(change, now);
    if !same_level(new.level, level) {
        return Some(Ask::Level);
    }
    if u32::from(new.depth) != depth_after(change, now) {
        return Some(Ask::Depth);
    }
    if room_after(change, now) < u32::from(new.room) {
        return Some(Ask::Room);
    }
    if !implies(same_level(level, Level::Nmi), new.fuel < now.fuel) {
        return Some(Ask::Fuel);
    }
    if !implies(new.awake, awake_after(change, now)) {
        return Some(Ask::Awake);
    }
    if !all_serve(new.held, held_after(change, now)) {
        return Some(Ask::Held);
    }
    if !slots_serve(change, now, new) {
        return Some(Ask::Slots);
    }
    if !implies(blank_left(change, now), new.blank) {
        return Some(Ask::Blank);
    }
    if !implies(new.ends, ends_after(change, now)) {
        return Some(Ask::Ends);
    }
    None
}

// Returns what is asked for at an address that an instruction with the note `now` doesn't leave.
#[tactic(auto, unfolding(dvg_game_words::specs::Checker::places))]
fn unled(notes: &[Option<Note>], to: u32, change: Change, now: &Note) -> Option<Ask>
    requires { length notes.now ≡ PLACES }
    ensures { MatchOption result
        (leads (notes_in notes.now) to (changed change (note_meant now.now)) ≡ true)
        (λ ask. asked ask (changed change (note_meant now.now)) (noted (notes_in notes.now) to)
        ≡ false) }
{
    if to < FIRST || FIRST + PLACES <= to {
        return Some(Ask::Noted);
    }
    match &notes[(to - FIRST) as usize] {
        None => Some(Ask::Noted),
        Some(new) => unsuited(change, now, new),
    }
}

// Returns why an instruction with the note `now` may not call the driver there.
fn entry_why(to: u16, now: &Note) -> Option<Rule>
    ensures { MatchOption result (enters to (note_meant now.now)
        ≡ true) (λ rule. entry_asks rule to (note_meant now.now) ≡ false) }
{
    if !is_entry(to) {
        return Some(Rule::Entry);
    }
    if now.room < 4 {
        return Some(Rule::EntryRoom);
    }
    if same_level(now.level, Level::Nmi) {
        return Some(Rule::EntryNmi);
    }
    if !(to == 0x6800 || now.awake) {
        return Some(Rule::Asleep);
    }
    if !implies(goes_on(to), !now.blank) {
        return Some(Rule::Blank);
    }
    None
}

// Returns why a subroutine may not return, where a frame may be blank.
fn return_why(blank: bool, now: &Note) -> Option<Rule>
    ensures { MatchOption result (returns blank (note_meant now.now)
        ≡ true) (λ rule. return_asks rule blank (note_meant now.now) ≡ false) }
{
    if !same_level(now.level, Level::Sub) {
        return Some(Rule::ReturnLevel);
    }
    if now.depth != 0 {
        return Some(Rule::ReturnDepth);
    }
    if !implies(blank, now.ends) {
        return Some(Rule::ReturnBlank);
    }
    None
}

fn jump_why(notes: &[Option<Note>], word: u16, reset: u16, now: &Note) -> Option<Rule>
    requires { length notes.now ≡ PLACES }
    ensures { MatchOption result
        (jumps_fine (notes_in notes.now) word reset (note_meant now.now)
        ≡ true) (λ rule. jump_asks rule (notes_in notes.now) word reset (note_meant now.now)
        ≡ false) }
{
    if word == reset {
        if same_level(now.level, Level::Nmi) {
            return Some(Rule::Resets);
        }
        return None;
    }
    if is_driver(word) {
        match entry_why(word, now) {
            Some(rule) => return Some(rule),
            None => {}
        }
        return return_why(blank_after(word, now.blank), now);
    }
    match unled(notes, u32::from(word), Change::Same, now) {
        Some(ask) => Some(Rule::Target(ask)),
        None => None,
    }
}

fn call_why(notes: &[Option<Note>], word: u16, at: u32, now: &Note) -> Option<Rule>
    requires notes { length notes.now ≡ PLACES }
    requires place { at < 65536 }
    ensures { MatchOption result
        (calls_fine (notes_in notes.now) word at (note_meant now.now)
        ≡ true) (λ rule. call_asks rule (notes_in notes.now) word at (note_meant now.now) ≡ false) }
{
    if is_driver(word) {
        match entry_why(word, now) {
            Some(rule) => return Some(rule),
            None => {}
        }
        let awake = word == 0x6800 || now.awake;
        let blank = blank_after(word, now.blank);
        return match unled(notes, at + 3, Change::Returns(awake, blank), now) {
            Some(ask) => Some(Rule::Next(ask)),
            None => None,
        };
    }
    let ends = ends_at(notes, u32::from(word));
    if now.room < 2 {
        return Some(Rule::CallRoom);
    }
    if same_level(now.level, Level::Nmi) {
        return Some(Rule::CallNmi);
    }
    match unled(notes, u32::from(word), Change::Begins(ends), now) {
        Some(ask) => return Some(Rule::Target(ask)),
        None => {}
    }
    match unled(notes, at + 3, Change::Returns(now.awake, ends), now) {
        Some(ask) => Some(Rule::Next(ask)),
        None => None,
    }
}

// Returns which rule an instruction breaks that sets a register.
fn quiet_why(notes: &[Option<Note>], sets: Sets, bytes: u8, at: u32, now: &Note) -> Option<Rule>
    requires notes { length notes.now ≡ PLACES }
    requires place { at < 65536 }
    ensures { MatchOption result (fine_with (kind_meant (Kind.Quiet sets bytes))
        (notes_in notes.now) 0 0 0 at (note_meant now.now) ≡ true)
        (λ rule. asks (kind_meant (Kind.Quiet sets bytes)) rule (notes_in notes.now) 0 0 0 at
        (note_meant now.now) ≡ false) }
{
    let held = set(sets, now.held);
    match unled(notes, at + u32::from(bytes), Change::Holds(held), now) {
        Some(ask) => Some(Rule::Next(ask)),
        None => None,
    }
}

// Returns which rule one breaks that reads a byte.
fn read_why(
    notes: &[Option<Note>],
    sets: Sets,
    place: Operand,
    low: u8,
    word: u16,
    at: u32,
    now: &Note,
) -> Option<Rule>
    requires notes { length notes.now ≡ PLACES }
    requires place { at < 65536 }
    ensures { MatchOption result (fine_with (kind_meant (Kind.Reads sets place))
        (notes_in notes.now) low word 0 at (note_meant now.now) ≡ true)
        (λ rule. asks (kind_meant (Kind.Reads sets place)) rule (notes_in notes.now) low word 0 at
        (note_meant now.now) ≡ false) }
{
    if !reached(place, low, word, Test::NoStrobe) {
        return Some(Rule::Strobe);
    }
    let held = set(sets, now.held);
    match unled(notes, at + u32::from(size(place)), Change::Holds(held), now) {
        Some(ask) => Some(Rule::Next(ask)),
        None => None,
    }
}

// Returns which rule a transfer breaks.
fn transfer_why(
    notes: &[Option<Note>],
    from: Register,
    to: Register,
    at: u32,
    now: &Note,
) -> Option<Rule>
    requires notes { length notes.now ≡ PLACES }
    requires place { at < 65536 }
    ensures { MatchOption result (fine_with (kind_meant (Kind.Transfer from to))
        (notes_in notes.now) 0 0 0 at (note_meant now.now) ≡ true)
        (λ rule. asks (kind_meant (Kind.Transfer from to)) rule (notes_in notes.now) 0 0 0 at
        (note_meant now.now) ≡ false) }
{
    let held = holding(to, of_held(from, now.held), now.held);
    match unled(notes, at + 1, Change::Holds(held), now) {
        Some(ask) => Some(Rule::Next(ask)),
        None => None,
    }
}

// Returns which rule a store breaks.
fn store_why(
    notes: &[Option<Note>],
    place: Operand,
    low: u8,
    word: u16,
    at: u32,
    now: &Note,
) -> Option<Rule>
    requires notes { length notes.now ≡ PLACES }
    requires place { at < 65536 }
    ensures { MatchOption result (fine_with (kind_meant (Kind.Stores place))
        (notes_in notes.now) low word 0 at (note_meant now.now) ≡ true)
        (λ rule. asks (kind_meant (Kind.Stores place)) rule (notes_in notes.now) low word 0 at
        (note_meant now.now) ≡ false) }
{
    if !reached(place, low, word, Test::Writable(now.level)) {
        return Some(Rule::Writes);
    }
    let awake = still_awake(now.awake, place, low, word);
    match unled(
        notes,
        at + u32::from(size(place)),
        Change::Leaves(awake),
        now,
    ) {
        Some(ask) => Some(Rule::Next(ask)),
        None => None,
    }
}

// Returns which rule a PHA breaks.
fn push_why(notes: &[Option<Note>], at: u32, now: &Note) -> Option<Rule>
    requires notes { length notes.now ≡ PLACES }
    requires place { at < 65536 }
    ensures { MatchOption result (fine_with (kind_meant Kind.Push) (notes_in notes.now) 0 0 0 at
        (note_meant now.now) ≡ true)
        (λ rule. asks (kind_meant Kind.Push) rule (notes_in notes.now) 0 0 0 at
        (note_meant now.now) ≡ false) }
{
    if now.room < 1 {
        return Some(Rule::Pushes);
    }
    match unled(notes, at + 1, Change::Pushes(now.held.a), now) {
        Some(ask) => Some(Rule::Next(ask)),
        None => None,
    }
}

// Returns which rule a PHP breaks.
fn push_flags_why(notes: &[Option<Note>], at: u32, now: &Note) -> Option<Rule>
    requires notes { length notes.now ≡ PLACES }
    requires place { at < 65536 }
    ensures { MatchOption result (fine_with (kind_meant Kind.PushFlags)
        (notes_in notes.now) 0 0 0 at (note_meant now.now) ≡ true)
        (λ rule. asks (kind_meant Kind.PushFlags) rule (notes_in notes.now) 0 0 0 at
        (note_meant now.now) ≡ false) }
{
    if now.room < 1 {
        return Some(Rule::Pushes);
    }
    match unled(notes, at + 1, Change::Pushes(Slot::Any), now) {
        Some(ask) => Some(Rule::Next(ask)),
        None => None,
    }
}

// Returns which rule a PLA breaks.
fn pull_why(notes: &[Option<Note>], at: u32, now: &Note) -> Option<Rule>
    requires notes { length notes.now ≡ PLACES }
    requires place { at < 65536 }
    ensures { MatchOption result (fine_with (kind_meant Kind.Pull) (notes_in notes.now) 0 0 0 at
        (note_meant now.now) ≡ true)
        (λ rule. asks (kind_meant Kind.Pull) rule (notes_in notes.now) 0 0 0 at
        (note_meant now.now) ≡ false) }
{
    if now.depth < 1 {
        return Some(Rule::Pulls);
    }
    let held = holding(Register::A, newest(now.slots.as_slice()), now.held);
    match unled(notes, at + 1, Change::Pulls(held), now) {
        Some(ask) => Some(Rule::Next(ask)),
        None => None,
    }
}

// Returns which rule a PLP breaks.
fn pull_flags_why(notes: &[Option<Note>], at: u32, now: &Note) -> Option<Rule>
    requires notes { length notes.now ≡ PLACES }
    requires place { at < 65536 }
    ensures { MatchOption result (fine_with (kind_meant Kind.PullFlags)
        (notes_in notes.now) 0 0 0 at (note_meant now.now) ≡ true)
        (λ rule. asks (kind_meant Kind.PullFlags) rule (notes_in notes.now) 0 0 0 at
        (note_meant now.now) ≡ false) }
{
    if now.depth < 1 {
        return Some(Rule::Pulls);
    }
    match unled(notes, at + 1, Change::Pulls(now.held), now) {
        Some(ask) => Some(Rule::Next(ask)),
        None => None,
    }
}

// Returns which rule a branch breaks.
fn branch_why(notes: &[Option<Note>], low: u8, at: u32, now: &Note) -> Option<Rule>
    requires notes { length notes.now ≡ PLACES }
    requires place { at < 65536 }
    ensures { MatchOption result (fine_with (kind_meant Kind.Branch)
        (notes_in notes.now) low 0 0 at (note_meant now.now) ≡ true)
        (λ rule. asks (kind_meant Kind.Branch) rule (notes_in notes.now) low 0 0 at
        (note_meant now.now) ≡ false) }
{
    match unled(notes, target(at, low), Change::Same, now) {
        Some(ask) => return Some(Rule::Target(ask)),
        None => {}
    }
    match unled(notes, at + 2, Change::Same, now) {
        Some(ask) => Some(Rule::Next(ask)),
        None => None,
    }
}

// Returns which rule an RTI breaks.
fn finish_why(now: &Note) -> Option<Rule>
    ensures { MatchOption result
        (fine_with (kind_meant Kind.Finish) (λ at. None) 0 0 0 0 (note_meant now.now)
        ≡ true) (λ rule. finish_asks rule (note_meant now.now) ≡ false) }
{
    if !same_level(now.level, Level::Nmi) {
        return Some(Rule::FinishLevel);
    }
    if now.depth != 0 {
        return Some(Rule::FinishDepth);
    }
    if !all_serve(UNCHANGED, now.held) {
        return Some(Rule::FinishHeld);
    }
    None
}

// Returns which rule an instruction breaks, by its kind and the bytes behind its opcode.
fn why_with(
    kind: Kind,
    notes: &[Option<Note>],
    low: u8,
    word: u16,
    reset: u16,
    at: u32,
    now: &Note,
) -> Option<Rule>
    requires notes { length notes.now ≡ PLACES }
    requires place { at < 65536 }
    ensures { MatchOption result
        (fine_with (kind_meant kind) (notes_in notes.now) low word reset at (note_meant now.now)
        ≡ true)
        (λ rule. asks (kind_meant kind) rule (notes_in notes.now) low word reset at
        (note_meant now.now) ≡ false) }
{
    match kind {
        Kind::Quiet(sets, bytes) => quiet_why(notes, sets, bytes, at, now),
        Kind::Reads(sets, place) => read_why(notes, sets, place, low, word, at, now),
        Kind::Transfer(from, to) => transfer_why(notes, from, to, at, now),
        Kind::Stores(place) => store_why(notes, place, low, word, at, now),
        Kind::Push => push_why(notes, at, now),
        Kind::PushFlags => push_flags_why(notes, at, now),
        Kind::Pull => pull_why(notes, at, now),
        Kind::PullFlags => pull_flags_why(notes, at, now),
        Kind::Branch => branch_why(notes, low, at, now),
        Kind::Jump => jump_why(notes, word, reset, now),
        Kind::Call => call_why(notes, word, at, now),
        Kind::Return => return_why(now.blank, now),
        Kind::Finish => finish_why(now),
        Kind::Wild => Some(Rule::Wild),
    }
}

// Returns which rule the instruction at a place breaks, whose note is `now`.
fn reason(rom: &[u8], notes: &[Option<Note>], at: u32, now: &Note) -> Option<Rule>
    requires bytes { length rom.now ≡ BYTES }
    requires notes { length notes.now ≡ PLACES }
    requires first { FIRST ≤ at }
    requires last { at < FIRST + PLACES }
    ensures { (f : ℕ → ℕ) → HasBytes rom.now f
        → BreaksBy result (notes_in notes.now) f at (Some (note_meant now.now)) }
{
    let kind = kind_of(byte_at(rom, at));
    let low = byte_at(rom, at + 1);
    let word = word_at(rom, at + 1);
    let reset = word_at(rom, 0x7FFC);
    why_with(kind, notes, low, word, reset, at, now)
}

/// Returns which rule the instruction at a place breaks.
#[tactic(auto, unfolding(dvg_game_words::specs::Checker::places))]
pub fn why(rom: &[u8], notes: &[Option<Note>], at: u32) -> Option<Rule>
    requires bytes { length rom.now ≡ BYTES }
    requires notes { length notes.now ≡ PLACES }
    requires first { FIRST ≤ at }
    requires last { at < FIRST + PLACES }
    ensures { (f : ℕ → ℕ) → HasBytes rom.now f
        → BreaksBy result (notes_in notes.now) f at (noted (notes_in notes.now) at) }
{
    match &notes[(at - FIRST) as usize] {
        None => None,
        Some(now) => reason(rom, notes, at, now),
    }
}

/// A place that isn't fine, and which rule is broken there.
#[derive(Clone, Copy, Debug)]
pub struct Broken {
    pub at: u32,
    pub rule: Option<Rule>,
}

/// Returns all places that aren't fine.
pub fn all_broken<A: Allocator>(
    alloc: A,
    rom: &[u8],
    notes: &[Option<Note>],
) -> Result<Vec<Broken, A>, AllocError>
    requires bytes { length rom.now ≡ BYTES }
    requires notes { length notes.now ≡ PLACES }
    ensures { IfOk result (λ all. AreBroken rom.now notes.now all.items) }
{
    let mut all = Vec::new(alloc);
    for i in 0..PLACES {
        let at = FIRST + i;
        if !fine_place(rom, notes, at) {
            let rule = why(rom, notes, at);
            all.push(Broken { at, rule })?;
        }
    }
    Ok(all)
}
