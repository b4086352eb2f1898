//! What a program brings at its calls of the driver.
ghost use Rattle.std.specs.Prelude.{◌≡◌, ℕ, ◌+◌, ◌*◌, ◌<◌, ◌≤◌, IfSome, MatchOption, Some, length};
ghost use Rattle.dvg_game_words.specs.Processor as processor;
ghost use Rattle.dvg_game_words.specs.Brings as brings;
ghost use Rattle.dvg_game_words.specs.Brings.{brought_by, of_each};
ghost use Rattle.dvg_game_check.specs.Brought.{BringsOnly, GapTells, IsUnseen, PairsTell};
ghost use Rattle.dvg_game_check.specs.Brought.{PlaceTells, Tells, fact_meant};
ghost use Rattle.dvg_game_check.specs.Brought.{flows_with, has, has_word, known, known_is};
ghost use Rattle.dvg_game_check.specs.Brought.{known_meant, next_with};
ghost use Rattle.dvg_game_check.specs.Brought.{value_of, ways_in};
ghost use Rattle.dvg_game_check.specs.Meant.{kind_meant};
ghost use Rattle.dvg_game_check.specs.Rules.{HasBytes, notes_in};
ghost use Rattle.dvg_game_words.specs.Checker.{noted};

use crate::follow::{FIRST, PLACES};
use crate::kind::{Kind, Sets, kind_of, size};
use crate::note::Note;
use crate::rules::{BYTES, byte_at, is_driver, target, word_at};

/// What a byte is known to be.
#[derive(Clone, Copy, Debug)]
pub enum Known {
    Any,
    Is(u8),
    Under(u16),
    /// What is in the ROM's list at this address, by Y.
    Listed(u16),
    /// The same, with these bits set.
    Masked(u16, u8),
}

/// What A and X hold; what Y is below; and below what it is where C is clear.
#[derive(Clone, Copy, Debug)]
pub struct Fact {
    pub a: Known,
    pub x: Known,
    pub most: u16,
    pub less: u16,
}

const NOTHING: Fact = Fact {
    a: Known::Any,
    x: Known::Any,
    most: 256,
    less: 256,
};

fn with_bits(mask: u8, known: Known) -> Known
    ensures { (rom : ℕ → ℕ)
        → known_meant rom result ≡ brings.with_bits mask (known_meant rom known) }
{
    match known {
        Known::Any | Known::Under(_) => Known::Any,
        Known::Is(n) => Known::Is(n | mask),
        Known::Listed(base) => Known::Masked(base, mask),
        Known::Masked(base, old) => Known::Masked(base, old | mask),
    }
}

fn listed(base: u16, most: u16) -> Known
    ensures { (rom : ℕ → ℕ) → known_meant rom result ≡ brings.listed rom base most }
{
    if 0x4800 <= base && u32::from(base) + u32::from(most) <= 0x8000 {
        Known::Listed(base)
    } else {
        Known::Any
    }
}

fn fixed(known: Known) -> Known
    ensures { (rom : ℕ → ℕ) → known_meant rom result ≡ brings.fixed (known_meant rom known) }
{
    match known {
        Known::Is(n) => Known::Is(n),
        _ => Known::Any,
    }
}

fn bound(known: Known) -> u16
    ensures { (rom : ℕ → ℕ) → result ≡ brings.bound (known_meant rom known) }
{
    match known {
        Known::Is(n) => u16::from(n) + 1,
        Known::Under(n) => n,
        _ => 256,
    }
}

fn kept_by(kind: Kind, f: Fact) -> Fact
    ensures { (rom : ℕ → ℕ)
        → fact_meant rom result ≡ brings.kept_by (kind_meant kind) (fact_meant rom f) }
{
    match kind {
        Kind::Quiet(Sets::Nothing, _)
        | Kind::Reads(Sets::Nothing, _)
        | Kind::Stores(_)
        | Kind::Branch => Fact {
            a: f.a,
            x: f.x,
            most: f.most,
            less: 256,
        },
        _ => NOTHING,
    }
}

// Returns what is known behind an instruction with these bytes, where `f` is known before it.
fn next(op: u8, low: u8, word: u16, kind: Kind, f: Fact) -> Fact
    ensures { (rom : ℕ → ℕ) → fact_meant rom result
        ≡ next_with rom op low word (kind_meant kind) (fact_meant rom f) }
{
    if op == 0xA9 {
        Fact {
            a: Known::Is(low),
            x: f.x,
            most: f.most,
            less: 256,
        }
    } else if op == 0xA2 {
        Fact {
            a: f.a,
            x: Known::Is(low),
            most: f.most,
            less: 256,
        }
    } else if op == 0xB9 {
        Fact {
            a: listed(word, f.most),
            x: f.x,
            most: f.most,
            less: 256,
        }
    } else if op == 0xBE {
        Fact {
            a: f.a,
            x: listed(word, f.most),
            most: f.most,
            less: 256,
        }
    } else if op == 0x09 {
        Fact {
            a: with_bits(low, f.a),
            x: f.x,
            most: f.most,
            less: 256,
        }
    } else if op == 0x29 {
        Fact {
            a: Known::Under(u16::from(low) + 1),
            x: f.x,
            most: f.most,
            less: 256,
        }
    } else if op == 0xA8 {
        Fact {
            a: fixed(f.a),
            x: fixed(f.x),
            most: bound(f.a),
            less: 256,
        }
    } else if op == 0xAA {
        Fact {
            a: f.a,
            x: f.a,
            most: f.most,
            less: 256,
        }
    } else if op == 0x8A {
        Fact {
            a: f.x,
            x: f.x,
            most: f.most,
            less: 256,
        }
    } else if op == 0xC0 {
        Fact {
            a: f.a,
            x: f.x,
            most: f.most,
            less: u16::from(low),
        }
    } else if op == 0xB0 {
        let most = if f.less <= f.most { f.less } else { f.most };
        Fact {
            a: f.a,
            x: f.x,
            most,
            less: 256,
        }
    } else {
        kept_by(kind, f)
    }
}

// Returns how many bytes the instruction has from which alone a place is come to, or 0.
fn way_at(ways: &[u8], at: u32) -> u8
    requires { length ways.now ≡ PLACES }
    ensures value { result ≡ ways_in ways.now at }
    ensures place { 0 < result → FIRST ≤ at }
{
    if at < FIRST || FIRST + PLACES <= at {
        return 0;
    }
    ways[(at - FIRST) as usize]
}

fn is_free(ways: &[u8], at: u32) -> bool
    requires { length ways.now ≡ PLACES }
    ensures { result ≡ brings.is_free (ways_in ways.now) at }
{
    way_at(ways, at) == 0
}

fn passes_on(ways: &[u8], at: u32, bytes: u8) -> bool
    requires ways { length ways.now ≡ PLACES }
    requires place { at < 65536 }
    ensures { result ≡ brings.passes_on (ways_in ways.now) at bytes }
{
    let to = at + u32::from(bytes);
    is_free(ways, to) || (way_at(ways, to) == bytes && !(bytes == 0))
}

// Returns whether each place that an instruction leads to is come to as the notes say.
fn flows(ways: &[u8], at: u32, kind: Kind, low: u8, word: u16) -> bool
    requires ways { length ways.now ≡ PLACES }
    requires place { at < 65536 }
    ensures { result ≡ flows_with (ways_in ways.now) at (kind_meant kind) low word }
{
    match kind {
        Kind::Quiet(_, bytes) => passes_on(ways, at, bytes),
        Kind::Reads(_, place) | Kind::Stores(place) => passes_on(ways, at, size(place)),
        Kind::Transfer(_, _) | Kind::Push | Kind::PushFlags | Kind::Pull | Kind::PullFlags => {
            passes_on(ways, at, 1)
        }
        Kind::Branch => is_free(ways, target(at, low)) && passes_on(ways, at, 2),
        Kind::Jump => is_driver(word) || is_free(ways, u32::from(word)),
        Kind::Call => {
            is_free(ways, at + 3) && (is_driver(word) || is_free(ways, u32::from(word)))
        }
        Kind::Return | Kind::Finish => true,
        Kind::Wild => false,
    }
}

// Returns what is known at a place, by so many instructions before it at most.
pub fn known_at(rom: &[u8], ways: &[u8], count: u32, at: u32) -> Fact
    requires bytes { length rom.now ≡ BYTES }
    requires ways { length ways.now ≡ PLACES }
    requires last { at < FIRST + PLACES }
    ensures { (f : ℕ → ℕ) → HasBytes rom.now f
        → fact_meant f result ≡ known (ways_in ways.now) f count at }
{
    if count == 0 {
        return NOTHING;
    }
    let bytes = way_at(ways, at);
    if bytes == 0 {
        return NOTHING;
    }
    let before = at - u32::from(bytes);
    let old = known_at(rom, ways, count - 1, before);
    let op = byte_at(rom, before);
    let low = byte_at(rom, before + 1);
    let word = word_at(rom, before + 1);
    next(op, low, word, kind_of(op), old)
}

// Returns what a byte is where Y is this, if that is known and in the program.
pub fn value(rom: &[u8], known: Known, y: u16) -> Option<u8>
    requires { length rom.now ≡ BYTES }
    ensures { (f : ℕ → ℕ) → HasBytes rom.now f
        → IfSome result (λ v. value_of (known_meant f known) y ≡ Some v) }
{
    match known {
        Known::Any | Known::Under(_) => None,
        Known::Is(n) => Some(n),
        Known::Listed(base) => {
            let at = u32::from(base) + u32::from(y);
            if at < 0x6800 || 0x8000 <= at {
                return None;
            }
            Some(byte_at(rom, at))
        }
        Known::Masked(base, mask) => {
            let at = u32::from(base) + u32::from(y);
            if at < 0x6800 || 0x8000 <= at {
                return None;
            }
            Some(byte_at(rom, at) | mask)
        }
    }
}

// Returns whether a list has a number.
pub fn contains(list: &[u16], n: u16) -> bool
    ensures { result ≡ has list.now n }
{
    for i in 0..list.len() {
        if list[i] == n {
            return true;
        }
    }
    false
}

/// Why what an instruction brings isn't seen to be in the lists.
#[derive(Clone, Copy, Debug, PartialEq, Eq)]
pub enum Gap {
    /// Where it leads, a place is come to otherwise than is noted.
    Ways,
    /// It calls `dvg_pair`.
    Pair,
    /// A or X may be anything.
    Unknown,
    /// A or X is in a list that isn't all in the program's bytes, or no Y is known for it.
    Outside,
    /// This word, which A and X may be, isn't in the list.
    Missing(u16),
}

// Returns whether it is known what a byte is, for each Y.
fn is_known(known: Known) -> bool
    ensures { (f : ℕ → ℕ) → result ≡ known_is (known_meant f known) }
{
    match known {
        Known::Any | Known::Under(_) => false,
        Known::Is(_) | Known::Listed(_) | Known::Masked(_, _) => true,
    }
}

// Returns why a list isn't seen to have each word that A and X may be.
fn pairs_gap(rom: &[u8], list: &[u16], fact: Fact) -> Option<Gap>
    requires { length rom.now ≡ BYTES }
    ensures { (f : ℕ → ℕ) → HasBytes rom.now f
        → PairsTell result (fact_meant f fact) list.now }
{
    if !is_known(fact.a) {
        return Some(Gap::Unknown);
    }
    if !is_known(fact.x) {
        return Some(Gap::Unknown);
    }
    for y in 0..fact.most {
        let (Some(a), Some(x)) = (value(rom, fact.a, y), value(rom, fact.x, y)) else {
            return Some(Gap::Outside);
        };
        let word = u16::from(a) + 256 * u16::from(x);
        if !contains(list, word) {
            return Some(Gap::Missing(word));
        }
    }
    if fact.most == 0 {
        return Some(Gap::Outside);
    }
    None
}

// Returns why what is brought to a routine of the driver isn't seen to be in these lists.
fn brought_gap(rom: &[u8], tables: &[u16], words: &[u16], fact: Fact, to: u16) -> Option<Gap>
    requires { length rom.now ≡ BYTES }
    ensures { (f : ℕ → ℕ) → HasBytes rom.now f
        → Tells tables.now words.now result (fact_meant f fact) to }
{
    if to == 0x68FE {
        pairs_gap(rom, tables, fact)
    } else if to == 0x6957 {
        pairs_gap(rom, words, fact)
    } else if to == 0x6989 {
        Some(Gap::Pair)
    } else {
        None
    }
}

/// How many instructions are looked back at, at most.
pub const FAR: u32 = 12;

fn is_leap(kind: Kind) -> bool
    ensures { result ≡ brings.is_leap (kind_meant kind) }
{
    match kind {
        Kind::Jump | Kind::Call => true,
        _ => false,
    }
}

// Returns why what an instruction brings isn't seen to be in these lists, or its ways aren't as
// noted.
fn gap_there(rom: &[u8], ways: &[u8], tables: &[u16], words: &[u16], at: u32) -> Option<Gap>
    requires bytes { length rom.now ≡ BYTES }
    requires ways { length ways.now ≡ PLACES }
    requires first { FIRST ≤ at }
    requires last { at < FIRST + PLACES }
    ensures { (f : ℕ → ℕ) → HasBytes rom.now f
        → GapTells tables.now words.now f (ways_in ways.now) at result }
{
    let kind = kind_of(byte_at(rom, at));
    let low = byte_at(rom, at + 1);
    let word = word_at(rom, at + 1);
    if !flows(ways, at, kind, low, word) {
        return Some(Gap::Ways);
    }
    if !is_leap(kind) {
        return None;
    }
    let fact = known_at(rom, ways, FAR, at);
    brought_gap(rom, tables, words, fact, word)
}

#[tactic(auto, unfolding(dvg_game_words::specs::Checker::places))]
fn place_gap(
    rom: &[u8],
    notes: &[Option<Note>],
    ways: &[u8],
    tables: &[u16],
    words: &[u16],
    at: u32,
) -> Option<Gap>
    requires bytes { length rom.now ≡ BYTES }
    requires notes { length notes.now ≡ PLACES }
    requires ways { length ways.now ≡ PLACES }
    requires first { FIRST ≤ at }
    requires last { at < FIRST + PLACES }
    ensures { (f : ℕ → ℕ) → HasBytes rom.now f
        → PlaceTells tables.now words.now f (ways_in ways.now) at (noted
        (notes_in notes.now) at) result }
{
    match &notes[(at - FIRST) as usize] {
        None => None,
        Some(_) => gap_there(rom, ways, tables, words, at),
    }
}

/// Why not all that a program brings is seen, and accepted.
#[derive(Clone, Copy, Debug, PartialEq, Eq)]
pub enum Unseen {
    /// Its first instruction is noted to be come to from another one alone.
    Start,
    /// What the instruction at this address brings isn't seen to be in the lists.
    At(u32, Gap),
    /// At this address, which is in the list of tables, none is seen that the check accepts.
    Table(u16),
    /// This word, which is in the list of words, isn't seen to be one that may be put.
    Word(u16),
}

/// Returns why not all that a program brings is seen to be in these lists. Where it is, the program
/// calls no `dvg_pair`.
pub fn brings_gap(
    rom: &[u8],
    notes: &[Option<Note>],
    ways: &[u8],
    tables: &[u16],
    words: &[u16],
    start: u32,
) -> Option<Unseen>
    requires bytes { length rom.now ≡ BYTES }
    requires notes { length notes.now ≡ PLACES }
    requires ways { length ways.now ≡ PLACES }
    ensures { MatchOption result (BringsOnly rom.now notes.now ways.now tables.now words.now start)
        (λ why. IsUnseen rom.now notes.now ways.now tables.now words.now start why) }
{
    for i in 0..PLACES {
        match place_gap(rom, notes, ways, tables, words, FIRST + i) {
            Some(gap) => return Some(Unseen::At(FIRST + i, gap)),
            None => {}
        }
    }
    if !is_free(ways, start) {
        return Some(Unseen::Start);
    }
    None
}
