//! The check of the tables that a program offers, and of the words that it puts.
ghost use Rattle.std.specs.Prelude.{◌≡◌, ℕ, ◌+◌, ◌*◌, ◌%◌, ◌/◌, ◌<◌, ◌≤◌, IfSome, MatchOption, All};
ghost use Rattle.std.specs.Prelude.{length, true};
ghost use Rattle.dvg_frame.specs.Layout as layout;
ghost use Rattle.dvg_game_words.specs.Tables as words;
ghost use Rattle.dvg_game_check.specs.Brought.{has};
ghost use Rattle.dvg_game_check.specs.Offered.{AreThere, IsAccepted, IsFineTable, IsFineWord};
ghost use Rattle.dvg_game_check.specs.Offered.{IsLaid, TablesFine, WordsFine};
ghost use Rattle.dvg_game_check.specs.Rules.{HasBytes};
ghost use Rattle.dvg_game_words.specs.Tables.{NamesRom};
ghost use Rattle.dvg_frame.specs.Layout.{size};
ghost use Rattle.dvg_frame.specs.Ops.{IsDraft};

use crate::rules::{BYTES, byte_at, word_at};
use dvg_code::{Code, Instr, decode};
use dvg_frame::{Draft, Frame, Op, OpKind, check};
use dvg_mem::{Half, Rom};
use std::alloc::Allocator;

// Returns whether a number of a sign and two bits has no sign if it is zero.
fn is_plain(sign: u16, n: u16) -> bool
    ensures { result ≡ words.is_plain sign n }
{
    sign == 0 || !(n == 0)
}

// Returns whether these are the bytes of a short vector in its canonical spelling.
fn is_short(a: u16, x: u16) -> bool
    ensures { result ≡ words.is_short a x }
{
    (0xF0 <= x && x < 0x100) && (is_plain(a / 4 % 2, a % 4) && is_plain(x / 4 % 2, x % 4))
}

// Returns the draft that calls a shape.
fn calls_one(shape: u16) -> Option<Draft>
    ensures { IfSome result (λ draft. draft ≡ words.calls_one shape) }
{
    let mut draft = Draft::new();
    let labs = Code::new(Instr::Labs {
        x: 0,
        y: 0,
        scale: 0,
    })?;
    let first = Op::new(OpKind::Draw(labs))?;
    let second = Op::new(OpKind::CallRom(shape))?;
    let third = Op::new(OpKind::Halt)?;
    if draft.push(first).is_err() || draft.push(second).is_err() || draft.push(third).is_err() {
        return None;
    }
    Some(draft)
}

// Returns whether the check accepts a draft.
#[tactic(auto, unfolding(crate::specs::Offered::IsAccepted))]
fn is_accepted<A: Allocator>(draft: &Draft, rom: &Rom<A>) -> bool
    ensures { result ≡ true → IsAccepted draft.now rom.now }
{
    match check(draft, rom) {
        Ok(_) => true,
        Err(_) => false,
    }
}

// Returns whether a shape may be called.
fn shape_fine<A: Allocator>(shape: u16, rom: &Rom<A>) -> bool
    ensures { result ≡ true → IsAccepted (words.calls_one shape) rom.now }
{
    match calls_one(shape) {
        Some(draft) => is_accepted(&draft, rom),
        None => false,
    }
}

// Returns whether a word may be put.
fn word_fine<A: Allocator>(word: u16, rom: &Rom<A>) -> bool
    ensures { result ≡ true → IsFineWord rom.now (word % 256) (word / 256) }
{
    let (a, x) = (word % 256, word / 256);
    if is_short(a, x) {
        return true;
    }
    if x < 0xC0 || 0xD0 <= x {
        return false;
    }
    shape_fine(a + 256 * (x - 0xC0), rom)
}

/// Returns the first of these words that isn't seen to be one that may be put.
pub fn bad_word<A: Allocator>(words: &[u16], rom: &Rom<A>) -> Option<u16>
    ensures { MatchOption result (WordsFine rom.now words.now) (λ word. has words.now word ≡ true) }
{
    for i in 0..words.len() {
        if !word_fine(words[i], rom) {
            return Some(words[i]);
        }
    }
    None
}

// Returns a byte of the program, or 0.
fn byte_or_zero(rom: &[u8], a: u32) -> u8 {
    match rom.get(a.wrapping_sub(0x6800) as usize) {
        Some(byte) => *byte,
        None => 0,
    }
}

fn word_or_zero(rom: &[u8], a: u32) -> u16 {
    u16::from(byte_or_zero(rom, a)) + 256 * u16::from(byte_or_zero(rom, a.wrapping_add(1)))
}

// Returns the draft whose table of so many words seems to be at an address. Nothing is promised of
// it.
fn read_draft(rom: &[u8], t: u32, count: u16) -> Option<Draft> {
    let mut numbers = [0xFFFFu16; 512];
    let mut i: u32 = 0;
    for n in 0..count {
        if i < 512 {
            numbers[i as usize] = n;
        }
        let word = word_or_zero(rom, t.wrapping_add(2).wrapping_add(i.wrapping_mul(2)));
        i = i.wrapping_add(if word < 0xB000 { 2 } else { 1 });
    }
    let mut draft = Draft::new();
    let mut i: u32 = 0;
    for _ in 0..count {
        if u32::from(count) <= i {
            break;
        }
        let at = t.wrapping_add(2).wrapping_add(i.wrapping_mul(2));
        let words = [word_or_zero(rom, at), word_or_zero(rom, at.wrapping_add(2))];
        let Ok((code, len)) = decode(&words) else {
            return None;
        };
        let kind = match code.instr() {
            Instr::Halt => OpKind::Halt,
            Instr::Rtsl => OpKind::Return,
            Instr::Jsrl(a) => match number_of(&numbers, a) {
                Some(number) => OpKind::Call(number),
                None => OpKind::CallRom(a),
            },
            Instr::Jmpl(a) => match number_of(&numbers, a) {
                Some(number) => OpKind::Jump(number),
                None => OpKind::JumpRom(a),
            },
            _ => OpKind::Draw(code),
        };
        let op = Op::new(kind)?;
        if draft.push(op).is_err() {
            return None;
        }
        i = i.wrapping_add(if len == 2 { 2 } else { 1 });
    }
    Some(draft)
}

// Returns the number of the operation at a word address of half 0, or `None` for one of the ROM.
fn number_of(numbers: &[u16], a: u16) -> Option<u16> {
    if 0x400 <= a {
        return None;
    }
    match numbers.get(usize::from(a).wrapping_sub(1)) {
        Some(number) => Some(*number),
        None => Some(0xFFFF),
    }
}

// Returns whether an operation names no place of the ROM below 400.
fn names_high(kind: OpKind) -> bool
    ensures { result ≡ true → NamesRom kind }
{
    match kind {
        OpKind::CallRom(a) | OpKind::JumpRom(a) => 0x400 <= a,
        _ => true,
    }
}

// Returns whether no operation of a draft does.
fn names_rom(draft: &Draft) -> bool
    ensures { result ≡ true → All NamesRom draft.now × IsDraft draft.now }
{
    for i in 0..draft.len() {
        let kind = draft.op(i).kind();
        if !names_high(kind) {
            return false;
        }
    }
    true
}

// Returns whether the bytes of a frame's table are at an address.
fn bytes_there(rom: &[u8], at: u32, frame: &Frame) -> bool
    requires bytes { length rom.now ≡ BYTES }
    requires first { 0x6800 ≤ at }
    requires last { at + 2 * size frame.now.operations ≤ 0x8000 }
    ensures { result ≡ true → AreThere frame.now.operations rom.now at }
{
    for k in 0..2 * frame.len_words() {
        if frame.byte(Half::H0, k) != byte_at(rom, at + u32::from(k)) {
            return false;
        }
    }
    true
}

// Returns whether a draft is accepted, and its table of so many words is at an address.
fn is_laid<A: Allocator>(draft: &Draft, vectors: &Rom<A>, rom: &[u8], t: u32, count: u16) -> bool
    requires bytes { length rom.now ≡ BYTES }
    requires first { 0x6800 ≤ t }
    requires last { t + 2 + 2 * count ≤ 0x8000 }
    ensures { result ≡ true → IsLaid draft.now vectors.now rom.now t count }
{
    if !names_rom(draft) {
        return false;
    }
    match check(draft, vectors) {
        Err(_) => false,
        Ok(frame) => {
            if frame.len_words() != count {
                return false;
            }
            bytes_there(rom, t + 2, &frame)
        }
    }
}

// Returns whether the table of an accepted draft is at an address.
fn table_fine<A: Allocator>(rom: &[u8], vectors: &Rom<A>, t: u32) -> bool
    requires { length rom.now ≡ BYTES }
    ensures { result ≡ true → IsFineTable vectors.now rom.now t }
{
    if t < 0x6800 || 0x7FFC < t {
        return false;
    }
    let count = word_at(rom, t);
    if count == 0 || 511 < count || 0x8000 < t + 2 + 2 * u32::from(count) {
        return false;
    }
    match read_draft(rom, t, count) {
        None => false,
        Some(draft) => is_laid(&draft, vectors, rom, t, count),
    }
}

/// Returns the first of these addresses at which no table of an accepted draft is seen.
pub fn bad_table<A: Allocator>(rom: &[u8], vectors: &Rom<A>, tables: &[u16]) -> Option<u16>
    requires { length rom.now ≡ BYTES }
    ensures { MatchOption result (TablesFine vectors.now rom.now tables.now)
        (λ t. has tables.now t ≡ true) }
{
    for i in 0..tables.len() {
        if !table_fine(rom, vectors, u32::from(tables[i])) {
            return Some(tables[i]);
        }
    }
    None
}
