//! The judge of a program.
ghost use Rattle.std.specs.Prelude.{◌≡◌, ℕ, IfOk, List, length};
ghost use Rattle.dvg_game_check.specs.Program.{BootsTo, IsAccepted, IsRefused, IsWhy};
ghost use Rattle.dvg_game_check.specs.Least.{IsLeast};
ghost use Rattle.dvg_game_check.specs.Verdicts.{Means, Says};

use crate::follow::PLACES;
use crate::forced::is_forced;
use crate::gather::{brought_to, ways};
use crate::known::{Unseen, brings_gap};
use crate::maker::{make, unnoted};
use crate::note::Note;
use crate::offered::{bad_table, bad_word};
use crate::program::{Refusal, check_notes, check_start};
use crate::rules::BYTES;
use dvg_mem::Rom;
use std::alloc::{AllocError, Allocator, Global};

/// What is said of a program that starts at this address.
#[derive(Clone, Copy, Debug)]
pub enum Verdict {
    /// No run of it tears a picture.
    Keeps(u32),
    /// It keeps the rules, but not all that it offers and puts is seen, and accepted.
    Unseen(u32, Unseen),
    /// It is refused, whatever notes of it are tried. Why is said with those that were made.
    Refused(Refusal),
    /// It isn't accepted with the notes that were made. Nothing is said of others.
    Unsettled(Refusal),
}

/// What is said of a program, and of what: nobody has to trust how these were made.
#[derive(Drop)]
pub struct Judged<A: Allocator = Global> {
    pub verdict: Verdict,
    /// A note for each place from `FIRST` on, if code is there.
    pub notes: Vec<Option<Note>, A>,
    /// For each place, how many bytes the instruction has from which alone it is come to, or 0.
    /// There are none where the program is refused.
    pub ways: Vec<u8, A>,
    /// Where the tables are that it offers, and the words that it puts.
    pub tables: Vec<u16, A>,
    pub words: Vec<u16, A>,
}

// Returns what is to be said of a program that is accepted with these notes.
fn say<B: Allocator>(
    rom: &[u8],
    vectors: &Rom<B>,
    notes: &[Option<Note>],
    ways: &[u8],
    tables: &[u16],
    words: &[u16],
    start: u32,
) -> Verdict
    requires bytes { length rom.now ≡ BYTES }
    requires notes { length notes.now ≡ PLACES }
    requires ways { length ways.now ≡ PLACES }
    requires accepted { IsAccepted rom.now notes.now start }
    ensures { Says rom.now vectors.now notes.now ways.now tables.now words.now result }
{
    match brings_gap(rom, notes, ways, tables, words, start) {
        Some(why) => return Verdict::Unseen(start, why),
        None => {}
    }
    match bad_table(rom, vectors, tables) {
        Some(t) => return Verdict::Unseen(start, Unseen::Table(t)),
        None => {}
    }
    match bad_word(words, vectors) {
        Some(word) => return Verdict::Unseen(start, Unseen::Word(word)),
        None => {}
    }
    Verdict::Keeps(start)
}

// Returns a verdict of which there are no lists.
fn unlisted<A: Allocator + Copy>(
    alloc: A,
    verdict: Verdict,
    notes: Vec<Option<Note>, A>,
) -> Judged<A>
    ensures means { (bytes R : List ℕ) → ((ways tables words : List ℕ)
        → Says bytes R notes.items ways tables words verdict) → Means bytes R result }
    ensures noted { result.notes.items ≡ notes.items }
{
    Judged {
        verdict,
        notes,
        ways: Vec::new(alloc),
        tables: Vec::new(alloc),
        words: Vec::new(alloc),
    }
}

// Returns what is to be said of a program that isn't accepted with the notes that were made.
fn refuse(rom: &[u8], notes: &[Option<Note>], start: u32, why: Refusal) -> Verdict
    requires bytes { length rom.now ≡ BYTES }
    requires notes { length notes.now ≡ PLACES }
    requires least { IsLeast rom.now notes.now start }
    requires boots { BootsTo rom.now start }
    requires refused { IsRefused rom.now notes.now × IsWhy rom.now notes.now why }
    ensures { (R ways tables words : List ℕ) → Says rom.now R notes.now ways tables words result }
{
    if is_forced(rom, notes, start) {
        Verdict::Refused(why)
    } else {
        Verdict::Unsettled(why)
    }
}

/// Returns what is to be said of a program, with the vector ROM of its shapes.
pub fn judge<A: Allocator + Copy, B: Allocator>(
    alloc: A,
    rom: &[u8],
    vectors: &Rom<B>,
) -> Result<Judged<A>, AllocError>
    requires { length rom.now ≡ BYTES }
    ensures means { IfOk result (λ judged. Means rom.now vectors.now judged) }
    ensures sized { IfOk result (λ judged. length judged.notes.items ≡ PLACES) }
{
    let start = match check_start(rom) {
        Ok(start) => start,
        Err(why) => return Ok(unlisted(alloc, Verdict::Refused(why), unnoted(alloc)?)),
    };
    let notes = make(alloc, rom, start)?;
    let all = notes.as_slice();
    match check_notes(rom, all, start) {
        Some(why) => {
            let verdict = refuse(rom, all, start, why);
            Ok(unlisted(alloc, verdict, notes))
        }
        None => {
            let ways = ways(alloc, rom, all, start)?;
            let found = ways.as_slice();
            let tables = brought_to(alloc, rom, all, found, 0x68FE)?;
            let words = brought_to(alloc, rom, all, found, 0x6957)?;
            let (offered, put) = (tables.as_slice(), words.as_slice());
            let verdict = say(rom, vectors, all, found, offered, put, start);
            Ok(Judged {
                verdict,
                notes,
                ways,
                tables,
                words,
            })
        }
    }
}
