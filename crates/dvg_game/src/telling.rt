//! What is told of a program that was judged.
ghost use Rattle.std.specs.Prelude.{◌≡◌, ◌∷◌, [], All, IfOk, length, map};
ghost use Rattle.dvg_game_check.specs.Why.{AreBroken};
ghost use Rattle.dvg_game.specs.Telling.{AreToldFor, AreToldOf, IsLineOf, TellBroken, addresses};
ghost use Rattle.dvg_game.specs.Telling.{IsToldAs};

use crate::bringer::{OFFER, PUT};
use crate::hints::Hints;
use crate::notes::{tell_brought, tell_notes};
use crate::order::causes_first;
use crate::program::Program;
use crate::reasons::tell_broken;
use crate::summary::{count, tell_counts};
use crate::told::{PlaceLine, Told};
use crate::unseen::{place_of, tell_unseen};
use crate::vectors::{tell_boot, tell_vectors};
use dvg_code::OutOfMemory;
use dvg_game_check::{BYTES, Broken, Judged, Note, PLACES, Refusal, Unseen, Verdict, all_broken};
use dvg_io::Text;
use dvg_print::glyph;
use std::alloc::Allocator;
use std::fmt::{self, Write};

// Returns a line that begins with an address.
fn line_at<A: Allocator>(alloc: A, at: u32, text: &[u8]) -> Result<PlaceLine<A>, OutOfMemory>
    ensures at { IfOk result (λ line. line.at ≡ at) }
    ensures form { IfOk result IsLineOf }
{
    let head = [
        glyph((at / 4096 % 16) as usize),
        glyph((at / 256 % 16) as usize),
        glyph((at / 16 % 16) as usize),
        glyph((at % 16) as usize),
        b':',
        b' ',
    ];
    let mut bytes = Vec::new(alloc);
    bytes.extend_from_slice(&head)?;
    bytes.extend_from_slice(text)?;
    bytes.push(b'\n')?;
    Ok(PlaceLine { at, bytes })
}

// Returns what was told, or that memory was refused.
fn done(told: fmt::Result) -> Result<(), OutOfMemory> {
    match told {
        Ok(()) => Ok(()),
        Err(_) => Err(OutOfMemory),
    }
}

// Returns a line for each of these places that are refused.
fn lines_of<A: Allocator + Copy>(
    alloc: A,
    program: &Program<'_>,
    hints: &Hints<A>,
    all: &[Broken],
) -> Result<Vec<PlaceLine<A>, A>, OutOfMemory>
    ensures at { IfOk result (λ lines. addresses lines.items ≡ map (λ broken. broken.at) all.now) }
    ensures form { IfOk result (λ lines. All IsLineOf lines.items) }
{
    let mut lines = Vec::new(alloc);
    for broken in all {
        let mut out = Text::new(alloc);
        if tell_broken(&mut out, program, hints, *broken).is_err() {
            return Err(OutOfMemory);
        }
        let text = out.into_bytes();
        lines.push(line_at(alloc, broken.at, text.as_slice())?)?;
    }
    Ok(lines)
}

// What is told beside the verdict: lines of instructions, and what comes after them.
#[derive(Drop)]
struct Parts<A: Allocator> {
    lines: Vec<PlaceLine<A>, A>,
    more: Vec<u8, A>,
}

// Returns what is told of a program that is accepted.
fn tell_kept<A: Allocator + Copy>(
    alloc: A,
    program: &Program<'_>,
    judged: &Judged<A>,
) -> Result<Parts<A>, OutOfMemory>
    ensures { IfOk result (λ parts. parts.lines.items ≡ []) }
{
    let mut out = Text::new(alloc);
    let counts = count(alloc, program)?;
    let (tables, words) = (judged.tables.len(), judged.words.len());
    done(tell_counts(&mut out, counts, tables, words))?;
    Ok(Parts {
        lines: Vec::new(alloc),
        more: out.into_bytes(),
    })
}

// Returns the line of an instruction of which not all is seen to be good.
fn unseen_lines<A: Allocator + Copy>(
    alloc: A,
    program: &Program<'_>,
    at: u32,
    why: Unseen,
) -> Result<Vec<PlaceLine<A>, A>, OutOfMemory>
    ensures at { IfOk result (λ lines. addresses lines.items ≡ at ∷ []) }
    ensures form { IfOk result (λ lines. All IsLineOf lines.items) }
{
    let mut out = Text::new(alloc);
    done(tell_unseen(&mut out, program, at, why))?;
    let text = out.into_bytes();
    let mut lines = Vec::new(alloc);
    lines.push(line_at(alloc, at, text.as_slice())?)?;
    Ok(lines)
}

// Returns the line of the instruction of which not all is seen to be good, if one is found.
fn lines_for<A: Allocator + Copy>(
    alloc: A,
    program: &Program<'_>,
    ways: &[u8],
    why: Unseen,
) -> Result<Vec<PlaceLine<A>, A>, OutOfMemory>
    ensures at { IfOk result (λ lines. IsToldAs why (addresses lines.items)) }
    ensures form { IfOk result (λ lines. All IsLineOf lines.items) }
{
    match place_of(program, ways, why) {
        Some(at) => unseen_lines(alloc, program, at, why),
        None => Ok(Vec::new(alloc)),
    }
}

// Returns what is told of a program of which not all is seen.
fn tell_gaps<A: Allocator + Copy>(
    alloc: A,
    program: &Program<'_>,
    judged: &Judged<A>,
    why: Unseen,
) -> Result<Parts<A>, OutOfMemory>
    ensures at { IfOk result (λ parts. IsToldAs why (addresses parts.lines.items)) }
    ensures form { IfOk result (λ parts. All IsLineOf parts.lines.items) }
{
    let lines = lines_for(alloc, program, judged.ways.as_slice(), why)?;
    let mut out = Text::new(alloc);
    let counts = count(alloc, program)?;
    let (tables, words) = (judged.tables.len(), judged.words.len());
    done(tell_counts(&mut out, counts, tables, words))?;
    Ok(Parts {
        lines,
        more: out.into_bytes(),
    })
}

// Returns what is told of a program whose reset doesn't come to LDX #$FF and TXS, because of what
// is at an address.
fn tell_unbooted<A: Allocator + Copy>(
    alloc: A,
    program: &Program<'_>,
    at: u32,
) -> Result<Parts<A>, OutOfMemory>
    ensures at { IfOk result (λ parts. addresses parts.lines.items ≡ at ∷ []) }
    ensures form { IfOk result (λ parts. All IsLineOf parts.lines.items) }
{
    let mut out = Text::new(alloc);
    done(tell_boot(&mut out, program, at))?;
    let text = out.into_bytes();
    let mut lines = Vec::new(alloc);
    lines.push(line_at(alloc, at, text.as_slice())?)?;
    Ok(Parts {
        lines,
        more: Vec::new(alloc),
    })
}

// Returns what is told of a program that has not the driver's code.
fn tell_driver<A: Allocator + Copy>(alloc: A) -> Result<Parts<A>, OutOfMemory>
    ensures { IfOk result (λ parts. parts.lines.items ≡ []) }
{
    let mut out = Text::new(alloc);
    done(write!(
        out,
        "from 6800 on, what stands there isn't the driver's code, as board/driver.s has it; the \
         vector ROM's 2048 bytes come first\n"
    ))?;
    Ok(Parts {
        lines: Vec::new(alloc),
        more: out.into_bytes(),
    })
}

// Returns what is told of a program whose instructions, or vectors, break a rule.
fn tell_rules<A: Allocator + Copy>(
    alloc: A,
    rom: &[u8],
    notes: &[Option<Note>],
) -> Result<Parts<A>, OutOfMemory>
    requires bytes { length rom.now ≡ BYTES }
    requires notes { length notes.now ≡ PLACES }
    ensures at { IfOk result (λ parts. TellBroken rom.now notes.now (addresses parts.lines.items)) }
    ensures form { IfOk result (λ parts. All IsLineOf parts.lines.items) }
{
    let program = Program::new(rom, notes);
    let all = all_broken(alloc, rom, notes)?;
    let ordered = causes_first(alloc, &program, all.as_slice())?;
    let hints = Hints::new(alloc, &program, ordered.as_slice())?;
    let lines = lines_of(alloc, &program, &hints, ordered.as_slice())?;
    let mut out = Text::new(alloc);
    done(tell_vectors(&mut out, &program))?;
    Ok(Parts {
        lines,
        more: out.into_bytes(),
    })
}

// Returns what is told of a program that isn't accepted, for this reason.
fn tell_refused<A: Allocator + Copy>(
    alloc: A,
    rom: &[u8],
    notes: &[Option<Note>],
    why: Refusal,
) -> Result<Parts<A>, OutOfMemory>
    requires bytes { length rom.now ≡ BYTES }
    requires notes { length notes.now ≡ PLACES }
    ensures at { IfOk result (λ parts.
        AreToldFor rom.now notes.now why (addresses parts.lines.items)) }
    ensures form { IfOk result (λ parts. All IsLineOf parts.lines.items) }
{
    match why {
        Refusal::Driver => tell_driver(alloc),
        Refusal::Boot(at) => tell_unbooted(alloc, &Program::new(rom, notes), at),
        _ => tell_rules(alloc, rom, notes),
    }
}

// Returns what is told of a program that was judged so.
fn parts_of<A: Allocator + Copy>(
    alloc: A,
    rom: &[u8],
    judged: &Judged<A>,
) -> Result<Parts<A>, OutOfMemory>
    requires bytes { length rom.now ≡ BYTES }
    requires notes { length judged.now.notes.items ≡ PLACES }
    ensures at { IfOk result (λ parts. AreToldOf rom.now judged.now.notes.items
        judged.now.verdict (addresses parts.lines.items)) }
    ensures form { IfOk result (λ parts. All IsLineOf parts.lines.items) }
{
    let notes = judged.notes.as_slice();
    let program = Program::new(rom, notes);
    match judged.verdict {
        Verdict::Keeps(_) => tell_kept(alloc, &program, judged),
        Verdict::Unseen(_, why) => tell_gaps(alloc, &program, judged, why),
        Verdict::Refused(why) => tell_refused(alloc, rom, notes, why),
        Verdict::Unsettled(why) => tell_refused(alloc, rom, notes, why),
    }
}

/// Returns what is told of a program that was judged so, and behind that its notes, if they are
/// wanted.
pub(crate) fn tell<A: Allocator + Copy>(
    alloc: A,
    rom: &[u8],
    judged: &Judged<A>,
    with_notes: bool,
) -> Result<Told<A>, OutOfMemory>
    requires bytes { length rom.now ≡ BYTES }
    requires notes { length judged.now.notes.items ≡ PLACES }
    ensures verdict { IfOk result (λ told. told.verdict ≡ judged.now.verdict) }
    ensures at { IfOk result (λ told. AreToldOf rom.now judged.now.notes.items
        judged.now.verdict (addresses told.lines.items)) }
    ensures form { IfOk result (λ told. All IsLineOf told.lines.items) }
{
    let parts = parts_of(alloc, rom, judged)?;
    let mut out = Text::new(alloc);
    done(out.add(parts.more.as_slice()))?;
    if with_notes {
        let program = Program::new(rom, judged.notes.as_slice());
        done(tell_notes(&mut out, &program))?;
        let ways = judged.ways.as_slice();
        done(tell_brought(&mut out, &program, ways, OFFER, judged.tables.as_slice()))?;
        done(tell_brought(&mut out, &program, ways, PUT, judged.words.as_slice()))?;
    }
    Ok(Told {
        verdict: judged.verdict,
        lines: parts.lines,
        more: out.into_bytes(),
    })
}
