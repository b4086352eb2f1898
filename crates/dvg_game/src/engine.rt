//! The engine `game`.
ghost use Rattle.std.specs.Prelude.{◌≡◌, ◌≢◌, ◌++◌, ◌<◌, IfOk, flat_map, length};
ghost use Rattle.dvg_io.specs.Faults.{ComesBeforeText};
ghost use Rattle.dvg_io.specs.Serving.{AreFresh, Serves};
ghost use Rattle.dvg_io.specs.Watching.{Writes};
ghost use Rattle.dvg_game.specs.Telling.{HasGameFault, IsTold, IsToldOf, JudgesGame, opening_of};
ghost use Rattle.dvg_game.specs.Telling.{program_of, told_text, vectors_of};
ghost use Rattle.dvg_game.specs.declared.engine.TheConstants.{GAME_BYTES};

use crate::telling::tell;
use crate::told::{PlaceLine, Told};
use dvg_code::OutOfMemory;
use dvg_game_check::{BYTES, judge};
use dvg_io::{Engine, StreamFailed, ToolFault, Watched, serve, write_lines, write_whole};
use dvg_mem::{MEMORY_BYTES, Rom};
use dvg_read::{TextFault, Unread};
use std::alloc::Allocator;
use std::io::{Read, Write};

/// How many bytes an input has: the vector ROM's, and then the program's.
pub const GAME_BYTES: usize = 8192;

// Returns the fault of an input that has another number of bytes.
fn size_fault(input: &[u8]) -> TextFault
    requires { length input.now ≢ GAME_BYTES }
    ensures { HasGameFault input.now result }
{
    if input.len() > GAME_BYTES {
        TextFault::LongGame
    } else {
        TextFault::GameSize(input.len())
    }
}

// Returns what is found of the program `rom`, beside the vector ROM of these bytes.
fn find_game<A: Allocator + Copy>(
    alloc: A,
    rom: &[u8],
    vectors: &[u8],
    with_notes: bool,
) -> Result<Told<A>, OutOfMemory>
    requires { length rom.now ≡ BYTES }
    ensures { IfOk result (IsToldOf rom.now vectors.now) }
{
    let Ok(vectors) = Rom::new(alloc, vectors) else {
        return Err(OutOfMemory);
    };
    let judged = judge(alloc, rom, &vectors)?;
    tell(alloc, rom, &judged, with_notes)
}

// Returns what is found of an input that has as many bytes as it has to.
fn find_in<A: Allocator + Copy>(
    alloc: A,
    input: &[u8],
    with_notes: bool,
) -> Result<Told<A>, OutOfMemory>
    requires { length input.now ≡ GAME_BYTES }
    ensures { IfOk result (IsToldOf (program_of input.now) (vectors_of input.now)) }
{
    let (vectors, rom) = input.split_at(MEMORY_BYTES);
    find_game(alloc, rom, vectors, with_notes)
}

// The engine. With `notes` each note is told, too.
#[derive(Drop)]
struct GameEngine {
    notes: bool,
}

// Writes these lines to `writer`, each by itself.
fn write_places<A: Allocator, W: Write>(
    lines: &[PlaceLine<A>],
    writer: &mut Watched<W>,
) -> Result<(), StreamFailed>
    ensures { Writes W.contents (flat_map (λ line. line.bytes.items) lines.now)
        result writer.old writer.new }
{
    for line in lines {
        write_whole(writer, line.bytes.as_slice())?;
    }
    Ok(())
}

// Writes `opening` and these lines to `writer`.
fn write_opened<A: Allocator, W: Write>(
    opening: &[u8],
    lines: &[PlaceLine<A>],
    writer: &mut Watched<W>,
) -> Result<(), StreamFailed>
    ensures { Writes W.contents (opening.now ++ flat_map (λ line. line.bytes.items) lines.now)
        result writer.old writer.new }
{
    write_whole(writer, opening)?;
    write_places(lines, writer)
}

// Writes `opening`, these lines, and those of `more` to `writer`, each line by itself.
fn write_all_of<A: Allocator, W: Write>(
    opening: &[u8],
    lines: &[PlaceLine<A>],
    more: &[u8],
    writer: &mut Watched<W>,
) -> Result<(), StreamFailed>
    ensures { Writes W.contents
        (opening.now ++ flat_map (λ line. line.bytes.items) lines.now ++ more.now)
        result writer.old writer.new }
{
    write_opened(opening, lines, writer)?;
    write_lines(writer, more)
}

// Writes what is told to `writer`, each line by itself.
fn write_told<A: Allocator, W: Write>(
    told: &Told<A>,
    writer: &mut Watched<W>,
) -> Result<(), StreamFailed>
    ensures { Writes W.contents (told_text told.now) result writer.old writer.new }
{
    let (lines, more) = (told.lines.as_slice(), told.more.as_slice());
    write_all_of(told.opening(), lines, more, writer)
}

impl<A: Allocator + Copy> Engine<A> for GameEngine {
    type Found = Told<A>;

    const MOST: u32 = GAME_BYTES as u32;

    ghost MOST = { GAME_BYTES };

    ghost Finds = { λ engine. IsTold };

    ghost HasFault = { λ engine. HasGameFault };

    ghost text = { λ engine. told_text };

    fn find(&self, alloc: A, read: &[u8]) -> Result<Told<A>, Unread> {
        if read.len() != GAME_BYTES {
            return Err(Unread::Text(size_fault(read)));
        }
        match find_in(alloc, read, self.notes) {
            Ok(told) => Ok(told),
            Err(OutOfMemory) => Err(Unread::Memory),
        }
    }

    fn write<W: Write>(&self, told: &Told<A>, writer: &mut Watched<W>) -> Result<(), StreamFailed> {
        write_told(told, writer)
    }
}

/// Reads a game from `reader`: the 2,048 bytes of its vector ROM, and then the 6,144 of its
/// program, from 6800 to 7FFF. Writes to `writer` whether a run of these bytes may tear a picture
/// (the texts are this project's own choice), in a line; and then a line for each instruction that
/// breaks a rule, or of which not all is seen, with its address, the causes first. With `notes` the
/// notes of the program follow. Returns what was told. The faults:
///
/// - `GameSize`: the input has so many bytes, fewer than 8,192.
/// - `LongGame`: it has more, of which no more than 8,193 are taken.
/// - `Reader`, `Writer`: that stream failed. After `Writer` a beginning of the text went out.
/// - `Memory`: an allocation failed.
///
/// Where it stops before it writes, which is at any fault but `Writer`, the writer is as it was.
#[inline(never)]
pub fn game<A: Allocator + Copy, R: Read, W: Write>(
    alloc: A,
    reader: &mut Watched<R>,
    writer: &mut Watched<W>,
    notes: bool,
) -> Result<Told<A>, ToolFault>
    requires fresh { AreFresh reader.old writer.old }
    ensures { Serves R.remaining W.contents GAME_BYTES ComesBeforeText JudgesGame
        result reader.old reader.new writer.old writer.new }
{
    serve(&GameEngine { notes }, alloc, reader, writer)
}
