//! The engine `rom_text`.
ghost use Rattle.std.specs.Prelude.{◌≡◌, ◌++◌, IfErr, IfOk};
ghost use Rattle.dvg_code.specs.Words.{words_of};
ghost use Rattle.dvg_print.specs.Lines.{rom_lines};
ghost use Rattle.dvg_io.specs.Faults.{ComesBeforeText};
ghost use Rattle.dvg_io.specs.Serving.{AreFresh, Serves};
ghost use Rattle.dvg_io.specs.Watching.{Writes};
ghost use Rattle.dvg_tool.specs.Roms.{HasRomFault, HasRomSize, IsRomFault, IsRomOf, WritesRom};
ghost use Rattle.dvg_tool.specs.Roms.{words_text};
ghost use Rattle.dvg_mem.specs.declared.TheConstants.{LARGE_ROM_BYTES};

use dvg_io::{Engine, StreamFailed, ToolFault, Watched, collect_words, serve, write_whole};
use dvg_mem::{FIRST_LARGE_ROM_WORD, FIRST_ROM_WORD, LARGE_ROM_BYTES, MEMORY_BYTES};
use dvg_print::{LINE_WORDS, Line};
use dvg_read::{TextFault, Unread};
use std::alloc::Allocator;
use std::io::{Read, Write};

/// The line that gives the map of the larger ROM.
const LARGE_MAP: &[u8] = b"map 4096\n";

// Writes a line to `writer` for every eight of `words`, the words of a ROM. `first` is the word
// address of the first.
fn write_rows<W: Write>(
    first: u16,
    words: &[u16],
    writer: &mut Watched<W>,
) -> Result<(), StreamFailed>
    ensures { Writes W.contents (rom_lines first words.now) result writer.old writer.new }
{
    let mut line = Line::new();
    for row in 0..words.len() / LINE_WORDS {
        let begin = row * LINE_WORDS;
        line.become_rom(
            usize::from(first) + begin,
            &words[begin..begin + LINE_WORDS],
        );
        write_whole(writer, line.as_bytes())?;
    }
    Ok(())
}

// Writes the text of a ROM to `writer`: `map`, the line of its map or nothing, and the lines of
// `words`. `first` is the word address of the first.
fn write_rom<W: Write>(
    map: &[u8],
    first: u16,
    words: &[u16],
    writer: &mut Watched<W>,
) -> Result<(), StreamFailed>
    ensures { Writes W.contents (map.now ++ rom_lines first words.now)
        result writer.old writer.new }
{
    write_whole(writer, map)?;
    write_rows(first, words, writer)
}

// Returns the words of `bytes`, the bytes of a ROM. Returns `RomSize` where they are neither 2,048
// nor 4,096, and `Memory` where an allocation fails.
fn words_of_rom<A: Allocator>(alloc: A, bytes: &[u8]) -> Result<Vec<u16, A>, Unread>
    ensures size { IfOk result (λ _. HasRomSize bytes.now) }
    ensures words { IfOk result (λ words. words.items ≡ words_of bytes.now) }
    ensures fault { IfErr result (IsRomFault bytes.now) }
{
    if bytes.len() != MEMORY_BYTES && bytes.len() != LARGE_ROM_BYTES {
        return Err(Unread::Text(TextFault::RomSize));
    }
    match collect_words(alloc, bytes) {
        Ok(words) => Ok(words),
        Err(_) => Err(Unread::Memory),
    }
}

// The engine that finds the words of a ROM.
#[derive(Drop)]
struct RomEngine;

impl<A: Allocator + Copy> Engine<A> for RomEngine {
    type Found = Vec<u16, A>;

    const MOST: u32 = LARGE_ROM_BYTES as u32;

    ghost MOST = { LARGE_ROM_BYTES };

    ghost Finds = { λ engine input words. IsRomOf input words.items };

    ghost HasFault = { λ engine. HasRomFault };

    ghost text = { λ engine words. words_text words.items };

    fn find(&self, alloc: A, read: &[u8]) -> Result<Vec<u16, A>, Unread> {
        words_of_rom(alloc, read)
    }

    fn write<W: Write>(
        &self,
        words: &Vec<u16, A>,
        writer: &mut Watched<W>,
    ) -> Result<(), StreamFailed> {
        if words.len() == MEMORY_BYTES / 2 {
            write_rom(b"", FIRST_ROM_WORD, words.as_slice(), writer)
        } else {
            write_rom(LARGE_MAP, FIRST_LARGE_ROM_WORD, words.as_slice(), writer)
        }
    }
}

/// Reads the bytes of a ROM from `reader`, 2,048 or 4,096, and writes them to `writer` as ROM lines
/// of eight words each: of 2,048 bytes 128 lines, from word address 800 on, and of 4,096 bytes the
/// line `map 4096` and 256 lines, from word address 400 on (the text is this project's own choice).
/// Its memory comes from `alloc`.
///
/// - `RomSize`: the input has another number of bytes; no more than 4,097 are taken.
/// - `Reader`, `Writer`: that stream failed. After `Writer` a beginning of the text went out.
/// - `Memory`: an allocation failed.
///
/// Where it stops before it writes, which is at any fault but `Writer`, the writer is as it was.
pub fn rom_text<A: Allocator, R: Read, W: Write>(
    alloc: A,
    reader: &mut Watched<R>,
    writer: &mut Watched<W>,
) -> Result<(), ToolFault>
    requires fresh { AreFresh reader.old writer.old }
    ensures { Serves R.remaining W.contents LARGE_ROM_BYTES ComesBeforeText WritesRom
        result reader.old reader.new writer.old writer.new }
{
    serve(&RomEngine, &alloc, reader, writer)?;
    Ok(())
}
