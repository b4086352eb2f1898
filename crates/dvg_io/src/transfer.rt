//! Whole reads and writes through watched streams.
ghost use Rattle.std.specs.Prelude.{◌≡◌, ◌⊎◌, ◌↔◌, ◌+◌, ◌^◌, ◌<◌, ◌≤◌, ◌%◌, length, take, vec_len};
ghost use Rattle.std.specs.Prelude.{IfOk, IfErr, IfSome, IsErrOf};
ghost use Rattle.dvg_code.specs.Words.{words_of};
ghost use Rattle.dvg_io.specs.Watching.{TakesAtMost, Writes, failures_of, stream_of};

use crate::fault::ToolFault;
use crate::watched::{StreamFailed, Watched};
use dvg_code::{OutOfMemory, word_at};
use memchr::memchr;
use std::alloc::Allocator;
use std::io::{Read, Write};

/// The most bytes that one read takes.
const PIECE: usize = 8192;

/// Returns all bytes that `reader` has left, or the first `most + 1` of them. It takes no more than
/// those. Returns `Reader` where a read fails, and `Memory` where an allocation does.
pub fn read_up_to<A: Allocator, R: Read>(
    alloc: A,
    reader: &mut Watched<R>,
    most: usize,
) -> Result<Vec<u8, A>, ToolFault>
    requires most { most < 2 ^ 32 }
    requires fresh { failures_of reader.old ≡ 0 }
    ensures bytes { IfOk result (λ read. IfSome (R.remaining (stream_of reader.old)) (λ input.
        read.items ≡ take (most + 1) input)) }
    ensures short { IfOk result (λ read. vec_len read ≤ most + 1) }
    ensures took { TakesAtMost (most + 1)
        (R.remaining (stream_of reader.old)) (R.remaining (stream_of reader.new)) }
    ensures fault { IfErr result (λ fault. (fault ≡ ToolFault.Reader)
        ⊎ (fault ≡ ToolFault.Memory)) }
    ensures reader { IsErrOf result ToolFault.Reader ↔ (failures_of reader.new ≡ 1) }
    ensures stops { failures_of reader.new ≤ 1 }
{
    let mut bytes = Vec::new(alloc);
    let mut piece = [0u8; PIECE];
    while bytes.len() <= most {
        let room = (most + 1 - bytes.len()).min(PIECE);
        let Ok(count) = reader.read(&mut piece[..room]) else {
            return Err(ToolFault::Reader);
        };
        if count == 0 {
            return Ok(bytes);
        }
        // A second piece gets all the room at once: to grow step by step would copy and touch more.
        if !bytes.is_empty() && bytes.reserve(most + 1 - bytes.len()).is_err() {
            return Err(ToolFault::Memory);
        }
        if bytes.extend_from_slice(&piece[..count]).is_err() {
            return Err(ToolFault::Memory);
        }
    }
    Ok(bytes)
}

/// Returns the words of `bytes`, an even number of bytes, the low byte of each word first. Returns
/// `OutOfMemory` where an allocation fails.
pub fn collect_words<A: Allocator>(alloc: A, bytes: &[u8]) -> Result<Vec<u16, A>, OutOfMemory>
    requires { length bytes.now % 2 ≡ 0 }
    ensures { IfOk result (λ words. words.items ≡ words_of bytes.now) }
{
    let mut words = Vec::new(alloc);
    for k in 0..bytes.len() / 2 {
        words.push(word_at(bytes, k))?;
    }
    Ok(words)
}

/// Writes the whole of `text` to `writer`, by as many writes as it takes. After a failure a
/// beginning of `text` went out.
#[inline(always)]
pub fn write_whole<W: Write>(writer: &mut Watched<W>, text: &[u8]) -> Result<(), StreamFailed>
    ensures { Writes W.contents text.now result writer.old writer.new }
{
    if text.is_empty() {
        return Ok(());
    }
    let Ok(count) = writer.write(text) else {
        return Err(StreamFailed);
    };
    if count == text.len() {
        return Ok(());
    }
    write_rest(writer, &text[count..])
}

// Writes `text`, what a first write left of a longer one, by as many writes as it takes. After a
// failure a beginning of it went out. A writer mostly takes all at once, so this loop stays out of
// the functions that write.
#[inline(never)]
fn write_rest<W: Write>(writer: &mut Watched<W>, text: &[u8]) -> Result<(), StreamFailed>
    ensures { Writes W.contents text.now result writer.old writer.new }
{
    let mut rest = text;
    while !rest.is_empty() {
        let Ok(count) = writer.write(rest) else {
            return Err(StreamFailed);
        };
        rest = &rest[count..];
    }
    Ok(())
}

/// Writes the lines of `text` to `writer`, each by itself: the next one is handed to `writer` only
/// when it took the whole of the one before. (This is tested: a contract sees only what went out.)
/// After the last line end may stand a line without one. After a failure a beginning of `text` went
/// out.
pub fn write_lines<W: Write>(writer: &mut Watched<W>, text: &[u8]) -> Result<(), StreamFailed>
    ensures { Writes W.contents text.now result writer.old writer.new }
{
    let mut rest = text;
    while let Some(end) = memchr(b'\n', rest) {
        write_whole(writer, &rest[..end + 1])?;
        rest = &rest[end + 1..];
    }
    write_whole(writer, rest)
}
