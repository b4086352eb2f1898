//! Frames as drafts without names, and the lines of their ROM.
ghost use Rattle.std.specs.Prelude.{◌≡◌, ◌<◌, ◌++◌, ◌∷◌, IfOk, OnOk, codes, decimal};
ghost use Rattle.std.specs.Prelude.{flat_map, length};
ghost use Rattle.std.specs.Fmt.{signed_decimal};
ghost use Rattle.dvg_print.specs.Lines.{hex_3, map_text};
ghost use Rattle.dvg_lay.specs.Drafts.{draft_line, draft_lines, drafts_text, drawing_text};
ghost use Rattle.dvg_lay.specs.Drafts.{frame_drafts, given_line, given_lines, offer_lines, op_text};

use crate::laying::rom_bytes;
use crate::text::{put, put_hex_3};
use dvg_code::{Instr, OutOfMemory};
use dvg_frame::{Op, OpKind};
use dvg_io::collect_words;
use dvg_mem::{MEMORY_BYTES, Rom};
use dvg_named::NamedFrame;
use dvg_print::{LINE_WORDS, Line};
use itoa::{Buffer, Integer};
use std::alloc::{AllocError, Allocator};

/// The word that is there where no line gives one, an RTSL.
const UNGIVEN: u16 = 0xD000;

// Appends a space and `n` in decimal to `text`. Returns `AllocError` where an allocation fails.
fn put_number<A: Allocator, I: Integer>(text: &mut Vec<u8, A>, n: I) -> Result<(), AllocError>
    ensures { OnOk result (text.new.items ≡ text.old.items ++ 32 ∷ I.text n) }
{
    put(text, b" ")?;
    put(text, Buffer::new().format(n).as_bytes())
}

// Appends `name`, the name of a vector, and its numbers `scale`, `dx`, `dy` and `z` to `text`.
// Returns `AllocError` where an allocation fails.
fn put_vector<A: Allocator>(
    text: &mut Vec<u8, A>,
    name: &[u8],
    scale: u8,
    dx: i16,
    dy: i16,
    z: u8,
) -> Result<(), AllocError>
    ensures { OnOk result (text.new.items ≡ text.old.items ++ name.now ++ 32 ∷ decimal scale
        ++ 32 ∷ signed_decimal dx ++ 32 ∷ signed_decimal dy ++ 32 ∷ decimal z) }
{
    put(text, name)?;
    put_number(text, scale)?;
    put_number(text, dx)?;
    put_number(text, dy)?;
    put_number(text, z)
}

// Appends `labs` and its numbers `x`, `y` and `scale` to `text`. Returns `AllocError` where an
// allocation fails.
fn put_labs<A: Allocator>(
    text: &mut Vec<u8, A>,
    x: u16,
    y: u16,
    scale: u8,
) -> Result<(), AllocError>
    ensures { OnOk result (text.new.items ≡ text.old.items
        ++ codes "labs" ++ 32 ∷ decimal x ++ 32 ∷ decimal y ++ 32 ∷ decimal scale) }
{
    put(text, b"labs")?;
    put_number(text, x)?;
    put_number(text, y)?;
    put_number(text, scale)
}

// Appends `instr`, which an operation of a draft draws by, to `text`. Returns `AllocError` where an
// allocation fails.
fn put_drawing<A: Allocator>(text: &mut Vec<u8, A>, instr: Instr) -> Result<(), AllocError>
    ensures { OnOk result (text.new.items ≡ text.old.items ++ drawing_text instr) }
{
    match instr {
        Instr::Vctr { scale, dx, dy, z } => put_vector(text, b"vctr", scale, dx, dy, z),
        Instr::Svec { scale, dx, dy, z } => {
            put_vector(text, b"svec", scale, i16::from(dx), i16::from(dy), z)
        }
        Instr::Labs { x, y, scale } => put_labs(text, x, y, scale),
        Instr::Halt | Instr::Jsrl(_) | Instr::Rtsl | Instr::Jmpl(_) => Ok(()),
    }
}

// Appends `name` and the number `n` of an operation to `text`. Returns `AllocError` where an
// allocation fails.
fn put_target<A: Allocator>(text: &mut Vec<u8, A>, name: &[u8], n: u16) -> Result<(), AllocError>
    ensures { OnOk result (text.new.items
        ≡ text.old.items ++ name.now ++ 32 ∷ decimal n) }
{
    put(text, name)?;
    put_number(text, n)
}

// Appends `name` and the word address `address` to `text`. Returns `AllocError` where an allocation
// fails.
fn put_address<A: Allocator>(
    text: &mut Vec<u8, A>,
    name: &[u8],
    address: u16,
) -> Result<(), AllocError>
    ensures { OnOk result (text.new.items
        ≡ text.old.items ++ name.now ++ 32 ∷ hex_3 address) }
{
    put(text, name)?;
    put(text, b" ")?;
    put_hex_3(text, address)
}

// Appends `op` to `text`. Returns `AllocError` where an allocation fails.
fn put_op<A: Allocator>(text: &mut Vec<u8, A>, op: &Op) -> Result<(), AllocError>
    ensures { OnOk result (text.new.items ≡ text.old.items ++ op_text op.now) }
{
    match op.kind() {
        OpKind::Draw(code) => put_drawing(text, code.instr()),
        OpKind::Call(n) => put_target(text, b"call", n),
        OpKind::Jump(n) => put_target(text, b"jump", n),
        OpKind::CallRom(address) => put_address(text, b"callrom", address),
        OpKind::JumpRom(address) => put_address(text, b"jumprom", address),
        OpKind::Return => put(text, b"return"),
        OpKind::Halt => put(text, b"halt"),
    }
}

// Appends the line of `op` to `text`. Returns `AllocError` where an allocation fails.
fn put_op_line<A: Allocator>(text: &mut Vec<u8, A>, op: &Op) -> Result<(), AllocError>
    ensures { OnOk result (text.new.items ≡ text.old.items ++ draft_line op.now) }
{
    put_op(text, op)?;
    put(text, b"\n")
}

// Appends a line for each of `ops` to `text`. Returns `AllocError` where an allocation fails.
fn put_draft<A: Allocator>(text: &mut Vec<u8, A>, ops: &[Op]) -> Result<(), AllocError>
    ensures { OnOk result (text.new.items ≡ text.old.items ++ draft_lines ops.now) }
{
    for op in ops {
        put_op_line(text, op)?;
    }
    Ok(())
}

// Appends the draft of `frame` to `text`, as a trace offers it. Returns `AllocError` where an
// allocation fails.
fn put_offer<A: Allocator>(text: &mut Vec<u8, A>, frame: &NamedFrame) -> Result<(), AllocError>
    ensures { OnOk result (text.new.items ≡ text.old.items ++ offer_lines frame.now) }
{
    put(text, b"offer\n")?;
    put_draft(text, frame.ops)?;
    put(text, b"end\n")
}

// Appends the drafts of `frames` to `text`, as a trace offers them. Returns `AllocError` where an
// allocation fails.
fn put_offers<A: Allocator>(text: &mut Vec<u8, A>, frames: &[NamedFrame]) -> Result<(), AllocError>
    ensures { OnOk result (text.new.items ≡ text.old.items ++ flat_map offer_lines frames.now) }
{
    for frame in frames {
        put_offer(text, frame)?;
    }
    Ok(())
}

// Appends the drafts of `frames` to `text`: one alone, and several as a trace offers them. Returns
// `AllocError` where an allocation fails.
fn put_frames<A: Allocator>(text: &mut Vec<u8, A>, frames: &[NamedFrame]) -> Result<(), AllocError>
    ensures { OnOk result (text.new.items ≡ text.old.items ++ frame_drafts frames.now) }
{
    match frames {
        [frame] => put_draft(text, frame.ops),
        _ => put_offers(text, frames),
    }
}

// Appends the line of `words` to `text`, eight words of a ROM from the word address `address` on,
// if a line has to give them. It is made in `line`. Returns `AllocError` where an allocation fails.
fn put_row<A: Allocator>(
    text: &mut Vec<u8, A>,
    line: &mut Line,
    address: usize,
    words: &[u16],
) -> Result<(), AllocError>
    requires { length words.now ≡ 8 }
    ensures { OnOk result (text.new.items ≡ text.old.items ++ given_line address words.now) }
{
    if words == [UNGIVEN; LINE_WORDS].as_slice() {
        return Ok(());
    }
    line.become_rom(address, words);
    put(text, line.as_bytes())
}

// Appends the lines of `words` to `text`, the words of a ROM. `first` is the word address of the
// first. Returns `AllocError` where an allocation fails.
fn put_rows<A: Allocator>(
    text: &mut Vec<u8, A>,
    first: usize,
    words: &[u16],
) -> Result<(), AllocError>
    requires { first < 4096 }
    ensures { OnOk result (text.new.items ≡ text.old.items ++ given_lines first words.now) }
{
    let mut line = Line::new();
    for row in 0..words.len() / LINE_WORDS {
        let begin = row * LINE_WORDS;
        put_row(
            text,
            &mut line,
            first + begin,
            &words[begin..begin + LINE_WORDS],
        )?;
    }
    Ok(())
}

// Appends the line of the map of a ROM of `bytes` to `text`, if it has one. Returns `AllocError`
// where an allocation fails.
fn put_map<A: Allocator>(text: &mut Vec<u8, A>, bytes: &[u8]) -> Result<(), AllocError>
    ensures { OnOk result (text.new.items ≡ text.old.items ++ map_text bytes.now) }
{
    if bytes.len() == MEMORY_BYTES {
        return Ok(());
    }
    put(text, b"map 4096\n")
}

/// Returns `frames` as drafts without names, after the lines of `rom`: its map, and eight words a
/// line of those that aren't all D000. One frame stands alone, as a text of a draft has it, and
/// several stand as a trace offers them, each between `offer` and `end`. They aren't checked.
/// Returns `OutOfMemory` where an allocation fails.
pub(crate) fn lay_drafts<A: Allocator + Copy>(
    alloc: A,
    rom: &Rom<A>,
    frames: &[NamedFrame],
) -> Result<Vec<u8, A>, OutOfMemory>
    ensures { IfOk result (λ text. text.items ≡ drafts_text rom.now frames.now) }
{
    // A ROM has an even number of bytes, as its type says.
    let _ = rom.len_words();
    let bytes = rom_bytes(alloc, rom)?;
    let words = collect_words(alloc, bytes.as_slice())?;
    let mut text = Vec::new(alloc);
    put_map(&mut text, bytes.as_slice())?;
    put_rows(&mut text, usize::from(rom.first()), words.as_slice())?;
    put_frames(&mut text, frames)?;
    Ok(text)
}
