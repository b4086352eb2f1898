//! Lines of logs.
ghost use Rattle.std.specs.Prelude.{◌≡◌, ◌+◌, ◌<◌, ◌≤◌, [], ◌∷◌, ℕ, Option, length, IfSome};
ghost use Rattle.std.specs.Prelude.{IsSomeAnd, Some};
ghost use Rattle.std.specs.Str.Lines.{strip_carriage_return};
ghost use Rattle.dvg_read.specs.Texts.{parts};
ghost use Rattle.dvg_log.specs.Log.{Line};
ghost use Rattle.dvg_logs.specs.LogLines.{IsLineOf, LogRow, small};
ghost use Rattle.dvg_logs.specs.LogLineTells.{AreNumbers, AreWritten, line_of};

use arrayvec::ArrayVec;
use dvg_read::{hex, is_passed};

/// How many bytes the RAM has, which begins at byte address 0.
pub(crate) const RAM_BYTES: u16 = 0x800;

/// The most bytes of a line, without its end (this project's own choice).
pub const MOST_LINE_BYTES: usize = 64;

/// What a line says.
#[derive(Clone, Copy, Debug, PartialEq, Eq)]
pub enum LogLine {
    /// Nothing, as it is passed over.
    Passed,
    /// A strobe began a run.
    Started,
    /// A fetch completed the word at this word address. The second number is the word. The run goes
    /// on.
    Fetched(u16, u16),
    /// A fetch brought the low byte of the word at this word address.
    Low(u16, u8),
    /// The driver wrote this byte at this byte address of the RAM.
    Wrote(u16, u8),
    /// A fetch ended the run by a HALT.
    Halted,
    /// The generator was reset.
    Reset,
}

/// Returns what `line`, a line of a log, says. Returns `None` exactly where it says nothing that a
/// line may say.
///
/// It may be `started`, `fetched` with a word address and the word there, `low` with a word address
/// and a byte, `wrote` with a byte address of the RAM, 000 to 7FF, and the byte, `halted` or
/// `reset`. One space stands between the parts. Or it is passed over, as it is empty or begins with
/// `#`. An address has three hexadecimal digits, a word four and a byte two. Letters are of either
/// case, and a CR may stand at the end. A line has at most 64 bytes.
///
/// With a `base` the address after `wrote` is one of the processor, in four digits. The RAM lies
/// there from the base on.
pub fn read_log_line(line: &[u8], base: Option<u16>) -> Option<LogLine>
    ensures found { IfSome result (λ logged. IsLineOf base (line_of logged) line.now) }
    ensures only { (logged : Line) → IsLineOf base logged line.now
        → IsSomeAnd result (λ found. line_of found ≡ logged) }
{
    if line.len() > MOST_LINE_BYTES {
        return None;
    }
    let line = without_cr(line);
    if is_passed(line) {
        return Some(LogLine::Passed);
    }
    let small = in_small_letters(line);
    row(small.as_slice(), base)
}

// Returns `line` without a CR at its end.
fn without_cr(line: &[u8]) -> &[u8]
    ensures value { result.now ≡ strip_carriage_return line.now }
    ensures fewer { length result.now ≤ length line.now }
{
    if line.is_empty() || line[line.len() - 1] != b'\r' {
        line
    } else {
        &line[..line.len() - 1]
    }
}

// Returns `line`, which has at most 64 bytes, in small letters.
fn in_small_letters(line: &[u8]) -> ArrayVec<u8, MOST_LINE_BYTES>
    requires { length line.now ≤ 64 }
    ensures { result.items ≡ small line.now }
{
    let mut small = ArrayVec::new();
    for byte in line {
        small.push(byte.to_ascii_lowercase());
    }
    small
}

// Returns what `line`, which is in small letters, says, or `None` if it is no row of a log.
fn row(line: &[u8], base: Option<u16>) -> Option<LogLine>
    ensures found { IfSome result (λ logged. LogRow base (line_of logged) (parts line.now)) }
    ensures only { (logged : Line) → LogRow base logged (parts line.now)
        → IsSomeAnd result (λ found. line_of found ≡ logged) }
{
    if let Some(rest) = line.strip_prefix(b"wrote ") {
        let (address, byte) = written(rest, base)?;
        Some(LogLine::Wrote(address, byte))
    } else if let Some(rest) = line.strip_prefix(b"fetched ") {
        let (address, word) = numbers(rest, 3, 4)?;
        Some(LogLine::Fetched(address, word))
    } else if let Some(rest) = line.strip_prefix(b"low ") {
        let (address, byte) = numbers(rest, 3, 2)?;
        Some(LogLine::Low(address, byte as u8))
    } else {
        bare(line)
    }
}

// Returns the address and the number that `bytes` spell: `width` hexadecimal digits, one space, and
// as many digits as `digits` says.
fn numbers(bytes: &[u8], width: usize, digits: usize) -> Option<(u16, u16)>
    requires { (width ≤ 4) × (digits ≤ 4) }
    ensures found { IfSome result (λ numbers.
        AreNumbers width digits numbers.0 numbers.1 bytes.now) }
    ensures only { (address number : ℕ) → AreNumbers width digits address number bytes.now
        → result ≡ Some (address, number) }
{
    if bytes.len() != width + 1 + digits || bytes[width] != b' ' {
        return None;
    }
    let address = hex(&bytes[..width], width)?;
    let number = hex(&bytes[width + 1..], digits)?;
    Some((address, number))
}

// Returns the byte address of the RAM that the processor has at `address`, where the RAM begins at
// `base`. The processor's address may be below it.
fn lowered(address: u16, base: u16) -> Option<u16>
    ensures some { IfSome result (λ a. address ≡ base + a) }
    ensures only { (a : ℕ) → address ≡ base + a → result ≡ Some a }
{
    if address < base {
        return None;
    }
    Some(address - base)
}

// Returns the byte address and the byte that `bytes` spell, at an address of the processor. That
// has the RAM from `base` on.
fn based(bytes: &[u8], base: u16) -> Option<(u16, u16)>
    ensures found { IfSome result (λ w. AreNumbers 4 2 (base + w.0) w.1 bytes.now) }
    ensures only { (address byte : ℕ) → AreNumbers 4 2 (base + address) byte bytes.now
        → result ≡ Some (address, byte) }
{
    let (address, byte) = numbers(bytes, 4, 2)?;
    let within = lowered(address, base)?;
    Some((within, byte))
}

// Returns the byte address `address` and the byte `byte`, if the address is one of the RAM.
fn in_ram(address: u16, byte: u16) -> Option<(u16, u8)>
    requires { byte < 256 }
    ensures some { IfSome result (λ w. (w.0 ≡ address) × (w.1 ≡ byte) × (address < 0x800)) }
    ensures only { address < 0x800 → result ≡ Some (address, byte) }
{
    if address >= RAM_BYTES {
        return None;
    }
    Some((address, byte as u8))
}

// Returns the byte address and the byte that `bytes` spell, of a write in the RAM.
fn written(bytes: &[u8], base: Option<u16>) -> Option<(u16, u8)>
    ensures found { IfSome result (λ w. AreWritten base w.0 w.1 bytes.now) }
    ensures only { (address byte : ℕ) → AreWritten base address byte bytes.now
        → result ≡ Some (address, byte) }
{
    match base {
        Some(base) => {
            let (address, byte) = based(bytes, base)?;
            in_ram(address, byte)
        }
        None => {
            let (address, byte) = numbers(bytes, 3, 2)?;
            in_ram(address, byte)
        }
    }
}

// Returns what `name` alone says.
fn bare(name: &[u8]) -> Option<LogLine>
    ensures found { (base : Option ℕ) → IfSome result (λ logged.
        LogRow base (line_of logged) (name.now ∷ [])) }
    ensures only { (base : Option ℕ) (logged : Line) → LogRow base logged (name.now ∷ [])
        → IsSomeAnd result (λ found. line_of found ≡ logged) }
{
    match name {
        b"started" => Some(LogLine::Started),
        b"halted" => Some(LogLine::Halted),
        b"reset" => Some(LogLine::Reset),
        _ => None,
    }
}
