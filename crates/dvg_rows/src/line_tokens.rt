//! The tokens of a line.
ghost use Rattle.std.specs.Prelude.{◌≡◌, ◌<◌, ◌≤◌, ◌++◌, ◌∷◌, [], IfErr, IfNone, IfSome, OnErr};
ghost use Rattle.std.specs.Prelude.{false, true, All, OnOk, filter, length, slice_index, take};
ghost use Rattle.std.specs.List.{slice_split};
ghost use Rattle.std.specs.Str.Lines.{strip_carriage_return};
ghost use Rattle.dvg_read.specs.LineParts.{bytes_of};
ghost use Rattle.dvg_rows.specs.PlainLines.{ends_token, is_blank, is_some_byte, tokens};
ghost use Rattle.dvg_rows.specs.PlainLines.{uncommented};

use arrayvec::ArrayVec;
use dvg_read::LineFault;

/// The most tokens that a line of a sketch has: a line `rom` that gives eight words has so many.
pub const MAX_TOKENS: usize = 10;

/// Returns the tokens of `line`, which are separated by spaces and tabs, without its comment and
/// without one CR at its end. Returns `None` exactly where there are more than ten.
pub fn tokens_of(line: &[u8]) -> Option<ArrayVec<&[u8], MAX_TOKENS>>
    ensures found { IfSome result (λ found. bytes_of found.items ≡ tokens line.now) }
    ensures many { IfNone result (MAX_TOKENS < length (tokens line.now)) }
{
    let mut found = ArrayVec::new();
    match find_tokens(line, &mut found) {
        Ok(()) => Some(found),
        Err(_) => None,
    }
}

/// Puts the tokens of `line` into `found`, as `tokens_of` returns them, in place of those that were
/// found before. Returns `Syntax` exactly where there are more than ten.
pub fn find_tokens<'a>(
    line: &'a [u8],
    found: &mut ArrayVec<&'a [u8], MAX_TOKENS>,
) -> Result<(), LineFault>
    ensures found { OnOk result (bytes_of found.new.items ≡ tokens line.now) }
    ensures many { OnErr result (MAX_TOKENS < length (tokens line.now)) }
    ensures fault { IfErr result (λ fault. fault ≡ LineFault.Syntax) }
{
    let mut rest = without_indent(without_cr(line));
    found.clear();
    while let Some(end) = token_end(rest) {
        keep(&rest[..end], found)?;
        if rest[end] == b'#' {
            return Ok(());
        }
        rest = &rest[end + 1..];
    }
    keep(rest, found)
}

// Adds `token` to `found`, unless it has no byte. Returns `Syntax` where `found` has ten already.
fn keep<'a>(token: &'a [u8], found: &mut ArrayVec<&'a [u8], MAX_TOKENS>) -> Result<(), LineFault>
    ensures kept { OnOk result (bytes_of found.new.items
        ≡ bytes_of found.old.items ++ filter is_some_byte (token.now ∷ [])) }
    ensures many { OnErr result (MAX_TOKENS
        < length (bytes_of found.old.items ++ filter is_some_byte (token.now ∷ []))) }
    ensures fault { IfErr result (λ fault. fault ≡ LineFault.Syntax) }
{
    if !token.is_empty() && found.try_push(token).is_err() {
        return Err(LineFault::Syntax);
    }
    Ok(())
}

// Returns the place in `text` of the first byte that ends a token, or `None` where the whole of
// `text` is one.
fn token_end(text: &[u8]) -> Option<usize>
    ensures within { IfSome result (λ end. end < length text.now) }
    ensures fits { IfSome result (λ end. end < usize.MAX) }
    ensures inside { IfSome result (λ end.
        All (λ byte. ends_token byte ≡ false) (take end text.now)) }
    ensures ended { IfSome result (λ end. ends_token (slice_index text.now end) ≡ true) }
    ensures whole { IfNone result (All (λ byte. ends_token byte ≡ false) text.now) }
{
    let mut place = 0;
    while place < text.len() {
        if ends_token(text[place]) {
            return Some(place);
        }
        place += 1;
    }
    None
}

// Whether `byte` is a space, a tab or the `#` of a comment. Most bytes are above all three.
fn ends_token(byte: u8) -> bool
    ensures { result ≡ ends_token byte }
{
    byte <= b'#' && (byte == b' ' || byte == b'\t' || byte == b'#')
}

// Returns `line` without a CR at its end.
fn without_cr(line: &[u8]) -> &[u8]
    ensures { result.now ≡ strip_carriage_return line.now }
{
    if line.is_empty() || line[line.len() - 1] != b'\r' {
        line
    } else {
        &line[..line.len() - 1]
    }
}

// Returns what stands in `line` after its first eight bytes, if those are spaces: most rows begin
// so. Else returns `line`.
fn without_indent(line: &[u8]) -> &[u8]
    ensures { filter is_some_byte (slice_split is_blank (uncommented result.now))
        ≡ filter is_some_byte (slice_split is_blank (uncommented line.now)) }
{
    if line.starts_with(b"        ") {
        &line[8..]
    } else {
        line
    }
}
