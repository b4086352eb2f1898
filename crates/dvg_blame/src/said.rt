//! What a line of a sketch says.
ghost use Rattle.std.specs.Prelude.{◌≡◌, ◌++◌, IfOk, OnOk};
ghost use Rattle.std.specs.List.{join_with_byte};
ghost use Rattle.dvg_read.specs.LineParts.{bytes_of};
ghost use Rattle.dvg_blame.specs.Said.{after_name, gives_name, said};

use dvg_named::tokens_of;
use std::alloc::{AllocError, Allocator};

// Whether `token` gives a name: it ends with a colon.
fn gives_name(token: &[u8]) -> bool
    ensures { result ≡ gives_name token.now }
{
    token.ends_with(b":")
}

// Returns `tokens` without the first one, if that gives a name.
fn after_name<'a, 'b>(tokens: &'b [&'a [u8]]) -> &'b [&'a [u8]]
    ensures { bytes_of result.now ≡ after_name (bytes_of tokens.now) }
{
    match tokens {
        [first, rest @ ..] if gives_name(first) => rest,
        _ => tokens,
    }
}

// Appends `tokens` to `text`, with a space between each two. Returns `AllocError` where an
// allocation fails.
fn put_joined<A: Allocator>(text: &mut Vec<u8, A>, tokens: &[&[u8]]) -> Result<(), AllocError>
    ensures { OnOk result (text.new.items
        ≡ text.old.items ++ join_with_byte 32 (bytes_of tokens.now)) }
{
    let [first, rest @ ..] = tokens else {
        return Ok(());
    };
    text.extend_from_slice(first)?;
    for token in rest {
        text.extend_from_slice(b" ")?;
        text.extend_from_slice(token)?;
    }
    Ok(())
}

/// Appends what `line` says to `text`: its tokens after the name that it gives, with a space
/// between each two. Returns `AllocError` where an allocation fails.
pub fn put_said<A: Allocator>(text: &mut Vec<u8, A>, line: &[u8]) -> Result<(), AllocError>
    ensures { OnOk result (text.new.items ≡ text.old.items ++ said line.now) }
{
    match tokens_of(line) {
        Some(found) => put_joined(text, after_name(found.as_slice())),
        None => Ok(()),
    }
}

/// Returns what `line` says, as `put_said` appends it. Returns `AllocError` where an allocation
/// fails.
pub fn said<A: Allocator>(alloc: A, line: &[u8]) -> Result<Vec<u8, A>, AllocError>
    ensures { IfOk result (λ text. text.items ≡ said line.now) }
{
    let mut text = Vec::new(alloc);
    put_said(&mut text, line)?;
    Ok(text)
}
