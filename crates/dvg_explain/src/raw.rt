//! Inputs that are no texts.
ghost use Rattle.std.specs.Prelude.{◌≡◌, ◌%◌, IfOk, length};
ghost use Rattle.dvg_code.specs.Words.{words_of};
ghost use Rattle.dvg_explain.specs.Findings.{IsCutAt};
ghost use Rattle.dvg_explain.specs.Kinds.{IsOfBytes};

use crate::kind::Kind;
use crate::looks::file_look;
use dvg_code::{Listed, Listing, OutOfMemory};
use dvg_dump::{LARGE_DUMP_BYTES, SMALL_DUMP_BYTES};
use dvg_io::collect_words;
use std::alloc::Allocator;
use std::str::from_utf8;

/// The most bytes of words: 4,096 words, as `list` takes them.
pub(crate) const MOST_WORD_BYTES: usize = 8192;

// Whether `byte` isn't one of a text.
fn is_control(byte: u8) -> bool {
    !matches!(byte, b'\t' | b'\n' | b'\r' | b' '..=b'~' | 128..=255)
}

/// Whether `bytes` are a text: UTF-8 without controls but tabs, LFs and CRs.
pub(crate) fn is_text(bytes: &[u8]) -> bool {
    for byte in bytes {
        if is_control(*byte) {
            return false;
        }
    }
    from_utf8(bytes).is_ok()
}

/// Returns the kind for which `bytes` are taken, which are no text.
pub(crate) fn kind_of_bytes(bytes: &[u8]) -> Kind
    ensures { IsOfBytes bytes.now result }
{
    if !file_look(bytes).is_empty() {
        return Kind::Other;
    }
    if bytes.len() == SMALL_DUMP_BYTES || bytes.len() == LARGE_DUMP_BYTES {
        return Kind::Dump;
    }
    if bytes.len() % 2 == 0 && bytes.len() <= MOST_WORD_BYTES {
        return Kind::Words;
    }
    Kind::Other
}

// Returns the place at which `words` are cut, if they are.
fn cut_of(words: &[u16]) -> Option<usize>
    ensures { IsCutAt words.now result }
{
    for item in Listing::new(words) {
        match item {
            Listed::At(..) => {}
            Listed::Cut(place) => return Some(place),
        }
    }
    None
}

/// Returns the place at which the words of `bytes` are cut, if they are. Returns `OutOfMemory`
/// where an allocation fails.
pub(crate) fn cut_in<A: Allocator>(alloc: A, bytes: &[u8]) -> Result<Option<usize>, OutOfMemory>
    requires { length bytes.now % 2 ≡ 0 }
    ensures { IfOk result (IsCutAt (words_of bytes.now)) }
{
    let words = collect_words(alloc, bytes)?;
    Ok(cut_of(words.as_slice()))
}
