//! The words that may begin a line, and which of them another word is like.

use crate::forms::Form;
use dvg_code::OutOfMemory;
use std::alloc::Allocator;
use std::str::from_utf8;
use strsim::jaro;

/// How alike two words are at least of which one is meant by the other, by Jaro's measure, from 0
/// to 1. This is this project's own choice: `hlt`, `vect` and `ret` are enough like `halt`, `vctr`
/// and `return`.
const ENOUGH: f64 = 0.8;

// Whether no token of `forms` is more like `word` than `alike`. Returns `OutOfMemory` where an
// allocation fails.
fn is_most<A: Allocator + Copy>(
    alloc: A,
    forms: &[Form],
    word: &str,
    alike: f64,
) -> Result<bool, OutOfMemory> {
    for form in forms {
        if jaro(alloc, word, form.token)? > alike {
            return Ok(false);
        }
    }
    Ok(true)
}

/// Returns the token of `forms` that `word`, in small letters, is most like. It is empty where
/// `word` is like none. Returns `OutOfMemory` where an allocation fails.
pub(crate) fn token_like<A: Allocator + Copy>(
    alloc: A,
    forms: &[Form],
    word: &[u8],
) -> Result<&'static str, OutOfMemory> {
    let Ok(word) = from_utf8(word) else {
        return Ok("");
    };
    for form in forms {
        let alike = jaro(alloc, word, form.token)?;
        if alike > ENOUGH && is_most(alloc, forms, word, alike)? {
            return Ok(form.token);
        }
    }
    Ok("")
}
