//! Events at the head of a text, each read in one pass with the end of its line.
ghost use Rattle.std.specs.Prelude.{◌≡◌, ◌∷◌, ◌++◌, [], IfSome};
ghost use Rattle.dvg_log.specs.Events.{spelled_as};
ghost use Rattle.dvg_read.specs.Texts.{lines};
ghost use Rattle.dvg_read.specs.TraceEvents.{HasEvents, name_bytes};

use crate::letters::letters_at_head;
use crate::number::{after_byte, digit_of};
use dvg_log::{Event, SpelledEvent};

/// How many bytes the longest line that is read here has, with its end. A shorter text is read
/// otherwise.
pub(crate) const HEAD: usize = 12;

/// An event's name with its line's end.
#[derive(Clone, Copy)]
pub(crate) struct Name {
    /// Its first four letters as a number, the first of them the lowest.
    pub(crate) letters: u32,
    /// What stands after them.
    pub(crate) ending: &'static [u8],
}

/// The name `tick`.
pub(crate) const TICK: Name = Name {
    letters: 0x6B63_6974,
    ending: b"\n",
};

/// The name `fetch`.
pub(crate) const FETCH: Name = Name {
    letters: 0x6374_6566,
    ending: b"h\n",
};

/// The name `strobe`.
pub(crate) const STROBE: Name = Name {
    letters: 0x6F72_7473,
    ending: b"be\n",
};

/// The name `redraw`.
pub(crate) const REDRAW: Name = Name {
    letters: 0x7264_6572,
    ending: b"aw\n",
};

/// The name `resetgen`.
pub(crate) const RESETGEN: Name = Name {
    letters: 0x6573_6572,
    ending: b"tgen\n",
};

/// The name `resetcpu`.
pub(crate) const RESETCPU: Name = Name {
    letters: 0x6573_6572,
    ending: b"tcpu\n",
};

/// The name `resetall`, without its line's end: a space and two digits stand before that.
pub(crate) const RESETALL: Name = Name {
    letters: 0x6573_6572,
    ending: b"tall",
};

/// Returns what stands in `text` after `name`. Returns `None` where it doesn't begin with that, or
/// has fewer than 12 bytes.
#[inline(always)]
#[tactic(auto, using(crate::proofs::EventHeads::after_both))]
pub(crate) fn after_name(text: &[u8], name: Name) -> Option<&[u8]>
    ensures { IfSome result (λ rest. text.now ≡ name_bytes name ++ rest.now) }
{
    let (letters, rest) = letters_at_head(text, HEAD)?;
    if letters != name.letters {
        return None;
    }
    after_bytes(rest, name.ending)
}

// Returns what stands in `text` after `bytes`, or `None` where it doesn't begin with them. They are
// compared one by one, as a comparison of two slices is a call.
#[inline(always)]
fn after_bytes<'a>(text: &'a [u8], bytes: &[u8]) -> Option<&'a [u8]>
    ensures { IfSome result (λ rest. text.now ≡ bytes.now ++ rest.now) }
{
    let mut rest = text;
    for byte in bytes {
        rest = after_byte(rest, *byte)?;
    }
    Some(rest)
}

/// Returns the reset of the whole system that the first line of `text` spells, and what stands
/// after that line. `None` says nothing of `text`.
#[inline(always)]
pub(crate) fn reset_at_head(text: &[u8]) -> Option<(SpelledEvent, &[u8])>
    ensures { IfSome result (λ head. HasEvents (lines text.now) (spelled_as head.0 ∷ [])
        (lines head.1.now)) }
{
    let [b' ', high, low, b'\n', rest @ ..] = after_name(text, RESETALL)? else {
        return None;
    };
    let (high, low) = (digit_of(*high), digit_of(*low));
    if high > 15 || low > 15 {
        return None;
    }
    Some((Event::ResetAll(16 * high + low), rest))
}
