//! The first letters of a text, as a number.
ghost use Rattle.std.specs.Prelude.{◌≡◌, ◌≤◌, ◌++◌, IfSome};
ghost use Rattle.std.specs.Int.{to_le_bytes, w32};

/// Returns the first four bytes of `text` as a number, the first of them the lowest, and the bytes
/// after them. Returns `None` where `text` has fewer than `least` bytes. `least`, 4 or more, is how
/// many bytes the caller looks at: so it tests no length again.
#[inline(always)]
pub(crate) fn letters_at_head(text: &[u8], least: usize) -> Option<(u32, &[u8])>
    requires { 4 ≤ least }
    ensures { IfSome result (λ head. text.now ≡ to_le_bytes w32 head.0 ++ head.1.now) }
{
    if text.len() < least {
        return None;
    }
    let letters = u32::from_le_bytes([text[0], text[1], text[2], text[3]]);
    Some((letters, &text[4..]))
}
