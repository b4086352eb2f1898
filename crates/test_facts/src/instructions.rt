//! What follows from the contract of `decode`.
ghost use Rattle.std.specs.Prelude.{◌≡◌, Ok};
ghost use Rattle.test_facts.specs.Facts.{long_vector};

use dvg_code::{Code, CodeFault, decode};

/// The words 9064 7464 spell VCTR 9 -100 100 7, and no other instruction; both are taken.
pub fn decodes_a_vector() -> Result<(Code, usize), CodeFault>
    ensures { result ≡ Ok (long_vector, 2) }
{
    decode(&[0x9064, 0x7464])
}
