//! What follows from the contract of `area`.
ghost use Rattle.std.specs.Prelude.{◌≡◌};
ghost use Rattle.test_facts.specs.Facts.{areas_in_turn};

use dvg_mem::laws::one_area;
use dvg_mem::{Area, area};

/// The areas of twelve addresses: the first and the last of each, with a ROM of 2,048 bytes.
pub fn twelve_areas() -> [Area; 12]
    ensures { result ≡ areas_in_turn }
{
    one_area();
    [
        area(0x000),
        area(0x001),
        area(0x1FF),
        area(0x200),
        area(0x201),
        area(0x3FF),
        area(0x400),
        area(0x7FF),
        area(0x800),
        area(0xBFF),
        area(0xC00),
        area(0xFFF),
    ]
}
