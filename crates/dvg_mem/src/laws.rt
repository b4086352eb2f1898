//! Laws of the definitions alone. Each is the contract of a function that does nothing.
ghost use Rattle.dvg_mem.specs.Laws.{BytesInOrder, HalfFromBase, HalvesDiffer, HighNamesHalf};
ghost use Rattle.dvg_mem.specs.Laws.{OneArea, RomWordsInOrder};

/// Each word address lies in exactly one area.
pub fn one_area()
    ensures { OneArea }
{}

/// A half is the 511 words from its first word on.
pub fn half_from_base()
    ensures { HalfFromBase }
{}

/// The ROM's words, from its first address on (800, or 400 of the larger one), are the words of its
/// bytes in order.
pub fn rom_words_in_order()
    ensures { RomWordsInOrder }
{}

/// The two bytes of a word of the RAM are those at twice its address, the low byte first.
pub fn bytes_in_order()
    ensures { BytesInOrder }
{}

/// The high byte of the jump to a half, over the low byte 01, is that jump, and names the half.
pub fn high_names_half()
    ensures { HighNamesHalf }
{}

/// A half is not its other half, and it is the other half of that one.
pub fn halves_differ()
    ensures { HalvesDiffer }
{}
