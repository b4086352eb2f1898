//! What a game offers and puts, by its bytes. There is no code here: each law is the contract of a
//! function that does nothing.
#![tactic(auto)]

ghost use Rattle.dvg_game_content.specs.Law.{ContentByBytes, ContentByTests, PassesAccepts};

/// A draft whose ways were gone to their ends has none of the check's faults.
pub fn passes_accepts()
    ensures { PassesAccepts }
{}

/// What a game offers and puts is what `Content` says, where two tests of its bytes say so.
pub fn content_by_bytes()
    ensures { ContentByBytes }
{}

/// So it is by any tests of what it offers and puts, whose yes means what `Content` asks.
pub fn content_by_tests()
    ensures { ContentByTests }
{}
