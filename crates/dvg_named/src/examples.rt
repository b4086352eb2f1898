//! Worked examples of the definitions. Each is the contract of a function that does nothing.
ghost use Rattle.dvg_named.specs.Examples.{AddressIsAfterTwoWords, HeadsAreSpelled};
ghost use Rattle.dvg_named.specs.Examples.{LargerRomIsFree, LinesArePlain, LinesAreUnpassed};
ghost use Rattle.dvg_named.specs.Examples.{NoNames};
ghost use Rattle.dvg_named.specs.Examples.{NothingIsAFrame, NumberIsThatOfTheNext, OneCrIsPassed};
ghost use Rattle.dvg_named.specs.Examples.{OneSpaceIsPlain, RomAloneIsNoFrame};
ghost use Rattle.dvg_named.specs.TextExamples.{CallsTheRom, JumpsBack, OutOfRomAtOne};
ghost use Rattle.dvg_named.specs.TextExamples.{OverlapAtFour, TwiceAtTwo, UnknownAtOne};
ghost use Rattle.dvg_named.specs.Examples.{RowsAreSpelled, SectionsAreLaid, TopIsAFrame};
ghost use Rattle.dvg_named.specs.Examples.{TokensAreParted};

/// How a line becomes tokens.
pub fn lines()
    ensures parted { TokensAreParted }
    ensures plain { OneSpaceIsPlain }
    ensures cr { OneCrIsPassed }
    ensures small { LinesArePlain }
    ensures unpassed { LinesAreUnpassed }
{}

/// What a line spells.
pub fn rows()
    ensures rows { RowsAreSpelled }
    ensures heads { HeadsAreSpelled }
    ensures names { NoNames }
{}

/// Which sections are frames.
pub fn frames()
    ensures nothing { NothingIsAFrame }
    ensures rom { RomAloneIsNoFrame }
    ensures top { TopIsAFrame }
{}

/// Where operations stand.
pub fn places()
    ensures number { NumberIsThatOfTheNext }
    ensures laid { SectionsAreLaid }
    ensures address { AddressIsAfterTwoWords }
    ensures free { LargerRomIsFree }
{}

/// What whole texts denote, and which fault they have.
pub fn texts()
    ensures jump { JumpsBack }
    ensures call { CallsTheRom }
    ensures twice { TwiceAtTwo }
    ensures out { OutOfRomAtOne }
    ensures overlap { OverlapAtFour }
    ensures unknown { UnknownAtOne }
{}
