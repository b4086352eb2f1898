//! Laws of what is laid out. Each is the contract of a function that does nothing.
ghost use Rattle.dvg_lay.specs.Laws.{AreLent, ListsAsDraft, ReadAsDraft, WordsAgain};

/// The words of a draft, laid out for a half, are cut into its operations in order, each as an
/// instruction at the place after the words of those before it. There is one such cutting, with no
/// other instruction and no rest.
pub fn lists_as_draft()
    ensures { ListsAsDraft }
{}

/// The bytes of a layout make its words again.
pub fn words_again()
    ensures { WordsAgain }
{}

/// The frames of each sketch that was read are as `lay_tables` needs them: of at most 511
/// operations, each with its line.
pub fn frames_are_lent()
    ensures { AreLent }
{}

/// What is written of one frame as a plain draft is read as this draft, over the same ROM.
pub fn read_as_draft()
    ensures { ReadAsDraft }
{}
