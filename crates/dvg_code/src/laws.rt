//! Laws of the definitions alone. Each is the contract of a function that does nothing.
ghost use Rattle.dvg_code.specs.Laws.{BytesMakeWords, CanonicalSpells, EachWordBegins, OneCutting};
ghost use Rattle.dvg_code.specs.Laws.{OneFront, OneSpelling, RestBeginsNone, SpellingLength};

/// Words spell at most one instruction.
#[tactic(auto, using(crate::proofs::Unique::same_spelling))]
pub fn one_spelling()
    ensures { OneSpelling }
{}

/// The canonical words of an instruction in range spell it.
#[tactic(auto, using(crate::proofs::FieldsSpell::canon_spells))]
pub fn canonical_spells()
    ensures { CanonicalSpells }
{}

/// Each spelling of an instruction has its number of words: two for VCTR and LABS, one for the
/// others.
#[tactic(auto, using(crate::proofs::Unique::spelling_length))]
pub fn spelling_length()
    ensures { SpellingLength }
{}

/// Each word of 16 bits begins an instruction: one of opcode B to F is one alone, and one of opcode
/// 0 to A is one with any second word.
#[tactic(auto, using(crate::proofs::Beginnings::one_word, crate::proofs::Beginnings::two_words))]
pub fn each_word_begins()
    ensures { EachWordBegins }
{}

/// Two spellings at the front of the same words are one, with the same words after it.
#[tactic(auto, using(crate::proofs::Unique::same_front))]
pub fn one_front()
    ensures { OneFront }
{}

/// What a cutting leaves at the end, no word or one whose second word is missing, begins with no
/// instruction.
#[tactic(auto, using(crate::proofs::Unique::rest_begins_none))]
pub fn rest_begins_none()
    ensures { RestBeginsNone }
{}

/// Each list of words of 16 bits is cut into instructions and a rest in one way, and in no other.
pub fn one_cutting()
    ensures { OneCutting }
{}

/// Bytes make words of 16 bits, of which word `k` is made of bytes `2k` and `2k + 1`.
#[tactic(auto, using(crate::proofs::BytesOfWords::word_k, crate::proofs::BytesOfWords::words_fit))]
pub fn bytes_make_words()
    ensures { BytesMakeWords }
{}
