//! For which kind an input is taken.
ghost use Rattle.std.specs.Prelude.{◌≡◌, ◌-◌, ◌^◌, ◌%◌, IsTrue, Some, length, unwrap_or};
ghost use Rattle.dvg_explain.specs.Kinds.{IsKind, IsNearest, farthest, reach, whole_kind};

use crate::asking::Answers;
use crate::forms::kind_begun;
use crate::kind::Kind;
use crate::lines::{first_said, line_at, says_something, word_at};
use crate::raw::{is_text, kind_of_bytes};
use dvg_read::TextFault;
use std::alloc::Allocator;

/// Returns the number of the line at which `fault` stops a reader, if it is one of a line. A name
/// that no line gives is found when all lines are read.
pub(crate) fn line_of(fault: TextFault) -> Option<usize>
    ensures { unwrap_or result (2 ^ 64 - 1) ≡ reach (Some fault) }
{
    match fault {
        TextFault::Syntax(number)
        | TextFault::Full(number)
        | TextFault::Many(number)
        | TextFault::NameGivenAgain(number)
        | TextFault::OutOfRom(number)
        | TextFault::Overlap(number) => Some(number),
        _ => None,
    }
}

// Returns the number of the line up to which a reader reads that answers `fault`. It is the
// greatest number where it reads all lines.
fn reach(fault: Option<TextFault>) -> usize
    ensures { result ≡ reach fault }
{
    match fault {
        Some(fault) => line_of(fault).unwrap_or(usize::MAX),
        None => usize::MAX,
    }
}

// Returns the number of the line up to which a reader reads that reads the farthest.
fn farthest<A: Allocator>(answers: &Answers<A>) -> usize
    ensures { result ≡ farthest answers.now }
{
    reach(answers.draft)
        .max(reach(answers.trace))
        .max(reach(answers.sketch))
        .max(reach(answers.log))
}

// Returns the first kind whose reader takes the whole input, if one does.
fn whole_kind<A: Allocator>(answers: &Answers<A>) -> Option<Kind>
    ensures { result ≡ whole_kind answers.now }
{
    match (answers.draft, answers.trace, answers.sketch, answers.log) {
        (None, _, _, _) => Some(Kind::Draft),
        (_, None, _, _) => Some(Kind::Trace),
        (_, _, None, _) => Some(Kind::Sketch),
        (_, _, _, None) => Some(Kind::Log),
        _ => None,
    }
}

// Whether `kind` is one of texts whose reader reads as far as any.
fn is_nearest<A: Allocator>(answers: &Answers<A>, kind: Kind) -> bool
    ensures { IsTrue result → IsNearest answers.now kind }
{
    let most = farthest(answers);
    match kind {
        Kind::Draft => reach(answers.draft) == most,
        Kind::Trace => reach(answers.trace) == most,
        Kind::Sketch => reach(answers.sketch) == most,
        Kind::Log => reach(answers.log) == most,
        Kind::Words | Kind::Dump | Kind::Other => false,
    }
}

// Returns `kind` if it is one of texts whose reader reads as far as any, and else none.
fn if_nearest<A: Allocator>(answers: &Answers<A>, kind: Kind) -> Kind
    ensures { IsNearest answers.now result }
{
    if is_nearest(answers, kind) {
        kind
    } else {
        Kind::Other
    }
}

// Returns the first kind of texts whose reader reads as far as any.
fn first_nearest<A: Allocator>(answers: &Answers<A>) -> Kind
    ensures { IsNearest answers.now result }
{
    if is_nearest(answers, Kind::Draft) {
        Kind::Draft
    } else if is_nearest(answers, Kind::Trace) {
        Kind::Trace
    } else if is_nearest(answers, Kind::Sketch) {
        Kind::Sketch
    } else {
        if_nearest(answers, Kind::Log)
    }
}

// Returns the kind for which `small` is taken, a text in small letters that no reader takes whole.
fn nearest<A: Allocator>(small: &[u8], answers: &Answers<A>) -> Kind
    ensures { IsNearest answers.now result }
{
    let most = farthest(answers);
    let begun = kind_begun(word_at(line_at(small, most), 0));
    if is_nearest(answers, begun) {
        return begun;
    }
    if first_said(small) == most {
        return if_nearest(answers, answers.second);
    }
    first_nearest(answers)
}

/// Returns the kind for which `text` is taken, to which the readers of texts answered `answers`.
/// `small` is `text` in small letters.
pub(crate) fn kind_of<A: Allocator>(text: &[u8], small: &[u8], answers: &Answers<A>) -> Kind
    ensures kind { IsKind text.now answers.now result }
    ensures even { result ≡ Kind.Words → length text.now % 2 ≡ 0 }
{
    if !says_something(text) {
        return Kind::Other;
    }
    match whole_kind(answers) {
        Some(kind) => kind,
        None if is_text(text) => nearest(small, answers),
        None => kind_of_bytes(text),
    }
}
