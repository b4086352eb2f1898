//! The engine `explain`.
ghost use Rattle.std.specs.Prelude.{◌≡◌, ◌%◌, ◌++◌, ◌<◌, ℕ, List, IfOk, IsFalse, None, length};
ghost use Rattle.dvg_code.specs.Words.{words_of};
ghost use Rattle.dvg_io.specs.Faults.{ComesBeforeText};
ghost use Rattle.dvg_io.specs.Serving.{AreFresh, Serves};
ghost use Rattle.dvg_io.specs.Watching.{Writes};
ghost use Rattle.dvg_logs.specs.LogTexts.{AnswersTorn};
ghost use Rattle.dvg_read.specs.FirstFaults.{IsShort};
ghost use Rattle.dvg_explain.specs.Answers.{AreAnswers};
ghost use Rattle.dvg_explain.specs.Findings.{Explains, HasNoFault, IsCutAt, IsFound, IsFoundIn};
ghost use Rattle.dvg_explain.specs.Findings.{IsVerdictAs, told_of};
ghost use Rattle.dvg_read.specs.declared.draft_text.TheConstants.{MOST_TEXT_BYTES};

use crate::asking::{Answers, ask};
use crate::choosing::kind_of;
use crate::kind::{Finding, Kind};
use crate::raw::cut_in;
use crate::telling::{Examined, tell_long};
use dvg_code::OutOfMemory;
use dvg_io::{Engine, StreamFailed, Text, ToolFault, Watched, serve, write_lines, write_whole};
use dvg_logs::{LogFinding, LogVerdict};
use dvg_read::{MOST_TEXT_BYTES, TextFault, Unread};
use std::alloc::Allocator;
use std::io::{Read, Write};

// Returns the place at which the words of `text` are cut, if it is taken for words, which is its
// `kind`, and they are. Returns `OutOfMemory` where an allocation fails.
fn cut_of<A: Allocator>(alloc: A, text: &[u8], kind: Kind) -> Result<Option<usize>, OutOfMemory>
    requires { kind ≡ Kind.Words → length text.now % 2 ≡ 0 }
    ensures { IfOk result (λ cut. kind ≡ Kind.Words → IsCutAt (words_of text.now) cut) }
{
    match kind {
        Kind::Words => cut_in(alloc, text),
        _ => Ok(None),
    }
}

// Whether nothing is torn in a log, by what `torn` says of it, `judged`.
fn is_untorn(judged: Result<LogVerdict, TextFault>) -> bool
    ensures { (text : List ℕ) → AnswersTorn None text judged → IsVerdictAs text Kind.Log result }
{
    match judged {
        Ok(verdict) => verdict.finding == LogFinding::NotTorn,
        Err(_) => false,
    }
}

// Whether the commands take an input of this `kind`, and say yes, where the readers of texts
// answered `answers`. Words may be `cut`.
fn is_good<A: Allocator>(answers: &Answers<A>, kind: Kind, cut: Option<usize>) -> bool
    ensures { (text : List ℕ) → AreAnswers text answers.now
        → (kind ≡ Kind.Words → IsCutAt (words_of text) cut) → IsVerdictAs text kind result }
{
    match kind {
        Kind::Words => cut.is_none(),
        Kind::Draft => answers.draft.is_none()
            && answers.sketch.is_none()
            && answers.refused.is_none(),
        Kind::Sketch => answers.sketch.is_none() && answers.refused.is_none(),
        Kind::Trace => answers.trace.is_none(),
        Kind::Log => is_untorn(answers.judged),
        Kind::Dump => true,
        Kind::Other => false,
    }
}

// Returns what is told of `examined`. Returns `OutOfMemory` where an allocation fails.
fn told<A: Allocator + Copy>(
    alloc: A,
    examined: &Examined<'_, A>,
) -> Result<Vec<u8, A>, OutOfMemory> {
    let mut out = Text::new(alloc);
    match examined.tell(alloc, &mut out) {
        Ok(()) => Ok(out.into_bytes()),
        Err(_) => Err(OutOfMemory),
    }
}

// Returns what is found of an input that is too long. Returns `OutOfMemory` where an allocation
// fails.
fn find_long<A: Allocator + Copy>(alloc: A) -> Result<Finding<A>, OutOfMemory>
    ensures kind { IfOk result (λ finding. finding.kind ≡ Kind.Other) }
    ensures verdict { IfOk result (λ finding. IsFalse finding.is_good) }
{
    let mut out = Text::new(alloc);
    match tell_long(&mut out) {
        Ok(()) => Ok(Finding {
            kind: Kind::Other,
            is_good: false,
            text: out.into_bytes(),
        }),
        Err(_) => Err(OutOfMemory),
    }
}

// Returns what is found of `text`, which isn't too long. Returns `OutOfMemory` where an allocation
// fails.
fn find_short<A: Allocator + Copy>(alloc: A, text: &[u8]) -> Result<Finding<A>, OutOfMemory>
    requires { IsShort text.now }
    ensures { IfOk result (IsFoundIn text.now) }
{
    let Ok(small) = text.to_ascii_lowercase(alloc) else {
        return Err(OutOfMemory);
    };
    let small = small.as_slice();
    let answers = ask(alloc, text, small)?;
    let kind = kind_of(text, small, &answers);
    let cut = cut_of(alloc, text, kind)?;
    let is_good = is_good(&answers, kind, cut);
    let examined = Examined {
        text,
        small,
        answers,
        kind,
        cut,
    };
    Ok(Finding {
        kind,
        is_good,
        text: told(alloc, &examined)?,
    })
}

// Returns what is found of `text`, the input or a front of it that is too long. Returns
// `OutOfMemory` where an allocation fails.
fn find_in<A: Allocator + Copy>(alloc: A, text: &[u8]) -> Result<Finding<A>, OutOfMemory>
    ensures { IfOk result (IsFound text.now) }
{
    if text.len() > MOST_TEXT_BYTES {
        return find_long(alloc);
    }
    find_short(alloc, text)
}

// Writes the lines of `text` and then `last`, a line, to `writer`, each by itself.
fn write_told<W: Write>(
    text: &[u8],
    last: &[u8],
    writer: &mut Watched<W>,
) -> Result<(), StreamFailed>
    ensures { Writes W.contents (text.now ++ last.now) result writer.old writer.new }
{
    write_lines(writer, text)?;
    write_whole(writer, last)
}

// The engine.
#[derive(Drop)]
struct ExplainEngine;

impl<A: Allocator + Copy> Engine<A> for ExplainEngine {
    type Found = Finding<A>;

    const MOST: u32 = MOST_TEXT_BYTES as u32;

    ghost MOST = { MOST_TEXT_BYTES };

    ghost Finds = { λ engine. IsFound };

    ghost HasFault = { λ engine. HasNoFault };

    ghost text = { λ engine. told_of };

    fn find(&self, alloc: A, read: &[u8]) -> Result<Finding<A>, Unread> {
        match find_in(alloc, read) {
            Ok(finding) => Ok(finding),
            Err(OutOfMemory) => Err(Unread::Memory),
        }
    }

    fn write<W: Write>(
        &self,
        finding: &Finding<A>,
        writer: &mut Watched<W>,
    ) -> Result<(), StreamFailed> {
        write_told(finding.text.as_slice(), finding.last(), writer)
    }
}

/// Reads an input of any kind from `reader`. Writes to `writer` what is wrong with it first, or
/// which commands take it, and in the last line for which kind it is taken (the texts are this
/// project's own choice). Returns what was found.
///
/// - `Reader`, `Writer`: that stream failed. After `Writer` a beginning of the text went out.
/// - `Memory`: an allocation failed.
///
/// Where it stops before it writes, which is at any fault but `Writer`, the writer is as it was. At
/// most 1,048,577 bytes are taken.
#[inline(never)]
pub fn explain<A: Allocator + Copy, R: Read, W: Write>(
    alloc: A,
    reader: &mut Watched<R>,
    writer: &mut Watched<W>,
) -> Result<Finding<A>, ToolFault>
    requires fresh { AreFresh reader.old writer.old }
    ensures { Serves R.remaining W.contents MOST_TEXT_BYTES ComesBeforeText Explains
        result reader.old reader.new writer.old writer.new }
{
    serve(&ExplainEngine, alloc, reader, writer)
}
