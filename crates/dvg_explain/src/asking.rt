//! What the readers of texts answer to an input.
ghost use Rattle.std.specs.Prelude.{◌≡◌, ℕ, List, IfOk, map};
ghost use Rattle.std.specs.Char.{to_ascii_lowercase};
ghost use Rattle.dvg_read.specs.FirstFaults.{IsShort};
ghost use Rattle.dvg_explain.specs.Answers.{AnswersDraft, AnswersLog, AnswersTrace, AreAnswers};

use crate::frames::{RefusedFrame, SketchAnswer, ask_sketch};
use crate::kind::Kind;
use crate::lines::second_said;
use crate::remarks::Remark;
use dvg_code::OutOfMemory;
use dvg_logs::{LogVerdict, judge_log, read_log_line};
use dvg_read::{TextFault, TextLines, Unread, read_draft, read_trace};
use std::alloc::Allocator;

/// What each reader of texts answers to an input: its fault, if it has one.
#[derive(Drop)]
pub struct Answers<A: Allocator> {
    /// The fault that the reader of drafts has, if any.
    pub draft: Option<TextFault>,
    /// The fault that the reader of traces has, if any.
    pub trace: Option<TextFault>,
    /// The fault that the reader of sketches has, if any.
    pub sketch: Option<TextFault>,
    /// The first frame that the check refuses, of a sketch that is read whole.
    pub refused: Option<RefusedFrame<A>>,
    /// What is odd about a sketch of which it refuses no frame.
    pub remark: Option<Remark>,
    /// The fault that the reader of logs has, if any, with addresses of the generator in `wrote`.
    pub log: Option<TextFault>,
    /// What `torn` says of such a log, or its fault.
    pub judged: Result<LogVerdict, TextFault>,
    /// The kind of text as which the second line that says something is read alone.
    pub second: Kind,
}

// Returns the fault that the reader of drafts has at `text`, if it has one.
#[inline(never)]
fn draft_fault(text: &[u8]) -> Option<TextFault>
    ensures { AnswersDraft text.now result }
{
    match read_draft(text) {
        Ok(_) => None,
        Err(fault) => Some(fault),
    }
}

// Returns the fault that the reader of traces has at `text`, if it has one. Returns `OutOfMemory`
// where an allocation fails.
fn trace_fault<A: Allocator + Copy>(alloc: A, text: &[u8]) -> Result<Option<TextFault>, OutOfMemory>
    ensures { IfOk result (AnswersTrace text.now) }
{
    match read_trace(alloc, text) {
        Ok(_) => Ok(None),
        Err(Unread::Text(fault)) => Ok(Some(fault)),
        Err(Unread::Memory) => Err(OutOfMemory),
    }
}

// Returns the fault of the log `text`, if it has one.
fn log_fault(text: &[u8]) -> Option<TextFault>
    requires { IsShort text.now }
    ensures { AnswersLog text.now result }
{
    let mut number = 0;
    for line in TextLines::new(text) {
        number += 1;
        match read_log_line(line, None) {
            Some(_) => {}
            None => return Some(TextFault::Syntax(number)),
        }
    }
    None
}

// Whether the reader of sketches takes `line` alone. Returns `OutOfMemory` where an allocation
// fails.
fn is_sketch<A: Allocator + Copy>(alloc: A, line: &[u8]) -> Result<bool, OutOfMemory> {
    let Ok(small) = line.to_ascii_lowercase(alloc) else {
        return Err(OutOfMemory);
    };
    let answer = ask_sketch(alloc, small.as_slice())?;
    Ok(answer.fault.is_none())
}

// Returns the kind of text as which `line` is read alone, in small letters. An empty one is none.
fn kind_of_line<A: Allocator + Copy>(alloc: A, line: &[u8]) -> Result<Kind, OutOfMemory> {
    if line.is_empty() {
        return Ok(Kind::Other);
    }
    if draft_fault(line).is_none() {
        return Ok(Kind::Draft);
    }
    if trace_fault(alloc, line)?.is_none() {
        return Ok(Kind::Trace);
    }
    if is_sketch(alloc, line)? {
        return Ok(Kind::Sketch);
    }
    if read_log_line(line, None).is_some() {
        return Ok(Kind::Log);
    }
    Ok(Kind::Other)
}

/// Asks each reader of texts about `text`. `small` is `text` in small letters. Returns
/// `OutOfMemory` where an allocation fails.
pub(crate) fn ask<A: Allocator + Copy>(
    alloc: A,
    text: &[u8],
    small: &[u8],
) -> Result<Answers<A>, OutOfMemory>
    requires short { IsShort text.now }
    requires small { map to_ascii_lowercase text.now ≡ small.now }
    ensures { IfOk result (AreAnswers text.now) }
{
    let SketchAnswer {
        fault,
        refused,
        remark,
    } = ask_sketch(alloc, small)?;
    Ok(Answers {
        draft: draft_fault(text),
        trace: trace_fault(alloc, text)?,
        sketch: fault,
        refused,
        remark,
        log: log_fault(text),
        judged: judge_log(text, None),
        second: kind_of_line(alloc, second_said(small))?,
    })
}
