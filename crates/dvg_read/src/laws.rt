//! Laws of the texts of drafts and of traces. Each is the contract of a function that does nothing,
//! but one, which reads the text.
ghost use Rattle.dvg_read.specs.TraceLaws.{NoFaultBesideTrace, NoTraceLacksBoth, OneTraceFault};
ghost use Rattle.dvg_read.specs.TraceLaws.{OneTraceMeaning};
ghost use Rattle.dvg_read.specs.TextLaws.{EachRom, IsRead, NoFaultBeside, OneMeaning, OneRom};
ghost use Rattle.dvg_read.specs.TextLaws.{OneTextFault};

use crate::draft_text::read_draft;

/// A text denotes at most one draft, and says at most one thing of the ROM.
pub fn one_meaning()
    ensures { OneMeaning }
{}

/// What is said of a ROM gives at most one ROM.
#[tactic(auto, using(crate::proofs::OneRom::one_rom))]
pub fn one_rom()
    ensures { OneRom }
{}

/// What lines state of a ROM gives a ROM.
#[tactic(auto, using(crate::proofs::StatedRom::each_rom))]
pub fn each_rom()
    ensures { EachRom }
{}

/// A text has at most one fault.
#[tactic(auto, using(crate::proofs::OneStop::one_text_fault))]
pub fn one_text_fault()
    ensures { OneTextFault }
{}

/// Each `text` denotes a draft and a ROM, or has a fault. That one of them holds is shown by what
/// the reader of texts itself returns.
pub fn each_is_read(text: &[u8])
    ensures { IsRead text.now }
{
    let _answer = read_draft(text);
}

/// A text that denotes a draft has no fault.
pub fn no_fault_beside()
    ensures { NoFaultBeside }
{}

/// The text of a trace denotes at most one list of events, and says at most one thing of the ROM.
pub fn one_trace_meaning()
    ensures { OneTraceMeaning }
{}

/// The text of a trace has at most one fault.
#[tactic(auto, using(crate::proofs::OneTrace::one_trace_fault))]
pub fn one_trace_fault()
    ensures { OneTraceFault }
{}

/// No text of a trace lacks both a meaning and a fault: events with the bytes of a ROM, or what is
/// wrong with it.
#[tactic(auto, using(crate::proofs::TraceOrFault::no_trace_lacks_both))]
pub fn no_trace_lacks_both()
    ensures { NoTraceLacksBoth }
{}

/// The text of a trace that denotes events has no fault.
pub fn no_fault_beside_trace()
    ensures { NoFaultBesideTrace }
{}
