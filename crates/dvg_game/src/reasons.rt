//! Which rule an instruction breaks, in words, and what to do.
use crate::alone::{
    tell_blank, tell_entry, tell_finish, tell_lost, tell_nmi_drives, tell_read, tell_return_depth,
    tell_return_level, tell_store, tell_wild,
};
use crate::asks::{call_of, tell_ask, way_behind, way_there};
use crate::hints::Hints;
use crate::instruction::Instruction;
use crate::program::{Program, RESET_VECTOR};
use dvg_game_check::{Ask, Broken, Level, Note, Rule};
use dvg_io::Text;
use std::alloc::Allocator;
use std::fmt::{self, Write};

// Tells a rule whose text doesn't depend on the instruction.
fn tell_plainly<A: Allocator>(out: &mut Text<A>, rule: Rule) -> fmt::Result {
    let text: &'static str = match rule {
        Rule::Pushes => "the stack has no room for it",
        Rule::Pulls => {
            "it takes what was not pushed here: a subroutine ends by RTS alone, and gets the \
             address of a text in A and X"
        }
        Rule::Resets => "the NMI jumps to the reset: let the program look, and jump",
        Rule::EntryRoom => "the stack has no room for the driver",
        Rule::CallRoom => "the stack has no room for the call",
        Rule::CallNmi => "the NMI calls a subroutine: write its instructions there",
        Rule::ReturnBlank => "it returns with an empty frame",
        _ => "it breaks a rule",
    };
    out.add(text.as_bytes())
}

// Tells a rule that an instruction with the note `now` breaks.
fn tell_rule<A: Allocator + Copy>(
    out: &mut Text<A>,
    program: &Program<'_>,
    hints: &Hints<A>,
    i: &Instruction,
    now: &Note,
    rule: Rule,
) -> fmt::Result {
    match rule {
        Rule::Wild => tell_wild(out, i, hints.nmi_boots),
        Rule::Strobe => tell_read(out, i),
        Rule::Writes => tell_store(out, i, now.level),
        Rule::Entry => tell_entry(out, i),
        Rule::EntryNmi => tell_nmi_drives(out, i),
        Rule::Asleep => hints.tell_asleep(out, i),
        Rule::Blank => {
            tell_blank(out, i)?;
            hints.tell_empty(out, i)
        }
        Rule::ReturnLevel => {
            tell_return_level(out, now)?;
            hints.tell_uncalled(out, program, i, now)
        }
        Rule::ReturnDepth => tell_return_depth(out, now),
        Rule::FinishLevel | Rule::FinishDepth => tell_finish(out, now),
        Rule::FinishHeld => tell_lost(out, now),
        Rule::CallRoom if program.note(u32::from(i.operand())).is_none() => {
            tell_ask(out, program, &way_there(program, i, now), Ask::Noted)
        }
        Rule::Next(ask) => tell_ask(out, program, &way_behind(program, i, now), ask),
        Rule::Target(ask) => tell_ask(out, program, &way_there(program, i, now), ask),
        _ => tell_plainly(out, rule),
    }
}

// Tells, of a place of the reset that a JSR leads to, which one calls it.
fn tell_called<A: Allocator>(
    out: &mut Text<A>,
    program: &Program<'_>,
    at: u32,
    now: &Note,
) -> fmt::Result {
    let reset = u32::from(program.word(RESET_VECTOR));
    if at < reset || program.start <= at || !matches!(now.level, Level::Sub) {
        return Ok(());
    }
    match call_of(program, reset) {
        Some(call) => write!(out, "; the reset is called at {call:04X}: jump there"),
        None => Ok(()),
    }
}

/// Tells the instruction at a place, and which rule it breaks.
pub(crate) fn tell_broken<A: Allocator + Copy>(
    out: &mut Text<A>,
    program: &Program<'_>,
    hints: &Hints<A>,
    broken: Broken,
) -> fmt::Result {
    let i = Instruction::new(program, broken.at);
    write!(out, "{i}: ")?;
    match (program.note(broken.at), broken.rule) {
        (Some(now), Some(rule)) => {
            tell_rule(out, program, hints, &i, now, rule)?;
            tell_called(out, program, broken.at, now)
        }
        _ => write!(out, "it breaks a rule"),
    }
}
