//! Where the cause of a refusal is, if that isn't the instruction that is refused.
use crate::early::undoing;
use crate::instruction::Instruction;
use crate::places::routine;
use crate::program::{NMI_VECTOR, Program};
use crate::search::{Search, leads_to, led_from};
use dvg_game_check::{Broken, FIRST, Kind, Level, Note, PLACES, Rule};
use dvg_io::Text;
use std::alloc::{AllocError, Allocator};
use std::fmt::{self, Write};

/// The addresses of `dvg_open` and `dvg_labs`.
const OPEN: u16 = 0x6924;

const LABS: u16 = 0x6979;

/// What is known of the causes of a program's refusals.
#[derive(Drop)]
pub(crate) struct Hints<A: Allocator> {
    /// The NMI's vector leads to what a reset does.
    pub nmi_boots: bool,
    /// The first call that comes before `dvg_reset`, a store that undoes that, and whether the NMI
    /// leads to the call.
    early: Option<u32>,
    undoes: Option<u32>,
    early_in_nmi: bool,
    /// The first call that comes where a frame may be empty, and the subroutines that are called
    /// between `dvg_open` and `dvg_labs`.
    empty: Option<u32>,
    amid: Vec<u32, A>,
    /// The first return that no call is open for, and a JMP that leads there.
    uncalled: Option<u32>,
    jump: Option<u32>,
}

// Returns the first place that breaks a rule.
fn first_of(all: &[Broken], rule: Rule) -> Option<u32> {
    for broken in all {
        if broken.rule == Some(rule) {
            return Some(broken.at);
        }
    }
    None
}

// Whether the NMI's vector leads to LDX #$FF, TXS, as a reset's does.
fn boots_at_nmi(program: &Program<'_>) -> bool {
    let mut at = u32::from(program.word(NMI_VECTOR));
    for _ in 0..32u32 {
        if program.byte(at) == 0xA2 && program.word(at.wrapping_add(1)) == 0x9AFF {
            return true;
        }
        match program.kind(at) {
            Kind::Quiet(_, _) | Kind::Reads(_, _) | Kind::Stores(_) => {
                at = Instruction::new(program, at).next();
            }
            _ => return false,
        }
    }
    false
}

// Adds the subroutine that is called at a place, unless it is there.
fn add<A: Allocator>(list: &mut Vec<u32, A>, sub: u32) -> Result<(), AllocError> {
    for known in list.iter() {
        if *known == sub {
            return Ok(());
        }
    }
    list.push(sub)?;
    Ok(())
}

// Goes on from a place behind `dvg_open`: up to `dvg_labs`, or a call of a subroutine, which is
// added if it may leave the frame empty.
fn go_on<A: Allocator + Copy>(
    program: &Program<'_>,
    search: &mut Search<A>,
    list: &mut Vec<u32, A>,
    at: u32,
) -> Result<(), AllocError> {
    let Some(step) = program.step(at) else {
        return Ok(());
    };
    if step.drives == Some(LABS) {
        return Ok(());
    }
    if let Some(sub) = step.calls {
        let ends_empty = match program.note(sub) {
            Some(note) => note.ends,
            None => false,
        };
        return if ends_empty { add(list, sub) } else { Ok(()) };
    }
    if let Some(to) = step.next {
        search.mark(to)?;
    }
    if let Some(to) = step.to {
        search.mark(to)?;
    }
    Ok(())
}

// Returns the subroutines that are called first between `dvg_open` and `dvg_labs`, and may leave
// the frame empty.
fn called_amid<A: Allocator + Copy>(
    alloc: A,
    program: &Program<'_>,
) -> Result<Vec<u32, A>, AllocError> {
    let mut list = Vec::new(alloc);
    let mut search = Search::new(alloc)?;
    for k in 0..PLACES {
        if let Some(step) = program.step(FIRST + k) {
            if let (Some(OPEN), Some(next)) = (step.drives, step.next) {
                search.mark(next)?;
            }
        }
    }
    for _ in 0..PLACES {
        let Some(at) = search.take() else {
            break;
        };
        go_on(program, &mut search, &mut list, at)?;
    }
    Ok(list)
}

// Returns the first JMP that leads to a marked place, and marks what leads to one.
fn jump_before<A: Allocator + Copy>(
    program: &Program<'_>,
    search: &mut Search<A>,
    to: u32,
) -> Result<Option<u32>, AllocError> {
    for k in 0..PLACES {
        let at = FIRST + k;
        if let Some(step) = program.step(at) {
            if leads_to(&step, to) && !search.is_marked(at) {
                if matches!(step.kind, Kind::Jump) {
                    return Ok(Some(at));
                }
                search.mark(at)?;
            }
        }
    }
    Ok(None)
}

/// How far back a JMP is looked for, in instructions.
const MOST_BACK: u32 = 200;

// Returns a JMP that leads to a place, with no other one between.
fn jump_to<A: Allocator + Copy>(
    alloc: A,
    program: &Program<'_>,
    to: u32,
) -> Result<Option<u32>, AllocError> {
    let mut search = Search::new(alloc)?;
    search.mark(to)?;
    for _ in 0..MOST_BACK {
        let Some(at) = search.take() else {
            break;
        };
        if let Some(jump) = jump_before(program, &mut search, at)? {
            return Ok(Some(jump));
        }
    }
    Ok(None)
}

impl<A: Allocator + Copy> Hints<A> {
    /// Returns what is known of the causes, where all these places of a program are refused.
    pub(crate) fn new(
        alloc: A,
        program: &Program<'_>,
        all: &[Broken],
    ) -> Result<Hints<A>, AllocError> {
        let mut hints = Hints {
            nmi_boots: boots_at_nmi(program),
            early: first_of(all, Rule::Asleep),
            undoes: None,
            early_in_nmi: false,
            empty: first_of(all, Rule::Blank),
            amid: Vec::new(alloc),
            uncalled: first_of(all, Rule::ReturnLevel),
            jump: None,
        };
        if let Some(early) = hints.early {
            hints.undoes = undoing(alloc, program)?;
            let nmi = u32::from(program.word(NMI_VECTOR));
            hints.early_in_nmi = led_from(alloc, program, nmi)?.is_marked(early);
        }
        if hints.empty.is_some() {
            hints.amid = called_amid(alloc, program)?;
        }
        if let Some(uncalled) = hints.uncalled {
            hints.jump = jump_to(alloc, program, uncalled)?;
        }
        Ok(hints)
    }

    /// Tells that a routine is called before `dvg_reset`, and of the first one why.
    pub(crate) fn tell_asleep(&self, out: &mut Text<A>, i: &Instruction) -> fmt::Result {
        let name = routine(i.operand());
        if self.early != Some(i.at) {
            return write!(
                out,
                "{name} comes before dvg_reset, or after a store of a byte of 10 to 20"
            );
        }
        if let Some(at) = self.undoes {
            return write!(
                out,
                "{name} comes before dvg_reset: the store at {at:04X} may be of a byte of 10 to \
                 20, which undoes an earlier one"
            );
        }
        if self.early_in_nmi {
            return write!(out, "{name} comes before dvg_reset; the NMI leads there");
        }
        write!(
            out,
            "{name} comes before dvg_reset, which isn't called first on each way there"
        )
    }

    /// Tells, of the first call where a frame may be empty, which subroutines leave it so.
    pub(crate) fn tell_empty(&self, out: &mut Text<A>, i: &Instruction) -> fmt::Result {
        if self.empty != Some(i.at) {
            return Ok(());
        }
        for sub in self.amid.iter() {
            write!(
                out,
                "; {sub:04X} is called between dvg_open and dvg_labs: call it before dvg_open"
            )?;
        }
        Ok(())
    }

    /// Tells, of the first return that no call is open for, which JMP may be one for a JSR.
    pub(crate) fn tell_uncalled(
        &self,
        out: &mut Text<A>,
        program: &Program<'_>,
        i: &Instruction,
        now: &Note,
    ) -> fmt::Result {
        if self.uncalled != Some(i.at) || matches!(now.level, Level::Nmi) {
            return Ok(());
        }
        let is_jump = matches!(program.kind(i.at), Kind::Jump);
        match (self.jump, is_jump) {
            (None, true) => write!(out, ": is this a JMP for a JSR?"),
            (None, false) => Ok(()),
            (Some(at), true) => write!(
                out,
                ": is this a JMP for a JSR, or the one at {at:04X}, which leads there?"
            ),
            (Some(at), false) => write!(out, ": is the JMP at {at:04X} one for a JSR?"),
        }
    }
}
