//! The places that are refused, the causes first.
ghost use Rattle.std.specs.Prelude.{◌≡◌, ℕ, IfOk};
ghost use Rattle.dvg_game_check.specs.Why.{listed};

use crate::instruction::Instruction;
use crate::program::Program;
use dvg_game_check::{Ask, Broken, Kind, Level, Rule};
use std::alloc::{AllocError, Allocator};

// Whether an instruction may lead back: in a loop there is one that does.
fn leads_back(program: &Program<'_>, at: u32) -> bool {
    let i = Instruction::new(program, at);
    matches!(program.kind(at), Kind::Branch | Kind::Jump) && u32::from(i.operand()) <= at
}

// Whether another instruction is mostly the cause of this refusal; `has_cause`: one is known.
fn follows(program: &Program<'_>, broken: Broken, has_cause: bool) -> bool {
    match broken.rule {
        Some(Rule::Asleep | Rule::Blank) => true,
        Some(Rule::Next(Ask::Awake) | Rule::Target(Ask::Awake)) => true,
        Some(Rule::Next(Ask::Fuel) | Rule::Target(Ask::Fuel)) => !leads_back(program, broken.at),
        Some(Rule::Next(Ask::Room) | Rule::Target(Ask::Room)) => match program.note(broken.at) {
            Some(now) => has_cause || !matches!(now.level, Level::Sub),
            None => true,
        },
        _ => false,
    }
}

// Whether one of these is a cause by itself.
fn any_cause(program: &Program<'_>, all: &[Broken]) -> bool {
    for broken in all {
        if !follows(program, *broken, true) {
            return true;
        }
    }
    false
}

/// Returns the same places, the likeliest causes first.
pub(crate) fn causes_first<A: Allocator + Copy>(
    alloc: A,
    program: &Program<'_>,
    all: &[Broken],
) -> Result<Vec<Broken, A>, AllocError>
    ensures { IfOk result (λ ordered. (at : ℕ) → listed ordered.items at ≡ listed all.now at) }
{
    let has_cause = any_cause(program, all);
    let mut causes = Vec::new(alloc);
    let mut others: Vec<Broken, A> = Vec::new(alloc);
    for broken in all {
        if follows(program, *broken, has_cause) {
            others.push(*broken)?;
        } else {
            causes.push(*broken)?;
        }
    }
    causes.extend_from_slice(others.as_slice())?;
    Ok(causes)
}
