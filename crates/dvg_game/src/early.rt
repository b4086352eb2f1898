//! Stores that undo `dvg_reset`.
use crate::instruction::Instruction;
use crate::program::{Program, Step};
use crate::search::Search;
use dvg_game_check::{FIRST, Kind, PLACES, Test, kind_of, reached};
use std::alloc::{AllocError, Allocator};

/// The address of `dvg_reset`.
const RESET: u16 = 0x6800;

// Whether an instruction may store a byte of the driver's, but `dvg_y` and `dvg_x`.
fn stores_own(program: &Program<'_>, at: u32) -> bool {
    let i = Instruction::new(program, at);
    match kind_of(i.opcode) {
        Kind::Stores(place) => !reached(place, i.low, i.word, Test::NotOwn),
        _ => false,
    }
}

// Goes on from a place to which the driver may come awake.
fn go_on<A: Allocator + Copy>(
    search: &mut Search<A>,
    step: &Step,
    stores: bool,
) -> Result<(), AllocError> {
    if stores {
        return Ok(());
    }
    if let Some(to) = step.calls {
        search.mark(to)?;
    }
    if let Some(to) = step.to {
        search.mark(to)?;
    }
    if let Some(to) = step.next {
        search.mark(to)?;
    }
    Ok(())
}

/// Returns the first store of a byte of the driver's that comes where `dvg_reset` may have been
/// called, if there is one.
pub(crate) fn undoing<A: Allocator + Copy>(
    alloc: A,
    program: &Program<'_>,
) -> Result<Option<u32>, AllocError> {
    let mut search = Search::new(alloc)?;
    for k in 0..PLACES {
        if let Some(step) = program.step(FIRST + k) {
            if let (Some(RESET), Some(next)) = (step.drives, step.next) {
                search.mark(next)?;
            }
        }
    }
    let mut first = None;
    for _ in 0..PLACES {
        let Some(at) = search.take() else {
            break;
        };
        if let Some(step) = program.step(at) {
            let stores = stores_own(program, at);
            if stores {
                first = match first {
                    Some(old) if old < at => Some(old),
                    _ => Some(at),
                };
            }
            go_on(&mut search, &step, stores)?;
        }
    }
    Ok(first)
}
