//! Which instructions of a program lead where.
use crate::program::{Program, Step};
use dvg_game_check::{FIRST, PLACES};
use std::alloc::{AllocError, Allocator};

/// Places, each with its mark, and those from which the search still has to go on.
#[derive(Drop)]
pub(crate) struct Search<A: Allocator> {
    marks: Vec<bool, A>,
    work: Vec<u32, A>,
}

impl<A: Allocator + Copy> Search<A> {
    /// Returns a search with no place marked.
    pub(crate) fn new(alloc: A) -> Result<Search<A>, AllocError> {
        let mut marks = Vec::new(alloc);
        for _ in 0..PLACES {
            marks.push(false)?;
        }
        Ok(Search {
            marks,
            work: Vec::new(alloc),
        })
    }

    /// Whether a place is marked.
    pub(crate) fn is_marked(&self, at: u32) -> bool {
        match self.marks.get(at.wrapping_sub(FIRST) as usize) {
            Some(mark) => *mark,
            None => false,
        }
    }

    /// Marks a place, if it isn't yet, and has the search go on from there.
    pub(crate) fn mark(&mut self, at: u32) -> Result<(), AllocError> {
        if let Some(mark) = self.marks.get_mut(at.wrapping_sub(FIRST) as usize) {
            if !*mark {
                *mark = true;
                self.work.push(at)?;
            }
        }
        Ok(())
    }

    /// Returns a place to go on from.
    pub(crate) fn take(&mut self) -> Option<u32> {
        self.work.pop()
    }
}

/// Whether an instruction leads to an address, but by a call.
pub(crate) fn leads_to(step: &Step, to: u32) -> bool {
    step.next == Some(to) || step.to == Some(to)
}

/// Returns the places that an instruction at `from` leads to, but by calls.
pub(crate) fn led_from<A: Allocator + Copy>(
    alloc: A,
    program: &Program<'_>,
    from: u32,
) -> Result<Search<A>, AllocError> {
    let mut search = Search::new(alloc)?;
    search.mark(from)?;
    for _ in 0..PLACES {
        let Some(at) = search.take() else {
            break;
        };
        if let Some(step) = program.step(at) {
            if let Some(to) = step.next {
                search.mark(to)?;
            }
            if let Some(to) = step.to {
                search.mark(to)?;
            }
        }
    }
    Ok(search)
}
