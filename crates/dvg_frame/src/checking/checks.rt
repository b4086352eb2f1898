//! The check of a draft.
ghost use Rattle.std.specs.Prelude.{◌≡◌, ℕ, ◌<◌, ◌≤◌, ◌↔◌, List, IsTrue, MatchOption};
ghost use Rattle.std.specs.Prelude.{MatchResult, length};
ghost use Rattle.dvg_mem.specs.Memory.{IsRom};
ghost use Rattle.dvg_frame.specs.Steps.{IsWellFormed, Misses};
ghost use Rattle.dvg_frame.specs.Faults.{IsChecked, Refuses};
ghost use Rattle.dvg_frame.specs.own.Firsts.{DrawsLabs, NamesNone};
ghost use Rattle.dvg_frame.specs.own.Frames.{IsFrame};
ghost use Rattle.dvg_frame.specs.own.Straight.{IsMeasure};
ghost use Rattle.dvg_frame.specs.own.Tables.{BoundOrFault, HasNone, IsRefused};

use crate::checked::Checked;
use crate::checking::bounds::bound_of;
use crate::checking::chain::Chain;
use crate::checking::straight::{Measure, measured};
use crate::checking::sweep::sweep;
use crate::checking::table::Table;
use crate::checking::worklist::Worklist;
use crate::draft::{Draft, MAX_OPS, are_ops};
use crate::fault::FrameFault;
use crate::frame::{Frame, MAX_WORDS};
use crate::op::{Op, OpKind};
use dvg_code::Instr;
use dvg_mem::Rom;
use std::alloc::Allocator;
use std::marker::Model;

// Returns whether `kind` draws a LABS.
fn is_labs(kind: OpKind) -> bool
    ensures { IsTrue result ↔ DrawsLabs kind }
{
    match kind {
        OpKind::Draw(code) => matches!(code.instr(), Instr::Labs { .. }),
        _ => false,
    }
}

// Returns whether `kind` names an operation whose number isn't below `count`.
fn names_none(count: usize, kind: OpKind) -> bool
    ensures { IsTrue result ↔ NamesNone count kind }
{
    match kind {
        OpKind::Call(j) | OpKind::Jump(j) => count <= usize::from(j),
        _ => false,
    }
}

// Returns the number of the first operation that names one which `draft` doesn't have, if there is
// one.
fn first_miss(draft: &[Op]) -> Option<u16>
    requires { length draft.now ≤ MAX_OPS }
    ensures { MatchOption result
        ((i : ℕ) → ¬ Misses draft.now i)
        (λ i. Misses draft.now i × ((k : ℕ) → k < i → ¬ Misses draft.now k)) }
{
    let count = draft.len();
    for i in 0..count {
        if names_none(count, draft[i].kind()) {
            return Some(i as u16);
        }
    }
    None
}

// Returns what `draft` measures, or the first of the faults 1 to 4 that it has.
fn measure_or_fault(draft: &[Op]) -> Result<Measure, FrameFault>
    ensures { MatchResult result (λ measure. IsFrame draft.now × IsMeasure draft.now measure)
        (λ fault. (R : List ℕ) → Refuses draft.now R fault) }
{
    let count = draft.len();
    if count == 0 {
        return Err(FrameFault::Empty);
    }
    if !is_labs(draft[0].kind()) {
        return Err(FrameFault::NoLabs);
    }
    // Each operation has a word at least.
    if count > MAX_OPS {
        return Err(FrameFault::TooLong);
    }
    are_ops(draft);
    let measure = measured(draft);
    if measure.words > MAX_WORDS {
        return Err(FrameFault::TooLong);
    }
    // Vectors, LABS and HALT name no operation.
    if measure.is_straight {
        return Ok(measure);
    }
    match first_miss(draft) {
        Some(i) => Err(FrameFault::Target(i)),
        None => Ok(measure),
    }
}

/// The check, with tables of a fixed size that are kept from one check to the next: a check takes
/// time for the operations and for the places that it reaches, and none for the size of the tables,
/// which is about 67 KB. A draft that is refused for a place of its run, or as a run of it comes to
/// no end, takes 38 KB more of the stack, which are laid out for it alone. What a check returns
/// doesn't depend on those before. A caller that checks many drafts should keep one, on the heap.
#[derive(Drop)]
pub struct Checker {
    table: Table,
    chain: Chain,
}

// Contracts see nothing of it: between checks nothing is known of a place.
impl Model for Checker {
    ghost Value = { Unit {0} };

    ghost view = { λ checker. tt };

    ghost invariant = { λ checker. HasNone checker.table };
}

impl Checker {
    /// Returns a checker, with nothing in its tables.
    pub fn new() -> Checker {
        Checker {
            table: Table::new(),
            chain: Chain::new(),
        }
    }

    /// Checks the draft of the operations `ops` over `rom`. Returns the checked draft, which lies
    /// where `ops` does, where it has no fault, otherwise the fault that is picked: faults 1 to 4
    /// in their order, then that of the first reached pair of place and depth that has one, then
    /// fault 9. Operations come before ROM words, each by number, and of one place the lesser depth
    /// comes first; if several faults hold at that pair, the one of least number is returned (this
    /// project's own choice).
    ///
    /// The pairs begin with operation 0 at depth 0. A vector or a LABS leads to the place after it,
    /// a jump to its target, a call to its target one deeper and to the place after it at its own
    /// depth. A return, a halt and a pair with a fault lead nowhere.
    ///
    /// Each draft has exactly one result over each ROM. The time is linear in the draft's
    /// operations and the places and pairs that are reached. Only a loop takes longer: it is
    /// followed for as many steps as there are places.
    pub fn check<'a, A: Allocator>(
        &mut self,
        ops: &'a [Op],
        rom: &Rom<A>,
    ) -> Result<Checked<'a>, FrameFault>
        ensures { IsChecked ops.now rom.now result }
    {
        let measure = match measure_or_fault(ops) {
            Ok(measure) => measure,
            Err(fault) => return Err(fault),
        };
        let words = measure.words;
        // Such a draft has no fault. Its run fetches word zero, too.
        if measure.is_straight {
            return Ok(Checked::of(ops, words, u64::from(words) + 1));
        }
        // A ROM has 2,048 or 4,096 bytes, as its type says.
        let _ = rom.len_words();
        match self.bound_or_fault(ops, rom) {
            Ok(bound) => Ok(Checked::of(ops, words, bound)),
            Err(fault) => Err(fault),
        }
    }

    // Returns the bound of `draft` over `rom`, or the fault that is picked. `draft` has none of the
    // faults 1 to 4.
    fn bound_or_fault<A: Allocator>(
        &mut self,
        draft: &[Op],
        rom: &Rom<A>,
    ) -> Result<u64, FrameFault>
        requires rom { IsRom rom.now }
        requires begins { IsWellFormed draft.now }
        ensures { BoundOrFault draft.now rom.now result }
    {
        let bound = bound_of(draft, rom, &mut self.table, &mut self.chain);
        self.table.clear();
        match bound {
            Some(bound) => Ok(bound),
            None => Err(picked(draft, rom)),
        }
    }
}

// Returns the fault that is picked of `draft` over `rom`. The draft has none of the faults 1 to 4,
// but a reached pair has a fault, or steps at one depth come to no end. The list of the pairs is
// laid out for such a draft alone.
#[inline(never)]
fn picked<A: Allocator>(draft: &[Op], rom: &Rom<A>) -> FrameFault
    requires rom { IsRom rom.now }
    requires begins { IsWellFormed draft.now }
    requires refused { IsRefused draft.now rom.now }
    ensures { Refuses draft.now rom.now result }
{
    let mut reached = Worklist::new();
    match sweep(&mut reached, draft, rom) {
        Some(found) => found.fault,
        None => FrameFault::Loops,
    }
}

/// Returns the frame of `draft` where it has no fault over `rom`, otherwise the fault that is
/// picked, as by a `Checker`, whose tables are laid out on the stack. A caller that checks many
/// drafts should keep one, which saves the time for that.
pub fn check<A: Allocator>(draft: &Draft, rom: &Rom<A>) -> Result<Frame, FrameFault>
    ensures { IsChecked draft.now rom.now result }
{
    match Checker::new().check(draft.ops(), rom) {
        Ok(checked) => Ok(checked.to_frame()),
        Err(fault) => Err(fault),
    }
}
