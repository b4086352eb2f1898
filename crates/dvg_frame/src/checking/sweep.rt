//! The sweep over all pairs that a draft's run can come to.
ghost use Rattle.std.specs.Prelude.{◌≡◌, ◌≤◌, ◌⊎◌, [], IfSome, MatchOption, Some};
ghost use Rattle.dvg_mem.specs.Memory.{IsRom};
ghost use Rattle.dvg_frame.specs.Steps.{IsWellFormed};
ghost use Rattle.dvg_frame.specs.Faults.{Least};
ghost use Rattle.dvg_frame.specs.own.Growth.{Grows};
ghost use Rattle.dvg_frame.specs.own.Pairs.{IsPair, index};
ghost use Rattle.dvg_frame.specs.own.Sweeps.{StaysIn, WayLeadsTo};
ghost use Rattle.dvg_frame.specs.own.Tables.{AllFine};

use crate::checking::look::look;
use crate::checking::pair::{DEEPEST, FIRST, Pair, index_of};
use crate::checking::way::Way;
use crate::checking::worklist::Worklist;
use crate::fault::FrameFault;
use crate::op::Op;
use dvg_mem::Rom;
use std::alloc::Allocator;

/// A pair that has a fault, and the fault of least number there.
#[derive(Clone, Copy)]
pub(crate) struct Found {
    pub(crate) pair: Pair,
    pub(crate) fault: FrameFault,
}

// Adds to `list` the pairs that `way` leads to from the depth `depth`.
fn spread(list: &mut Worklist, way: Way, depth: u8)
    requires stays { StaysIn way depth }
    requires depth { depth ≤ DEEPEST }
    ensures { Grows list.old list.new (WayLeadsTo way depth) }
{
    match way {
        Way::Move(next, _) | Way::Jump(next) => list.add(Pair { place: next, depth }),
        Way::Call(target, after) => {
            let inside = Pair {
                place: target,
                depth: depth + 1,
            };
            let past = Pair {
                place: after,
                depth,
            };
            list.add(inside);
            list.add(past);
        }
        Way::Return | Way::Halt => {}
    }
}

// Returns the one of `best` and `found` whose pair comes first.
fn first_of(best: Option<Found>, found: Found) -> Found
    requires valid { IsPair found.pair }
    requires best_valid { IfSome best (λ old. IsPair old.pair) }
    ensures one { (result ≡ found) ⊎ (best ≡ Some result) }
    ensures new { index result.pair ≤ index found.pair }
    ensures old { IfSome best (λ old. index result.pair ≤ index old.pair) }
{
    match best {
        Some(old) => {
            if index_of(old.pair) < index_of(found.pair) {
                old
            } else {
                found
            }
        }
        None => found,
    }
}

/// Returns the first reached pair that has a fault, of `draft` over `rom`, with the fault of least
/// number there. Returns `None` where there is no such pair. `list` has no pair at first, and the
/// reached ones at the end.
///
/// Each pair is looked at once, when its turn comes in a list without doubles, so the time is
/// linear in the number of reached pairs.
pub(crate) fn sweep<A: Allocator>(list: &mut Worklist, draft: &[Op], rom: &Rom<A>) -> Option<Found>
    requires rom { IsRom rom.now }
    requires empty { list.old ≡ [] }
    requires begins { IsWellFormed draft.now }
    ensures { MatchOption result
        (AllFine draft.now rom.now)
        (λ found. Least draft.now rom.now found.fault) }
{
    list.add(FIRST);
    let mut best = None;
    let mut done = 0;
    while done < list.len() {
        let pair = list.at(done);
        match look(draft, rom, pair) {
            Ok(way) => spread(list, way, pair.depth),
            Err(fault) => best = Some(first_of(best, Found { pair, fault })),
        }
        done += 1;
    }
    best
}
