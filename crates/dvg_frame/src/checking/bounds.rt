//! What is drawn from each place, whether a run from it breaks, and whether steps at one depth come
//! to no end.
ghost use Rattle.std.specs.Prelude.{◌≡◌, ◌+◌, ◌*◌, ◌<◌, ◌≤◌, ◌^◌, ℕ, List, None, length};
ghost use Rattle.std.specs.Prelude.{MatchOption};
ghost use Rattle.dvg_mem.specs.Memory.{IsRom};
ghost use Rattle.dvg_frame.specs.Faults.{Accepts};
ghost use Rattle.dvg_frame.specs.Picture.{IsBound};
ghost use Rattle.dvg_frame.specs.Steps.{IsWellFormed};
ghost use Rattle.dvg_frame.specs.own.Pairs.{IsPlace};
ghost use Rattle.dvg_frame.specs.own.Tables.{AllFine, HasChain, HasNone, IsCalled, IsKnown};
ghost use Rattle.dvg_frame.specs.own.Tables.{IsLonger, IsRefused, IsTable, KeepsKnown, Knows};
ghost use Rattle.dvg_frame.specs.own.Tables.{last_drawn, onward};
ghost use Rattle.dvg_frame.specs.own.Sweeps.{ReachedPair};
ghost use Rattle.dvg_frame.specs.own.Ways.{IsPlaceOf};
ghost use Rattle.dvg_frame.specs.declared.checking.chain.TheConstants.{LONGEST};
ghost use Rattle.dvg_frame.specs.declared.op.OpKind.{OpKind};
ghost use Rattle.dvg_frame.specs.declared.checking.pair.Pair.{Pair};
ghost use Rattle.dvg_frame.specs.declared.place.Place.{Place};

use crate::checking::chain::Chain;
use crate::checking::look::look;
use crate::checking::pair::{DEEPEST, FIRST, Pair};
use crate::checking::table::{Drawn, Ending, Table};
use crate::checking::way::{Span, Way, span_at};
use crate::op::Op;
use crate::place::Place;
use dvg_mem::Rom;
use std::alloc::Allocator;

// Returns the place that `way` leads on to at its own depth, or `None` where it leads nowhere.
fn onward(way: Way) -> Option<Place>
    ensures { result ≡ onward way }
{
    match way {
        Way::Move(next, _) | Way::Jump(next) | Way::Call(_, next) => Some(next),
        Way::Return | Way::Halt => None,
    }
}

// Returns what is drawn from an instruction with the way `way`, which leads nowhere at its own
// depth.
fn last_drawn(way: Way) -> Drawn
    requires { onward way ≡ None }
    ensures { result ≡ last_drawn way }
{
    match way {
        Way::Return => Drawn {
            words: 1,
            end: Ending::Returns,
            returns: true,
            calls: 0,
        },
        _ => Drawn {
            words: 1,
            end: Ending::Halts,
            returns: false,
            calls: 0,
        },
    }
}

// Adds `more` to the words of `rest`. What is drawn is changed where it lies: a copy of it would
// move its padding, too.
fn lengthen(rest: &mut Drawn, more: u64)
    ensures { IsLonger rest.old more rest.new }
{
    rest.words = rest.words.saturating_add(more);
}

// Returns what is drawn from a call, where `inside` is drawn from its target, and `rest` from the
// place after it.
fn called(inside: Drawn, rest: Drawn) -> Drawn
    ensures { IsCalled inside rest result }
{
    let calls = rest.calls.max(inside.calls.saturating_add(1));
    let words = inside.words.saturating_add(1);
    match inside.end {
        Ending::Halts => Drawn {
            words,
            end: Ending::Halts,
            returns: rest.returns,
            calls,
        },
        Ending::Returns => Drawn {
            words: words.saturating_add(rest.words),
            end: rest.end,
            returns: rest.returns,
            calls,
        },
    }
}

// Notes `drawn` as what is drawn from `place`, unless `table` has an entry for it, which `drawn`
// becomes then.
#[inline(always)]
fn put_drawn(table: &mut Table, place: Place, drawn: &mut Drawn)
    requires { IsPlace place }
    ensures entries { (F : List OpKind) (R : List ℕ) → IsTable F R table.old
        → IsKnown F R table.old place drawn.old → IsTable F R table.new }
    ensures kept { KeepsKnown table.old table.new }
    ensures has { Knows table.new place drawn.new }
{
    match table.at(place) {
        Some(known) => *drawn = known,
        None => table.put(place, *drawn),
    }
}

// Follows the steps at one depth from `start`, up to a place that `table` has an entry for, or from
// which nothing leads on: that one is noted. `chain` gets the places before it. Returns what is
// drawn from that place, or `None` where a pair has a fault, or the steps come to no end.
#[inline(always)]
fn follow<A: Allocator>(
    draft: &[Op],
    rom: &Rom<A>,
    table: &mut Table,
    chain: &mut Chain,
    start: Pair,
) -> Option<Drawn>
    requires rom { IsRom rom.now }
    requires begins { IsWellFormed draft.now }
    requires inside { IsPlaceOf draft.now rom.now start.place }
    requires depth { start.depth ≤ DEEPEST }
    requires reached { AllFine draft.now rom.now → ReachedPair draft.now rom.now start }
    requires room { length chain.old ≤ start.depth * LONGEST }
    requires entries { IsTable draft.now rom.now table.old }
    ensures entries { IsTable draft.now rom.now table.new }
    ensures kept { KeepsKnown table.old table.new }
    ensures room { length chain.new ≤ length chain.old + LONGEST }
    ensures followed { MatchOption result (IsRefused draft.now rom.now) (λ rest.
        HasChain draft.now rom.now table.new start.depth start.place rest chain.old chain.new) }
{
    let mut place = start.place;
    for step in 0..draft.len() + usize::from(rom.len_words()) + 1 {
        if let Some(known) = table.at(place) {
            return Some(known);
        }
        let pair = Pair {
            place,
            depth: start.depth,
        };
        let Ok(way) = look(draft, rom, pair) else {
            return None;
        };
        match onward(way) {
            Some(next) => {
                chain.push(place);
                place = next;
            }
            None => {
                let mut drawn = last_drawn(way);
                put_drawn(table, place, &mut drawn);
                return Some(drawn);
            }
        }
    }
    None // They come to no end.
}

// Finds what is drawn from the place of `start`, and from each place on the way from it. Notes it
// in `table`, and returns that of `start`. Returns `None` where a pair has a fault, or steps at one
// depth come to no end. The places of other depths stay in `chain`.
fn settle<A: Allocator>(
    draft: &[Op],
    rom: &Rom<A>,
    table: &mut Table,
    chain: &mut Chain,
    start: Pair,
) -> Option<Drawn>
    requires rom { IsRom rom.now }
    requires begins { IsWellFormed draft.now }
    requires inside { IsPlaceOf draft.now rom.now start.place }
    requires depth { start.depth ≤ DEEPEST }
    requires reached { AllFine draft.now rom.now → ReachedPair draft.now rom.now start }
    requires room { length chain.old ≤ start.depth * LONGEST }
    requires entries { IsTable draft.now rom.now table.old }
    ensures entries { IsTable draft.now rom.now table.new }
    ensures kept { KeepsKnown table.old table.new }
    ensures settled { MatchOption result (IsRefused draft.now rom.now)
        (λ drawn. Knows table.new start.place drawn × (chain.new ≡ chain.old)) }
{
    let base = chain.len();
    let mut rest = follow(draft, rom, table, chain, start)?;
    while chain.len() > base {
        let place = chain.pop();
        let Some(span) = span_at(draft, rom, place) else {
            unreachable!() // It has no fault.
        };
        match span {
            Span::Over(words) => lengthen(&mut rest, words),
            Span::Into(to) => {
                let inside = Pair {
                    place: to,
                    depth: start.depth + 1,
                };
                let known = match table.at(to) {
                    Some(known) => known,
                    None => settle(draft, rom, table, chain, inside)?,
                };
                rest = called(known, rest);
            }
        }
        put_drawn(table, place, &mut rest);
    }
    Some(rest)
}

/// Returns the number of words that the whole run of `draft` over `rom` fetches, that of word zero
/// included. Returns `None` where a reached pair has a fault, or steps at one depth come to no end.
/// `table` has nothing at first, and `chain` is emptied.
///
/// Each place is gone over once, however many depths it is reached at: what is drawn from it is the
/// same at each, and the table says at which depths no run from it breaks. So the time is linear in
/// the places that are reached. Only a loop takes longer: it is followed for as many steps as there
/// are operations and ROM words.
pub(crate) fn bound_of<A: Allocator>(
    draft: &[Op],
    rom: &Rom<A>,
    table: &mut Table,
    chain: &mut Chain,
) -> Option<u64>
    requires rom { IsRom rom.now }
    requires begins { IsWellFormed draft.now }
    requires none { HasNone table.old }
    ensures { MatchOption result (IsRefused draft.now rom.now)
        (λ n. Accepts draft.now rom.now × IsBound draft.now rom.now n × (n < 2 ^ 63)) }
{
    chain.clear();
    let first = settle(draft, rom, table, chain, FIRST)?;
    if first.returns || first.calls > DEEPEST {
        return None;
    }
    Some(first.words + 1)
}
