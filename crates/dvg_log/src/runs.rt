//! Runs of equal events in a trace. Others call this a run-length encoding.
ghost use Rattle.std.specs.Prelude.{◌≡◌, length, map};
ghost use Rattle.dvg_frame.specs.Ops.{IsOp};
ghost use Rattle.dvg_log.specs.Traces.{BringsDraft, all_events, ops_in, seen_as, step_event};
ghost use Rattle.dvg_log.specs.own.Kept.{AreRuns, IsOfferIn, IsWithin};
ghost use Rattle.std.specs.Prelude.{All};

use crate::event::{Event, TraceEvent};
use dvg_frame::Op;
use dvg_mem::Image;
use std::alloc::{Allocator, Global};
use std::marker::Model;

/// An event of a trace: an offer has its number among all offers, and a reset of the whole system
/// that of its image among all.
pub(crate) type Step = Event<u16, u16>;

/// An event of a trace, `times` times in a row, in six bytes.
#[derive(Clone, Copy)]
pub(crate) struct Run {
    pub(crate) step: Step,
    pub(crate) times: u16,
}

/// An iterator over the events of a trace, as runs of equal ones: an event, and how many times in a
/// row it comes. The operations of an offer are those of a draft.
#[derive(Drop)]
pub struct Runs<'a, A: Allocator = Global> {
    runs: &'a [Run],
    offers: &'a [(u32, u16)],
    ops: &'a [Op],
    images: &'a [Image<A>],
}

/// Contracts see the list of the events that are still to come.
impl<'a, A: Allocator> Model for Runs<'a, A> {
    ghost use Rattle.std.specs.Prelude.{List, map};
    ghost use Rattle.dvg_log.specs.Events.{Happening};
    ghost use Rattle.dvg_log.specs.Traces.{all_events, ops_in};
    ghost use Rattle.dvg_log.specs.own.Kept.{AreRuns};

    ghost Value = { List Happening };

    ghost view = { λ left. all_events left.runs.now
        (map (ops_in left.ops.now) left.offers.now) left.images.now };

    ghost invariant = { λ left. AreRuns left.runs.now left.offers.now left.ops.now
        left.images.now };
}

impl<'a, A: Allocator> Runs<'a, A> {
    // Returns an iterator over the events of `runs`. `offers`, `ops` and `images` are the lists
    // that a trace keeps beside them.
    pub(crate) fn of(
        runs: &'a [Run],
        offers: &'a [(u32, u16)],
        ops: &'a [Op],
        images: &'a [Image<A>],
    ) -> Runs<'a, A>
        requires { AreRuns runs.now offers.now ops.now images.now }
        ensures { result ≡ all_events runs.now (map (ops_in ops.now) offers.now) images.now }
    {
        Runs {
            runs,
            offers,
            ops,
            images,
        }
    }
}

impl<'a, A: Allocator> Iterator for Runs<'a, A> {
    ghost use Rattle.std.specs.Prelude.{length};
    ghost use Rattle.std.specs.Iterator.{at_most};
    ghost use Rattle.dvg_log.specs.Traces.{NextRun};

    type Item = (TraceEvent<'a, A>, usize);

    ghost next_gives = { NextRun };

    ghost remaining = { λ left. at_most (length left) };

    #[inline(always)]
    fn next(&mut self) -> Option<(TraceEvent<'a, A>, usize)> {
        let runs = self.runs;
        if runs.is_empty() {
            return None;
        }
        let run = runs[0];
        self.runs = &runs[1..];
        let event = event_of(self.offers, self.ops, self.images, run.step);
        Some((event, usize::from(run.times)))
    }
}

// Returns the event of `step`, by the lists `offers`, `ops` and `images` of its trace.
#[inline(always)]
fn event_of<'a, A: Allocator>(
    offers: &'a [(u32, u16)],
    ops: &'a [Op],
    images: &'a [Image<A>],
    step: Step,
) -> TraceEvent<'a, A>
    requires valid { All IsOp ops.now }
    requires lie { All (IsOfferIn ops.now) offers.now }
    requires within { IsWithin (length offers.now) (length images.now) step }
    ensures value { seen_as result
        ≡ step_event (map (ops_in ops.now) offers.now) images.now step }
    ensures draft { BringsDraft result }
{
    match step {
        Step::Offer(offer) => {
            let (first, count) = offers[usize::from(offer)];
            let first = first as usize;
            TraceEvent::Offer(&ops[first..first + usize::from(count)])
        }
        Step::Redraw => TraceEvent::Redraw,
        Step::Tick => TraceEvent::Tick,
        Step::Strobe => TraceEvent::Strobe,
        Step::Fetch => TraceEvent::Fetch,
        Step::ResetGen => TraceEvent::ResetGen,
        Step::ResetCpu => TraceEvent::ResetCpu,
        Step::ResetAll(image) => TraceEvent::ResetAll(&images[usize::from(image)]),
    }
}
