//! A script and the place at which it stands.

ghost use Rattle.std.specs.Prelude.{◌≡◌, ◌≤◌, ◌^◌, [], slice_get, sum_by, IfSome, IfNone};
ghost use Rattle.std.specs.Option.{option_map};
ghost use Rattle.clk_model.specs.Step.{cut_short, missed_by, rest_of};
ghost use Rattle.clk_flight.specs.Kept.{room_for};

use crate::cut::{Remainder, cut, keeps_visit, lets, missed};
use clk_base::{ClockId, Micro, Sleeping};
use std::alloc::Global;
use std::marker::Model;
use std::mem::replace;

/// The steps of a call. To contracts it is the whole list, and what is left of it. No call takes
/// memory.
#[derive(Drop)]
pub(crate) struct Script {
    steps: Vec<Micro>,
    at: usize,
    // The clock of a visit that comes next by itself: a timeout has dropped what keeps a clock running
    // for it.
    alone: Option<ClockId>,
}

impl Model for Script {
    ghost use Rattle.std.specs.Prelude.{◌≤◌, ◌++◌, drop, length};
    ghost use Rattle.clk_flight.specs.Parts.{ScriptState, visit_alone};

    ghost Value = { ScriptState };

    ghost view = { λ s. record { whole = s.steps.items; left = visit_alone s.alone ++ drop s.at s.steps.items } };

    ghost invariant = { λ s. s.at ≤ length s.steps.items };
}

// How many PLLs the raises among these steps may raise, where a line has so many; none where they
// are more than a `usize` can count.
pub(crate) fn room_for(steps: &[Micro], plls: u32) -> Option<usize>
    ensures room { IfSome result (λ room. room ≡ sum_by (room_for plls) steps.now) }
    ensures none { IfNone result (2 ^ 64 ≤ sum_by (room_for plls) steps.now) }
{
    let mut room: usize = 0;
    for step in steps {
        if let Micro::Raise(_) = step {
            room = room.checked_add(plls as usize)?;
        }
    }
    Some(room)
}

impl Script {
    /// No step.
    pub(crate) fn new(alloc: Global) -> Script
        ensures left { result.left ≡ [] }
        ensures whole { result.whole ≡ [] }
    {
        Script {
            steps: Vec::new(alloc),
            at: 0,
            alone: None,
        }
    }

    /// From now on these steps, of which none was made. The list of those before is given back.
    pub(crate) fn begin(&mut self, steps: Vec<Micro>) -> Vec<Micro>
        ensures left { self.new.left ≡ steps.items }
        ensures whole { self.new.whole ≡ steps.items }
    {
        self.at = 0;
        self.alone = None;
        replace(&mut self.steps, steps)
    }

    /// The step that comes next.
    pub(crate) fn first(&self) -> Option<Micro>
        ensures { result ≡ slice_get self.now.left 0 }
    {
        if let Some(clock) = self.alone {
            return Some(Micro::Visit(clock));
        }
        self.steps.get(self.at).copied()
    }

    /// The step at a place of the whole script.
    pub(crate) fn at_place(&self, place: usize) -> Option<Micro>
        ensures { result ≡ slice_get self.now.whole place }
    {
        self.steps.get(place).copied()
    }

    /// The step that comes next is made.
    pub(crate) fn take(&mut self)
        ensures left { self.new.left ≡ rest_of self.old.left }
        ensures whole { self.new.whole ≡ self.old.whole }
    {
        match self.alone {
            Some(_) => self.alone = None,
            None => {
                if self.at < self.steps.len() {
                    self.at += 1;
                }
            }
        }
    }

    /// The call has timed out. Answers the clock that isn't set now, if there is one: its visit comes
    /// all the same.
    pub(crate) fn cut(&mut self, call: Sleeping) -> Option<ClockId>
        ensures left { self.new.left ≡ cut_short call self.old.left }
        ensures whole { self.new.whole ≡ self.old.whole }
        ensures missed { option_map (λ c. c.0) result ≡ missed_by call self.old.left }
    {
        if self.alone.is_some() && keeps_visit(call) {
            self.at += lets(&self.steps[self.at..]);
        } else {
            let Remainder { alone, dropped } = cut(call, &self.steps[self.at..]);
            self.alone = alone;
            self.at += dropped;
        }
        missed(call, self.alone)
    }

    /// Nothing is left.
    pub(crate) fn finish(&mut self)
        ensures left { self.new.left ≡ [] }
        ensures whole { self.new.whole ≡ self.old.whole }
    {
        self.at = self.steps.len();
        self.alone = None;
    }
}
