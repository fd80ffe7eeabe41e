//! What is kept of a change of rate besides its flight.

ghost use Rattle.std.specs.Prelude.{◌≡◌, ◌<◌, [], Some, length, slice_get, if◌then◌else◌};
ghost use Rattle.clk_tree.specs.Plans.{chain_of};
ghost use Rattle.core_parts.specs.Course.{planned_along, behind_first};

use change_walk::Changed;
use clk_base::ClockId;
use clk_tree::{ChainStep, PlannedChain, step_at};
use std::alloc::Global;
use std::marker::Model;
use std::mem::swap;

/// The planned chain of a change of rate, and the clocks with notifiers that it still visits. To
/// contracts it is a `CourseState`. No call takes memory.
#[derive(Drop)]
pub struct Course {
    chain: PlannedChain,
    notified: Vec<Changed>,
    /// How many of them were visited.
    at: usize,
}

impl Model for Course {
    ghost use Rattle.std.specs.Prelude.{◌≤◌, drop, length};
    ghost use Rattle.core_parts.specs.Course.{CourseState};

    ghost Value = { CourseState };

    ghost view = { λ c. record { chain = c.chain; notified = drop c.at c.notified.items } };

    ghost invariant = { λ c. c.at ≤ length c.notified.items };
}

// The planned rate in Hz of a clock of a chain.
fn planned_in(steps: &[ChainStep], clock: ClockId) -> Option<u64>
    ensures { result ≡ planned_along (chain_of steps.now) clock.0 }
{
    for place in 0..steps.len() {
        let step = step_at(steps, place);
        if step.clock.0 == clock.0 {
            return Some(step.rate);
        }
    }
    None
}

impl Course {
    /// No chain, and no clock.
    pub fn none(alloc: Global) -> Course
        ensures chain { result.chain ≡ [] }
        ensures notified { result.notified ≡ [] }
    {
        Course {
            chain: PlannedChain::none(alloc),
            notified: Vec::new(alloc),
            at: 0,
        }
    }

    /// From now on this chain and these clocks, of which none was visited. Their lists change places
    /// with those before.
    pub fn begin(&mut self, chain: &mut PlannedChain, notified: &mut Vec<Changed>)
        ensures chain { self.new.chain ≡ chain.old }
        ensures notified { self.new.notified ≡ notified.old.items }
    {
        swap(&mut self.chain, chain);
        swap(&mut self.notified, notified);
        self.at = 0;
    }

    /// The planned rate in Hz of a clock, if it is one of the chain.
    pub fn planned(&self, clock: ClockId) -> Option<u64>
        ensures { result ≡ planned_along self.now.chain clock.0 }
    {
        planned_in(self.chain.as_slice(), clock)
    }

    /// The clock with notifiers that is visited next.
    pub fn first(&self) -> Option<Changed>
        ensures { result ≡ slice_get self.now.notified 0 }
    {
        self.notified.get(self.at).copied()
    }

    // The clock with notifiers that is visited next is visited.
    fn skip(&mut self)
        ensures chain { self.new.chain ≡ self.old.chain }
        ensures notified { self.new.notified ≡ behind_first self.old.notified }
    {
        if self.at < self.notified.len() {
            self.at += 1;
        }
    }

    /// A clock is visited, which has notifiers or none.
    pub fn pass(&mut self, told: bool)
        ensures chain { self.new.chain ≡ self.old.chain }
        ensures notified { self.new.notified ≡ (if told then behind_first self.old.notified else self.old.notified) }
    {
        if told {
            self.skip();
        }
    }
}
