//! The holders of one kind that each clock has of its own, and the counts over them.

ghost use Rattle.std.specs.Prelude.{◌≡◌, ℕ, ◌+◌, ◌-◌, ◌<◌, ◌≤◌, Some, length, replicate, slice_index, slice_set, IfOk};
ghost use Rattle.counts_core.specs.Sums.{up_in, AreSums, Begins};

use crate::walk::{lower, raise};
use clk_base::ClockId;
use clk_io::NoMemory;
use std::alloc::Global;

/// What each clock has of its own, and its count.
#[derive(Drop)]
pub(crate) struct Tally {
    pub own: Vec<u32>,
    pub counts: Vec<u32>,
}

impl Tally {
    /// Nobody holds any of so many clocks.
    pub(crate) fn empty(alloc: Global, clocks: usize) -> Result<Tally, NoMemory>
        ensures own { IfOk result (λ t. t.own.items ≡ replicate clocks 0) }
        ensures counts { IfOk result (λ t. t.counts.items ≡ replicate clocks 0) }
    {
        let own = vec![in alloc; 0u32; clocks]?;
        let counts = vec![in alloc; 0u32; clocks]?;
        Ok(Tally { own, counts })
    }

    /// One holder of a clock more. Tells how many clocks of its path begin to count.
    pub(crate) fn add(&mut self, links: &[Option<ClockId>], clock: ClockId) -> usize
        requires few { length links.now ≤ 4096 }
        requires place { clock.0 < length links.now }
        requires inside { (d p : ℕ) → up_in links.now d ≡ Some p → p < length links.now }
        requires sums { AreSums links.now self.old.own.items self.old.counts.items }
        requires room { (d : ℕ) → slice_index self.old.own.items d ≤ 536870912 }
        ensures sums { AreSums links.now self.new.own.items self.new.counts.items }
        ensures own { self.new.own.items ≡ slice_set self.old.own.items clock.0 (slice_index self.old.own.items clock.0 + 1) }
        ensures begins { Begins links.now self.old.counts.items self.new.counts.items clock.0 result }
    {
        self.own[clock.0 as usize] += 1;
        raise(links, &mut self.counts, clock)
    }

    /// One holder of a clock less. Tells how many clocks of its path no longer count.
    pub(crate) fn take(&mut self, links: &[Option<ClockId>], clock: ClockId) -> usize
        requires few { length links.now ≤ 4096 }
        requires place { clock.0 < length links.now }
        requires inside { (d p : ℕ) → up_in links.now d ≡ Some p → p < length links.now }
        requires sums { AreSums links.now self.old.own.items self.old.counts.items }
        requires held { 0 < slice_index self.old.own.items clock.0 }
        ensures sums { AreSums links.now self.new.own.items self.new.counts.items }
        ensures own { self.new.own.items ≡ slice_set self.old.own.items clock.0 (slice_index self.old.own.items clock.0 - 1) }
        ensures stops { Begins links.now self.new.counts.items self.old.counts.items clock.0 result }
    {
        self.own[clock.0 as usize] -= 1;
        lower(links, &mut self.counts, clock)
    }
}
