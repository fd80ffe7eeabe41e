//! What is held for a change in flight.

ghost use Rattle.std.specs.Prelude.{◌≡◌, ◌+◌, ◌-◌, ◌<◌, length, replicate, slice_index, slice_set, IfOk};

use clk_base::ClockId;
use clk_io::NoMemory;
use std::alloc::Global;
use std::marker::Model;

/// How often each clock is held for the change in flight. To contracts it is the list of these
/// counts. No call but `create` takes memory.
#[derive(Drop)]
pub struct Held {
    times: Vec<u32>,
}

impl Model for Held {
    ghost use Rattle.std.specs.Prelude.{ℕ, List};

    ghost Value = { List ℕ };

    ghost view = { λ h. h.times.items };
}

impl Held {
    /// No hold on any of so many clocks. Its one refusal is that memory
    /// runs out.
    pub fn create(alloc: Global, clocks: usize) -> Result<Held, NoMemory>
        ensures { IfOk result (λ made. made ≡ replicate clocks 0) }
    {
        let times = vec![in alloc; 0u32; clocks]?;
        Ok(Held { times })
    }

    /// How often a clock is held.
    pub fn times(&self, clock: ClockId) -> u32
        requires { clock.0 < length self.now }
        ensures { result ≡ slice_index self.now clock.0 }
    {
        self.times[clock.0 as usize]
    }

    /// A clock is held once more.
    pub fn add(&mut self, clock: ClockId)
        requires place { clock.0 < length self.old }
        requires room { slice_index self.old clock.0 < 8388608 }
        ensures { self.new ≡ slice_set self.old clock.0 (slice_index self.old clock.0 + 1) }
    {
        self.times[clock.0 as usize] += 1;
    }

    /// A clock is held once less.
    pub fn drop_one(&mut self, clock: ClockId)
        requires place { clock.0 < length self.old }
        requires held { 0 < slice_index self.old clock.0 }
        ensures { self.new ≡ slice_set self.old clock.0 (slice_index self.old clock.0 - 1) }
    {
        self.times[clock.0 as usize] -= 1;
    }
}
