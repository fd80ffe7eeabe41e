//! Who makes the calls of a command.

ghost use Rattle.std.specs.Prelude.{◌≡◌, ℕ, ◌<◌, ◌≤◌, ◌+◌, IfOk, OnErr};
ghost use Rattle.std.specs.Thread.{IsSync};
ghost use Rattle.clk_base.specs.declared.event.Reply.{Reply};
ghost use Rattle.clk_phase.specs.declared.bulk_call.BulkStep.{BulkStep};
ghost use Rattle.clk_phase.specs.declared.bulk_call.BulkStep.TheVariants as step;
ghost use Rattle.clk_phase.specs.Going.{IsPlacedCall};

use clk_base::{Handle, Reply, Sleeping};
use clk_io::NoMemory;
use std::sync::Wait;

/// One driver, with its own calls and its credits.
pub trait Consumer {
    // How many calls it may still make, and how many clocks there are.
    ghost credits: { Self → ℕ };

    ghost clocks: { Self → ℕ };
    // From the first to the second one call was made, and answered so.
    ghost makes: { Self → BulkStep → Reply → Self → Type 0 };
    // From the first to the second a call ran out of memory.
    ghost fails: { Self → Self → Type 0 };

    fn enable<R: Wait + Sync>(&mut self, rt: &R, handle: Handle) -> Reply
        requires { 0 < credits self.old }
        ensures makes { makes self.old (step.Enable handle) result self.new }
        ensures credits { credits self.old ≤ credits self.new + 1 }
        ensures clocks { clocks self.new ≡ clocks self.old };

    fn disable<R: Wait + Sync>(&mut self, rt: &R, handle: Handle) -> Reply
        requires { 0 < credits self.old }
        ensures makes { makes self.old (step.Disable handle) result self.new }
        ensures credits { credits self.old ≤ credits self.new + 1 }
        ensures clocks { clocks self.new ≡ clocks self.old };

    /// The one error is that memory runs out.
    fn call<R: Wait + Sync>(&mut self, rt: &R, what: &Sleeping) -> Result<Reply, NoMemory>
        // A method of a trait doesn't hand on the bound Sync.
        requires sync { IsSync R.row }
        requires credit { 0 < credits self.old }
        // The clocks of the call are among those that there are.
        requires place { IsPlacedCall (clocks self.old) what.now }
        ensures makes { IfOk result (λ r. makes self.old (step.Call what.now) r self.new) }
        ensures fails { OnErr result (fails self.old self.new) }
        ensures credits { credits self.old ≤ credits self.new + 1 }
        ensures clocks { clocks self.new ≡ clocks self.old };
}
