//! A call of a driver, from its beginning to its answer.

ghost use Rattle.std.specs.Prelude.{◌≡◌, ◌<◌, true, false, IfOk, OnErr};
ghost use Rattle.clk_model.specs.Journal.{cost};
ghost use Rattle.clk_base.specs.declared.event.Event.TheVariants.{Begin};
ghost use Rattle.clk_machine.specs.Sound.{IsPlaced};
ghost use Rattle.clk_machine.specs.Run.{in_flight, driver_in_flight};
ghost use Rattle.driver_runs.specs.Scripts.{Answers};
ghost use Rattle.driver_runs.specs.Steps.{Finishes};

use clk_base::{Reply, Sleeping, Turn};
use clk_io::NoMemory;
use clk_machine::Core;
use reg_bank::Bank;

// Makes the steps of the call in flight until it is answered.
fn finish<B: Bank>(core: &mut Core<B>) -> Reply
    requires { in_flight core.old.journal ≡ true }
    ensures { Finishes core.old (driver_in_flight core.old.journal) result core.new }
{
    'steps: loop {
        if let Turn::Done(reply) = core.step() {
            return reply;
        }
    }
}

/// Begins a call of a driver, and makes its steps until it is answered.
pub(crate) fn make_sleeping<B: Bank>(
    core: &mut Core<B>,
    driver: u32,
    what: &Sleeping,
) -> Result<Reply, NoMemory>
    requires credit { cost core.old.journal < core.old.start.credits }
    requires quiet { in_flight core.old.journal ≡ false }
    requires place { IsPlaced core.old.start.defs what.now }
    ensures ok { IfOk result (λ reply. Answers core.old driver (Begin what.now) reply core.new) }
    ensures err { OnErr result (core.new ≡ core.old) }
{
    match core.begin(driver, what)? {
        Turn::Done(reply) => Ok(reply),
        Turn::Going => Ok(finish(core)),
    }
}
