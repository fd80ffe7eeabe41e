//! A call of a driver that may sleep.

ghost use Rattle.std.specs.Prelude.{IfOk};
ghost use Rattle.clk_base.specs.declared.event.Event.TheVariants.{Begin};
ghost use Rattle.driver_threads.specs.Going.{MayBegin, IsSame, AnswersCall};

use clk_base::{Pause, Reply, Sleeping};
use clk_framework::{Driver, Framework};
use clk_io::NoMemory;
use reg_bank::Bank;
use std::sync::Wait;
use tier_lock::Named;

/// Makes a sleeping call whole. Where memory runs out, none is made.
pub(crate) fn make_sleeping<B: Bank, N: Named, R: Wait + Sync, Q: Pause>(
    rt: &R,
    framework: &Framework<B, N>,
    driver: &mut Driver<B>,
    what: &Sleeping,
    pause: &Q,
) -> Result<Reply, NoMemory>
    requires { MayBegin N.table driver.old what.now }
    ensures ok { IfOk result (λ reply. AnswersCall driver.old (Begin what.now) reply driver.new) }
    ensures same { IsSame driver.old driver.new }
{
    framework.call(rt, driver, what, pause)
}
