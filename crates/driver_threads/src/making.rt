//! Driver 0 makes a driver for each script.

ghost use Rattle.std.specs.Prelude.{◌≡◌, All, length, map, IfOk, OnOk};
ghost use Rattle.driver_threads.specs.Going.{MayRun};
ghost use Rattle.driver_threads.specs.Workers.{MayMake, HasMade, newcomers};

use crate::worker::Worker;
use clk_framework::{Driver, Framework};
use clk_io::NoMemory;
use drv_scripts::Script;
use reg_bank::Bank;
use std::alloc::Global;
use tier_lock::Named;

/// A driver for each script, with a credit for each of its commands.
pub(crate) fn make_workers<'s, B: Bank, N: Named>(
    alloc: Global,
    framework: &Framework<B, N>,
    first: &mut Driver<B>,
    scripts: &'s [Script],
) -> Result<Vec<Worker<'s, B>>, NoMemory>
    requires { MayMake N.table first.old scripts.now }
    ensures made { OnOk result (HasMade first.old (length scripts.now) first.new) }
    ensures may { IfOk result (λ workers. All (λ w. MayRun N.table w.driver w.commands.now) workers.items) }
    ensures scripts { IfOk result (λ workers. map (λ w. w.commands.now) workers.items ≡ map (λ s. s.commands) scripts.now) }
    ensures drivers { IfOk result (λ workers. map (λ w. w.driver) workers.items ≡ newcomers first.old first.old.made (map (λ s. s.commands) scripts.now)) }
{
    let mut workers = Vec::new(alloc);
    for script in scripts {
        let commands = script.commands.as_slice();
        let driver = framework.driver(first, commands.len() as u32);
        workers.push(Worker::new(driver, commands))?;
    }
    Ok(workers)
}
