//! Running boot, and then the drivers.

ghost use Rattle.std.specs.Prelude.{◌≡◌, ◌≤◌, ◌<◌, ◌+◌, ◌∷◌, [], length, map, sum_by, IfOk, OnErr};
ghost use Rattle.std.specs.List.{AllByRecursion};
ghost use Rattle.drv_scripts.specs.Placed.{IsScript, NamePlaces};
ghost use Rattle.driver_runs.specs.Moves.{AreNew};
ghost use Rattle.driver_runs.specs.Scripts.{HasGoneOn};
ghost use Rattle.driver_runs.specs.Turns.{HasRun};

use crate::boot::run_boot;
use crate::standing::Standing;
use crate::turns::{follow_order, run_rest};
use clk_base::{Answer, Command};
use clk_io::NoMemory;
use clk_machine::Core;
use drv_scripts::{Listed, Script};
use reg_bank::Bank;
use std::alloc::Global;

// The drivers, which have answered no command but those that are skipped at once.
fn begin_all(alloc: Global, drivers: &[Script]) -> Result<Vec<Standing>, NoMemory>
    ensures { IfOk result (λ standings. AreNew drivers.now standings.items) }
{
    let mut standings = Vec::new(alloc);
    for script in drivers {
        standings.push(Standing::new(alloc, script.commands.as_slice())?)?;
    }
    Ok(standings)
}

// The answers of boot and then of each driver.
fn gather(
    alloc: Global,
    first: Vec<Answer>,
    standings: Vec<Standing>,
) -> Result<Vec<Listed<Answer>>, NoMemory>
    ensures { IfOk result (λ answers. answers.items ≡ first.items ∷ map (λ x. x.answers.items) standings.items) }
{
    let mut answers = Vec::new(alloc);
    answers.push(Listed::new(first))?;
    for standing in standings {
        answers.push(Listed::new(standing.into_answers()))?;
    }
    Ok(answers)
}

/// Runs the commands of boot, and then makes the events of the drivers, one after another: each number
/// of the order gives its driver an event, if it can make one; behind the order the lowest numbered
/// driver that can make one does, until all have answered all their commands. The answers are those
/// of boot and then those of each driver. The one error is want of memory.
pub fn run_scripts<B: Bank>(
    alloc: Global,
    core: &mut Core<B>,
    boot: &[Command],
    drivers: &[Script],
    order: &[u32],
) -> Result<Vec<Listed<Answer>>, NoMemory>
    // Nothing has happened in the core.
    requires begins { core.old.journal ≡ [] }
    // A credit is left for each command.
    requires credits { length boot.now + sum_by (λ s. length s.commands) drivers.now ≤ core.old.start.credits }
    // The commands of boot name clocks of the description.
    requires boot { NamePlaces (length core.old.start.defs) boot.now }
    // There are at most 65,536 drivers.
    requires few { length drivers.now ≤ 65536 }
    // The commands of each driver do so too.
    requires placed { AllByRecursion (IsScript (length core.old.start.defs)) drivers.now }
    // Drivers are numbered from 1.
    requires turns { AllByRecursion (λ d. 0 < d) order.now }
    // Boot and each driver, and nobody else, have their calls once, in their order, one after the other, answered so; boot's entries come first, and behind them
    // each is of the driver that the commands and the order name. The journal is legal where the bank tells its words, and no call is in flight behind it.
    ensures ok { IfOk result (λ answers. HasRun boot.now drivers.now order.now answers.items core.old core.new) }
    // Where memory runs out, the core has gone on from its opening, over the same bank: entries were appended, or none.
    ensures err { OnErr result (HasGoneOn core.old core.new) }
{
    let first = run_boot(alloc, core, boot)?;
    let mut standings = begin_all(alloc, drivers)?;
    let going = follow_order(core, drivers, standings.as_mut_slice(), order)?;
    run_rest(core, drivers, standings.as_mut_slice(), going)?;
    gather(alloc, first, standings)
}
