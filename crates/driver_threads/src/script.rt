//! Running the commands of a driver, one after the other.

ghost use Rattle.std.specs.Prelude.{IfOk};
ghost use Rattle.clk_model.specs.Follows.{Variables, no_handles};
ghost use Rattle.driver_threads.specs.Going.{MayRun, IsSame, GoesThrough};

use crate::command::run_command;
use clk_base::{Answer, Command, Pause};
use clk_framework::{Driver, Framework};
use clk_io::NoMemory;
use driver_runs::variable_count;
use reg_bank::Bank;
use std::alloc::Global;
use std::sync::Wait;
use tier_lock::Named;

/// Runs the commands of a driver, or those of boot. Its variables hold nothing at first.
pub(crate) fn run_script<B: Bank, N: Named, R: Wait + Sync, Q: Pause>(
    rt: &R,
    alloc: Global,
    framework: &Framework<B, N>,
    driver: &mut Driver<B>,
    commands: &[Command],
    pause: &Q,
) -> Result<Vec<Answer>, NoMemory>
    requires { MayRun N.table driver.old commands.now }
    ensures goes { IfOk result (λ answers. (held : Variables) × GoesThrough driver.old (no_handles commands.now) commands.now answers.items held driver.new) }
    ensures same { IsSame driver.old driver.new }
{
    let mut variables = vec![in alloc; None; variable_count(commands)]?;
    let held = variables.as_mut_slice();
    let mut answers = Vec::new(alloc);
    for command in commands {
        let answer = run_command(rt, framework, driver, held, command, pause)?;
        answers.push(answer)?;
    }
    Ok(answers)
}
