//! Running the commands of boot, one after the other.

ghost use Rattle.std.specs.Prelude.{◌≡◌, ◌+◌, ◌≤◌, false, length, IfOk};
ghost use Rattle.clk_model.specs.Journal.{cost};
ghost use Rattle.clk_model.specs.Follows.{Variables, no_handles};
ghost use Rattle.drv_scripts.specs.Placed.{NamePlaces};
ghost use Rattle.driver_runs.specs.Scripts.{GoesThrough, HasGoneOn};
ghost use Rattle.clk_machine.specs.Run.{in_flight};

use crate::command::run_command;
use crate::variables::variable_count;
use clk_base::{Answer, Command};
use clk_io::NoMemory;
use clk_machine::Core;
use reg_bank::Bank;
use std::alloc::Global;

/// Runs the commands of boot: registers the clocks that it names, each in its turn, and then does
/// what is assigned. Its variables hold nothing at first.
pub(crate) fn run_boot<B: Bank>(
    alloc: Global,
    core: &mut Core<B>,
    commands: &[Command],
) -> Result<Vec<Answer>, NoMemory>
    requires credits { cost core.old.journal + length commands.now ≤ core.old.start.credits }
    requires quiet { in_flight core.old.journal ≡ false }
    requires placed { NamePlaces (length core.old.start.defs) commands.now }
    ensures ok { IfOk result (λ answers. (held : Variables) × GoesThrough core.old 0 (no_handles commands.now) commands.now answers.items held core.new) }
    ensures on { HasGoneOn core.old core.new }
{
    let mut variables = vec![in alloc; None; variable_count(commands)]?;
    let held = variables.as_mut_slice();
    let mut answers = Vec::new(alloc);
    for command in commands {
        let answer = run_command(core, 0, held, command)?;
        answers.push(answer)?;
    }
    Ok(answers)
}
