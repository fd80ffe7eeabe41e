//! The call of one command.

ghost use Rattle.std.specs.Prelude.{◌≡◌, ◌<◌, false, [], ◌∷◌, length, IfOk, OnErr};
ghost use Rattle.clk_model.specs.Journal.{cost};
ghost use Rattle.clk_machine.specs.Run.{in_flight};
ghost use Rattle.drv_scripts.specs.Placed.{NamesPlace};
ghost use Rattle.driver_runs.specs.Scripts.{MakesCall, GoesThrough};

use crate::called::{Called, call_of};
use crate::calling::make_sleeping;
use crate::variables::{handle_of, keep_reply};
use clk_base::{Act, Answer, Command, Handle, Reply};
use clk_io::NoMemory;
use clk_machine::Core;
use reg_bank::Bank;

/// Makes the call of a driver's command, where its variable holds this handle or none. A command
/// that lacks what it needs makes no call.
pub(crate) fn make_call<B: Bank>(
    core: &mut Core<B>,
    driver: u32,
    held: Option<Handle>,
    act: Act,
) -> Result<Option<Reply>, NoMemory>
    requires credit { cost core.old.journal < core.old.start.credits }
    requires quiet { in_flight core.old.journal ≡ false }
    requires place { NamesPlace (length core.old.start.defs) act }
    ensures ok { IfOk result (λ reply. MakesCall core.old driver held act reply core.new) }
    ensures err { OnErr result (core.new ≡ core.old) }
{
    let Some(called) = call_of(held, act) else {
        return Ok(None);
    };
    let reply = match called {
        Called::Sleeping(what) => make_sleeping(core, driver, &what)?,
        Called::Enable(handle) => core.enable(driver, handle),
        Called::Disable(handle) => core.disable(driver, handle),
        Called::Running(handle) => core.running(driver, handle),
    };
    Ok(Some(reply))
}

/// Runs one command of a driver.
pub(crate) fn run_command<B: Bank>(
    core: &mut Core<B>,
    driver: u32,
    held: &mut [Option<Handle>],
    command: &Command,
) -> Result<Answer, NoMemory>
    requires credit { cost core.old.journal < core.old.start.credits }
    requires quiet { in_flight core.old.journal ≡ false }
    requires place { NamesPlace (length core.old.start.defs) command.now.act }
    ensures ok { IfOk result (λ answer. GoesThrough core.old driver held.old (command.now ∷ []) (answer ∷ []) held.new core.new) }
    ensures err { OnErr result (core.new ≡ core.old) }
{
    let before = handle_of(held, command);
    match make_call(core, driver, before, command.act)? {
        Some(reply) => {
            keep_reply(held, command, reply);
            Ok(Answer::Reply(reply))
        }
        None => Ok(Answer::Skip),
    }
}
