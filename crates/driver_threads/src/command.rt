//! The call of one command.

ghost use Rattle.std.specs.Prelude.{[], ◌∷◌, IfOk};
ghost use Rattle.driver_threads.specs.Going.{MayCall, IsSame, MakesCall, GoesThrough};

use crate::calling::make_sleeping;
use clk_base::{Act, Answer, Command, Handle, Pause, Reply};
use clk_framework::{Driver, Framework};
use clk_io::NoMemory;
use driver_runs::{Called, call_of, handle_of, keep_reply};
use reg_bank::Bank;
use std::sync::Wait;
use tier_lock::Named;

// Makes the call of a driver's command, where its variable holds this handle or none. A command that
// lacks what it needs makes no call.
fn make_call<B: Bank, N: Named, R: Wait + Sync, Q: Pause>(
    rt: &R,
    framework: &Framework<B, N>,
    driver: &mut Driver<B>,
    held: Option<Handle>,
    act: Act,
    pause: &Q,
) -> Result<Option<Reply>, NoMemory>
    requires { MayCall N.table driver.old act }
    ensures ok { IfOk result (λ reply. MakesCall driver.old held act reply driver.new) }
    ensures same { IsSame driver.old driver.new }
{
    let Some(called) = call_of(held, act) else {
        return Ok(None);
    };
    match called {
        Called::Sleeping(what) => {
            let reply = make_sleeping(rt, framework, driver, &what, pause)?;
            Ok(Some(reply))
        }
        Called::Enable(handle) => Ok(Some(framework.enable(rt, driver, handle))),
        Called::Disable(handle) => Ok(Some(framework.disable(rt, driver, handle))),
        Called::Running(handle) => Ok(Some(framework.running(rt, driver, handle))),
    }
}

/// Runs one command of a driver.
pub(crate) fn run_command<B: Bank, N: Named, R: Wait + Sync, Q: Pause>(
    rt: &R,
    framework: &Framework<B, N>,
    driver: &mut Driver<B>,
    held: &mut [Option<Handle>],
    command: &Command,
    pause: &Q,
) -> Result<Answer, NoMemory>
    requires { MayCall N.table driver.old command.now.act }
    ensures goes { IfOk result (λ answer. GoesThrough driver.old held.old (command.now ∷ []) (answer ∷ []) held.new driver.new) }
    ensures same { IsSame driver.old driver.new }
{
    let before = handle_of(held, command);
    match make_call(rt, framework, driver, before, command.act, pause)? {
        Some(reply) => {
            keep_reply(held, command, reply);
            Ok(Answer::Reply(reply))
        }
        None => Ok(Answer::Skip),
    }
}
