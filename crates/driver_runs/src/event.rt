//! An event of a driver: a step of its call in flight, or its next command.

ghost use Rattle.std.specs.Prelude.{◌≡◌, ◌||◌, None, if◌then◌else◌, IfOk, OnErr};
ghost use Rattle.clk_model.specs.Lists.{is_at};
ghost use Rattle.clk_model.specs.Ordered.{is_atomic, can_take};
ghost use Rattle.driver_runs.specs.Standing.{left_of};
ghost use Rattle.driver_runs.specs.Scripts.{HasGoneOn};
ghost use Rattle.driver_runs.specs.Events.{MayEnter, Enters, MayMove, MakesEvent};

use crate::called::{Called, call_of};
use crate::standing::Standing;
use crate::variables::handle_of;
use clk_base::{Act, Command, Handle, Turn};
use clk_io::NoMemory;
use clk_machine::Core;
use reg_bank::Bank;

// Whether an act never sleeps.
fn is_atomic(act: Act) -> bool
    ensures { result ≡ is_atomic act }
{
    match act {
        Act::Enable | Act::Disable | Act::Running => true,
        _ => false,
    }
}

/// Whether a driver can make an event, where `going` is the driver whose call is in flight: a step of
/// its own call, or its next command, which waits where it may sleep and a call is in flight.
pub(crate) fn can_move(
    going: Option<u32>,
    driver: u32,
    commands: &[Command],
    standing: &Standing,
) -> bool
    ensures { result ≡ (is_at driver going || can_take going (left_of commands.now standing.now)) }
{
    if going == Some(driver) {
        return true;
    }
    match standing.next(commands) {
        Some(command) => is_atomic(command.act) || going.is_none(),
        None => false,
    }
}

// Makes the next step of the call in flight, or begins the call of a driver's command whose variable
// holds this handle or none.
fn enter<B: Bank>(
    core: &mut Core<B>,
    driver: u32,
    steps: bool,
    held: Option<Handle>,
    act: Act,
) -> Result<Turn, NoMemory>
    requires { MayEnter core.old steps held act }
    ensures ok { IfOk result (λ turn. Enters core.old driver steps held act turn core.new) }
    ensures err { OnErr result (core.new ≡ core.old) }
{
    if steps {
        return Ok(core.step());
    }
    match call_of(held, act) {
        Some(Called::Sleeping(what)) => core.begin(driver, &what),
        Some(Called::Enable(handle)) => Ok(Turn::Done(core.enable(driver, handle))),
        Some(Called::Disable(handle)) => Ok(Turn::Done(core.disable(driver, handle))),
        Some(Called::Running(handle)) => Ok(Turn::Done(core.running(driver, handle))),
        None => unreachable!(),
    }
}

// The driver whose call is in flight behind an answer to a driver.
fn going_behind(going: Option<u32>, driver: u32) -> Option<u32>
    ensures { result ≡ (if is_at driver going then None else going) }
{
    if going == Some(driver) {
        return None;
    }
    going
}

/// Makes the next event of a driver. Gives the driver whose call is in flight behind it.
pub(crate) fn make_event<B: Bank>(
    core: &mut Core<B>,
    driver: u32,
    commands: &[Command],
    standing: &mut Standing,
    going: Option<u32>,
) -> Result<Option<u32>, NoMemory>
    requires { MayMove core.old driver commands.now standing.old going }
    ensures ok { IfOk result (λ after. MakesEvent core.old driver commands.now standing.old going core.new standing.new after) }
    ensures on { HasGoneOn core.old core.new }
{
    let Some(command) = standing.next(commands) else {
        unreachable!()
    };
    let held = handle_of(standing.held.as_slice(), command);
    let steps = going == Some(driver);
    match enter(core, driver, steps, held, command.act)? {
        Turn::Going => Ok(Some(driver)),
        Turn::Done(reply) => {
            standing.answer(commands, command, reply)?;
            Ok(going_behind(going, driver))
        }
    }
}
